//! Command lines, and what they make of standard input and of files.

/// Words, standard input, standard output, the message, the status.
pub(crate) type Row = (&'static str, &'static str, &'static str, &'static str, u8);

/// DKVP that is read.
pub(crate) const DKVP: [Row; 7] = [
    (
        "--idkvp --ojson cat",
        "a=1\nb\n",
        "[\n{\n  \"a\": 1\n},\n{\n  \"1\": \"b\"\n}\n]\n",
        "",
        0,
    ),
    (
        "--ojson cat",
        "a=\n\r\n\nb=-0.5",
        "[\n{\n  \"a\": \"\"\n},\n{\n  \"b\": -0.5\n}\n]\n",
        "",
        0,
    ),
    (
        "--ojson cat",
        "=5,k=v=w\n",
        "[\n{\n  \"\": 5,\n  \"k\": \"v=w\"\n}\n]\n",
        "",
        0,
    ),
    (
        "--ojson cat",
        "q=a\"b\\c\td\n",
        "[\n{\n  \"q\": \"a\\\"b\\\\c\\td\"\n}\n]\n",
        "",
        0,
    ),
    ("--ojson cat", "\n\n", "[\n]\n", "", 0),
    (
        "--ojson cat",
        "a=1,a=2\n",
        "[\n{\n  \"a\": 1,\n  \"a_2\": 2\n}\n]\n",
        "",
        0,
    ),
    (
        "--ojson cat",
        "x.y=2,x.z={}\n",
        "[\n{\n  \"x\": {\n    \"y\": 2,\n    \"z\": {}\n  }\n}\n]\n",
        "",
        0,
    ),
];

/// The other formats that are read, and command lines that aren't accepted.
pub(crate) const OTHERS: [Row; 14] = [
    (
        "--icsv --ojson cat",
        "a,b\r\n1,\"x\ny\"\r\n",
        "[\n{\n  \"a\": 1,\n  \"b\": \"x\\ny\"\n}\n]\n",
        "",
        0,
    ),
    (
        "--icsv --ojson cat",
        "a,b\n1,2\n3\n",
        "[\n{\n  \"a\": 1,\n  \"b\": 2\n}",
        "mlr: (stdin): line 3: data length 1, header length 2\n",
        1,
    ),
    (
        "--icsv --ojson cat",
        "a,b\n1\n",
        "",
        "mlr: (stdin): line 2: data length 1, header length 2\n",
        1,
    ),
    (
        "--itsv --ojson cat",
        "a\tb\nx\\ty\t2\n",
        "[\n{\n  \"a\": \"x\\ty\",\n  \"b\": 2\n}\n]\n",
        "",
        0,
    ),
    (
        "--inidx --ojson cat",
        " a  b \n",
        "[\n{\n  \"1\": \"a\",\n  \"2\": \"b\"\n}\n]\n",
        "",
        0,
    ),
    (
        "--ixtab --ojson cat",
        "x 1\n\n\nx 2\n",
        "[\n{\n  \"x\": 1\n},\n{\n  \"x\": 2\n}\n]\n",
        "",
        0,
    ),
    (
        "--ipprint --ojson cat",
        "a b\n1 -\n\nc\n3\n",
        "[\n{\n  \"a\": 1,\n  \"b\": \"-\"\n},\n{\n  \"c\": 3\n}\n]\n",
        "",
        0,
    ),
    (
        "--imd --ojson cat",
        "| a |\n| --- |\n| 1 |\n",
        "[\n{\n  \"a\": 1\n}\n]\n",
        "",
        0,
    ),
    (
        "--imd --ojson cat",
        "| a |\n| --- |\n1\n",
        "",
        "mlr: (stdin): line 3: bad table line\n",
        1,
    ),
    (
        "--json cat",
        "[{\"a.b\":{}}]{}",
        "[\n{\n  \"a.b\": {}\n},\n{}\n]\n",
        "",
        0,
    ),
    ("--ojson", "a=1\n", "", "mlr: word 2: no verb\n", 1),
    ("--icsv --itsv", "a\n", "", "mlr: word 3: no verb\n", 1),
    (
        "--icsv tee cat",
        "a\n",
        "",
        "mlr: word 2: not built: tee\n",
        1,
    ),
    (
        "--md cat",
        "a\n",
        "",
        "mlr: word 1: unknown flag: --md\n",
        1,
    ),
];

/// The formats that are written, and later flags over earlier ones.
pub(crate) const WRITTEN: [Row; 9] = [
    ("cat", "a=1,b=\n", "a=1,b=\n", "", 0),
    ("--ocsv cat", "a=1\nb=,\n", "a\n1\n\nb\n\"\"\n", "", 0),
    ("--ojson --otsv cat", "a=\t\n", "a\n\\t\n", "", 0),
    (
        "--ijson --odkvp cat",
        "{\"a\":{\"b\":1,\"c\":[2]}}",
        "a.b=1,a.c.1=2\n",
        "",
        0,
    ),
    ("--ojsonl cat", "a.b=1\n", "{\"a\": {\"b\": 1}}\n", "", 0),
    ("--oxtab cat", "a=1,bc=2\n", "a  1\nbc 2\n", "", 0),
    ("--onidx cat", "a=1,bc=2\n", "1 2\n", "", 0),
    ("--omd cat", "a=|\n", "| a |\n| --- |\n| \\| |\n", "", 0),
    (
        "--icsv --opprint cat",
        "a,b\n1,\n23,4\n5\n",
        "",
        "mlr: (stdin): line 4: data length 1, header length 2\n",
        1,
    ),
];

/// Files in their order, and left files.
pub(crate) const NAMED: [Row; 10] = [
    ("--icsv cat f", "", "a=1,b=2\n", "", 0),
    (
        "--icsv cat f g f",
        "",
        "a=1,b=2\nb=3\n",
        "mlr: g: line 3: data length 2, header length 1\n",
        1,
    ),
    ("--icsv --opprint cat f f", "", "a b\n1 2\n1 2\n", "", 0),
    (
        "--icsv --ojson cat f none g",
        "",
        "[\n{\n  \"a\": 1,\n  \"b\": 2\n}",
        "mlr: cannot read none\n",
        1,
    ),
    ("--inidx --odkvp cat f", "", "1=a,b\n1=1,2\n", "", 0),
    (
        "--icsv cat f then",
        "",
        "a=1,b=2\n",
        "mlr: cannot read then\n",
        1,
    ),
    (
        "join -i csv -l a -r c --ur --lp l_ -f f",
        "b=3,c=1\nc=2\n",
        "a=1,l_b=2,b=3\nc=2\n",
        "",
        0,
    ),
    ("--icsv join --np --ul -j b -f f f", "", "", "", 0),
    (
        "--icsv cat then join -j b -f g none",
        "",
        "",
        "mlr: g: line 3: data length 2, header length 1\n",
        1,
    ),
    (
        "join -j a -f L then join -j a -f none",
        "",
        "",
        "mlr: cannot read none\n",
        1,
    ),
];

/// Verbs, and verbs joined by `then`.
pub(crate) const VERBS: [Row; 11] = [
    ("nothing", "a=1\n", "", "", 0),
    ("head -n 1", "a=1\na=2\n", "a=1\n", "", 0),
    ("head -n 0", "a=1\n", "", "", 0),
    ("head -n +2 -n 1", "a=1\na=2\n", "a=1\n", "", 0),
    (
        "head",
        "1\n2\n3\n4\n5\n6\n7\n8\n9\n10\n11\n",
        "1=1\n1=2\n1=3\n1=4\n1=5\n1=6\n1=7\n1=8\n1=9\n1=10\n",
        "",
        0,
    ),
    (
        "--icsv --opprint head -n 2",
        "a,b\n1,2\n3\n",
        "",
        "mlr: (stdin): line 3: data length 1, header length 2\n",
        1,
    ),
    (
        "cat then head -n 2 then cat",
        "a=1\na=2\na=3\n",
        "a=1\na=2\n",
        "",
        0,
    ),
    ("head -n 3 then head -n 1", "a=1\na=2\n", "a=1\n", "", 0),
    ("cat then nothing then cat", "a=1\n", "", "", 0),
    ("--ojson nothing", "a=1\n", "[\n]\n", "", 0),
    ("--icsv head -n 1 f g", "", "a=1,b=2\n", "", 0),
];

/// Numbers, for which no input is opened.
pub(crate) const NUMBERS: [Row; 6] = [
    (
        "seqgen -f x --stop 3 then head -n 2",
        "",
        "x=1\nx=2\n",
        "",
        0,
    ),
    ("seqgen --stop 2 none", "", "i=1\ni=2\n", "", 0),
    ("seqgen --start 2 --stop 1", "", "", "", 0),
    (
        "seqgen --start -9223372036854775808 --stop -9223372036854775807",
        "",
        "i=-9223372036854775808\ni=-9223372036854775807\n",
        "",
        0,
    ),
    (
        "--ojson seqgen --stop 1 then cat",
        "",
        "[\n{\n  \"i\": 1\n}\n]\n",
        "",
        0,
    ),
    ("seqgen --stop 5 --stop 1", "", "i=1\n", "", 0),
];

/// Command lines that aren't accepted, and texts that the program says of itself.
pub(crate) const REFUSED: [Row; 16] = [
    ("then", "", "", "mlr: word 1: unknown verb: then\n", 1),
    ("cat then", "", "", "mlr: word 3: no verb\n", 1),
    ("cat -q", "", "", "mlr: word 2: unknown flag: -q\n", 1),
    ("head -n", "", "", "mlr: word 2: missing argument: -n\n", 1),
    ("cut -o", "", "", "mlr: word 1: missing argument: cut\n", 1),
    ("head -n 0x1", "", "", "mlr: word 3: bad number: 0x1\n", 1),
    (
        "--ifs lf cat",
        "",
        "",
        "mlr: word 2: bad separator: lf\n",
        1,
    ),
    (
        "grep ( then cta",
        "",
        "",
        "mlr: word 2: bad pattern: (\n",
        1,
    ),
    ("cat then seqgen", "", "", "mlr: word 3: clash: seqgen\n", 1),
    (
        "join -f x -j a,b -l c",
        "",
        "",
        "mlr: word 1: clash: join\n",
        1,
    ),
    (
        "--skip-comments --json cat",
        "",
        "",
        "mlr: word 1: clash: --skip-comments\n",
        1,
    ),
    (
        "seqgen --stop 9223372036854775807 f",
        "",
        "",
        "mlr: word 2: bad number: --stop\n",
        1,
    ),
    ("head then tee", "", "", "mlr: word 3: not built: tee\n", 1),
    ("--version", "", "mlr 6 whole-number profile\n", "", 0),
    (
        "-h cta",
        "",
        "usage: mlr {flags} {verb} {options} {then verb ..} {files}\n",
        "",
        0,
    ),
    (
        "--icsv --from f --from g --opprint cut -r -f ^b cat",
        "",
        "",
        "mlr: cannot read cat\n",
        1,
    ),
];
