//! The worked examples of the specification that the program accepts, as they are written there.
use crate::test_rows::Row;

/// A command line, its standard input and what it leaves.
pub(crate) const WORKED: [Row; 30] = [
    (
        "sec2gmt t",
        "t=1500000000,u=hello\n",
        "t=2017-07-14T02:40:00Z,u=hello\n",
        "",
        0,
    ),
    (
        "--icsv --opprint cta",
        "a\n",
        "",
        "mlr: word 3: unknown verb: cta\n",
        1,
    ),
    (
        "--ojson cat",
        "a=1,b=xyz\n",
        "[\n{\n  \"a\": 1,\n  \"b\": \"xyz\"\n}\n]\n",
        "",
        0,
    ),
    ("--icsv --ojson cat", "", "[\n]\n", "", 0),
    (
        "--icsv --ocsv cat",
        "a,b\n1,2\n3\n",
        "a,b\n1,2\n",
        "mlr: (stdin): line 3: data length 1, header length 2\n",
        1,
    ),
    (
        "--opprint cat",
        "a=1,bcd=\na=20,bcd=5\ne=6\n",
        "a  bcd\n1  -\n20 5\n\ne\n6\n",
        "",
        0,
    ),
    (
        "--oxtab cat",
        "a=1,bcd=\na=20,bcd=5\ne=6\n",
        "a   1\nbcd \n\na   20\nbcd 5\n\ne 6\n",
        "",
        0,
    ),
    (
        "join --np --ul -j id -f L",
        "id=9,b=w\n",
        "id=1,a=x\nid=2,a=y\nid=1,a=z\n",
        "",
        0,
    ),
    (
        "join -j id -f L",
        "id=1,b=w\n",
        "id=1,a=x,b=w\nid=1,a=z,b=w\n",
        "",
        0,
    ),
    (
        "seqgen -f i --start 1 --stop 1000000000000 then head -n 2",
        "",
        "i=1\ni=2\n",
        "",
        0,
    ),
    (
        "--icsv --ojson cat",
        "\u{feff}a,b\r\n\"x\ny\",\"p\"\"q\"",
        "[\n{\n  \"a\": \"x\\ny\",\n  \"b\": \"p\\\"q\"\n}\n]\n",
        "",
        0,
    ),
    (
        "--icsv --ocsv cat",
        "a\n1\n\"2",
        "a\n1\n",
        "mlr: (stdin): line 3: unclosed quote\n",
        1,
    ),
    (
        "--json cat",
        "{\"a\":{\"a\":{\"a\":{\"a\":{\"a\":{\"a\":{\"a\":{\"a\":{\"a\":{\"a\":{\"a\":{\"a\":{\"a\":{\"a\":\
         {\"a\":{\"a\":{\"a\":{\"a\":{\"a\":{\"a\":{\"a\":{\"a\":{\"a\":{\"a\":{\"a\":{\"a\":{\"a\":{\"a\":\
         {\"a\":{\"a\":{\"a\":{\"a\":{\"a\":{\"a\":{\"a\":{\"a\":{\"a\":{\"a\":{\"a\":{\"a\":{\"a\":{\"a\":\
         {\"a\":{\"a\":{\"a\":{\"a\":{\"a\":{\"a\":{\"a\":{\"a\":{\"a\":{\"a\":{\"a\":{\"a\":{\"a\":{\"a\":\
         {\"a\":{\"a\":{\"a\":{\"a\":{\"a\":{\"a\":{\"a\":{\"a\":{\"a\":{\"a\":{\"a\":{\"a\":{\"a\":{\"a\":\
         {\"a\":{\"a\":{\"a\":{\"a\":{\"a\":{\"a\":{\"a\":{\"a\":{\"a\":{\"a\":{\"a\":{\"a\":{\"a\":{\"a\":\
         {\"a\":{\"a\":{\"a\":{\"a\":{\"a\":{\"a\":{\"a\":{\"a\":{\"a\":{\"a\":{\"a\":{\"a\":{\"a\":{\"a\":\
         {\"a\":{\"a\":{\"a\":",
        "",
        "mlr: (stdin): byte 501: nested deeper than 100\n",
        1,
    ),
    ("--ocsv cat", "a=1,b=2\nc=3\n", "a,b\n1,2\n\nc\n3\n", "", 0),
    ("cat nosuch", "", "", "mlr: cannot read nosuch\n", 1),
    ("head -n 0 nosuch", "", "", "", 0),
    (
        "--ijson --ocsv cat",
        "{\"a\":{\"b\":1,\"c\":[2,{}]}}\n",
        "a.b,a.c.1,a.c.2\n1,2,{}\n",
        "",
        0,
    ),
    (
        "--ojson cat",
        "a.1=5,a.2=6,b.x={}\n",
        "[\n{\n  \"a\": [5, 6],\n  \"b\": {\n    \"x\": {}\n  }\n}\n]\n",
        "",
        0,
    ),
    (
        "--inidx --omd cat",
        "  p  q|r\n",
        "| 1 | 2 |\n| --- | --- |\n| p | q\\|r |\n",
        "",
        0,
    ),
    (
        "--itsv --ojsonl cat",
        "k\tv\na\\tb\t7\n",
        "{\"k\": \"a\\tb\", \"v\": 7}\n",
        "",
        0,
    ),
    ("cat", "a=1,a=2,a=3\n", "a=1,a_2=2,a_3=3\n", "", 0),
    (
        "--icsv --opprint cat",
        "a,b\n1,2\n3\n",
        "",
        "mlr: (stdin): line 3: data length 1, header length 2\n",
        1,
    ),
    ("--ojson cat", "", "[\n]\n", "", 0),
    (
        "--ojson cat",
        "x=007,y=0x1G\n",
        "[\n{\n  \"x\": 007,\n  \"y\": \"0x1G\"\n}\n]\n",
        "",
        0,
    ),
    (
        "--icsv --ojson cat",
        "a\n1\n\"2",
        "[\n{\n  \"a\": 1\n}",
        "mlr: (stdin): line 3: unclosed quote\n",
        1,
    ),
    (
        "--ijson --ojson cat",
        "{\"a\":1} 7",
        "[\n{\n  \"a\": 1\n}",
        "mlr: (stdin): byte 9: not a map\n",
        1,
    ),
    (
        "--ixtab --ojson cat",
        "x  1\ny",
        "[\n{\n  \"x\": 1,\n  \"y\": \"\"\n}\n]\n",
        "",
        0,
    ),
    (
        "--icsv --opprint head -n 1",
        "a,b\n1,2\n3\n",
        "a b\n1 2\n",
        "",
        0,
    ),
    ("head -n 1 then head -n 0 nosuch", "", "", "", 0),
    (
        "seqgen --start 3 --stop 1 --step -1",
        "",
        "i=3\ni=2\ni=1\n",
        "",
        0,
    ),
];
