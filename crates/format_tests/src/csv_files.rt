//! Files of CSV and TSV, and the events that each gives.

use crate::pieces::{Group, Opt, Text};
use mlr_event::Format;

/// The examples of RFC 4180, alone and under a header.
const RFC: [Text; 9] = [
    (
        b"aaa,bbb,ccc\r\nzzz,yyy,xxx\r\n",
        b"1:aaa=zzz;bbb=yyy;ccc=xxx; ",
    ),
    (
        b"aaa,bbb,ccc\r\nzzz,yyy,xxx",
        b"1:aaa=zzz;bbb=yyy;ccc=xxx; ",
    ),
    (
        b"field_name,field_name,field_name\r\naaa,bbb,ccc\r\nzzz,yyy,xxx\r\n",
        b"1:field_name=aaa;field_name_2=bbb;field_name_3=ccc; 2:field_name=zzz;field_name_2=yyy;field_name_3=xxx; ",
    ),
    (b"aaa,bbb,ccc", b""),
    (
        b"\"aaa\",\"bbb\",\"ccc\"\r\nzzz,yyy,xxx",
        b"1:aaa=zzz;bbb=yyy;ccc=xxx; ",
    ),
    (
        b"\"aaa\",\"b\r\nbb\",\"ccc\"\r\nzzz,yyy,xxx",
        b"1:aaa=zzz;b\r\nbb=yyy;ccc=xxx; ",
    ),
    (
        b"a,b,c\r\n\"aaa\",\"b\r\nbb\",\"ccc\"\r\nzzz,yyy,xxx",
        b"1:a=aaa;b=b\r\nbb;c=ccc; 2:a=zzz;b=yyy;c=xxx; ",
    ),
    (b"\"aaa\",\"b\"\"bb\",\"ccc\"", b""),
    (
        b"a,b,c\r\n\"aaa\",\"b\"\"bb\",\"ccc\"",
        b"1:a=aaa;b=b\"bb;c=ccc; ",
    ),
];

/// Quotes in fields: alone, doubled, followed by more bytes, and over several lines.
const QUOTES: [Text; 23] = [
    (b"a\nx\"y\"z\n", b"1:a=x\"y\"z; "),
    (b"a,b\nx\"y,z\"w\n", b"1:a=x\"y;b=z\"w; "),
    (b"a\n \"x\"\n", b"1:a= \"x\"; "),
    (b"a,b\n\"x\"y,\"z\" \n", b"1:a=xy;b=z ; "),
    (b"a\n\"x\"y\"z\"\n", b"1:a=xy\"z\"; "),
    (b"a\n\"x\"\"\"\n", b"1:a=x\"; "),
    (b"a\n\"\"x\n", b"1:a=x; "),
    (b"a\n\"\"1\n", b"1:a=1; "),
    (b"a\n\"1\"2\n", b"1:a=12; "),
    (b"a\n\"\"\"\"\n", b"1:a=\"; "),
    (b"a\n\"\"\n", b"1:a=; "),
    (b"\"\"\n1\n", b"1:=#1; "),
    (b"a,b\n1,\"1\"\n,\"\"\n", b"1:a=#1;b=1; 2:a=;b=; "),
    (b"a,b\n\"1,2\",3\n", b"1:a=1,2;b=#3; "),
    (b"a,b\n\"x\"\"y\",\"z\"\"\"\n", b"1:a=x\"y;b=z\"; "),
    (b"a\n\"x\ny\"\n", b"1:a=x\ny; "),
    (b"\"a\nb\"\n\"c\nd\"\n", b"1:a\nb=c\nd; "),
    (b"a,b\n\"x\n\n\ny\",1\n", b"1:a=x\n\n\ny;b=#1; "),
    (b"a\n\"x\n\"\"\n\"\"\"\n", b"1:a=x\n\"\n\"; "),
    (
        b"a,b\n\"1\n2\",\"3\n4\"\n5,6\n",
        b"1:a=1\n2;b=3\n4; 2:a=#5;b=#6; ",
    ),
    (b"a\n\"x\n\"y\n", b"1:a=x\ny; "),
    (
        b"a\n\"a text of more than sixteen bytes\"\n",
        b"1:a=a text of more than sixteen bytes; ",
    ),
    (
        b"\"a name of more than sixteen bytes\"\nx\n",
        b"1:a name of more than sixteen bytes=x; ",
    ),
];

/// Empty lines, carriage returns, kinds of values, and names that repeat.
const LINES: [Text; 27] = [
    (b"", b""),
    (b"\n\r\n\n", b""),
    (b"a,b", b""),
    (b"a,b\r\n", b""),
    (b"\"a\nb\"\n", b""),
    (b"a\n1", b"1:a=#1; "),
    (b"a\nx\ry\r", b"1:a=x\ry\r; "),
    (b"a\rb\nx\n", b"1:a\rb=x; "),
    (b"a\nx\r\r\n", b"1:a=x\r; "),
    (b"a\n\r", b"1:a=\r; "),
    (b"a\n\r\r\n", b"1:a=\r; "),
    (b"a\n\"\r\n\r\"\r\n", b"1:a=\r\n\r; "),
    (b"a,b\r\n\"x\r\",\"y\r\n\"\r\n", b"1:a=x\r;b=y\r\n; "),
    (b"\n\r\na\n\n1\n\r\n", b"1:a=#1; "),
    (b"a\n\n\n1\n\n\n2\n\n", b"1:a=#1; 2:a=#2; "),
    (b"a\n \n", b"1:a= ; "),
    (b"a,b,c\n,,\n", b"1:a=;b=;c=; "),
    (b"a,b\n1,\n,2\n", b"1:a=#1;b=; 2:a=;b=#2; "),
    (b",\n1,2\n", b"1:=#1;_2=#2; "),
    (b"a,\n1,2\n", b"1:a=#1;=#2; "),
    (b"a,b,c\n-1,0x1f,1.5\n", b"1:a=#-1;b=#0x1f;c=1.5; "),
    (b"a,b\n1_000,1 \n", b"1:a=1_000;b=1 ; "),
    (b"\xff,\x00\n\x80,\x01\n", b"1:\xff=\x80;\x00=\x01; "),
    (b"a,a,a\n1,2,3\n", b"1:a=#1;a_2=#2;a_3=#3; "),
    (b"a,a_2,a\n1,2,3\n", b"1:a=#1;a_2=#2;a_3=#3; "),
    (b"a,a,a_2\n1,2,3\n", b"1:a=#1;a_2=#2;a_2_2=#3; "),
    (b"#a\nx#\n#\n", b"1:#a=x#; 2:#a=#; "),
];

/// A byte order mark is dropped only at the start of a file.
const MARKS: [Text; 10] = [
    (b"\xef\xbb\xbf", b""),
    (b"\xef\xbb\xbfa\n1\n", b"1:a=#1; "),
    (b"\xef\xbb\xbf\"a\"\n1\n", b"1:a=#1; "),
    (b"\xef\xbb\xbf\na\n1\n", b"1:a=#1; "),
    (b"\xef\xbb\xbf\"a\n", b"!1 "),
    (b"\xef\xbb\n1", b"1:\xef\xbb=#1; "),
    (b"\xef\xbb\xbf\xef\xbb\xbfa\nx\n", b"1:\xef\xbb\xbfa=x; "),
    (b"\n\xef\xbb\xbfa\nx\n", b"1:\xef\xbb\xbfa=x; "),
    (b"\"\xef\xbb\xbfa\"\n\"\"\"\"\n", b"1:\xef\xbb\xbfa=\"; "),
    (b"a\n\xef\xbb\xbf1\n", b"1:a=\xef\xbb\xbf1; "),
];

/// A fault names the line on which its row begins.
const FAULTS: [Text; 18] = [
    (b"a,b\n1\n", b"!2!2!1 "),
    (b"a\n1,2\n", b"!2!1!2 "),
    (b"a,b\n1,2,3\n", b"!2!2!3 "),
    (b"a,b\n\n\r\n1\n", b"!4!2!1 "),
    (b"a,b\n1,2\n3", b"1:a=#1;b=#2; !3!2!1 "),
    (b"a,b\n1,2\n3\n4,5\n", b"1:a=#1;b=#2; !3!2!1 "),
    (b"a,b\n1\n2\n\"", b"!2!2!1 "),
    (b"a,b\n\"x\ny\"\n", b"!2!2!1 "),
    (
        b"a,b\n\"x\ny\",\"\n\"\n\"u\nv\"\n",
        b"1:a=x\ny;b=\n; !5!2!1 ",
    ),
    (b"\"a\nb\",c\n1,\"\n\n\"\"\n\",3\n", b"!3!2!3 "),
    (b"a\n1\n\n\"x\ny", b"1:a=#1; !4 "),
    (b"a\n\"x\n", b"!2 "),
    (b"\"", b"!1 "),
    (b"a,b\n1,\"x", b"!2 "),
    (b"a\n\"\"\"\n", b"!2 "),
    (b"a\n\"\r\n", b"!2 "),
    (b"a,b\n\"1\n2\",\"3\n4", b"!2 "),
    (b"a,b\n\"1\n2\",3\n\n4,\"5\n", b"1:a=1\n2;b=#3; !5 "),
];

/// In TSV, tabs, newlines and backslashes are escaped, and quotes are plain bytes.
const TSV: [Text; 20] = [
    (b"", b""),
    (b"a\tb", b""),
    (b"a\tb\n1\tx\n", b"1:a=#1;b=x; "),
    (
        b"a\tb\r\nx\\ty\tz\\n\\\\\\q\\\n",
        b"1:a=x\ty;b=z\n\\\\q\\; ",
    ),
    (b"a\n\"x\n\"\"\n", b"1:a=\"x; 2:a=\"\"; "),
    (b"a\tb\n\"x\ty\"\n", b"1:a=\"x;b=y\"; "),
    (b"a\n\"x", b"1:a=\"x; "),
    (b"a\\tb\tc\n\t1\n", b"1:a\tb=;c=#1; "),
    (b"a\n\\\\t\n", b"1:a=\\t; "),
    (b"a\n\\\\\\t\n", b"1:a=\\\t; "),
    (b"a\n\\r\\\"\n", b"1:a=\\r\\\"; "),
    (b"a\n1\\n2\n", b"1:a=1\n2; "),
    (b"a\n\\\r\n", b"1:a=\\; "),
    (b"a\tb\n\t\n", b"1:a=;b=; "),
    (b"a,b\nx,y\n", b"1:a,b=x,y; "),
    (b"a\ta\n1\t2\n", b"1:a=#1;a_2=#2; "),
    (b"\n\r\na\n\n1", b"1:a=#1; "),
    (b"\xef\xbb\xbfa\n1\r", b"1:a=1\r; "),
    (b"a\tb\n1\n", b"!2!2!1 "),
    (b"a\n\n1\t2\n3\n", b"!3!1!2 "),
];

/// Without a header, the names are positions.
const IMPLICIT: [Text; 6] = [
    (b"", b""),
    (b"x", b"1:1=x; "),
    (b"\n\r\nx,y\n\n1,2", b"1:1=x;2=y; 2:1=#1;2=#2; "),
    (b"\"a\nb\",c\n", b"1:1=a\nb;2=c; "),
    (b"1\n2,3\n", b"1:1=#1; !2!1!2 "),
    (b"\"1\n", b"!1 "),
];

/// Without a header, each ragged row has as many fields as it has values.
const RAGGED: [Text; 4] = [
    (
        b"x,y\n1\n\"2\",3,4\n",
        b"1:1=x;2=y; 2:1=#1; 3:1=2;2=#3;3=#4; ",
    ),
    (b"x", b"1:1=x; "),
    (b"\"x\ny\",,\n,\n", b"1:1=x\ny;2=;3=; 2:1=;2=; "),
    (b"", b""),
];

/// Under a header, a ragged row leaves out names, or names its surplus values by position.
const SURPLUS: [Text; 4] = [
    (b"a,b\n1\n2,3,4,5\n", b"1:a=#1; 2:a=#2;b=#3;3=#4;4=#5; "),
    (b"3,b\n1,2,3\n", b"1:3=#1;b=#2;3_2=#3; "),
    (b"a,a\n1,2,3\n", b"1:a=#1;a_2=#2;3=#3; "),
    (b"a,b,c\n1,\"2\n", b"!2 "),
];

/// Of fields whose names repeat, the last value remains.
const REPEATED: [Text; 4] = [
    (b"a,b,a\n1,2,3\n4,5,6\n", b"1:a=#3;b=#2; 2:a=#6;b=#5; "),
    (b"a,b\n1,2\n", b"1:a=#1;b=#2; "),
    (b"a,a\n\"x\ny\",\n", b"1:a=; "),
    (b"a,b\n1,2,3\n", b"!2!2!3 "),
];

/// Of surplus values whose positions repeat names, the last value remains.
const BOTH: [Text; 2] = [
    (b"a,3\n1,2,5\n", b"1:a=#1;3=#5; "),
    (b"a,a,b\n1\n1,2,3,4\n", b"1:a=#1; 2:a=#2;b=#3;4=#4; "),
];

/// A separator of two bytes is found whole.
const SEPARATORS: [Text; 6] = [
    (b"a::b\n1:::2\n", b"1:a=#1;b=:2; "),
    (b"a::b\n1:2::3:\n", b"1:a=1:2;b=3:; "),
    (b"a::b\n\"x\":\"y\"::z\n", b"1:a=x:\"y\";b=z; "),
    (b"a::b\n\"x::\n::\"::\n", b"1:a=x::\n::;b=; "),
    (b"a::::b\n1::2::3\n", b"1:a=#1;=#2;b=#3; "),
    (b"a:b\n1::2\n", b"!2!1!2 "),
];

/// Comments are skipped where a row may begin.
const SKIP: [Text; 10] = [
    (b"#x\na\n#y\n1\n#z", b"1:a=#1; "),
    (b"\n#x\r\n\na\r\n#y\r\n1\r\n", b"1:a=#1; "),
    (b"a\n\"#x\n#y\"\n", b"1:a=#x\n#y; "),
    (b"a\n #x\n1#\n", b"1:a= #x; 2:a=1#; "),
    (b"a,b\n#1,2\n3,#4\n", b"1:a=#3;b=#4; "),
    (b"a\n#\"\n1\n", b"1:a=#1; "),
    (b"#\"\na\n1\n#\"", b"1:a=#1; "),
    (b"\xef\xbb\xbf#x\na\n1\n", b"1:a=#1; "),
    (b"#x\na,b\n#y\n1\n", b"!4!2!1 "),
    (b"a\n#\n\"#\n", b"!3 "),
];

/// Comments are events of their own where a row may begin.
const PASS: [Text; 7] = [
    (b"#x\na\n#y\r\n1\n#z", b"#x\n #y\n 1:a=#1; #z\n "),
    (b"#", b"#\n "),
    (b"#\r", b"#\r\n "),
    (b"a\n\"#x\n#y\"\n#", b"1:a=#x\n#y; #\n "),
    (b"#,\"\na\n#1,2\n", b"#,\"\n #1,2\n "),
    (b"a,b\n1\n#x\n", b"!2!2!1 "),
    (b"a\n#x\n\"1\n#y\n", b"#x\n !3 "),
];

/// A prefix of two bytes is found whole.
const LONG_PREFIX: [Text; 2] = [
    (b"// x\na\n/1\n//", b"1:a=/1; "),
    (b"/\n//\n/\"\n", b"1:/=/\"; "),
];

/// A separator and a prefix of two bytes each.
const LONG_BOTH: [Text; 3] = [
    (
        b"%% x\r\na::b:c\n%%y\n1::\"2::3\"\n\"\n%%\"::%%\n",
        b"%% x\n %%y\n 1:a=#1;b:c=2::3; 2:a=\n%%;b:c=%%; ",
    ),
    (b"%a\n1\n%%", b"1:%a=#1; %%\n "),
    (b"a::\"\n%%", b"!1 "),
];

/// Comments in TSV.
const TSV_PASS: [Text; 1] = [(b"#x\na\tb\n#\t\"\n1\t#2\n", b"#x\n #\t\"\n 1:a=#1;b=#2; ")];

/// Ragged rows in TSV.
const TSV_RAGGED: [Text; 1] = [(b"a\tb\n1\n2\t3\t\\t\n", b"1:a=#1; 2:a=#2;b=#3;3=\t; ")];

/// The options under which each table of files is read.
pub(crate) const GROUPS: [Group; 20] = [
    ("standard", Format::Csv, &[], &RFC),
    ("quotes", Format::Csv, &[], &QUOTES),
    ("lines", Format::Csv, &[], &LINES),
    ("marks", Format::Csv, &[], &MARKS),
    ("faults", Format::Csv, &[], &FAULTS),
    ("tsv", Format::Tsv, &[], &TSV),
    ("no separator", Format::Csv, &[Opt::Ifs(b"")], &[]),
    ("other format", Format::Dkvp, &[], &[]),
    ("implicit", Format::Csv, &[Opt::Implicit], &IMPLICIT),
    (
        "implicit and ragged",
        Format::Csv,
        &[Opt::Implicit, Opt::Ragged],
        &RAGGED,
    ),
    ("ragged", Format::Csv, &[Opt::Ragged], &SURPLUS),
    ("repeated", Format::Csv, &[Opt::Repeats], &REPEATED),
    (
        "ragged and repeated",
        Format::Csv,
        &[Opt::Ragged, Opt::Repeats],
        &BOTH,
    ),
    ("separators", Format::Csv, &[Opt::Ifs(b"::")], &SEPARATORS),
    ("skip", Format::Csv, &[Opt::Skip(b"#")], &SKIP),
    ("pass", Format::Csv, &[Opt::Pass(b"#")], &PASS),
    (
        "long prefix",
        Format::Csv,
        &[Opt::Skip(b"//")],
        &LONG_PREFIX,
    ),
    (
        "long prefix and separator",
        Format::Csv,
        &[Opt::Ifs(b"::"), Opt::Pass(b"%%")],
        &LONG_BOTH,
    ),
    ("tsv, pass", Format::Tsv, &[Opt::Pass(b"#")], &TSV_PASS),
    ("tsv, ragged", Format::Tsv, &[Opt::Ragged], &TSV_RAGGED),
];
