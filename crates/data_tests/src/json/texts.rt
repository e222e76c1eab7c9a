//! JSON texts, and what they are read as and written from.

/// A text, and what is wanted of it.
pub(crate) type Row = (&'static [u8], &'static [u8]);

// JSON texts with their values on one line, or with their fault and its place.

/// Values of each kind.
pub(crate) const VALUES: [Row; 29] = [
    (b"null", br#""""#),
    (b"true", b"true"),
    (b"false", b"false"),
    (br#""""#, br#""""#),
    (br#""Hello world!""#, br#""Hello world!""#),
    (b"42", b"42"),
    (b"0", b"0"),
    (b"-0", b"-0"),
    (b"1.", b"1."),
    (b"01", b"01"),
    (b"+1", b"+1"),
    (b".5", b".5"),
    (b"0x1F", b"0x1F"),
    (b"0b101", b"0b101"),
    (b"0o17", b"0o17"),
    (b"1e5", b"1e5"),
    (b"1E+5", b"1E+5"),
    (b"-1.5e-3", b"-1.5e-3"),
    (b"9223372036854775808", b"9223372036854775808"),
    (b"0xffffffffffffffff", b"0xffffffffffffffff"),
    (b"[]", b"[]"),
    (b"{}", b"{}"),
    (b" [ ] ", b"[]"),
    (b"\t{\n}\r ", b"{}"),
    (b"[1,2]", b"[1, 2]"),
    (b"[ 1 , 2 ]", b"[1, 2]"),
    (b"[[],{}]", b"[[], {}]"),
    (b"[null]", br#"[""]"#),
    (br#"["a","b"]"#, br#"["a", "b"]"#),
];

/// Maps and arrays.
pub(crate) const COLLECTIONS: [Row; 13] = [
    (br#"{"a":1}"#, br#"{"a": 1}"#),
    (br#"{ "a" : 1 }"#, br#"{"a": 1}"#),
    (br#"{"a":1,"b":[2]}"#, br#"{"a": 1, "b": [2]}"#),
    (br#"{"a":1,"b":2,"a":3}"#, br#"{"a": 3, "b": 2}"#),
    (br#"{"":0}"#, br#"{"": 0}"#),
    (br#"{"a":{"a":{"a":[]}}}"#, br#"{"a": {"a": {"a": []}}}"#),
    (br#"[{"a":1},{"b":2}]"#, br#"[{"a": 1}, {"b": 2}]"#),
    (br#"{"\u0061":1}"#, br#"{"a": 1}"#),
    (br#"{"a":1,"\u0061":2}"#, br#"{"a": 2}"#),
    (br#"{"a\nb":"c\\d"}"#, br#"{"a\nb": "c\\d"}"#),
    (
        br#"{"a":true,"b":false,"c":null}"#,
        br#"{"a": true, "b": false, "c": ""}"#,
    ),
    (b"[[[1]],[2,[3]]]", b"[[[1]], [2, [3]]]"),
    (
        br#"{"a":[],"b":{},"c":[{}]}"#,
        br#"{"a": [], "b": {}, "c": [{}]}"#,
    ),
];

/// Strings are decoded.
pub(crate) const STRINGS: [Row; 29] = [
    (br#""\"""#, br#""\"""#),
    (br#""\\""#, br#""\\""#),
    (br#""\/""#, br#""/""#),
    (br#""\b\f\n\r\t""#, br#""\b\f\n\r\t""#),
    (br#""\u0041""#, br#""A""#),
    (br#""a\u0062c""#, br#""abc""#),
    (br#""\u00e9""#, b"\"\xc3\xa9\""),
    (br#""\u00E9""#, b"\"\xc3\xa9\""),
    (br#""\u20AC""#, b"\"\xe2\x82\xac\""),
    (br#""\uffff""#, b"\"\xef\xbf\xbf\""),
    (br#""\u0000""#, br#""\u0000""#),
    (br#""\u001F""#, br#""\u001f""#),
    (br#""\u007f""#, b"\"\x7f\""),
    (br#""\u000a""#, br#""\n""#),
    (br#""\uD834\uDD1E""#, b"\"\xf0\x9d\x84\x9e\""),
    (br#""\udbff\udfff""#, b"\"\xf4\x8f\xbf\xbf\""),
    (br#""\ud800""#, b"\"\xef\xbf\xbd\""),
    (br#""\udc00""#, b"\"\xef\xbf\xbd\""),
    (br#""\ud800\ud800""#, b"\"\xef\xbf\xbd\xef\xbf\xbd\""),
    (br#""\udc00\ud800""#, b"\"\xef\xbf\xbd\xef\xbf\xbd\""),
    (br#""\ud800x""#, b"\"\xef\xbf\xbdx\""),
    (br#""\ud800\u0041""#, b"\"\xef\xbf\xbdA\""),
    (br#""\ud800\n""#, b"\"\xef\xbf\xbd\\n\""),
    (
        br#""\ud800\udc00\udc00""#,
        b"\"\xf0\x90\x80\x80\xef\xbf\xbd\"",
    ),
    (
        br#""\ud800\ud800\udc00""#,
        b"\"\xef\xbf\xbd\xf0\x90\x80\x80\"",
    ),
    (b"\"a\tb\"", br#""a\tb""#),
    (b"\"\x01\n\"", br#""\u0001\n""#),
    (b"\"\xff\xc3\"", b"\"\xff\xc3\""),
    (b"\"\xc3\xa9\"", b"\"\xc3\xa9\""),
];

/// Words without a value.
pub(crate) const WORDS: [Row; 19] = [
    (b"tru", b"syntax 1"),
    (b"nul", b"syntax 1"),
    (b"True", b"syntax 1"),
    (b"truex", b"syntax 1"),
    (b"nullnull", b"syntax 1"),
    (b"1x", b"syntax 1"),
    (b"1_000", b"syntax 1"),
    (b"-", b"syntax 1"),
    (b"+", b"syntax 1"),
    (b".", b"syntax 1"),
    (b"1.2.3", b"syntax 1"),
    (b"1e", b"syntax 1"),
    (b"--1", b"syntax 1"),
    (b"0x", b"syntax 1"),
    (b"0x1G", b"syntax 1"),
    (b"NaN", b"syntax 1"),
    (b"Infinity", b"syntax 1"),
    (b"a", b"syntax 1"),
    (b"_", b"syntax 1"),
];

/// Bytes that begin no token.
pub(crate) const BYTES: [Row; 15] = [
    (b"", b"syntax 1"),
    (b" ", b"syntax 2"),
    (b"\n\n", b"syntax 3"),
    (b"}", b"syntax 1"),
    (b"]", b"syntax 1"),
    (b":", b"syntax 1"),
    (b",", b"syntax 1"),
    (b"/", b"syntax 1"),
    (b"'a'", b"syntax 1"),
    (b"\x00", b"syntax 1"),
    (b"\x0b1", b"syntax 1"),
    (b"\xef\xbb\xbf1", b"syntax 1"),
    (b"#", b"syntax 1"),
    (b"[1;2]", b"syntax 3"),
    (b"[\xff]", b"syntax 2"),
];

/// Texts that follow a value.
pub(crate) const FOLLOWING: [Row; 14] = [
    (b"1 2", b"syntax 3"),
    (b"1,", b"syntax 2"),
    (b"[]]", b"syntax 3"),
    (b"{}{", b"syntax 3"),
    (b"true false", b"syntax 6"),
    (br#""a""b""#, b"syntax 4"),
    (br#""a"b"#, b"syntax 4"),
    (br#"1""#, b"syntax 2"),
    (b"1 x", b"syntax 3"),
    (b"1 '", b"syntax 3"),
    (b"1\n\n2", b"syntax 4"),
    (b"{}:", b"syntax 3"),
    (br#""a" "b"#, b"syntax 5"),
    (br#"1 "\x"#, b"syntax 3"),
];

/// Faults in arrays.
pub(crate) const IN_ARRAYS: [Row; 20] = [
    (b"[", b"syntax 2"),
    (b"[1", b"syntax 3"),
    (b"[1 ", b"syntax 4"),
    (b"[1,", b"syntax 4"),
    (b"[1,]", b"syntax 4"),
    (b"[,1]", b"syntax 2"),
    (b"[1 2]", b"syntax 4"),
    (b"[1:2]", b"syntax 3"),
    (b"[:", b"syntax 2"),
    (b"[}", b"syntax 2"),
    (b"[1}", b"syntax 3"),
    (b"[1,,2]", b"syntax 4"),
    (b"[1,}", b"syntax 4"),
    (br#"[1 "a"]"#, b"syntax 4"),
    (br#"[1 "a"#, b"syntax 4"),
    (br#"["a":"#, b"syntax 5"),
    (b"[1,tru]", b"syntax 4"),
    (b"[1 x]", b"syntax 4"),
    (b"[[1]", b"syntax 5"),
    (b"[[1]1", b"syntax 5"),
];

/// Faults in maps.
pub(crate) const IN_MAPS: [Row; 31] = [
    (b"{", b"syntax 2"),
    (br#"{"a""#, b"syntax 5"),
    (br#"{"a":"#, b"syntax 6"),
    (br#"{"a":1"#, b"syntax 7"),
    (br#"{"a":1,"#, b"syntax 8"),
    (br#"{"a":1,}"#, b"syntax 8"),
    (b"{,", b"syntax 2"),
    (b"{:", b"syntax 2"),
    (b"{1:2}", b"syntax 2"),
    (b"{true:1}", b"syntax 2"),
    (b"{nul:1}", b"syntax 2"),
    (b"{{", b"syntax 2"),
    (b"{[", b"syntax 2"),
    (b"{]", b"syntax 2"),
    (br#"{"a" 1}"#, b"syntax 6"),
    (br#"{"a",1}"#, b"syntax 5"),
    (br#"{"a"}"#, b"syntax 5"),
    (br#"{"a":}"#, b"syntax 6"),
    (br#"{"a":,}"#, b"syntax 6"),
    (br#"{"a":]"#, b"syntax 6"),
    (br#"{"a"::1}"#, b"syntax 6"),
    (br#"{"a":1:2}"#, b"syntax 7"),
    (br#"{"a":1]"#, b"syntax 7"),
    (br#"{"a":1 2}"#, b"syntax 8"),
    (br#"{"a":1 "b":2}"#, b"syntax 8"),
    (br#"{"a":1 "b"#, b"syntax 8"),
    (br#"{"a" "b"}"#, b"syntax 6"),
    (br#"{"a":1,2:3}"#, b"syntax 8"),
    (br#"{"a":1,,"#, b"syntax 8"),
    (br#"{"a":nul}"#, b"syntax 6"),
    (br#"{"a":1}x"#, b"syntax 8"),
];

/// Faults in strings.
pub(crate) const IN_STRINGS: [Row; 22] = [
    (br#"""#, b"syntax 2"),
    (br#""a"#, b"syntax 3"),
    (br#""\"#, b"syntax 3"),
    (br#""a\"#, b"syntax 4"),
    (br#""\u"#, b"syntax 4"),
    (br#""\u0"#, b"syntax 5"),
    (br#""\u00"#, b"syntax 6"),
    (br#""\u004"#, b"syntax 7"),
    (br#""\u0041"#, b"syntax 8"),
    (br#""\""#, b"syntax 4"),
    (br#""\x""#, b"syntax 3"),
    (br#""\a""#, b"syntax 3"),
    (br#""\U0041""#, b"syntax 3"),
    (br#""\u00g0""#, b"syntax 6"),
    (br#""\uD8""#, b"syntax 6"),
    (br#""\u""#, b"syntax 4"),
    (br#""\u00E""#, b"syntax 7"),
    (br#"["a"#, b"syntax 4"),
    (br#"{"a"#, b"syntax 4"),
    (br#"["\x"#, b"syntax 4"),
    (br#"{"a":"b"#, b"syntax 8"),
    (br#""ab\qc""#, b"syntax 5"),
];

pub(crate) struct Nested {
    pub(crate) start: &'static [u8],
    pub(crate) count: usize,
    pub(crate) open: &'static [u8],
    pub(crate) inner: &'static [u8],
    pub(crate) close: &'static [u8],
    /// What the text is read as, or nothing where that is the text itself.
    pub(crate) want: Option<&'static [u8]>,
}

/// Texts with so many copies of `open` and of `close`.
pub(crate) const NESTED: [Nested; 7] = [
    Nested {
        start: b"",
        count: 100,
        open: b"[",
        inner: b"",
        close: b"]",
        want: None,
    },
    Nested {
        start: b"",
        count: 100,
        open: br#"{"a": "#,
        inner: b"7",
        close: b"}",
        want: None,
    },
    Nested {
        start: b"",
        count: 100,
        open: b"[",
        inner: b"nul",
        close: b"]",
        want: Some(b"syntax 101"),
    },
    Nested {
        start: b"",
        count: 101,
        open: b"[",
        inner: b"",
        close: b"]",
        want: Some(b"deep 101"),
    },
    Nested {
        start: b"",
        count: 100,
        open: b"[",
        inner: b" {",
        close: b"",
        want: Some(b"deep 102"),
    },
    Nested {
        start: b"",
        count: 100,
        open: b"[",
        inner: b"}",
        close: b"",
        want: Some(b"syntax 101"),
    },
    Nested {
        start: br#"""#,
        count: 10_000,
        open: b"0123456789",
        inner: br#"""#,
        close: b"",
        want: None,
    },
];

/// The examples of RFC 8259, section 13.
pub(crate) const IMAGE: &[u8] = br#"{
  "Image": {
    "Width":  800,
    "Height": 600,
    "Title":  "View from 15th Floor",
    "Thumbnail": {
      "Url":    "http://www.example.com/image/481989943",
      "Height": 125,
      "Width":  100
    },
    "Animated" : false,
    "IDs": [116, 943, 234, 38793]
  }
}"#;

pub(crate) const IMAGE_ON_LINES: &[u8] = br#"{
  "Image": {
    "Width": 800,
    "Height": 600,
    "Title": "View from 15th Floor",
    "Thumbnail": {
      "Url": "http://www.example.com/image/481989943",
      "Height": 125,
      "Width": 100
    },
    "Animated": false,
    "IDs": [116, 943, 234, 38793]
  }
}"#;

pub(crate) const CITIES: &[u8] = br#"[
  {
     "precision": "zip",
     "Latitude":  37.7668,
     "Longitude": -122.3959,
     "Address":   "",
     "City":      "SAN FRANCISCO",
     "Zip":       "94107"
  },
  {
     "precision": "zip",
     "Latitude":  37.371991,
     "Longitude": -122.026020,
     "City":      "SUNNYVALE"
  }
]"#;

pub(crate) const CITIES_ON_LINES: &[u8] = br#"[
  {
    "precision": "zip",
    "Latitude": 37.7668,
    "Longitude": -122.3959,
    "Address": "",
    "City": "SAN FRANCISCO",
    "Zip": "94107"
  },
  {
    "precision": "zip",
    "Latitude": 37.371991,
    "Longitude": -122.026020,
    "City": "SUNNYVALE"
  }
]"#;

/// Texts with their values on lines.
pub(crate) const ON_LINES: [Row; 3] = [
    (IMAGE, IMAGE_ON_LINES),
    (CITIES, CITIES_ON_LINES),
    (
        br#"{"a":[1,[2,[]],{}],"b":[[],3]}"#,
        br#"{
  "a": [
    1,
    [
      2,
      []
    ],
    {}
  ],
  "b": [
    [],
    3
  ]
}"#,
    ),
];

/// Texts as JSON strings.
pub(crate) const QUOTED: [Row; 11] = [
    (b"", br#""""#),
    (b"a/b", br#""a/b""#),
    (b"\"", br#""\"""#),
    (b"\\", br#""\\""#),
    (b"a\tb\nc\rd", br#""a\tb\nc\rd""#),
    (&[8, 12], br#""\b\f""#),
    (&[0, 1], br#""\u0000\u0001""#),
    (&[27, 31], br#""\u001b\u001f""#),
    (b" \x7f", b"\" \x7f\""),
    (&[195, 169], b"\"\xc3\xa9\""),
    (&[255, b'"', 255], b"\"\xff\\\"\xff\""),
];

/// Texts from data as JSON values.
pub(crate) const WRITTEN: [Row; 6] = [
    (b"", br#""""#),
    (b"abc", br#""abc""#),
    (br#"say "hi""#, br#""say \"hi\"""#),
    (b"0x0F", b"0x0F"),
    (b"0.50", b"0.50"),
    (b"9223372036854775808", b"9223372036854775808"),
];
