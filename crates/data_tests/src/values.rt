//! What texts, values and collections become, by tables.
ghost use Rattle.std.specs.Prelude.{◌≤◌, length};

mod operands;

use mlr_spec::{InferOpts, Kind, NoMemory, Order};
use mlr_value::{
    ArrayValue, Bytes, IntValue, MapValue, Value, append_text, arith, arith1, compare, from_data,
    from_data_first, infer, text_of,
};
use operands::{
    BY_FOLDED, BY_FOLDED_DOWN, BY_KIND, BY_NUMBER, BY_NUMBER_DOWN, BY_TEXT, BY_TEXT_DOWN, Binary,
    MIXED, OF_INTS, Ranked, UNARY,
};
use std::alloc::Global;
use std::test::Fail;

const PLAIN: InferOpts = InferOpts {
    none: false,
    octal: false,
};

const OCTAL: InferOpts = InferOpts {
    none: false,
    octal: true,
};

const NONE: InferOpts = InferOpts {
    none: true,
    octal: true,
};

/// A text from data, how it is read, and its kind.
const DATA: [(&str, InferOpts, Kind); 52] = [
    ("", NONE, Kind::Empty),
    ("", PLAIN, Kind::Empty),
    ("7", NONE, Kind::Str),
    ("abc", PLAIN, Kind::Str),
    ("+5", PLAIN, Kind::Int(5)),
    ("-0", PLAIN, Kind::Int(0)),
    ("007", PLAIN, Kind::Int(7)),
    ("-007", PLAIN, Kind::Int(-7)),
    ("0", OCTAL, Kind::Int(0)),
    ("-010", OCTAL, Kind::Int(-8)),
    ("08", OCTAL, Kind::Int(8)),
    ("010", PLAIN, Kind::Int(10)),
    ("9223372036854775807", PLAIN, Kind::Int(i64::MAX)),
    ("9223372036854775808", PLAIN, Kind::Wide),
    ("-9223372036854775808", PLAIN, Kind::Int(i64::MIN)),
    ("-9223372036854775809", PLAIN, Kind::Wide),
    ("18446744073709551616", PLAIN, Kind::Wide),
    ("18446744073709551616x", PLAIN, Kind::Str),
    ("0x0F", PLAIN, Kind::Int(15)),
    ("0x0000000000000000000F", PLAIN, Kind::Int(15)),
    ("0XfF", PLAIN, Kind::Int(255)),
    ("0b101", PLAIN, Kind::Int(5)),
    ("0o17", PLAIN, Kind::Int(15)),
    ("0x", PLAIN, Kind::Str),
    ("0x1G", PLAIN, Kind::Str),
    ("0b2", PLAIN, Kind::Str),
    ("0xffffffffffffffff", PLAIN, Kind::Int(-1)),
    ("0x8000000000000000", PLAIN, Kind::Int(i64::MIN)),
    ("-0x8000000000000000", PLAIN, Kind::Int(i64::MIN)),
    ("-0x8000000000000001", PLAIN, Kind::Wide),
    ("-0xffffffffffffffff", PLAIN, Kind::Wide),
    ("0x10000000000000000", PLAIN, Kind::Wide),
    ("1e5", PLAIN, Kind::Frac),
    ("1.e5", PLAIN, Kind::Frac),
    ("-1.", PLAIN, Kind::Frac),
    ("+.5E-3", PLAIN, Kind::Frac),
    ("0.50", PLAIN, Kind::Frac),
    ("0.25", OCTAL, Kind::Frac),
    ("010.5", OCTAL, Kind::Frac),
    (".", PLAIN, Kind::Str),
    (".e5", PLAIN, Kind::Str),
    ("1e", PLAIN, Kind::Str),
    ("1e+", PLAIN, Kind::Str),
    ("1.2.3", PLAIN, Kind::Str),
    ("1e5.5", PLAIN, Kind::Str),
    ("1_000", PLAIN, Kind::Str),
    ("2023-01-01", PLAIN, Kind::Str),
    ("Inf", PLAIN, Kind::Str),
    ("-", PLAIN, Kind::Str),
    ("--1", PLAIN, Kind::Str),
    ("1 ", PLAIN, Kind::Str),
    ("e5", PLAIN, Kind::Str),
];

/// A value that is made and not read.
enum Made {
    Absent,
    Bool(bool),
    Int(i64),
    Error,
}

/// A value, and what it prints.
const MADE: [(Made, &str); 8] = [
    (Made::Absent, ""),
    (Made::Bool(true), "true"),
    (Made::Bool(false), "false"),
    (Made::Error, "(error)"),
    (Made::Int(0), "0"),
    (Made::Int(-7), "-7"),
    (Made::Int(i64::MAX), "9223372036854775807"),
    (Made::Int(i64::MIN), "-9223372036854775808"),
];

/// The value.
fn value_of(alloc: Global, made: &Made) -> Value {
    match made {
        Made::Absent => Value::Absent,
        Made::Bool(b) => Value::Bool(*b),
        Made::Error => Value::Error,
        Made::Int(n) => Value::Int(IntValue {
            n: *n,
            spelling: Bytes::new(alloc),
        }),
    }
}

/// The kind of a value that data can have.
fn kind(value: &Value) -> Option<Kind> {
    match value {
        Value::Empty => Some(Kind::Empty),
        Value::Str(_) => Some(Kind::Str),
        Value::Int(int) => Some(Kind::Int(int.n)),
        Value::Frac(_) => Some(Kind::Frac),
        Value::Wide(_) => Some(Kind::Wide),
        _ => None,
    }
}

/// Whether a text is read as this kind, and it and its copy print the text.
fn is_read(alloc: Global, row: &(&str, InferOpts, Kind)) -> Result<bool, NoMemory> {
    let (text, opts, want) = *row;
    let value = from_data(alloc, text.as_bytes(), opts)?;
    let copy = value.copy(alloc)?;
    let mut printed = Bytes::new(alloc);
    append_text(&value, &mut printed)?;
    let mut copied = Bytes::new(alloc);
    append_text(&copy, &mut copied)?;
    let mut line = Bytes::copy_of(alloc, text.as_bytes())?;
    line.append(LONG)?;
    let first = from_data_first(alloc, line.as_slice(), text.len(), opts)?;
    Ok(
        infer(text.as_bytes(), opts) == want
            && kind(&value) == Some(want)
            && kind(&first) == Some(want)
            && kind(&copy) == Some(want)
            && printed.as_slice() == text.as_bytes()
            && copied == printed,
    )
}

fn first_misread(alloc: Global) -> Result<Option<usize>, NoMemory> {
    for (i, row) in DATA.iter().enumerate() {
        if !is_read(alloc, row)? {
            return Ok(Some(i));
        }
    }
    Ok(None)
}

/// Whether a value that was made prints this text, also after another one.
fn is_printed(alloc: Global, made: &Made, want: &str) -> Result<bool, NoMemory> {
    let value = value_of(alloc, made);
    if value.is_collection() {
        return Ok(false);
    }
    let mut text = text_of(alloc, &value)?;
    let alone = text.as_slice() == want.as_bytes();
    append_text(&value, &mut text)?;
    Ok(alone && &text.as_slice()[want.len()..] == want.as_bytes())
}

fn first_misprinted(alloc: Global) -> Result<Option<usize>, NoMemory> {
    for (i, (made, want)) in MADE.iter().enumerate() {
        if !is_printed(alloc, made, *want)? {
            return Ok(Some(i));
        }
    }
    Ok(None)
}

/// The value of a text from data, or the one of another kind that the text names.
fn operand(alloc: Global, text: &str) -> Result<Value, NoMemory> {
    match text {
        "absent" => Ok(Value::Absent),
        "error" => Ok(Value::Error),
        "true" => Ok(Value::Bool(true)),
        "false" => Ok(Value::Bool(false)),
        "map" => Ok(Value::Map(MapValue::new(alloc)?)),
        "array" => Ok(Value::Array(ArrayValue::new(alloc))),
        text => from_data(alloc, text.as_bytes(), PLAIN),
    }
}

/// Whether a value prints a text, where `absent` is no value.
fn shows(alloc: Global, value: &Value, text: &str) -> Result<bool, NoMemory> {
    if text == "absent" {
        return Ok(value.is_absent());
    }
    let mut printed = Bytes::new(alloc);
    append_text(value, &mut printed)?;
    Ok(!value.is_absent() && printed.as_slice() == text.as_bytes())
}

fn first_wrong_result(alloc: Global, rows: &[Binary]) -> Result<Option<usize>, NoMemory> {
    for (i, (op, x, y, want)) in rows.iter().enumerate() {
        let result = arith(alloc, *op, &operand(alloc, *x)?, &operand(alloc, *y)?)?;
        if !shows(alloc, &result, *want)? {
            return Ok(Some(i));
        }
    }
    Ok(None)
}

fn first_wrong_unary(alloc: Global) -> Result<Option<usize>, NoMemory> {
    for (i, (op, x, want)) in UNARY.iter().enumerate() {
        let result = arith1(alloc, *op, &operand(alloc, *x)?)?;
        if !shows(alloc, &result, *want)? {
            return Ok(Some(i));
        }
    }
    Ok(None)
}

/// Whether an order has a value to each of these as their ranks are.
fn is_ranked(
    alloc: Global,
    order: Order,
    first: &Ranked,
    rows: &[Ranked],
) -> Result<bool, NoMemory> {
    let value = operand(alloc, first.1)?;
    for (rank, text) in rows {
        let other = operand(alloc, *text)?;
        if compare(order, &value, &other) != first.0.cmp(rank) {
            return Ok(false);
        }
    }
    Ok(true)
}

fn first_unordered(
    alloc: Global,
    order: Order,
    rows: &[Ranked],
) -> Result<Option<usize>, NoMemory> {
    for (i, row) in rows.iter().enumerate() {
        if !is_ranked(alloc, order, row, rows)? {
            return Ok(Some(i));
        }
    }
    Ok(None)
}

/// The values of an order by their ranks, for each order.
const ORDERS: [(Order, &[Ranked]); 7] = [
    (Order::Text, &BY_TEXT),
    (Order::TextDown, &BY_TEXT_DOWN),
    (Order::Folded, &BY_FOLDED),
    (Order::FoldedDown, &BY_FOLDED_DOWN),
    (Order::Number, &BY_NUMBER),
    (Order::NumberDown, &BY_NUMBER_DOWN),
    (Order::Mixed, &MIXED),
];

/// More than the 20 bytes that take no memory.
const LONG: &[u8] = b"0123456789abcdefghijklmnopqrstuvwxyz+-*/";

struct Pair {
    first: &'static [u8],
    second: &'static [u8],
    are_equal: bool,
    /// The first text after the second one was appended to it.
    joined: &'static [u8],
}

/// Two texts, compared and joined.
const PAIRS: [Pair; 10] = [
    Pair {
        first: b"",
        second: b"",
        are_equal: true,
        joined: b"",
    },
    Pair {
        first: b"",
        second: b"ab",
        are_equal: false,
        joined: b"ab",
    },
    Pair {
        first: b"a",
        second: b"b",
        are_equal: false,
        joined: b"ab",
    },
    Pair {
        first: b"ab",
        second: b"",
        are_equal: false,
        joined: b"ab",
    },
    Pair {
        first: b"0123456789abcdef",
        second: b"g",
        are_equal: false,
        joined: b"0123456789abcdefg",
    },
    Pair {
        first: LONG,
        second: LONG,
        are_equal: true,
        joined: b"0123456789abcdefghijklmnopqrstuvwxyz+-*/0123456789abcdefghijklmnopqrstuvwxyz+-*/",
    },
    Pair {
        first: b"ab",
        second: b"ab",
        are_equal: true,
        joined: b"abab",
    },
    Pair {
        first: b"ab",
        second: b"Ab",
        are_equal: false,
        joined: b"abAb",
    },
    Pair {
        first: b"ab",
        second: b"abc",
        are_equal: false,
        joined: b"ababc",
    },
    Pair {
        first: LONG,
        second: b"0123456789abcdefghijklmnopqrstuvwxyz+-*+",
        are_equal: false,
        joined: b"0123456789abcdefghijklmnopqrstuvwxyz+-*/0123456789abcdefghijklmnopqrstuvwxyz+-*+",
    },
];

/// Whether the first bytes of a text are appended with the byte that follows them, and not where they contain a stop.
fn is_line(alloc: Global, text: &[u8], len: usize) -> Result<bool, NoMemory>
    requires { len ≤ length text.now }
{
    let first = Bytes::copy_of_first(alloc, text, len)?;
    let mut line = Bytes::copy_of(alloc, text)?;
    line.append_then(&first, Some(b';'))?;
    let plain = line.append_plain_then(&first, Some(b'.'), [b'0', b'\n', b'\n', b'\n'])?;
    let other = line.append_plain_then(&first, None, [b'\n'; 4])?;
    let mut want = Bytes::copy_of(alloc, text)?;
    want.append(&text[..len])?;
    want.push(b';')?;
    if len == 0 {
        want.push(b'.')?;
    }
    want.append(&text[..len])?;
    Ok(other && plain == (len == 0) && line == want && first.is(&first))
}

/// Whether two texts are compared and joined as a row says.
fn are_joined(alloc: Global, pair: &Pair) -> Result<bool, NoMemory> {
    let first = Bytes::copy_of(alloc, pair.first)?;
    let second = Bytes::copy_of(alloc, pair.second)?;
    let mut text = Bytes::new(alloc);
    let was_empty = text.is_empty();
    text.append(pair.first)?;
    let same = text == first && (text == second) == pair.are_equal;
    text.append(second.as_slice())?;
    let len = pair.joined.len();
    let joined = text.as_slice() == pair.joined
        && text.len() == len
        && text.is_empty() == (len == 0);
    text.clear();
    Ok(was_empty && same && joined && text.is_empty())
}

fn first_misjoined(alloc: Global) -> Result<Option<usize>, NoMemory> {
    for (i, pair) in PAIRS.iter().enumerate() {
        if !are_joined(alloc, pair)? {
            return Ok(Some(i));
        }
    }
    Ok(None)
}

/// The first length at which the text `LONG` is cut, joined or pushed otherwise.
fn first_wrong_length(alloc: Global) -> Result<Option<usize>, NoMemory> {
    let mut pushed = Bytes::new(alloc);
    for (len, byte) in LONG.iter().enumerate() {
        let mut text = Bytes::copy_of(alloc, &LONG[..len])?;
        let cut = text.as_slice() == &LONG[..len];
        text.append(&LONG[len..])?;
        pushed.push(*byte)?;
        if !cut
            || text.as_slice() != LONG
            || pushed.as_slice() != &LONG[..len + 1]
            || !is_line(alloc, LONG, len)?
        {
            return Ok(Some(len));
        }
    }
    Ok(None)
}

struct Collection {
    appends: &'static [(&'static str, bool)],
    removed: &'static str,
    was_there: bool,
    /// The map without the key, and the array.
    shown: &'static str,
}

/// Booleans stored in a map and an array, and a key that is then removed from the map.
const COLLECTIONS: [Collection; 5] = [
    Collection {
        appends: &[("a", false), ("", true), ("b", true), ("a", true)],
        removed: "ab",
        was_there: false,
        shown: "a=true,=true,b=true,end false=false,true=true,true=true,true=true,end",
    },
    Collection {
        appends: &[("a", true), ("b", false)],
        removed: "",
        was_there: false,
        shown: "a=true,b=false,end true=true,false=false,end",
    },
    Collection {
        appends: &[("a", false), ("b", false), ("c", true)],
        removed: "d",
        was_there: false,
        shown: "a=false,b=false,c=true,end false=false,false=false,true=true,end",
    },
    Collection {
        appends: &[("a", false), ("b", false), ("c", true)],
        removed: "b",
        was_there: true,
        shown: "a=false,c=true,end false=false,false=false,true=true,end",
    },
    Collection {
        appends: &[("x", true)],
        removed: "y",
        was_there: false,
        shown: "x=true,end true=true,end",
    },
];

/// Appends the pairs of a map: the keys by their places, and the values by their keys.
fn append_pairs(map: &MapValue, text: &mut Bytes) -> Result<(), NoMemory> {
    for place in 0..map.len() {
        if let Some((key, _)) = map.at(place) {
            text.append(key)?;
        }
        text.append(b"=")?;
        if let Some(value) = map.get(map.entry(place).0) {
            append_text(value, text)?;
        }
        text.append(b",")?;
    }
    if map.at(map.len()).is_none() {
        text.append(b"end ")?;
    }
    Ok(())
}

/// Appends the items of an array, each twice: as it is at a place that it may have, and at one that it has.
fn append_items(array: &ArrayValue, text: &mut Bytes) -> Result<(), NoMemory> {
    for place in 0..array.len() {
        if let Some(value) = array.at(place) {
            append_text(value, text)?;
        }
        text.append(b"=")?;
        append_text(array.item(place), text)?;
        text.append(b",")?;
    }
    if array.at(array.len()).is_none() {
        text.append(b"end")?;
    }
    Ok(())
}

/// What a copy of a map and an array shows after the map itself has lost its key, or None where the key was there
/// otherwise than the row says.
fn shown_copy(alloc: Global, row: &Collection) -> Result<Option<Bytes>, NoMemory> {
    let mut map = MapValue::new(alloc)?;
    let mut array = ArrayValue::new(alloc);
    for (key, b) in row.appends {
        map.put(key.as_bytes(), Value::Bool(*b))?;
        array.push(Value::Bool(*b))?;
    }
    let removed = row.removed.as_bytes();
    if map.get(removed).is_some() != row.was_there || map.remove(removed) != row.was_there {
        return Ok(None);
    }
    let mut arrays = ArrayValue::new(alloc);
    arrays.push(Value::Array(array))?;
    let mut outer = MapValue::new(alloc)?;
    outer.put(b"map", Value::Map(map))?;
    outer.put(b"arrays", Value::Array(arrays))?;
    let copy = outer.copy(alloc)?;
    outer.remove(b"map");
    let mut shown = Bytes::new(alloc);
    if let Some(Value::Map(map)) = copy.get(b"map")
        && let Some(Value::Array(arrays)) = copy.get(b"arrays")
        && let Some(Value::Array(array)) = arrays.at(0)
    {
        append_pairs(map, &mut shown)?;
        append_items(array, &mut shown)?;
    }
    Ok(Some(shown))
}

fn first_wrong_collection(alloc: Global) -> Result<Option<usize>, NoMemory> {
    for (i, row) in COLLECTIONS.iter().enumerate() {
        let shown = shown_copy(alloc, row)?;
        if shown.is_none_or(|shown| shown.as_slice() != row.shown.as_bytes()) {
            return Ok(Some(i));
        }
    }
    Ok(None)
}

#[test]
fn values_are_read_printed_computed_compared_and_collected(rt: HostRuntime) -> Result<(), Fail> {
    let alloc = rt.alloc();
    assert_eq!(rt; first_misread(alloc)?, None);
    assert_eq!(rt; first_misprinted(alloc)?, None);
    assert_eq!(rt; first_wrong_result(alloc, &BY_KIND)?, None);
    assert_eq!(rt; first_wrong_result(alloc, &OF_INTS)?, None);
    assert_eq!(rt; first_wrong_unary(alloc)?, None);
    for (order, rows) in ORDERS.iter() {
        assert_eq!(rt; first_unordered(alloc, *order, rows)?, None, "{order:?}");
    }
    assert_eq!(rt; first_misjoined(alloc)?, None);
    assert_eq!(rt; first_wrong_length(alloc)?, None);
    let bytes = Bytes::copy_of(alloc, &[b'a', 195, 169])?;
    assert_eq!(rt;
        format!(in alloc; "{bytes:?}")?.as_str(),
        "\"a\u{c3}\u{a9}\""
    );
    assert_eq!(rt; first_wrong_collection(alloc)?, None);
    Ok(())
}
