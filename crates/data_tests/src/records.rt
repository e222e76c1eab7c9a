//! What the calls on a record leave, and the parts of texts, by tables.

use crate::one_field::one_field;
use itoa::Buffer;
use mlr_record::Record;
use mlr_record::split::{count_parts, next_part, separator_place};
use mlr_spec::{InferOpts, NoMemory};
use mlr_value::{ArrayValue, Bytes, MapValue, Value, append_text, from_data};
use std::alloc::Global;
use std::process::Abort;

/// A call on a record, with what it returns where that is a place or a boolean.
enum Call {
    Put(&'static str, &'static str),
    PutFirst(&'static str, &'static str),
    Push(&'static str, &'static str),
    /// Sets the value `{b:1,c:[2,{}]}` under a name.
    Nest(&'static str),
    /// Sets a text under a name of this many times `a.`.
    PutLong(usize, &'static str),
    FindLong(usize, Option<usize>),
    Find(&'static str, Option<usize>),
    Remove(&'static str, bool),
    Rename(&'static str, &'static str, bool),
    /// Empties the field at a place, which has a text.
    Empty(usize),
    Flatten(&'static str),
    Unflatten(&'static str),
    UnflattenNamed(&'static str, &'static [&'static str]),
    /// Makes no call. The record has these fields.
    Shows(&'static str),
}

use Call::*;

/// A value of this text.
fn text_value(alloc: Global, text: &str) -> Result<Value, NoMemory> {
    if text.is_empty() {
        return Ok(Value::Empty);
    }
    Ok(Value::Str(Bytes::copy_of(alloc, text.as_bytes())?))
}

/// The record of a text as `a=1,b=2`.
fn record_of(alloc: Global, text: &str) -> Result<Record, NoMemory> {
    let mut record = Record::new(alloc)?;
    for field in text.split(',') {
        if let Some((name, text)) = field.split_once('=') {
            record.put(name.as_bytes(), text_value(alloc, text)?)?;
        }
    }
    Ok(record)
}

/// The value `{b:1,c:[2,{}]}`.
fn nested(alloc: Global) -> Result<Value, NoMemory> {
    let mut array = ArrayValue::new(alloc);
    array.push(text_value(alloc, "2")?)?;
    array.push(Value::Map(MapValue::new(alloc)?))?;
    let mut map = MapValue::new(alloc)?;
    map.put(b"b", text_value(alloc, "1")?)?;
    map.put(b"c", Value::Array(array))?;
    Ok(Value::Map(map))
}

/// Makes the call, and says whether it returned what is wanted.
fn make(alloc: Global, record: &mut Record, call: &Call) -> Result<bool, NoMemory> {
    match call {
        Put(name, text) => record.put(name.as_bytes(), text_value(alloc, text)?)?,
        PutFirst(name, text) => record.put_first(name.as_bytes(), text_value(alloc, text)?)?,
        Push(name, text) => {
            if record.get(name.as_bytes()).is_some() {
                return Ok(false);
            }
            record.push(name.as_bytes(), text_value(alloc, text)?)?;
        }
        Nest(name) => record.put(name.as_bytes(), nested(alloc)?)?,
        PutLong(times, text) => {
            let name = b"a.".repeat(alloc, *times)?;
            record.put(name.as_slice(), text_value(alloc, text)?)?;
        }
        FindLong(times, want) => {
            let name = b"a.".repeat(alloc, *times)?;
            return Ok(record.position(name.as_slice()) == *want);
        }
        Find(name, want) => return Ok(record.position(name.as_bytes()) == *want),
        Remove(name, want) => return Ok(record.remove(name.as_bytes()) == *want),
        Rename(old, new, want) => {
            return Ok(record.rename(old.as_bytes(), new.as_bytes())? == *want);
        }
        Empty(place) => {
            return Ok(
                *place < record.len()
                    && matches!(record.replace(*place, Value::Empty), Value::Str(_)),
            );
        }
        Shows(want) => return Ok(shown(alloc, record)?.as_slice() == want.as_bytes()),
        _ => return reshape(alloc, record, call),
    }
    Ok(true)
}

/// Makes a call that flattens or unflattens.
fn reshape(alloc: Global, record: &mut Record, call: &Call) -> Result<bool, NoMemory> {
    match call {
        Flatten(separator) => record.flatten(separator.as_bytes())?,
        Unflatten(separator) if !separator.is_empty() => {
            record.unflatten(separator.as_bytes())?;
        }
        UnflattenNamed(separator, texts) if !separator.is_empty() => {
            let mut names = Vec::new(alloc);
            for text in *texts {
                names.push(Bytes::copy_of(alloc, text.as_bytes())?)?;
            }
            record.unflatten_named(separator.as_bytes(), names.as_slice())?;
        }
        _ => return Ok(false),
    }
    Ok(true)
}

/// The fields in their order, as `a=1,b={2},c=[3],` with the lengths of maps and arrays, found by place and by name.
/// Of a name that is longer than 99 bytes the length is shown.
fn shown(alloc: Global, record: &Record) -> Result<Bytes, NoMemory> {
    let mut text = Bytes::new(alloc);
    let mut buffer = Buffer::new();
    for place in 0..record.len() {
        match record.at(place) {
            Some((name, _)) if name.len() <= 99 => text.append(name)?,
            Some((name, _)) => text.append(buffer.format(name.len() as u64).as_bytes())?,
            None => {}
        }
        text.append(b"=")?;
        match record.get(record.entry(place).0) {
            Some(Value::Map(map)) => {
                text.append(b"{")?;
                text.append(buffer.format(map.len() as u64).as_bytes())?;
                text.append(b"}")?;
            }
            Some(Value::Array(array)) => {
                text.append(b"[")?;
                text.append(buffer.format(array.len() as u64).as_bytes())?;
                text.append(b"]")?;
            }
            Some(value) => append_text(value, &mut text)?,
            None => text.append(b"no value")?,
        }
        text.append(b",")?;
    }
    Ok(text)
}

const ABC: &str = "a=1,b=2,c=3";

const PATHS: &str = "a.b=1,c.d=2,a.e=3,c=4,z.1=5";

/// A record, the calls on it, and its fields after them.
const CALLS: [(&str, &[Call], &str); 40] = [
    (ABC, &[Remove("a", true), Find("a", None)], "b=2,c=3,"),
    (ABC, &[Remove("b", true), Find("b", None)], "a=1,c=3,"),
    (ABC, &[Remove("c", true), Find("c", None)], "a=1,b=2,"),
    (ABC, &[Remove("z", false), Find("z", None)], "a=1,b=2,c=3,"),
    (
        ABC,
        &[Find("a", Some(0)), Find("b", Some(1)), Find("c", Some(2))],
        "a=1,b=2,c=3,",
    ),
    (ABC, &[Find("z", None), Find("", None)], "a=1,b=2,c=3,"),
    (ABC, &[PutFirst("z", "9")], "z=9,a=1,b=2,c=3,"),
    (ABC, &[PutFirst("a", "9")], "a=9,b=2,c=3,"),
    (ABC, &[PutFirst("b", "9")], "b=9,a=1,c=3,"),
    (ABC, &[PutFirst("c", "9")], "c=9,a=1,b=2,"),
    ("", &[PutFirst("a", "1")], "a=1,"),
    (ABC, &[Rename("a", "z", true)], "z=1,b=2,c=3,"),
    (ABC, &[Rename("c", "z", true)], "a=1,b=2,z=3,"),
    (ABC, &[Rename("a", "b", true)], "b=1,c=3,"),
    (ABC, &[Rename("c", "a", true)], "b=2,a=3,"),
    (ABC, &[Rename("b", "b", true)], "a=1,b=2,c=3,"),
    (ABC, &[Rename("z", "a", false)], "a=1,b=2,c=3,"),
    (ABC, &[Rename("z", "z", false)], "a=1,b=2,c=3,"),
    (
        "a=1,b=2",
        &[Rename("a", "b", true), Shows("b=1,"), PutFirst("c", "3")],
        "c=3,b=1,",
    ),
    ("c=3,b=1", &[Rename("z", "c", false)], "c=3,b=1,"),
    (ABC, &[Empty(1)], "a=1,b=,c=3,"),
    (
        "",
        &[
            Put("a", "1"),
            Put("b", "2"),
            Put("", "3"),
            Put("a", "4"),
            Put("b", "5"),
            Find("ab", None),
        ],
        "a=4,b=5,=3,",
    ),
    // More fields than a new record has room for.
    (
        "",
        &[
            Push("first", "1"),
            Push("a", ""),
            Push("b", ""),
            Push("c", ""),
            Push("d", ""),
            Push("e", ""),
            Push("f", ""),
            Push("g", ""),
            Push("h", ""),
            Push("i", ""),
            Push("j", ""),
        ],
        "first=1,a=,b=,c=,d=,e=,f=,g=,h=,i=,j=,",
    ),
    // Maps and arrays are flattened.
    (
        "z=0,a=,a.b=3",
        &[Nest("a"), Flatten(".")],
        "z=0,a.b=3,a.c.1=2,a.c.2={},",
    ),
    // Paths are unflattened.
    (
        "a.1=5,b.x={},a.2=6,c=[]",
        &[Unflatten("."), Shows("a=[2],b={1},c=[0],"), Flatten(":")],
        "a:1=5,a:2=6,b:x={},c=[],",
    ),
    // A map replaces a value on its path.
    (
        "a=1,z=0,a.b=2,a.0=3",
        &[Unflatten("."), Shows("a={2},z=0,"), Flatten(".")],
        "a.b=2,a.0=3,z=0,",
    ),
    // A path continues in a map.
    (
        "a=,a.b=3,a.d=4",
        &[Nest("a"), Unflatten("."), Flatten(".")],
        "a.b=3,a.c.1=2,a.c.2={},a.d=4,",
    ),
    // The places of an array begin at 1.
    ("a.0=5,a.1=6,b.2=7", &[Unflatten(".")], "a={2},b={1},"),
    // A path of more than 200 parts is kept.
    (
        "",
        &[
            PutLong(199, ""),
            PutLong(200, ""),
            Unflatten("."),
            FindLong(200, Some(1)),
        ],
        "a={1},400=,",
    ),
    (
        "",
        &[
            PutLong(199, ""),
            PutLong(200, "{}"),
            UnflattenNamed(".", &["a"]),
            FindLong(200, Some(1)),
        ],
        "a={1},400={0},",
    ),
    // Only the paths of the named fields are unflattened.
    (
        PATHS,
        &[UnflattenNamed(".", &["a"]), Flatten(":")],
        "a:b=1,a:e=3,c.d=2,c=4,z.1=5,",
    ),
    (
        PATHS,
        &[UnflattenNamed(".", &["c"]), Flatten(":")],
        "a.b=1,c=4,a.e=3,z.1=5,",
    ),
    (
        PATHS,
        &[UnflattenNamed(".", &["z", "a"]), Flatten(":")],
        "a:b=1,a:e=3,c.d=2,c=4,z:1=5,",
    ),
    (
        PATHS,
        &[UnflattenNamed(".", &["z", "z"]), Flatten(":")],
        "a.b=1,c.d=2,a.e=3,c=4,z:1=5,",
    ),
    (
        PATHS,
        &[UnflattenNamed(".", &["a.b", "b", "", "a."]), Flatten(":")],
        "a.b=1,c.d=2,a.e=3,c=4,z.1=5,",
    ),
    (
        PATHS,
        &[UnflattenNamed(".", &["A", "y"]), Flatten(":")],
        "a.b=1,c.d=2,a.e=3,c=4,z.1=5,",
    ),
    (
        PATHS,
        &[UnflattenNamed(".", &[]), Flatten(":")],
        "a.b=1,c.d=2,a.e=3,c=4,z.1=5,",
    ),
    (
        PATHS,
        &[UnflattenNamed(".", &["a", "c", "z"]), Flatten(":")],
        "a:b=1,a:e=3,c=4,z:1=5,",
    ),
    (
        "a=1,c=2,a::b=3,c::d=4,a::=5,::a=6",
        &[UnflattenNamed("::", &["a", ""]), Flatten(".")],
        "a.b=3,a.=5,c=2,c::d=4,.a=6,",
    ),
    // The texts of empty collections become collections under the given names alone.
    (
        "a={},b={},c=[],d=[],d.1=[],e.1={}",
        &[UnflattenNamed(".", &["e", "a", "c"])],
        "a={0},b={},c=[0],d=[],d.1=[],e=[1],",
    ),
];

/// The record after the calls, or the place of a call that returned something else.
fn called(alloc: Global, fields: &str, calls: &[Call]) -> Result<Result<Record, usize>, NoMemory> {
    let mut record = record_of(alloc, fields)?;
    for (step, one) in calls.iter().enumerate() {
        if !make(alloc, &mut record, one)? {
            return Ok(Err(step));
        }
    }
    Ok(Ok(record))
}

/// The first row whose record has other fields, and the place of the call that returned something else, or the
/// number of calls.
fn first_wrong_call(alloc: Global) -> Result<Option<(usize, usize)>, NoMemory> {
    for (i, (fields, calls, want)) in CALLS.iter().enumerate() {
        match called(alloc, *fields, *calls)? {
            Err(step) => return Ok(Some((i, step))),
            Ok(record) => {
                let all = shown(alloc, &record)?;
                if all.as_slice() != want.as_bytes() || record.at(record.len()).is_some() {
                    return Ok(Some((i, calls.len())));
                }
            }
        }
    }
    Ok(None)
}

/// The record of a map.
fn of_map(alloc: Global) -> Result<Record, NoMemory> {
    let mut map = MapValue::new(alloc)?;
    map.put(b"a", text_value(alloc, "1")?)?;
    map.put(b"bc", text_value(alloc, "2")?)?;
    Record::of_map(alloc, map)
}

/// A copy of a record that is changed then.
fn copied(alloc: Global) -> Result<Record, NoMemory> {
    let value = from_data(alloc, b"1", InferOpts::plain())?;
    let mut record = one_field(alloc, b"a", value)?;
    let copy = record.copy()?;
    record.remove(b"a");
    Ok(copy)
}

/// The record of the fields of a record.
fn of_fields(alloc: Global) -> Result<Record, NoMemory> {
    let mut record = record_of(alloc, ABC)?;
    if !make(alloc, &mut record, &Empty(1))? || record.fields().len() != record.len() {
        return Record::new(alloc);
    }
    Ok(Record::of_fields(alloc, record.into_fields()))
}

struct Parts {
    separator: &'static [u8],
    text: &'static [u8],
    place: Option<usize>,
    part: &'static [u8],
    rest: Option<&'static [u8]>,
    count: usize,
}

/// A text between separators: the place of the first one, the part before it, what follows it, and the number of parts.
const PARTS: [Parts; 11] = [
    Parts {
        separator: b".",
        text: b"a.b.c",
        place: Some(1),
        part: b"a",
        rest: Some(b"b.c"),
        count: 3,
    },
    Parts {
        separator: b".",
        text: b".b",
        place: Some(0),
        part: b"",
        rest: Some(b"b"),
        count: 2,
    },
    Parts {
        separator: b".",
        text: b"a.",
        place: Some(1),
        part: b"a",
        rest: Some(b""),
        count: 2,
    },
    Parts {
        separator: b".",
        text: b"",
        place: None,
        part: b"",
        rest: None,
        count: 1,
    },
    Parts {
        separator: b"::",
        text: b"a::b",
        place: Some(1),
        part: b"a",
        rest: Some(b"b"),
        count: 2,
    },
    Parts {
        separator: b"::",
        text: b"a:b",
        place: None,
        part: b"a:b",
        rest: None,
        count: 1,
    },
    Parts {
        separator: b"::",
        text: b"a:::b",
        place: Some(1),
        part: b"a",
        rest: Some(b":b"),
        count: 2,
    },
    Parts {
        separator: b".",
        text: b"a.b..c",
        place: Some(1),
        part: b"a",
        rest: Some(b"b..c"),
        count: 4,
    },
    Parts {
        separator: b"..",
        text: b"a.b...c",
        place: Some(3),
        part: b"a.b",
        rest: Some(b".c"),
        count: 2,
    },
    Parts {
        separator: b"bc",
        text: b"abcbc",
        place: Some(1),
        part: b"a",
        rest: Some(b"bc"),
        count: 3,
    },
    Parts {
        separator: b"bd",
        text: b"abcbc",
        place: None,
        part: b"abcbc",
        rest: None,
        count: 1,
    },
];

/// Whether a text has these parts.
fn is_parted(row: &Parts) -> bool {
    !row.separator.is_empty()
        && next_part(row.separator, row.text) == (row.part, row.rest)
        && separator_place(row.separator, row.text) == row.place
        && count_parts(row.separator, row.text) == row.count
}

fn first_wrong_parts() -> Option<usize> {
    PARTS.iter().position(|row| !is_parted(row))
}

/// Checks records and the parts of texts by their tables.
pub(crate) fn check_records(rt: &impl Abort, alloc: Global) -> Result<(), NoMemory> {
    assert_eq!(rt; first_wrong_call(alloc)?, None);
    assert_eq!(rt;
        shown(alloc, &of_map(alloc)?)?.as_slice(),
        b"a=1,bc=2,".as_slice()
    );
    assert_eq!(rt;
        shown(alloc, &copied(alloc)?)?.as_slice(),
        b"a=1,".as_slice()
    );
    assert_eq!(rt;
        shown(alloc, &of_fields(alloc)?)?.as_slice(),
        b"a=1,b=,c=3,".as_slice()
    );
    assert_eq!(rt; first_wrong_parts(), None);
    Ok(())
}
