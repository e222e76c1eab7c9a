//! The keys of records, their groups and the counts in their groups, by tables.

use mlr_event::Names;
use mlr_groups::{GroupBy, Groups, KeyTable, Tallies, append_texts};
use mlr_record::Record;
use mlr_spec::{InferOpts, NoMemory};
use mlr_value::{ArrayValue, Bytes, IntValue, MapValue, Value, from_data};
use std::alloc::Global;
use std::process::Abort;

/// The record of a text such as `a=1,b=2`, with its values as data.
fn row_of(alloc: Global, text: &[u8]) -> Result<Record, NoMemory> {
    let mut made = Record::new(alloc)?;
    for field in text.split(|byte| *byte == b',') {
        if let Some(place) = field.iter().position(|byte| *byte == b'=') {
            let value = from_data(alloc, &field[place + 1..], InferOpts::plain())?;
            made.put(&field[..place], value)?;
        }
    }
    Ok(made)
}

/// The names of a text such as `a,b`; the empty text has none.
fn names(alloc: Global, text: &str) -> Result<Names, NoMemory> {
    let mut made = Names::new(alloc);
    for name in text.split(',') {
        if !name.is_empty() {
            made.push(Bytes::copy_of(alloc, name.as_bytes())?)?;
        }
    }
    Ok(made)
}

/// A number as a digit, or `+` for one of more digits, or `-` for none.
fn digit(number: Option<u64>) -> u8 {
    match number {
        Some(number) if number < 10 => b'0' + number as u8,
        Some(_) => b'+',
        None => b'-',
    }
}

/// Names, records, the places of the records' groups, where `-` is no group, and the number
/// of groups.
const GROUPS: [(&str, &[u8], &[u8], usize); 7] = [
    ("a", b"a=x,b=1;b=1,a=y;b=1;a=y,b=2;a=x", b"01-10", 2),
    (
        "a,b",
        b"a=a,b=bc;a=ab,b=c;a=abc,b=;b=bc,a=a,c=1;a=abc",
        b"0120-",
        3,
    ),
    (
        "a,b",
        b"a=x\0\0y,b=z;a=x,b=y\0\0z;a=x\0,b=y\0z;a=x\0\x01,b=yz;a=x,b=y\0\0z",
        b"01231",
        4,
    ),
    ("a", b"a=0x10;a=16;a=16.0;a=+16;a=16", b"01231", 4),
    ("a", b"a=;b=;a=\0;a=\0\x01;a=", b"0-120", 3),
    ("", b"a=1;a=2;;b=1;a=1", b"00000", 1),
    ("b,a,b", b"a=1,b=2;a=2,b=1;b=2,a=1;a=1;b=1", b"010--", 2),
];

/// Whether records are in these groups of these names.
fn are_grouped(alloc: Global, row: &(&str, &[u8], &[u8], usize)) -> Result<bool, NoMemory> {
    let (by, records, want, count) = *row;
    let mut groups = Groups::new(alloc, GroupBy::Texts(names(alloc, by)?));
    let mut places = Bytes::new(alloc);
    for text in records.split(|byte| *byte == b';') {
        let place = groups.enter(&row_of(alloc, text)?)?;
        places.push(digit(place.map(|place| place as u64)))?;
    }
    Ok(places.as_slice() == want && groups.len() == count)
}

fn first_wrong_groups(alloc: Global) -> Result<Option<usize>, NoMemory> {
    for (i, row) in GROUPS.iter().enumerate() {
        if !are_grouped(alloc, row)? {
            return Ok(Some(i));
        }
    }
    Ok(None)
}

/// The groups of the field `a` of 256 records, whose texts differ.
fn many_groups(alloc: Global) -> Result<Groups, NoMemory> {
    let mut groups = Groups::new(alloc, GroupBy::Texts(names(alloc, "a")?));
    for number in 0..=255u8 {
        let text = [b'a', b'=', number, b'|', number];
        groups.enter(&row_of(alloc, &text)?)?;
    }
    Ok(groups)
}

/// Names, records, and for each record the number of earlier ones in its group, where `-` is no group.
const TALLIES: [(&str, &[u8], &[u8]); 3] = [
    ("a", b"a=x;a=y;a=x;b=x;a=x,b=1;a=y", b"001-21"),
    (
        "a,b",
        b"a=x,b=1;a=x,b=2;b=1,a=x;a=x;a=x,b=;a=x,b=1",
        b"001-02",
    ),
    ("", b"a=1;b=1;;a=1;a=2;a=1", b"012345"),
];

/// Whether records have these numbers of earlier ones in their groups.
fn are_counted(alloc: Global, row: &(&str, &[u8], &[u8])) -> Result<bool, NoMemory> {
    let (by, records, want) = *row;
    let mut tallies = Tallies::new(alloc, GroupBy::Texts(names(alloc, by)?));
    let mut counts = Bytes::new(alloc);
    for text in records.split(|byte| *byte == b';') {
        counts.push(digit(tallies.count(&row_of(alloc, text)?)?))?;
    }
    Ok(counts.as_slice() == want)
}

fn first_wrong_tallies(alloc: Global) -> Result<Option<usize>, NoMemory> {
    for (i, row) in TALLIES.iter().enumerate() {
        if !are_counted(alloc, row)? {
            return Ok(Some(i));
        }
    }
    Ok(None)
}

/// Names, a record, and the key of its texts.
const KEYS: [(&str, &[u8], &[u8]); 9] = [
    ("a", b"a=x,b=y", b"x\0\0"),
    ("b,a", b"a=x,b=y", b"y\0\0x\0\0"),
    ("a,z,b", b"a=x,b=y", b"x\0\0\0\0y\0\0"),
    ("a", b"a=", b"\0\0"),
    ("a", b"a=0x10", b"0x10\0\0"),
    ("a", b"a=1.50", b"1.50\0\0"),
    ("a,b", b"a=p\0q,b=\0", b"p\0\x01q\0\0\0\x01\0\0"),
    (
        "a,a",
        b"a=a text of more than thirty bytes",
        b"a text of more than thirty bytes\0\0a text of more than thirty bytes\0\0",
    ),
    ("", b"a=1", b""),
];

/// Keys that are entered after one another, and their places.
const ENTRIES: [(&[u8], usize); 7] = [
    (b"b", 0),
    (b"a", 1),
    (b"b", 0),
    (b"", 2),
    (b"a\0", 3),
    (b"a", 1),
    (b"a key past sixteen bytes", 4),
];

/// A record with a value of each kind that no data has, under the names `a` to `f`.
fn made(alloc: Global) -> Result<Record, NoMemory> {
    let mut map = MapValue::new(alloc)?;
    map.put(b"k", Value::Frac(Bytes::copy_of(alloc, b"\0")?))?;
    let mut array = ArrayValue::new(alloc);
    array.push(Value::Bool(true))?;
    let mut record = Record::new(alloc)?;
    record.put(b"a", Value::Map(map))?;
    record.put(b"b", Value::Array(array))?;
    record.put(b"c", Value::Bool(false))?;
    record.put(b"d", Value::Absent)?;
    record.put(b"e", Value::Error)?;
    let number = IntValue {
        n: -12,
        spelling: Bytes::new(alloc),
    };
    record.put(b"f", Value::Int(number))?;
    Ok(record)
}

/// Whether the key of a record's texts follows what was there.
fn is_appended(alloc: Global, row: &(&str, &[u8], &[u8])) -> Result<bool, NoMemory> {
    let (of, text, want) = *row;
    let mut key = Bytes::copy_of(alloc, b"before")?;
    append_texts(alloc, &names(alloc, of)?, &row_of(alloc, text)?, &mut key)?;
    let mut whole = Bytes::copy_of(alloc, b"before")?;
    whole.append(want)?;
    Ok(key == whole)
}

fn first_wrong_key(alloc: Global) -> Result<Option<usize>, NoMemory> {
    for (i, row) in KEYS.iter().enumerate() {
        if !is_appended(alloc, row)? {
            return Ok(Some(i));
        }
    }
    Ok(None)
}

/// The key of a record with a value of each kind that no data has.
fn key_of_made(alloc: Global) -> Result<Bytes, NoMemory> {
    let mut key = Bytes::new(alloc);
    append_texts(
        alloc,
        &names(alloc, "a,b,c,d,e,f")?,
        &made(alloc)?,
        &mut key,
    )?;
    Ok(key)
}

/// The first key that isn't entered at its place, or the number of keys.
fn first_wrong_entry(alloc: Global) -> Result<Result<usize, usize>, NoMemory> {
    let mut table = KeyTable::new(alloc);
    for (i, (key, place)) in ENTRIES.iter().enumerate() {
        if table.enter(*key)? != *place {
            return Ok(Err(i));
        }
    }
    Ok(Ok(table.len()))
}

/// Checks groups and counts by their tables.
pub(crate) fn check_groups(rt: &impl Abort, alloc: Global) -> Result<(), NoMemory> {
    assert_eq!(rt; first_wrong_groups(alloc)?, None);
    let mut groups = many_groups(alloc)?;
    assert_eq!(rt; groups.enter(&row_of(alloc, b"a=m|m")?)?, Some(109));
    assert_eq!(rt; groups.enter(&row_of(alloc, b"a=m|n")?)?, Some(256));
    assert_eq!(rt; groups.len(), 257);
    assert_eq!(rt; first_wrong_tallies(alloc)?, None);
    assert_eq!(rt; first_wrong_key(alloc)?, None);
    let want: &[u8] = b"{\"k\": \0\x01}\0\0[true]\0\0false\0\0\0\0(error)\0\0-12\0\0";
    assert_eq!(rt; key_of_made(alloc)?.as_slice(), want);
    assert_eq!(rt; first_wrong_entry(alloc)?, Ok(5));
    Ok(())
}
