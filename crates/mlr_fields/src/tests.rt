//! Names made distinct, in headers and in records built field by field.
use crate::{Fields, Header, few};
use mlr_event::{Format, ReadOpts};
use mlr_record::Record;
use mlr_spec::NoMemory;
use mlr_value::{Bytes, Value};
use std::alloc::Global;

/// Names and how often each comes, how they end when they are made distinct, with a semicolon after each, and how
/// many names differ.
const NAMES: [(&[(&str, usize)], &str, usize); 10] = [
    (&[], "", 0),
    (&[("a", 1), ("b", 1)], "a;b;", 2),
    (&[("a", 3)], "a;a_2;a_3;", 1),
    (&[("a", 1), ("a_2", 1), ("a", 1)], "a;a_2;a_3;", 2),
    (&[("a", 2), ("a_2", 1)], "a;a_2;a_2_2;", 2),
    (
        &[("", 2), ("a name of more than thirty bytes", 2)],
        ";_2;a name of more than thirty bytes;a name of more than thirty bytes_2;",
        2,
    ),
    (&[("b", 1), ("ca", 2), ("b", 1)], "b;ca;ca_2;b_2;", 2),
    (&[("a", 64), ("b", 2)], ";a_63;a_64;b;b_2;", 2),
    (
        &[("a", 65), ("a_2", 2), ("a_67", 1), ("a", 2)],
        ";a_65;a_2_2;a_2_3;a_67;a_66;a_68;",
        3,
    ),
    (
        &[("a_3", 1), ("b", 63), ("a", 4)],
        ";b_63;a;a_2;a_4;a_5;",
        3,
    ),
];

/// The names of a row.
fn names_from(alloc: Global, row: &[(&str, usize)]) -> Result<Vec<Bytes>, NoMemory> {
    let mut names = Vec::new(alloc);
    for (name, count) in row {
        for _ in 0..*count {
            names.push(Bytes::copy_of(alloc, name.as_bytes())?)?;
        }
    }
    Ok(names)
}

/// The names with a semicolon after each.
fn joined(alloc: Global, names: &[Bytes]) -> Result<Bytes, NoMemory> {
    let mut all = Bytes::new(alloc);
    for name in names {
        all.append(name.as_slice())?;
        all.append(b";")?;
    }
    Ok(all)
}

/// The names of a record with a semicolon after each.
fn names_of(alloc: Global, record: &Record) -> Result<Bytes, NoMemory> {
    let mut all = Bytes::new(alloc);
    for place in 0..record.len() {
        all.append(record.entry(place).0)?;
        all.append(b";")?;
    }
    Ok(all)
}

/// A record of these names, of which the last one has the value true.
fn record_from(alloc: Global, names: &[Bytes], dedupe: bool) -> Result<Record, NoMemory> {
    let mut fields = Fields::new(Record::new(alloc)?);
    for (place, name) in names.iter().enumerate() {
        if fields.len() < 1000 {
            let value = Value::Bool(place + 1 == names.len());
            fields.put(alloc, name.as_slice(), value, dedupe)?;
        }
    }
    Ok(fields.into_record())
}

/// Whether the record has so many fields, and the last name has the value true.
fn holds_last(record: &Record, names: &[Bytes], count: usize) -> bool {
    let is_last = match names.last() {
        None => true,
        Some(name) => matches!(record.get(name.as_slice()), Some(Value::Bool(true))),
    };
    record.len() == count && is_last
}

/// Whether a header and the records of some names are as a row says.
fn are_named(alloc: Global, row: &(&[(&str, usize)], &str, usize)) -> Result<bool, NoMemory> {
    let (counts, end, different) = *row;
    let names = names_from(alloc, counts)?;
    let distinct = record_from(alloc, names.as_slice(), true)?;
    let replaced = record_from(alloc, names.as_slice(), false)?;
    let holds = holds_last(&replaced, names.as_slice(), different);
    let count = names.len();
    let header = Header::new(alloc, names)?;
    let keys = joined(alloc, header.keys())?;
    Ok(
        holds
            && header.len() == count
            && distinct.len() == count
            && keys.as_slice().ends_with(end.as_bytes())
            && names_of(alloc, &distinct)?.as_slice() == keys.as_slice(),
    )
}

fn first_misnamed(alloc: Global) -> Result<Option<usize>, NoMemory> {
    for (i, row) in NAMES.iter().enumerate() {
        if !are_named(alloc, row)? {
            return Ok(Some(i));
        }
    }
    Ok(None)
}

#[test]
fn equal_names_are_made_distinct_or_replaced(rt: HostRuntime) -> Result<(), NoMemory> {
    assert_eq!(rt; first_misnamed(rt.alloc())?, None);
    assert!(rt; few(1 << 61).is_ok() && few(1 << 62).is_err());
    Ok(())
}

/// The record of a name that is pushed and is put again as a text.
fn two_texts(alloc: Global) -> Result<Record, NoMemory> {
    let opts = ReadOpts::of(alloc, Format::Dkvp)?;
    let mut fields = Fields::new(Record::new(alloc)?);
    fields.push(b"a", Value::Empty)?;
    fields.put_text(alloc, &opts, b"a", b"0x10")?;
    Ok(fields.into_record())
}

#[test]
fn a_text_is_put_with_a_suffix(rt: HostRuntime) -> Result<(), NoMemory> {
    let record = two_texts(rt.alloc())?;
    let number = match record.get(b"a_2") {
        Some(Value::Int(int)) => Some(int.n),
        _ => None,
    };
    assert_eq!(rt; number, Some(16));
    assert_eq!(rt; record.len(), 2);
    Ok(())
}
