//! Records of texts, for what writes them.

use mlr_json::{JsonRead, read_json_value};
use mlr_record::Record;
use mlr_spec::{InferOpts, NoMemory};
use mlr_value::{Value, from_data};
use std::alloc::Global;

/// A value: of JSON, where the text begins with a brace.
fn value_of(alloc: Global, text: &[u8]) -> Result<Value, NoMemory> {
    if text.starts_with(b"{") {
        match read_json_value(alloc, text) {
            JsonRead::Ok(value) => Ok(value),
            _ => Ok(Value::Error),
        }
    } else {
        from_data(alloc, text, InferOpts::plain())
    }
}

/// Sets a field, of a key before `=` and a value.
fn put_field(alloc: Global, part: &[u8], record: &mut Record) -> Result<(), NoMemory> {
    match part.iter().position(|b| *b == b'=') {
        Some(place) => record.put(&part[..place], value_of(alloc, &part[place + 1..])?),
        None => Ok(()),
    }
}

/// The fields between `|`.
pub(crate) fn record_of(alloc: Global, text: &[u8]) -> Result<Record, NoMemory> {
    let mut record = Record::new(alloc)?;
    for part in text.split(|b| *b == b'|') {
        put_field(alloc, part, &mut record)?;
    }
    Ok(record)
}
