//! Which value JSON texts are read as, where they have their first fault, and what values are written as.

mod texts;

use mlr_json::{
    JsonRead, append_json_field, append_json_string, append_json_value, json_text, read_json_value,
    word_value,
};
use mlr_spec::{InferOpts, JsonStyle, NoMemory};
use mlr_value::{Bytes, IntValue, Value, from_data};
use std::alloc::Global;
use texts::{
    BYTES, COLLECTIONS, FOLLOWING, IN_ARRAYS, IN_MAPS, IN_STRINGS, NESTED, Nested, ON_LINES,
    QUOTED, Row, STRINGS, VALUES, WORDS, WRITTEN,
};

/// The value that a text is read as, in a style, or its fault with the place.
fn outcome(alloc: Global, text: &[u8], style: JsonStyle) -> Result<Bytes, NoMemory> {
    match read_json_value(alloc, text) {
        JsonRead::Ok(value) => json_text(alloc, &value, style),
        JsonRead::Syntax(place) => fault(alloc, b"syntax ", place),
        JsonRead::Deep(place) => fault(alloc, b"deep ", place),
        JsonRead::NoMemory => Err(NoMemory),
    }
}

fn fault(alloc: Global, kind: &[u8], place: u64) -> Result<Bytes, NoMemory> {
    let mut text = Bytes::copy_of(alloc, kind)?;
    text.append(format!(in alloc; "{place}")?.as_bytes())?;
    Ok(text)
}

/// The first row whose text is read as something else.
fn first_misread(alloc: Global, rows: &[Row], style: JsonStyle) -> Result<Option<usize>, NoMemory> {
    for (i, row) in rows.iter().enumerate() {
        if outcome(alloc, row.0, style)?.as_slice() != row.1 {
            return Ok(Some(i));
        }
    }
    Ok(None)
}

/// The text of a row with its brackets.
fn bracketed(alloc: Global, row: &Nested) -> Result<Bytes, NoMemory> {
    let mut text = Bytes::copy_of(alloc, row.start)?;
    text.append(row.open.repeat(alloc, row.count)?.as_slice())?;
    text.append(row.inner)?;
    text.append(row.close.repeat(alloc, row.count)?.as_slice())?;
    Ok(text)
}

/// The first row of nested brackets whose text is read as something else.
fn first_nested_misread(alloc: Global) -> Result<Option<usize>, NoMemory> {
    for (i, row) in NESTED.iter().enumerate() {
        let text = bracketed(alloc, row)?;
        let want = row.want.unwrap_or(text.as_slice());
        if outcome(alloc, text.as_slice(), JsonStyle::Single)?.as_slice() != want {
            return Ok(Some(i));
        }
    }
    Ok(None)
}

/// The tables whose values are shown on one line.
const ON_ONE_LINE: [&[Row]; 9] = [
    &VALUES,
    &COLLECTIONS,
    &STRINGS,
    &WORDS,
    &BYTES,
    &FOLLOWING,
    &IN_ARRAYS,
    &IN_MAPS,
    &IN_STRINGS,
];

/// The first row whose text is quoted otherwise.
fn first_misquoted(alloc: Global) -> Result<Option<usize>, NoMemory> {
    for (i, row) in QUOTED.iter().enumerate() {
        let mut json = Bytes::copy_of(alloc, b"[")?;
        append_json_string(row.0, &mut json)?;
        if &json.as_slice()[1..] != row.1 {
            return Ok(Some(i));
        }
    }
    Ok(None)
}

/// The first row whose text from data is written otherwise.
fn first_miswritten(alloc: Global) -> Result<Option<usize>, NoMemory> {
    for (i, row) in WRITTEN.iter().enumerate() {
        let value = from_data(alloc, row.0, InferOpts::plain())?;
        if json_text(alloc, &value, JsonStyle::Stacked)?.as_slice() != row.1 {
            return Ok(Some(i));
        }
    }
    Ok(None)
}

/// An int without a spelling as a field, and values that no data has.
fn others(alloc: Global) -> Result<Bytes, NoMemory> {
    let int = Value::Int(IntValue {
        n: -7,
        spelling: Bytes::new(alloc),
    });
    let mut json = Bytes::new(alloc);
    append_json_field(b"a", &int, JsonStyle::Single, &mut json)?;
    append_json_value(&Value::Bool(false), JsonStyle::Single, &mut json)?;
    append_json_value(&Value::Absent, JsonStyle::Single, &mut json)?;
    append_json_value(&Value::Error, JsonStyle::Single, &mut json)?;
    Ok(json)
}

/// Whether words are inferred under the flags.
fn are_words_inferred(alloc: Global) -> Result<bool, NoMemory> {
    let octal = InferOpts {
        none: false,
        octal: true,
    };
    let strings = InferOpts {
        none: true,
        octal: true,
    };
    Ok(
        matches!(word_value(alloc, b"010", octal)?, Some(Value::Int(int)) if int.n == 8)
            && matches!(word_value(alloc, b"010", strings)?, Some(Value::Str(_)))
            && matches!(
                word_value(alloc, b"true", strings)?,
                Some(Value::Bool(true))
            ),
    )
}

#[test]
fn texts_are_read_as_values_and_values_are_written(rt: HostRuntime) -> Result<(), NoMemory> {
    let alloc = rt.alloc();
    for (i, rows) in ON_ONE_LINE.iter().enumerate() {
        assert_eq!(rt;
            first_misread(alloc, rows, JsonStyle::Single)?,
            None,
            "table {i}"
        );
    }
    assert_eq!(rt; first_misread(alloc, &ON_LINES, JsonStyle::Stacked)?, None);
    assert_eq!(rt; first_nested_misread(alloc)?, None);
    assert_eq!(rt; first_misquoted(alloc)?, None);
    assert_eq!(rt; first_miswritten(alloc)?, None);
    assert_eq!(rt;
        others(alloc)?.as_slice(),
        b"\"a\": -7false\"\"(error)".as_slice()
    );
    assert!(rt; are_words_inferred(alloc)?);
    Ok(())
}
