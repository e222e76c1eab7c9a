//! Records with an empty value for each key that they lack.
ghost use Rattle.std.specs.Prelude.{◌≡◌, ◌++◌, ◌∷◌, [], List, ℕ, false, true, length, map, replicate, IfOk, OnOk};
ghost use Rattle.mlr_event.specs.Reading.{is_among};
ghost use Rattle.mlr_spec.specs.Pairs.{are_distinct, keys_of};
ghost use Rattle.verbs_base.specs.Records.{events_of, row_in, rows_in};
ghost use Rattle.verbs_reshape.specs.ToWide.{filled, filled_rows};

use mlr_event::{Event, Events};
use mlr_groups::KeyTable;
use mlr_record::Record;
use mlr_spec::NoMemory;
use mlr_value::Value;
use std::alloc::Global;

/// Appends the records in these events, each with an empty value for each key that it lacks.
pub(crate) fn push_filled(
    alloc: Global,
    keys: &KeyTable,
    rows: Events,
    out: &mut Events,
) -> Result<(), NoMemory>
    ensures { OnOk result (out.new ≡ out.old ++ events_of (filled_rows keys.now (rows_in rows))) }
{
    for event in rows.into_vec() {
        push_row(alloc, keys, event, out)?;
    }
    Ok(())
}

/// Appends the record in an event with an empty value for each key that it lacks.
fn push_row(alloc: Global, keys: &KeyTable, event: Event, out: &mut Events) -> Result<(), NoMemory>
    ensures { OnOk result (out.new ≡ out.old
        ++ events_of (filled_rows keys.now (row_in event))) }
{
    match event {
        Event::Rec(fields, ctx) => out.push(Event::Rec(filled(alloc, keys, fields)?, ctx)),
        _ => Ok(()),
    }
}

/// A record with an empty value, last, for each key that it lacks. It takes time in proportion to the fields and the
/// keys.
fn filled(alloc: Global, keys: &KeyTable, fields: Record) -> Result<Record, NoMemory>
    ensures { IfOk result (λ made. made ≡ filled keys.now fields) }
{
    let mut had = Vec::from_elem(alloc, false, keys.len())?;
    mark_names(keys, &fields, &mut had);
    let mut made = fields;
    append_lacking(keys, &had, &mut made)?;
    Ok(made)
}

/// Marks the keys that are names of a record's fields.
fn mark_names(keys: &KeyTable, fields: &Record, had: &mut [bool])
    requires distinct { are_distinct keys.now ≡ true }
    requires none { had.old ≡ replicate (length keys.now) false }
    ensures { had.new ≡ map (is_among (keys_of fields.now)) keys.now }
{
    for field in fields.fields() {
        mark_name(keys, field.name.as_slice(), had);
    }
}

/// Marks the key of this name, if there is one.
fn mark_name(keys: &KeyTable, name: &[u8], had: &mut [bool])
    requires distinct { are_distinct keys.now ≡ true }
    requires room { length had.old ≡ length keys.now }
    ensures { (names : List (List ℕ)) → had.old ≡ map (is_among names) keys.now
        → had.new ≡ map (is_among (names ++ name.now ∷ [])) keys.now }
{
    if let Some(place) = keys.place_of(name) {
        had[place] = true;
    }
}

/// Appends an empty value for each key that isn't marked.
fn append_lacking(keys: &KeyTable, had: &[bool], made: &mut Record) -> Result<(), NoMemory>
    requires distinct { are_distinct keys.now ≡ true }
    requires marked { had.now ≡ map (is_among (keys_of made.old)) keys.now }
    ensures { OnOk result (made.new ≡ filled keys.now made.old) }
{
    for place in 0..had.len() {
        if !had[place] {
            made.push(keys.key_at(place), Value::Empty)?;
        }
    }
    Ok(())
}
