//! Records with given fields: each value is put in the place of its name, and then the values are taken in the order
//! of the names.
ghost use Rattle.std.specs.Prelude.{◌≡◌, [], List, Some, None, true, IfOk, OnOk, length, set, slice_get};
ghost use Rattle.std.specs.Option.{option_map, unwrap_or};
ghost use Rattle.mlr_event.specs.Reading.{is_among};
ghost use Rattle.mlr_record.specs.Fields.{pairs_of};
ghost use Rattle.mlr_spec.specs.JsonGrammar.{text_value};
ghost use Rattle.mlr_spec.specs.Pairs.{are_distinct, keys_of};
ghost use Rattle.mlr_value.specs.Value.{tree_of};
ghost use Rattle.verbs_base.specs.Records.{Fields};
ghost use Rattle.verbs_hold.specs.ByPlace.{has_all_of, no_values, trees_of, values_at};
ghost use Rattle.verbs_hold.specs.Unsparsify.{filled};

use mlr_groups::KeyTable;
use mlr_record::{Field, Record};
use mlr_spec::NoMemory;
use mlr_value::{Bytes, Value};
use std::alloc::Global;
use verbs_base::string_of;

/// Room for a value for each name.
pub(crate) fn no_values(alloc: Global, names: &[Bytes]) -> Result<Vec<Option<Value>>, NoMemory>
    ensures { IfOk result (λ values. trees_of values.items ≡ no_values names.now) }
{
    let mut values = Vec::with_capacity(alloc, names.len())?;
    for _ in names {
        values.push(None)?;
    }
    Ok(values)
}

/// A record with all these fields, of which those that it lacks have the text as their value. The table holds the
/// names, among which are those of the record, and there is room for a value for each.
pub(crate) fn filled_record(
    alloc: Global,
    fill: &[u8],
    table: &mut KeyTable,
    names: &[Bytes],
    values: &mut [Option<Value>],
    fields: Record,
) -> Result<Record, NoMemory>
    requires table { table.old ≡ names.now }
    requires distinct { are_distinct names.now ≡ true }
    requires free { trees_of values.old ≡ no_values names.now }
    requires known { has_all_of names.now fields ≡ true }
    ensures table { table.new ≡ table.old }
    ensures free { OnOk result (trees_of values.new ≡ no_values names.now) }
    ensures made { IfOk result (λ made. made ≡ filled fill.now names.now fields) }
{
    spread(table, names, values, fields.into_fields())?;
    let mut made = Record::new(alloc)?;
    append_each(alloc, fill, names, values, &mut made)?;
    Ok(made)
}

/// Puts the value of each field in the place of its name.
fn spread(
    table: &mut KeyTable,
    names: &[Bytes],
    values: &mut [Option<Value>],
    fields: Vec<Field>,
) -> Result<(), NoMemory>
    requires table { table.old ≡ names.now }
    requires distinct { are_distinct names.now ≡ true }
    requires free { trees_of values.old ≡ no_values names.now }
    requires known { has_all_of names.now (pairs_of fields.items) ≡ true }
    requires once { are_distinct (keys_of (pairs_of fields.items)) ≡ true }
    ensures table { table.new ≡ table.old }
    ensures values { OnOk result (trees_of values.new
        ≡ values_at names.now (pairs_of fields.items)) }
{
    let mut next = 0;
    for field in fields {
        next = put_value(table, names, values, next, field)? + 1;
    }
    Ok(())
}

/// Puts the value of a field in the place of its name, and returns the place.
fn put_value(
    table: &mut KeyTable,
    names: &[Bytes],
    values: &mut [Option<Value>],
    expected: usize,
    field: Field,
) -> Result<usize, NoMemory>
    requires table { table.old ≡ names.now }
    requires room { length values.old ≡ length names.now }
    requires known { is_among names.now field.name ≡ true }
    ensures table { table.new ≡ table.old }
    ensures place { IfOk result (λ place. slice_get names.now place ≡ Some field.name) }
    ensures values { IfOk result (λ place. trees_of values.new
        ≡ set (trees_of values.old) place (Some (tree_of field.value))) }
{
    let Field { name, value } = field;
    let place = place_of(table, names, expected, &name)?;
    values[place] = Some(value);
    Ok(place)
}

/// The place of a name, which is mostly the expected one, since many records have their fields in one order.
fn place_of(
    table: &mut KeyTable,
    names: &[Bytes],
    expected: usize,
    name: &Bytes,
) -> Result<usize, NoMemory>
    requires table { table.old ≡ names.now }
    requires known { is_among names.now name.now ≡ true }
    ensures table { table.new ≡ table.old }
    ensures place { IfOk result (λ place. slice_get names.now place ≡ Some name.now) }
{
    match names.get(expected) {
        Some(other) if other.is(name) => Ok(expected),
        _ => table.enter(name.as_slice()),
    }
}

/// Appends a field for each name to a record without fields: the value in its place, which is taken out, or the text
/// where there is none.
fn append_each(
    alloc: Global,
    fill: &[u8],
    names: &[Bytes],
    values: &mut [Option<Value>],
    made: &mut Record,
) -> Result<(), NoMemory>
    requires empty { made.old ≡ [] }
    requires distinct { are_distinct names.now ≡ true }
    requires room { length values.old ≡ length names.now }
    ensures free { OnOk result (trees_of values.new ≡ no_values names.now) }
    ensures made { OnOk result ((fields : Fields)
        → trees_of values.old ≡ values_at names.now fields
        → made.new ≡ filled fill.now names.now fields) }
{
    for (place, name) in names.iter().enumerate() {
        let value = take_or(alloc, fill, &mut values[place])?;
        made.push(name.as_slice(), value)?;
    }
    Ok(())
}

/// The value in a place, which is taken out; or the text as a string, if there is none.
fn take_or(alloc: Global, fill: &[u8], value: &mut Option<Value>) -> Result<Value, NoMemory>
    ensures value { IfOk result (λ made. tree_of made
        ≡ unwrap_or (option_map tree_of value.old) (text_value fill.now)) }
    ensures free { value.new ≡ None }
{
    match value.take() {
        Some(value) => Ok(value),
        None => Ok(string_of(Bytes::copy_of(alloc, fill)?)),
    }
}
