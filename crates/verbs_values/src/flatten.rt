//! `flatten`: fields for the leaves of maps and arrays.
ghost use Rattle.std.specs.Prelude.{◌≡◌, ◌≤◌, true, length, None, IfOk, IsOk, OnOk};
ghost use Rattle.std.specs.List.{flat_map, list_any};
ghost use Rattle.mlr_event.specs.Reading.{is_among};
ghost use Rattle.mlr_record.specs.Fields.{pair_of, pairs_of};
ghost use Rattle.mlr_spec.specs.Flatten.{leaves_of};
ghost use Rattle.mlr_spec.specs.Pairs.{put_each, keys_of, are_distinct};
ghost use Rattle.mlr_spec.specs.Tree.{is_collection};
ghost use Rattle.mlr_value.specs.Value.{tree_of};
ghost use Rattle.verbs_values.specs.Flatten.{flattened, flattened_field, is_flattened};

use mlr_event::Names;
use mlr_record::{Field, Record};
use mlr_spec::NoMemory;
use mlr_value::{Bytes, Value};
use std::alloc::Global;
use verbs_base::PerRecord;

/// The options of `flatten`, which replaces a field that holds a map or an array by one field for each of its leaves.
#[derive(Drop)]
pub struct Flatten {
    /// `-f`: the fields that it takes, or None for all.
    pub names: Option<Names>,
    /// `-s`: the separator between the names in the name of a leaf.
    pub separator: Bytes,
}

impl Flatten {
    /// A copy. It allocates for the names, and for a separator of more than 20 bytes.
    pub fn copy(&self, alloc: Global) -> Result<Self, NoMemory>
        ensures same { IfOk result (λ copy. copy ≡ self.now) }
        ensures short { self.now.names ≡ None → length self.now.separator ≤ 20 → IsOk result }
    {
        Ok(Flatten {
            names: self.names.as_ref().map(Names::copy).transpose()?,
            separator: Bytes::copy_of(alloc, self.separator.as_slice())?,
        })
    }
}

impl PerRecord for Flatten {
    ghost use Rattle.verbs_base.specs.Records.{maps};
    ghost use Rattle.verbs_values.specs.Flatten.{flatten};

    ghost gives = { λ verb. maps (flatten verb) };

    ghost sound = { λ verb. Unit {0} };

    fn made(&mut self, alloc: Global, fields: Record) -> Result<Option<Record>, NoMemory> {
        let separator = self.separator.as_slice();
        Ok(Some(match &self.names {
            Some(names) => flatten_named(alloc, names, separator, fields)?,
            None => flatten_all(separator, fields)?,
        }))
    }
}

/// The record with all its fields flattened. It allocates only for a record with a map or an array.
fn flatten_all(separator: &[u8], from: Record) -> Result<Record, NoMemory>
    ensures { IfOk result (λ made. made ≡ flattened separator.now (λ name. true) from) }
{
    let mut record = from;
    record.flatten(separator)?;
    Ok(record)
}

/// The record with the named fields flattened. It allocates only for a record with a map or an array that is named.
fn flatten_named(
    alloc: Global,
    names: &Names,
    separator: &[u8],
    from: Record,
) -> Result<Record, NoMemory>
    ensures { IfOk result (λ made. made ≡ flattened separator.now (is_among names.now) from) }
{
    if !has_flattened(names, &from) {
        return Ok(from);
    }
    let mut into = Record::new(alloc)?;
    put_flattened(alloc, names, separator, from.into_fields(), &mut into)?;
    Ok(into)
}

/// Whether a named field holds a map or an array.
fn has_flattened(names: &Names, from: &Record) -> bool
    ensures found { result ≡ list_any (is_flattened (is_among names.now)) from.now }
    ensures distinct { are_distinct (keys_of from.now) ≡ true }
{
    for place in 0..from.len() {
        let (name, value) = from.entry(place);
        if is_flattened(names, name, value) {
            return true;
        }
    }
    false
}

fn is_flattened(names: &Names, name: &[u8], value: &Value) -> bool
    ensures { result ≡ is_flattened (is_among names.now) (name.now, tree_of value.now) }
{
    is_collection(value) && names.has(name)
}

/// Whether a value is a map or an array.
fn is_collection(value: &Value) -> bool
    ensures { result ≡ is_collection (tree_of value.now) }
{
    matches!(value, Value::Map(_) | Value::Array(_))
}

/// Sets the fields that the fields become, one after another.
fn put_flattened(
    alloc: Global,
    names: &Names,
    separator: &[u8],
    fields: Vec<Field>,
    into: &mut Record,
) -> Result<(), NoMemory>
    ensures { OnOk result (into.new ≡ put_each into.old
        (flat_map (flattened_field separator.now (is_among names.now)) (pairs_of fields.items))) }
{
    for field in fields {
        put_field(alloc, names, separator, field, into)?;
    }
    Ok(())
}

/// Sets the fields that a field becomes.
fn put_field(
    alloc: Global,
    names: &Names,
    separator: &[u8],
    field: Field,
    into: &mut Record,
) -> Result<(), NoMemory>
    ensures { OnOk result (into.new ≡ put_each into.old
        (flattened_field separator.now (is_among names.now) (pair_of field))) }
{
    if is_flattened(names, field.name.as_slice(), &field.value) {
        put_leaves(alloc, separator, field, into)
    } else {
        let Field { name, value } = field;
        into.put(name.as_slice(), value)
    }
}

/// Sets the leaves of a field, which are in a record of their own until then.
fn put_leaves(
    alloc: Global,
    separator: &[u8],
    field: Field,
    into: &mut Record,
) -> Result<(), NoMemory>
    ensures { OnOk result (into.new ≡ put_each into.old
        (leaves_of separator.now (pair_of field).0 (pair_of field).1)) }
{
    let mut leaves = Record::new(alloc)?;
    let Field { name, value } = field;
    leaves.push(name.as_slice(), value)?;
    leaves.flatten(separator)?;
    put_all(leaves.into_fields(), into)
}

/// Sets fields, one after another.
fn put_all(fields: Vec<Field>, into: &mut Record) -> Result<(), NoMemory>
    ensures { OnOk result (into.new ≡ put_each into.old (pairs_of fields.items)) }
{
    for field in fields {
        let Field { name, value } = field;
        into.put(name.as_slice(), value)?;
    }
    Ok(())
}
