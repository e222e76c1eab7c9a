//! `sort-within-records`: the fields of a record in the order of their names.
ghost use Rattle.std.specs.Prelude.{◌≡◌, ◌++◌, [], true, IfOk, IsOk, OnOk};
ghost use Rattle.mlr_spec.specs.Tree.{fields_of, trees_of};
ghost use Rattle.mlr_spec.specs.Pairs.{keys_of, are_distinct};
ghost use Rattle.mlr_value.specs.Value.{tree_of};
ghost use Rattle.mlr_record.specs.Fields.{pairs_of};
ghost use Rattle.verbs_fields.specs.Sorting.{by_name};
ghost use Rattle.verbs_fields.specs.SortWithinRecords.{deep_items, deep_pairs, deep_sorted};

use mlr_record::{Field, Record};
use mlr_spec::NoMemory;
use mlr_value::{ArrayValue, Bytes, MapValue, Value};
use std::alloc::Global;
use verbs_base::PerRecord;

/// The options of `sort-within-records`.
#[derive(Drop)]
pub struct SortWithinRecords {
    /// Whether maps inside are sorted too, at any depth in maps and arrays.
    pub deep: bool,
}

impl SortWithinRecords {
    /// A copy. It doesn't allocate.
    pub fn copy(&self, _: Global) -> Result<Self, NoMemory>
        ensures same { IfOk result (λ copy. copy ≡ self.now) }
        ensures sure { IsOk result }
    {
        Ok(SortWithinRecords { deep: self.deep })
    }
}

impl PerRecord for SortWithinRecords {
    ghost use Rattle.verbs_base.specs.Records.{maps};
    ghost use Rattle.verbs_fields.specs.SortWithinRecords.{sort_within_records};

    ghost gives = { λ verb. maps (sort_within_records verb) };

    ghost sound = { λ verb. Unit {0} };

    fn made(&mut self, alloc: Global, fields: Record) -> Result<Option<Record>, NoMemory> {
        let list = fields.into_fields();
        if self.deep {
            let list = deep_fields(alloc, list)?;
            Ok(Some(record_by_name(alloc, list)))
        } else {
            Ok(Some(record_by_name(alloc, list)))
        }
    }
}

/// The record of these fields, in the order of their names.
fn record_by_name(alloc: Global, mut fields: Vec<Field>) -> Record
    requires { are_distinct (keys_of (pairs_of fields.items)) ≡ true }
    ensures { result ≡ by_name (pairs_of fields.items) }
{
    sort_by_name(&mut fields);
    Record::of_fields(alloc, fields)
}

/// Sorts the fields by their names.
fn sort_by_name(fields: &mut Vec<Field>)
    requires { are_distinct (keys_of (pairs_of fields.old.items)) ≡ true }
    ensures sorted { pairs_of fields.new.items ≡ by_name (pairs_of fields.old.items) }
    ensures distinct { are_distinct (keys_of (pairs_of fields.new.items)) ≡ true }
{
    fields.sort_unstable_by(|left, right| left.name.as_slice().cmp(right.name.as_slice()));
}

/// The fields with their maps sorted.
fn deep_fields(alloc: Global, fields: Vec<Field>) -> Result<Vec<Field>, NoMemory>
    ensures { IfOk result (λ made. pairs_of made.items
        ≡ deep_pairs (fields_of (pairs_of fields.items))) }
{
    let mut made = Vec::with_capacity(alloc, fields.len())?;
    push_fields(alloc, fields, &mut made)?;
    Ok(made)
}

/// Appends the fields with their maps sorted to `into`.
fn push_fields(alloc: Global, fields: Vec<Field>, into: &mut Vec<Field>) -> Result<(), NoMemory>
    ensures { OnOk result (pairs_of into.new.items
        ≡ pairs_of into.old.items ++ deep_pairs (fields_of (pairs_of fields.items))) }
{
    for field in fields {
        let Field { name, value } = field;
        let value = sorted_field(alloc, value)?;
        into.push(Field { name, value })?;
    }
    Ok(())
}

/// The value with its maps sorted. It allocates only for a map or an array.
fn sorted_field(alloc: Global, value: Value) -> Result<Value, NoMemory>
    ensures { IfOk result (λ made. tree_of made ≡ deep_sorted (tree_of value)) }
{
    match &value {
        Value::Map(_) | Value::Array(_) => sorted_value(alloc, &value),
        _ => Ok(value),
    }
}

/// A copy of the value with its maps sorted.
#[cycle(sorted)]
fn sorted_value(alloc: Global, value: &Value) -> Result<Value, NoMemory>
    ensures { IfOk result (λ made. tree_of made ≡ deep_sorted (tree_of value.now)) }
{
    match value {
        Value::Map(map) => {
            let mut pairs = Vec::with_capacity(alloc, map.len())?;
            push_pairs(alloc, map, &mut pairs)?;
            Ok(Value::Map(map_by_name(alloc, pairs)?))
        }
        Value::Array(array) => {
            let mut items = ArrayValue::new(alloc);
            push_items(alloc, array, &mut items)?;
            Ok(Value::Array(items))
        }
        scalar => scalar.copy(alloc),
    }
}

/// Appends copies of the pairs, with their maps sorted, to `into`.
#[cycle(sorted)]
fn push_pairs(alloc: Global, map: &MapValue, into: &mut Vec<Field>) -> Result<(), NoMemory>
    ensures { OnOk result (pairs_of into.new.items
        ≡ pairs_of into.old.items ++ deep_pairs (fields_of map.now)) }
{
    for place in 0..map.len() {
        let (key, value) = map.entry(place);
        let name = Bytes::copy_of(alloc, key)?;
        let value = sorted_value(alloc, value)?;
        into.push(Field { name, value })?;
    }
    Ok(())
}

/// Appends copies of the items, with their maps sorted, to `into`.
#[cycle(sorted)]
fn push_items(alloc: Global, array: &ArrayValue, into: &mut ArrayValue) -> Result<(), NoMemory>
    ensures { OnOk result (into.new ≡ into.old ++ deep_items (trees_of array.now)) }
{
    for place in 0..array.len() {
        into.push(sorted_value(alloc, array.item(place))?)?;
    }
    Ok(())
}

/// The map of these pairs, in the order of their keys.
fn map_by_name(alloc: Global, mut pairs: Vec<Field>) -> Result<MapValue, NoMemory>
    requires { are_distinct (keys_of (pairs_of pairs.items)) ≡ true }
    ensures { IfOk result (λ made. made ≡ by_name (pairs_of pairs.items)) }
{
    sort_by_name(&mut pairs);
    let mut made = MapValue::new(alloc)?;
    put_pairs(pairs, &mut made)?;
    Ok(made)
}

/// Appends the pairs to a map without pairs.
fn put_pairs(pairs: Vec<Field>, into: &mut MapValue) -> Result<(), NoMemory>
    requires empty { into.old ≡ [] }
    requires distinct { are_distinct (keys_of (pairs_of pairs.items)) ≡ true }
    ensures { OnOk result (into.new ≡ pairs_of pairs.items) }
{
    for field in pairs {
        let Field { name, value } = field;
        into.put(name.as_slice(), value)?;
    }
    Ok(())
}
