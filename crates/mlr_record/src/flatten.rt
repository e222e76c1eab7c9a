//! Nested values flattened: one field for each leaf.
ghost use Rattle.std.specs.Prelude.{◌≡◌, true, false, ◌++◌, [], IfOk, IsOk, if◌then◌else◌, is_ok, OnOk, codes};
ghost use Rattle.std.specs.List.{list_any};
ghost use Rattle.std.specs.Fmt.{decimal};
ghost use Rattle.mlr_spec.specs.Tree.{is_collection, fields_of, trees_of, string};
ghost use Rattle.mlr_spec.specs.Pairs.{put_at, put_each, keys_of, are_distinct};
ghost use Rattle.mlr_spec.specs.Flatten.{flat, leaves_of, leaves_of_pairs, leaves_of_items};
ghost use Rattle.mlr_value.specs.Value.{tree_of};

use crate::Record;
use itoa::Buffer;
use mlr_spec::NoMemory;
use mlr_value::{ArrayValue, Bytes, MapValue, Value};
use std::alloc::Global;

impl Record {
    /// Replaces each field that holds a map or an array by one field for each leaf of it. The name of a leaf
    /// joins the names on its path by the separator. A record without maps and arrays is left as it is,
    /// without an allocation.
    pub fn flatten(&mut self, separator: &[u8]) -> Result<(), NoMemory>
        ensures flat { self.new ≡ (if is_ok result then flat separator.now self.old else self.old) }
        ensures same { list_any (λ pair. is_collection pair.1) self.old ≡ false → IsOk result }
    {
        if is_nested(self) {
            *self = flattened(self, separator)?;
        }
        Ok(())
    }
}

/// Whether a field holds a map or an array. Of a plain record that needs no look of its own.
fn is_nested(from: &mut Record) -> bool
    ensures found { result ≡ list_any (λ pair. is_collection pair.1) from.old }
    ensures distinct { are_distinct (keys_of from.old) ≡ true }
    ensures same { from.new ≡ from.old }
{
    if from.is_plain() {
        return false;
    }
    has_collection(from)
}

/// Whether a field holds a map or an array.
fn has_collection(from: &Record) -> bool
    ensures found { result ≡ list_any (λ pair. is_collection pair.1) from.now }
    ensures distinct { are_distinct (keys_of from.now) ≡ true }
{
    for place in 0..from.len() {
        if is_collection(from.entry(place).1) {
            return true;
        }
    }
    false
}

/// Whether a value is a map or an array.
fn is_collection(value: &Value) -> bool
    ensures { result ≡ is_collection (tree_of value.now) }
{
    matches!(value, Value::Map(_) | Value::Array(_))
}

/// The leaves of all fields, copied into a record of their own. They are put together in a map, which finds a name by its
/// hash once they are many.
fn flattened(from: &Record, separator: &[u8]) -> Result<Record, NoMemory>
    ensures { IfOk result (λ flattened. flattened ≡ flat separator.now from.now) }
{
    let alloc = from.allocator();
    let mut leaves = MapValue::new(alloc)?;
    put_fields(from, separator, &mut leaves, alloc)?;
    Record::of_map(alloc, leaves)
}

/// Sets the leaves of all fields in an empty map.
fn put_fields(
    from: &Record,
    separator: &[u8],
    into: &mut MapValue,
    alloc: Global,
) -> Result<(), NoMemory>
    requires { into.old ≡ [] }
    ensures { OnOk result (into.new ≡ flat separator.now from.now) }
{
    for place in 0..from.len() {
        let (name, value) = from.entry(place);
        put_leaves(name, value, separator, into, alloc)?;
    }
    Ok(())
}

/// Sets the leaves of a value of this name.
#[cycle(leaves)]
fn put_leaves(
    name: &[u8],
    value: &Value,
    separator: &[u8],
    into: &mut MapValue,
    alloc: Global,
) -> Result<(), NoMemory>
    ensures { OnOk result (into.new ≡ put_each into.old
        (leaves_of separator.now name.now (tree_of value.now))) }
{
    match value {
        Value::Map(map) => {
            if map.len() == 0 {
                put_text(name, b"{}", into, alloc)
            } else {
                put_pairs(name, map, separator, into, alloc)
            }
        }
        Value::Array(array) => {
            if array.len() == 0 {
                put_text(name, b"[]", into, alloc)
            } else {
                put_items(name, array, separator, into, alloc)
            }
        }
        leaf => into.put(name, leaf.copy(alloc)?),
    }
}

/// Sets a field of this text.
fn put_text(name: &[u8], text: &[u8], into: &mut MapValue, alloc: Global) -> Result<(), NoMemory>
    ensures { OnOk result (into.new ≡ put_at name.now (string text.now) into.old) }
{
    into.put(name, Value::Str(Bytes::copy_of(alloc, text)?))
}

/// Sets the leaves of a map's values.
#[cycle(leaves)]
fn put_pairs(
    name: &[u8],
    map: &MapValue,
    separator: &[u8],
    into: &mut MapValue,
    alloc: Global,
) -> Result<(), NoMemory>
    ensures { OnOk result (into.new ≡ put_each into.old
        (leaves_of_pairs separator.now name.now (fields_of map.now))) }
{
    for place in 0..map.len() {
        let (key, value) = map.entry(place);
        let longer = joined(name, separator, key, alloc)?;
        put_leaves(longer.as_slice(), value, separator, into, alloc)?;
    }
    Ok(())
}

/// Sets the leaves of an array's items, which are named by their positions from 1 on.
#[cycle(leaves)]
fn put_items(
    name: &[u8],
    array: &ArrayValue,
    separator: &[u8],
    into: &mut MapValue,
    alloc: Global,
) -> Result<(), NoMemory>
    ensures { OnOk result (into.new ≡ put_each into.old
        (leaves_of_items separator.now name.now 1 (trees_of array.now))) }
{
    for place in 0..array.len() {
        let longer = joined_position(name, separator, place + 1, alloc)?;
        put_leaves(longer.as_slice(), array.item(place), separator, into, alloc)?;
    }
    Ok(())
}

/// The name, the separator and the key as one name.
fn joined(name: &[u8], separator: &[u8], key: &[u8], alloc: Global) -> Result<Bytes, NoMemory>
    ensures { IfOk result (λ longer. longer ≡ name.now ++ separator.now ++ key.now) }
{
    let mut longer = Bytes::copy_of(alloc, name)?;
    longer.append(separator)?;
    longer.append(key)?;
    Ok(longer)
}

/// The name, the separator and a position in decimal as one name.
fn joined_position(
    name: &[u8],
    separator: &[u8],
    position: usize,
    alloc: Global,
) -> Result<Bytes, NoMemory>
    ensures { IfOk result (λ longer. longer ≡ name.now ++ separator.now ++ decimal position) }
{
    joined(
        name,
        separator,
        Buffer::new().format(position).as_bytes(),
        alloc,
    )
}
