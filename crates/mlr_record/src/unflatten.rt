//! Fields are put back into the maps and arrays that their names spell.
ghost use Rattle.std.specs.Prelude.{◌≡◌, ◌<◌, [], true, false, length, map, if◌then◌else◌, is_ok, IfOk, IsOk, OnOk};
ghost use Rattle.std.specs.List.{list_any};
ghost use Rattle.std.specs.Option.{option_map};
ghost use Rattle.std.specs.Str.{bytes_eq};
ghost use Rattle.std.specs.Fmt.{decimal};
ghost use Rattle.mlr_spec.specs.Tree.{fields_of};
ghost use Rattle.mlr_spec.specs.Pairs.{keys_of, are_distinct};
ghost use Rattle.mlr_spec.specs.Flatten.{no_nodes, children_of, leaves_in, change_child, put_path, put_in, path_of, put_paths, with_collection, finished, finished_pairs, unflat};
ghost use Rattle.mlr_value.specs.Value.{tree_of};
ghost use Rattle.mlr_record.specs.Nodes.{nodes_of};
ghost use Rattle.mlr_record.specs.NodeView.{node_of, tree_at_end};
ghost use Rattle.mlr_record.specs.Parts.{parts_of_rest};
ghost use Rattle.mlr_record.specs.Paths.{ends, is_unflattened, represents_collection, is_array};
ghost use Rattle.mlr_record.specs.NamedPaths.{is_named, put_if_named, put_named, unflat_named, is_unflattened_named};

use crate::Record;
use crate::node::{Leaf, Node, Nodes};
use crate::split::{count_parts, next_part, separator_place};
use itoa::Buffer;
use mlr_spec::NoMemory;
use mlr_value::{ArrayValue, Bytes, MapValue, Value};
use std::alloc::Global;

/// How many names a path may have. A name that spells a longer one is kept whole.
const LONGEST_PATH: usize = 200;

impl Record {
    /// Sets each value at the path that its name spells, where the separator parts the names on the path. A
    /// map that is made so and has the keys 1, 2, 3 and so on becomes an array. A record without such names
    /// and without the texts `{}` and `[]` is left as it is, without an allocation.
    pub fn unflatten(&mut self, separator: &[u8]) -> Result<(), NoMemory>
        requires { 0 < length separator.now }
        ensures unflat { self.new ≡ (if is_ok result then unflat separator.now self.old
            else self.old) }
        ensures same { list_any (is_unflattened separator.now) self.old ≡ false → IsOk result }
    {
        if has_path(self, separator) {
            *self = unflattened(self, separator)?;
        }
        Ok(())
    }

    /// Does the same to the named fields alone: those of which the part before the first separator, or the
    /// whole name where there is none, is among the names. Any other field is kept in its place, with the
    /// text `{}` or `[]` too. A record in which no field changes is left as it is, without an allocation.
    pub fn unflatten_named(&mut self, separator: &[u8], names: &[Bytes]) -> Result<(), NoMemory>
        requires { 0 < length separator.now }
        ensures unflat { self.new ≡ (if is_ok result
            then unflat_named separator.now names.now self.old else self.old) }
        ensures same { list_any (is_unflattened_named separator.now names.now) self.old ≡ false
            → IsOk result }
    {
        if has_named_path(self, separator, names) {
            *self = unflattened_named(self, separator, names)?;
        }
        Ok(())
    }
}

/// Whether there is a field that unflattening changes.
fn has_path(from: &Record, separator: &[u8]) -> bool
    requires { 0 < length separator.now }
    ensures found { result ≡ list_any (is_unflattened separator.now) from.now }
    ensures distinct { are_distinct (keys_of from.now) ≡ true }
{
    for place in 0..from.len() {
        let (name, value) = from.entry(place);
        if is_path(name, value, separator) {
            return true;
        }
    }
    false
}

/// Whether there is a named field that unflattening changes.
fn has_named_path(from: &Record, separator: &[u8], names: &[Bytes]) -> bool
    requires { 0 < length separator.now }
    ensures found { result ≡ list_any (is_unflattened_named separator.now names.now) from.now }
    ensures distinct { are_distinct (keys_of from.now) ≡ true }
{
    for place in 0..from.len() {
        let (name, value) = from.entry(place);
        if is_named_path(name, value, separator, names) {
            return true;
        }
    }
    false
}

/// Whether this field is named and unflattening changes it.
fn is_named_path(name: &[u8], value: &Value, separator: &[u8], names: &[Bytes]) -> bool
    requires { 0 < length separator.now }
    ensures { result ≡ is_unflattened_named separator.now names.now (name.now, tree_of value.now) }
{
    is_path(name, value, separator) && is_named(name, separator, names)
}

/// Whether the first part of a name is among the names.
fn is_named(name: &[u8], separator: &[u8], names: &[Bytes]) -> bool
    requires { 0 < length separator.now }
    ensures { result ≡ is_named separator.now names.now name.now }
{
    let (first, _) = next_part(separator, name);
    names.iter().any(|other| first == other.as_slice())
}

/// Whether unflattening changes this field.
fn is_path(name: &[u8], value: &Value, separator: &[u8]) -> bool
    requires { 0 < length separator.now }
    ensures { result ≡ is_unflattened separator.now (name.now, tree_of value.now) }
{
    separator_place(separator, name).is_some() || represents_collection(value)
}

/// Whether a value is the text of an empty map or array.
fn represents_collection(value: &Value) -> bool
    ensures { result ≡ represents_collection (tree_of value.now) }
{
    match value {
        Value::Str(text) => matches!(text.as_slice(), b"{}" | b"[]"),
        _ => false,
    }
}

/// The value at the end of its path: an empty map or array where its text represents one.
fn end_of<'a>(value: &'a Value) -> Leaf<'a>
    ensures { tree_at_end result ≡ with_collection (tree_of value.now) }
{
    match value {
        Value::Str(text) => match text.as_slice() {
            b"{}" => Leaf::NoPairs,
            b"[]" => Leaf::NoItems,
            _ => Leaf::Represents(value),
        },
        value => Leaf::Represents(value),
    }
}

/// The values of all fields at their paths, copied into a record of their own.
fn unflattened(from: &Record, separator: &[u8]) -> Result<Record, NoMemory>
    requires { 0 < length separator.now }
    ensures { IfOk result (λ made. made ≡ unflat separator.now from.now) }
{
    let alloc = from.allocator();
    let mut nodes = Nodes::new(alloc);
    put_fields(from, separator, &mut nodes, alloc)?;
    let mut into = Record::new(alloc)?;
    finish_fields(&nodes, &mut into, alloc)?;
    Ok(into)
}

/// Sets the values of all fields at their paths.
fn put_fields<'a>(
    from: &'a Record,
    separator: &[u8],
    into: &mut Nodes<'a>,
    alloc: Global,
) -> Result<(), NoMemory>
    requires separator { 0 < length separator.now }
    requires empty { into.old ≡ [] }
    ensures { OnOk result (nodes_of into.new ≡ put_paths separator.now no_nodes from.now) }
{
    for place in 0..from.len() {
        let (name, value) = from.entry(place);
        put_field(name, value, separator, into, alloc)?;
    }
    Ok(())
}

/// The same of the named fields, the others as they are.
fn unflattened_named(from: &Record, separator: &[u8], names: &[Bytes]) -> Result<Record, NoMemory>
    requires { 0 < length separator.now }
    ensures { IfOk result (λ made. made ≡ unflat_named separator.now names.now from.now) }
{
    let alloc = from.allocator();
    let mut nodes = Nodes::new(alloc);
    put_named_fields(from, separator, names, &mut nodes, alloc)?;
    let mut into = Record::new(alloc)?;
    finish_fields(&nodes, &mut into, alloc)?;
    Ok(into)
}

/// Sets the values of the named fields at their paths, and the others under their names.
fn put_named_fields<'a>(
    from: &'a Record,
    separator: &[u8],
    names: &[Bytes],
    into: &mut Nodes<'a>,
    alloc: Global,
) -> Result<(), NoMemory>
    requires separator { 0 < length separator.now }
    requires empty { into.old ≡ [] }
    ensures { OnOk result (nodes_of into.new
        ≡ put_named separator.now names.now no_nodes from.now) }
{
    for place in 0..from.len() {
        let (name, value) = from.entry(place);
        put_if_named(name, value, separator, names, into, alloc)?;
    }
    Ok(())
}

/// Sets the value of a field at the path that the name spells if it is named, else under the name.
fn put_if_named<'a>(
    name: &'a [u8],
    value: &'a Value,
    separator: &[u8],
    names: &[Bytes],
    into: &mut Nodes<'a>,
    alloc: Global,
) -> Result<(), NoMemory>
    requires { 0 < length separator.now }
    ensures { OnOk result (nodes_of into.new
        ≡ put_if_named separator.now names.now (name.now, tree_of value.now) (nodes_of into.old)) }
{
    if is_named(name, separator, names) {
        put_field(name, value, separator, into, alloc)
    } else {
        put_child(name, None, Leaf::Represents(value), separator, into, alloc)
    }
}

/// Sets the value of a field at the path that the name spells.
fn put_field<'a>(
    name: &'a [u8],
    value: &'a Value,
    separator: &[u8],
    into: &mut Nodes<'a>,
    alloc: Global,
) -> Result<(), NoMemory>
    requires { 0 < length separator.now }
    ensures { OnOk result (nodes_of into.new
        ≡ put_in (path_of separator.now name.now) (with_collection (tree_of value.now))
        (nodes_of into.old)) }
{
    let end = end_of(value);
    if count_parts(separator, name) <= LONGEST_PATH {
        let (first, rest) = next_part(separator, name);
        put_child(first, rest, end, separator, into, alloc)
    } else {
        put_child(name, None, end, separator, into, alloc)
    }
}

/// Sets a value at the path of this name and the rest.
#[cycle(paths)]
fn put_child<'a>(
    name: &'a [u8],
    rest: Option<&'a [u8]>,
    end: Leaf<'a>,
    separator: &[u8],
    into: &mut Nodes<'a>,
    alloc: Global,
) -> Result<(), NoMemory>
    requires { 0 < length separator.now }
    ensures { OnOk result (nodes_of into.new
        ≡ change_child name.now (put_path
        (parts_of_rest separator.now (option_map (λ text. text.now) rest.entry))
        (tree_at_end end.entry)) (nodes_of into.old)) }
{
    let node = into.take(name);
    let node = put_path(rest, end, node, separator, alloc)?;
    into.put(name, node)
}

/// A node with a value set at a path in it.
#[cycle(paths)]
fn put_path<'a>(
    path: Option<&'a [u8]>,
    end: Leaf<'a>,
    node: Node<'a>,
    separator: &[u8],
    alloc: Global,
) -> Result<Node<'a>, NoMemory>
    requires { 0 < length separator.now }
    ensures { IfOk result (λ made. node_of made
        ≡ put_path (parts_of_rest separator.now (option_map (λ text. text.now) path.entry))
        (tree_at_end end.entry) (node_of node.entry)) }
{
    let Some(text) = path else {
        return Ok(Node::End(end));
    };
    let mut nodes = children_of(node, alloc)?;
    let (name, rest) = next_part(separator, text);
    put_child(name, rest, end, separator, &mut nodes, alloc)?;
    Ok(Node::Made(nodes))
}

/// The nodes in which a path continues. A value that is no map is in its way, and there are none.
fn children_of<'a>(node: Node<'a>, alloc: Global) -> Result<Nodes<'a>, NoMemory>
    ensures { IfOk result (λ nodes. nodes_of nodes ≡ children_of (node_of node.entry)) }
{
    match node {
        Node::Made(nodes) => Ok(nodes),
        Node::End(Leaf::Represents(Value::Map(map))) => leaves_in(map, alloc),
        Node::End(_) => Ok(Nodes::new(alloc)),
    }
}

/// The values of a map as nodes.
fn leaves_in<'a>(map: &'a MapValue, alloc: Global) -> Result<Nodes<'a>, NoMemory>
    ensures { IfOk result (λ nodes. nodes_of nodes ≡ leaves_in (fields_of map.now)) }
{
    let mut nodes = Nodes::new(alloc);
    push_leaves(map, &mut nodes)?;
    Ok(nodes)
}

/// Appends the values of a map as nodes where there are none.
fn push_leaves<'a>(map: &'a MapValue, into: &mut Nodes<'a>) -> Result<(), NoMemory>
    requires { into.old ≡ [] }
    ensures { OnOk result (into.new ≡ ends map.now) }
{
    for place in 0..map.len() {
        let (key, value) = map.entry(place);
        into.push(key, Node::End(Leaf::Represents(value)))?;
    }
    Ok(())
}

/// Appends the finished nodes to a record without fields.
fn finish_fields(nodes: &Nodes<'_>, into: &mut Record, alloc: Global) -> Result<(), NoMemory>
    requires { into.old ≡ [] }
    ensures { OnOk result (into.new ≡ finished_pairs (nodes_of nodes.now)) }
{
    for place in 0..nodes.len() {
        let (name, node) = nodes.entry(place);
        into.push(name, finished(node, alloc)?)?;
    }
    Ok(())
}

/// The value that a node has become.
#[cycle(finish)]
fn finished(node: &Node<'_>, alloc: Global) -> Result<Value, NoMemory>
    ensures { IfOk result (λ value. tree_of value ≡ finished (node_of node.now)) }
{
    match node {
        Node::End(end) => value_at_end(end, alloc),
        Node::Made(nodes) => {
            if is_array(nodes) {
                let mut array = ArrayValue::new(alloc);
                finish_items(nodes, &mut array, alloc)?;
                Ok(Value::Array(array))
            } else {
                let mut map = MapValue::new(alloc)?;
                finish_pairs(nodes, &mut map, alloc)?;
                Ok(Value::Map(map))
            }
        }
    }
}

/// A copy of the value at the end of a path.
fn value_at_end(end: &Leaf<'_>, alloc: Global) -> Result<Value, NoMemory>
    ensures { IfOk result (λ value. tree_of value ≡ tree_at_end end.now) }
{
    match end {
        Leaf::Represents(value) => value.copy(alloc),
        Leaf::NoPairs => Ok(Value::Map(MapValue::new(alloc)?)),
        Leaf::NoItems => Ok(Value::Array(ArrayValue::new(alloc))),
        Leaf::Nothing => Ok(Value::Absent),
    }
}

/// Whether the names are the positions 1, 2, 3 and so on, at least one.
fn is_array(nodes: &Nodes<'_>) -> bool
    ensures { result ≡ is_array (finished_pairs (nodes_of nodes.now)) }
{
    for place in 0..nodes.len() {
        if !is_position(nodes.entry(place).0, place + 1) {
            return false;
        }
    }
    nodes.len() > 0
}

/// Whether a name is this position in decimal.
fn is_position(name: &[u8], position: usize) -> bool
    ensures { result ≡ bytes_eq name.now (decimal position) }
{
    Buffer::new().format(position).as_bytes() == name
}

/// Appends the finished nodes to an array without items.
#[cycle(finish)]
fn finish_items(nodes: &Nodes<'_>, into: &mut ArrayValue, alloc: Global) -> Result<(), NoMemory>
    requires { into.old ≡ [] }
    ensures { OnOk result (into.new ≡ map (λ pair. pair.1) (finished_pairs (nodes_of nodes.now))) }
{
    for place in 0..nodes.len() {
        into.push(finished(nodes.entry(place).1, alloc)?)?;
    }
    Ok(())
}

/// Appends the finished nodes to a map without pairs.
#[cycle(finish)]
fn finish_pairs(nodes: &Nodes<'_>, into: &mut MapValue, alloc: Global) -> Result<(), NoMemory>
    requires { into.old ≡ [] }
    ensures { OnOk result (into.new ≡ finished_pairs (nodes_of nodes.now)) }
{
    for place in 0..nodes.len() {
        let (name, node) = nodes.entry(place);
        into.put(name, finished(node, alloc)?)?;
    }
    Ok(())
}
