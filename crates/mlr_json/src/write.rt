//! Values written as JSON texts.
ghost use Rattle.std.specs.Prelude.{◌≡◌, ℕ, ◌+◌, ◌*◌, ◌==◌, ◌&&◌, ◌++◌, ◌∷◌, [], List, map, true, false, IfOk, OnOk, OnErr};
ghost use Rattle.std.specs.List.{list_any};
ghost use Rattle.mlr_spec.specs.Tree.{map_of, array_of, is_collection};
ghost use Rattle.mlr_spec.specs.Json.{json_string, json_at, json_text, json_field, is_stacked, new_line};
ghost use Rattle.mlr_value.specs.Value.{tree_of};
ghost use Rattle.mlr_json.specs.Escapes.{RepresentsBefore};
ghost use Rattle.mlr_json.specs.Writing.{gap, line_end, led};

use crate::escape::{append_json_string, append_opened};
use mlr_spec::{JsonStyle, NoMemory};
use mlr_value::{ArrayValue, Bytes, MapValue, Value, append_text};
use std::alloc::Global;

/// Appends a value as JSON text (RFC 8259): numbers in their spelling, other texts in quotes. Where memory
/// runs out, a prefix of the text may have been appended.
#[inline]
pub fn append_json_value(value: &Value, style: JsonStyle, into: &mut Bytes) -> Result<(), NoMemory>
    ensures ok { OnOk result (into.new ≡ into.old ++ json_text style (tree_of value.now)) }
    ensures err { OnErr result (RepresentsBefore into.old into.new) }
{
    append_at(value, style, 0, into)
}

/// Appends a field of a record, as it is written between the record's braces. Where memory runs out, a prefix
/// of it may have been appended.
#[inline]
pub fn append_json_field(
    key: &[u8],
    value: &Value,
    style: JsonStyle,
    into: &mut Bytes,
) -> Result<(), NoMemory>
    ensures ok { OnOk result (into.new ≡ into.old
        ++ json_field style 1 (key.now, tree_of value.now)) }
    ensures err { OnErr result (RepresentsBefore into.old into.new) }
{
    append_field(key, value, style, 1, into)
}

/// The JSON text of a value.
pub fn json_text(alloc: Global, value: &Value, style: JsonStyle) -> Result<Bytes, NoMemory>
    ensures { IfOk result (λ text. text ≡ json_text style (tree_of value.now)) }
{
    let mut text = Bytes::new(alloc);
    append_json_value(value, style, &mut text)?;
    Ok(text)
}

/// A value whose first line is at this level.
#[cycle(write)]
fn append_at(
    value: &Value,
    style: JsonStyle,
    level: usize,
    into: &mut Bytes,
) -> Result<(), NoMemory>
    ensures ok { OnOk result (into.new ≡ into.old ++ json_at style level (tree_of value.now)) }
    ensures err { OnErr result (RepresentsBefore into.old into.new) }
{
    match value {
        Value::Map(pairs) => append_map(pairs, style, level, into),
        Value::Array(items) => append_array(items, style, level, into),
        Value::Absent | Value::Empty => append_json_string(b"", into),
        Value::Str(text) => append_json_string(text.as_slice(), into),
        _ => append_text(value, into),
    }
}

/// A key with its value.
#[cycle(write)]
fn append_field(
    key: &[u8],
    value: &Value,
    style: JsonStyle,
    level: usize,
    into: &mut Bytes,
) -> Result<(), NoMemory>
    ensures ok { OnOk result (into.new ≡ into.old
        ++ json_field style level (key.now, tree_of value.now)) }
    ensures err { OnErr result (RepresentsBefore into.old into.new) }
{
    append_opened(key, into)?;
    into.append(b"\": ")?;
    append_at(value, style, level, into)
}

#[cycle(write)]
#[inline(never)]
fn append_map(
    pairs: &MapValue,
    style: JsonStyle,
    level: usize,
    into: &mut Bytes,
) -> Result<(), NoMemory>
    ensures ok { OnOk result (into.new ≡ into.old ++ json_at style level (map_of pairs.now)) }
    ensures err { OnErr result (RepresentsBefore into.old into.new) }
{
    if pairs.len() == 0 {
        return into.append(b"{}");
    }
    let inner = deeper(level)?;
    into.push(b'{')?;
    append_pairs(pairs, style, inner, into)?;
    append_line_end(is_stacked(style), level, into)?;
    into.push(b'}')
}

/// The pairs of a map, each after its gap.
#[cycle(write)]
fn append_pairs(
    pairs: &MapValue,
    style: JsonStyle,
    level: usize,
    into: &mut Bytes,
) -> Result<(), NoMemory>
    ensures ok { OnOk result (into.new ≡ into.old
        ++ led (is_stacked style) true level (map (json_field style level) pairs.now)) }
    ensures err { OnErr result (RepresentsBefore into.old into.new) }
{
    for place in 0..pairs.len() {
        append_gap(is_stacked(style), place == 0, level, into)?;
        let (key, value) = pairs.entry(place);
        append_field(key, value, style, level, into)?;
    }
    Ok(())
}

/// An array takes several lines only if it contains a map or an array.
#[cycle(write)]
#[inline(never)]
fn append_array(
    items: &ArrayValue,
    style: JsonStyle,
    level: usize,
    into: &mut Bytes,
) -> Result<(), NoMemory>
    ensures ok { OnOk result (into.new ≡ into.old ++ json_at style level (array_of items.now)) }
    ensures err { OnErr result (RepresentsBefore into.old into.new) }
{
    if items.len() == 0 {
        return into.append(b"[]");
    }
    let lines = is_stacked(style) && has_collection(items);
    let inner = deeper(level)?;
    into.push(b'[')?;
    append_items(items, lines, style, inner, into)?;
    append_line_end(lines, level, into)?;
    into.push(b']')
}

/// The items of an array, each after its gap.
#[cycle(write)]
fn append_items(
    items: &ArrayValue,
    lines: bool,
    style: JsonStyle,
    level: usize,
    into: &mut Bytes,
) -> Result<(), NoMemory>
    ensures ok { OnOk result (into.new ≡ into.old
        ++ led lines true level (map (json_at style level) items.now)) }
    ensures err { OnErr result (RepresentsBefore into.old into.new) }
{
    for place in 0..items.len() {
        append_gap(lines, place == 0, level, into)?;
        append_at(items.item(place), style, level, into)?;
    }
    Ok(())
}

/// One level more. A value of more levels than a `usize` counts takes more memory than there is.
#[inline(always)]
fn deeper(level: usize) -> Result<usize, NoMemory>
    ensures { IfOk result (λ more. more ≡ level + 1) }
{
    level.checked_add(1).ok_or(NoMemory)
}

#[inline(always)]
fn is_stacked(style: JsonStyle) -> bool
    ensures { result ≡ is_stacked style }
{
    matches!(style, JsonStyle::Stacked)
}

#[inline(always)]
fn is_collection(value: &Value) -> bool
    ensures { result ≡ is_collection (tree_of value.now) }
{
    matches!(value, Value::Map(_) | Value::Array(_))
}

/// Whether it contains a map or an array.
fn has_collection(items: &ArrayValue) -> bool
    ensures { result ≡ list_any is_collection items.now }
{
    for place in 0..items.len() {
        if is_collection(items.item(place)) {
            return true;
        }
    }
    false
}

/// What precedes a text between brackets.
#[inline(always)]
fn append_gap(lines: bool, first: bool, level: usize, into: &mut Bytes) -> Result<(), NoMemory>
    ensures ok { OnOk result (into.new ≡ into.old ++ gap lines first level) }
    ensures err { OnErr result (RepresentsBefore into.old into.new) }
{
    if !lines {
        return if first { Ok(()) } else { into.append(b", ") };
    }
    if first {
        return append_new_line(level, into);
    }
    if level <= SHORT_LEVEL {
        return into.append(&SHORT_GAP[..2 + 2 * level]);
    }
    into.push(b',')?;
    append_deep_line(level, into)
}

/// What precedes a closing bracket.
#[inline(always)]
fn append_line_end(lines: bool, level: usize, into: &mut Bytes) -> Result<(), NoMemory>
    ensures ok { OnOk result (into.new ≡ into.old ++ line_end lines level) }
    ensures err { OnErr result (RepresentsBefore into.old into.new) }
{
    if lines {
        append_new_line(level, into)
    } else {
        Ok(())
    }
}

/// A comma and a new line, of a level up to which they are written at once.
const SHORT_GAP: &[u8] = b",\n              ";

/// The new line alone.
const SHORT_LINE: &[u8] = b"\n              ";

const SHORT_LEVEL: usize = 7;

/// A line end, and two spaces for each level.
#[inline(always)]
fn append_new_line(level: usize, into: &mut Bytes) -> Result<(), NoMemory>
    ensures ok { OnOk result (into.new ≡ into.old ++ new_line level) }
    ensures err { OnErr result (RepresentsBefore into.old into.new) }
{
    if level <= SHORT_LEVEL {
        into.append(&SHORT_LINE[..1 + 2 * level])
    } else {
        append_deep_line(level, into)
    }
}

/// A new line of any level, space by space.
#[cold]
fn append_deep_line(level: usize, into: &mut Bytes) -> Result<(), NoMemory>
    ensures ok { OnOk result (into.new ≡ into.old ++ new_line level) }
    ensures err { OnErr result (RepresentsBefore into.old into.new) }
{
    into.push(b'\n')?;
    for _done in 0..level {
        into.append(b"  ")?;
    }
    Ok(())
}
