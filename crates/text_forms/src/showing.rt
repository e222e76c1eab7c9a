//! Values as texts, as writers and verbs show them.
ghost use Rattle.std.specs.Prelude.{◌≡◌, ◌++◌, ◌&&◌, not, is_some, IfOk, IfSome, OnOk};
ghost use Rattle.mlr_spec.specs.Tree.{is_collection, is_empty};
ghost use Rattle.mlr_spec.specs.Tree as tree;
ghost use Rattle.mlr_value.specs.Value.{int_text, tree_of};
ghost use Rattle.text_forms.specs.Shown.{holds_text, shown};

use mlr_json::append_json_value;
use mlr_spec::{JsonStyle, NoMemory};
use mlr_value::{Bytes, IntValue, Value, append_text};
use std::alloc::Global;

/// A value as one text: a map or an array is its JSON text on one line, any other value what it prints. It takes memory
/// where the text has more than 20 bytes.
pub fn shown(alloc: Global, value: &Value) -> Result<Bytes, NoMemory>
    ensures { IfOk result (λ text. text ≡ shown (tree_of value.now)) }
{
    let mut text = Bytes::new(alloc);
    append_shown(value, &mut text)?;
    Ok(text)
}

/// Appends the value as one text.
#[inline(always)]
pub fn append_shown(value: &Value, out: &mut Bytes) -> Result<(), NoMemory>
    ensures { OnOk result (out.new ≡ out.old ++ shown (tree_of value.now)) }
{
    match held_text(value) {
        Some(text) => out.append(text),
        None => append_printed(value, out),
    }
}

/// Appends a value that doesn't hold its text.
#[inline(never)]
fn append_printed(value: &Value, out: &mut Bytes) -> Result<(), NoMemory>
    ensures { OnOk result (out.new ≡ out.old ++ shown (tree_of value.now)) }
{
    if is_collection(value) {
        append_json_value(value, JsonStyle::Single, out)
    } else {
        append_text(value, out)
    }
}

/// The text of a value that holds it, so that nothing need be printed. A value that holds none is absent, a boolean, an
/// error, a map, an array, or an int that arithmetic made.
#[inline(always)]
pub fn held_text(value: &Value) -> Option<&[u8]>
    ensures text { IfSome result (λ text. text.now ≡ shown (tree_of value.now)) }
    ensures held { is_some result ≡ holds_text (tree_of value.now) }
{
    match value {
        Value::Empty => Some(b""),
        Value::Str(text) | Value::Frac(text) | Value::Wide(text) => Some(text.as_slice()),
        Value::Int(int) => held_spelling(int),
        _ => None,
    }
}

/// The bytes in which a value holds its text. An empty value has no bytes.
#[inline(always)]
pub fn held_bytes(value: &Value) -> Option<&Bytes>
    ensures text { IfSome result (λ text. text.now ≡ shown (tree_of value.now)) }
    ensures held { is_some result ≡ (holds_text (tree_of value.now)
        && not (is_empty (tree_of value.now))) }
{
    match value {
        Value::Str(text) | Value::Frac(text) | Value::Wide(text) => Some(text),
        Value::Int(int) if !int.spelling.is_empty() => Some(&int.spelling),
        _ => None,
    }
}

/// How an int was spelled, unless it is printed in decimal.
#[inline(always)]
fn held_spelling(int: &IntValue) -> Option<&[u8]>
    ensures text { IfSome result (λ text. text.now ≡ int_text int.now) }
    ensures held { is_some result ≡ holds_text (tree.int int.now.n int.now.spelling) }
{
    if int.spelling.is_empty() {
        None
    } else {
        Some(int.spelling.as_slice())
    }
}

/// Whether a value is a map or an array.
#[inline]
fn is_collection(value: &Value) -> bool
    ensures { result ≡ is_collection (tree_of value.now) }
{
    matches!(value, Value::Map(_) | Value::Array(_))
}

#[cfg(test)]
mod tests {
    use super::*;
    use mlr_value::{ArrayValue, MapValue};

    fn array(alloc: Global) -> Result<Value, NoMemory> {
        let mut map = MapValue::new(alloc)?;
        map.put(b"a", Value::Str(Bytes::copy_of(alloc, b"x\"y")?))?;
        let mut array = ArrayValue::new(alloc);
        array.push(Value::Map(map))?;
        array.push(Value::Bool(true))?;
        Ok(Value::Array(array))
    }

    #[test]
    fn values_shown_as_texts(rt: HostRuntime) -> Result<(), NoMemory> {
        let alloc = rt.alloc();
        let table: [(Value, &[u8]); 7] = [
            (Value::Absent, b""),
            (Value::Empty, b""),
            (Value::Str(Bytes::copy_of(alloc, b"a b")?), b"a b"),
            (
                Value::Int(IntValue {
                    n: 15,
                    spelling: Bytes::copy_of(alloc, b"0x0F")?,
                }),
                b"0x0F",
            ),
            (
                Value::Int(IntValue {
                    n: -7,
                    spelling: Bytes::new(alloc),
                }),
                b"-7",
            ),
            (Value::Error, b"(error)"),
            (array(alloc)?, b"[{\"a\": \"x\\\"y\"}, true]"),
        ];
        for (i, row) in table.iter().enumerate() {
            assert_eq!(rt; shown(alloc, &row.0)?.as_slice(), row.1, "at {i}");
        }
        assert!(rt; held_text(&Value::Error).is_none());
        assert!(rt; held_bytes(&Value::Empty).is_none() && held_bytes(&table[3].0).is_some());
        Ok(())
    }
}
