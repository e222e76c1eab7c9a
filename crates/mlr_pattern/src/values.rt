//! `sub`, `gsub` and `ssub` on one value.
ghost use Rattle.std.specs.Prelude.{◌≡◌, ◌++◌, unwrap_or, IfOk, OnOk};
ghost use Rattle.mlr_spec.specs.JsonGrammar.{text_value};
ghost use Rattle.mlr_spec.specs.Tree.{text_of};
ghost use Rattle.mlr_value.specs.Value.{tree_of};
ghost use Rattle.regex.specs.Bytes.{matcher_pattern};
ghost use Rattle.mlr_pattern.specs.Values.{sub_of, ssub_of, plainly_replaced};

use crate::Matcher;
use crate::replace::replaced_if_found;
use crate::which::Which;
use mlr_record::split::separator_place;
use mlr_spec::NoMemory;
use mlr_value::{Bytes, Value, append_text};
use std::alloc::Global;

/// A value after the function or the verb `sub` (the first match) or `gsub` (all matches). One matcher serves
/// many values. A string without a match is kept without a copy.
pub fn sub_value(
    alloc: Global,
    matcher: &mut Matcher<'_>,
    value: Value,
    by: &[u8],
    which: Which,
) -> Result<Value, NoMemory>
    ensures made { IfOk result (λ made. tree_of made
        ≡ sub_of which (matcher_pattern matcher.old) by.now (tree_of value)) }
    ensures same { matcher_pattern matcher.new ≡ matcher_pattern matcher.old }
{
    match value {
        Value::Absent => Ok(Value::Absent),
        Value::Map(_) | Value::Array(_) | Value::Error => Ok(Value::Error),
        value => {
            let text = into_text(alloc, value)?;
            let made = replaced_if_found(alloc, matcher, text.as_slice(), by, which)?;
            Ok(text_value(made.unwrap_or(text)))
        }
    }
}

/// A value after the function or the verb `ssub`. A string that doesn't contain `old` is kept without a copy.
pub fn ssub_value(alloc: Global, value: Value, old: &[u8], by: &[u8]) -> Result<Value, NoMemory>
    ensures { IfOk result (λ made. tree_of made ≡ ssub_of old.now by.now (tree_of value)) }
{
    match value {
        Value::Absent => Ok(Value::Absent),
        Value::Map(_) | Value::Array(_) | Value::Error => Ok(Value::Error),
        value => {
            let text = into_text(alloc, value)?;
            let made = plainly_replaced_if_found(alloc, text.as_slice(), old, by)?;
            Ok(text_value(made.unwrap_or(text)))
        }
    }
}

/// The text with the first `old` in it replaced, or None if it doesn't contain `old`, so that the text needs
/// no copy.
fn plainly_replaced_if_found(
    alloc: Global,
    text: &[u8],
    old: &[u8],
    by: &[u8],
) -> Result<Option<Bytes>, NoMemory>
    ensures { IfOk result (λ made. unwrap_or made text.now
        ≡ plainly_replaced old.now by.now text.now) }
{
    if old.is_empty() {
        return Ok(None);
    }
    match separator_place(old, text) {
        None => Ok(None),
        Some(place) => {
            let mut made = Bytes::new(alloc);
            append_around(&text[..place], by, &text[place + old.len()..], &mut made)?;
            Ok(Some(made))
        }
    }
}

/// Appends three texts, one after another.
fn append_around(prefix: &[u8], by: &[u8], back: &[u8], out: &mut Bytes) -> Result<(), NoMemory>
    ensures { OnOk result (out.new ≡ out.old ++ (prefix.now ++ by.now ++ back.now)) }
{
    out.append(prefix)?;
    out.append(by)?;
    out.append(back)
}

/// The text of a value, without a copy where it is a string.
fn into_text(alloc: Global, value: Value) -> Result<Bytes, NoMemory>
    ensures { IfOk result (λ text. text ≡ text_of (tree_of value)) }
{
    match value {
        Value::Str(text) => Ok(text),
        other => {
            let mut text = Bytes::new(alloc);
            append_text(&other, &mut text)?;
            Ok(text)
        }
    }
}

/// A text as a string, or as the empty value.
fn text_value(text: Bytes) -> Value
    ensures { tree_of result ≡ text_value text }
{
    if text.is_empty() {
        Value::Empty
    } else {
        Value::Str(text)
    }
}
