//! `unspace`: a text in place of each space in keys and values.
ghost use Rattle.std.specs.Prelude.{◌≡◌, ◌≤◌, ◌++◌, [], true, length, IfOk, IsOk, OnOk};
ghost use Rattle.std.specs.List.{list_any};
ghost use Rattle.mlr_spec.specs.Pairs.{keys_of, are_distinct};
ghost use Rattle.mlr_value.specs.Value.{tree_of};
ghost use Rattle.mlr_record.specs.Fields.{pair_of, pairs_of};
ghost use Rattle.verbs_fields.specs.Unspace.{has_space, is_spaced, is_spaced_string, takes_keys, takes_values, unspace, unspaced_byte, unspaced_field, unspaced_text, unspaced_value};

use mlr_record::{Field, Record};
use mlr_spec::{InferOpts, NoMemory};
use mlr_value::{Bytes, Value, from_data};
use std::alloc::Global;
use verbs_base::PerRecord;

/// Where `unspace` replaces spaces.
#[derive(Clone, Copy, Debug, PartialEq, Eq)]
pub enum UnspacePart {
    Both,
    /// `-k`.
    Keys,
    /// `-v`.
    Values,
}

/// The options of `unspace`, which replaces each space by a text. The type of a string that changes is inferred as
/// for data; other values are unchanged, maps and arrays too. Of fields whose keys become equal, the first gives
/// the place and the last the value.
#[derive(Drop)]
pub struct Unspace {
    /// The text in place of a space.
    pub text: Bytes,
    pub part: UnspacePart,
}

impl Unspace {
    /// A copy. It allocates only for a text of more than 20 bytes.
    pub fn copy(&self, alloc: Global) -> Result<Self, NoMemory>
        ensures same { IfOk result (λ copy. copy ≡ self.now) }
        ensures short { length self.now.text ≤ 20 → IsOk result }
    {
        Ok(Unspace {
            text: Bytes::copy_of(alloc, self.text.as_slice())?,
            part: self.part,
        })
    }
}

impl PerRecord for Unspace {
    ghost use Rattle.verbs_base.specs.Records.{maps};
    ghost use Rattle.verbs_fields.specs.Unspace.{unspace};

    ghost gives = { λ verb. maps (unspace verb) };

    ghost sound = { λ verb. Unit {0} };

    // A record without spaces passes as it is, with nothing allocated.
    fn made(&mut self, alloc: Global, fields: Record) -> Result<Option<Record>, NoMemory> {
        if !has_spaced(self.part, &fields) {
            return Ok(Some(fields));
        }
        let mut made = Record::new(alloc)?;
        put_unspaced(alloc, self, fields.into_fields(), &mut made)?;
        Ok(Some(made))
    }
}

/// Whether a key or a value that `unspace` takes has a space.
fn has_spaced(part: UnspacePart, from: &Record) -> bool
    ensures found { result ≡ list_any (is_spaced part) from.now }
    ensures distinct { are_distinct (keys_of from.now) ≡ true }
{
    for place in 0..from.len() {
        let (name, value) = from.entry(place);
        if is_spaced(part, name, value) {
            return true;
        }
    }
    false
}

/// Whether the key or the value of a field has a space, as far as `unspace` takes it.
fn is_spaced(part: UnspacePart, name: &[u8], value: &Value) -> bool
    ensures { result ≡ is_spaced part (name.now, tree_of value.now) }
{
    (takes_keys(part) && has_space(name)) || (takes_values(part) && is_spaced_string(value))
}

fn takes_keys(part: UnspacePart) -> bool
    ensures { result ≡ takes_keys part }
{
    matches!(part, UnspacePart::Both | UnspacePart::Keys)
}

fn takes_values(part: UnspacePart) -> bool
    ensures { result ≡ takes_values part }
{
    matches!(part, UnspacePart::Both | UnspacePart::Values)
}

fn has_space(text: &[u8]) -> bool
    ensures { result ≡ has_space text.now }
{
    text.iter().any(|byte| *byte == b' ')
}

fn is_spaced_string(value: &Value) -> bool
    ensures { result ≡ is_spaced_string (tree_of value.now) }
{
    match value {
        Value::Str(text) => has_space(text.as_slice()),
        _ => false,
    }
}

/// Sets the fields, with their spaces replaced, in a record without fields.
fn put_unspaced(
    alloc: Global,
    verb: &Unspace,
    fields: Vec<Field>,
    into: &mut Record,
) -> Result<(), NoMemory>
    requires { into.old ≡ [] }
    ensures { OnOk result (into.new ≡ unspace verb.now (pairs_of fields.items)) }
{
    for field in fields {
        let Field { name, value } = unspaced_field(alloc, verb, field)?;
        into.put(name.as_slice(), value)?;
    }
    Ok(())
}

/// The field with its spaces replaced.
fn unspaced_field(alloc: Global, verb: &Unspace, field: Field) -> Result<Field, NoMemory>
    ensures { IfOk result (λ made. pair_of made ≡ unspaced_field verb.now (pair_of field)) }
{
    let other = verb.text.as_slice();
    let Field { name, value } = field;
    let name = if takes_keys(verb.part) {
        unspaced_name(alloc, other, name)?
    } else {
        name
    };
    let value = if takes_values(verb.part) {
        unspaced_value(alloc, other, value)?
    } else {
        value
    };
    Ok(Field { name, value })
}

/// The name with its spaces replaced.
fn unspaced_name(alloc: Global, other: &[u8], name: Bytes) -> Result<Bytes, NoMemory>
    ensures { IfOk result (λ made. made ≡ unspaced_text other.now name) }
{
    if has_space(name.as_slice()) {
        unspaced_text(alloc, other, name.as_slice())
    } else {
        Ok(name)
    }
}

/// The value with its spaces replaced.
fn unspaced_value(alloc: Global, other: &[u8], value: Value) -> Result<Value, NoMemory>
    ensures { IfOk result (λ made. tree_of made ≡ unspaced_value other.now (tree_of value)) }
{
    match &value {
        Value::Str(text) if has_space(text.as_slice()) => {
            let text = unspaced_text(alloc, other, text.as_slice())?;
            from_data(alloc, text.as_slice(), InferOpts::plain())
        }
        _ => Ok(value),
    }
}

/// The text with each space replaced by `other`.
fn unspaced_text(alloc: Global, other: &[u8], text: &[u8]) -> Result<Bytes, NoMemory>
    ensures { IfOk result (λ made. made ≡ unspaced_text other.now text.now) }
{
    let mut made = Bytes::new(alloc);
    append_unspaced(other, text, &mut made)?;
    Ok(made)
}

/// Appends the text to `into`, with each space replaced by `other`.
fn append_unspaced(other: &[u8], text: &[u8], into: &mut Bytes) -> Result<(), NoMemory>
    ensures { OnOk result (into.new ≡ into.old ++ unspaced_text other.now text.now) }
{
    for byte in text {
        append_byte(other, *byte, into)?;
    }
    Ok(())
}

/// Appends the byte to `into`, or `other` in place of a space.
fn append_byte(other: &[u8], byte: u8, into: &mut Bytes) -> Result<(), NoMemory>
    ensures { OnOk result (into.new ≡ into.old ++ unspaced_byte other.now byte) }
{
    if byte == b' ' {
        into.append(other)
    } else {
        into.push(byte)
    }
}
