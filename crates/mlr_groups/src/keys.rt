//! Keys: one text for each list of texts, and a table of keys.
ghost use Rattle.std.specs.Prelude.{◌≡◌, ◌<◌, ◌++◌, ◌∷◌, [], false, true, length, if◌then◌else◌, is_ok, IfOk, IfSome, IsOk, OnOk, Some, None, is_some, slice_get};
ghost use Rattle.std.specs.Option.{option_map};
ghost use Rattle.std.specs.List.{flat_map, list_all};
ghost use Rattle.mlr_spec.specs.Pairs.{are_distinct, keys_of, value_at};
ghost use Rattle.mlr_value.specs.Value.{tree_of};
ghost use Rattle.mlr_event.specs.Reading.{is_among};
ghost use Rattle.text_forms.specs.Shown.{shown};
ghost use Rattle.mlr_groups.specs.Grouping.{common_in, group_of, others, texts_of};
ghost use Rattle.mlr_groups.specs.Keys.{entered, escaped, key_of};
ghost use Rattle.mlr_groups.specs.declared.group_by.GroupBy.TheVariants.{Others};

use crate::group_by::GroupBy;
use indexmap::IndexSet;
use memchr::memchr;
use mlr_event::Names;
use mlr_record::Record;
use mlr_spec::NoMemory;
use mlr_value::{Bytes, Value};
use std::alloc::Global;
use std::marker::Model;
use text_forms::{held_text, shown};

/// Appends to `key` the key of the texts of the named fields, with the empty text for a missing field. Two
/// records have equal keys exactly if all these texts are equal. It allocates if `key` has no room, and, for
/// a moment, to print a value of more than 20 bytes.
pub fn append_texts(
    alloc: Global,
    names: &Names,
    fields: &Record,
    key: &mut Bytes,
) -> Result<(), NoMemory>
    ensures { OnOk result (key.new ≡ key.old ++ key_of (texts_of names.now fields.now)) }
{
    for name in names.as_slice() {
        match fields.get(name.as_slice()) {
            Some(value) => append_value(alloc, value, key)?,
            None => key.append(END)?,
        }
    }
    Ok(())
}

/// Appends to `key` the key of a record's group, and returns whether the record is in a group. If a named
/// field is missing, the appended bytes aren't a key.
pub(crate) fn append_group(
    alloc: Global,
    names: &Names,
    fields: &Record,
    key: &mut Bytes,
) -> Result<bool, NoMemory>
    ensures { IfOk result (λ has. option_map (λ texts. key.old ++ key_of texts)
        (group_of names.now fields.now) ≡ (if has then Some key.new else None)) }
{
    for name in names.as_slice() {
        let Some(value) = fields.get(name.as_slice()) else {
            return Ok(false);
        };
        append_value(alloc, value, key)?;
    }
    Ok(true)
}

/// Appends to `key` the key of what a record has in common with its group, and returns whether the record is in a
/// group. If it isn't, the appended bytes aren't a key.
pub(crate) fn append_common(
    alloc: Global,
    by: &GroupBy,
    fields: &Record,
    key: &mut Bytes,
) -> Result<bool, NoMemory>
    ensures { IfOk result (λ has. option_map (λ texts. key.old ++ key_of texts)
        (common_in by.now fields.now) ≡ (if has then Some key.new else None)) }
{
    match by {
        GroupBy::Texts(names) => append_group(alloc, names, fields, key),
        GroupBy::Keys => {
            append_names(fields, key)?;
            Ok(true)
        }
        GroupBy::Fields => {
            append_fields(alloc, fields, key)?;
            Ok(true)
        }
        GroupBy::Others(names) => append_rest(alloc, names, fields, key),
    }
}

/// Appends to `key` the key of the names of a record's fields.
fn append_names(fields: &Record, key: &mut Bytes) -> Result<(), NoMemory>
    ensures { OnOk result (key.new ≡ key.old ++ key_of (keys_of fields.now)) }
{
    for field in fields.fields() {
        append_text(field.name.as_slice(), key)?;
    }
    Ok(())
}

/// Appends to `key` the key of the names and the texts of a record's fields.
fn append_fields(alloc: Global, fields: &Record, key: &mut Bytes) -> Result<(), NoMemory>
    ensures { OnOk result (key.new ≡ key.old ++ key_of
        (flat_map (λ field. field.0 ∷ shown field.1 ∷ []) fields.now)) }
{
    for field in fields.fields() {
        append_text(field.name.as_slice(), key)?;
        append_value(alloc, &field.value, key)?;
    }
    Ok(())
}

/// Appends to `key` the key of the names and the texts of the other fields, if the record has all of the named ones, and
/// returns whether it has them.
fn append_rest(
    alloc: Global,
    names: &Names,
    fields: &Record,
    key: &mut Bytes,
) -> Result<bool, NoMemory>
    ensures { IfOk result (λ has. option_map (λ texts. key.old ++ key_of texts)
        (common_in (Others names.now) fields.now) ≡ (if has then Some key.new else None)) }
{
    if !has_all(names, fields) {
        return Ok(false);
    }
    append_others(alloc, names, fields, key)?;
    Ok(true)
}

/// Whether the record has a field of each name.
fn has_all(names: &Names, fields: &Record) -> bool
    ensures { result ≡ list_all (λ name. is_some (value_at name fields.now)) names.now }
{
    let mut names = names.as_slice().iter();
    names.all(|name| fields.get(name.as_slice()).is_some())
}

/// Appends to `key` the key of the names and the texts of the fields that have none of the names.
fn append_others(
    alloc: Global,
    names: &Names,
    fields: &Record,
    key: &mut Bytes,
) -> Result<(), NoMemory>
    ensures { OnOk result (key.new ≡ key.old ++ key_of
        (flat_map (λ field. field.0 ∷ shown field.1 ∷ []) (others names.now fields.now))) }
{
    for field in fields.fields() {
        if !names.has(field.name.as_slice()) {
            append_text(field.name.as_slice(), key)?;
            append_value(alloc, &field.value, key)?;
        }
    }
    Ok(())
}

/// The end of each text in a key. It occurs in no text, since each byte 0 of a text is followed by a 1.
const END: &[u8] = &[0, 0];

/// Appends the text of a value and its end to `key`.
#[inline(always)]
fn append_value(alloc: Global, value: &Value, key: &mut Bytes) -> Result<(), NoMemory>
    ensures { OnOk result (key.new ≡ key.old ++ escaped (shown (tree_of value.now)) ++ 0 ∷ 0 ∷ []) }
{
    match held_text(value) {
        Some(text) => append_text(text, key),
        None => append_printed(alloc, value, key),
    }
}

/// Appends the text of a value that must be printed, and its end, to `key`.
#[inline(never)]
fn append_printed(alloc: Global, value: &Value, key: &mut Bytes) -> Result<(), NoMemory>
    ensures { OnOk result (key.new ≡ key.old ++ escaped (shown (tree_of value.now)) ++ 0 ∷ 0 ∷ []) }
{
    let text = shown(alloc, value)?;
    append_text(text.as_slice(), key)
}

/// Appends a text and its end to `key`; the key of a list of texts is made by one call for each. It allocates
/// if `key` has no room.
#[inline(always)]
pub fn append_text(text: &[u8], key: &mut Bytes) -> Result<(), NoMemory>
    ensures { OnOk result (key.new ≡ key.old ++ escaped text.now ++ 0 ∷ 0 ∷ []) }
{
    append_escaped(text, key)?;
    key.append(END)
}

/// Appends a text to `key`, with a 1 after each byte 0.
#[inline(always)]
fn append_escaped(text: &[u8], key: &mut Bytes) -> Result<(), NoMemory>
    ensures { OnOk result (key.new ≡ key.old ++ escaped text.now) }
{
    match memchr(0, text) {
        None => key.append(text),
        Some(_) => append_each(text, key),
    }
}

/// Appends a text that contains a byte 0 to `key`, byte by byte.
#[inline(never)]
fn append_each(text: &[u8], key: &mut Bytes) -> Result<(), NoMemory>
    ensures { OnOk result (key.new ≡ key.old ++ escaped text.now) }
{
    for byte in text {
        key.push(*byte)?;
        if *byte == 0 {
            key.push(1)?;
        }
    }
    Ok(())
}

/// Distinct keys, in the order in which they came first, which are looked up by their hash.
#[derive(Drop)]
pub struct KeyTable {
    alloc: Global,
    keys: IndexSet<Vec<u8>>,
}

impl Model for KeyTable {
    ghost use Rattle.std.specs.Prelude.{List, ℕ};
    ghost use Rattle.mlr_keys.specs.Keys.{texts_in};

    ghost Value = { List (List ℕ) };

    ghost view = { λ table. texts_in table.keys.keys };
}

impl KeyTable {
    /// A table without keys. It doesn't allocate.
    pub fn new(alloc: Global) -> Self
        ensures { result ≡ [] }
    {
        KeyTable {
            alloc,
            keys: IndexSet::new(alloc),
        }
    }

    /// How many keys there are.
    pub fn len(&self) -> usize
        ensures length { result ≡ length self.now }
        ensures distinct { are_distinct self.now ≡ true }
    {
        self.keys.len()
    }

    /// The place of a key, which counts from 0, if it is there. It doesn't allocate.
    pub fn place_of(&self, key: &[u8]) -> Option<usize>
        ensures found { is_some result ≡ is_among self.now key.now }
        ensures place { IfSome result (λ place. slice_get self.now place ≡ Some key.now) }
    {
        self.keys.get_index_of(key)
    }

    /// The key at a place that the table has.
    pub fn key_at(&self, place: usize) -> &[u8]
        requires { place < length self.now }
        ensures { slice_get self.now place ≡ Some result.now }
    {
        self.keys[place].as_slice()
    }

    /// The place of a key, which counts from 0; a new key is added at the end. It allocates only for a new
    /// key.
    pub fn enter(&mut self, key: &[u8]) -> Result<usize, NoMemory>
        ensures entered { self.new ≡ (if is_ok result then entered self.old key.now else self.old) }
        ensures place { IfOk result (λ place. slice_get self.new place ≡ Some key.now) }
        ensures known { is_among self.old key.now ≡ true → IsOk result }
    {
        match self.keys.get_index_of(key) {
            Some(place) => Ok(place),
            None => self.push(key),
        }
    }

    /// Adds a new key at the end, and returns its place.
    #[cold]
    #[inline(never)]
    fn push(&mut self, key: &[u8]) -> Result<usize, NoMemory>
        requires { is_among self.old key.now ≡ false }
        ensures pushed { self.new ≡ (if is_ok result then self.old ++ key.now ∷ [] else self.old) }
        ensures place { IfOk result (λ place. slice_get self.new place ≡ Some key.now) }
    {
        let place = self.keys.len();
        let key = Vec::from_slice(self.alloc, key)?;
        self.keys.insert(key)?;
        Ok(place)
    }
}
