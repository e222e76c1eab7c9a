//! Records: fields in order, with distinct names.
ghost use Rattle.std.specs.Prelude.{◌≡◌, ◌<◌, ◌++◌, ◌∷◌, true, false, ℕ, List, [], length, set, if◌then◌else◌, is_ok, IfOk, OnOk, map, slice_get, is_some, vec_len, slice_index_or, remove};
ghost use Rattle.std.specs.List.{list_any};
ghost use Rattle.std.specs.Option.{option_map};
ghost use Rattle.mlr_spec.specs.Tree.{Tree, is_collection};
ghost use Rattle.mlr_spec.specs.Pairs.{value_at, put_at, remove_at, place_at, rename_at, keys_of, are_distinct};
ghost use Rattle.mlr_value.specs.Value.{tree_of};
ghost use Rattle.mlr_value.specs.Collections.{pairs_of as map_pairs};
ghost use Rattle.mlr_record.specs.declared.record.Field.{Field};
ghost use Rattle.mlr_record.specs.Fields.{IsPlaceOf, IsRenamed, pairs_of};

use mlr_spec::NoMemory;
use mlr_value::{Bytes, MapValue, Pair, Value};
use std::alloc::Global;
use std::marker::Model;
use std::mem::{forget, replace};

/// A name and its value.
#[derive(Drop)]
pub struct Field {
    pub name: Bytes,
    pub value: Value,
}

/// A record: fields in order, no two of one name. A search goes over the fields, since records are short.
pub struct Record {
    alloc: Global,
    fields: Vec<Field>,
    /// Whether a look at each field has shown that none holds memory, and none was added since.
    plain: bool,
}

// Written by hand, so that the crates above call it instead of dropping the fields themselves.
impl Drop for Record {
    #[inline]
    fn drop(self) {
        let Record {
            alloc: _,
            fields,
            plain,
        } = self;
        drop_fields(fields, plain);
    }
}

/// Drops the fields. Where none holds memory, which a look at each shows, nothing is left to do.
fn drop_fields(fields: Vec<Field>, plain: bool) {
    if plain || !hold_memory(&fields) {
        for field in fields {
            forget(field);
        }
    } else {
        drop_each(fields);
    }
}

/// Whether any of the fields holds memory.
fn hold_memory(fields: &[Field]) -> bool
    ensures { result ≡ false
        → list_any (λ field. is_collection (tree_of field.value)) fields.now ≡ false }
{
    for field in fields {
        if field.name.holds_memory() || field.value.holds_memory() {
            return true;
        }
    }
    false
}

#[inline(never)]
fn drop_each(fields: Vec<Field>) {
    drop(fields);
}

impl Model for Record {
    ghost use Rattle.std.specs.Prelude.{List, ℕ, ◌≡◌, true};
    ghost use Rattle.mlr_spec.specs.Tree.{Tree};
    ghost use Rattle.mlr_spec.specs.TreeCode.{coded_pairs};

    ghost Value = { List (List ℕ × Tree) };

    ghost coded = { coded_pairs };

    ghost use Rattle.mlr_spec.specs.Pairs.{keys_of, are_distinct};
    ghost use Rattle.mlr_record.specs.Fields.{pairs_of};

    ghost view = { λ r. pairs_of r.fields.items };

    ghost invariant = { λ r. are_distinct (keys_of (pairs_of r.fields.items)) ≡ true };
}

impl Record {
    /// A record without fields, with room for a few.
    pub fn new(alloc: Global) -> Result<Self, NoMemory>
        ensures { IfOk result (λ made. made ≡ []) }
    {
        Ok(Record {
            alloc,
            fields: Vec::with_capacity(alloc, FIRST_ROOM)?,
            plain: false,
        })
    }

    /// How many fields it has.
    pub fn len(&self) -> usize
        ensures length { result ≡ length self.now }
        ensures distinct { are_distinct (keys_of self.now) ≡ true }
    {
        self.fields.len()
    }

    /// The value of this name. It takes no memory.
    pub fn get(&self, key: &[u8]) -> Option<&Value>
        ensures { option_map (λ value. tree_of value.now) result ≡ value_at key.now self.now }
    {
        let place = place_of(&self.fields, key)?;
        Some(&self.fields[place].value)
    }

    /// The field at this place, which counts from 0. It takes no memory.
    pub fn at(&self, place: usize) -> Option<(&[u8], &Value)>
        ensures { option_map (λ field. (field.0.now, tree_of field.1.now)) result
            ≡ slice_get self.now place }
    {
        let field = self.fields.get(place)?;
        Some((field.name.as_slice(), &field.value))
    }

    /// The field at a place that the record has.
    pub fn entry(&self, place: usize) -> (&[u8], &Value)
        requires { place < length self.now }
        ensures { slice_get self.now place ≡ Some (result.0.now, tree_of result.1.now) }
    {
        let field = &self.fields[place];
        (field.name.as_slice(), &field.value)
    }

    /// The fields in their order. It takes no memory.
    #[inline(always)]
    pub fn fields(&self) -> &[Field]
        ensures { pairs_of result.now ≡ self.now }
    {
        &self.fields
    }

    /// The place of this name, which counts from 0. It takes no memory.
    pub fn position(&self, key: &[u8]) -> Option<usize>
        ensures { result ≡ place_at key.now self.now }
    {
        place_of(&self.fields, key)
    }

    /// Gives the name this value: in its place if it is there, else last.
    pub fn put(&mut self, key: &[u8], value: Value) -> Result<(), NoMemory>
        ensures { self.new ≡ (if is_ok result then put_at key.now (tree_of value) self.old
            else self.old) }
    {
        self.plain = false;
        match place_of(&self.fields, key) {
            Some(place) => {
                self.fields[place].value = value;
                Ok(())
            }
            None => {
                let name = Bytes::copy_of(self.alloc, key)?;
                self.fields.push(Field { name, value })?;
                Ok(())
            }
        }
    }

    /// Appends a field whose name the record doesn't have. It makes no search.
    #[inline(always)]
    pub fn push(&mut self, key: &[u8], value: Value) -> Result<(), NoMemory>
        requires { value_at key.now self.old ≡ None }
        ensures { self.new ≡ (if is_ok result then self.old ++ (key.now, tree_of value) ∷ []
            else self.old) }
    {
        self.plain = false;
        let name = Bytes::copy_of(self.alloc, key)?;
        self.fields.push(Field { name, value })?;
        Ok(())
    }

    /// A record of the pairs of a map. It takes the room of the list at once, and makes no search.
    pub fn of_map(alloc: Global, map: MapValue) -> Result<Self, NoMemory>
        ensures { IfOk result (λ made. made ≡ map) }
    {
        let pairs = map.into_pairs();
        let mut fields = Vec::with_capacity(alloc, pairs.len())?;
        push_pairs(pairs, &mut fields)?;
        Ok(Record {
            alloc,
            fields,
            plain: false,
        })
    }

    /// A record of these fields, of which no two have one name. It takes no memory and makes no search.
    pub fn of_fields(alloc: Global, fields: Vec<Field>) -> Self
        requires { are_distinct (keys_of (pairs_of fields.items)) ≡ true }
        ensures { result ≡ pairs_of fields.items }
    {
        Record {
            alloc,
            fields,
            plain: false,
        }
    }

    /// The fields, as a vector. It takes no memory.
    pub fn into_fields(self) -> Vec<Field>
        ensures fields { pairs_of result.items ≡ self }
        ensures distinct { are_distinct (keys_of self) ≡ true }
    {
        let Record {
            alloc: _,
            fields,
            plain: _,
        } = self;
        fields
    }

    /// Looks at each field, and returns whether none holds memory, as texts of up to 20 bytes don't. Then dropping the record
    /// needs no further look.
    #[inline]
    pub(crate) fn is_plain(&mut self) -> bool
        ensures plain { result ≡ true → list_any (λ pair. is_collection pair.1) self.old ≡ false }
        ensures distinct { are_distinct (keys_of self.old) ≡ true }
        ensures same { self.new ≡ self.old }
    {
        self.plain = !hold_memory(&self.fields);
        self.plain
    }

    /// Sets the value of the field at this place, and returns the earlier one. It doesn't allocate.
    pub fn replace(&mut self, place: usize, value: Value) -> Value
        requires { place < length self.old }
        ensures had { (pair : List ℕ × Tree)
            → tree_of result ≡ (slice_index_or self.old place pair).1 }
        ensures new { (pair : List ℕ × Tree)
            → self.new ≡ set self.old place
            ((slice_index_or self.old place pair).0, tree_of value) }
    {
        self.plain = false;
        replace(&mut self.fields[place].value, value)
    }

    /// A copy, which takes the room of the list at once.
    pub fn copy(&self) -> Result<Self, NoMemory>
        ensures { IfOk result (λ copy. copy ≡ self.now) }
    {
        let mut copy = Record {
            alloc: self.alloc,
            fields: Vec::with_capacity(self.alloc, self.len())?,
            plain: false,
        };
        copy_fields(self, &mut copy, self.alloc)?;
        Ok(copy)
    }

    /// The allocator that its fields are in.
    pub(crate) fn allocator(&self) -> Global {
        self.alloc
    }

    /// Takes the field of this name out, and says whether there was one. It takes no memory.
    pub fn remove(&mut self, key: &[u8]) -> bool
        ensures found { result ≡ is_some (value_at key.now self.old) }
        ensures removed { self.new ≡ remove_at key.now self.old }
    {
        match place_of(&self.fields, key) {
            Some(place) => {
                self.fields.remove(place);
                true
            }
            None => false,
        }
    }

    /// Inserts a field at the start; a field of this name that is there is removed.
    pub fn put_first(&mut self, key: &[u8], value: Value) -> Result<(), NoMemory>
        ensures { self.new ≡ (if is_ok result then (key.now, tree_of value)
            ∷ remove_at key.now self.old else self.old) }
    {
        self.plain = false;
        if let Some(place) = place_of(&self.fields, key) {
            self.fields[place].value = value;
            move_first(&mut self.fields, place);
            return Ok(());
        }
        let name = Bytes::copy_of(self.alloc, key)?;
        self.fields.insert(0, Field { name, value })?;
        Ok(())
    }

    /// Renames the field `old` in its place, takes another field of the new name out, and says whether `old` was there.
    pub fn rename(&mut self, old: &[u8], new: &[u8]) -> Result<bool, NoMemory>
        ensures found { IfOk result (λ found. found ≡ is_some (value_at old.now self.old)) }
        ensures renamed { self.new ≡ (if is_ok result then rename_at old.now new.now self.old
            else self.old) }
    {
        let Some(place) = place_of(&self.fields, old) else {
            return Ok(false);
        };
        if old == new {
            return Ok(true);
        }
        let name = Bytes::copy_of(self.alloc, new)?;
        give_name(&mut self.fields, place, name);
        self.plain = false;
        Ok(true)
    }
}

const FIRST_ROOM: usize = 8;

/// Appends pairs as fields.
fn push_pairs(pairs: Vec<Pair>, fields: &mut Vec<Field>) -> Result<(), NoMemory>
    ensures { OnOk result (pairs_of fields.new.items
        ≡ pairs_of fields.old.items ++ map_pairs pairs.items) }
{
    for pair in pairs {
        let Pair { key, value } = pair;
        fields.push(Field { name: key, value })?;
    }
    Ok(())
}

/// Appends copies of all fields to an empty record.
fn copy_fields(from: &Record, into: &mut Record, alloc: Global) -> Result<(), NoMemory>
    requires { into.old ≡ [] }
    ensures { OnOk result (into.new ≡ from.now) }
{
    for place in 0..from.len() {
        let (name, value) = from.entry(place);
        into.push(name, value.copy(alloc)?)?;
    }
    Ok(())
}

/// Moves the field at this place before the others.
fn move_first(fields: &mut [Field], place: usize)
    requires { place < length fields.old }
    ensures moved { (field : Field)
        → fields.new ≡ slice_index_or fields.old place field ∷ remove fields.old place }
    ensures len { length fields.new ≡ length fields.old }
{
    fields[..place + 1].rotate_right(1);
}

/// Gives the field at this place the name, and takes another field of that name out.
fn give_name(fields: &mut Vec<Field>, place: usize, name: Bytes)
    requires { place < vec_len fields.old }
    ensures { IsRenamed name place fields.old.items fields.new.items }
{
    let other = place_of(fields, name.as_slice());
    fields[place].name = name;
    if let Some(other) = other {
        fields.remove(other);
    }
}

/// The place of the field with this name.
fn place_of(fields: &[Field], key: &[u8]) -> Option<usize>
    ensures { IsPlaceOf key.now fields.now result }
{
    for (place, field) in fields.iter().enumerate() {
        if field.name.as_slice() == key {
            return Some(place);
        }
    }
    None
}
