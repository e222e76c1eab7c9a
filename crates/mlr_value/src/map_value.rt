//! Maps of values, with their keys in order.
ghost use Rattle.std.specs.Prelude.{◌≡◌, ◌<◌, ◌++◌, ◌∷◌, [], true, length, if◌then◌else◌, is_ok, is_some, IfOk, OnOk, None, Some, slice_get, vec_len, vec_capacity};
ghost use Rattle.std.specs.Option.{option_map};
ghost use Rattle.mlr_spec.specs.Pairs.{value_at, put_at, remove_at, keys_of, are_distinct};
ghost use Rattle.mlr_value.specs.Value.{tree_of};
ghost use Rattle.mlr_value.specs.Collections.{pairs_of, IsPlaceOf, IsIndex};

use crate::{Bytes, Value};
use mlr_keys::{HasKey, KeyPlaces};
use mlr_spec::NoMemory;
use std::alloc::Global;
use std::marker::Model;

/// A map: pairs of a key and a value in the order of insertion, no two of one key. A search goes over the keys while they are
/// few, and by a hash of the key once they are many.
#[cycle(value)]
#[derive(Debug, Drop)]
pub struct MapValue {
    alloc: Global,
    columns: Columns,
}

/// The pairs of a map, and its keys again by their hash once there are many.
#[cycle(value)]
#[derive(Debug, Drop)]
struct Columns {
    pairs: Vec<Pair>,
    index: KeyPlaces,
}

/// A key and its value.
#[cycle(value)]
#[derive(Debug, Drop)]
pub struct Pair {
    pub key: Bytes,
    pub value: Value,
}

impl HasKey for Pair {
    ghost key = { λ pair. pair.key };

    fn key(&self) -> &[u8] {
        self.key.as_slice()
    }
}

impl Model for MapValue {
    ghost use Rattle.std.specs.Prelude.{◌≡◌, ℕ, List, true};
    ghost use Rattle.mlr_spec.specs.Tree.{Tree};
    ghost use Rattle.mlr_spec.specs.TreeCode.{coded_pairs};

    ghost Value = { List (List ℕ × Tree) };

    ghost coded = { coded_pairs };

    ghost use Rattle.mlr_spec.specs.Pairs.{keys_of, are_distinct};
    ghost use Rattle.mlr_value.specs.Collections.{pairs_of, IsIndex};
    ghost use Rattle.mlr_value.specs.Depth.{pairs_depth};

    ghost view = { λ m. pairs_of m.columns.pairs.items };

    ghost invariant = { λ m. (are_distinct (keys_of (pairs_of m.columns.pairs.items)) ≡ true)
        × IsIndex m.columns };

    ghost size = { pairs_depth };

    ghost use Rattle.mlr_value.specs.Falls.{pairs_fall};

    ghost size_decreases = { λ m h. pairs_fall m };
}

impl MapValue {
    /// The empty map. It takes no memory.
    pub fn new(alloc: Global) -> Result<Self, NoMemory>
        ensures { IfOk result (λ made. made ≡ []) }
    {
        let columns = Columns {
            pairs: Vec::new(alloc),
            index: KeyPlaces::new(),
        };
        Ok(MapValue { alloc, columns })
    }

    /// How many pairs it has.
    pub fn len(&self) -> usize
        ensures length { result ≡ length self.now }
        ensures distinct { are_distinct (keys_of self.now) ≡ true }
    {
        self.columns.pairs.len()
    }

    /// The value of this key. It takes no memory.
    pub fn get(&self, key: &[u8]) -> Option<&Value>
        ensures { option_map (λ value. tree_of value.now) result ≡ value_at key.now self.now }
    {
        let place = place_of(&self.columns, key)?;
        Some(&self.columns.pairs[place].value)
    }

    /// The pair at this place, which counts from 0. It takes no memory.
    pub fn at(&self, place: usize) -> Option<(&[u8], &Value)>
        ensures { option_map (λ pair. (pair.0.now, tree_of pair.1.now)) result
            ≡ slice_get self.now place }
    {
        if place < self.len() {
            Some(self.entry(place))
        } else {
            None
        }
    }

    /// The pair at a place that the map has.
    pub fn entry(&self, place: usize) -> (&[u8], &Value)
        requires { place < length self.now }
        ensures { slice_get self.now place ≡ Some (result.0.now, tree_of result.1.now) }
    {
        let pair = &self.columns.pairs[place];
        (pair.key.as_slice(), &pair.value)
    }

    /// Gives the key this value: in its place if it is there, else last.
    pub fn put(&mut self, key: &[u8], value: Value) -> Result<(), NoMemory>
        ensures { self.new ≡ (if is_ok result then put_at key.now (tree_of value) self.old
            else self.old) }
    {
        let key = Bytes::copy_of(self.alloc, key)?;
        self.put_owned(key, value)
    }

    /// Gives the key, which it moves, this value: in its place if it is there, else last.
    #[inline(never)]
    pub fn put_owned(&mut self, key: Bytes, value: Value) -> Result<(), NoMemory>
        ensures { self.new ≡ (if is_ok result then put_at key (tree_of value) self.old
            else self.old) }
    {
        match place_of(&self.columns, key.as_slice()) {
            Some(place) => {
                self.columns.pairs[place].value = value;
                Ok(())
            }
            None => push_pair(&mut self.columns, self.alloc, key, value),
        }
    }

    /// Takes the pair of this key out, and says whether there was one. It takes no memory.
    pub fn remove(&mut self, key: &[u8]) -> bool
        ensures found { result ≡ is_some (value_at key.now self.old) }
        ensures removed { self.new ≡ remove_at key.now self.old }
    {
        remove_pair(&mut self.columns, key)
    }

    /// The pairs, as a vector. It takes no memory.
    pub fn into_pairs(self) -> Vec<Pair>
        ensures pairs { pairs_of result.items ≡ self }
        ensures distinct { are_distinct (keys_of self) ≡ true }
    {
        let MapValue { alloc: _, columns } = self;
        let Columns { pairs, index: _ } = columns;
        pairs
    }

    /// Appends a pair whose key isn't there.
    fn push(&mut self, key: &[u8], value: Value) -> Result<(), NoMemory>
        requires { value_at key.now self.old ≡ None }
        ensures { self.new ≡ (if is_ok result then self.old ++ (key.now, tree_of value) ∷ []
            else self.old) }
    {
        let key = Bytes::copy_of(self.alloc, key)?;
        push_pair(&mut self.columns, self.alloc, key, value)
    }

    /// A copy, which takes the room of the list at once.
    #[cycle(copy)]
    pub fn copy(&self, alloc: Global) -> Result<Self, NoMemory>
        ensures { IfOk result (λ copy. copy ≡ self.now) }
    {
        let mut copy = with_room(alloc, self.len())?;
        copy_pairs(self, &mut copy, alloc)?;
        Ok(copy)
    }
}

/// An empty map with room for this many pairs.
fn with_room(alloc: Global, room: usize) -> Result<MapValue, NoMemory>
    ensures { IfOk result (λ made. made ≡ []) }
{
    let columns = Columns {
        pairs: Vec::with_capacity(alloc, room)?,
        index: KeyPlaces::new(),
    };
    Ok(MapValue { alloc, columns })
}

/// Appends copies of all pairs to an empty map.
#[cycle(copy)]
fn copy_pairs(from: &MapValue, into: &mut MapValue, alloc: Global) -> Result<(), NoMemory>
    requires { into.old ≡ [] }
    ensures { OnOk result (into.new ≡ from.now) }
{
    for place in 0..from.len() {
        let (key, value) = from.entry(place);
        into.push(key, value.copy(alloc)?)?;
    }
    Ok(())
}

/// The place of the pair of this key.
fn place_of(columns: &Columns, key: &[u8]) -> Option<usize>
    requires { IsIndex columns.now }
    ensures { IsPlaceOf key.now columns.now.pairs.items result }
{
    columns.index.place_of(&columns.pairs, key)
}

/// How many pairs the first one takes room for.
const FIRST_ROOM: usize = 8;

/// Appends a key and a value, where the key isn't there.
#[inline(always)]
fn push_pair(columns: &mut Columns, alloc: Global, key: Bytes, value: Value) -> Result<(), NoMemory>
    requires index { IsIndex columns.old }
    requires distinct { are_distinct (keys_of (pairs_of columns.old.pairs.items)) ≡ true }
    requires absent { value_at key (pairs_of columns.old.pairs.items) ≡ None }
    ensures index { IsIndex columns.new }
    ensures pairs { pairs_of columns.new.pairs.items
        ≡ (if is_ok result then pairs_of columns.old.pairs.items ++ (key, tree_of value) ∷ []
        else pairs_of columns.old.pairs.items) }
{
    reserve_pair(&mut columns.pairs)?;
    columns.index.add(alloc, &columns.pairs, key.as_slice())?;
    columns.pairs.push_reserved(Pair { key, value });
    Ok(())
}

/// Takes room for one more pair.
#[inline(always)]
fn reserve_pair(pairs: &mut Vec<Pair>) -> Result<(), NoMemory>
    ensures same { pairs.new.items ≡ pairs.old.items }
    ensures room { OnOk result (vec_len pairs.new < vec_capacity pairs.new) }
{
    let more = if pairs.is_empty() { FIRST_ROOM } else { 1 };
    pairs.reserve(more)?;
    Ok(())
}

/// Takes the pair of this key out, and says whether it was there.
fn remove_pair(columns: &mut Columns, key: &[u8]) -> bool
    requires { IsIndex columns.old }
    ensures index { IsIndex columns.new }
    ensures found { result ≡ is_some (value_at key.now (pairs_of columns.old.pairs.items)) }
    ensures pairs { pairs_of columns.new.pairs.items
        ≡ remove_at key.now (pairs_of columns.old.pairs.items) }
{
    let Some(place) = place_of(columns, key) else {
        return false;
    };
    columns.pairs.remove(place);
    columns.index.remove(place);
    true
}
