//! The places of keys: a search while they are few, and their hash once they are many.
ghost use Rattle.std.specs.Prelude.{◌≡◌, ◌++◌, ◌∷◌, [], false, true, map, None, IfOk, OnOk, OnErr, List, ℕ, remove};
ghost use Rattle.std.specs.List.{list_any};
ghost use Rattle.std.specs.Str.{bytes_eq};
ghost use Rattle.mlr_spec.specs.Pairs.{are_distinct};
ghost use Rattle.mlr_keys.specs.Keys.{IsPlaceAmong, Knows};

use crate::key_index::KeyIndex;
use mlr_spec::NoMemory;
use std::alloc::Global;
use std::marker::Model;

/// How many items a list has before their keys are found by their hash.
const MOST_SEARCHED: usize = 16;

/// An item of a list that is found by its key.
pub trait HasKey {
    /// The key.
    ghost key: { Self → List ℕ };

    /// The key.
    fn key(&self) -> &[u8]
        ensures { result.now ≡ key self.now };
}

/// Finds the items of a list by their keys, no two of which are equal. It has an index of the keys once they are many.
#[derive(Debug, Drop)]
pub struct KeyPlaces {
    index: Option<Box<KeyIndex>>,
}

impl Model for KeyPlaces {
    ghost use Rattle.std.specs.Prelude.{ℕ, List, Option};
    ghost use Rattle.std.specs.Option.{option_map};

    ghost Value = { Option (List (List ℕ)) };

    ghost view = { λ places. option_map (λ index. index.value) places.index };
}

impl KeyPlaces {
    /// Of a list without items. It takes no memory.
    pub fn new() -> Self
        ensures { result ≡ None }
    {
        KeyPlaces { index: None }
    }

    /// The place of the item of this key. It takes no memory.
    pub fn place_of<T: HasKey>(&self, items: &[T], key: &[u8]) -> Option<usize>
        requires { Knows self.now (map T.key items.now) }
        ensures { IsPlaceAmong key.now (map T.key items.now) result }
    {
        match &self.index {
            None => place_among(items, key),
            Some(index) => index.place_of(key),
        }
    }

    /// Is told of an item that is to be appended, of a key that no item has.
    pub fn add<T: HasKey>(&mut self, alloc: Global, items: &[T], key: &[u8]) -> Result<(), NoMemory>
        requires knows { Knows self.old (map T.key items.now) }
        requires distinct { are_distinct (map T.key items.now) ≡ true }
        requires absent { list_any (bytes_eq key.now) (map T.key items.now) ≡ false }
        ensures ok { OnOk result (Knows self.new (map T.key items.now ++ key.now ∷ [])) }
        ensures err { OnErr result (Knows self.new (map T.key items.now)) }
    {
        if let Some(index) = &mut self.index {
            return index.push(key);
        }
        if items.len() >= MOST_SEARCHED {
            let mut index = index_of(alloc, items)?;
            index.push(key)?;
            self.index = Some(Box::new(alloc, index)?);
        }
        Ok(())
    }

    /// Is told that the item at this place is taken out.
    pub fn remove(&mut self, place: usize)
        ensures { (keys : List (List ℕ)) → Knows self.old keys → Knows self.new (remove keys place) }
    {
        if let Some(index) = &mut self.index {
            index.remove(place);
        }
    }
}

/// The place of the item of this key, by a search from the first item on.
fn place_among<T: HasKey>(items: &[T], key: &[u8]) -> Option<usize>
    ensures { IsPlaceAmong key.now (map T.key items.now) result }
{
    for place in 0..items.len() {
        if items[place].key() == key {
            return Some(place);
        }
    }
    None
}

/// The index of the keys of these items.
fn index_of<T: HasKey>(alloc: Global, items: &[T]) -> Result<KeyIndex, NoMemory>
    requires { are_distinct (map T.key items.now) ≡ true }
    ensures { IfOk result (λ index. index ≡ map T.key items.now) }
{
    let mut index = KeyIndex::new(alloc);
    for place in 0..items.len() {
        index.push(items[place].key())?;
    }
    Ok(index)
}
