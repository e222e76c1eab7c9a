//! Keys by their hash.
ghost use Rattle.std.specs.Prelude.{◌≡◌, ◌++◌, ◌∷◌, [], false, if◌then◌else◌, is_ok, remove};
ghost use Rattle.std.specs.List.{list_any};
ghost use Rattle.std.specs.Str.{bytes_eq};
ghost use Rattle.mlr_keys.specs.Keys.{IsPlaceAmong};

use indexmap::IndexSet;
use mlr_spec::NoMemory;
use std::alloc::Global;
use std::marker::Model;

/// Distinct keys in order, of which a search finds the place by a hash.
#[derive(Debug, Drop)]
pub(crate) struct KeyIndex {
    alloc: Global,
    keys: IndexSet<Vec<u8>>,
}

impl Model for KeyIndex {
    ghost use Rattle.std.specs.Prelude.{ℕ, List};
    ghost use Rattle.mlr_keys.specs.Keys.{texts_in};

    ghost Value = { List (List ℕ) };

    ghost view = { λ index. texts_in index.keys.keys };
}

impl KeyIndex {
    /// No keys. It takes no memory.
    pub(crate) fn new(alloc: Global) -> Self
        ensures { result ≡ [] }
    {
        KeyIndex {
            alloc,
            keys: IndexSet::new(alloc),
        }
    }

    /// The place of a key.
    pub(crate) fn place_of(&self, key: &[u8]) -> Option<usize>
        ensures { IsPlaceAmong key.now self.now result }
    {
        self.keys.get_index_of(key)
    }

    /// Appends a key that isn't there.
    pub(crate) fn push(&mut self, key: &[u8]) -> Result<(), NoMemory>
        requires { list_any (bytes_eq key.now) self.old ≡ false }
        ensures { self.new ≡ (if is_ok result then self.old ++ key.now ∷ [] else self.old) }
    {
        let key = Vec::from_slice(self.alloc, key)?;
        self.keys.insert(key)?;
        Ok(())
    }

    /// Takes the key at this place out.
    pub(crate) fn remove(&mut self, place: usize)
        ensures { self.new ≡ remove self.old place }
    {
        self.keys.shift_remove_index(place);
    }
}
