//! Lists of items of one type: the verbs and the styles of a command, and what its left files hold.
#![tactic(auto)]

ghost use Rattle.std.specs.Prelude.{◌≡◌, ◌++◌, ◌∷◌, [], length, if◌then◌else◌, is_ok, slice_get};
ghost use Rattle.std.specs.Option.{option_map};

use mlr_spec::NoMemory;
use std::alloc::Global;
use std::marker::Model;

/// Items in their order.
pub struct List<T> {
    items: Vec<T>,
}

// Written by hand, so that the crates above call it instead of dropping the items themselves.
impl<T: Drop> Drop for List<T> {
    fn drop(self) {
        let List { items } = self;
        drop(items);
    }
}

impl<T> Model for List<T> {
    ghost use Rattle.std.specs.Prelude.{List as Items};
    ghost use Rattle.std.specs.Coded.{coded_list};

    ghost Value = { Items T };

    ghost coded = { coded_list T.code };

    ghost view = { λ list. list.items.items };
}

impl<T: Drop> List<T> {
    /// No items. It takes no memory.
    pub fn new(alloc: Global) -> Self
        ensures { result ≡ [] }
    {
        List {
            items: Vec::new(alloc),
        }
    }

    /// How many items there are.
    pub fn len(&self) -> usize
        ensures { result ≡ length self.now }
    {
        self.items.len()
    }

    /// The item at this place, which counts from 0.
    pub fn at(&self, place: usize) -> Option<&T>
        ensures { option_map (λ item. item.now) result ≡ slice_get self.now place }
    {
        self.items.get(place)
    }

    /// All items.
    pub fn as_slice(&self) -> &[T]
        ensures { result.now ≡ self.now }
    {
        &self.items
    }

    /// Appends an item.
    pub fn push(&mut self, item: T) -> Result<(), NoMemory>
        ensures { self.new ≡ (if is_ok result then self.old ++ item ∷ [] else self.old) }
    {
        self.items.push(item)?;
        Ok(())
    }

    /// The items as a vector. It takes no memory.
    pub fn into_vec(self) -> Vec<T>
        ensures { result.items ≡ self }
    {
        let List { items } = self;
        items
    }
}
