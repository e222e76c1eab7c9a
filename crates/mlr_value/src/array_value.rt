//! Arrays of values.
ghost use Rattle.std.specs.Prelude.{◌≡◌, ◌<◌, ◌++◌, ◌∷◌, [], length, if◌then◌else◌, is_ok, IfOk, OnOk, Some, slice_get};
ghost use Rattle.std.specs.Option.{option_map};
ghost use Rattle.mlr_value.specs.Value.{tree_of};

use crate::Value;
use mlr_spec::NoMemory;
use std::alloc::Global;
use std::marker::Model;

/// A list of values.
#[cycle(value)]
#[derive(Debug, Drop)]
pub struct ArrayValue {
    items: Vec<Value>,
}

impl Model for ArrayValue {
    ghost use Rattle.std.specs.Prelude.{List};
    ghost use Rattle.mlr_spec.specs.Tree.{Tree};
    ghost use Rattle.mlr_spec.specs.TreeCode.{coded_trees};

    ghost Value = { List Tree };

    ghost coded = { coded_trees };

    ghost use Rattle.mlr_value.specs.Collections.{trees_in};
    ghost use Rattle.mlr_value.specs.Depth.{items_depth};

    ghost view = { λ a. trees_in a.items.items };

    ghost size = { items_depth };

    ghost use Rattle.mlr_value.specs.Falls.{items_fall};

    ghost size_decreases = { λ a h. items_fall a };
}

impl ArrayValue {
    /// The empty array. It takes no memory.
    pub fn new(alloc: Global) -> Self
        ensures { result ≡ [] }
    {
        ArrayValue {
            items: Vec::new(alloc),
        }
    }

    /// How many items it has.
    pub fn len(&self) -> usize
        ensures { result ≡ length self.now }
    {
        self.items.len()
    }

    /// The item at this place, which counts from 0.
    pub fn at(&self, place: usize) -> Option<&Value>
        ensures { option_map (λ item. tree_of item.now) result ≡ slice_get self.now place }
    {
        self.items.get(place)
    }

    /// The item at a place that the array has.
    pub fn item(&self, place: usize) -> &Value
        requires { place < length self.now }
        ensures { slice_get self.now place ≡ Some (tree_of result.now) }
    {
        &self.items[place]
    }

    /// Appends an item. The capacity at least doubles where it grows.
    pub fn push(&mut self, item: Value) -> Result<(), NoMemory>
        ensures { self.new ≡ (if is_ok result then self.old ++ tree_of item ∷ [] else self.old) }
    {
        self.items.push(item)?;
        Ok(())
    }

    /// A copy, which takes the room of the list at once.
    #[cycle(copy)]
    pub fn copy(&self, alloc: Global) -> Result<Self, NoMemory>
        ensures { IfOk result (λ copy. copy ≡ self.now) }
    {
        let mut copy = ArrayValue {
            items: Vec::with_capacity(alloc, self.len())?,
        };
        copy_items(self, &mut copy, alloc)?;
        Ok(copy)
    }
}

/// Appends copies of all items to an empty array.
#[cycle(copy)]
fn copy_items(from: &ArrayValue, into: &mut ArrayValue, alloc: Global) -> Result<(), NoMemory>
    requires { into.old ≡ [] }
    ensures { OnOk result (into.new ≡ from.now) }
{
    for place in 0..from.len() {
        into.push(from.item(place).copy(alloc)?)?;
    }
    Ok(())
}
