//! Lists of the names of inputs.
ghost use Rattle.std.specs.Prelude.{◌≡◌, ◌++◌, ◌∷◌, [], length, if◌then◌else◌, is_ok, IfOk, slice_get};
ghost use Rattle.std.specs.Option.{option_map};

use crate::InputName;
use mlr_spec::NoMemory;
use std::alloc::Global;
use std::marker::Model;

/// The names of inputs, in the order in which they are read.
pub struct NameList {
    alloc: Global,
    names: Vec<InputName>,
}

// Written by hand, so that the crates above call it instead of dropping the fields themselves.
impl Drop for NameList {
    fn drop(self) {
        let NameList { alloc: _, names } = self;
        drop(names);
    }
}

impl Model for NameList {
    ghost use Rattle.std.specs.Prelude.{List};
    ghost use Rattle.mlr_event.specs.declared.names.InputName.{InputName};

    ghost Value = { List InputName };

    ghost view = { λ names. names.names.items };
}

impl NameList {
    /// No names. It doesn't allocate.
    pub fn new(alloc: Global) -> Self
        ensures { result ≡ [] }
    {
        NameList {
            alloc,
            names: Vec::new(alloc),
        }
    }

    /// How many names there are.
    pub fn len(&self) -> usize
        ensures { result ≡ length self.now }
    {
        self.names.len()
    }

    /// The name at this place, which counts from 0.
    pub fn at(&self, place: usize) -> Option<&InputName>
        ensures { option_map (λ name. name.now) result ≡ slice_get self.now place }
    {
        self.names.get(place)
    }

    /// Appends a name.
    pub fn push(&mut self, name: InputName) -> Result<(), NoMemory>
        ensures { self.new ≡ (if is_ok result then self.old ++ name ∷ [] else self.old) }
    {
        self.names.push(name)?;
        Ok(())
    }

    /// The names, as a vector.
    pub fn into_vec(self) -> Vec<InputName>
        ensures { result.items ≡ self }
    {
        let NameList { alloc: _, names } = self;
        names
    }

    /// A copy.
    pub fn copy(&self) -> Result<NameList, NoMemory>
        ensures { IfOk result (λ copy. copy ≡ self.now) }
    {
        let mut names = Vec::with_capacity(self.alloc, self.names.len())?;
        for name in &self.names {
            names.push(name.copy(self.alloc)?)?;
        }
        Ok(NameList {
            alloc: self.alloc,
            names,
        })
    }
}
