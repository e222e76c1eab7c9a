//! Lists of field names, as verbs have them in their options.
ghost use Rattle.std.specs.Prelude.{◌≡◌, ◌++◌, ◌∷◌, [], length, if◌then◌else◌, is_ok, IfOk, slice_get};
ghost use Rattle.std.specs.Option.{option_map};
ghost use Rattle.mlr_event.specs.Reading.{is_among};

use mlr_spec::NoMemory;
use mlr_value::Bytes;
use std::alloc::Global;
use std::marker::Model;

/// Names of fields, in order, as the options of verbs have them. A name may repeat.
pub struct Names {
    alloc: Global,
    names: Vec<Bytes>,
}

// Written by hand, so that the crates above call it instead of dropping the fields themselves.
impl Drop for Names {
    fn drop(self) {
        let Names { alloc: _, names } = self;
        drop(names);
    }
}

impl Model for Names {
    ghost use Rattle.std.specs.Prelude.{List, ℕ};

    ghost Value = { List (List ℕ) };

    ghost view = { λ names. names.names.items };
}

impl Names {
    /// No names. It takes no memory.
    pub fn new(alloc: Global) -> Self
        ensures { result ≡ [] }
    {
        Names {
            alloc,
            names: Vec::new(alloc),
        }
    }

    /// How many names there are.
    pub fn len(&self) -> usize
        ensures { result ≡ length self.now }
    {
        self.names.len()
    }

    /// The name at this place, which counts from 0.
    pub fn at(&self, place: usize) -> Option<&Bytes>
        ensures { option_map (λ name. name.now) result ≡ slice_get self.now place }
    {
        self.names.get(place)
    }

    /// All names.
    #[inline]
    pub fn as_slice(&self) -> &[Bytes]
        ensures { result.now ≡ self.now }
    {
        self.names.as_slice()
    }

    /// Appends a name.
    pub fn push(&mut self, name: Bytes) -> Result<(), NoMemory>
        ensures { self.new ≡ (if is_ok result then self.old ++ name ∷ [] else self.old) }
    {
        self.names.push(name)?;
        Ok(())
    }

    /// The names, as a vector.
    pub fn into_vec(self) -> Vec<Bytes>
        ensures { result.items ≡ self }
    {
        let Names { alloc: _, names } = self;
        names
    }

    /// Whether this name is among them. It takes no memory.
    #[inline]
    pub fn has(&self, name: &[u8]) -> bool
        ensures { result ≡ is_among self.now name.now }
    {
        self.names.iter().any(|other| name == other.as_slice())
    }

    /// A copy.
    pub fn copy(&self) -> Result<Names, NoMemory>
        ensures { IfOk result (λ copy. copy ≡ self.now) }
    {
        let mut names = Vec::with_capacity(self.alloc, self.names.len())?;
        for name in &self.names {
            names.push(Bytes::copy_of(self.alloc, name.as_slice())?)?;
        }
        Ok(Names {
            alloc: self.alloc,
            names,
        })
    }
}
