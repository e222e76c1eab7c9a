//! The names of the fields of rows.
ghost use Rattle.std.specs.Prelude.{◌≡◌, ◌<◌, ◌^◌, [], length, IfOk, IsOk, slice_index_or};
ghost use Rattle.mlr_event.specs.Reading.{distinct_names};

use crate::distinct::distinct_names;
use crate::room::few;
use mlr_spec::NoMemory;
use mlr_value::Bytes;
use std::alloc::Global;
use std::marker::Model;

/// The names of the fields of rows. They are made distinct once, for all rows under them.
pub struct Header {
    /// As they are in the file.
    names: Vec<Bytes>,
    /// Each made distinct from those before it.
    keys: Vec<Bytes>,
}

// Written by hand, so that the crates above call it instead of dropping the fields themselves.
impl Drop for Header {
    fn drop(self) {
        let Header { names, keys } = self;
        drop(names);
        drop(keys);
    }
}

impl Model for Header {
    ghost use Rattle.std.specs.Prelude.{List, ℕ, ◌≡◌, ◌<◌, ◌^◌, length};
    ghost use Rattle.mlr_event.specs.Reading.{distinct_names};

    ghost Value = { List (List ℕ) };

    ghost view = { λ header. header.names.items };

    ghost invariant = { λ header. (header.keys.items ≡ distinct_names header.names.items)
        × (length header.names.items < 2 ^ 62) };
}

impl Header {
    /// A header of these names. It takes memory for a second list of them.
    pub fn new(alloc: Global, names: Vec<Bytes>) -> Result<Self, NoMemory>
        ensures names { IfOk result (λ header. header ≡ names.items) }
        ensures none { names.items ≡ [] → IsOk result }
    {
        few(names.len())?;
        let keys = distinct_names(alloc, names.as_slice())?;
        Ok(Header { names, keys })
    }

    /// The names as they are in the file.
    #[inline]
    pub fn names(&self) -> &[Bytes]
        ensures { result.now ≡ self.now }
    {
        self.names.as_slice()
    }

    /// The names, each made distinct from those before it.
    #[inline]
    pub fn keys(&self) -> &[Bytes]
        ensures { result.now ≡ distinct_names self.now }
    {
        self.keys.as_slice()
    }

    /// How many names there are.
    #[inline]
    pub fn len(&self) -> usize
        ensures count { result ≡ length self.now }
        ensures few { length self.now < 2 ^ 62 }
    {
        self.names.len()
    }

    /// The name at this place.
    #[inline]
    pub fn name(&self, place: usize) -> &[u8]
        requires { place < length self.now }
        ensures { result.now ≡ slice_index_or self.now place result.now }
    {
        self.names[place].as_slice()
    }

    /// The name at this place as it is distinct from those before it.
    #[inline]
    pub fn key(&self, place: usize) -> &[u8]
        requires { place < length self.now }
        ensures { result.now ≡ slice_index_or (distinct_names self.now) place result.now }
    {
        self.keys[place].as_slice()
    }
}
