//! Names that are looked up by their hash.
ghost use Rattle.std.specs.Prelude.{◌≡◌, ◌++◌, ◌∷◌, [], false, true, length, if◌then◌else◌, is_ok, is_some, IfOk, IfSome, OnOk, Some, slice_get};
ghost use Rattle.mlr_spec.specs.Pairs.{are_distinct, keys_of};
ghost use Rattle.mlr_event.specs.Reading.{free_name, is_among};
ghost use Rattle.mlr_fields.specs.Prefixes.{IsPrefix};

use crate::suffixes::{FIRST, first_free};
use indexmap::IndexSet;
use mlr_event::rows::TakenNames;
use mlr_record::Record;
use mlr_spec::NoMemory;
use mlr_value::Bytes;
use std::alloc::Global;
use std::marker::Model;

/// Distinct names in order, which are looked up by their hash. Names are only added.
#[derive(Drop)]
pub(crate) struct NameIndex {
    alloc: Global,
    names: IndexSet<Vec<u8>>,
    /// For each name a number: the suffixes from 2 up to it make names that are taken. So no suffix is tried
    /// twice.
    numbers: Vec<usize>,
}

impl Model for NameIndex {
    ghost use Rattle.std.specs.Prelude.{List, ℕ};
    ghost use Rattle.mlr_keys.specs.Keys.{texts_in};
    ghost use Rattle.mlr_fields.specs.Suffixes.{AreKnown};

    ghost Value = { List (List ℕ) };

    ghost view = { λ index. texts_in index.names.keys };

    ghost invariant = { λ index. AreKnown (texts_in index.names.keys)
        (texts_in index.names.keys) index.numbers.items };
}

impl TakenNames for NameIndex {
    ghost names = { λ names. names };

    fn count(&self) -> usize {
        self.names.len()
    }

    fn has(&self, name: &[u8]) -> bool {
        self.place(name).is_some()
    }
}

impl NameIndex {
    /// An index without names, with room for so many.
    pub(crate) fn new(alloc: Global, room: usize) -> Result<Self, NoMemory>
        ensures { IfOk result (λ index. index ≡ []) }
    {
        Ok(NameIndex {
            alloc,
            names: IndexSet::with_capacity(alloc, room)?,
            numbers: Vec::with_capacity(alloc, room)?,
        })
    }

    /// Adds the remaining names of a record, whose first names are those of the index.
    pub(crate) fn add_names(&mut self, record: &Record) -> Result<(), NoMemory>
        requires { IsPrefix self.old (keys_of record.now) }
        ensures names { OnOk result (self.new ≡ keys_of record.now) }
        ensures distinct { OnOk result (are_distinct self.new ≡ true) }
    {
        for place in self.names.len()..record.len() {
            self.push(record.entry(place).0)?;
        }
        Ok(())
    }

    /// The place of a name, which counts from 0.
    pub(crate) fn place(&self, name: &[u8]) -> Option<usize>
        ensures found { is_some result ≡ is_among self.now name.now }
        ensures place { IfSome result (λ place. slice_get self.now place ≡ Some name.now) }
    {
        self.names.get_index_of(name)
    }

    /// Adds a name that isn't there.
    pub(crate) fn push(&mut self, name: &[u8]) -> Result<(), NoMemory>
        requires { is_among self.old name.now ≡ false }
        ensures { self.new ≡ (if is_ok result then self.old ++ name.now ∷ [] else self.old) }
    {
        let name = Vec::from_slice(self.alloc, name)?;
        self.numbers.reserve(1)?;
        self.names.insert(name)?;
        self.numbers.push_reserved(FIRST);
        Ok(())
    }

    /// The name as it is free: a name that is taken gets the least suffix from 2 up that makes a free one. It
    /// adds no name.
    pub(crate) fn free_name(&mut self, name: &[u8]) -> Result<Bytes, NoMemory>
        ensures free { IfOk result (λ free. free ≡ free_name self.old name.now) }
        ensures new { IfOk result (λ free. is_among self.old free ≡ false) }
        ensures same { self.new ≡ self.old }
    {
        let Some(place) = self.place(name) else {
            return Ok(Bytes::copy_of(self.alloc, name)?);
        };
        let (number, free) = first_free(self.alloc, self, name, self.numbers[place])?;
        self.numbers[place] = number;
        Ok(free)
    }
}
