//! Inputs in memory that never fail.
ghost use Rattle.std.specs.Prelude.{◌≡◌, ◌≤◌, ◌++◌, ◌∷◌, [], false, Some, IfOk, IfSome, IsSome, if◌then◌else◌, is_ok};
ghost use Rattle.mlr_event.specs.declared.names.InputName.{InputName};
ghost use Rattle.mlr_world.specs.Counts.{Counted};
ghost use Rattle.mlr_world.specs.Taken.{Take, open_take};
ghost use Rattle.mlr_world.specs.Inputs.{OpenTakes, OpenFinds, opens, open_failed, ReadTakes, read_failed};
ghost use Rattle.mlr_world.specs.MemoryTexts.{same_input, IsFirstPlace};
ghost use Rattle.mlr_world.specs.MemorySource.{SureSource, sure_source_of, contents_at};
ghost use Rattle.mlr_world.specs.MemoryInputs.{left_of, TakesUpTo};
ghost use Rattle.mlr_world.specs.SureContents.{sure_contents, AddsEmpty};

use crate::memory_inputs::{Reading, place_of, take_on};
use crate::{Got, Inputs, Opened};
use mlr_event::InputName;
use mlr_spec::NoMemory;
use mlr_value::Bytes;
use std::alloc::Global;
use std::marker::Model;

/// Inputs in memory that never fail. A name that isn't in the list is empty.
pub struct SureInputs {
    alloc: Global,
    /// The given entries, followed by an empty one for each other name that was opened.
    entries: Vec<(InputName, Bytes)>,
    given: usize,
    readings: Vec<Reading>,
    is_open: bool,
}

// Written by hand, so that the crates above call it instead of dropping the fields themselves.
impl Drop for SureInputs {
    fn drop(self) {
        let SureInputs {
            alloc: _,
            entries,
            given: _,
            readings,
            is_open: _,
        } = self;
        drop(entries);
        drop(readings);
    }
}

impl Model for SureInputs {
    ghost use Rattle.std.specs.Prelude.{take};
    ghost use Rattle.mlr_world.specs.MemorySource.{SureSource};

    ghost Value = { SureSource };

    ghost use Rattle.mlr_world.specs.MemoryInputs.{takes_of, entry_if};
    ghost use Rattle.mlr_world.specs.SureContents.{SureState};

    ghost view = { λ s. record {
      contents = take s.given s.entries.items;
      taken = takes_of
          s.entries.items s.readings.items;
      open_entry = entry_if s.is_open
          (takes_of s.entries.items s.readings.items);
    } };

    ghost invariant = { λ s. SureState s.given s.entries.items s.readings.items };
}

impl SureInputs {
    /// Inputs with these contents. The first entry of a name counts.
    pub fn new(alloc: Global, contents: Vec<(InputName, Bytes)>) -> Result<SureInputs, NoMemory>
        ensures { IfOk result (λ made. made ≡ sure_source_of contents.items) }
    {
        Ok(SureInputs {
            alloc,
            readings: Vec::with_capacity(alloc, contents.len())?,
            given: contents.len(),
            entries: contents,
            is_open: false,
        })
    }
}

impl Inputs for SureInputs {
    ghost contents = { λ s. Some (sure_contents s.contents) };

    ghost taken = { λ s. Some s.taken };

    ghost open_entry = { λ s. s.open_entry };

    ghost faults = { λ s _. 0 };

    fn open(&mut self, name: &InputName) -> Opened {
        self.is_open = false;
        let place = match place_or_add(self.alloc, &mut self.entries, name) {
            Ok(place) => place,
            Err(NoMemory) => return Opened::NoMemory,
        };
        let reading = Reading {
            place,
            count: 0,
            ended: false,
        };
        match self.readings.push(reading) {
            Ok(()) => {
                self.is_open = true;
                Opened::Ok
            }
            Err(_) => Opened::NoMemory,
        }
    }

    /// Reads as many bytes as remain, at most `max`.
    fn read(&mut self, max: usize, into: &mut Bytes) -> Got
        requires open { IsSome self.old.open_entry }
        requires some { 1 ≤ max }
        ensures contents { self.new.contents ≡ self.old.contents }
        ensures open { self.new.open_entry ≡ self.old.open_entry }
        ensures taken { ReadTakes max result self.old.open_entry
            (Some (sure_contents self.old.contents)) (Some self.old.taken)
            (Some self.new.taken) into.old into.new }
        ensures no_fault { read_failed result ≡ false }
        ensures most { TakesUpTo max result (left_of (sure_contents self.old.contents)
            (open_take self.old.open_entry self.old.taken)) }
    {
        take_on(&self.entries, &mut self.readings, max, max, into)
    }
}

/// The place of the first entry with this name, which is added if there is none.
fn place_or_add(
    alloc: Global,
    entries: &mut Vec<(InputName, Bytes)>,
    name: &InputName,
) -> Result<usize, NoMemory>
    ensures found { IfOk result (λ place. IsFirstPlace (λ entry. same_input entry.0 name.now)
        entries.new.items (Some place)) }
    ensures added { AddsEmpty entries.old.items entries.new.items }
{
    match place_of(entries, name) {
        Some(place) => Ok(place),
        None => {
            let place = entries.len();
            add_empty(alloc, entries, name)?;
            Ok(place)
        }
    }
}

fn add_empty(
    alloc: Global,
    entries: &mut Vec<(InputName, Bytes)>,
    name: &InputName,
) -> Result<(), NoMemory>
    ensures { entries.new.items ≡ (if is_ok result then entries.old.items ++ (name.now, []) ∷ []
        else entries.old.items) }
{
    entries.push((name.copy(alloc)?, Bytes::new(alloc)))?;
    Ok(())
}
