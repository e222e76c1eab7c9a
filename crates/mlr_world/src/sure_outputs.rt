//! Outputs in memory that never fail.
ghost use Rattle.std.specs.Prelude.{◌≡◌, false, Some, IfOk};
ghost use Rattle.std.specs.Option.{option_map};
ghost use Rattle.mlr_event.specs.declared.names.Target.{Target};
ghost use Rattle.mlr_world.specs.Counts.{Counted, Tallied};
ghost use Rattle.mlr_world.specs.Outputs.{ChangesAt, ChangesOnly, OpenLeaves, WriteLeaves, CloseLeaves, call_failed, lacked_memory};
ghost use Rattle.mlr_world.specs.MemorySink.{SureSink, sure_sink_of, held_at};
ghost use Rattle.mlr_world.specs.MemoryOutputs.{pairs_of};

use crate::memory_outputs::{HeldText, first_texts, open_entry, place_of, text_of};
use crate::{Done, Outputs};
use mlr_event::{Mode, Target};
use mlr_spec::NoMemory;
use mlr_value::Bytes;
use std::alloc::Global;
use std::marker::Model;

/// Outputs in memory that never fail. They grow as they are written.
pub struct SureOutputs {
    alloc: Global,
    held: Vec<HeldText>,
    shortages: u64,
}

// Written by hand, so that the crates above call it instead of dropping the fields themselves.
impl Drop for SureOutputs {
    fn drop(self) {
        let SureOutputs {
            alloc: _,
            held,
            shortages: _,
        } = self;
        drop(held);
    }
}

impl Model for SureOutputs {
    ghost use Rattle.mlr_world.specs.MemorySink.{SureSink};

    ghost Value = { SureSink };

    ghost use Rattle.mlr_world.specs.MemoryOutputs.{pairs_of};

    ghost view = { λ s. record {
      held = pairs_of s.held.items;
      shortages =
          s.shortages;
    } };
}

impl SureOutputs {
    /// Outputs that hold these texts, and standard output and standard error, which are empty unless they are
    /// in the list. The first entry of a target counts.
    pub fn new(alloc: Global, held: Vec<(Target, Bytes)>) -> Result<SureOutputs, NoMemory>
        ensures { IfOk result (λ made. made ≡ sure_sink_of held.items) }
    {
        Ok(SureOutputs {
            alloc,
            held: first_texts(alloc, &held, 0)?,
            shortages: 0,
        })
    }

    /// The bytes of a target, or None if there is no such target.
    pub fn bytes_of(&self, target: &Target) -> Option<&[u8]>
        ensures { option_map (λ bytes. bytes.now) result ≡ held_at self.now.held target.now }
    {
        text_of(&self.held, target)
    }
}

impl Outputs for SureOutputs {
    ghost held = { λ s. Some (held_at s.held) };

    ghost faults = { λ s _. 0 };

    ghost shortages = { λ s. s.shortages };

    fn open(&mut self, target: &Target, mode: Mode) -> Done {
        let done = open_entry(self.alloc, &mut self.held, target, mode, 0);
        count_shortage(done, &mut self.shortages);
        done
    }

    /// For a target that isn't there it returns NoMemory: nothing could be written, and no fault is counted.
    fn write(&mut self, target: &Target, bytes: &[u8]) -> Done {
        let done = append_text(&mut self.held, target, bytes);
        count_shortage(done, &mut self.shortages);
        done
    }

    fn close(&mut self, _target: &Target) -> Done {
        Done::Ok
    }
}

/// Counts a shortage of memory, if the call ended with one.
fn count_shortage(done: Done, shortages: &mut u64)
    ensures { Tallied (lacked_memory done) shortages.old shortages.new }
{
    match done {
        Done::Ok | Done::Failed => {}
        Done::NoMemory => *shortages = shortages.saturating_add(1),
    }
}

/// Appends the bytes to those of the target.
fn append_text(entries: &mut Vec<HeldText>, target: &Target, bytes: &[u8]) -> Done
    ensures bytes { ChangesOnly target.now (WriteLeaves bytes.now result)
        (held_at (pairs_of entries.old.items)) (held_at (pairs_of entries.new.items)) }
    ensures no_fault { call_failed result ≡ false }
{
    match place_of(entries, target) {
        Some(place) => append_whole(&mut entries[place].text, bytes),
        None => Done::NoMemory,
    }
}

fn append_whole(text: &mut Vec<u8>, bytes: &[u8]) -> Done
    ensures bytes { WriteLeaves bytes.now result (Some text.old.items) (Some text.new.items) }
    ensures no_fault { call_failed result ≡ false }
{
    match text.extend_from_slice(bytes) {
        Ok(()) => Done::Ok,
        Err(_) => Done::NoMemory,
    }
}
