//! Inputs in memory for tests, with chosen sizes of pieces and chosen failures.
ghost use Rattle.std.specs.Prelude.{◌≡◌, ◌<◌, ◌≤◌, ◌||◌, false, Some, IfOk, IfSome, IsSome, All, length, drop, is_none};
ghost use Rattle.mlr_event.specs.declared.names.InputName.{InputName};
ghost use Rattle.mlr_world.specs.Calls.{next_fails, called, limit_of, sizes_after};
ghost use Rattle.mlr_world.specs.Counts.{Counted};
ghost use Rattle.mlr_world.specs.Taken.{Take, open_take};
ghost use Rattle.mlr_world.specs.Inputs.{OpenTakes, OpenFinds, opens, open_failed, ReadTakes, read_failed};
ghost use Rattle.mlr_world.specs.MemoryTexts.{same_input, IsFirstPlace};
ghost use Rattle.mlr_world.specs.MemorySource.{Source, source_of, contents_at};
ghost use Rattle.mlr_world.specs.MemoryInputs.{takes_of, last_entry, left_of, IsReading, TakesFrom, TakesUpTo};

use crate::calls::{Failing, Pieces};
use crate::{Got, Inputs, Opened};
use mlr_event::InputName;
use mlr_spec::NoMemory;
use mlr_value::Bytes;
use std::alloc::Global;
use std::marker::Model;

/// The bytes taken from one opened input: the first `count` bytes of the entry at `place`.
#[derive(Clone, Copy)]
pub(crate) struct Reading {
    pub(crate) place: usize,
    pub(crate) count: usize,
    pub(crate) ended: bool,
}

/// Inputs in memory, for tests: the contents, the sizes of the pieces and the calls that fail are all given.
pub struct MemInputs {
    contents: Vec<(InputName, Bytes)>,
    pieces: Pieces,
    failing: Failing,
    readings: Vec<Reading>,
    is_open: bool,
    faults: u64,
}

// Written by hand, so that the crates above call it instead of dropping the fields themselves.
impl Drop for MemInputs {
    fn drop(self) {
        let MemInputs {
            contents,
            pieces,
            failing,
            readings,
            is_open: _,
            faults: _,
        } = self;
        drop(contents);
        drop(pieces);
        drop(failing);
        drop(readings);
    }
}

impl Model for MemInputs {
    ghost use Rattle.std.specs.Prelude.{All};
    ghost use Rattle.mlr_world.specs.MemorySource.{Source};

    ghost Value = { Source };

    ghost use Rattle.mlr_world.specs.MemoryInputs.{takes_of, entry_if, IsReading};

    ghost view = { λ s. record {
      contents = s.contents.items;
      taken = takes_of s.contents.items
          s.readings.items;
      open_entry = entry_if s.is_open
          (takes_of s.contents.items s.readings.items);
      faults = s.faults;
      pieces = s.pieces;
      calls = s.failing;
    } };

    ghost invariant = { λ s. All (IsReading s.contents.items) s.readings.items };
}

impl MemInputs {
    /// Inputs before the first call. The first of the contents of a name counts.
    ///
    /// Each read that takes bytes uses one of the sizes in `pieces`, in order. `failing` has the numbers, from
    /// 1 over all calls of `open` and `read`, of those that fail.
    pub fn new(
        alloc: Global,
        contents: Vec<(InputName, Bytes)>,
        pieces: Vec<usize>,
        failing: Vec<u64>,
    ) -> Result<MemInputs, NoMemory>
        ensures { IfOk result (λ made. made ≡ source_of contents.items pieces.items failing.items) }
    {
        Ok(MemInputs {
            readings: Vec::with_capacity(alloc, contents.len())?,
            contents,
            pieces: Pieces::new(pieces),
            failing: Failing::new(failing),
            is_open: false,
            faults: 0,
        })
    }
}

impl Inputs for MemInputs {
    ghost contents = { λ s. Some (contents_at s.contents) };

    ghost taken = { λ s. Some s.taken };

    ghost open_entry = { λ s. s.open_entry };

    ghost faults = { λ s _. s.faults };

    fn open(&mut self, name: &InputName) -> Opened
        ensures contents { self.new.contents ≡ self.old.contents }
        ensures open { self.new.open_entry ≡ opens name.now result (Some self.old.taken) }
        ensures taken { OpenTakes name.now result (Some self.old.taken) (Some self.new.taken) }
        ensures finds { OpenFinds name.now result (Some (contents_at self.old.contents)) }
        ensures counts { Counted (open_failed result) (λ _. self.old.faults)
            (λ _. self.new.faults) name.now }
        ensures fails { open_failed result ≡ (next_fails self.old.calls
            || is_none (contents_at self.old.contents name.now)) }
        ensures calls { self.new.calls ≡ called self.old.calls }
        ensures pieces { self.new.pieces ≡ self.old.pieces }
    {
        self.is_open = false;
        if self.failing.next() {
            self.faults = self.faults.saturating_add(1);
            return Opened::Failed;
        }
        let Some(place) = place_of(&self.contents, name) else {
            self.faults = self.faults.saturating_add(1);
            return Opened::Failed;
        };
        let reading = Reading {
            place,
            count: 0,
            ended: false,
        };
        match self.readings.push(reading) {
            Ok(()) => {
                self.is_open = true;
                Opened::Ok
            }
            Err(_) => Opened::NoMemory,
        }
    }

    fn read(&mut self, max: usize, into: &mut Bytes) -> Got
        requires open { IsSome self.old.open_entry }
        requires some { 1 ≤ max }
        ensures contents { self.new.contents ≡ self.old.contents }
        ensures open { self.new.open_entry ≡ self.old.open_entry }
        ensures taken { ReadTakes max result self.old.open_entry
            (Some (contents_at self.old.contents)) (Some self.old.taken)
            (Some self.new.taken) into.old into.new }
        ensures counts { IfSome self.old.open_entry (λ entry. Counted (read_failed result)
            (λ _. self.old.faults) (λ _. self.new.faults) entry.name) }
        ensures fails { read_failed result ≡ next_fails self.old.calls }
        ensures calls { self.new.calls ≡ called self.old.calls }
        ensures most { TakesUpTo (limit_of self.old.pieces max) result (left_of
            (contents_at self.old.contents) (open_take self.old.open_entry self.old.taken)) }
        ensures pieces { self.new.pieces ≡ sizes_after result self.old.pieces }
    {
        if self.failing.next() {
            self.faults = self.faults.saturating_add(1);
            return Got::Failed;
        }
        let limit = self.pieces.limit(max);
        let got = take_on(&self.contents, &mut self.readings, max, limit, into);
        self.pieces.pass(got);
        got
    }
}

/// The place of the first entry with this name.
pub(crate) fn place_of(contents: &[(InputName, Bytes)], name: &InputName) -> Option<usize>
    ensures { IsFirstPlace (λ entry. same_input entry.0 name.now) contents.now result }
{
    for (place, entry) in contents.iter().enumerate() {
        if entry.0.is(name) {
            return Some(place);
        }
    }
    None
}

/// Reads more of the input that was opened last, at most `limit` bytes.
pub(crate) fn take_on(
    contents: &[(InputName, Bytes)],
    readings: &mut Vec<Reading>,
    max: usize,
    limit: usize,
    into: &mut Bytes,
) -> Got
    requires some { 0 < limit }
    requires within { limit ≤ max }
    requires last { 0 < length readings.old.items }
    requires fine { All (IsReading contents.now) readings.old.items }
    ensures taken { ReadTakes max result (last_entry (takes_of contents.now readings.old.items))
        (Some (contents_at contents.now)) (Some (takes_of contents.now readings.old.items))
        (Some (takes_of contents.now readings.new.items)) into.old into.new }
    ensures most { TakesUpTo limit result (left_of (contents_at contents.now)
        (open_take (last_entry (takes_of contents.now readings.old.items))
        (takes_of contents.now readings.old.items))) }
    ensures no_fault { read_failed result ≡ false }
    ensures fine { All (IsReading contents.now) readings.new.items }
    ensures entry { last_entry (takes_of contents.now readings.new.items)
        ≡ last_entry (takes_of contents.now readings.old.items) }
{
    let last = readings.len() - 1;
    let reading = readings[last];
    let text = contents[reading.place].1.as_slice();
    let got = take_from(text, reading.count, limit, into);
    match got {
        Got::Some(count) => {
            readings[last] = Reading {
                count: reading.count + count,
                ..reading
            };
        }
        Got::End => {
            readings[last] = Reading {
                ended: true,
                ..reading
            };
        }
        Got::Failed | Got::NoMemory => {}
    }
    got
}

/// Appends bytes of the text from this place on, at most `limit`.
fn take_from(text: &[u8], place: usize, limit: usize, into: &mut Bytes) -> Got
    requires some { 0 < limit }
    requires within { place ≤ length text.now }
    ensures taken { TakesFrom limit text.now place result into.old into.new }
    ensures most { TakesUpTo limit result (drop place text.now) }
{
    let left = &text[place..];
    if left.is_empty() {
        return Got::End;
    }
    let count = left.len().min(limit);
    match into.append(&left[..count]) {
        Ok(()) => Got::Some(count),
        Err(NoMemory) => Got::NoMemory,
    }
}
