//! Outputs in memory for tests, with limited room and chosen failures.
ghost use Rattle.std.specs.Prelude.{◌≡◌, ◌≤◌, ◌+◌, ◌++◌, ◌∷◌, ◌||◌, [], true, false, Some, None, All, IfOk, OnOk, if◌then◌else◌, is_ok, is_none, length, vec_len, vec_capacity};
ghost use Rattle.std.specs.Option.{option_map};
ghost use Rattle.mlr_event.specs.declared.names.Target.{Target};
ghost use Rattle.mlr_world.specs.Calls.{next_fails, called};
ghost use Rattle.mlr_world.specs.Counts.{Counted, Tallied};
ghost use Rattle.mlr_world.specs.Outputs.{ChangesAt, ChangesOnly, OpenLeaves, WriteLeaves, CloseLeaves, call_failed, lacked_memory};
ghost use Rattle.mlr_world.specs.MemoryTexts.{IsFirstPlace};
ghost use Rattle.mlr_world.specs.MemorySink.{Sink, sink_of, with_streams, held_at};
ghost use Rattle.mlr_world.specs.MemoryOutputs.{pair_of, pairs_of, is_of, HasRoom, Writes};

use crate::calls::Failing;
use crate::{Done, Outputs};
use mlr_event::{Mode, Target};
use mlr_spec::NoMemory;
use mlr_value::Bytes;
use std::alloc::Global;
use std::marker::Model;

/// A target with its bytes.
#[derive(Drop)]
pub(crate) struct HeldText {
    pub(crate) target: Target,
    pub(crate) text: Vec<u8>,
}

/// Outputs in memory, for tests: they keep the bytes written; their room and the calls that fail are given.
pub struct MemOutputs {
    alloc: Global,
    held: Vec<HeldText>,
    room: usize,
    failing: Failing,
    faults: u64,
    shortages: u64,
}

// Written by hand, so that the crates above call it instead of dropping the fields themselves.
impl Drop for MemOutputs {
    fn drop(self) {
        let MemOutputs {
            alloc: _,
            held,
            room: _,
            failing,
            faults: _,
            shortages: _,
        } = self;
        drop(held);
        drop(failing);
    }
}

impl Model for MemOutputs {
    ghost use Rattle.mlr_world.specs.MemorySink.{Sink};

    ghost Value = { Sink };

    ghost use Rattle.std.specs.Prelude.{All};
    ghost use Rattle.mlr_world.specs.MemoryOutputs.{pairs_of, HasRoom};

    ghost view = { λ s. record {
      held = pairs_of s.held.items;
      room = s.room;
      calls = s.failing;
      faults = s.faults;
      shortages =
          s.shortages;
    } };

    ghost invariant = { λ s. All (HasRoom s.room) s.held.items };
}

impl MemOutputs {
    /// Outputs before the first call. The first of the texts of a target counts.
    ///
    /// `room` is the number of bytes that may be written over all targets. The memory for as many is allocated
    /// here for each target, and by each open that adds one. `failing` has the numbers, from 1 over all calls
    /// of `open`, `write` and `close`, of those that fail.
    pub fn new(
        alloc: Global,
        held: Vec<(Target, Bytes)>,
        room: usize,
        failing: Vec<u64>,
    ) -> Result<MemOutputs, NoMemory>
        ensures { IfOk result (λ made. made ≡ sink_of held.items room failing.items) }
    {
        Ok(MemOutputs {
            alloc,
            held: first_texts(alloc, &held, room)?,
            room,
            failing: Failing::new(failing),
            faults: 0,
            shortages: 0,
        })
    }

    /// The bytes of a target, or None if there is no such target.
    pub fn bytes_of(&self, target: &Target) -> Option<&[u8]>
        ensures { option_map (λ bytes. bytes.now) result ≡ held_at self.now.held target.now }
    {
        text_of(&self.held, target)
    }
}

impl Outputs for MemOutputs {
    ghost held = { λ s. Some (held_at s.held) };

    ghost faults = { λ s _. s.faults };

    ghost shortages = { λ s. s.shortages };

    fn open(&mut self, target: &Target, mode: Mode) -> Done
        ensures bytes { ChangesOnly target.now (OpenLeaves mode result) (held_at self.old.held)
            (held_at self.new.held) }
        ensures counts { Counted (call_failed result) (λ _. self.old.faults)
            (λ _. self.new.faults) target.now }
        ensures memory { Tallied (lacked_memory result) self.old.shortages self.new.shortages }
        ensures fails { call_failed result ≡ next_fails self.old.calls }
        ensures kept { call_failed result ≡ true → self.new.held ≡ self.old.held }
        ensures enough { lacked_memory result ≡ true
            → held_at self.old.held target.now ≡ None }
        ensures calls { self.new.calls ≡ called self.old.calls }
        ensures room { self.new.room ≡ self.old.room }
    {
        let fails = self.failing.next();
        let done = open_text(self.alloc, &mut self.held, target, mode, self.room, fails);
        count(done, &mut self.faults, &mut self.shortages);
        done
    }

    fn write(&mut self, target: &Target, bytes: &[u8]) -> Done
        ensures bytes { ChangesOnly target.now (WriteLeaves bytes.now result)
            (held_at self.old.held) (held_at self.new.held) }
        ensures counts { Counted (call_failed result) (λ _. self.old.faults)
            (λ _. self.new.faults) target.now }
        ensures memory { Tallied (lacked_memory result) self.old.shortages self.new.shortages }
        ensures enough { lacked_memory result ≡ false }
        ensures writes { Writes (next_fails self.old.calls) self.old.room self.new.room bytes.now
            result (held_at self.old.held target.now) (held_at self.new.held target.now) }
        ensures calls { self.new.calls ≡ called self.old.calls }
    {
        let fails = self.failing.next();
        let done = write_text(&mut self.held, target, bytes, &mut self.room, fails);
        count(done, &mut self.faults, &mut self.shortages);
        done
    }

    fn close(&mut self, target: &Target) -> Done
        ensures bytes { ChangesOnly target.now CloseLeaves (held_at self.old.held)
            (held_at self.new.held) }
        ensures held { self.new.held ≡ self.old.held }
        ensures counts { Counted (call_failed result) (λ _. self.old.faults)
            (λ _. self.new.faults) target.now }
        ensures memory { Tallied (lacked_memory result) self.old.shortages self.new.shortages }
        ensures enough { lacked_memory result ≡ false }
        ensures fails { call_failed result ≡ (next_fails self.old.calls
            || is_none (held_at self.old.held target.now)) }
        ensures calls { self.new.calls ≡ called self.old.calls }
        ensures room { self.new.room ≡ self.old.room }
    {
        let fails = self.failing.next();
        let done = close_text(&self.held, target, fails);
        count(done, &mut self.faults, &mut self.shortages);
        done
    }
}

/// Counts a fault or a shortage of memory, if the call ended with one.
fn count(done: Done, faults: &mut u64, shortages: &mut u64)
    ensures faults { (target : Target)
        → Counted (call_failed done) (λ _. faults.old) (λ _. faults.new) target }
    ensures shortages { Tallied (lacked_memory done) shortages.old shortages.new }
{
    match done {
        Done::Ok => {}
        Done::Failed => *faults = faults.saturating_add(1),
        Done::NoMemory => *shortages = shortages.saturating_add(1),
    }
}

/// The bytes of this target.
pub(crate) fn text_of<'a>(entries: &'a [HeldText], target: &Target) -> Option<&'a [u8]>
    ensures { option_map (λ bytes. bytes.now) result ≡ held_at (pairs_of entries.now) target.now }
{
    match place_of(entries, target) {
        Some(place) => Some(entries[place].text.as_slice()),
        None => None,
    }
}

/// The place of the first entry of this target.
pub(crate) fn place_of(entries: &[HeldText], target: &Target) -> Option<usize>
    ensures { IsFirstPlace (is_of target.now) entries.now result }
{
    for (place, entry) in entries.iter().enumerate() {
        if entry.target.is(target) {
            return Some(place);
        }
    }
    None
}

/// These texts, followed by empty ones for standard output and standard error.
pub(crate) fn first_texts(
    alloc: Global,
    given: &[(Target, Bytes)],
    room: usize,
) -> Result<Vec<HeldText>, NoMemory>
    ensures pairs { IfOk result (λ made. pairs_of made.items ≡ with_streams given.now) }
    ensures fine { IfOk result (λ made. All (HasRoom room) made.items) }
{
    let mut entries = given_texts(alloc, given, room)?;
    add_text(alloc, &mut entries, Target::Stdout, b"", room)?;
    add_text(alloc, &mut entries, Target::Stderr, b"", room)?;
    Ok(entries)
}

fn given_texts(
    alloc: Global,
    given: &[(Target, Bytes)],
    room: usize,
) -> Result<Vec<HeldText>, NoMemory>
    ensures pairs { IfOk result (λ made. pairs_of made.items ≡ given.now) }
    ensures fine { IfOk result (λ made. All (HasRoom room) made.items) }
{
    let mut entries = Vec::new(alloc);
    for pair in given {
        add_text(
            alloc,
            &mut entries,
            pair.0.copy(alloc)?,
            pair.1.as_slice(),
            room,
        )?;
    }
    Ok(entries)
}

/// Adds a target that holds these bytes, with room for more.
fn add_text(
    alloc: Global,
    entries: &mut Vec<HeldText>,
    target: Target,
    bytes: &[u8],
    room: usize,
) -> Result<(), NoMemory>
    ensures pairs { pairs_of entries.new.items ≡ (if is_ok result
        then pairs_of entries.old.items ++ (target, bytes.now) ∷ []
        else pairs_of entries.old.items) }
    ensures fine { All (HasRoom room) entries.old.items → All (HasRoom room) entries.new.items }
{
    let text = text_with_room(alloc, bytes, room)?;
    entries.push(HeldText { target, text })?;
    Ok(())
}

/// A copy of these bytes, with room for more.
fn text_with_room(alloc: Global, bytes: &[u8], room: usize) -> Result<Vec<u8>, NoMemory>
    ensures bytes { IfOk result (λ text. text.items ≡ bytes.now) }
    ensures room { IfOk result (λ text. vec_len text + room ≤ vec_capacity text) }
{
    let size = bytes.len().checked_add(room).ok_or(NoMemory)?;
    let mut text = Vec::with_capacity(alloc, size)?;
    text.extend_from_slice(bytes)?;
    Ok(text)
}

fn open_text(
    alloc: Global,
    entries: &mut Vec<HeldText>,
    target: &Target,
    mode: Mode,
    room: usize,
    fails: bool,
) -> Done
    ensures bytes { ChangesOnly target.now (OpenLeaves mode result)
        (held_at (pairs_of entries.old.items)) (held_at (pairs_of entries.new.items)) }
    ensures fails { call_failed result ≡ fails }
    ensures kept { fails ≡ true → entries.new.items ≡ entries.old.items }
    ensures enough { lacked_memory result ≡ true
        → held_at (pairs_of entries.old.items) target.now ≡ None }
    ensures fine { All (HasRoom room) entries.old.items → All (HasRoom room) entries.new.items }
{
    if fails {
        return Done::Failed;
    }
    open_entry(alloc, entries, target, mode, room)
}

/// Opens a target, and adds it if it isn't there.
pub(crate) fn open_entry(
    alloc: Global,
    entries: &mut Vec<HeldText>,
    target: &Target,
    mode: Mode,
    room: usize,
) -> Done
    ensures bytes { ChangesOnly target.now (OpenLeaves mode result)
        (held_at (pairs_of entries.old.items)) (held_at (pairs_of entries.new.items)) }
    ensures no_fault { call_failed result ≡ false }
    ensures enough { lacked_memory result ≡ true
        → held_at (pairs_of entries.old.items) target.now ≡ None }
    ensures fine { All (HasRoom room) entries.old.items → All (HasRoom room) entries.new.items }
{
    match place_of(entries, target) {
        Some(place) => {
            start_text(&mut entries[place].text, mode);
            Done::Ok
        }
        None => match add_copy(alloc, entries, target, room) {
            Ok(()) => Done::Ok,
            Err(NoMemory) => Done::NoMemory,
        },
    }
}

fn add_copy(
    alloc: Global,
    entries: &mut Vec<HeldText>,
    target: &Target,
    room: usize,
) -> Result<(), NoMemory>
    ensures pairs { pairs_of entries.new.items ≡ (if is_ok result
        then pairs_of entries.old.items ++ (target.now, []) ∷ [] else pairs_of entries.old.items) }
    ensures fine { All (HasRoom room) entries.old.items → All (HasRoom room) entries.new.items }
{
    add_text(alloc, entries, target.copy(alloc)?, b"", room)
}

fn start_text(text: &mut Vec<u8>, mode: Mode)
    ensures bytes { OpenLeaves mode Done.Ok (Some text.old.items) (Some text.new.items) }
    ensures len { vec_len text.new ≤ vec_len text.old }
    ensures capacity { vec_capacity text.new ≡ vec_capacity text.old }
{
    match mode {
        Mode::Fresh => text.clear(),
        Mode::Append => {}
    }
}

fn close_text(entries: &[HeldText], target: &Target, fails: bool) -> Done
    ensures fails { call_failed result
        ≡ (fails || is_none (held_at (pairs_of entries.now) target.now)) }
    ensures enough { lacked_memory result ≡ false }
{
    if fails || text_of(entries, target).is_none() {
        Done::Failed
    } else {
        Done::Ok
    }
}

fn write_text(
    entries: &mut Vec<HeldText>,
    target: &Target,
    bytes: &[u8],
    room: &mut usize,
    fails: bool,
) -> Done
    requires fine { All (HasRoom room.old) entries.old.items }
    ensures bytes { ChangesOnly target.now (WriteLeaves bytes.now result)
        (held_at (pairs_of entries.old.items)) (held_at (pairs_of entries.new.items)) }
    ensures writes { Writes fails room.old room.new bytes.now result
        (held_at (pairs_of entries.old.items) target.now)
        (held_at (pairs_of entries.new.items) target.now) }
    ensures enough { lacked_memory result ≡ false }
    ensures fine { All (HasRoom room.new) entries.new.items }
{
    match place_of(entries, target) {
        Some(place) => append_prefix(&mut entries[place].text, bytes, room, fails),
        None => Done::Failed,
    }
}

/// Appends the bytes as far as there is room, and only half of them in a call that is to fail.
fn append_prefix(text: &mut Vec<u8>, bytes: &[u8], room: &mut usize, fails: bool) -> Done
    requires room { vec_len text.old + room.old ≤ vec_capacity text.old }
    ensures bytes { WriteLeaves bytes.now result (Some text.old.items) (Some text.new.items) }
    ensures writes { Writes fails room.old room.new bytes.now result (Some text.old.items)
        (Some text.new.items) }
    ensures enough { lacked_memory result ≡ false }
    ensures room { vec_len text.new + room.new ≤ vec_capacity text.new }
    ensures less { room.new ≤ room.old }
{
    let wanted = if fails { bytes.len() / 2 } else { bytes.len() };
    let count = wanted.min(*room);
    let is_short = *room < bytes.len();
    match text.extend_from_slice(&bytes[..count]) {
        Ok(()) => {
            *room -= count;
            if fails || is_short {
                Done::Failed
            } else {
                Done::Ok
            }
        }
        Err(_) => Done::NoMemory,
    }
}
