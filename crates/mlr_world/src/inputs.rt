//! Inputs: files by name and standard input, which are opened and read piece by piece.
ghost use Rattle.std.specs.Prelude.{◌≡◌, ◌≤◌, ℕ, List, Option, IsSome, IfSome};
ghost use Rattle.mlr_event.specs.declared.names.InputName.{InputName};
ghost use Rattle.mlr_world.specs.Counts.{Counted};
ghost use Rattle.mlr_world.specs.Taken.{Take, OpenEntry};
ghost use Rattle.mlr_world.specs.Inputs.{OpenTakes, OpenFinds, opens, open_failed, ReadTakes, read_failed};

use mlr_event::InputName;
use mlr_value::Bytes;

/// The result of opening an input.
#[derive(Clone, Copy, Debug, PartialEq, Eq)]
pub enum Opened {
    /// The input is open, and nothing was taken from it yet.
    Ok,
    /// The input can't be opened. The fault was counted.
    Failed,
    /// The call ran out of memory.
    NoMemory,
}

/// The result of a read.
#[derive(Clone, Copy, Debug, PartialEq, Eq)]
pub enum Got {
    /// The number of bytes read, at least one.
    Some(usize),
    /// The input has ended.
    End,
    /// The read failed. The fault was counted.
    Failed,
    /// The read ran out of memory for the bytes.
    NoMemory,
}

/// Inputs by name, at most one of them open at a time.
///
/// The contents of the inputs and the bytes taken from them are Some where an object can know them. They are
/// None for files and pipes, and then the clauses on bytes say nothing.
pub trait Inputs {
    /// The contents of each name, or None for a name without contents. They don't change.
    ghost contents: { Self → Option (InputName → Option (List ℕ)) };

    /// The bytes taken, with one entry for each successful open, in order.
    ghost taken: { Self → Option (List Take) };

    /// The open input, with the place of its entry in `taken`.
    ghost open_entry: { Self → Option OpenEntry };

    /// How many calls on a name have failed. The count never falls, and stays at 2^64 - 1.
    ghost faults: { Self → InputName → ℕ };

    /// Opens an input at its start, and closes the one that was open. Unless it returns Ok, no input is open.
    fn open(&mut self, name: &InputName) -> Opened
        ensures contents { contents self.new ≡ contents self.old }
        ensures open { open_entry self.new ≡ opens name.now result (taken self.old) }
        ensures taken { OpenTakes name.now result (taken self.old) (taken self.new) }
        ensures finds { OpenFinds name.now result (contents self.old) }
        ensures counts { Counted (open_failed result) (faults self.old) (faults self.new)
            name.now };

    /// Reads up to `max` bytes of the open input, and appends them to `into`. After the end it returns End
    /// again.
    fn read(&mut self, max: usize, into: &mut Bytes) -> Got
        requires open { IsSome (open_entry self.old) }
        requires some { 1 ≤ max }
        ensures contents { contents self.new ≡ contents self.old }
        ensures open { open_entry self.new ≡ open_entry self.old }
        ensures taken { ReadTakes max result (open_entry self.old) (contents self.old)
            (taken self.old) (taken self.new) into.old into.new }
        ensures counts { IfSome (open_entry self.old) (λ entry. Counted (read_failed result)
            (faults self.old) (faults self.new) entry.name) };
}
