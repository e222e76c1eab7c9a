//! Outputs: files by name, standard output and standard error.
ghost use Rattle.std.specs.Prelude.{ℕ, List, Option};
ghost use Rattle.mlr_event.specs.declared.names.Target.{Target};
ghost use Rattle.mlr_world.specs.Counts.{Counted, Tallied};
ghost use Rattle.mlr_world.specs.Outputs.{ChangesAt, OpenLeaves, WriteLeaves, CloseLeaves, call_failed, lacked_memory};

use mlr_event::{Mode, Target};

/// The result of a call on an output.
#[derive(Clone, Copy, Debug, PartialEq, Eq)]
pub enum Done {
    /// The call succeeded.
    Ok,
    /// The call failed. The fault was counted.
    Failed,
    /// The call ran out of memory, and nothing changed.
    NoMemory,
}

/// Outputs by target. Standard output and standard error are open from the start.
///
/// The bytes of the targets are Some where an object can know them. They are None for files and pipes, and
/// then the clauses on bytes say nothing.
pub trait Outputs {
    /// The bytes of each target, or None for a target that isn't there.
    ghost held: { Self → Option (Target → Option (List ℕ)) };

    /// How many calls on a target have failed. The count never falls, and stays at 2^64 - 1.
    ghost faults: { Self → Target → ℕ };

    /// How many calls ran out of memory. The count never falls, and stays at 2^64 - 1.
    ghost shortages: { Self → ℕ };

    /// Opens a target: Fresh empties it, Append keeps its bytes. A new target is empty.
    fn open(&mut self, target: &Target, mode: Mode) -> Done
        ensures bytes { ChangesAt target.now (OpenLeaves mode result) (held self.old)
            (held self.new) }
        ensures counts { Counted (call_failed result) (faults self.old) (faults self.new)
            target.now }
        ensures memory { Tallied (lacked_memory result) (shortages self.old) (shortages self.new) };

    /// Appends the bytes to a target. A call that fails has appended a prefix of them.
    fn write(&mut self, target: &Target, bytes: &[u8]) -> Done
        ensures bytes { ChangesAt target.now (WriteLeaves bytes.now result) (held self.old)
            (held self.new) }
        ensures counts { Counted (call_failed result) (faults self.old) (faults self.new)
            target.now }
        ensures memory { Tallied (lacked_memory result) (shortages self.old) (shortages self.new) };

    /// Closes a target. Its bytes stay.
    fn close(&mut self, target: &Target) -> Done
        ensures bytes { ChangesAt target.now CloseLeaves (held self.old) (held self.new) }
        ensures counts { Counted (call_failed result) (faults self.old) (faults self.new)
            target.now }
        ensures memory { Tallied (lacked_memory result) (shortages self.old) (shortages self.new) };
}
