//! The options of `seqgen`.
ghost use Rattle.std.specs.Prelude.{◌≡◌, ◌≢◌, ◌↔◌, ◌/◌, ◌≤◌, length, pos, ◌-ℤ◌, unsigned_abs, IfOk, IsOk, IsTrue};
ghost use Rattle.verbs_seq.specs.Seq.{IsSoundSeq, begins};

use mlr_spec::NoMemory;
use mlr_value::Bytes;
use std::alloc::Global;

/// The greatest number of records.
const MOST_RECORDS: u64 = 1 << 61;

/// The options of `seqgen`: the name of the field, and the numbers from `start` by `step` up to `stop`, or
/// down to it if the step is negative.
#[derive(Drop)]
pub struct SeqSpec {
    pub field: Bytes,
    pub start: i64,
    pub stop: i64,
    pub step: i64,
}

impl SeqSpec {
    /// Whether a source may count with these options: the step isn't 0, and there are at most 2^61 records.
    pub fn is_sound(&self) -> bool
        ensures { IsTrue result ↔ IsSoundSeq self.now }
    {
        self.step != 0 && (!self.begins() || self.steps() < MOST_RECORDS)
    }

    /// A copy. It allocates only for a name of more than 20 bytes.
    pub fn copy(&self, _: Global) -> Result<Self, NoMemory>
        ensures same { IfOk result (λ copy. copy ≡ self.now) }
        ensures short { length self.now.field ≤ 20 → IsOk result }
    {
        Ok(SeqSpec {
            field: self.field.copy()?,
            start: self.start,
            stop: self.stop,
            step: self.step,
        })
    }

    /// Whether the start isn't past the stop already.
    pub(crate) fn begins(&self) -> bool
        ensures { result ≡ begins self.now.start self.now.stop self.now.step }
    {
        if self.step > 0 {
            self.start <= self.stop
        } else {
            self.stop <= self.start
        }
    }

    /// The number of whole steps between the start and the stop.
    pub(crate) fn steps(&self) -> u64
        requires { self.now.step ≢ pos 0 }
        ensures { result ≡ unsigned_abs (self.now.stop -ℤ self.now.start) / unsigned_abs
            self.now.step }
    {
        self.stop.abs_diff(self.start) / self.step.unsigned_abs()
    }
}
