//! Verbs of a plan, of any kind, with their options.
ghost use Rattle.std.specs.Prelude.{◌≡◌, IfOk, IsOk};
ghost use Rattle.std.specs.Option.{option_map};
ghost use Rattle.verb_specs.specs.Verbs.{AreSame, IsShort, left_of};

use mlr_spec::NoMemory;
use std::alloc::Global;
use verbs_join_nest::LeftInput;
use verbs_seq::SeqSpec;
use verbs_stream::Spec;

/// A verb of a plan, with its options.
pub enum VerbSpec {
    /// A streaming verb.
    Stream(Spec),
    /// A retaining verb.
    Retain(verbs_retain::Spec),
    /// A shaping verb.
    Shape(verbs_join_nest::Spec),
    /// A verb of statistics.
    Stat(verbs_stat::Spec),
    /// The source `seqgen`.
    Seq(SeqSpec),
}

// Written by hand, so that the crates above call it instead of dropping the fields themselves.
impl Drop for VerbSpec {
    fn drop(self) {
        match self {
            VerbSpec::Stream(spec) => drop(spec),
            VerbSpec::Retain(spec) => drop(spec),
            VerbSpec::Shape(spec) => drop(spec),
            VerbSpec::Stat(spec) => drop(spec),
            VerbSpec::Seq(seq) => drop(seq),
        }
    }
}

impl VerbSpec {
    /// A copy, which shares the patterns. It takes memory for lists, and for texts of more than 20 bytes.
    pub fn copy(&self, alloc: Global) -> Result<Self, NoMemory>
        ensures same { IfOk result (λ copy. AreSame self.now copy) }
        ensures short { IsShort self.now → IsOk result }
    {
        match self {
            VerbSpec::Stream(spec) => Ok(VerbSpec::Stream(spec.copy(alloc)?)),
            VerbSpec::Retain(spec) => Ok(VerbSpec::Retain(spec.copy(alloc)?)),
            VerbSpec::Shape(spec) => Ok(VerbSpec::Shape(spec.copy(alloc)?)),
            VerbSpec::Stat(spec) => Ok(VerbSpec::Stat(spec.copy(alloc)?)),
            VerbSpec::Seq(seq) => Ok(VerbSpec::Seq(seq.copy(alloc)?)),
        }
    }

    /// The left file of the verb, if it has one.
    pub fn left(&self) -> Option<LeftInput<'_>>
        ensures { option_map (λ left. (left.name.now, left.read.now)) result ≡ left_of self.now }
    {
        match self {
            VerbSpec::Shape(spec) => spec.left(),
            VerbSpec::Stream(_) | VerbSpec::Retain(_) | VerbSpec::Stat(_) | VerbSpec::Seq(_) =>
                None,
        }
    }
}
