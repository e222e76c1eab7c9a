//! The verbs of statistics with their options.
ghost use Rattle.std.specs.Prelude.{◌≡◌, [], IfOk};
ghost use Rattle.verbs_stat.specs.Meaning.{meaning_of};

use crate::running::Running;
use mlr_spec::NoMemory;
use std::alloc::Global;
use verbs_base::Stateful;
use verbs_step::{Step, StepVerb};
use verbs_summary::{MergeFields, MergeFieldsVerb, Stats1};
use verbs_top::Top;

/// A verb of statistics, with its options as given on the command line.
pub enum Spec {
    /// Gives each record with statistics of the values of several of its fields.
    MergeFields(MergeFields),
    /// Gives statistics of the values of fields, of all records or of each group.
    Stats1(Stats1),
    /// Gives each record with what is made of its values and those before them.
    Step(Step),
    /// Gives the greatest ints of fields, or the least.
    Top(Top),
}

// Written by hand, so that the crates above call it instead of dropping the options themselves.
impl Drop for Spec {
    fn drop(self) {
        match self {
            Spec::MergeFields(options) => drop(options),
            Spec::Stats1(options) => drop(options),
            Spec::Step(options) => drop(options),
            Spec::Top(options) => drop(options),
        }
    }
}

impl Spec {
    /// A copy, which shares the patterns. It allocates lists, and texts of more than 20 bytes.
    pub fn copy(&self, alloc: Global) -> Result<Self, NoMemory>
        ensures { IfOk result (λ copy. meaning_of copy ≡ meaning_of self.now) }
    {
        match self {
            Spec::MergeFields(options) => Ok(Spec::MergeFields(options.copy(alloc)?)),
            Spec::Stats1(options) => Ok(Spec::Stats1(options.copy(alloc)?)),
            Spec::Step(options) => Ok(Spec::Step(options.copy(alloc)?)),
            Spec::Top(options) => Ok(Spec::Top(options.copy(alloc)?)),
        }
    }

    /// The verb with these options, before the first record. It allocates for the verb's state.
    pub(crate) fn running(self, alloc: Global) -> Result<Running, NoMemory>
        ensures meaning { IfOk result (λ made. ⟦<Running as Stateful>⟧.meaning made
            ≡ meaning_of self) }
        ensures represents { IfOk result (λ made. ⟦<Running as Stateful>⟧.represents made []) }
    {
        match self {
            Spec::MergeFields(options) => {
                Ok(Running::MergeFields(MergeFieldsVerb::new(alloc, options)))
            }
            Spec::Stats1(options) => Ok(Running::Stats1(options.verb(alloc)?)),
            Spec::Step(options) => Ok(Running::Step(StepVerb::new(alloc, options)?)),
            Spec::Top(options) => Ok(Running::Top(options.verb(alloc)?)),
        }
    }
}
