//! `reshape`: long records of wide ones, or wide records of long ones.
ghost use Rattle.std.specs.Prelude.{◌≡◌, [], IfOk};
ghost use Rattle.verbs_reshape.specs.Reshape.{reshape};

use crate::to_long::{ToLong, ToLongVerb};
use crate::to_wide::{ToWide, ToWideVerb};
use mlr_event::{Ctx, Events};
use mlr_record::Record;
use mlr_spec::NoMemory;
use std::alloc::Global;
use verbs_base::Stateful;

/// The options of `reshape`.
#[derive(Drop)]
pub enum Reshape {
    /// `-i` or `-r`: a record for each selected field.
    Long(ToLong),
    /// `-s`: a record for each group of records that are equal in all other fields.
    Wide(ToWide),
}

impl Reshape {
    /// A copy, which shares the patterns. It allocates the list of fields, and texts of more than 20 bytes.
    pub fn copy(&self, alloc: Global) -> Result<Self, NoMemory>
        ensures { IfOk result (λ copy. reshape copy ≡ reshape self.now) }
    {
        match self {
            Reshape::Long(options) => Ok(Reshape::Long(options.copy(alloc)?)),
            Reshape::Wide(options) => Ok(Reshape::Wide(options.copy(alloc)?)),
        }
    }
}

/// The verb `reshape`.
pub enum ReshapeVerb {
    Long(ToLongVerb),
    Wide(ToWideVerb),
}

// Written by hand, so that the crates above call it instead of dropping the fields themselves.
impl Drop for ReshapeVerb {
    fn drop(self) {
        match self {
            ReshapeVerb::Long(verb) => drop(verb),
            ReshapeVerb::Wide(verb) => drop(verb),
        }
    }
}

impl ReshapeVerb {
    /// The verb with these options, before the first record. It allocates for names.
    pub fn new(alloc: Global, options: Reshape) -> Result<Self, NoMemory>
        ensures meaning { IfOk result (λ made. ⟦<ReshapeVerb as Stateful>⟧.meaning made
            ≡ reshape options) }
        ensures represents { IfOk result (λ made. ⟦<ReshapeVerb as Stateful>⟧.represents made []) }
    {
        match options {
            Reshape::Long(options) => Ok(ReshapeVerb::Long(ToLongVerb::new(alloc, options))),
            Reshape::Wide(options) => Ok(ReshapeVerb::Wide(ToWideVerb::new(alloc, options)?)),
        }
    }
}

/// The same call on a verb of either kind.
macro_rules! of_each {
    ($reshape:expr, $verb:ident => $call:expr) => {
        match $reshape {
            ReshapeVerb::Long($verb) => $call,
            ReshapeVerb::Wide($verb) => $call,
        }
    };
}

impl Stateful for ReshapeVerb {
    ghost use Rattle.verbs_base.specs.Laws.{never-shuts};
    ghost use Rattle.verbs_reshape.specs.declared.reshape.ReshapeVerb.TheVariants as r;

    ghost meaning = { elim [
      | r.Long v ↦ ⟦<ToLongVerb as Stateful>⟧.meaning v
      | r.Wide v ↦ ⟦<ToWideVerb as Stateful>⟧.meaning v
    ] };

    ghost represents = { elim [
      | r.Long v ↦ ⟦<ToLongVerb as Stateful>⟧.represents v
      | r.Wide v ↦ ⟦<ToWideVerb as Stateful>⟧.represents v
    ] };

    ghost shuts = { elim [
      | r.Long v ↦ never-shuts (⟦<ToLongVerb as Stateful>⟧.meaning v).gives
          (⟦<ToLongVerb as Stateful>⟧.meaning v).late
      | r.Wide v ↦ never-shuts (⟦<ToWideVerb as Stateful>⟧.meaning v).gives
          (⟦<ToWideVerb as Stateful>⟧.meaning v).late
    ] };

    fn take(&mut self, fields: Record, ctx: Ctx, out: &mut Events) -> Result<(), NoMemory> {
        of_each!(self, verb => verb.take(fields, ctx, out))
    }

    fn take_all(&mut self, events: &mut Events, out: &mut Events) -> Result<(), NoMemory> {
        of_each!(self, verb => verb.take_all(events, out))
    }

    fn finish(&mut self, ctx: Ctx, out: &mut Events) -> Result<(), NoMemory> {
        of_each!(self, verb => verb.finish(ctx, out))
    }

    fn is_shut(&self) -> bool {
        false
    }

    fn never_shuts(&self) -> bool {
        true
    }
}
