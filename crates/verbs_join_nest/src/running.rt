//! The shaping verbs, each with what it keeps.

use mlr_event::{Ctx, Events};
use mlr_record::Record;
use mlr_spec::NoMemory;
use verbs_base::Stateful;
use verbs_join::JoinVerb;
use verbs_nest::NestVerb;
use verbs_reshape::ReshapeVerb;

/// A shaping verb with what it keeps from record to record.
pub enum Running {
    Join(JoinVerb),
    Nest(NestVerb),
    Reshape(ReshapeVerb),
}

/// The same call on a verb of whatever kind.
macro_rules! of_each {
    ($running:expr, $verb:ident => $call:expr) => {
        match $running {
            Running::Join($verb) => $call,
            Running::Nest($verb) => $call,
            Running::Reshape($verb) => $call,
        }
    };
}

// Written by hand, so that what stands above calls it instead of dropping the verbs themselves.
impl Drop for Running {
    fn drop(self) {
        of_each!(self, verb => drop(verb))
    }
}

impl Stateful for Running {
    ghost use Rattle.verbs_join.specs.contracts.join_verb.JoinVerbStateful.TheImpl.Laws as join;
    ghost use Rattle.verbs_nest.specs.contracts.verb.NestVerbStateful.TheImpl.Laws as nest;
    ghost use Rattle.verbs_reshape.specs.contracts.reshape.ReshapeVerbStateful.TheImpl.Laws as reshape;
    ghost use Rattle.verbs_join_nest.specs.declared.running.Running.TheVariants as r;

    ghost meaning = { elim [
      | r.Join v ↦ ⟦<JoinVerb as Stateful>⟧.meaning v
      | r.Nest v ↦ ⟦<NestVerb as Stateful>⟧.meaning v
      | r.Reshape v ↦ ⟦<ReshapeVerb as Stateful>⟧.meaning v
    ] };

    ghost represents = { elim [
      | r.Join v ↦ ⟦<JoinVerb as Stateful>⟧.represents v
      | r.Nest v ↦ ⟦<NestVerb as Stateful>⟧.represents v
      | r.Reshape v ↦ ⟦<ReshapeVerb as Stateful>⟧.represents v
    ] };

    ghost shuts = { elim [
      | r.Join v ↦ join.shuts-law v
      | r.Nest v ↦ nest.shuts-law v
      | r.Reshape v ↦ reshape.shuts-law v
    ] };

    fn take(&mut self, fields: Record, ctx: Ctx, out: &mut Events) -> Result<(), NoMemory> {
        of_each!(self, verb => verb.take(fields, ctx, out))
    }

    fn take_all(&mut self, events: &mut Events, out: &mut Events) -> Result<(), NoMemory> {
        of_each!(self, verb => verb.take_all(events, out))
    }

    fn finish(&mut self, ctx: Ctx, out: &mut Events) -> Result<(), NoMemory> {
        of_each!(self, verb => verb.finish(ctx, out))
    }

    fn is_shut(&self) -> bool {
        of_each!(self, verb => verb.is_shut())
    }

    fn never_shuts(&self) -> bool {
        of_each!(self, verb => verb.never_shuts())
    }
}
