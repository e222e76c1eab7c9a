//! The verbs of statistics, each with what it keeps.

use mlr_event::{Ctx, Events};
use mlr_record::Record;
use mlr_spec::NoMemory;
use verbs_base::Stateful;
use verbs_step::StepVerb;
use verbs_summary::{MergeFieldsVerb, Stats1Verb};
use verbs_top::TopVerb;

/// A verb of statistics with what it keeps from record to record.
pub enum Running {
    MergeFields(MergeFieldsVerb),
    Stats1(Stats1Verb),
    Step(StepVerb),
    Top(TopVerb),
}

/// The same call on a verb of whatever kind.
macro_rules! of_each {
    ($running:expr, $verb:ident => $call:expr) => {
        match $running {
            Running::MergeFields($verb) => $call,
            Running::Stats1($verb) => $call,
            Running::Step($verb) => $call,
            Running::Top($verb) => $call,
        }
    };
}

// Written by hand, so that what stands above calls it instead of dropping the verbs themselves.
impl Drop for Running {
    fn drop(self) {
        of_each!(self, verb => drop(verb))
    }
}

impl Stateful for Running {
    ghost use Rattle.verbs_base.specs.Laws.{never-shuts};
    ghost use Rattle.verbs_stat.specs.declared.running.Running.TheVariants as r;

    ghost meaning = { elim [
      | r.MergeFields v ↦ ⟦<MergeFieldsVerb as Stateful>⟧.meaning v
      | r.Stats1 v ↦ ⟦<Stats1Verb as Stateful>⟧.meaning v
      | r.Step v ↦ ⟦<StepVerb as Stateful>⟧.meaning v
      | r.Top v ↦ ⟦<TopVerb as Stateful>⟧.meaning v
    ] };

    ghost represents = { elim [
      | r.MergeFields v ↦ ⟦<MergeFieldsVerb as Stateful>⟧.represents v
      | r.Stats1 v ↦ ⟦<Stats1Verb as Stateful>⟧.represents v
      | r.Step v ↦ ⟦<StepVerb as Stateful>⟧.represents v
      | r.Top v ↦ ⟦<TopVerb as Stateful>⟧.represents v
    ] };

    ghost shuts = { elim [
      | r.MergeFields v ↦ never-shuts (⟦<MergeFieldsVerb as Stateful>⟧.meaning v).gives
          (⟦<MergeFieldsVerb as Stateful>⟧.meaning v).late
      | r.Stats1 v ↦ never-shuts (⟦<Stats1Verb as Stateful>⟧.meaning v).gives
          (⟦<Stats1Verb as Stateful>⟧.meaning v).late
      | r.Step v ↦ never-shuts (⟦<StepVerb as Stateful>⟧.meaning v).gives
          (⟦<StepVerb as Stateful>⟧.meaning v).late
      | r.Top v ↦ never-shuts (⟦<TopVerb as Stateful>⟧.meaning v).gives
          (⟦<TopVerb as Stateful>⟧.meaning v).late
    ] };

    fn take(&mut self, fields: Record, ctx: Ctx, out: &mut Events) -> Result<(), NoMemory> {
        of_each!(self, verb => verb.take(fields, ctx, out))
    }

    fn take_all(&mut self, events: &mut Events, out: &mut Events) -> Result<(), NoMemory> {
        of_each!(self, verb => verb.take_all(events, out))
    }

    fn finish(&mut self, ctx: Ctx, out: &mut Events) -> Result<(), NoMemory> {
        of_each!(self, verb => verb.finish(ctx, out))
    }

    fn is_shut(&self) -> bool {
        false
    }

    fn never_shuts(&self) -> bool {
        true
    }
}
