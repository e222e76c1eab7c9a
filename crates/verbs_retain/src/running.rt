//! The retaining verbs, each with what it keeps.

use group_state::OfAll;
use mlr_event::{Ctx, Events};
use mlr_record::Record;
use mlr_spec::NoMemory;
use verbs_base::{Each, Stateful};
use verbs_count::{
    FrequentVerb, GroupCountVerb, GroupNumberVerb, RecordCountVerb, UniqCountedVerb, UniqFirstVerb,
};
use verbs_hold::{
    CountSimilarVerb, GroupByVerb, TacVerb, TailVerb, UnsparsifyFields, UnsparsifyVerb,
};
use verbs_sort::SortRows;

/// A retaining verb with what it keeps from record to record.
pub enum Running {
    CountSimilar(CountSimilarVerb),
    Frequent(FrequentVerb),
    GroupCount(GroupCountVerb),
    GroupNumber(GroupNumberVerb),
    Groups(GroupByVerb),
    RecordCount(RecordCountVerb),
    Sort(OfAll<SortRows>),
    Tac(TacVerb),
    Tail(TailVerb),
    UniqCounted(UniqCountedVerb),
    UniqFirst(UniqFirstVerb),
    Unsparsify(UnsparsifyVerb),
    UnsparsifyFields(Each<UnsparsifyFields>),
}

/// The same call on a verb of whatever kind.
macro_rules! of_each {
    ($running:expr, $verb:ident => $call:expr) => {
        match $running {
            Running::CountSimilar($verb) => $call,
            Running::Frequent($verb) => $call,
            Running::GroupCount($verb) => $call,
            Running::GroupNumber($verb) => $call,
            Running::Groups($verb) => $call,
            Running::RecordCount($verb) => $call,
            Running::Sort($verb) => $call,
            Running::Tac($verb) => $call,
            Running::Tail($verb) => $call,
            Running::UniqCounted($verb) => $call,
            Running::UniqFirst($verb) => $call,
            Running::Unsparsify($verb) => $call,
            Running::UnsparsifyFields($verb) => $call,
        }
    };
}

// Written by hand, so that what stands above calls it instead of dropping the verbs themselves.
impl Drop for Running {
    fn drop(self) {
        of_each!(self, verb => drop(verb))
    }
}

impl Stateful for Running {
    ghost use Rattle.verbs_base.specs.Laws.{never-shuts};
    ghost use Rattle.verbs_retain.specs.declared.running.Running.TheVariants as r;

    ghost meaning = { elim [
      | r.CountSimilar v ↦ ⟦<CountSimilarVerb as Stateful>⟧.meaning v
      | r.Frequent v ↦ ⟦<FrequentVerb as Stateful>⟧.meaning v
      | r.GroupCount v ↦ ⟦<GroupCountVerb as Stateful>⟧.meaning v
      | r.GroupNumber v ↦ ⟦<GroupNumberVerb as Stateful>⟧.meaning v
      | r.Groups v ↦ ⟦<GroupByVerb as Stateful>⟧.meaning v
      | r.RecordCount v ↦ ⟦<RecordCountVerb as Stateful>⟧.meaning v
      | r.Sort v ↦ ⟦<OfAll<SortRows> as Stateful>⟧.meaning v
      | r.Tac v ↦ ⟦<TacVerb as Stateful>⟧.meaning v
      | r.Tail v ↦ ⟦<TailVerb as Stateful>⟧.meaning v
      | r.UniqCounted v ↦ ⟦<UniqCountedVerb as Stateful>⟧.meaning v
      | r.UniqFirst v ↦ ⟦<UniqFirstVerb as Stateful>⟧.meaning v
      | r.Unsparsify v ↦ ⟦<UnsparsifyVerb as Stateful>⟧.meaning v
      | r.UnsparsifyFields v ↦ ⟦<Each<UnsparsifyFields> as Stateful>⟧.meaning v
    ] };

    ghost represents = { elim [
      | r.CountSimilar v ↦ ⟦<CountSimilarVerb as Stateful>⟧.represents v
      | r.Frequent v ↦ ⟦<FrequentVerb as Stateful>⟧.represents v
      | r.GroupCount v ↦ ⟦<GroupCountVerb as Stateful>⟧.represents v
      | r.GroupNumber v ↦ ⟦<GroupNumberVerb as Stateful>⟧.represents v
      | r.Groups v ↦ ⟦<GroupByVerb as Stateful>⟧.represents v
      | r.RecordCount v ↦ ⟦<RecordCountVerb as Stateful>⟧.represents v
      | r.Sort v ↦ ⟦<OfAll<SortRows> as Stateful>⟧.represents v
      | r.Tac v ↦ ⟦<TacVerb as Stateful>⟧.represents v
      | r.Tail v ↦ ⟦<TailVerb as Stateful>⟧.represents v
      | r.UniqCounted v ↦ ⟦<UniqCountedVerb as Stateful>⟧.represents v
      | r.UniqFirst v ↦ ⟦<UniqFirstVerb as Stateful>⟧.represents v
      | r.Unsparsify v ↦ ⟦<UnsparsifyVerb as Stateful>⟧.represents v
      | r.UnsparsifyFields v ↦ ⟦<Each<UnsparsifyFields> as Stateful>⟧.represents v
    ] };

    ghost shuts = { elim [
      | r.CountSimilar v ↦ never-shuts (⟦<CountSimilarVerb as Stateful>⟧.meaning v).gives
          (⟦<CountSimilarVerb as Stateful>⟧.meaning v).late
      | r.Frequent v ↦ never-shuts (⟦<FrequentVerb as Stateful>⟧.meaning v).gives
          (⟦<FrequentVerb as Stateful>⟧.meaning v).late
      | r.GroupCount v ↦ never-shuts (⟦<GroupCountVerb as Stateful>⟧.meaning v).gives
          (⟦<GroupCountVerb as Stateful>⟧.meaning v).late
      | r.GroupNumber v ↦ never-shuts (⟦<GroupNumberVerb as Stateful>⟧.meaning v).gives
          (⟦<GroupNumberVerb as Stateful>⟧.meaning v).late
      | r.Groups v ↦ never-shuts (⟦<GroupByVerb as Stateful>⟧.meaning v).gives
          (⟦<GroupByVerb as Stateful>⟧.meaning v).late
      | r.RecordCount v ↦ never-shuts (⟦<RecordCountVerb as Stateful>⟧.meaning v).gives
          (⟦<RecordCountVerb as Stateful>⟧.meaning v).late
      | r.Sort v ↦ never-shuts (⟦<OfAll<SortRows> as Stateful>⟧.meaning v).gives
          (⟦<OfAll<SortRows> as Stateful>⟧.meaning v).late
      | r.Tac v ↦ never-shuts (⟦<TacVerb as Stateful>⟧.meaning v).gives
          (⟦<TacVerb as Stateful>⟧.meaning v).late
      | r.Tail v ↦ never-shuts (⟦<TailVerb as Stateful>⟧.meaning v).gives
          (⟦<TailVerb as Stateful>⟧.meaning v).late
      | r.UniqCounted v ↦ never-shuts (⟦<UniqCountedVerb as Stateful>⟧.meaning v).gives
          (⟦<UniqCountedVerb as Stateful>⟧.meaning v).late
      | r.UniqFirst v ↦ never-shuts (⟦<UniqFirstVerb as Stateful>⟧.meaning v).gives
          (⟦<UniqFirstVerb as Stateful>⟧.meaning v).late
      | r.Unsparsify v ↦ never-shuts (⟦<UnsparsifyVerb as Stateful>⟧.meaning v).gives
          (⟦<UnsparsifyVerb as Stateful>⟧.meaning v).late
      | r.UnsparsifyFields v ↦ never-shuts (⟦<Each<UnsparsifyFields> as Stateful>⟧.meaning v).gives
          (⟦<Each<UnsparsifyFields> as Stateful>⟧.meaning v).late
    ] };

    fn take(&mut self, fields: Record, ctx: Ctx, out: &mut Events) -> Result<(), NoMemory> {
        of_each!(self, verb => verb.take(fields, ctx, out))
    }

    fn take_all(&mut self, events: &mut Events, out: &mut Events) -> Result<(), NoMemory> {
        of_each!(self, verb => verb.take_all(events, out))
    }

    fn finish(&mut self, ctx: Ctx, out: &mut Events) -> Result<(), NoMemory> {
        of_each!(self, verb => verb.finish(ctx, out))
    }

    fn is_shut(&self) -> bool {
        false
    }

    fn never_shuts(&self) -> bool {
        true
    }
}
