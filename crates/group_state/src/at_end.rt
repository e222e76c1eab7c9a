//! What is given at the end of some records.
ghost use Rattle.std.specs.Prelude.{◌≡◌, ◌∷◌, [], List, IfOk, OnOk};
ghost use Rattle.mlr_event.specs.declared.event.Ctx.{Ctx as SpecCtx};
ghost use Rattle.verbs_base.specs.Records.{Row};
ghost use Rattle.verbs_base.specs.Taking.{Follows};
ghost use Rattle.group_state.specs.AtEnd.{GivesAtEnd};

use mlr_event::{Ctx, Events};
use mlr_record::Record;
use mlr_spec::NoMemory;
use std::alloc::Global;
use verbs_base::Stateful;

/// What is kept of some records, to give records of them at the end.
pub trait AtEnd {
    /// The records that it gives at an end with this context, as a function of those that it was given. It never changes.
    ghost gives: { Self → List Row → SpecCtx → List Row };

    /// It was given these records, and not yet the end.
    ghost holds: { Self → List Row → Type 0 };

    /// Takes one more record.
    fn add(&mut self, alloc: Global, fields: Record, ctx: Ctx) -> Result<(), NoMemory>
        requires { (before : List Row) × holds self.old before }
        ensures gives { gives self.new ≡ gives self.old }
        ensures holds { OnOk result (Follows (holds self.old) (holds self.new)
            ((fields, ctx) ∷ [])) };

    /// Appends the records that it gives at the end. It is called once.
    fn finish(&mut self, alloc: Global, ctx: Ctx, out: &mut Events) -> Result<(), NoMemory>
        requires { (before : List Row) × holds self.old before }
        ensures gives { gives self.new ≡ gives self.old }
        ensures given { OnOk result (GivesAtEnd (gives self.old) (holds self.old) ctx
            out.old out.new) };
}

/// What is kept of each group of records.
pub trait OfGroup: AtEnd {
    /// The same for no records yet.
    fn fresh(&self, alloc: Global) -> Result<Self, NoMemory>
        ensures gives { IfOk result (λ made. Self.gives made ≡ Self.gives self.now) }
        ensures holds { IfOk result (λ made. Self.holds made []) };
}

/// A verb that gives nothing before the end, and then records of all that it was given.
#[derive(Drop)]
pub struct OfAll<S> {
    pub alloc: Global,
    pub state: S,
}

impl<S: AtEnd + Drop> Stateful for OfAll<S> {
    ghost use Rattle.std.specs.Prelude.{[]};
    ghost use Rattle.verbs_base.specs.Laws.{never-shuts};
    ghost use Rattle.group_state.specs.AtEnd.{at_end};

    ghost meaning = { λ s. at_end (S.gives s.state) };

    ghost represents = { λ s before. S.holds s.state before };

    ghost shuts = { λ s. never-shuts (λ before fields. []) (S.gives s.state) };

    fn take(&mut self, fields: Record, ctx: Ctx, _: &mut Events) -> Result<(), NoMemory> {
        self.state.add(self.alloc, fields, ctx)
    }

    fn finish(&mut self, ctx: Ctx, out: &mut Events) -> Result<(), NoMemory> {
        self.state.finish(self.alloc, ctx, out)
    }

    fn is_shut(&self) -> bool {
        false
    }

    fn never_shuts(&self) -> bool {
        true
    }
}
