//! Records that are held back, and given as they are at the end.
ghost use Rattle.std.specs.Prelude.{◌≡◌, []};

use group_state::{AtEnd, OfGroup};
use mlr_event::{Ctx, Event, Events};
use mlr_record::Record;
use mlr_spec::NoMemory;
use std::alloc::Global;

/// Records that are held back, and given as they are at the end.
#[derive(Drop)]
pub struct HeldRows {
    rows: Events,
}

impl HeldRows {
    /// No records yet. It doesn't allocate.
    pub fn new(alloc: Global) -> Self
        ensures gives { ⟦<HeldRows as AtEnd>⟧.gives result ≡ (λ rows ctx. rows) }
        ensures holds { ⟦<HeldRows as AtEnd>⟧.holds result [] }
    {
        HeldRows {
            rows: Events::new(alloc),
        }
    }
}

impl AtEnd for HeldRows {
    ghost use Rattle.std.specs.Prelude.{◌≡◌};
    ghost use Rattle.verbs_base.specs.Records.{events_of};

    ghost gives = { λ s rows ctx. rows };

    ghost holds = { λ s rows. s.rows ≡ events_of rows };

    fn add(&mut self, _: Global, fields: Record, ctx: Ctx) -> Result<(), NoMemory> {
        self.rows.push(Event::Rec(fields, ctx))
    }

    fn finish(&mut self, _: Global, _: Ctx, out: &mut Events) -> Result<(), NoMemory> {
        out.append(&mut self.rows)
    }
}

impl OfGroup for HeldRows {
    fn fresh(&self, alloc: Global) -> Result<Self, NoMemory> {
        Ok(HeldRows::new(alloc))
    }
}
