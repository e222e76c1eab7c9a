//! `tac`: the records backwards.
ghost use Rattle.std.specs.Prelude.{◌≡◌, ◌++◌, [], reverse, OnOk};
ghost use Rattle.verbs_hold.specs.Tac.{tac};

use group_state::{AtEnd, OfAll};
use mlr_event::{Ctx, Event, Events};
use mlr_record::Record;
use mlr_spec::NoMemory;
use std::alloc::Global;
use verbs_base::Stateful;

/// What `tac` keeps: the records so far.
#[derive(Drop)]
pub struct TacRows {
    rows: Events,
}

/// The verb `tac`, which has no options.
pub type TacVerb = OfAll<TacRows>;

impl TacRows {
    /// The verb before the first record. It doesn't allocate.
    pub fn verb(alloc: Global) -> TacVerb
        ensures meaning { ⟦<TacVerb as Stateful>⟧.meaning result ≡ tac }
        ensures represents { ⟦<TacVerb as Stateful>⟧.represents result [] }
    {
        let rows = Events::new(alloc);
        OfAll {
            alloc,
            state: TacRows { rows },
        }
    }
}

impl AtEnd for TacRows {
    ghost use Rattle.std.specs.Prelude.{◌≡◌, reverse};
    ghost use Rattle.verbs_base.specs.Records.{events_of};

    ghost gives = { λ s rows ctx. reverse rows };

    ghost holds = { λ s rows. s.rows ≡ events_of rows };

    fn add(&mut self, _: Global, fields: Record, ctx: Ctx) -> Result<(), NoMemory> {
        self.rows.push(Event::Rec(fields, ctx))
    }

    fn finish(&mut self, _: Global, _: Ctx, out: &mut Events) -> Result<(), NoMemory> {
        reverse(&mut self.rows);
        out.append(&mut self.rows)
    }
}

/// Reverses the order of the events, in their places.
fn reverse(rows: &mut Events)
    ensures { rows.new ≡ reverse rows.old }
{
    let len = rows.len();
    for place in 0..len / 2 {
        rows.swap(place, len - 1 - place);
    }
}
