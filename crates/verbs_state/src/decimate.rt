//! `decimate`: passes one of every so many records.
ghost use Rattle.std.specs.Prelude.{◌≡◌, [], None, IfOk, IsOk};
ghost use Rattle.verbs_state.specs.Decimate.{IsSoundDecimate, decimate, is_kept};

use crate::counted::no_tallies;
use mlr_event::{Ctx, Event, Events, Names};
use mlr_groups::{Tallies, next_count};
use mlr_record::Record;
use mlr_spec::NoMemory;
use std::alloc::Global;
use verbs_base::Stateful;

/// The options of `decimate`.
#[derive(Drop)]
pub struct Decimate {
    /// One of this many records passes; at least 1.
    pub count: u64,
    /// Whether the first of them passes, rather than the last.
    pub first: bool,
    /// The grouping fields: each group is counted by itself.
    pub groups: Option<Names>,
}

impl Decimate {
    /// A copy. It allocates for the names of the grouping fields.
    pub fn copy(&self, _: Global) -> Result<Self, NoMemory>
        ensures same { IfOk result (λ copy. copy ≡ self.now) }
        ensures ungrouped { self.now.groups ≡ None → IsOk result }
    {
        Ok(Decimate {
            count: self.count,
            first: self.first,
            groups: self.groups.as_ref().map(Names::copy).transpose()?,
        })
    }
}

/// The verb `decimate`.
#[derive(Drop)]
pub struct DecimateVerb {
    options: Decimate,
    tallies: Tallies,
}

impl DecimateVerb {
    /// The verb with these options, before the first record.
    pub fn new(alloc: Global, options: Decimate) -> Result<Self, NoMemory>
        requires { IsSoundDecimate options }
        ensures meaning { IfOk result (λ made. ⟦<DecimateVerb as Stateful>⟧.meaning made
            ≡ decimate options) }
        ensures represents { IfOk result (λ made. ⟦<DecimateVerb as Stateful>⟧.represents made []) }
    {
        let tallies = no_tallies(alloc, &options.groups)?;
        Ok(DecimateVerb { options, tallies })
    }
}

impl Stateful for DecimateVerb {
    ghost use Rattle.verbs_base.specs.Laws.{stream-shuts};
    ghost use Rattle.verbs_base.specs.Records.{records};
    ghost use Rattle.verbs_state.specs.Decimate.{DecimateRepresents, decimate, decimate_gives};

    ghost meaning = { λ s. decimate s.options };

    ghost represents = { λ s before. DecimateRepresents s (records before) };

    ghost shuts = { λ s. stream-shuts (decimate_gives s.options) };

    fn take(&mut self, fields: Record, ctx: Ctx, out: &mut Events) -> Result<(), NoMemory> {
        match self.tallies.count(&fields)? {
            Some(count) if is_kept(&self.options, count) => out.push(Event::Rec(fields, ctx)),
            _ => Ok(()),
        }
    }

    fn finish(&mut self, _: Ctx, _: &mut Events) -> Result<(), NoMemory> {
        Ok(())
    }

    fn is_shut(&self) -> bool {
        false
    }

    fn never_shuts(&self) -> bool {
        true
    }
}

/// Whether a record passes that follows `earlier` others of its group.
fn is_kept(options: &Decimate, earlier: u64) -> bool
    requires { IsSoundDecimate options.now }
    ensures { result ≡ is_kept options.now earlier }
{
    let place = if options.first {
        earlier
    } else {
        next_count(earlier)
    };
    place % options.count == 0
}
