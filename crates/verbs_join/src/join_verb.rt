//! The verb `join`.
ghost use Rattle.std.specs.Prelude.{◌≡◌, ◌++◌, [], IfOk, OnOk};
ghost use Rattle.verbs_base.specs.Records.{with_context};
ghost use Rattle.verbs_join.specs.Join.{join, join_gives, lefts_in};
ghost use Rattle.verbs_join.specs.Represents.{HasPartners};

use crate::join::Join;
use crate::lefts::Lefts;
use crate::taking::push_pairs;
use mlr_event::{Ctx, Event, Events};
use mlr_record::Record;
use mlr_spec::NoMemory;
use std::alloc::Global;
use verbs_base::Stateful;

/// The verb `join` with its left records.
pub struct JoinVerb {
    alloc: Global,
    options: Join,
    lefts: Lefts,
}

// Written by hand, so that the crates above call it instead of dropping the fields themselves.
impl Drop for JoinVerb {
    fn drop(self) {
        let JoinVerb {
            alloc: _,
            options,
            lefts,
        } = self;
        drop(options);
        drop(lefts);
    }
}

impl JoinVerb {
    /// The verb before the first record, with the records among the events of the left file. It allocates for an index of
    /// them.
    pub fn new(alloc: Global, options: Join, left: Events) -> Result<Self, NoMemory>
        ensures meaning { IfOk result (λ made. ⟦<JoinVerb as Stateful>⟧.meaning made
            ≡ join options (lefts_in left)) }
        ensures represents { IfOk result (λ made. ⟦<JoinVerb as Stateful>⟧.represents made []) }
    {
        let lefts = Lefts::new(alloc, &options, left)?;
        Ok(JoinVerb {
            alloc,
            options,
            lefts,
        })
    }
}

impl Stateful for JoinVerb {
    ghost use Rattle.std.specs.Prelude.{map, if◌then◌else◌, []};
    ghost use Rattle.verbs_base.specs.Laws.{never-shuts};
    ghost use Rattle.verbs_base.specs.Records.{records};
    ghost use Rattle.verbs_join.specs.Join.{join, join_gives, unpaired};
    ghost use Rattle.verbs_join.specs.Represents.{LeftsOf};

    ghost meaning = { λ s. join s.options s.lefts.records.items };

    ghost represents = { λ s before. LeftsOf s.options (records before) s.lefts };

    ghost shuts = { λ s. never-shuts (join s.options s.lefts.records.items).gives
        (join s.options s.lefts.records.items).late };

    fn take(&mut self, fields: Record, ctx: Ctx, out: &mut Events) -> Result<(), NoMemory> {
        let bucket = self.lefts.pair_with(&self.options, &fields)?;
        give(
            self.alloc,
            &self.options,
            &self.lefts,
            bucket,
            fields,
            ctx,
            out,
        )
    }

    fn finish(&mut self, ctx: Ctx, out: &mut Events) -> Result<(), NoMemory> {
        if self.options.left_unpaired {
            self.lefts.push_unpaired(&self.options, ctx, out)?;
        }
        Ok(())
    }

    fn is_shut(&self) -> bool {
        false
    }

    fn never_shuts(&self) -> bool {
        true
    }
}

/// Appends what a right record gives, which pairs with the left records of this bucket.
fn give(
    alloc: Global,
    options: &Join,
    lefts: &Lefts,
    bucket: Option<usize>,
    right: Record,
    ctx: Ctx,
    out: &mut Events,
) -> Result<(), NoMemory>
    requires { HasPartners options.now lefts.now right bucket }
    ensures { OnOk result (out.new ≡ out.old ++ with_context ctx
        (join_gives options.now lefts.now.records.items right)) }
{
    match bucket {
        Some(bucket) => {
            if !options.pairs {
                return Ok(());
            }
            let places = &lefts.buckets[bucket];
            push_pairs(alloc, options, &lefts.records, places, right, ctx, out)
        }
        None => {
            if !options.right_unpaired {
                return Ok(());
            }
            out.push(Event::Rec(right, ctx))
        }
    }
}
