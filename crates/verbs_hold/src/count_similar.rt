//! `count-similar`: the records group by group, each with the number of records of its group.
ghost use Rattle.std.specs.Prelude.{◌≡◌, ◌++◌, [], length, map, IfOk, OnOk};
ghost use Rattle.verbs_hold.specs.CountSimilar.{count_similar, with_count};
ghost use Rattle.verbs_hold.specs.WithFields.{with_fields};

use group_state::{AtEnd, OfGroup, OfGroups, count_value};
use mlr_event::{Ctx, Event, Events, Names};
use mlr_groups::GroupBy;
use mlr_record::Record;
use mlr_spec::NoMemory;
use mlr_value::Bytes;
use std::alloc::Global;
use std::mem::replace;
use verbs_base::Stateful;

/// The options of `count-similar`.
#[derive(Drop)]
pub struct CountSimilar {
    pub groups: Names,
    /// The name of the field that has the count.
    pub output: Bytes,
}

/// The verb `count-similar`.
pub type CountSimilarVerb = OfGroups<SimilarRows>;

impl CountSimilar {
    /// A copy. It allocates for the names.
    pub fn copy(&self, alloc: Global) -> Result<Self, NoMemory>
        ensures { IfOk result (λ copy. copy ≡ self.now) }
    {
        Ok(CountSimilar {
            groups: self.groups.copy()?,
            output: Bytes::copy_of(alloc, self.output.as_slice())?,
        })
    }

    /// The verb before the first record. It doesn't allocate.
    pub fn verb(self, alloc: Global) -> CountSimilarVerb
        ensures meaning { ⟦<CountSimilarVerb as Stateful>⟧.meaning result ≡ count_similar self }
        ensures represents { ⟦<CountSimilarVerb as Stateful>⟧.represents result [] }
    {
        let CountSimilar { groups, output } = self;
        let none = SimilarRows {
            output,
            rows: Events::new(alloc),
        };
        OfGroups::new(alloc, GroupBy::Texts(groups), none)
    }
}

/// The records of a group, each of which gets their number.
#[derive(Drop)]
pub struct SimilarRows {
    output: Bytes,
    rows: Events,
}

impl AtEnd for SimilarRows {
    ghost use Rattle.std.specs.Prelude.{◌≡◌, length, map};
    ghost use Rattle.verbs_base.specs.Records.{events_of};
    ghost use Rattle.verbs_hold.specs.CountSimilar.{with_count};

    ghost gives = { λ s rows ctx. map (λ row. (with_count s.output (length rows) row.0, row.1))
        rows };

    ghost holds = { λ s rows. s.rows ≡ events_of rows };

    fn add(&mut self, _: Global, fields: Record, ctx: Ctx) -> Result<(), NoMemory> {
        self.rows.push(Event::Rec(fields, ctx))
    }

    fn finish(&mut self, alloc: Global, _: Ctx, out: &mut Events) -> Result<(), NoMemory> {
        let rows = replace(&mut self.rows, Events::new(alloc));
        push_counted(alloc, self.output.as_slice(), rows, out)
    }
}

impl OfGroup for SimilarRows {
    fn fresh(&self, alloc: Global) -> Result<Self, NoMemory> {
        Ok(SimilarRows {
            output: Bytes::copy_of(alloc, self.output.as_slice())?,
            rows: Events::new(alloc),
        })
    }
}

/// Appends these records, each with their number.
fn push_counted(
    alloc: Global,
    output: &[u8],
    rows: Events,
    out: &mut Events,
) -> Result<(), NoMemory>
    ensures { OnOk result (out.new ≡ out.old
        ++ map (with_fields (with_count output.now (length rows))) rows) }
{
    let count = rows.len() as u64;
    for event in rows.into_vec() {
        out.push(counted(alloc, output, count, event)?)?;
    }
    Ok(())
}

/// The record in an event with the count; another event as it is.
fn counted(alloc: Global, output: &[u8], count: u64, event: Event) -> Result<Event, NoMemory>
    ensures { IfOk result (λ made. made ≡ with_fields (with_count output.now count) event) }
{
    match event {
        Event::Rec(fields, ctx) => {
            let mut fields = fields;
            fields.put(output, count_value(alloc, count))?;
            Ok(Event::Rec(fields, ctx))
        }
        other => Ok(other),
    }
}
