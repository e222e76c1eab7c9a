//! `gap`: puts records without fields between others.
ghost use Rattle.std.specs.Prelude.{◌≡◌, ◌++◌, ◌∷◌, ◌+◌, [], List, ℕ, IfOk, IsOk, OnOk, if◌then◌else◌};
ghost use Rattle.verbs_base.specs.Records.{Fields, with_context};
ghost use Rattle.verbs_state.specs.Gap.{IsLastKey, IsSoundGap, RepresentsAfter, gap, is_apart};

use mlr_event::{Ctx, Event, Events, Names};
use mlr_groups::{append_texts, next_count};
use mlr_record::Record;
use mlr_spec::NoMemory;
use mlr_value::Bytes;
use std::alloc::Global;
use std::mem::swap;
use verbs_base::Stateful;

/// Where `gap` puts a record without fields.
#[derive(Drop)]
pub enum Gap {
    /// After every this many records; at least 1.
    Count(u64),
    /// Where the texts of these fields change.
    Groups(Names),
}

impl Gap {
    /// A copy. It allocates for the names of the grouping fields.
    pub fn copy(&self, _: Global) -> Result<Self, NoMemory>
        ensures same { IfOk result (λ copy. copy ≡ self.now) }
        ensures count { (n : ℕ) → self.now ≡ Gap.Count n → IsOk result }
    {
        Ok(match self {
            Gap::Count(count) => Gap::Count(*count),
            Gap::Groups(names) => Gap::Groups(names.copy()?),
        })
    }
}

/// The verb `gap`, which counts the records, and keeps the key of the last record's grouping texts.
#[derive(Drop)]
pub struct GapVerb {
    alloc: Global,
    options: Gap,
    count: u64,
    key: Bytes,
    room: Bytes,
}

impl GapVerb {
    /// The verb with these options, before the first record. It doesn't allocate.
    pub fn new(alloc: Global, options: Gap) -> Self
        requires { IsSoundGap options }
        ensures meaning { ⟦<GapVerb as Stateful>⟧.meaning result ≡ gap options }
        ensures represents { ⟦<GapVerb as Stateful>⟧.represents result [] }
    {
        GapVerb {
            alloc,
            options,
            count: 0,
            key: Bytes::new(alloc),
            room: Bytes::new(alloc),
        }
    }
}

impl Stateful for GapVerb {
    ghost use Rattle.verbs_base.specs.Laws.{stream-shuts};
    ghost use Rattle.verbs_base.specs.Records.{records};
    ghost use Rattle.verbs_state.specs.Gap.{GapRepresents, gap, gap_gives};

    ghost meaning = { λ s. gap s.options };

    ghost represents = { λ s before. GapRepresents s (records before) };

    ghost shuts = { λ s. stream-shuts (gap_gives s.options) };

    fn take(&mut self, fields: Record, ctx: Ctx, out: &mut Events) -> Result<(), NoMemory> {
        let (key, room) = (&mut self.key, &mut self.room);
        let apart = is_apart(self.alloc, &self.options, self.count, &fields, key, room)?;
        self.count = next_count(self.count);
        push_after(self.alloc, apart, fields, ctx, out)
    }

    fn finish(&mut self, _: Ctx, _: &mut Events) -> Result<(), NoMemory> {
        Ok(())
    }

    fn is_shut(&self) -> bool {
        false
    }

    fn never_shuts(&self) -> bool {
        true
    }
}

/// Whether a gap precedes a record, given the number of the records before and the key of the last. With
/// grouping fields, `key` becomes the key of this record. `key` and `room` keep their allocations for the next
/// records.
fn is_apart(
    alloc: Global,
    options: &Gap,
    count: u64,
    fields: &Record,
    key: &mut Bytes,
    room: &mut Bytes,
) -> Result<bool, NoMemory>
    requires { (before : List Fields) × RepresentsAfter options.now count key.old before }
    ensures apart { IfOk result (λ apart. (before : List Fields)
        → RepresentsAfter options.now count key.old before
        → apart ≡ is_apart options.now before fields.now) }
    ensures key { OnOk result ((before : List Fields)
        → IsLastKey options.now key.new (before ++ fields.now ∷ [])) }
{
    match options {
        Gap::Count(each) => Ok(count > 0 && count % *each == 0),
        Gap::Groups(names) => {
            room.clear();
            append_texts(alloc, names, fields, room)?;
            swap(key, room);
            Ok(count > 0 && room != key)
        }
    }
}

/// Appends a record to `out`, after one without fields if there is a gap.
fn push_after(
    alloc: Global,
    apart: bool,
    fields: Record,
    ctx: Ctx,
    out: &mut Events,
) -> Result<(), NoMemory>
    ensures { OnOk result (out.new ≡ out.old
        ++ with_context ctx (if apart then [] ∷ fields ∷ [] else fields ∷ [])) }
{
    if apart {
        out.push(Event::Rec(Record::of_fields(alloc, Vec::new(alloc)), ctx))?;
    }
    out.push(Event::Rec(fields, ctx))
}
