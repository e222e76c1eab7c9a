//! `stats1`: statistics of the values of fields, of all records or of each group.
ghost use Rattle.std.specs.Prelude.{◌≡◌, ◌++◌, ◌∷◌, [], ℕ, List, length, map, if◌then◌else◌, Some, slice_get, IfOk, OnOk};
ghost use Rattle.std.specs.Option.{option_map};
ghost use Rattle.mlr_record.specs.Fields.{pairs_of};
ghost use Rattle.mlr_spec.specs.Pairs.{put_each};
ghost use Rattle.verbs_base.specs.Records.{Fields, events_of};
ghost use Rattle.verbs_summary.specs.Stats1.{is_newly_met, newly_met, stats1};
ghost use Rattle.verbs_summary.specs.KeptOfGroup.{ArrangesValues, KeepsEach, KeepsValues, group_gives_of, names_at, statistics_made};

use crate::gathering::sort_all;
use crate::putting::put_fields;
use group_state::{AtEnd, OfGroup, OfGroups};
use mlr_event::{Ctx, Event, Events, Names};
use mlr_groups::GroupBy;
use mlr_list::List;
use mlr_record::{Field, Record};
use mlr_spec::NoMemory;
use mlr_stats::{Statistics, Summary};
use stat_base::Accumulator;
use std::alloc::Global;
use std::sync::Arc;
use verbs_base::{Stateful, pick_named};

/// The options of `stats1`.
#[derive(Drop)]
pub struct Stats1 {
    pub accumulators: List<Accumulator>,
    /// The fields whose values are taken.
    pub names: Names,
    /// The grouping fields.
    pub groups: Option<Names>,
}

impl Stats1 {
    /// A copy. It allocates for the names.
    pub fn copy(&self, alloc: Global) -> Result<Self, NoMemory>
        ensures { IfOk result (λ copy. copy ≡ self.now) }
    {
        Ok(Stats1 {
            accumulators: copy_of(alloc, &self.accumulators)?,
            names: self.names.copy()?,
            groups: self.groups.as_ref().map(Names::copy).transpose()?,
        })
    }

    /// The verb before the first record. It allocates for its options, which all groups share.
    pub fn verb(self, alloc: Global) -> Result<Stats1Verb, NoMemory>
        ensures meaning { IfOk result (λ made. ⟦<Stats1Verb as Stateful>⟧.meaning made
            ≡ stats1 self) }
        ensures represents { IfOk result (λ made. ⟦<Stats1Verb as Stateful>⟧.represents made []) }
    {
        let Stats1 {
            accumulators,
            names,
            groups,
        } = self;
        let groups = match groups {
            Some(groups) => groups,
            None => Names::new(alloc),
        };
        let by = GroupBy::Texts(groups.copy()?);
        let options = Options {
            statistics: Statistics::new(accumulators),
            names,
            groups,
        };
        let none = GroupSummaries::new(alloc, options)?;
        Ok(OfGroups::new(alloc, by, none))
    }
}

/// The verb `stats1`.
pub type Stats1Verb = OfGroups<GroupSummaries>;

/// What all groups share.
#[derive(Drop)]
pub struct Options {
    statistics: Statistics,
    names: Names,
    groups: Names,
}

/// What is kept of the values of each field in a group, and the grouping fields of its first record.
#[derive(Drop)]
pub struct GroupSummaries {
    options: Arc<Options>,
    first: Option<Record>,
    /// What is kept for each name, at its place.
    summaries: Vec<Summary>,
    /// The places of the names that were met, in the order in which they came first.
    met: Vec<usize>,
}

impl GroupSummaries {
    /// No records yet. It allocates for what is kept for each name.
    fn new(alloc: Global, options: Options) -> Result<Self, NoMemory>
        ensures gives { IfOk result (λ made. ⟦<GroupSummaries as AtEnd>⟧.gives made
            ≡ group_gives_of options) }
        ensures holds { IfOk result (λ made. ⟦<GroupSummaries as AtEnd>⟧.holds made []) }
    {
        let summaries = no_summaries(alloc, &options)?;
        Ok(GroupSummaries {
            options: Arc::new(alloc, options)?,
            first: None,
            summaries,
            met: Vec::new(alloc),
        })
    }
}

impl AtEnd for GroupSummaries {
    ghost use Rattle.verbs_summary.specs.KeptOfGroup.{GroupHolds, group_gives};

    ghost gives = { group_gives };

    ghost holds = { GroupHolds };

    fn add(&mut self, alloc: Global, fields: Record, _: Ctx) -> Result<(), NoMemory> {
        add_values(
            alloc,
            &self.options,
            &fields,
            &mut self.summaries,
            &mut self.met,
        )?;
        if self.first.is_none() {
            self.first = Some(pick_named(&self.options.groups, fields));
        }
        Ok(())
    }

    fn finish(&mut self, alloc: Global, ctx: Ctx, out: &mut Events) -> Result<(), NoMemory> {
        sort_all(&mut self.summaries)?;
        let made = match self.first.take() {
            Some(fields) => fields,
            None => Record::new(alloc)?,
        };
        push_made(
            alloc,
            &self.options,
            &self.summaries,
            &self.met,
            (made, ctx),
            out,
        )
    }
}

impl OfGroup for GroupSummaries {
    fn fresh(&self, alloc: Global) -> Result<Self, NoMemory> {
        Ok(GroupSummaries {
            options: self.options.clone()?,
            first: None,
            summaries: no_summaries(alloc, &self.options)?,
            met: Vec::new(alloc),
        })
    }
}

/// What is kept of no values, for each name.
fn no_summaries(alloc: Global, options: &Options) -> Result<Vec<Summary>, NoMemory>
    ensures { IfOk result (λ made. KeepsEach (KeepsValues options.now []) options.now.names
        made.items) }
{
    let mut summaries = Vec::with_capacity(alloc, options.names.len())?;
    for _ in 0..options.names.len() {
        summaries.push(Summary::new(alloc, &options.statistics)?)?;
    }
    Ok(summaries)
}

/// Takes the values of a record.
fn add_values(
    alloc: Global,
    options: &Options,
    fields: &Record,
    summaries: &mut [Summary],
    met: &mut Vec<usize>,
) -> Result<(), NoMemory>
    requires { length summaries.old ≡ length options.now.names }
    ensures summaries { OnOk result ((before : List Fields)
        → KeepsEach (KeepsValues options.now before) options.now.names summaries.old
        → KeepsEach (KeepsValues options.now (before ++ fields.now ∷ [])) options.now.names
        summaries.new) }
    ensures met { OnOk result ((before : List Fields)
        → KeepsEach (KeepsValues options.now before) options.now.names summaries.old
        → names_at options.now.names met.new.items ≡ names_at options.now.names met.old.items
        ++ map Some (newly_met options.now.names before fields.now)) }
{
    for place in 0..options.names.len() {
        add_value(alloc, options, fields, place, &mut summaries[place], met)?;
    }
    Ok(())
}

/// Takes the value of the field whose name is at a place, if the record has it.
fn add_value(
    alloc: Global,
    options: &Options,
    fields: &Record,
    place: usize,
    summary: &mut Summary,
    met: &mut Vec<usize>,
) -> Result<(), NoMemory>
    ensures summary { OnOk result ((before : List Fields) (name : List ℕ)
        → slice_get options.now.names place ≡ Some name
        → KeepsValues options.now before name summary.old
        → KeepsValues options.now (before ++ fields.now ∷ []) name summary.new) }
    ensures met { OnOk result ((before : List Fields) (name : List ℕ)
        → slice_get options.now.names place ≡ Some name
        → KeepsValues options.now before name summary.old
        → met.new.items ≡ met.old.items
        ++ (if is_newly_met before fields.now name then place ∷ [] else [])) }
{
    let Some(name) = options.names.at(place) else {
        return Ok(());
    };
    let Some(value) = fields.get(name.as_slice()) else {
        return Ok(());
    };
    if summary.is_nil() {
        met.push(place)?;
    }
    summary.add(alloc, &options.statistics, value)
}

/// Appends a record, into which it puts the statistics of the names that were met.
fn push_made(
    alloc: Global,
    options: &Options,
    summaries: &[Summary],
    met: &[usize],
    row: (Record, Ctx),
    out: &mut Events,
) -> Result<(), NoMemory>
    ensures { OnOk result ((rows : List Fields) (names : List (List ℕ))
        → KeepsEach (ArrangesValues options.now rows) options.now.names summaries.now
        → names_at options.now.names met.now ≡ map Some names
        → out.new ≡ out.old
        ++ events_of ((put_each row.0 (statistics_made options.now names rows), row.1) ∷ [])) }
{
    let (mut made, ctx) = row;
    let mut fields = Vec::new(alloc);
    append_met(alloc, options, summaries, met, &mut fields)?;
    put_fields(alloc, fields, &mut made)?;
    out.push(Event::Rec(made, ctx))
}

/// Appends the statistics of the names that were met as fields.
fn append_met(
    alloc: Global,
    options: &Options,
    summaries: &[Summary],
    met: &[usize],
    into: &mut Vec<Field>,
) -> Result<(), NoMemory>
    ensures { OnOk result ((rows : List Fields) (names : List (List ℕ))
        → KeepsEach (ArrangesValues options.now rows) options.now.names summaries.now
        → names_at options.now.names met.now ≡ map Some names
        → pairs_of into.new.items
        ≡ pairs_of into.old.items ++ statistics_made options.now names rows) }
{
    for place in met {
        append_at(alloc, options, summaries, *place, into)?;
    }
    Ok(())
}

/// Appends the statistics of the name at a place as fields.
fn append_at(
    alloc: Global,
    options: &Options,
    summaries: &[Summary],
    place: usize,
    into: &mut Vec<Field>,
) -> Result<(), NoMemory>
    ensures { OnOk result ((rows : List Fields) (name : List ℕ)
        → KeepsEach (ArrangesValues options.now rows) options.now.names summaries.now
        → slice_get options.now.names place ≡ Some name
        → pairs_of into.new.items
        ≡ pairs_of into.old.items ++ statistics_made options.now (name ∷ []) rows) }
{
    let Some(name) = options.names.at(place) else {
        return Ok(());
    };
    let Some(summary) = summary_at(summaries, place) else {
        return Ok(());
    };
    summary.append_all(alloc, &options.statistics, name.as_slice(), into)
}

/// What is kept at a place, if there is such a place.
fn summary_at(summaries: &[Summary], place: usize) -> Option<&Summary>
    ensures { option_map (λ summary. summary.now) result ≡ slice_get summaries.now place }
{
    summaries.get(place)
}

/// A copy of a list of accumulators.
pub(crate) fn copy_of(
    alloc: Global,
    accumulators: &List<Accumulator>,
) -> Result<List<Accumulator>, NoMemory>
    ensures { IfOk result (λ copy. copy ≡ accumulators.now) }
{
    let mut copy = List::new(alloc);
    for accumulator in accumulators.as_slice() {
        copy.push(*accumulator)?;
    }
    Ok(copy)
}
