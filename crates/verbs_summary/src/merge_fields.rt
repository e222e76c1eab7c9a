//! `merge-fields`: statistics of the values of several fields of each record.
ghost use Rattle.std.specs.Prelude.{◌≡◌, ◌++◌, ◌∷◌, [], List, if◌then◌else◌, map, IfOk, OnOk};
ghost use Rattle.regex.specs.Bytes.{matcher_pattern};
ghost use Rattle.mlr_record.specs.Fields.{pairs_of};
ghost use Rattle.mlr_spec.specs.Pairs.{put_each};
ghost use Rattle.mlr_spec.specs.Tree.{Tree};
ghost use Rattle.mlr_stats.specs.Kept.{Summarizes};
ghost use Rattle.mlr_stats.specs.Statistic.{fields_of};
ghost use Rattle.verbs_summary.specs.Merging.{HasPatternsOf, not_holding, not_matching, values_named};
ghost use Rattle.verbs_summary.specs.Shortened.{gathered};
ghost use Rattle.verbs_base.specs.Choosing.{dropped};
ghost use Rattle.verbs_summary.specs.MergeFields.{AreSameInputs, merge_fields, values_matching};

use crate::gathering::{holds_any, put_gathered};
use crate::putting::put_fields;
use crate::stats1::copy_of;
use mlr_event::{Events, Names};
use mlr_list::List;
use mlr_pattern::{Matcher, Patterns};
use mlr_record::{Field, Record};
use mlr_spec::NoMemory;
use mlr_stats::{Statistics, Summary};
use mlr_value::Bytes;
use stat_base::Accumulator;
use std::alloc::Global;
use verbs_base::{Each, PerRecord, Stateful, drop_named};
use verbs_pattern::{Searches, Searching, any_matches, matchers_of};

/// The options of `merge-fields`.
#[derive(Drop)]
pub struct MergeFields {
    pub accumulators: List<Accumulator>,
    pub inputs: MergeInputs,
    /// What the outputs are named after, but with `-c`.
    pub output: Bytes,
    /// `-k`: the inputs are kept.
    pub keep: bool,
}

/// The fields whose values are taken.
#[derive(Drop)]
pub enum MergeInputs {
    /// `-f`: those of these names, in the order of the names.
    Names(Names),
    /// `-r`: those whose names match one of these patterns.
    Patterns(Patterns),
    /// `-c`: those whose names hold one of these texts. They are gathered by their names without it.
    Texts(Names),
}

impl MergeFields {
    /// A copy, which shares the patterns. It allocates for the names.
    pub fn copy(&self, alloc: Global) -> Result<Self, NoMemory>
        ensures accumulators { IfOk result (λ copy. copy.accumulators ≡ self.now.accumulators) }
        ensures inputs { IfOk result (λ copy. AreSameInputs copy.inputs self.now.inputs) }
        ensures output { IfOk result (λ copy. copy.output ≡ self.now.output) }
        ensures keep { IfOk result (λ copy. copy.keep ≡ self.now.keep) }
        ensures meaning { IfOk result (λ copy. merge_fields copy ≡ merge_fields self.now) }
    {
        Ok(MergeFields {
            accumulators: copy_of(alloc, &self.accumulators)?,
            inputs: self.inputs.copy()?,
            output: Bytes::copy_of(alloc, self.output.as_slice())?,
            keep: self.keep,
        })
    }
}

impl MergeInputs {
    /// A copy, which shares the patterns. It allocates the list.
    fn copy(&self) -> Result<Self, NoMemory>
        ensures { IfOk result (λ copy. AreSameInputs copy self.now) }
    {
        Ok(match self {
            MergeInputs::Names(names) => MergeInputs::Names(names.copy()?),
            MergeInputs::Patterns(patterns) => MergeInputs::Patterns(patterns.copy()?),
            MergeInputs::Texts(texts) => MergeInputs::Texts(texts.copy()?),
        })
    }

    /// A matcher for each pattern, and none where there are no patterns.
    fn matchers(&self, alloc: Global) -> Result<Vec<Matcher<'_>>, NoMemory>
        ensures { IfOk result (λ made. HasPatternsOf self.now (map matcher_pattern made.items)) }
    {
        match self {
            MergeInputs::Patterns(patterns) => matchers_of(alloc, patterns.as_slice()),
            _ => Ok(Vec::new(alloc)),
        }
    }
}

/// The verb `merge-fields`. It makes one matcher for each pattern, for all records of a list.
pub type MergeFieldsVerb = Searching<MergeFields>;

impl Searches for MergeFields {
    ghost use Rattle.verbs_base.specs.Records.{maps};
    ghost use Rattle.verbs_summary.specs.MergeFields.{merge_fields};

    ghost gives = { λ options. maps (merge_fields options) };

    fn search_all(
        &self,
        alloc: Global,
        events: &mut Events,
        out: &mut Events,
    ) -> Result<(), NoMemory> {
        let matchers = self.inputs.matchers(alloc)?;
        let statistics = Statistics::new(copy_of(alloc, &self.accumulators)?);
        let options = self;
        let verb = Merge {
            options,
            matchers,
            statistics,
        };
        Each { alloc, verb }.take_all(events, out)
    }
}

/// What merges the fields of the records of one list.
#[derive(Drop)]
struct Merge<'m> {
    options: &'m MergeFields,
    matchers: Vec<Matcher<'m>>,
    statistics: Statistics,
}

impl PerRecord for Merge<'_> {
    ghost use Rattle.verbs_base.specs.Records.{maps};
    ghost use Rattle.verbs_summary.specs.Merging.{IsReady};
    ghost use Rattle.verbs_summary.specs.MergeFields.{merge_fields};

    ghost gives = { λ s. maps (merge_fields s.options.now) };

    ghost sound = { IsReady };

    fn made(&mut self, alloc: Global, fields: Record) -> Result<Option<Record>, NoMemory> {
        let options = self.options;
        let made = match &options.inputs {
            MergeInputs::Names(names) => {
                merge_named(alloc, options, &self.statistics, names, fields)?
            }
            MergeInputs::Patterns(_) => {
                merge_matching(alloc, options, &self.statistics, &mut self.matchers, fields)?
            }
            MergeInputs::Texts(texts) => {
                merge_holding(alloc, options, &self.statistics, texts, fields)?
            }
        };
        Ok(Some(made))
    }
}

/// A record with the statistics of the named fields.
fn merge_named(
    alloc: Global,
    options: &MergeFields,
    statistics: &Statistics,
    names: &Names,
    fields: Record,
) -> Result<Record, NoMemory>
    ensures { IfOk result (λ made. made ≡ put_each (if options.now.keep then fields
        else dropped names.now fields) (fields_of statistics.now options.now.output
        (values_named names.now fields))) }
{
    let mut summary = Summary::new(alloc, statistics)?;
    add_named(alloc, statistics, names, &fields, &mut summary)?;
    let mut made = if options.keep {
        fields
    } else {
        drop_named(names, fields)
    };
    put_summary(
        alloc,
        statistics,
        options.output.as_slice(),
        summary,
        &mut made,
    )?;
    Ok(made)
}

/// Takes the values of the named fields, in the order of the names.
fn add_named(
    alloc: Global,
    statistics: &Statistics,
    names: &Names,
    fields: &Record,
    summary: &mut Summary,
) -> Result<(), NoMemory>
    ensures { OnOk result ((values : List Tree) → Summarizes statistics.now values summary.old
        → Summarizes statistics.now (values ++ values_named names.now fields.now) summary.new) }
{
    for name in names.as_slice() {
        add_named_value(alloc, statistics, name, fields, summary)?;
    }
    Ok(())
}

/// Takes the value of a field, if the record has it.
fn add_named_value(
    alloc: Global,
    statistics: &Statistics,
    name: &Bytes,
    fields: &Record,
    summary: &mut Summary,
) -> Result<(), NoMemory>
    ensures { OnOk result ((values : List Tree) → Summarizes statistics.now values summary.old
        → Summarizes statistics.now (values ++ values_named (name.now ∷ []) fields.now) summary.new) }
{
    match fields.get(name.as_slice()) {
        Some(value) => summary.add(alloc, statistics, value),
        None => Ok(()),
    }
}

/// Puts the statistics of all values into a record.
fn put_summary(
    alloc: Global,
    statistics: &Statistics,
    output: &[u8],
    summary: Summary,
    into: &mut Record,
) -> Result<(), NoMemory>
    ensures { OnOk result ((values : List Tree) → Summarizes statistics.now values summary
        → into.new ≡ put_each into.old (fields_of statistics.now output.now values)) }
{
    let mut summary = summary;
    summary.sort()?;
    let mut fields = Vec::new(alloc);
    summary.append_all(alloc, statistics, output, &mut fields)?;
    put_fields(alloc, fields, into)
}

/// A record with the statistics of the fields whose names match.
fn merge_matching(
    alloc: Global,
    options: &MergeFields,
    statistics: &Statistics,
    matchers: &mut [Matcher<'_>],
    fields: Record,
) -> Result<Record, NoMemory>
    ensures made { IfOk result (λ made. made ≡ put_each (if options.now.keep then fields
        else not_matching (map matcher_pattern matchers.old) fields)
        (fields_of statistics.now options.now.output
        (values_matching (map matcher_pattern matchers.old) fields))) }
    ensures same { map matcher_pattern matchers.new ≡ map matcher_pattern matchers.old }
{
    let mut summary = Summary::new(alloc, statistics)?;
    let mut kept = Vec::with_capacity(alloc, fields.len())?;
    let fields = fields.into_fields();
    merge_each(
        alloc,
        statistics,
        matchers,
        options.keep,
        fields,
        &mut summary,
        &mut kept,
    )?;
    let mut made = Record::of_fields(alloc, kept);
    put_summary(
        alloc,
        statistics,
        options.output.as_slice(),
        summary,
        &mut made,
    )?;
    Ok(made)
}

/// Takes the values of the fields whose names match, and keeps the fields that stay.
fn merge_each(
    alloc: Global,
    statistics: &Statistics,
    matchers: &mut [Matcher<'_>],
    keep: bool,
    fields: Vec<Field>,
    summary: &mut Summary,
    kept: &mut Vec<Field>,
) -> Result<(), NoMemory>
    ensures summary { OnOk result ((values : List Tree)
        → Summarizes statistics.now values summary.old
        → Summarizes statistics.now (values ++ values_matching (map matcher_pattern matchers.old)
        (pairs_of fields.items)) summary.new) }
    ensures kept { OnOk result (pairs_of kept.new.items ≡ pairs_of kept.old.items
        ++ (if keep then pairs_of fields.items
        else not_matching (map matcher_pattern matchers.old) (pairs_of fields.items))) }
    ensures same { map matcher_pattern matchers.new ≡ map matcher_pattern matchers.old }
{
    for field in fields {
        merge_field(alloc, statistics, matchers, keep, field, summary, kept)?;
    }
    Ok(())
}

/// Takes the value of a field whose name matches, and keeps the field if it stays.
fn merge_field(
    alloc: Global,
    statistics: &Statistics,
    matchers: &mut [Matcher<'_>],
    keep: bool,
    field: Field,
    summary: &mut Summary,
    kept: &mut Vec<Field>,
) -> Result<(), NoMemory>
    ensures summary { OnOk result ((values : List Tree)
        → Summarizes statistics.now values summary.old
        → Summarizes statistics.now (values ++ values_matching (map matcher_pattern matchers.old)
        (pairs_of (field ∷ []))) summary.new) }
    ensures kept { OnOk result (pairs_of kept.new.items ≡ pairs_of kept.old.items
        ++ (if keep then pairs_of (field ∷ [])
        else not_matching (map matcher_pattern matchers.old) (pairs_of (field ∷ [])))) }
    ensures same { map matcher_pattern matchers.new ≡ map matcher_pattern matchers.old }
{
    let taken = any_matches(matchers, field.name.as_slice());
    if taken {
        summary.add(alloc, statistics, &field.value)?;
    }
    if keep || !taken {
        kept.push(field)?;
    }
    Ok(())
}

/// A record with the statistics of the fields whose names hold one of the texts.
fn merge_holding(
    alloc: Global,
    options: &MergeFields,
    statistics: &Statistics,
    texts: &Names,
    fields: Record,
) -> Result<Record, NoMemory>
    ensures { IfOk result (λ made. made ≡ put_each (if options.now.keep then fields
        else not_holding texts.now fields) (gathered statistics.now texts.now fields)) }
{
    let from = fields.copy()?;
    let mut made = if options.keep {
        fields
    } else {
        drop_holding(texts, fields)
    };
    put_gathered(alloc, statistics, texts, &from, &mut made)?;
    Ok(made)
}

/// The fields whose names hold none of the texts. It doesn't allocate.
fn drop_holding(texts: &Names, from: Record) -> Record
    ensures { result ≡ not_holding texts.now from }
{
    let mut fields = from.into_fields();
    let alloc = *fields.allocator();
    fields.retain(|field| !holds_any(texts, field.name.as_slice()));
    Record::of_fields(alloc, fields)
}
