//! Statistics of the fields whose names hold a text, gathered by their names without it.
ghost use Rattle.std.specs.Prelude.{◌≡◌, ◌+◌, ◌≤◌, ◌++◌, ◌∷◌, [], ℕ, List, drop, false, is_some, if◌then◌else◌, length, take, IfOk, IfSome, OnOk, Some, slice_get};
ghost use Rattle.std.specs.List.{flat_map};
ghost use Rattle.std.specs.Option.{option_map};
ghost use Rattle.std.specs.Str.{bytes_eq};
ghost use Rattle.mlr_spec.specs.Pairs.{put_each};
ghost use Rattle.mlr_spec.specs.Tree.{Tree};
ghost use Rattle.mlr_value.specs.Value.{tree_of};
ghost use Rattle.mlr_record.specs.Fields.{pair_of, pairs_of};
ghost use Rattle.mlr_event.specs.Reading.{is_among};
ghost use Rattle.mlr_groups.specs.Keys.{entered};
ghost use Rattle.verbs_base.specs.Choosing.{once};
ghost use Rattle.verbs_base.specs.Records.{Fields};
ghost use Rattle.stat_base.specs.declared.accumulator.Accumulator.{Accumulator as SpecAccumulator};
ghost use Rattle.mlr_stats.specs.Kept.{Arranges, Summarizes};
ghost use Rattle.mlr_stats.specs.Statistic.{fields_of};
ghost use Rattle.verbs_summary.specs.KeptOfGroup.{KeepsEach};
ghost use Rattle.verbs_summary.specs.Shortened.{gathered, short_names, shortened, values_of_short, without};

use crate::putting::put_fields;
use mlr_event::Names;
use mlr_groups::KeyTable;
use mlr_record::split::separator_place;
use mlr_record::{Field, Record};
use mlr_spec::NoMemory;
use mlr_stats::{Statistics, Summary};
use mlr_value::{Bytes, Value};
use std::alloc::Global;

/// Whether a name holds one of some texts.
pub(crate) fn holds_any(texts: &Names, name: &[u8]) -> bool
    ensures { result ≡ is_some (shortened texts.now name.now) }
{
    for text in texts.as_slice() {
        if held_place(text.as_slice(), name).is_some() {
            return true;
        }
    }
    false
}

/// Puts the statistics of the fields of each short name into a record. It allocates for each short name.
pub(crate) fn put_gathered(
    alloc: Global,
    statistics: &Statistics,
    texts: &Names,
    fields: &Record,
    into: &mut Record,
) -> Result<(), NoMemory>
    ensures { OnOk result (into.new
        ≡ put_each into.old (gathered statistics.now texts.now fields.now)) }
{
    let mut kept = Gathered::new(alloc);
    kept.take_fields(alloc, statistics, texts, fields)?;
    sort_all(&mut kept.summaries)?;
    let mut made = Vec::new(alloc);
    append_summaries(
        alloc,
        statistics,
        kept.names.as_slice(),
        &kept.summaries,
        &mut made,
    )?;
    put_fields(alloc, made, into)
}

/// The place of the first occurrence of a text in a name. Each name holds the empty text.
fn held_place(text: &[u8], name: &[u8]) -> Option<usize>
    ensures place { option_map (λ place. take place name.now
        ++ drop (place + length text.now) name.now) result ≡ without text.now name.now }
    ensures inside { IfSome result (λ place. place + length text.now ≤ length name.now) }
{
    if text.is_empty() {
        return Some(0);
    }
    separator_place(text, name)
}

/// A name without the first of some texts that it holds. It allocates for a short name of more than 20 bytes.
fn shortened(alloc: Global, texts: &Names, name: &[u8]) -> Result<Option<Bytes>, NoMemory>
    ensures { IfOk result (λ short. short ≡ shortened texts.now name.now) }
{
    for text in texts.as_slice() {
        if let Some(place) = held_place(text.as_slice(), name) {
            let short = joined(alloc, &name[..place], &name[place + text.len()..])?;
            return Ok(Some(short));
        }
    }
    Ok(None)
}

/// A text followed by another.
fn joined(alloc: Global, text: &[u8], rest: &[u8]) -> Result<Bytes, NoMemory>
    ensures { IfOk result (λ made. made ≡ text.now ++ rest.now) }
{
    let mut made = Bytes::copy_of(alloc, text)?;
    made.append(rest)?;
    Ok(made)
}

/// What is kept of the values of the fields of each short name.
struct Gathered {
    seen: KeyTable,
    /// The short names, in the order in which they come first.
    names: Names,
    /// What is kept for each short name, at its place.
    summaries: Vec<Summary>,
}

// Written by hand, so that the functions below call it instead of dropping the fields themselves.
impl Drop for Gathered {
    fn drop(self) {
        let Gathered {
            seen,
            names,
            summaries,
        } = self;
        drop(seen);
        drop(names);
        drop(summaries);
    }
}

impl Gathered {
    /// No short names yet. It doesn't allocate.
    fn new(alloc: Global) -> Self
        ensures seen { result.seen ≡ [] }
        ensures names { result.names ≡ [] }
        ensures summaries { result.summaries.items ≡ [] }
    {
        Gathered {
            seen: KeyTable::new(alloc),
            names: Names::new(alloc),
            summaries: Vec::new(alloc),
        }
    }

    /// Takes the values of a record.
    fn take_fields(
        &mut self,
        alloc: Global,
        statistics: &Statistics,
        texts: &Names,
        fields: &Record,
    ) -> Result<(), NoMemory>
        requires seen { self.old.seen ≡ [] }
        requires names { self.old.names ≡ [] }
        requires summaries { self.old.summaries.items ≡ [] }
        ensures names { OnOk result (self.new.names ≡ short_names texts.now fields.now) }
        ensures summaries { OnOk result (KeepsEach
            (λ short. Summarizes statistics.now (values_of_short texts.now fields.now short))
            self.new.names self.new.summaries.items) }
    {
        for field in fields.fields() {
            self.take_field(alloc, statistics, texts, field)?;
        }
        Ok(())
    }

    /// Takes the value of a field, if its name holds one of the texts.
    fn take_field(
        &mut self,
        alloc: Global,
        statistics: &Statistics,
        texts: &Names,
        field: &Field,
    ) -> Result<(), NoMemory>
        requires seen { self.old.seen ≡ self.old.names }
        requires places { length self.old.summaries.items ≡ length self.old.names }
        ensures seen { OnOk result (self.new.seen ≡ self.new.names) }
        ensures places { OnOk result (length self.new.summaries.items ≡ length self.new.names) }
        ensures names { OnOk result ((before : Fields)
            → self.old.names ≡ short_names texts.now before
            → self.new.names ≡ short_names texts.now (before ++ pair_of field.now ∷ [])) }
        ensures summaries { OnOk result ((before : Fields)
            → self.old.names ≡ short_names texts.now before
            → KeepsEach
            (λ short. Summarizes statistics.now (values_of_short texts.now before short))
            self.old.names self.old.summaries.items
            → KeepsEach (λ short. Summarizes statistics.now
            (values_of_short texts.now (before ++ pair_of field.now ∷ []) short))
            self.new.names self.new.summaries.items) }
    {
        let Some(short) = shortened(alloc, texts, field.name.as_slice())? else {
            return Ok(());
        };
        self.take_value(alloc, statistics, short, &field.value)
    }

    /// Takes a value for a short name.
    fn take_value(
        &mut self,
        alloc: Global,
        statistics: &Statistics,
        short: Bytes,
        value: &Value,
    ) -> Result<(), NoMemory>
        requires seen { self.old.seen ≡ self.old.names }
        requires places { length self.old.summaries.items ≡ length self.old.names }
        ensures seen { OnOk result (self.new.seen ≡ self.new.names) }
        ensures places { OnOk result (length self.new.summaries.items ≡ length self.new.names) }
        ensures names { OnOk result (self.new.names ≡ entered self.old.names short) }
        ensures summaries { OnOk result ((given : List (List ℕ)) (values : List ℕ → List Tree)
            → self.old.names ≡ once given
            → (is_among self.old.names short ≡ false → values short ≡ [])
            → KeepsEach (λ name. Summarizes statistics.now (values name))
            self.old.names self.old.summaries.items
            → KeepsEach (λ name. Summarizes statistics.now
            (values name ++ (if bytes_eq short name then tree_of value.now ∷ [] else [])))
            self.new.names self.new.summaries.items) }
    {
        let place = self.place_of(alloc, statistics, short)?;
        self.summaries[place].add(alloc, statistics, value)
    }

    /// The place of a short name. A new one is appended, for which no values are kept.
    fn place_of(
        &mut self,
        alloc: Global,
        statistics: &Statistics,
        short: Bytes,
    ) -> Result<usize, NoMemory>
        requires seen { self.old.seen ≡ self.old.names }
        requires places { length self.old.summaries.items ≡ length self.old.names }
        ensures place { IfOk result (λ place. slice_get self.new.names place ≡ Some short) }
        ensures seen { OnOk result (self.new.seen ≡ self.new.names) }
        ensures places { OnOk result (length self.new.summaries.items ≡ length self.new.names) }
        ensures names { OnOk result (self.new.names ≡ entered self.old.names short) }
        ensures summaries { OnOk result ((values : List ℕ → List Tree)
            → (is_among self.old.names short ≡ false → values short ≡ [])
            → KeepsEach (λ name. Summarizes statistics.now (values name))
            self.old.names self.old.summaries.items
            → KeepsEach (λ name. Summarizes statistics.now (values name))
            self.new.names self.new.summaries.items) }
    {
        let place = self.seen.enter(short.as_slice())?;
        if self.seen.len() > self.names.len() {
            self.names.push(short)?;
            self.summaries.push(Summary::new(alloc, statistics)?)?;
        }
        Ok(place)
    }
}

/// Sorts what is kept for each name.
pub(crate) fn sort_all(summaries: &mut [Summary]) -> Result<(), NoMemory>
    ensures { OnOk result ((accumulators : List SpecAccumulator) (values : List ℕ → List Tree)
        (names : List (List ℕ))
        → KeepsEach (λ name. Summarizes accumulators (values name)) names summaries.old
        → KeepsEach (λ name. Arranges accumulators (values name)) names summaries.new) }
{
    for place in 0..summaries.len() {
        summaries[place].sort()?;
    }
    Ok(())
}

/// Appends the statistics of each name as fields.
fn append_summaries(
    alloc: Global,
    statistics: &Statistics,
    names: &[Bytes],
    summaries: &[Summary],
    into: &mut Vec<Field>,
) -> Result<(), NoMemory>
    requires { length summaries.now ≡ length names.now }
    ensures { OnOk result ((values : List ℕ → List Tree)
        → KeepsEach (λ name. Arranges statistics.now (values name)) names.now summaries.now
        → pairs_of into.new.items ≡ pairs_of into.old.items
        ++ flat_map (λ name. fields_of statistics.now name (values name)) names.now) }
{
    for place in 0..names.len() {
        summaries[place].append_all(alloc, statistics, names[place].as_slice(), into)?;
    }
    Ok(())
}
