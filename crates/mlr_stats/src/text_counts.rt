//! How many values have each text.
ghost use Rattle.std.specs.Prelude.{◌≡◌, ◌++◌, ◌∷◌, ◌<◌, [], ℕ, Bool, List, length, IfOk, OnOk, Some, slice_get, slice_index_or};
ghost use Rattle.std.specs.Option.{option_map, unwrap_or};
ghost use Rattle.mlr_groups.specs.Keys.{key_of};
ghost use Rattle.mlr_spec.specs.Tree.{Tree, empty};
ghost use Rattle.mlr_value.specs.Value.{tree_of};
ghost use Rattle.text_forms.specs.Shown.{shown};
ghost use Rattle.mlr_stats.specs.Best.{best_place, better_place};
ghost use Rattle.mlr_stats.specs.Kept.{CountsTexts};
ghost use Rattle.mlr_stats.specs.Statistic.{mode_of, texts_of};

use mlr_groups::{KeyTable, append_text, next_count};
use mlr_spec::NoMemory;
use mlr_value::{Bytes, Value};
use std::alloc::Global;
use text_forms::{held_text, shown};

/// How many values have each text, in the order in which the texts came first, and the first value of each.
#[derive(Drop)]
pub struct TextCounts {
    table: KeyTable,
    /// Room for the key of a text.
    key: Bytes,
    firsts: Vec<Value>,
    counts: Vec<u64>,
}

impl TextCounts {
    /// No values yet. It doesn't allocate.
    pub(crate) fn new(alloc: Global) -> Self
        ensures { CountsTexts [] result }
    {
        TextCounts {
            table: KeyTable::new(alloc),
            key: Bytes::new(alloc),
            firsts: Vec::new(alloc),
            counts: Vec::new(alloc),
        }
    }

    /// Counts one more value. It allocates if its text is new.
    pub(crate) fn add(&mut self, alloc: Global, value: &Value) -> Result<(), NoMemory>
        ensures { OnOk result ((values : List Tree) → CountsTexts values self.old
            → CountsTexts (values ++ tree_of value.now ∷ []) self.new) }
    {
        self.key.clear();
        append_own(alloc, value, &mut self.key)?;
        let place = self.table.enter(self.key.as_slice())?;
        if place < self.counts.len() {
            let count = self.counts[place];
            self.counts[place] = next_count(count);
        } else {
            self.firsts.push(value.copy(alloc)?)?;
            self.counts.push(1)?;
        }
        Ok(())
    }

    /// How many texts there are.
    pub(crate) fn len(&self) -> usize
        ensures { (values : List Tree) → CountsTexts values self.now
            → result ≡ length (texts_of values) }
    {
        self.counts.len()
    }

    /// The first value of the most frequent text, or of the least frequent; empty if there are no values.
    pub(crate) fn mode(&self, alloc: Global, least: bool) -> Result<Value, NoMemory>
        ensures { IfOk result (λ mode. (values : List Tree) → CountsTexts values self.now
            → tree_of mode ≡ unwrap_or (mode_of least values) empty) }
    {
        match value_at(&self.firsts, best_place(&self.counts, least)) {
            Some(value) => value.copy(alloc),
            None => Ok(Value::Empty),
        }
    }
}

/// Appends the key of a value's text.
fn append_own(alloc: Global, value: &Value, key: &mut Bytes) -> Result<(), NoMemory>
    ensures { OnOk result (key.new ≡ key.old ++ key_of (shown (tree_of value.now) ∷ [])) }
{
    match held_text(value) {
        Some(text) => append_text(text, key),
        None => {
            let text = shown(alloc, value)?;
            append_text(text.as_slice(), key)
        }
    }
}

/// The value at a place, if there is one.
fn value_at(values: &[Value], place: usize) -> Option<&Value>
    ensures { option_map (λ value. value.now) result ≡ slice_get values.now place }
{
    values.get(place)
}

/// The first place of the greatest count, or of the least; 0 if there are no counts.
fn best_place(counts: &[u64], least: bool) -> usize
    ensures { result ≡ best_place least counts.now }
{
    let mut best = 0;
    for place in 0..counts.len() {
        best = better_place(counts, least, best, place);
    }
    best
}

/// The later place if its count is greater, or less, and the earlier one otherwise.
fn better_place(counts: &[u64], least: bool, earlier: usize, later: usize) -> usize
    ensures { result ≡ better_place least counts.now earlier later }
{
    let (Some(count), Some(other)) = (counts.get(earlier), counts.get(later)) else {
        return earlier;
    };
    let is_better = if least { other < count } else { other > count };
    if is_better { later } else { earlier }
}
