//! What is kept of values beside their counts and their sum.
ghost use Rattle.std.specs.Prelude.{◌≡◌, ◌++◌, ◌∷◌, [], ℕ, List, true, length, map, IfOk, OnOk, slice_index_or};
ghost use Rattle.mlr_spec.specs.Order.{order_of};
ghost use Rattle.mlr_spec.specs.Tree.{Tree, empty};
ghost use Rattle.mlr_spec.specs.declared.arith.Order.TheVariants.{Mixed};
ghost use Rattle.mlr_value.specs.Value.{tree_of};
ghost use Rattle.mlr_sort.specs.InOrder.{in_order};
ghost use Rattle.mlr_stats.specs.Kept.{CountsTexts, HasMore, KeepsMore, serves_more};
ghost use Rattle.mlr_stats.specs.Statistic.{at_percentile, of_values, percentile_place};
ghost use Rattle.mlr_stats.specs.declared.needs.Needs.{Needs as SpecNeeds};

use crate::extremes::{copy_or_empty, keep_extreme, keep_first, keep_last};
use crate::needs::Needs;
use crate::text_counts::TextCounts;
use group_state::count_value;
use mlr_sort::sort_in_order;
use mlr_spec::{NoMemory, Order};
use mlr_value::{Value, compare};
use stat_base::Accumulator;
use std::alloc::Global;
use std::cmp::Ordering;

/// What is kept of values beside their counts and their sum, as far as it is needed. None of the values is empty.
#[derive(Drop)]
pub struct More {
    least: Option<Value>,
    greatest: Option<Value>,
    first: Option<Value>,
    last: Option<Value>,
    texts: TextCounts,
    values: Vec<Value>,
}

impl More {
    /// No values yet. It doesn't allocate.
    fn new(alloc: Global) -> Self
        ensures { (needs : SpecNeeds) → KeepsMore needs (λ values. values) [] result }
    {
        More {
            least: None,
            greatest: None,
            first: None,
            last: None,
            texts: TextCounts::new(alloc),
            values: Vec::new(alloc),
        }
    }

    /// Takes one more value.
    fn add(&mut self, alloc: Global, needs: Needs, value: &Value) -> Result<(), NoMemory>
        ensures { OnOk result ((values : List Tree)
            → KeepsMore needs (λ values. values) values self.old
            → KeepsMore needs (λ values. values) (values ++ tree_of value.now ∷ []) self.new) }
    {
        keep_extreme(alloc, needs.least, false, &mut self.least, value)?;
        keep_extreme(alloc, needs.greatest, true, &mut self.greatest, value)?;
        keep_first(alloc, needs.first, &mut self.first, value)?;
        keep_last(alloc, needs.last, &mut self.last, value)?;
        count_text(alloc, needs.texts, &mut self.texts, value)?;
        keep_value(alloc, needs.values, &mut self.values, value)
    }

    /// Sorts the values that are kept. It allocates to sort.
    fn sort(&mut self) -> Result<(), NoMemory>
        ensures { OnOk result ((needs : SpecNeeds) (values : List Tree)
            → KeepsMore needs (λ values. values) values self.old
            → KeepsMore needs (in_order (order_of Mixed)) values self.new) }
    {
        sort_values(&mut self.values)
    }

    /// A statistic of the values, which are sorted.
    fn statistic(&self, alloc: Global, accumulator: Accumulator) -> Result<Value, NoMemory>
        ensures { IfOk result (λ made. (needs : SpecNeeds) (values : List Tree)
            → KeepsMore needs (in_order (order_of Mixed)) values self.now
            → serves_more needs accumulator ≡ true
            → tree_of made ≡ of_values values accumulator) }
    {
        match accumulator {
            Accumulator::Min => copy_or_empty(alloc, &self.least),
            Accumulator::Max => copy_or_empty(alloc, &self.greatest),
            Accumulator::First => copy_or_empty(alloc, &self.first),
            Accumulator::Last => copy_or_empty(alloc, &self.last),
            Accumulator::Mode => self.texts.mode(alloc, false),
            Accumulator::Antimode => self.texts.mode(alloc, true),
            Accumulator::DistinctCount => Ok(count_value(alloc, self.texts.len() as u64)),
            Accumulator::Median => percentile(alloc, &self.values, 50),
            Accumulator::Percentile(percent) => percentile(alloc, &self.values, percent),
            _ => Ok(Value::Empty),
        }
    }
}

/// No values yet, if more than counts and the sum is needed. It allocates then.
pub(crate) fn more_of(alloc: Global, needs: Needs) -> Result<Option<Box<More>>, NoMemory>
    ensures { IfOk result (HasMore needs (λ values. values) []) }
{
    if needs.more() {
        Ok(Some(Box::new(alloc, More::new(alloc))?))
    } else {
        Ok(None)
    }
}

/// Takes one more value, if more than counts and the sum is needed.
pub(crate) fn add_more(
    alloc: Global,
    needs: Needs,
    more: &mut Option<Box<More>>,
    value: &Value,
) -> Result<(), NoMemory>
    ensures { OnOk result ((values : List Tree) → HasMore needs (λ values. values) values more.old
        → HasMore needs (λ values. values) (values ++ tree_of value.now ∷ []) more.new) }
{
    match more {
        Some(more) => more.add(alloc, needs, value),
        None => Ok(()),
    }
}

/// Sorts the values that are kept. It allocates to sort.
pub(crate) fn sort_more(more: &mut Option<Box<More>>) -> Result<(), NoMemory>
    ensures { OnOk result ((needs : SpecNeeds) (values : List Tree)
        → HasMore needs (λ values. values) values more.old
        → HasMore needs (in_order (order_of Mixed)) values more.new) }
{
    match more {
        Some(more) => more.sort(),
        None => Ok(()),
    }
}

/// A statistic of the values, which are sorted.
pub(crate) fn more_statistic(
    alloc: Global,
    more: &Option<Box<More>>,
    accumulator: Accumulator,
) -> Result<Value, NoMemory>
    ensures { IfOk result (λ made. (needs : SpecNeeds) (values : List Tree)
        → HasMore needs (in_order (order_of Mixed)) values more.now
        → serves_more needs accumulator ≡ true → tree_of made ≡ of_values values accumulator) }
{
    match more {
        Some(more) => more.statistic(alloc, accumulator),
        None => Ok(Value::Empty),
    }
}

/// Takes one more value, and counts its text, if that is needed.
fn count_text(
    alloc: Global,
    needed: bool,
    texts: &mut TextCounts,
    value: &Value,
) -> Result<(), NoMemory>
    ensures { OnOk result ((values : List Tree) → (needed ≡ true → CountsTexts values texts.old)
        → needed ≡ true → CountsTexts (values ++ tree_of value.now ∷ []) texts.new) }
{
    if needed {
        texts.add(alloc, value)?;
    }
    Ok(())
}

/// Takes one more value, and appends a copy, if that is needed.
fn keep_value(
    alloc: Global,
    needed: bool,
    kept: &mut Vec<Value>,
    value: &Value,
) -> Result<(), NoMemory>
    ensures { OnOk result (needed ≡ true
        → map tree_of kept.new.items ≡ map tree_of kept.old.items ++ tree_of value.now ∷ []) }
{
    if needed {
        kept.push(value.copy(alloc)?)?;
    }
    Ok(())
}

/// Sorts values in their order, where those that tie keep theirs.
fn sort_values(values: &mut Vec<Value>) -> Result<(), NoMemory>
    ensures { OnOk result (map tree_of values.new.items
        ≡ in_order (order_of Mixed) (map tree_of values.old.items)) }
{
    sort_in_order(
        values,
        |value: &Value, other: &Value| -> Ordering
            ensures { result ≡ order_of Mixed (tree_of value.now) (tree_of other.now) }
        { compare(Order::Mixed, value, other) },
    )
}

/// The value at the place of a percentile among values in order; empty if there are none.
fn percentile(alloc: Global, values: &[Value], percent: u8) -> Result<Value, NoMemory>
    ensures { IfOk result (λ value. tree_of value ≡ at_percentile percent (map tree_of values.now)) }
{
    match values.get(percentile_place(percent, values.len())) {
        Some(value) => value.copy(alloc),
        None => Ok(Value::Empty),
    }
}

/// The place of a percentile among some values in order.
fn percentile_place(percent: u8, count: usize) -> usize
    ensures { result ≡ percentile_place percent count }
{
    let place = percent as u128 * count as u128 / 100;
    if place < count as u128 {
        place as usize
    } else {
        count.saturating_sub(1)
    }
}
