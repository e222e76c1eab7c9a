//! The first ints of a field in their order, without the others.
ghost use Rattle.std.specs.Prelude.{◌≡◌, ◌∷◌, ◌++◌, [], List, map, IfOk, OnOk};
ghost use Rattle.std.specs.Option.{option_map};
ghost use Rattle.std.specs.Ordering.{is_lt};
ghost use Rattle.mlr_value.specs.Value.{tree_of};
ghost use Rattle.mlr_sort.specs.InOrder.{in_order};
ghost use Rattle.verbs_top.specs.Best.{HoldsBest, IsLastWanted, Pair, by_value, first_pairs, is_wanted, offered, pair_of, wanted_of};
ghost use Rattle.verbs_top.specs.Top.{by_top, is_int};
ghost use Rattle.verbs_top.specs.declared.top.Top.{Top as SpecTop};

use crate::top::{Top, TopOrder};
use mlr_event::Ctx;
use mlr_record::Record;
use mlr_sort::sort_in_order;
use mlr_spec::{NoMemory, Order};
use mlr_value::{Value, compare};
use std::alloc::Global;
use std::cmp::Ordering;

/// A record with its context.
#[derive(Drop)]
pub(crate) struct Held {
    pub(crate) fields: Record,
    pub(crate) ctx: Ctx,
}

/// A copy of an int, with its record where records are given. The record stays in its box while the entries are sorted.
#[derive(Drop)]
pub(crate) struct Entry {
    pub(crate) value: Value,
    pub(crate) row: Option<Box<Held>>,
}

/// The first ints of a field so far: the first `count` of the entries in order. There are never more than about twice
/// as many entries.
#[derive(Drop)]
pub(crate) struct Best {
    entries: Vec<Entry>,
    /// The last of the first ints, as they were when entries were dropped. An int that doesn't precede it isn't among
    /// the first.
    last: Option<Value>,
}

impl Best {
    /// No ints yet. It doesn't allocate.
    pub(crate) fn new(alloc: Global) -> Self
        ensures { (options : SpecTop) → HoldsBest options [] result }
    {
        Best {
            entries: Vec::new(alloc),
            last: None,
        }
    }

    /// Adds a copy of a value without its record, if it is an int that may be among the first.
    pub(crate) fn offer(
        &mut self,
        alloc: Global,
        options: &Top,
        value: Option<&Value>,
    ) -> Result<(), NoMemory>
        ensures { OnOk result ((given : List Pair) → HoldsBest options.now given self.old
            → HoldsBest options.now
            (given ++ offered (option_map (λ v. tree_of v.now) value.entry) None) self.new) }
    {
        match self.copy_wanted(alloc, options.order, value)? {
            Some(value) => self.push(alloc, options, Entry { value, row: None }),
            None => Ok(()),
        }
    }

    /// A copy of a value, if it is an int that may be among the first.
    pub(crate) fn copy_wanted(
        &self,
        alloc: Global,
        order: TopOrder,
        value: Option<&Value>,
    ) -> Result<Option<Value>, NoMemory>
        ensures { IfOk result (λ found. option_map tree_of found
            ≡ wanted_of order self.now.last (option_map (λ v. tree_of v.now) value.entry)) }
    {
        match value {
            Some(value) if self.wants(order, value) => Ok(Some(value.copy(alloc)?)),
            _ => Ok(None),
        }
    }

    /// Whether a value is an int that may be among the first.
    fn wants(&self, order: TopOrder, value: &Value) -> bool
        ensures { result ≡ is_wanted order self.now.last (tree_of value.now) }
    {
        match &self.last {
            Some(last) => is_int(value) && precedes(order, value, last),
            None => is_int(value),
        }
    }

    /// Adds an entry.
    pub(crate) fn push(
        &mut self,
        alloc: Global,
        options: &Top,
        entry: Entry,
    ) -> Result<(), NoMemory>
        ensures { OnOk result ((given : List Pair) → HoldsBest options.now given self.old
            → HoldsBest options.now (given ++ pair_of entry ∷ []) self.new) }
    {
        self.entries.push(entry)?;
        if self.entries.len() / 2 > (options.count as usize).saturating_add(8) {
            self.cut(alloc, options)?;
        }
        Ok(())
    }

    /// Drops the entries that follow the first.
    fn cut(&mut self, alloc: Global, options: &Top) -> Result<(), NoMemory>
        ensures { OnOk result ((given : List Pair) → HoldsBest options.now given self.old
            → HoldsBest options.now given self.new) }
    {
        trim(options, &mut self.entries)?;
        self.last = last_wanted(alloc, options.count, &self.entries)?;
        Ok(())
    }

    /// The first entries in order.
    pub(crate) fn into_first(self, options: &Top) -> Result<Vec<Entry>, NoMemory>
        ensures { IfOk result (λ first. map pair_of first.items
            ≡ first_pairs options.now (map pair_of self.entries.items)) }
    {
        let mut entries = self.into_entries();
        trim(options, &mut entries)?;
        Ok(entries)
    }

    /// All entries.
    fn into_entries(self) -> Vec<Entry>
        ensures { result ≡ self.entries }
    {
        let Best { entries, last: _ } = self;
        entries
    }
}

/// Whether a value is an int.
fn is_int(value: &Value) -> bool
    ensures { result ≡ is_int (tree_of value.now) }
{
    matches!(value, Value::Int(_))
}

/// Whether a value precedes another.
fn precedes(order: TopOrder, value: &Value, other: &Value) -> bool
    ensures { result ≡ is_lt (by_top order (tree_of value.now) (tree_of other.now)) }
{
    compare_by(order, value, other) == Ordering::Less
}

/// How two values compare.
fn compare_by(order: TopOrder, value: &Value, other: &Value) -> Ordering
    ensures { result ≡ by_top order (tree_of value.now) (tree_of other.now) }
{
    match order {
        TopOrder::Max => compare(Order::NumberDown, value, other),
        TopOrder::Min => compare(Order::Number, value, other),
    }
}

/// Sorts the entries, where those that tie keep their order, and drops those that follow the first.
fn trim(options: &Top, entries: &mut Vec<Entry>) -> Result<(), NoMemory>
    ensures { OnOk result (map pair_of entries.new.items
        ≡ first_pairs options.now (map pair_of entries.old.items)) }
{
    sort_entries(options.order, entries)?;
    entries.truncate(options.count as usize);
    Ok(())
}

/// Sorts the entries, where those that tie keep their order.
fn sort_entries(order: TopOrder, entries: &mut Vec<Entry>) -> Result<(), NoMemory>
    ensures { OnOk result (map pair_of entries.new.items
        ≡ in_order (by_value order) (map pair_of entries.old.items)) }
{
    sort_in_order(
        entries,
        |entry: &Entry, other: &Entry| -> Ordering
            ensures { result ≡ by_top order (tree_of entry.now.value)
                (tree_of other.now.value) }
        { compare_by(order, &entry.value, &other.value) },
    )
}

/// A copy of the last int, if there are as many as are wanted.
fn last_wanted(alloc: Global, count: u64, entries: &[Entry]) -> Result<Option<Value>, NoMemory>
    ensures { IfOk result (λ found. (last : Value) → found ≡ Some last
        → IsLastWanted count (map pair_of entries.now) (tree_of last)) }
{
    let Some(place) = (count as usize).checked_sub(1) else {
        return Ok(None);
    };
    match entries.get(place) {
        Some(entry) => Ok(Some(entry.value.copy(alloc)?)),
        None => Ok(None),
    }
}
