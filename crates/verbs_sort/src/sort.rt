//! `sort`: the records in order, by the values of some of their fields.
ghost use Rattle.std.specs.Prelude.{◌≡◌, ◌++◌, [], List, true, false, map, IfOk, OnOk, MatchOption, slice_index_or};
ghost use Rattle.std.specs.List.{AllByRecursion};
ghost use Rattle.mlr_spec.specs.Order.{order_of};
ghost use Rattle.mlr_spec.specs.Tree.{absent};
ghost use Rattle.mlr_value.specs.Value.{tree_of};
ghost use Rattle.mlr_event.specs.declared.event.Ctx.{Ctx as SpecCtx};
ghost use Rattle.mlr_sort.specs.InOrder.{in_order};
ghost use Rattle.verbs_base.specs.Records.{Row, events_of};
ghost use Rattle.verbs_sort.specs.Kept.{HasValues, Keyed, SortHolds, compare_values, held_row, keys_in, row_of, trees_in, trees_of, values_in};
ghost use Rattle.verbs_sort.specs.Sort.{compare_by, has_keys, keys_of_flags, sorted_rows};

use crate::in_order::compare_in;
use group_state::AtEnd;
use mlr_event::{Ctx, Event, Events, Names};
use mlr_list::List;
use mlr_record::Record;
use mlr_sort::sort_in_order;
use mlr_spec::{NoMemory, Order};
use mlr_value::{Bytes, Value, compare};
use std::alloc::Global;
use std::cmp::Ordering;
use std::mem::replace;

/// A flag of `sort`: an order, and the fields that it compares.
#[derive(Drop)]
pub struct SortFlag {
    pub order: Order,
    pub names: Names,
}

impl SortFlag {
    /// A copy. It allocates for the names.
    fn copy(&self) -> Result<Self, NoMemory>
        ensures { IfOk result (λ copy. copy ≡ self.now) }
    {
        Ok(SortFlag {
            order: self.order,
            names: self.names.copy()?,
        })
    }
}

/// The options of `sort`: its flags in their order, of which an earlier one counts first.
#[derive(Drop)]
pub struct Sort {
    pub flags: List<SortFlag>,
}

impl Sort {
    /// A copy. It allocates for the flags and their names.
    pub fn copy(&self, alloc: Global) -> Result<Self, NoMemory>
        ensures { IfOk result (λ copy. copy ≡ self.now) }
    {
        let mut flags = List::new(alloc);
        for flag in self.flags.as_slice() {
            flags.push(flag.copy()?)?;
        }
        Ok(Sort { flags })
    }
}

/// A field that is compared, and its order.
#[derive(Drop)]
struct SortKey {
    order: Order,
    name: Bytes,
}

/// A record with its context.
#[derive(Drop)]
struct Held {
    fields: Record,
    ctx: Ctx,
}

/// Copies of the values of a record's key fields, in the order of the keys. The first two lie in the entry itself, so that a sort
/// by two keys looks nowhere else.
#[derive(Drop)]
struct KeyValues {
    first: Value,
    second: Value,
    more: Vec<Value>,
}

/// A record that has all key fields, with their values.
#[derive(Drop)]
struct Entry {
    values: KeyValues,
    row: Held,
}

/// What `sort` keeps: the records that have all key fields, and the others.
#[derive(Drop)]
pub struct SortRows {
    alloc: Global,
    keys: Vec<SortKey>,
    entries: Vec<Entry>,
    others: Vec<Held>,
}

impl SortRows {
    /// No records yet. It allocates for the list of the keys, later for the records and their key values, and to sort.
    pub fn new(alloc: Global, options: Sort) -> Result<Self, NoMemory>
        ensures gives { IfOk result (λ made. ⟦<SortRows as AtEnd>⟧.gives made
            ≡ (λ rows ctx. sorted_rows (keys_of_flags options.flags) rows)) }
        ensures holds { IfOk result (λ made. ⟦<SortRows as AtEnd>⟧.holds made []) }
    {
        Ok(SortRows {
            alloc,
            keys: keys_of(alloc, options.flags)?,
            entries: Vec::new(alloc),
            others: Vec::new(alloc),
        })
    }
}

impl AtEnd for SortRows {
    ghost use Rattle.verbs_sort.specs.Kept.{SortHolds, keys_in};
    ghost use Rattle.verbs_sort.specs.Sort.{sorted_rows};

    ghost gives = { λ s rows ctx. sorted_rows (keys_in s.keys.items) rows };

    ghost holds = { SortHolds };

    fn add(&mut self, alloc: Global, fields: Record, ctx: Ctx) -> Result<(), NoMemory> {
        match key_values(alloc, &self.keys, &fields)? {
            Some(values) => {
                let row = Held { fields, ctx };
                self.entries.push(Entry { values, row })?;
            }
            None => self.others.push(Held { fields, ctx })?,
        }
        Ok(())
    }

    fn finish(&mut self, _: Global, _: Ctx, out: &mut Events) -> Result<(), NoMemory> {
        let mut entries = replace(&mut self.entries, Vec::new(self.alloc));
        let others = replace(&mut self.others, Vec::new(self.alloc));
        sort_entries(&self.keys, &mut entries)?;
        push_entries(entries, out)?;
        push_others(others, out)
    }
}

/// The fields of all flags in their order, each with the order of its flag.
fn keys_of(alloc: Global, flags: List<SortFlag>) -> Result<Vec<SortKey>, NoMemory>
    ensures { IfOk result (λ keys. keys_in keys.items ≡ keys_of_flags flags) }
{
    let mut keys = Vec::new(alloc);
    for flag in flags.into_vec() {
        push_keys(flag, &mut keys)?;
    }
    Ok(keys)
}

/// Appends the fields of a flag.
fn push_keys(flag: SortFlag, keys: &mut Vec<SortKey>) -> Result<(), NoMemory>
    ensures { OnOk result (keys_in keys.new.items
        ≡ keys_in keys.old.items ++ map (λ name. (flag.order, name)) flag.names) }
{
    let SortFlag { order, names } = flag;
    for name in names.into_vec() {
        keys.push(SortKey { order, name })?;
    }
    Ok(())
}

/// Copies of the values of all key fields, if the record has them all. Where there are fewer than two keys, the values of those
/// that aren't there are absent.
fn key_values(
    alloc: Global,
    keys: &[SortKey],
    fields: &Record,
) -> Result<Option<KeyValues>, NoMemory>
    ensures { IfOk result (λ found. MatchOption found
        (has_keys (keys_in keys.now) fields.now ≡ false)
        (λ values. (has_keys (keys_in keys.now) fields.now ≡ true)
        × HasValues (keys_in keys.now) fields.now (trees_of values))) }
{
    let Some((key, keys)) = keys.split_first() else {
        return Ok(Some(KeyValues {
            first: Value::Absent,
            second: Value::Absent,
            more: Vec::new(alloc),
        }));
    };
    let Some(first) = fields.get(key.name.as_slice()) else {
        return Ok(None);
    };
    let Some((key, keys)) = keys.split_first() else {
        return Ok(Some(KeyValues {
            first: first.copy(alloc)?,
            second: Value::Absent,
            more: Vec::new(alloc),
        }));
    };
    let Some(second) = fields.get(key.name.as_slice()) else {
        return Ok(None);
    };
    let Some(more) = values_of(alloc, keys, fields)? else {
        return Ok(None);
    };
    Ok(Some(KeyValues {
        first: first.copy(alloc)?,
        second: second.copy(alloc)?,
        more,
    }))
}

/// Copies of the values of these fields, if the record has them all.
fn values_of(
    alloc: Global,
    keys: &[SortKey],
    fields: &Record,
) -> Result<Option<Vec<Value>>, NoMemory>
    ensures { IfOk result (λ found. MatchOption found
        (has_keys (keys_in keys.now) fields.now ≡ false)
        (λ values. (has_keys (keys_in keys.now) fields.now ≡ true)
        × (trees_in values.items ≡ values_in (keys_in keys.now) fields.now))) }
{
    let mut values = Vec::with_capacity(alloc, keys.len())?;
    for key in keys {
        let Some(value) = fields.get(key.name.as_slice()) else {
            return Ok(None);
        };
        values.push(value.copy(alloc)?)?;
    }
    Ok(Some(values))
}

/// Sorts the entries, where those that tie keep their order.
fn sort_entries(keys: &[SortKey], entries: &mut Vec<Entry>) -> Result<(), NoMemory>
    ensures { OnOk result (AllByRecursion (Keyed (keys_in keys.now)) entries.old.items
        → map row_of entries.new.items ≡ in_order
        (λ row other. compare_by (keys_in keys.now) row.0 other.0)
        (map row_of entries.old.items)) }
{
    sort_in_order(
        entries,
        |entry: &Entry, other: &Entry| -> Ordering
            ensures { result ≡ compare_values (keys_in keys.entry.now)
                (trees_of entry.now.values) (trees_of other.now.values) }
        { compare_entries(keys, &entry.values, &other.values) },
    )
}

/// How the values of two records compare: by the first two that an order tells apart.
#[inline(always)]
fn compare_entries(keys: &[SortKey], values: &KeyValues, others: &KeyValues) -> Ordering
    ensures { result ≡ compare_values (keys_in keys.now) (trees_of values.now)
        (trees_of others.now) }
{
    let Some((key, keys)) = keys.split_first() else {
        return Ordering::Equal;
    };
    let order = compare_in(key.order, &values.first, &others.first);
    if order != Ordering::Equal {
        return order;
    }
    let Some((key, keys)) = keys.split_first() else {
        return Ordering::Equal;
    };
    let order = compare_in(key.order, &values.second, &others.second);
    if order != Ordering::Equal {
        return order;
    }
    compare_values(keys, &values.more, &others.more)
}

/// How two lists of values compare: by the first two that an order tells apart.
fn compare_values(keys: &[SortKey], values: &[Value], others: &[Value]) -> Ordering
    ensures { result ≡ compare_values (keys_in keys.now) (trees_in values.now)
        (trees_in others.now) }
{
    for (place, key) in keys.iter().enumerate() {
        let order = compare_at(key.order, place, values, others);
        if order != Ordering::Equal {
            return order;
        }
    }
    Ordering::Equal
}

/// How the values at a place compare, where one that isn't there is absent.
#[inline]
fn compare_at(order: Order, place: usize, values: &[Value], others: &[Value]) -> Ordering
    ensures { result ≡ order_of order (slice_index_or (trees_in values.now) place absent)
        (slice_index_or (trees_in others.now) place absent) }
{
    if let (Some(value), Some(other)) = (values.get(place), others.get(place)) {
        return compare_in(order, value, other);
    }
    let absent = Value::Absent;
    compare(
        order,
        values.get(place).unwrap_or(&absent),
        others.get(place).unwrap_or(&absent),
    )
}

/// Appends the records of the entries.
fn push_entries(entries: Vec<Entry>, out: &mut Events) -> Result<(), NoMemory>
    ensures { OnOk result (out.new ≡ out.old ++ events_of (map row_of entries.items)) }
{
    for entry in entries {
        let Held { fields, ctx } = entry.row;
        out.push(Event::Rec(fields, ctx))?;
    }
    Ok(())
}

/// Appends the records that lack a key field.
fn push_others(others: Vec<Held>, out: &mut Events) -> Result<(), NoMemory>
    ensures { OnOk result (out.new ≡ out.old
        ++ events_of (map held_row others.items)) }
{
    for row in others {
        let Held { fields, ctx } = row;
        out.push(Event::Rec(fields, ctx))?;
    }
    Ok(())
}
