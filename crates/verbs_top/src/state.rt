//! What `top` keeps of a group.
ghost use Rattle.std.specs.Prelude.{◌≡◌, ◌++◌, ◌∷◌, ◌-◌, ◌^◌, ◌<◌, [], List, Some, length, map, IfOk, OnOk, slice_index_or};
ghost use Rattle.std.specs.List.{range_with_len};
ghost use Rattle.std.specs.Option.{option_to_list, unwrap_or};
ghost use Rattle.mlr_spec.specs.Pairs.{put_each, value_at};
ghost use Rattle.mlr_spec.specs.Tree.{empty};
ghost use Rattle.mlr_value.specs.Value.{tree_of};
ghost use Rattle.mlr_event.specs.declared.event.Ctx.{Ctx as SpecCtx};
ghost use Rattle.stat_base.specs.Outputs.{output_name};
ghost use Rattle.verbs_base.specs.Choosing.{picked};
ghost use Rattle.verbs_base.specs.Records.{Row, events_of};
ghost use Rattle.verbs_top.specs.Best.{HoldsBest, Pair, offered, pair_of};
ghost use Rattle.verbs_top.specs.State.{HoldColumns, column_of, first_trees, longest, made_fields, output_names, place_rows, rows_in, trees_in};
ghost use Rattle.verbs_top.specs.Top.{top_gives};
ghost use Rattle.verbs_top.specs.declared.top.Top.{Top as SpecTop};

use crate::best::{Best, Entry, Held};
use crate::top::Top;
use group_state::{AtEnd, OfGroup, count_value};
use mlr_event::{Ctx, Event, Events, Names};
use mlr_record::Record;
use mlr_spec::NoMemory;
use mlr_value::{Bytes, Value};
use stat_base::output_name;
use std::alloc::Global;
use std::mem::replace;
use std::sync::Arc;
use verbs_base::pick_named;

/// The first ints of a group.
#[derive(Drop)]
pub struct TopState {
    options: Arc<Top>,
    /// The grouping fields of the first record, unless records are given.
    first: Option<Record>,
    /// The first ints of each field, unless records are given.
    columns: Vec<Best>,
    /// The first ints of the first field with their records, where records are given.
    rows: Best,
}

impl TopState {
    /// No records yet. It allocates for its options, which all groups share.
    pub(crate) fn new(alloc: Global, options: Top) -> Result<Self, NoMemory>
        ensures gives { IfOk result (λ made. ⟦<TopState as AtEnd>⟧.gives made ≡ top_gives options) }
        ensures holds { IfOk result (λ made. ⟦<TopState as AtEnd>⟧.holds made []) }
    {
        let columns = no_columns(alloc, &options.names)?;
        Ok(TopState {
            options: Arc::new(alloc, options)?,
            first: None,
            columns,
            rows: Best::new(alloc),
        })
    }
}

impl AtEnd for TopState {
    ghost use Rattle.std.specs.Arc.{arc_value};
    ghost use Rattle.verbs_top.specs.State.{TopHolds};
    ghost use Rattle.verbs_top.specs.Top.{top_gives};

    ghost gives = { λ s. top_gives (arc_value s.options) };

    ghost holds = { TopHolds };

    fn add(&mut self, alloc: Global, fields: Record, ctx: Ctx) -> Result<(), NoMemory> {
        if self.options.whole {
            return add_row(alloc, &self.options, &mut self.rows, fields, ctx);
        }
        add_values(alloc, &self.options, &mut self.columns, &fields)?;
        if self.first.is_none() {
            self.first = Some(group_fields(alloc, &self.options.groups, fields)?);
        }
        Ok(())
    }

    fn finish(&mut self, alloc: Global, ctx: Ctx, out: &mut Events) -> Result<(), NoMemory> {
        if self.options.whole {
            let rows = replace(&mut self.rows, Best::new(alloc));
            return push_rows(rows.into_first(&self.options)?, out);
        }
        let first = fields_or_none(alloc, self.first.take())?;
        let columns = replace(&mut self.columns, Vec::new(alloc));
        push_values(alloc, &self.options, &first, columns, ctx, out)
    }
}

impl OfGroup for TopState {
    fn fresh(&self, alloc: Global) -> Result<Self, NoMemory> {
        Ok(TopState {
            options: self.options.clone()?,
            first: None,
            columns: no_columns(alloc, &self.options.names)?,
            rows: Best::new(alloc),
        })
    }
}

/// No ints yet, for each of these fields.
fn no_columns(alloc: Global, names: &Names) -> Result<Vec<Best>, NoMemory>
    ensures { IfOk result (λ columns. (options : SpecTop)
        → HoldColumns options (map (λ name. column_of name []) names.now) columns.items) }
{
    let mut columns = Vec::with_capacity(alloc, names.len())?;
    for _ in names.as_slice() {
        columns.push(Best::new(alloc))?;
    }
    Ok(columns)
}

/// Adds a record, if it has an int in the first of the fields.
fn add_row(
    alloc: Global,
    options: &Top,
    rows: &mut Best,
    fields: Record,
    ctx: Ctx,
) -> Result<(), NoMemory>
    ensures { OnOk result ((given : List Pair) → HoldsBest options.now given rows.old
        → HoldsBest options.now (given ++ offered
        (value_at (slice_index_or options.now.names 0 []) fields) (Some (fields, ctx))) rows.new) }
{
    let name = first_name(&options.names);
    let Some(value) = rows.copy_wanted(alloc, options.order, fields.get(name))? else {
        return Ok(());
    };
    let row = Box::new(alloc, Held { fields, ctx })?;
    rows.push(
        alloc,
        options,
        Entry {
            value,
            row: Some(row),
        },
    )
}

/// The first of some names, or the empty one.
fn first_name(names: &Names) -> &[u8]
    ensures { result.now ≡ slice_index_or names.now 0 [] }
{
    match names.at(0) {
        Some(name) => name.as_slice(),
        None => b"",
    }
}

/// Adds the ints of a record.
fn add_values(
    alloc: Global,
    options: &Top,
    columns: &mut Vec<Best>,
    fields: &Record,
) -> Result<(), NoMemory>
    requires { length columns.old.items ≡ length options.now.names }
    ensures { OnOk result ((rows : List Row) (ctx : SpecCtx)
        → HoldColumns options.now (map (λ name. column_of name rows) options.now.names)
        columns.old.items
        → HoldColumns options.now (map (λ name. column_of name (rows ++ (fields.now, ctx) ∷ []))
        options.now.names) columns.new.items) }
{
    for (place, name) in options.names.as_slice().iter().enumerate() {
        columns[place].offer(alloc, options, fields.get(name.as_slice()))?;
    }
    Ok(())
}

/// The grouping fields of a record.
fn group_fields(alloc: Global, groups: &Option<Names>, fields: Record) -> Result<Record, NoMemory>
    ensures { IfOk result (λ made. made ≡ picked (unwrap_or groups.now []) fields) }
{
    match groups {
        Some(names) => Ok(pick_named(names, fields)),
        None => Record::new(alloc),
    }
}

/// These fields, or none where there are none.
fn fields_or_none(alloc: Global, first: Option<Record>) -> Result<Record, NoMemory>
    ensures { IfOk result (λ fields. fields ≡ unwrap_or first []) }
{
    match first {
        Some(fields) => Ok(fields),
        None => Record::new(alloc),
    }
}

/// Appends the records of the entries.
fn push_rows(entries: Vec<Entry>, out: &mut Events) -> Result<(), NoMemory>
    ensures { OnOk result (out.new ≡ out.old
        ++ events_of (rows_in (map pair_of entries.items))) }
{
    for entry in entries {
        push_row(entry, out)?;
    }
    Ok(())
}

/// Appends the record of an entry, if it has one.
fn push_row(entry: Entry, out: &mut Events) -> Result<(), NoMemory>
    ensures { OnOk result (out.new ≡ out.old ++ events_of (option_to_list (pair_of entry).1)) }
{
    let Entry { value: _, row } = entry;
    let Some(row) = row else {
        return Ok(());
    };
    let Held { fields, ctx } = Box::into_inner(row);
    out.push(Event::Rec(fields, ctx))
}

/// Appends the records of the first ints of each field.
fn push_values(
    alloc: Global,
    options: &Top,
    first: &Record,
    columns: Vec<Best>,
    ctx: Ctx,
    out: &mut Events,
) -> Result<(), NoMemory>
    ensures { OnOk result (out.new ≡ out.old ++ events_of (place_rows options.now first.now
        (map (first_trees options.now) columns.items) ctx)) }
{
    let lists = first_lists(alloc, options, columns)?;
    let outputs = output_names(alloc, &options.names)?;
    push_places(alloc, options, first, &outputs, &lists, ctx, out)
}

/// The first ints of each field in order.
fn first_lists(
    alloc: Global,
    options: &Top,
    columns: Vec<Best>,
) -> Result<Vec<Vec<Entry>>, NoMemory>
    ensures { IfOk result (λ lists. map trees_in lists.items
        ≡ map (first_trees options.now) columns.items) }
{
    let mut lists = Vec::with_capacity(alloc, columns.len())?;
    for best in columns {
        lists.push(best.into_first(options)?)?;
    }
    Ok(lists)
}

/// The names of the fields that are made for these.
fn output_names(alloc: Global, names: &Names) -> Result<Vec<Bytes>, NoMemory>
    ensures { IfOk result (λ made. made.items ≡ output_names names.now) }
{
    let mut outputs = Vec::with_capacity(alloc, names.len())?;
    for name in names.as_slice() {
        outputs.push(output_name(alloc, name.as_slice(), b"top")?)?;
    }
    Ok(outputs)
}

/// Appends a record for each place.
fn push_places(
    alloc: Global,
    options: &Top,
    first: &Record,
    outputs: &[Bytes],
    lists: &[Vec<Entry>],
    ctx: Ctx,
    out: &mut Events,
) -> Result<(), NoMemory>
    ensures { OnOk result (out.new ≡ out.old ++ events_of (map
        (λ place. (
          put_each first.now (made_fields options.now.output outputs.now
              (map trees_in lists.now) place),
          ctx,
        ))
        (range_with_len 0 (longest (map trees_in lists.now))))) }
{
    for place in 0..longest(lists) {
        let made = place_record(alloc, &options.output, first, outputs, lists, place)?;
        out.push(Event::Rec(made, ctx))?;
    }
    Ok(())
}

/// The most ints that a field has.
fn longest(lists: &[Vec<Entry>]) -> usize
    ensures most { result ≡ longest (map trees_in lists.now) }
    ensures bounded { result < 2 ^ 63 }
{
    let mut most = 0;
    for list in lists {
        most = most.max(list.len());
    }
    most
}

/// The record for a place, which counts from 0: the grouping fields, then the place from 1 up, and each field's int at
/// the place.
fn place_record(
    alloc: Global,
    output: &Bytes,
    first: &Record,
    outputs: &[Bytes],
    lists: &[Vec<Entry>],
    place: usize,
) -> Result<Record, NoMemory>
    requires { place < 2 ^ 63 - 1 }
    ensures { IfOk result (λ made. made ≡ put_each first.now
        (made_fields output.now outputs.now (map trees_in lists.now) place)) }
{
    let mut made = first.copy()?;
    made.put(output.as_slice(), count_value(alloc, place as u64 + 1))?;
    for (column, name) in outputs.iter().enumerate() {
        made.put(name.as_slice(), int_at(alloc, lists, column, place)?)?;
    }
    Ok(made)
}

/// The int of a field at a place, or an empty value if it has fewer.
fn int_at(
    alloc: Global,
    lists: &[Vec<Entry>],
    column: usize,
    place: usize,
) -> Result<Value, NoMemory>
    ensures { IfOk result (λ value. tree_of value
        ≡ slice_index_or (slice_index_or (map trees_in lists.now) column []) place empty) }
{
    let Some(list) = lists.get(column) else {
        return Ok(Value::Empty);
    };
    match list.get(place) {
        Some(entry) => entry.value.copy(alloc),
        None => Ok(Value::Empty),
    }
}
