//! `unsparsify`: each record with the fields of all.
ghost use Rattle.std.specs.Prelude.{◌≡◌, ◌++◌, [], true, map, IfOk, OnOk};
ghost use Rattle.std.specs.List.{fold, list_all};
ghost use Rattle.mlr_spec.specs.Pairs.{are_distinct, keys_of};
ghost use Rattle.mlr_groups.specs.Keys.{entered};
ghost use Rattle.verbs_hold.specs.ByPlace.{has_all_in, no_values, trees_of};
ghost use Rattle.verbs_hold.specs.Unsparsify.{filled, unsparsify_rows};
ghost use Rattle.verbs_hold.specs.WithFields.{with_fields};

use crate::by_place::{filled_record, no_values};
use group_state::{AtEnd, OfAll};
use mlr_event::{Ctx, Event, Events, Names};
use mlr_groups::KeyTable;
use mlr_record::Record;
use mlr_spec::NoMemory;
use mlr_value::{Bytes, Value};
use std::alloc::Global;
use std::mem::replace;
use verbs_base::Stateful;

/// The options of `unsparsify`.
#[derive(Drop)]
pub struct Unsparsify {
    /// The value of a missing field, which is a string.
    pub fill: Bytes,
    /// `-f`: the fields that are filled in at once, rather than those of all records at the end.
    pub names: Option<Names>,
}

impl Unsparsify {
    /// A copy. It allocates for the names, and for a text of more than 20 bytes.
    pub fn copy(&self, alloc: Global) -> Result<Self, NoMemory>
        ensures { IfOk result (λ copy. copy ≡ self.now) }
    {
        Ok(Unsparsify {
            fill: Bytes::copy_of(alloc, self.fill.as_slice())?,
            names: self.names.as_ref().map(Names::copy).transpose()?,
        })
    }
}

/// The verb `unsparsify` without names.
pub type UnsparsifyVerb = OfAll<UnsparsifyRows>;

/// The verb before the first record. It doesn't allocate.
pub fn unsparsify_rows(alloc: Global, fill: Bytes) -> UnsparsifyVerb
    ensures meaning { ⟦<UnsparsifyVerb as Stateful>⟧.meaning result ≡ unsparsify_rows fill }
    ensures represents { ⟦<UnsparsifyVerb as Stateful>⟧.represents result [] }
{
    let state = UnsparsifyRows {
        fill,
        seen: KeyTable::new(alloc),
        names: Names::new(alloc),
        rows: Events::new(alloc),
    };
    OfAll { alloc, state }
}

/// The records so far and their names.
#[derive(Drop)]
pub struct UnsparsifyRows {
    fill: Bytes,
    seen: KeyTable,
    /// The names that were seen, in the order in which they came first.
    names: Names,
    rows: Events,
}

impl AtEnd for UnsparsifyRows {
    ghost use Rattle.std.specs.Prelude.{◌≡◌};
    ghost use Rattle.verbs_base.specs.Records.{events_of};
    ghost use Rattle.verbs_hold.specs.Unsparsify.{all_names, filled_rows};

    ghost gives = { λ s rows ctx. filled_rows s.fill rows };

    ghost holds = { λ s rows. (s.rows ≡ events_of rows) × (s.seen ≡ all_names rows)
        × (s.names ≡ all_names rows) };

    fn add(&mut self, alloc: Global, fields: Record, ctx: Ctx) -> Result<(), NoMemory> {
        add_names(alloc, &fields, &mut self.seen, &mut self.names)?;
        self.rows.push(Event::Rec(fields, ctx))?;
        Ok(())
    }

    fn finish(&mut self, alloc: Global, _: Ctx, out: &mut Events) -> Result<(), NoMemory> {
        let rows = replace(&mut self.rows, Events::new(alloc));
        push_filled(
            alloc,
            self.fill.as_slice(),
            &mut self.seen,
            self.names.as_slice(),
            rows,
            out,
        )
    }
}

/// Appends these records, each with all these fields. The table holds the names, among which are those of the records.
fn push_filled(
    alloc: Global,
    fill: &[u8],
    table: &mut KeyTable,
    names: &[Bytes],
    rows: Events,
    out: &mut Events,
) -> Result<(), NoMemory>
    requires table { table.old ≡ names.now }
    requires distinct { are_distinct names.now ≡ true }
    requires known { list_all (has_all_in names.now) rows ≡ true }
    ensures { OnOk result (out.new ≡ out.old ++ map (with_fields (filled fill.now names.now)) rows) }
{
    let mut values = no_values(alloc, names)?;
    for event in rows.into_vec() {
        out.push(filled(alloc, fill, table, names, &mut values, event)?)?;
    }
    Ok(())
}

/// Adds the names of a record's fields to those that were seen.
fn add_names(
    alloc: Global,
    fields: &Record,
    seen: &mut KeyTable,
    names: &mut Names,
) -> Result<(), NoMemory>
    requires { seen.old ≡ names.old }
    ensures seen { OnOk result (seen.new ≡ fold entered seen.old (keys_of fields.now)) }
    ensures names { OnOk result (names.new ≡ seen.new) }
{
    for field in fields.fields() {
        add_name(alloc, field.name.as_slice(), seen, names)?;
    }
    Ok(())
}

/// Adds a name to those that were seen, unless it is among them.
fn add_name(
    alloc: Global,
    name: &[u8],
    seen: &mut KeyTable,
    names: &mut Names,
) -> Result<(), NoMemory>
    requires { seen.old ≡ names.old }
    ensures seen { OnOk result (seen.new ≡ entered seen.old name.now) }
    ensures names { OnOk result (names.new ≡ seen.new) }
{
    let count = seen.len();
    seen.enter(name)?;
    if seen.len() > count {
        names.push(Bytes::copy_of(alloc, name)?)?;
    }
    Ok(())
}

/// The record in an event with all these fields; another event as it is.
fn filled(
    alloc: Global,
    fill: &[u8],
    table: &mut KeyTable,
    names: &[Bytes],
    values: &mut [Option<Value>],
    event: Event,
) -> Result<Event, NoMemory>
    requires table { table.old ≡ names.now }
    requires distinct { are_distinct names.now ≡ true }
    requires free { trees_of values.old ≡ no_values names.now }
    requires known { has_all_in names.now event ≡ true }
    ensures table { table.new ≡ table.old }
    ensures free { OnOk result (trees_of values.new ≡ no_values names.now) }
    ensures made { IfOk result (λ made. made ≡ with_fields (filled fill.now names.now) event) }
{
    match event {
        Event::Rec(fields, ctx) => {
            let made = filled_record(alloc, fill, table, names, values, fields)?;
            Ok(Event::Rec(made, ctx))
        }
        other => Ok(other),
    }
}
