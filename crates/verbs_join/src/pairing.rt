//! Pairs of a left record and a right one.
ghost use Rattle.std.specs.Prelude.{◌≡◌, ◌<◌, ◌++◌, ◌∷◌, [], List, Some, drop, length, map, slice_get, IfOk, OnOk};
ghost use Rattle.std.specs.List.{filter_map, zip};
ghost use Rattle.mlr_record.specs.Fields.{pair_of as field_of};
ghost use Rattle.mlr_spec.specs.Pairs.{put_at, put_each};
ghost use Rattle.mlr_value.specs.Value.{tree_of};
ghost use Rattle.verbs_base.specs.Choosing.{dropped};
ghost use Rattle.verbs_base.specs.Records.{Fields as Pairs, with_context};
ghost use Rattle.verbs_join.specs.Join.{joined, joined_field, pair_of, prefix_for, prefixed};
ghost use Rattle.verbs_join.specs.Naming.{prefix_by};
ghost use Rattle.verbs_join.specs.Places.{at_places};

use crate::join::Join;
use crate::naming::Naming;
use mlr_event::{Ctx, Event, Events, Names};
use mlr_fields::{Fields, few};
use mlr_record::{Field, Record};
use mlr_spec::NoMemory;
use mlr_value::{Bytes, Value};
use std::alloc::Global;
use verbs_base::is_named;

/// The pair of a left record and a right one.
pub(crate) fn pair(
    alloc: Global,
    options: &Join,
    left: &Record,
    right: &Record,
) -> Result<Record, NoMemory>
    ensures { IfOk result (λ made. made ≡ pair_of options.now left.now right.now) }
{
    let mut made = Fields::new(Record::new(alloc)?);
    put_joined(alloc, options, left, &mut made)?;
    put_lefts(alloc, options, left, right, &mut made)?;
    put_rights(alloc, options, left, right, &mut made)?;
    Ok(made.into_record())
}

/// Puts the left record's other fields into a record.
fn put_lefts(
    alloc: Global,
    options: &Join,
    left: &Record,
    right: &Record,
    into: &mut Fields,
) -> Result<(), NoMemory>
    ensures { OnOk result (into.new ≡ put_each into.old
        (prefixed (prefix_for options.now.left_prefix (dropped options.now.right right.now))
        (dropped options.now.left left.now))) }
{
    let naming = Naming::new(alloc, options.left_prefix.as_ref(), &options.right, right)?;
    put_others(alloc, &options.left, &naming, left, into)
}

/// Puts the right record's other fields into a record.
fn put_rights(
    alloc: Global,
    options: &Join,
    left: &Record,
    right: &Record,
    into: &mut Fields,
) -> Result<(), NoMemory>
    ensures { OnOk result (into.new ≡ put_each into.old
        (prefixed (prefix_for options.now.right_prefix (dropped options.now.left left.now))
        (dropped options.now.right right.now))) }
{
    let naming = Naming::new(alloc, options.right_prefix.as_ref(), &options.left, left)?;
    put_others(alloc, &options.right, &naming, right, into)
}

/// Appends the pairs of the left records at these places with a right one, which is copied, with this context.
pub(crate) fn push_copied(
    alloc: Global,
    options: &Join,
    lefts: &[Record],
    places: &[usize],
    right: &Record,
    ctx: Ctx,
    out: &mut Events,
) -> Result<(), NoMemory>
    requires { (found : List Pairs) × at_places lefts.now places.now ≡ map Some found }
    ensures { OnOk result ((found : List Pairs) → at_places lefts.now places.now ≡ map Some found
        → out.new ≡ out.old ++ with_context ctx
        (map (λ left. pair_of options.now left right.now) found)) }
{
    for place in places {
        let made = pair(alloc, options, record_at(lefts, *place), right)?;
        out.push(Event::Rec(made, ctx))?;
    }
    Ok(())
}

/// The record at a place.
#[inline]
pub(crate) fn record_at(records: &[Record], place: usize) -> &Record
    requires { place < length records.now }
    ensures { slice_get records.now place ≡ Some result.now }
{
    &records[place]
}

/// Puts the join fields of a pair into a record.
pub(crate) fn put_joined(
    alloc: Global,
    options: &Join,
    left: &Record,
    into: &mut Fields,
) -> Result<(), NoMemory>
    ensures { OnOk result (into.new ≡ put_each into.old (joined options.now left.now)) }
{
    for (place, output) in options.output.as_slice().iter().enumerate() {
        put_joined_field(alloc, options, place, output, left, into)?;
    }
    Ok(())
}

/// Puts the join field at a place into a record, under the name that it has in a pair.
fn put_joined_field(
    alloc: Global,
    options: &Join,
    place: usize,
    output: &Bytes,
    left: &Record,
    into: &mut Fields,
) -> Result<(), NoMemory>
    ensures { OnOk result (into.new ≡ put_each into.old
        (filter_map (joined_field left.now)
        (zip (output.now ∷ []) (drop place options.now.left)))) }
{
    let Some(name) = options.left.at(place) else {
        return Ok(());
    };
    match left.get(name.as_slice()) {
        Some(value) => put(alloc, output, value, into),
        None => Ok(()),
    }
}

/// Puts the fields of a record that aren't join fields into another.
pub(crate) fn put_others(
    alloc: Global,
    join: &Names,
    naming: &Naming<'_>,
    from: &Record,
    into: &mut Fields,
) -> Result<(), NoMemory>
    ensures { OnOk result (into.new ≡ put_each into.old
        (prefixed (prefix_by naming.now) (dropped join.now from.now))) }
{
    for field in from.fields() {
        put_other(alloc, join, naming, field, into)?;
    }
    Ok(())
}

/// Puts a field into a record, unless it is a join field.
fn put_other(
    alloc: Global,
    join: &Names,
    naming: &Naming<'_>,
    field: &Field,
    into: &mut Fields,
) -> Result<(), NoMemory>
    ensures { OnOk result (into.new ≡ put_each into.old
        (prefixed (prefix_by naming.now) (dropped join.now (field_of field.now ∷ [])))) }
{
    if is_named(join, &field.name) {
        return Ok(());
    }
    let Some(prefix) = naming.prefix(&field.name) else {
        return put(alloc, &field.name, &field.value, into);
    };
    let mut name = prefix.copy()?;
    name.append(field.name.as_slice())?;
    put(alloc, &name, &field.value, into)
}

/// Puts a copy of a value into a record, under a name.
fn put(alloc: Global, name: &Bytes, value: &Value, into: &mut Fields) -> Result<(), NoMemory>
    ensures { OnOk result (into.new ≡ put_at name.now (tree_of value.now) into.old) }
{
    few(into.len())?;
    into.put(alloc, name.as_slice(), value.copy(alloc)?, false)
}
