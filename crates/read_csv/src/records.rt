//! Makes records of a header and the fields of a row.
ghost use Rattle.std.specs.Prelude.{◌≡◌, ◌+◌, ◌-◌, ◌<◌, ◌≤◌, ◌^◌, ◌∷◌, [], length, map, take, drop, IfOk, OnOk, vec_len};
ghost use Rattle.std.specs.List.{zip};
ghost use Rattle.mlr_event.specs.Reading.{distinct_names, record_of};
ghost use Rattle.mlr_event.specs.Rows.{with_fields};
ghost use Rattle.mlr_spec.specs.Tree.{text_of};
ghost use Rattle.mlr_value.specs.Value.{tree_of};
ghost use Rattle.mlr_record.specs.Fields.{pairs_of};
ghost use Rattle.read_csv.specs.Rows.{positions_from, row_keys};
ghost use Rattle.read_csv.specs.OpenRow.{values_in};

use crate::heading::Heading;
use itoa::Buffer;
use mlr_fields::{Fields, Header, few};
use mlr_record::{Field, Record};
use mlr_spec::NoMemory;
use mlr_value::{Bytes, Value, append_text};
use std::alloc::Global;
use std::mem;

/// The record of a row of these fields, which it moves out of `fields`.
pub(crate) fn record_of_row(
    alloc: Global,
    dedupe: bool,
    header: &Heading,
    fields: &mut Vec<Field>,
) -> Result<Record, NoMemory>
    ensures made { IfOk result (λ made. made ≡ record_of dedupe
        (row_keys header.now (vec_len fields.old)) (values_in fields.old.items)) }
    ensures empty { OnOk result (fields.new.items ≡ []) }
{
    few(fields.len())?;
    let names = header.header();
    let distinct = dedupe | header.is_distinct();
    if distinct && fields.len() == names.len() {
        return full_record(alloc, names, fields);
    }
    other_record(alloc, dedupe, header, fields)
}

/// The record of a row that has fewer or more values than the header, or names that repeat.
#[inline(never)]
fn other_record(
    alloc: Global,
    dedupe: bool,
    header: &Heading,
    fields: &mut Vec<Field>,
) -> Result<Record, NoMemory>
    requires { vec_len fields.old < 2 ^ 62 }
    ensures made { IfOk result (λ made. made ≡ record_of dedupe
        (row_keys header.now (vec_len fields.old)) (values_in fields.old.items)) }
    ensures empty { OnOk result (fields.new.items ≡ []) }
{
    let names = header.header();
    let distinct = dedupe | header.is_distinct();
    let mut record = Fields::new(Record::new(alloc)?);
    let named = fields.len().min(names.len());
    put_named(alloc, distinct, names, fields, named, &mut record)?;
    put_surplus(alloc, dedupe, fields, named, &mut record)?;
    fields.clear();
    Ok(record.into_record())
}

/// The record of a row that has a value for each name of the header, under the distinct names.
fn full_record(alloc: Global, names: &Header, fields: &mut Vec<Field>) -> Result<Record, NoMemory>
    requires full { length names.now ≡ vec_len fields.old }
    requires few { length names.now < 2 ^ 62 }
    ensures made { IfOk result (λ made. made ≡ zip (distinct_names names.now)
        (values_in fields.old.items)) }
    ensures empty { OnOk result (fields.new.items ≡ []) }
{
    name_fields(names.keys(), fields)?;
    named_record(alloc, names, fields)
}

/// The record of a row whose fields have the distinct names of the header. It takes the row's vector over, and
/// leaves one of the same room.
#[inline]
pub(crate) fn named_record(
    alloc: Global,
    names: &Header,
    fields: &mut Vec<Field>,
) -> Result<Record, NoMemory>
    requires full { length names.now ≡ vec_len fields.old }
    requires few { length names.now < 2 ^ 62 }
    requires named { pairs_of fields.old.items ≡ zip (distinct_names names.now)
        (values_in fields.old.items) }
    ensures made { IfOk result (λ made. made ≡ zip (distinct_names names.now)
        (values_in fields.old.items)) }
    ensures empty { OnOk result (fields.new.items ≡ []) }
{
    let room = Vec::with_capacity(alloc, fields.len())?;
    Ok(Record::of_fields(alloc, mem::replace(fields, room)))
}

/// Gives each field the name of its place.
#[inline]
fn name_fields(names: &[Bytes], fields: &mut [Field]) -> Result<(), NoMemory>
    requires { length names.now ≡ length fields.old }
    ensures pairs { OnOk result (pairs_of fields.new ≡ zip names.now (values_in fields.old)) }
    ensures values { OnOk result (values_in fields.new ≡ values_in fields.old) }
{
    for place in 0..fields.len() {
        fields[place].name = names[place].copy()?;
    }
    Ok(())
}

/// Moves the first `named` values into an empty record, under the names of the header. With `dedupe` each
/// name is distinct, so no search is needed; else the last value of a repeated name remains.
fn put_named(
    alloc: Global,
    dedupe: bool,
    header: &Header,
    fields: &mut Vec<Field>,
    named: usize,
    into: &mut Fields,
) -> Result<(), NoMemory>
    requires values { named ≤ vec_len fields.old }
    requires names { named ≤ length header.now }
    requires few { length header.now < 2 ^ 62 }
    requires empty { into.old ≡ [] }
    ensures fields { OnOk result (into.new ≡ with_fields dedupe [] (take named header.now)
        (take named (values_in fields.old.items))) }
    ensures rest { OnOk result (values_in (drop named fields.new.items)
        ≡ values_in (drop named fields.old.items)) }
    ensures len { OnOk result (vec_len fields.new ≡ vec_len fields.old) }
{
    for place in 0..named {
        let value = taken(fields, place);
        if dedupe {
            into.push(header.key(place), value)?;
        } else {
            into.put(alloc, header.name(place), value, false)?;
        }
    }
    Ok(())
}

/// Moves the values from place `named` on into the record, each under its position.
fn put_surplus(
    alloc: Global,
    dedupe: bool,
    fields: &mut Vec<Field>,
    named: usize,
    into: &mut Fields,
) -> Result<(), NoMemory>
    requires few { vec_len fields.old < 2 ^ 62 }
    requires into { length into.old ≤ named }
    ensures { OnOk result (into.new ≡ with_fields dedupe into.old
        (positions_from (named + 1) (vec_len fields.old - named))
        (values_in (drop named fields.old.items))) }
{
    for place in named..fields.len() {
        let value = taken(fields, place);
        let mut buffer = Buffer::new();
        into.put(alloc, buffer.format(place + 1).as_bytes(), value, dedupe)?;
    }
    Ok(())
}

/// Moves the value out of the field at this place.
#[inline]
fn taken(fields: &mut Vec<Field>, place: usize) -> Value
    requires { place < vec_len fields.old }
    ensures value { values_in (drop place fields.old.items)
        ≡ tree_of result ∷ values_in (drop (place + 1) fields.new.items) }
    ensures len { vec_len fields.new ≡ vec_len fields.old }
{
    mem::replace(&mut fields[place].value, Value::Empty)
}

/// The keys 1, 2, 3 and so on, up to `count`.
pub(crate) fn positions(alloc: Global, count: usize) -> Result<Vec<Bytes>, NoMemory>
    ensures { IfOk result (λ made. made.items ≡ positions_from 1 count) }
{
    few(count)?;
    let mut made = Vec::with_capacity(alloc, count)?;
    for place in 0..count {
        let mut buffer = Buffer::new();
        made.push(Bytes::copy_of(alloc, buffer.format(place + 1).as_bytes())?)?;
    }
    Ok(made)
}

/// The texts from which the values of these fields were read.
pub(crate) fn texts(alloc: Global, fields: &[Field]) -> Result<Vec<Bytes>, NoMemory>
    ensures { IfOk result (λ made. made.items ≡ map text_of (values_in fields.now)) }
{
    let mut made = Vec::with_capacity(alloc, fields.len())?;
    for field in fields {
        let mut text = Bytes::new(alloc);
        append_text(&field.value, &mut text)?;
        made.push(text)?;
    }
    Ok(made)
}
