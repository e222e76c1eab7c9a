//! Reads the header and the rows of a PPRINT table.
ghost use Rattle.std.specs.Prelude.{◌≡◌, ◌^◌, ◌<◌, [], Some, length, map, true, IfOk, OnOk};
ghost use Rattle.std.specs.List.{zip};
ghost use Rattle.mlr_spec.specs.Infer.{tree_of_data};
ghost use Rattle.mlr_spec.specs.Pairs.{are_distinct};
ghost use Rattle.mlr_event.specs.Reading.{record_of};
ghost use Rattle.read_xtab_pprint.specs.Cells.{cells_in};
ghost use Rattle.read_xtab_pprint.specs.Pprint.{is_rule, row};
ghost use Rattle.read_xtab_pprint.specs.PprintRules.{cells_items, header_after};
ghost use Rattle.read_xtab_pprint.specs.PprintRules.{plain_header, plain_items, row_items};

use crate::cells::{copy_cells, count_cells, is_barred, next_cell};
use crate::row::Row;
use mlr_event::rows::push_text;
use mlr_event::{Fault, FileRef, ReadOpts};
use mlr_fields::{Fields, Header};
use mlr_record::Record;
use mlr_spec::NoMemory;
use mlr_value::Bytes;
use std::alloc::Global;
use std::mem;

/// The file of a row, and the number of its line.
#[derive(Clone, Copy)]
pub(crate) struct Place {
    pub(crate) file: FileRef,
    pub(crate) line: u64,
}

/// The outcome of a line that isn't a comment; sets `header` to the header of the next line.
pub(crate) fn table_row(
    alloc: Global,
    opts: &ReadOpts,
    place: Place,
    header: &mut Option<Header>,
    line: &[u8],
) -> Result<Row, NoMemory>
    ensures items { IfOk result (λ row. row_items row
        ≡ plain_items opts.now place.file place.line header.old line.now) }
    ensures header { OnOk result (header.new ≡ plain_header header.old line.now) }
{
    if line.is_empty() {
        *header = None;
        return Ok(Row::Nothing);
    }
    if is_rule(line) {
        return Ok(Row::Nothing);
    }
    match count_cells(line) {
        None => Ok(Row::Fault(Fault::Table {
            file: place.file,
            line: place.line,
        })),
        Some(count) => cells_row(alloc, opts, place, header, line, count),
    }
}

/// Whether the line is a rule of a table with bars: it begins with `+`.
fn is_rule(line: &[u8]) -> bool
    ensures { result ≡ is_rule line.now }
{
    match line {
        [first, ..] => *first == b'+',
        [] => false,
    }
}

/// The outcome of a line of `count` cells, which is the header or a row under it; sets `header` to the header
/// of the next line.
fn cells_row(
    alloc: Global,
    opts: &ReadOpts,
    place: Place,
    header: &mut Option<Header>,
    line: &[u8],
    count: usize,
) -> Result<Row, NoMemory>
    requires { count ≡ length (cells_in line.now) }
    ensures items { IfOk result (λ row. row_items row
        ≡ cells_items opts.now place.file place.line header.old (Some (cells_in line.now))) }
    ensures header { OnOk result (header.new ≡ header_after header.old (Some (cells_in line.now))) }
{
    let (row, next) = match mem::replace(header, None) {
        None => (Row::Nothing, Header::new(alloc, copy_cells(alloc, line)?)?),
        Some(known) => (row_under(alloc, opts, place, &known, line, count)?, known),
    };
    *header = Some(next);
    Ok(row)
}

/// The outcome of a row of `count` cells under a header: a record, or a fault.
fn row_under(
    alloc: Global,
    opts: &ReadOpts,
    place: Place,
    header: &Header,
    line: &[u8],
    count: usize,
) -> Result<Row, NoMemory>
    requires { count ≡ length (cells_in line.now) }
    ensures { IfOk result (λ made. row_items made
        ≡ row opts.now place.file place.line header.now (cells_in line.now)) }
{
    if count != header.len() {
        return Ok(Row::Fault(Fault::Length {
            file: place.file,
            line: place.line,
            want: header.len() as u64,
            have: count as u64,
        }));
    }
    Ok(Row::Fields(cells_record(alloc, opts, header, line)?))
}

/// The record of the cells of a line. There is one for each name of the header.
fn cells_record(
    alloc: Global,
    opts: &ReadOpts,
    header: &Header,
    line: &[u8],
) -> Result<Record, NoMemory>
    requires { length (cells_in line.now) ≡ length header.now }
    ensures { IfOk result (λ made. made ≡ record_of opts.now.dedupe header.now
        (map (tree_of_data opts.now.infer) (cells_in line.now))) }
{
    if opts.dedupe {
        let mut record = Record::new(alloc)?;
        push_cells(alloc, opts, header.keys(), line, &mut record)?;
        Ok(record)
    } else {
        let mut record = Fields::new(Record::new(alloc)?);
        put_cells(alloc, opts, header.names(), line, &mut record)?;
        Ok(record.into_record())
    }
}

/// Adds the cells under names that are distinct.
fn push_cells(
    alloc: Global,
    opts: &ReadOpts,
    names: &[Bytes],
    line: &[u8],
    record: &mut Record,
) -> Result<(), NoMemory>
    requires distinct { are_distinct names.now ≡ true }
    requires same { length (cells_in line.now) ≡ length names.now }
    requires empty { record.old ≡ [] }
    ensures { OnOk result (record.new ≡ zip names.now
        (map (tree_of_data opts.now.infer) (cells_in line.now))) }
{
    let barred = is_barred(line);
    let mut place = 0;
    let mut left = line;
    while let Some((cell, rest)) = next_cell(barred, left) {
        push_text(alloc, opts, names[place].as_slice(), cell, record)?;
        place += 1;
        left = rest;
    }
    Ok(())
}

/// Adds the cells under names that may repeat; the last cell of a name remains.
fn put_cells(
    alloc: Global,
    opts: &ReadOpts,
    header: &[Bytes],
    line: &[u8],
    record: &mut Fields,
) -> Result<(), NoMemory>
    requires length { length header.now < 2 ^ 63 }
    requires same { length (cells_in line.now) ≡ length header.now }
    requires empty { record.old ≡ [] }
    ensures { OnOk result (record.new ≡ record_of opts.now.dedupe header.now
        (map (tree_of_data opts.now.infer) (cells_in line.now))) }
{
    let barred = is_barred(line);
    let mut place = 0;
    let mut left = line;
    while let Some((cell, rest)) = next_cell(barred, left) {
        record.put_text(alloc, opts, header[place].as_slice(), cell)?;
        place += 1;
        left = rest;
    }
    Ok(())
}
