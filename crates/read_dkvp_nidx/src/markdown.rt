//! Reads a line of a Markdown table.
ghost use Rattle.std.specs.Prelude.{◌≡◌, ◌^◌, ◌<◌, [], Some, length, map, true, IfOk, OnOk};
ghost use Rattle.std.specs.List.{zip};
ghost use Rattle.mlr_spec.specs.Infer.{tree_of_data};
ghost use Rattle.mlr_spec.specs.Pairs.{are_distinct};
ghost use Rattle.mlr_event.specs.Reading.{record_of};
ghost use Rattle.read_dkvp_nidx.specs.Markdown.{row};
ghost use Rattle.read_dkvp_nidx.specs.MarkdownLines.{block_after, markdown_row, row_block, row_items as items_in_block, under};
ghost use Rattle.read_dkvp_nidx.specs.Row.{block_of, place_of, row_items};

use crate::block::Block;
use crate::cells::{are_rules, cells_of};
use crate::row::Row;
use mlr_event::rows::push_text;
use mlr_event::{Fault, FileRef, ReadOpts};
use mlr_fields::{Fields, Header};
use mlr_record::Record;
use mlr_spec::NoMemory;
use mlr_value::Bytes;
use std::alloc::Global;
use std::mem;

/// The file of a row, and the number of its line.
#[derive(Clone, Copy)]
pub(crate) struct Place {
    pub(crate) file: FileRef,
    pub(crate) line: u64,
}

/// The outcome of a line; sets `block` to the place of the next line.
#[inline(never)]
pub(crate) fn markdown_row(
    alloc: Global,
    opts: &ReadOpts,
    place: Place,
    block: &mut Block,
    line: &[u8],
) -> Result<Row, NoMemory>
    ensures items { IfOk result (λ row. row_items row
        ≡ markdown_row opts.now place.file place.line (block_of block.old) line.now) }
    ensures block { OnOk result (block.new ≡ place_of (block_after (block_of block.old) line.now)) }
{
    if line.is_empty() {
        *block = Block::Outside;
        return Ok(Row::Nothing);
    }
    match cells_of(alloc, line)? {
        None => Ok(Row::Fault(Fault::Table {
            file: place.file,
            line: place.line,
        })),
        Some(cells) => table_row(alloc, opts, place, block, cells),
    }
}

fn table_row(
    alloc: Global,
    opts: &ReadOpts,
    place: Place,
    block: &mut Block,
    cells: Vec<Bytes>,
) -> Result<Row, NoMemory>
    ensures items { IfOk result (λ row. row_items row
        ≡ items_in_block opts.now place.file place.line (block_of block.old) (Some cells.items)) }
    ensures block { OnOk result (block.new ≡ place_of
        (row_block (block_of block.old) (Some cells.items))) }
{
    let (row, next) = match mem::replace(block, Block::Outside) {
        Block::Outside => (Row::Nothing, Block::Under(Header::new(alloc, cells)?)),
        Block::Under(header) => (
            rule_row(opts, place, &header, cells.as_slice()),
            Block::Within(header),
        ),
        Block::Within(header) => (
            cells_row(alloc, opts, place, &header, cells.as_slice())?,
            Block::Within(header),
        ),
    };
    *block = next;
    Ok(row)
}

/// The outcome of the line under a header: nothing, or a fault.
fn rule_row(opts: &ReadOpts, place: Place, header: &Header, cells: &[Bytes]) -> Row
    ensures { row_items result ≡ items_in_block opts.now place.file place.line (under header.now)
        (Some cells.now) }
{
    if !are_rules(cells) {
        return Row::Fault(Fault::Table {
            file: place.file,
            line: place.line,
        });
    }
    if cells.len() == header.len() {
        Row::Nothing
    } else {
        Row::Fault(length_fault(place, header, cells))
    }
}

/// The outcome of a line under the rule: a record, or a fault.
fn cells_row(
    alloc: Global,
    opts: &ReadOpts,
    place: Place,
    header: &Header,
    cells: &[Bytes],
) -> Result<Row, NoMemory>
    ensures { IfOk result (λ made. row_items made
        ≡ row opts.now place.file place.line header.now cells.now) }
{
    if cells.len() != header.len() {
        return Ok(Row::Fault(length_fault(place, header, cells)));
    }
    Ok(Row::Fields(cells_record(alloc, opts, header, cells)?))
}

/// The record of the cells. There is one for each name of the header.
fn cells_record(
    alloc: Global,
    opts: &ReadOpts,
    header: &Header,
    cells: &[Bytes],
) -> Result<Record, NoMemory>
    requires { length cells.now ≡ length header.now }
    ensures { IfOk result (λ made. made ≡ record_of opts.now.dedupe header.now
        (map (tree_of_data opts.now.infer) cells.now)) }
{
    if opts.dedupe {
        let mut record = Record::new(alloc)?;
        push_cells(alloc, opts, header.keys(), cells, &mut record)?;
        Ok(record)
    } else {
        let mut record = Fields::new(Record::new(alloc)?);
        put_cells(alloc, opts, header.names(), cells, &mut record)?;
        Ok(record.into_record())
    }
}

/// Adds the cells under names that are distinct.
fn push_cells(
    alloc: Global,
    opts: &ReadOpts,
    names: &[Bytes],
    cells: &[Bytes],
    record: &mut Record,
) -> Result<(), NoMemory>
    requires distinct { are_distinct names.now ≡ true }
    requires same { length cells.now ≡ length names.now }
    requires empty { record.old ≡ [] }
    ensures { OnOk result (record.new ≡ zip names.now
        (map (tree_of_data opts.now.infer) cells.now)) }
{
    for (i, cell) in cells.iter().enumerate() {
        push_text(alloc, opts, names[i].as_slice(), cell.as_slice(), record)?;
    }
    Ok(())
}

/// Adds the cells under names that may repeat; the last cell of a name remains.
fn put_cells(
    alloc: Global,
    opts: &ReadOpts,
    names: &[Bytes],
    cells: &[Bytes],
    record: &mut Fields,
) -> Result<(), NoMemory>
    requires length { length cells.now < 2 ^ 63 }
    requires same { length cells.now ≡ length names.now }
    requires empty { record.old ≡ [] }
    ensures { OnOk result (record.new ≡ record_of opts.now.dedupe names.now
        (map (tree_of_data opts.now.infer) cells.now)) }
{
    for (i, cell) in cells.iter().enumerate() {
        record.put_text(alloc, opts, names[i].as_slice(), cell.as_slice())?;
    }
    Ok(())
}

fn length_fault(place: Place, header: &Header, cells: &[Bytes]) -> Fault
    ensures { result ≡ Fault.Length place.file place.line (length header.now) (length cells.now) }
{
    Fault::Length {
        file: place.file,
        line: place.line,
        want: header.len() as u64,
        have: cells.len() as u64,
    }
}
