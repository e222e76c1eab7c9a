//! PPRINT: how a block is written.
ghost use Rattle.std.specs.Prelude.{◌≡◌, ◌++◌, [], ◌≤◌, OnOk, IfOk, codes, drop, if◌then◌else◌, length, map, replicate, slice_index, take};
ghost use Rattle.std.specs.List.{flat_map};
ghost use Rattle.mlr_spec.specs.Json.{joined};
ghost use Rattle.text_columns.specs.Chunks.{after_cells, after_line, cells, first_line, lines_in, rows_in};
ghost use Rattle.text_columns.specs.Columns.{column_gap, column_text, in_columns};
ghost use Rattle.text_columns.specs.Pprint.{block_by, cell_text, dashes, pprint_header, pprint_line};

use crate::decode::{first_cell, first_length};
use crate::padding::{append_padding, append_repeated};
use crate::rows::Rows;
use crate::width::cell_width;
use mlr_spec::NoMemory;
use mlr_value::Bytes;
use std::alloc::Global;

/// Appends a block of the line of keys and of rows, in columns of these widths.
pub(crate) fn append_block(
    alloc: Global,
    barred: bool,
    headerless: bool,
    widths: &[usize],
    keys: &[u8],
    rows: &Rows,
    out: &mut Bytes,
) -> Result<(), NoMemory>
    ensures { OnOk result (out.new ≡ out.old ++ block_by barred headerless widths.now
        (first_line keys.now) (rows_in rows.now.full.items rows.now.last)) }
{
    append_dashes(barred, widths, out)?;
    append_header(alloc, barred, headerless, widths, keys, out)?;
    append_rows(alloc, barred, widths, rows, out)?;
    append_dashes(barred, widths, out)
}

fn append_header(
    alloc: Global,
    barred: bool,
    headerless: bool,
    widths: &[usize],
    keys: &[u8],
    out: &mut Bytes,
) -> Result<(), NoMemory>
    ensures { OnOk result (out.new ≡ out.old
        ++ pprint_header barred headerless widths.now (first_line keys.now)) }
{
    if headerless {
        return Ok(());
    }
    append_line(alloc, barred, widths, keys, out)?;
    append_dashes(barred, widths, out)
}

fn append_rows(
    alloc: Global,
    barred: bool,
    widths: &[usize],
    rows: &Rows,
    out: &mut Bytes,
) -> Result<(), NoMemory>
    ensures { OnOk result (out.new ≡ out.old ++ flat_map (pprint_line barred widths.now)
        (rows_in rows.now.full.items rows.now.last)) }
{
    for chunk in &rows.full {
        append_lines(alloc, barred, widths, chunk.bytes(), out)?;
    }
    append_lines(alloc, barred, widths, rows.last.bytes(), out)
}

/// Appends the lines that are held in the bytes.
fn append_lines(
    alloc: Global,
    barred: bool,
    widths: &[usize],
    bytes: &[u8],
    out: &mut Bytes,
) -> Result<(), NoMemory>
    ensures { OnOk result (out.new ≡ out.old
        ++ flat_map (pprint_line barred widths.now) (lines_in bytes.now)) }
{
    let mut rest = bytes;
    while !rest.is_empty() {
        rest = append_line(alloc, barred, widths, rest, out)?;
    }
    Ok(())
}

/// Appends the line that the bytes begin with, and returns the bytes after it.
#[inline]
fn append_line<'b>(
    alloc: Global,
    barred: bool,
    widths: &[usize],
    bytes: &'b [u8],
    out: &mut Bytes,
) -> Result<&'b [u8], NoMemory>
    ensures text { OnOk result (out.new ≡ out.old
        ++ pprint_line barred widths.now (first_line bytes.now)) }
    ensures rest { IfOk result (λ rest. rest.now ≡ after_line bytes.now) }
{
    let (count, cells) = first_length(bytes);
    if barred {
        out.append(b"| ")?;
        let rest = append_cells(alloc, true, widths, count, cells, out)?;
        out.append(b" |\n")?;
        Ok(rest)
    } else {
        let rest = append_cells(alloc, false, widths, count, cells, out)?;
        out.push(b'\n')?;
        Ok(rest)
    }
}

/// Appends so many cells that the bytes begin with, and returns the bytes after them.
#[inline(always)]
fn append_cells<'b>(
    alloc: Global,
    barred: bool,
    widths: &[usize],
    count: usize,
    bytes: &'b [u8],
    out: &mut Bytes,
) -> Result<&'b [u8], NoMemory>
    ensures text { OnOk result (out.new ≡ out.old
        ++ joined (column_gap barred) (in_columns barred widths.now (cells count bytes.now))) }
    ensures rest { IfOk result (λ rest. rest.now ≡ after_cells count bytes.now) }
{
    let mut rest = bytes;
    for column in 0..count {
        let (length, cell, following) = first_cell(rest);
        let more = column + 1 < count;
        let width = width_at(widths, column);
        append_column(alloc, barred, more, width, length, cell, out)?;
        rest = following;
    }
    Ok(rest)
}

/// Appends the cell of the text at the start of the bytes, with the spaces that fill its column and what precedes
/// the next one, if there are more.
#[inline(always)]
fn append_column(
    alloc: Global,
    barred: bool,
    more: bool,
    width: usize,
    size: usize,
    cell: &[u8],
    out: &mut Bytes,
) -> Result<(), NoMemory>
    requires { size ≤ length cell.now }
    ensures { OnOk result (out.new ≡ out.old
        ++ column_text barred more width (take size cell.now)) }
{
    append_cell_text(alloc, size, cell, out)?;
    if barred {
        append_padding(alloc, cell_width(&cell[..size]), width, None, out)?;
        append_bar(more, out)
    } else if more {
        append_padding(alloc, cell_width(&cell[..size]), width, Some(b' '), out)
    } else {
        Ok(())
    }
}

/// Appends the text at the start of the bytes, or a dash where it is empty. A short text is copied by its first 16 bytes,
/// in the same few moves whatever its length is.
#[inline(always)]
fn append_cell_text(
    alloc: Global,
    size: usize,
    cell: &[u8],
    out: &mut Bytes,
) -> Result<(), NoMemory>
    requires { size ≤ length cell.now }
    ensures { OnOk result (out.new ≡ out.old ++ cell_text (take size cell.now)) }
{
    if size == 0 {
        out.push(b'-')
    } else if size <= 16 {
        let text = Bytes::copy_of_first(alloc, cell, size)?;
        out.append_then(&text, None)
    } else {
        out.append(&cell[..size])
    }
}

/// Appends the bar between two columns, if there are more.
#[inline(always)]
fn append_bar(more: bool, out: &mut Bytes) -> Result<(), NoMemory>
    ensures { OnOk result (out.new ≡ out.old ++ (if more then codes " | " else [])) }
{
    if more { out.append(b" | ") } else { Ok(()) }
}

#[inline(always)]
fn width_at(widths: &[usize], column: usize) -> usize
    ensures { result ≡ slice_index widths.now column }
{
    if column < widths.len() {
        widths[column]
    } else {
        0
    }
}

/// Appends a line of dashes, if there are bars.
fn append_dashes(barred: bool, widths: &[usize], out: &mut Bytes) -> Result<(), NoMemory>
    ensures { OnOk result (out.new ≡ out.old ++ dashes barred widths.now) }
{
    if !barred {
        return Ok(());
    }
    out.append(b"+-")?;
    append_dash_columns(widths, out)?;
    out.append(b"-+\n")
}

fn append_dash_columns(widths: &[usize], out: &mut Bytes) -> Result<(), NoMemory>
    ensures { OnOk result (out.new ≡ out.old
        ++ joined (codes "-+-") (map (λ width. replicate width 45) widths.now)) }
{
    for (column, width) in widths.iter().enumerate() {
        if column > 0 {
            out.append(b"-+-")?;
        }
        append_repeated(b'-', *width, out)?;
    }
    Ok(())
}
