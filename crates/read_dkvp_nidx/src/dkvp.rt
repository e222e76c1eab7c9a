//! Reads a line of DKVP.
ghost use Rattle.std.specs.Prelude.{◌≡◌, ◌^◌, ◌<◌, [], length, IfOk, OnOk};
ghost use Rattle.std.specs.Fmt.{decimal};
ghost use Rattle.mlr_spec.specs.Infer.{tree_of_data};
ghost use Rattle.mlr_spec.specs.Split.{split_by};
ghost use Rattle.mlr_event.specs.Reading.{record_of};
ghost use Rattle.mlr_event.specs.Rows.{with_field};
ghost use Rattle.read_dkvp_nidx.specs.Dkvp.{dkvp_record, keys_from, values_from};
ghost use Rattle.read_dkvp_nidx.specs.Pieces.{with_piece};
ghost use Rattle.read_dkvp_nidx.specs.Row.{row_items};

use crate::room::Room;
use crate::row::Row;
use itoa::Buffer;
use mlr_event::ReadOpts;
use mlr_fields::Fields;
use mlr_record::split::{next_part, separator_place};
use mlr_spec::NoMemory;
use std::alloc::Global;

/// The record of a line; nothing if the line is empty.
pub(crate) fn dkvp_row(
    alloc: Global,
    opts: &ReadOpts,
    room: &mut Room,
    line: &[u8],
) -> Result<Row, NoMemory>
    requires ifs { 0 < length opts.now.ifs }
    requires ips { 0 < length opts.now.ips }
    requires length { length line.now < 2 ^ 63 }
    ensures { IfOk result (λ row. row_items row ≡ dkvp_record opts.now line.now) }
{
    if line.is_empty() {
        return Ok(Row::Nothing);
    }
    let mut fields = Fields::new(room.empty_record(alloc)?);
    put_pieces(alloc, opts, line, &mut fields)?;
    let record = fields.into_record();
    room.keep(&record);
    Ok(Row::Fields(record))
}

/// Adds the fields of a line to an empty record.
fn put_pieces(
    alloc: Global,
    opts: &ReadOpts,
    line: &[u8],
    record: &mut Fields,
) -> Result<(), NoMemory>
    requires ifs { 0 < length opts.now.ifs }
    requires ips { 0 < length opts.now.ips }
    requires length { length line.now < 2 ^ 63 }
    requires empty { record.old ≡ [] }
    ensures { OnOk result (record.new ≡ record_of opts.now.dedupe
        (keys_from opts.now.ips 1 (split_by opts.now.ifs line.now))
        (values_from opts.now (split_by opts.now.ifs line.now))) }
{
    let ifs = opts.ifs.as_slice();
    let ips = opts.ips.as_slice();
    let mut position = 1;
    let mut left = line;
    loop {
        let (piece, rest) = next_part(ifs, left);
        put_piece(alloc, opts, ips, position, piece, record)?;
        match rest {
            None => return Ok(()),
            Some(rest) => left = rest,
        }
        position += 1;
    }
}

/// Adds the field at this position to the record, unless its text is empty.
#[inline(always)]
fn put_piece(
    alloc: Global,
    opts: &ReadOpts,
    ips: &[u8],
    position: u64,
    piece: &[u8],
    record: &mut Fields,
) -> Result<(), NoMemory>
    requires is_ips { ips.now ≡ opts.now.ips }
    requires ips { 0 < length opts.now.ips }
    requires room { length record.old < 2 ^ 63 }
    ensures { OnOk result (record.new ≡ with_piece opts.now position piece.now record.old) }
{
    if piece.is_empty() {
        return Ok(());
    }
    match separator_place(ips, piece) {
        Some(place) => {
            let value = &piece[place + ips.len()..];
            record.put_text(alloc, opts, &piece[..place], value)
        }
        None => put_unnamed(alloc, opts, position, piece, record),
    }
}

/// Adds a field without key to the record, under its position.
#[cold]
#[inline(never)]
fn put_unnamed(
    alloc: Global,
    opts: &ReadOpts,
    position: u64,
    value: &[u8],
    record: &mut Fields,
) -> Result<(), NoMemory>
    requires { length record.old < 2 ^ 63 }
    ensures { OnOk result (record.new ≡ with_field opts.now.dedupe (decimal position)
        (tree_of_data opts.now.infer value.now) record.old) }
{
    let mut buffer = Buffer::new();
    record.put_text(alloc, opts, buffer.format(position).as_bytes(), value)
}
