//! Reads a line of NIDX.
ghost use Rattle.std.specs.Prelude.{◌≡◌, ◌-◌, ◌^◌, ◌<◌, [], None, length, IfOk, OnOk};
ghost use Rattle.std.specs.Fmt.{decimal};
ghost use Rattle.mlr_spec.specs.Pairs.{value_at};
ghost use Rattle.read_dkvp_nidx.specs.Nidx.{nidx_record, by_position, words_of};
ghost use Rattle.read_dkvp_nidx.specs.Pieces.{with_word, position_after};
ghost use Rattle.read_dkvp_nidx.specs.Row.{row_items};

use crate::room::Room;
use crate::row::Row;
use itoa::Buffer;
use mlr_event::ReadOpts;
use mlr_record::Record;
use mlr_record::split::next_part;
use mlr_spec::NoMemory;
use mlr_value::from_data;
use std::alloc::Global;

/// The record of a line; nothing if the line has no value.
#[inline(never)]
pub(crate) fn nidx_row(
    alloc: Global,
    opts: &ReadOpts,
    room: &mut Room,
    line: &[u8],
) -> Result<Row, NoMemory>
    requires ifs { 0 < length opts.now.ifs }
    requires length { length line.now < 2 ^ 63 }
    ensures { IfOk result (λ row. row_items row
        ≡ nidx_record opts.now (words_of opts.now.ifs line.now)) }
{
    let mut record = room.empty_record(alloc)?;
    put_words(alloc, opts, line, &mut record)?;
    if record.len() == 0 {
        return Ok(Row::Nothing);
    }
    room.keep(&record);
    Ok(Row::Fields(record))
}

/// Adds the values of a line to an empty record.
fn put_words(
    alloc: Global,
    opts: &ReadOpts,
    line: &[u8],
    record: &mut Record,
) -> Result<(), NoMemory>
    requires ifs { 0 < length opts.now.ifs }
    requires length { length line.now < 2 ^ 63 }
    requires empty { record.old ≡ [] }
    ensures { OnOk result (record.new ≡ by_position opts.now 1 (words_of opts.now.ifs line.now)) }
{
    let mut position = 1;
    let mut left = line;
    loop {
        let (word, rest) = next_part(opts.ifs.as_slice(), left);
        position = put_word(alloc, opts, position, word, record)?;
        match rest {
            None => return Ok(()),
            Some(rest) => left = rest,
        }
    }
}

/// Adds a value at this position to the record, unless it is empty, and returns the next position.
fn put_word(
    alloc: Global,
    opts: &ReadOpts,
    position: u64,
    word: &[u8],
    record: &mut Record,
) -> Result<u64, NoMemory>
    requires room { position < 2 ^ 64 - 1 }
    requires free { value_at (decimal position) record.old ≡ None }
    ensures record { OnOk result (record.new ≡ with_word opts.now position word.now record.old) }
    ensures position { IfOk result (λ next. next ≡ position_after position word.now) }
{
    if word.is_empty() {
        return Ok(position);
    }
    let value = from_data(alloc, word, opts.infer)?;
    let mut buffer = Buffer::new();
    record.push(buffer.format(position).as_bytes(), value)?;
    Ok(position + 1)
}
