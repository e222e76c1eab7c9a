//! Lines of cells written as compact bytes: the number of the cells, and then the length and the text of each.
ghost use Rattle.std.specs.Prelude.{◌≡◌, ◌++◌, ◌∷◌, OnOk};
ghost use Rattle.std.specs.Int.{w64, to_le_bytes};
ghost use Rattle.std.specs.List.{flat_map};
ghost use Rattle.mlr_value.specs.Value.{tree_of};
ghost use Rattle.text_forms.specs.Shown.{shown};
ghost use Rattle.mlr_record.specs.Fields.{pairs_of};
ghost use Rattle.mlr_spec.specs.Pairs.{keys_of};
ghost use Rattle.text_columns.specs.Chunks.{cell_code, length_code, line_code};
ghost use Rattle.text_columns.specs.Pprint.{values_of};

use mlr_record::Field;
use mlr_spec::NoMemory;
use mlr_value::{Bytes, Value};
use std::alloc::Global;
use text_forms::{held_bytes, shown};

/// The byte that precedes a number of eight bytes. Each smaller one is a number itself.
const LONG: u8 = 255;

/// Appends the line of the keys of a record.
pub(crate) fn append_keys(fields: &[Field], line: &mut Bytes) -> Result<(), NoMemory>
    ensures { OnOk result (line.new ≡ line.old ++ line_code (keys_of (pairs_of fields.now))) }
{
    append_length(fields.len(), line)?;
    for field in fields {
        append_cell(&field.name, line)?;
    }
    Ok(())
}

/// Appends the line of the values of a record.
pub(crate) fn append_values(
    alloc: Global,
    fields: &[Field],
    line: &mut Bytes,
) -> Result<(), NoMemory>
    ensures { OnOk result (line.new ≡ line.old ++ line_code (values_of (pairs_of fields.now))) }
{
    append_length(fields.len(), line)?;
    for field in fields {
        append_value(alloc, &field.value, line)?;
    }
    Ok(())
}

/// Appends the cell of a value.
#[inline(always)]
fn append_value(alloc: Global, value: &Value, line: &mut Bytes) -> Result<(), NoMemory>
    ensures { OnOk result (line.new ≡ line.old ++ cell_code (shown (tree_of value.now))) }
{
    match held_bytes(value) {
        Some(text) => append_cell(text, line),
        None => append_printed(alloc, value, line),
    }
}

/// Appends the cell of a value that is empty or doesn't hold its text.
#[inline(never)]
fn append_printed(alloc: Global, value: &Value, line: &mut Bytes) -> Result<(), NoMemory>
    ensures { OnOk result (line.new ≡ line.old ++ cell_code (shown (tree_of value.now))) }
{
    let text = shown(alloc, value)?;
    append_cell(&text, line)
}

/// Appends the cell of a text.
#[inline(always)]
fn append_cell(text: &Bytes, line: &mut Bytes) -> Result<(), NoMemory>
    ensures { OnOk result (line.new ≡ line.old ++ cell_code text.now) }
{
    append_length(text.len(), line)?;
    line.append_then(text, None)
}

/// Appends a number of cells or of bytes.
#[inline(always)]
fn append_length(length: usize, line: &mut Bytes) -> Result<(), NoMemory>
    ensures { OnOk result (line.new ≡ line.old ++ length_code length) }
{
    if length < LONG as usize {
        line.push(length as u8)
    } else {
        append_long_length(length, line)
    }
}

/// Appends a number that one byte doesn't hold.
#[inline(never)]
fn append_long_length(length: usize, line: &mut Bytes) -> Result<(), NoMemory>
    ensures { OnOk result (line.new ≡ line.old ++ LONG ∷ to_le_bytes w64 length) }
{
    line.push(LONG)?;
    line.append(&(length as u64).to_le_bytes())
}
