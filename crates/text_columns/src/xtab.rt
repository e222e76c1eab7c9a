//! XTAB: a line for each field of a record.
ghost use Rattle.std.specs.Prelude.{◌≡◌, ◌++◌, OnOk};
ghost use Rattle.std.specs.List.{flat_map};
ghost use Rattle.mlr_record.specs.Fields.{pair_of, pairs_of};
ghost use Rattle.text_columns.specs.Xtab.{longest_key, xtab_line, xtab_lines};

use crate::padding::append_gap;
use crate::width::count_points;
use mlr_record::{Field, Record};
use mlr_spec::NoMemory;
use mlr_value::Bytes;
use text_forms::{append_shown, held_bytes};

/// Appends a line for each field, with the values in one column. It takes memory where the text grows.
pub fn append_xtab(fields: &Record, out: &mut Bytes) -> Result<(), NoMemory>
    ensures { OnOk result (out.new ≡ out.old ++ xtab_lines fields.now) }
{
    let fields = fields.fields();
    append_lines(longest_key(fields), fields, out)
}

/// How many code points the longest key has.
fn longest_key(fields: &[Field]) -> usize
    ensures { result ≡ longest_key (pairs_of fields.now) }
{
    let mut width = 0;
    for field in fields {
        width = width.max(count_points(field.name.as_slice()));
    }
    width
}

fn append_lines(width: usize, fields: &[Field], out: &mut Bytes) -> Result<(), NoMemory>
    ensures { OnOk result (out.new ≡ out.old ++ flat_map (xtab_line width) (pairs_of fields.now)) }
{
    for field in fields {
        append_line(width, field, out)?;
    }
    Ok(())
}

#[inline(always)]
fn append_line(width: usize, field: &Field, out: &mut Bytes) -> Result<(), NoMemory>
    ensures { OnOk result (out.new ≡ out.old ++ xtab_line width (pair_of field.now)) }
{
    out.append_then(&field.name, None)?;
    append_gap(count_points(field.name.as_slice()), width, out)?;
    match held_bytes(&field.value) {
        Some(text) => out.append_then(text, Some(b'\n')),
        None => {
            append_shown(&field.value, out)?;
            out.push(b'\n')
        }
    }
}
