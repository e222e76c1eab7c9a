//! Rows of unquoted fields, as most are: each field gets its name while it is read.
ghost use Rattle.std.specs.Prelude.{◌≡◌, ◌+◌, ◌<◌, ◌≤◌, ◌++◌, ◌∷◌, [], length, take, IfOk, OnOk, vec_len, vec_capacity};
ghost use Rattle.std.specs.List.{zip};
ghost use Rattle.std.specs.Option.{option_map};
ghost use Rattle.mlr_spec.specs.Infer.{tree_of_data};
ghost use Rattle.mlr_record.specs.Fields.{pairs_of};
ghost use Rattle.read_csv.specs.OpenRow.{csv_reading, no_row, row_with, values_in};
ghost use Rattle.read_csv.specs.Naming.{left_reading, with_values};

use crate::csv::starts_quoted;
use crate::separators::{AnyWidth, OneByte, Separators};
use mlr_event::ReadOpts;
use mlr_record::Field;
use mlr_spec::{InferOpts, NoMemory};
use mlr_value::{Bytes, from_data_first};
use std::alloc::Global;

/// Reads the fields of a row up to the first quoted one, each under the name of its place, as long as there are
/// names. Returns the text that remains, unless the row has ended.
pub(crate) fn take_plain<'t>(
    alloc: Global,
    opts: &ReadOpts,
    names: &[Bytes],
    fields: &mut Vec<Field>,
    text: &'t [u8],
) -> Result<Option<&'t [u8]>, NoMemory>
    requires ifs { 0 < length opts.now.ifs }
    requires empty { fields.old.items ≡ [] }
    ensures names { OnOk result (pairs_of fields.new.items
        ≡ zip (take (vec_len fields.new) names.now) (values_in fields.new.items)) }
    ensures values { IfOk result (λ left. row_with opts.now.infer
        (with_values (values_in fields.new.items))
        (left_reading opts.now.ifs (option_map (λ rest. rest.now) left))
        ≡ row_with opts.now.infer no_row (csv_reading opts.now.ifs text.now)) }
{
    fields.reserve(names.len())?;
    let separator = opts.ifs.as_slice();
    if separator.len() == 1 {
        let byte = separator[0];
        take_between(alloc, opts, OneByte { byte }, names, fields, text)
    } else {
        take_between(alloc, opts, AnyWidth { separator }, names, fields, text)
    }
}

/// Reads the fields between these separators, as `take_plain` does.
fn take_between<'t, S: Separators + Drop>(
    alloc: Global,
    opts: &ReadOpts,
    separators: S,
    names: &[Bytes],
    fields: &mut Vec<Field>,
    text: &'t [u8],
) -> Result<Option<&'t [u8]>, NoMemory>
    requires ifs { 0 < length opts.now.ifs }
    requires separators { S.separator separators ≡ opts.now.ifs }
    requires empty { fields.old.items ≡ [] }
    requires room { length names.now ≤ vec_capacity fields.old }
    ensures names { OnOk result (pairs_of fields.new.items
        ≡ zip (take (vec_len fields.new) names.now) (values_in fields.new.items)) }
    ensures values { IfOk result (λ left. row_with opts.now.infer
        (with_values (values_in fields.new.items))
        (left_reading opts.now.ifs (option_map (λ rest. rest.now) left))
        ≡ row_with opts.now.infer no_row (csv_reading opts.now.ifs text.now)) }
{
    let mut from = 0;
    for name in names {
        let left = &text[from..];
        if starts_quoted(left) {
            return Ok(Some(left));
        }
        let Some(len) = separators.field_len(text, from) else {
            push_first(alloc, opts.infer, name, left, left.len(), fields)?;
            return Ok(None);
        };
        push_first(alloc, opts.infer, name, left, len, fields)?;
        from += len + separators.width();
    }
    Ok(Some(&text[from..]))
}

/// Appends a field of this name, of the first `len` bytes of the text.
#[inline(always)]
fn push_first(
    alloc: Global,
    infer: InferOpts,
    name: &Bytes,
    text: &[u8],
    len: usize,
    fields: &mut Vec<Field>,
) -> Result<(), NoMemory>
    requires len { len ≤ length text.now }
    requires room { vec_len fields.old < vec_capacity fields.old }
    ensures values { OnOk result (values_in fields.new.items ≡ values_in fields.old.items
        ++ tree_of_data infer (take len text.now) ∷ []) }
    ensures pairs { OnOk result (pairs_of fields.new.items ≡ pairs_of fields.old.items
        ++ (name.now, tree_of_data infer (take len text.now)) ∷ []) }
    ensures len { OnOk result (vec_len fields.new ≡ vec_len fields.old + 1) }
    ensures capacity { OnOk result (vec_capacity fields.new ≡ vec_capacity fields.old) }
{
    let name = name.copy()?;
    let value = from_data_first(alloc, text, len, infer)?;
    fields.push_reserved(Field { name, value });
    Ok(())
}
