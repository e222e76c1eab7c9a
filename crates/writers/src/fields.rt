//! The fields of a record, one after another with a separator between them.
ghost use Rattle.std.specs.Prelude.{◌≡◌, ◌++◌, ◌∷◌, [], OnOk, if◌then◌else◌, map};
ghost use Rattle.std.specs.Option.{option_to_list};
ghost use Rattle.mlr_spec.specs.Ascii.{line_feed};
ghost use Rattle.mlr_spec.specs.Json.{joined};
ghost use Rattle.mlr_record.specs.Fields.{pairs_of};
ghost use Rattle.mlr_value.specs.Value.{tree_of};
ghost use Rattle.text_forms.specs.Shown.{shown};
ghost use Rattle.writers.specs.Joined.{separated};

use mlr_record::Field;
use mlr_spec::NoMemory;
use mlr_value::{Bytes, Value};
use text_forms::{append_shown, held_bytes};

/// A way of writing a field among the others of its record.
pub(crate) trait FieldText {
    ghost use Rattle.std.specs.Prelude.{◌≡◌, ◌++◌, ℕ, List, OnOk};
    ghost use Rattle.std.specs.Option.{option_to_list};
    ghost use Rattle.mlr_spec.specs.Tree.{Tree};
    ghost use Rattle.mlr_record.specs.Fields.{pair_of};

    /// The text of a field.
    ghost text: { Self → List ℕ × Tree → List ℕ };

    /// Appends the text of a field, and then the byte, if there is one. What a value prints that doesn't hold its text
    /// goes through `scratch`.
    fn append_field(
        &self,
        field: &Field,
        next: Option<u8>,
        scratch: &mut Bytes,
        out: &mut Bytes,
    ) -> Result<(), NoMemory>
        ensures { OnOk result (out.new ≡ out.old
            ++ text self.now (pair_of field.now) ++ option_to_list next) };
}

/// Appends all fields, with a separator between each two.
pub(crate) fn append_fields<F: FieldText>(
    form: &F,
    separator: &[u8],
    fields: &[Field],
    scratch: &mut Bytes,
    out: &mut Bytes,
) -> Result<(), NoMemory>
    ensures { OnOk result (out.new ≡ out.old
        ++ joined separator.now (map (F.text form.now) (pairs_of fields.now))) }
{
    for (place, field) in fields.iter().enumerate() {
        append_separator(separator, place > 0, out)?;
        form.append_field(field, None, scratch, out)?;
    }
    Ok(())
}

/// Appends all fields with a separator between each two, and a line end.
#[inline(always)]
pub(crate) fn append_line<F: FieldText + Drop>(
    form: F,
    separator: &[u8],
    fields: &[Field],
    scratch: &mut Bytes,
    out: &mut Bytes,
) -> Result<(), NoMemory>
    ensures { OnOk result (out.new ≡ out.old
        ++ joined separator.now (map (F.text form) (pairs_of fields.now)) ++ line_feed ∷ []) }
{
    if separator.len() == 1 {
        return append_marked_line(form, separator[0], fields, scratch, out);
    }
    append_fields(&form, separator, fields, scratch, out)?;
    out.push(b'\n')
}

/// Appends all fields with this byte between each two, and a line end. A field and the byte that follows it are
/// appended in one step.
pub(crate) fn append_marked_line<F: FieldText + Drop>(
    form: F,
    separator: u8,
    fields: &[Field],
    scratch: &mut Bytes,
    out: &mut Bytes,
) -> Result<(), NoMemory>
    ensures { OnOk result (out.new ≡ out.old
        ++ joined (separator ∷ []) (map (F.text form) (pairs_of fields.now))
        ++ line_feed ∷ []) }
{
    if fields.is_empty() {
        return out.push(b'\n');
    }
    let last = fields.len() - 1;
    for (place, field) in fields.iter().enumerate() {
        let next = byte_after(place == last, separator);
        form.append_field(field, Some(next), scratch, out)?;
    }
    Ok(())
}

/// The byte that follows a field: a line end after the last one, and else the separator.
#[inline(always)]
fn byte_after(is_last: bool, separator: u8) -> u8
    ensures { result ≡ (if is_last then line_feed else separator) }
{
    if is_last { b'\n' } else { separator }
}

/// Appends the byte, if there is one.
#[inline(always)]
pub(crate) fn append_next(next: Option<u8>, out: &mut Bytes) -> Result<(), NoMemory>
    ensures { OnOk result (out.new ≡ out.old ++ option_to_list next) }
{
    match next {
        None => Ok(()),
        Some(byte) => out.push(byte),
    }
}

/// Appends a value as one text, and then the byte, if there is one.
#[inline(always)]
pub(crate) fn append_value(value: &Value, next: Option<u8>, out: &mut Bytes) -> Result<(), NoMemory>
    ensures { OnOk result (out.new ≡ out.old ++ shown (tree_of value.now) ++ option_to_list next) }
{
    match held_bytes(value) {
        Some(text) => out.append_then(text, next),
        None => append_printed(value, next, out),
    }
}

/// Appends a value that doesn't hold its text, and then the byte, if there is one.
#[inline(never)]
fn append_printed(value: &Value, next: Option<u8>, out: &mut Bytes) -> Result<(), NoMemory>
    ensures { OnOk result (out.new ≡ out.old ++ shown (tree_of value.now) ++ option_to_list next) }
{
    append_shown(value, out)?;
    append_next(next, out)
}

/// The separator, if there is a text before.
#[inline(always)]
pub(crate) fn append_separator(separator: &[u8], any: bool, out: &mut Bytes) -> Result<(), NoMemory>
    ensures { OnOk result (out.new ≡ out.old ++ separated separator.now any) }
{
    if any { out.append(separator) } else { Ok(()) }
}
