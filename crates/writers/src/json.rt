//! Records as JSON: in one list, or each on lines of its own.
ghost use Rattle.std.specs.Prelude.{◌≡◌, ◌++◌, [], OnOk};
ghost use Rattle.mlr_spec.specs.Json.{json_record};
ghost use Rattle.writers.specs.Json.{style_of};
ghost use Rattle.writers.specs.Represents.{run_of};
ghost use Rattle.writers.specs.Running.{json_after, json_end, json_written, line_end_missing, list_lead};

use crate::WriteOpts;
use crate::fields::{FieldText, append_fields, append_next};
use crate::state::State;
use mlr_json::append_json_field;
use mlr_record::{Field, Record};
use mlr_spec::{JsonStyle, NoMemory};
use mlr_value::Bytes;

/// Appends a record: in a list, or on lines of its own.
pub(crate) fn append_json(
    opts: &WriteOpts,
    state: &mut State,
    fields: &Record,
    scratch: &mut Bytes,
    out: &mut Bytes,
) -> Result<(), NoMemory>
    ensures run { OnOk result (run_of state.new ≡ json_after opts.now (run_of state.old)) }
    ensures text { OnOk result (out.new ≡ out.old
        ++ json_written opts.now (run_of state.old) fields.now) }
{
    let style = style_of(opts);
    if opts.listwrap {
        append_lead(state, out)?;
        append_record(style, fields, scratch, out)?;
    } else {
        append_record(style, fields, scratch, out)?;
        out.push(b'\n')?;
    }
    state.any = true;
    state.mid = opts.listwrap;
    Ok(())
}

/// Appends the bracket of the list or a comma.
fn append_lead(state: &State, out: &mut Bytes) -> Result<(), NoMemory>
    ensures { OnOk result (out.new ≡ out.old ++ list_lead (run_of state.now)) }
{
    if state.any {
        out.append(b",\n")
    } else {
        out.append(b"[\n")
    }
}

/// Appends the missing line end, if one is missing.
pub(crate) fn append_line_end(state: &State, out: &mut Bytes) -> Result<(), NoMemory>
    ensures { OnOk result (out.new ≡ out.old ++ line_end_missing (run_of state.now)) }
{
    if state.mid { out.push(b'\n') } else { Ok(()) }
}

/// Appends the end of the list, if there is a list.
pub(crate) fn append_json_end(
    opts: &WriteOpts,
    state: &State,
    out: &mut Bytes,
) -> Result<(), NoMemory>
    ensures { OnOk result (out.new ≡ out.old ++ json_end opts.now (run_of state.now)) }
{
    if !opts.listwrap {
        return Ok(());
    }
    if state.any {
        append_line_end(state, out)?;
    } else {
        out.append(b"[\n")?;
    }
    out.append(b"]\n")
}

fn style_of(opts: &WriteOpts) -> JsonStyle
    ensures { result ≡ style_of opts.now }
{
    if opts.stacked {
        JsonStyle::Stacked
    } else {
        JsonStyle::Single
    }
}

/// Appends a record as a map at the first level.
pub(crate) fn append_record(
    style: JsonStyle,
    fields: &Record,
    scratch: &mut Bytes,
    out: &mut Bytes,
) -> Result<(), NoMemory>
    ensures { OnOk result (out.new ≡ out.old ++ json_record style fields.now) }
{
    match style {
        JsonStyle::Stacked => append_stacked(fields, scratch, out),
        JsonStyle::Single => append_single(fields, scratch, out),
    }
}

fn append_stacked(fields: &Record, scratch: &mut Bytes, out: &mut Bytes) -> Result<(), NoMemory>
    ensures { OnOk result (out.new ≡ out.old ++ json_record JsonStyle.Stacked fields.now) }
{
    if fields.len() == 0 {
        return out.append(b"{}");
    }
    let form = JsonFields {
        style: JsonStyle::Stacked,
    };
    out.append(b"{\n  ")?;
    append_fields(&form, b",\n  ", fields.fields(), scratch, out)?;
    out.append(b"\n}")
}

fn append_single(fields: &Record, scratch: &mut Bytes, out: &mut Bytes) -> Result<(), NoMemory>
    ensures { OnOk result (out.new ≡ out.old ++ json_record JsonStyle.Single fields.now) }
{
    if fields.len() == 0 {
        return out.append(b"{}");
    }
    let form = JsonFields {
        style: JsonStyle::Single,
    };
    out.append(b"{")?;
    append_fields(&form, b", ", fields.fields(), scratch, out)?;
    out.append(b"}")
}

/// Each field as in a map.
#[derive(Drop)]
struct JsonFields {
    style: JsonStyle,
}

impl FieldText for JsonFields {
    ghost use Rattle.mlr_spec.specs.Json.{json_field};

    ghost text = { λ form field. json_field form.style 1 field };

    #[inline(always)]
    fn append_field(
        &self,
        field: &Field,
        next: Option<u8>,
        _scratch: &mut Bytes,
        out: &mut Bytes,
    ) -> Result<(), NoMemory> {
        append_json_field(field.name.as_slice(), &field.value, self.style, out)?;
        append_next(next, out)
    }
}
