//! NIDX: a line of values for each record.
ghost use Rattle.std.specs.Prelude.{◌≡◌, ◌++◌, OnOk};
ghost use Rattle.writers.specs.Nidx.{nidx_record};

use crate::WriteOpts;
use crate::fields::{FieldText, append_line, append_value};
use mlr_record::{Field, Record};
use mlr_spec::NoMemory;
use mlr_value::Bytes;

/// Appends a record as a line of values.
pub(crate) fn append_nidx(
    opts: &WriteOpts,
    fields: &Record,
    scratch: &mut Bytes,
    out: &mut Bytes,
) -> Result<(), NoMemory>
    ensures { OnOk result (out.new ≡ out.old ++ nidx_record opts.now fields.now) }
{
    append_line(
        ValuesAlone,
        opts.ofs.as_slice(),
        fields.fields(),
        scratch,
        out,
    )
}

/// The value of each field as it is.
#[derive(Drop)]
struct ValuesAlone;

impl FieldText for ValuesAlone {
    ghost use Rattle.text_forms.specs.Shown.{shown};

    ghost text = { λ form field. shown field.1 };

    #[inline(always)]
    fn append_field(
        &self,
        field: &Field,
        next: Option<u8>,
        _scratch: &mut Bytes,
        out: &mut Bytes,
    ) -> Result<(), NoMemory> {
        append_value(&field.value, next, out)
    }
}
