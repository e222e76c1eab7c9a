//! DKVP: a line of keys and values for each record.
ghost use Rattle.std.specs.Prelude.{◌≡◌, ◌++◌, OnOk};
ghost use Rattle.writers.specs.Dkvp.{dkvp_record};

use crate::WriteOpts;
use crate::fields::{FieldText, append_line, append_value};
use mlr_record::{Field, Record};
use mlr_spec::NoMemory;
use mlr_value::Bytes;

/// Appends a record as a line of keys and values.
pub(crate) fn append_dkvp(
    opts: &WriteOpts,
    fields: &Record,
    scratch: &mut Bytes,
    out: &mut Bytes,
) -> Result<(), NoMemory>
    ensures { OnOk result (out.new ≡ out.old ++ dkvp_record opts.now fields.now) }
{
    let form = Pairs {
        ops: opts.ops.as_slice(),
    };
    append_line(form, opts.ofs.as_slice(), fields.fields(), scratch, out)
}

/// Each key and its value, with OPS between them.
#[derive(Drop)]
struct Pairs<'a> {
    ops: &'a [u8],
}

impl<'a> FieldText for Pairs<'a> {
    ghost use Rattle.text_forms.specs.Dkvp.{pair_text};

    ghost text = { λ form field. pair_text form.ops.now field };

    #[inline(always)]
    fn append_field(
        &self,
        field: &Field,
        next: Option<u8>,
        _scratch: &mut Bytes,
        out: &mut Bytes,
    ) -> Result<(), NoMemory> {
        if self.ops.len() == 1 {
            out.append_then(&field.name, Some(self.ops[0]))?;
        } else {
            append_key(&field.name, self.ops, out)?;
        }
        append_value(&field.value, next, out)
    }
}

/// Appends a key and OPS.
#[inline(never)]
fn append_key(key: &Bytes, ops: &[u8], out: &mut Bytes) -> Result<(), NoMemory>
    ensures { OnOk result (out.new ≡ out.old ++ key.now ++ ops.now) }
{
    out.append(key.as_slice())?;
    out.append(ops)
}
