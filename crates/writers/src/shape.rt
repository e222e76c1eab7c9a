//! Records in the shape in which they are written: flattened or unflattened by the options.
ghost use Rattle.std.specs.Prelude.{◌≡◌, IfOk};
ghost use Rattle.writers.specs.Cells.{shaped};

use crate::WriteOpts;
use mlr_record::Record;
use mlr_spec::NoMemory;

/// The record, flattened or unflattened as the options say.
pub(crate) fn shaped(opts: &WriteOpts, fields: Record) -> Result<Record, NoMemory>
    ensures { IfOk result (λ made. made ≡ shaped opts.now fields) }
{
    let mut fields = fields;
    if opts.flatten {
        fields.flatten(opts.flatsep.as_slice())?;
    } else if opts.unflatten && opts.flatsep.len() > 0 {
        fields.unflatten(opts.flatsep.as_slice())?;
    }
    Ok(fields)
}
