//! XTAB: the lines of each record.
ghost use Rattle.std.specs.Prelude.{◌≡◌, ◌++◌, OnOk};
ghost use Rattle.writers.specs.Represents.{run_of};
ghost use Rattle.writers.specs.Running.{xtab_after, xtab_record};

use crate::state::State;
use mlr_record::Record;
use mlr_spec::NoMemory;
use mlr_value::Bytes;
use text_columns::append_xtab as append_lines;

/// Appends a record, after an empty line if it isn't the first.
pub(crate) fn append_xtab(
    state: &mut State,
    fields: &Record,
    out: &mut Bytes,
) -> Result<(), NoMemory>
    ensures run { OnOk result (run_of state.new ≡ xtab_after (run_of state.old) fields.now) }
    ensures text { OnOk result (out.new ≡ out.old ++ xtab_record (run_of state.old) fields.now) }
{
    if fields.len() == 0 {
        return Ok(());
    }
    if state.any {
        out.push(b'\n')?;
    }
    append_lines(fields, out)?;
    state.any = true;
    Ok(())
}
