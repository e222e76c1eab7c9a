//! PPRINT: blocks of aligned columns.
ghost use Rattle.std.specs.Prelude.{◌≡◌, ◌++◌, OnOk};
ghost use Rattle.writers.specs.Represents.{run_of};
ghost use Rattle.writers.specs.Running.{block_end, block_ended, block_for, pprint_after, pprint_record, text_before};

use crate::WriteOpts;
use crate::keys::{are_keys, put_keys};
use crate::state::State;
use mlr_record::Record;
use mlr_spec::NoMemory;
use mlr_value::Bytes;
use std::alloc::Global;

/// Takes a record into the open block, or ends that block, appends its text, and begins another with the
/// record if that has fields.
pub(crate) fn append_pprint(
    opts: &WriteOpts,
    state: &mut State,
    fields: &Record,
    alloc: Global,
    out: &mut Bytes,
) -> Result<(), NoMemory>
    ensures run { OnOk result (run_of state.new ≡ pprint_after (run_of state.old) fields.now) }
    ensures text { OnOk result (out.new ≡ out.old
        ++ pprint_record opts.now (run_of state.old) fields.now) }
{
    if fields.len() == 0 {
        return end_block(opts, state, out);
    }
    open_block(opts, state, fields, alloc, out)?;
    state.block.push_values(fields)
}

/// Ends the block that is open if these aren't its keys, and begins another with them.
fn open_block(
    opts: &WriteOpts,
    state: &mut State,
    fields: &Record,
    alloc: Global,
    out: &mut Bytes,
) -> Result<(), NoMemory>
    ensures run { OnOk result (run_of state.new ≡ block_for (run_of state.old) fields.now) }
    ensures text { OnOk result (out.new ≡ out.old
        ++ text_before opts.now (run_of state.old) fields.now) }
{
    if are_keys(&state.keys, fields.fields()) {
        return Ok(());
    }
    end_block(opts, state, out)?;
    put_keys(alloc, fields, &mut state.keys)?;
    state.block.push_keys(fields)
}

/// Appends the open block, and opens none.
pub(crate) fn end_block(
    opts: &WriteOpts,
    state: &mut State,
    out: &mut Bytes,
) -> Result<(), NoMemory>
    ensures run { OnOk result (run_of state.new ≡ block_ended (run_of state.old)) }
    ensures text { OnOk result (out.new ≡ out.old ++ block_end opts.now (run_of state.old)) }
{
    state.keys.clear();
    if state.block.is_empty() {
        return Ok(());
    }
    if state.any {
        out.push(b'\n')?;
    }
    state.block.append_to(opts.barred, opts.headerless, out)?;
    state.any = true;
    state.block.clear();
    Ok(())
}
