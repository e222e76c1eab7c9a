//! Rows under headers.
ghost use Rattle.std.specs.Prelude.{◌≡◌, ◌++◌, [], OnOk};
ghost use Rattle.writers.specs.declared.form.Part.TheVariants.{Keys, Values};
ghost use Rattle.writers.specs.Cells.{texts};
ghost use Rattle.writers.specs.Represents.{run_of};
ghost use Rattle.writers.specs.Running.{headed, headed_after, header_text, heading};

use crate::keys::{are_keys, put_keys};
use crate::state::State;
use mlr_record::Record;
use mlr_spec::NoMemory;
use mlr_value::Bytes;
use std::alloc::Global;

/// A format of rows under headers.
pub(crate) trait RowFormat {
    ghost use Rattle.std.specs.Prelude.{◌≡◌, ◌++◌, ℕ, Bool, List, OnOk};
    ghost use Rattle.writers.specs.declared.form.Part.TheVariants.{Keys, Values};
    ghost use Rattle.writers.specs.Cells.{texts};

    /// Whether no headers are written.
    ghost headerless: { Self → Bool };

    /// The header of these keys.
    ghost header_of: { Self → List (List ℕ) → List ℕ };

    /// The row of these values.
    ghost row_of: { Self → List (List ℕ) → List ℕ };

    /// Whether no headers are written.
    fn is_headerless(&self) -> bool
        ensures { result ≡ headerless self.now };

    /// Appends the header of a record.
    fn append_header(
        &self,
        fields: &Record,
        scratch: &mut Bytes,
        out: &mut Bytes,
    ) -> Result<(), NoMemory>
        ensures { OnOk result (out.new ≡ out.old ++ header_of self.now (texts Keys fields.now)) };

    /// Appends the row of a record.
    fn append_values(
        &self,
        fields: &Record,
        scratch: &mut Bytes,
        out: &mut Bytes,
    ) -> Result<(), NoMemory>
        ensures { OnOk result (out.new ≡ out.old ++ row_of self.now (texts Values fields.now)) };
}

/// Appends a row, after a header where a run begins.
pub(crate) fn append_row<F: RowFormat>(
    format: &F,
    state: &mut State,
    fields: &Record,
    alloc: Global,
    scratch: &mut Bytes,
    out: &mut Bytes,
) -> Result<(), NoMemory>
    ensures run { OnOk result (run_of state.new ≡ headed_after (run_of state.old) fields.now) }
    ensures text { OnOk result (out.new ≡ out.old
        ++ headed (F.headerless format.now) (run_of state.old) fields.now
        (F.header_of format.now (texts Keys fields.now))
        (F.row_of format.now (texts Values fields.now))) }
{
    if fields.len() == 0 {
        state.keys.clear();
        return Ok(());
    }
    begin_run(format, state, fields, alloc, scratch, out)?;
    format.append_values(fields, scratch, out)
}

/// Where a record with fields doesn't continue the run, appends a new header, and keeps its keys.
#[inline]
fn begin_run<F: RowFormat>(
    format: &F,
    state: &mut State,
    fields: &Record,
    alloc: Global,
    scratch: &mut Bytes,
    out: &mut Bytes,
) -> Result<(), NoMemory>
    requires { fields.now ≡ [] → ⊥ }
    ensures run { OnOk result (run_of state.new ≡ headed_after (run_of state.old) fields.now) }
    ensures text { OnOk result (out.new ≡ out.old
        ++ heading (F.headerless format.now) (run_of state.old) fields.now
        (F.header_of format.now (texts Keys fields.now))) }
{
    if are_keys(&state.keys, fields.fields()) {
        return Ok(());
    }
    append_heading(format, state, fields, scratch, out)?;
    state.any = true;
    put_keys(alloc, fields, &mut state.keys)
}

/// Appends a header, if headers are written.
#[inline(never)]
fn append_heading<F: RowFormat>(
    format: &F,
    state: &State,
    fields: &Record,
    scratch: &mut Bytes,
    out: &mut Bytes,
) -> Result<(), NoMemory>
    ensures { OnOk result (out.new ≡ out.old
        ++ header_text (F.headerless format.now) (run_of state.now)
        (F.header_of format.now (texts Keys fields.now))) }
{
    if format.is_headerless() {
        return Ok(());
    }
    if state.any {
        out.push(b'\n')?;
    }
    format.append_header(fields, scratch, out)
}
