//! JSON Lines: each record as a map on one line.
ghost use Rattle.std.specs.Prelude.{◌≡◌, ◌++◌, OnOk};
ghost use Rattle.writers.specs.Jsonl.{jsonl_record};

use crate::json::append_record;
use mlr_record::Record;
use mlr_spec::{JsonStyle, NoMemory};
use mlr_value::Bytes;

/// Appends a record as a map on one line.
pub(crate) fn append_jsonl(
    fields: &Record,
    scratch: &mut Bytes,
    out: &mut Bytes,
) -> Result<(), NoMemory>
    ensures { OnOk result (out.new ≡ out.old ++ jsonl_record fields.now) }
{
    append_record(JsonStyle::Single, fields, scratch, out)?;
    out.push(b'\n')
}
