//! Makes a record of a value.
ghost use Rattle.std.specs.Prelude.{◌≡◌, IfOk};
ghost use Rattle.mlr_value.specs.Value.{tree_of};
ghost use Rattle.read_json_lines.specs.Turns.{record_in};

use mlr_record::Record;
use mlr_spec::NoMemory;
use mlr_value::Value;
use std::alloc::Global;

/// The record of a value, if the value is a map, whose values it moves.
pub(crate) fn record_of(alloc: Global, value: Value) -> Result<Option<Record>, NoMemory>
    ensures { IfOk result (λ made. made ≡ record_in (tree_of value)) }
{
    match value {
        Value::Map(pairs) => Ok(Some(Record::of_map(alloc, pairs)?)),
        _ => Ok(None),
    }
}
