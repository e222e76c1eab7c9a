//! Records of one field.
ghost use Rattle.std.specs.Prelude.{◌≡◌, ◌∷◌, [], IfOk};
ghost use Rattle.mlr_value.specs.Value.{tree_of};

use mlr_record::Record;
use mlr_spec::NoMemory;
use mlr_value::Value;
use std::alloc::Global;

/// A record of this field.
pub(crate) fn one_field(alloc: Global, name: &[u8], value: Value) -> Result<Record, NoMemory>
    ensures { IfOk result (λ made. made ≡ (name.now, tree_of value) ∷ []) }
{
    let mut record = Record::new(alloc)?;
    record.put(name, value)?;
    Ok(record)
}
