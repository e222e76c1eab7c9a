//! The names of the fields that statistics make.
ghost use Rattle.std.specs.Prelude.{◌≡◌, IfOk};
ghost use Rattle.stat_base.specs.Outputs.{output_name};

use mlr_spec::NoMemory;
use mlr_value::Bytes;
use std::alloc::Global;

/// The name of the field that a statistic of a field makes: the two names joined by `_`. It allocates if it has more than
/// 20 bytes.
pub fn output_name(alloc: Global, field: &[u8], statistic: &[u8]) -> Result<Bytes, NoMemory>
    ensures { IfOk result (λ name. name ≡ output_name field.now statistic.now) }
{
    let mut name = Bytes::copy_of(alloc, field)?;
    name.append(b"_")?;
    name.append(statistic)?;
    Ok(name)
}
