//! More fields than any memory holds.
ghost use Rattle.std.specs.Prelude.{◌^◌, ◌<◌, ◌↔◌, IsOk};

use mlr_spec::NoMemory;

const MANY: usize = 1 << 62;

/// Finds no memory for more fields than any memory holds.
#[inline]
pub fn few(count: usize) -> Result<(), NoMemory>
    ensures { IsOk result ↔ (count < 2 ^ 62) }
{
    if count < MANY { Ok(()) } else { Err(NoMemory) }
}
