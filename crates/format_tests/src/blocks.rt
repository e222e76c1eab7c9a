//! Blocks that were used before.
ghost use Rattle.std.specs.Prelude.{◌≡◌, [], IfOk};

use crate::fields::record_of;
use mlr_spec::NoMemory;
use std::alloc::Global;
use text_columns::Block;

/// A block that held another line before.
pub(crate) fn used_block(alloc: Global) -> Result<Block, NoMemory>
    ensures { IfOk result (λ block. block ≡ []) }
{
    let mut block = Block::new(alloc);
    let other = record_of(alloc, b"other=line")?;
    block.push_keys(&other)?;
    block.push_values(&other)?;
    block.clear();
    Ok(block)
}
