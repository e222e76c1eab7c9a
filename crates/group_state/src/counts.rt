//! Counts as values.
ghost use Rattle.std.specs.Prelude.{◌≡◌, ℕ};
ghost use Rattle.mlr_groups.specs.Tallying.{capped};
ghost use Rattle.mlr_value.specs.Value.{tree_of};
ghost use Rattle.group_state.specs.Counts.{count_value};

use mlr_value::{Bytes, IntValue, Value};
use std::alloc::Global;

/// The greatest count, at which counting stops: the greatest signed integer of 64 bits.
const MOST: u64 = (1 << 63) - 1;

/// A count as a value. It doesn't allocate.
pub fn count_value(alloc: Global, count: u64) -> Value
    ensures value { tree_of result ≡ count_value count }
    ensures counted { (n : ℕ) → count ≡ capped n → tree_of result ≡ count_value n }
{
    let n = if count < MOST { count } else { MOST };
    Value::Int(IntValue {
        n: n as i64,
        spelling: Bytes::new(alloc),
    })
}
