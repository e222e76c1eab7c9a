//! The first and the last of values, in the order in which they come and in the order of values.
ghost use Rattle.std.specs.Prelude.{◌≡◌, ◌++◌, ◌∷◌, [], List, true, IfOk, OnOk, None, Some, MatchOption};
ghost use Rattle.std.specs.Option.{option_map, unwrap_or};
ghost use Rattle.std.specs.Ordering.{is_lt};
ghost use Rattle.mlr_spec.specs.Tree.{Tree, empty};
ghost use Rattle.mlr_value.specs.Value.{tree_of};
ghost use Rattle.mlr_stats.specs.Kept.{Keeps, first_of};
ghost use Rattle.mlr_stats.specs.Statistic.{by_value, first_by, last_of};

use mlr_spec::{NoMemory, Order};
use mlr_value::{Value, compare};
use std::alloc::Global;
use std::cmp::Ordering;

/// Takes one more value, and keeps the least or the greatest of all, of those that tie the first to come. It copies the
/// value if it keeps it.
pub(crate) fn keep_extreme(
    alloc: Global,
    needed: bool,
    greatest: bool,
    kept: &mut Option<Value>,
    value: &Value,
) -> Result<(), NoMemory>
    ensures { OnOk result ((values : List Tree)
        → Keeps needed (first_by (by_value greatest)) values kept.old
        → Keeps needed (first_by (by_value greatest)) (values ++ tree_of value.now ∷ []) kept.new) }
{
    if needed && precedes(greatest, value, &*kept) {
        *kept = Some(value.copy(alloc)?);
    }
    Ok(())
}

/// Whether a value comes before the one that is kept. Any value does if none is kept.
fn precedes(greatest: bool, value: &Value, kept: &Option<Value>) -> bool
    ensures none { option_map tree_of kept.now ≡ None → result ≡ true }
    ensures some { (first : Tree) → option_map tree_of kept.now ≡ Some first
        → result ≡ is_lt (by_value greatest (tree_of value.now) first) }
{
    match kept {
        None => true,
        Some(kept) if greatest => compare(Order::Mixed, kept, value) == Ordering::Less,
        Some(kept) => compare(Order::Mixed, value, kept) == Ordering::Less,
    }
}

/// Takes one more value, and keeps the first of all. It copies the value if it keeps it.
pub(crate) fn keep_first(
    alloc: Global,
    needed: bool,
    kept: &mut Option<Value>,
    value: &Value,
) -> Result<(), NoMemory>
    ensures { OnOk result ((values : List Tree) → Keeps needed first_of values kept.old
        → Keeps needed first_of (values ++ tree_of value.now ∷ []) kept.new) }
{
    if needed && kept.is_none() {
        *kept = Some(value.copy(alloc)?);
    }
    Ok(())
}

/// Takes one more value, and keeps it as the last, if that is needed.
pub(crate) fn keep_last(
    alloc: Global,
    needed: bool,
    kept: &mut Option<Value>,
    value: &Value,
) -> Result<(), NoMemory>
    ensures { OnOk result ((values : List Tree) → Keeps needed last_of values kept.old
        → Keeps needed last_of (values ++ tree_of value.now ∷ []) kept.new) }
{
    if needed {
        *kept = Some(value.copy(alloc)?);
    }
    Ok(())
}

/// A copy of a kept value, or the empty value if there is none.
pub(crate) fn copy_or_empty(alloc: Global, kept: &Option<Value>) -> Result<Value, NoMemory>
    ensures { IfOk result (λ value. tree_of value
        ≡ unwrap_or (option_map tree_of kept.now) empty) }
{
    match kept {
        Some(value) => value.copy(alloc),
        None => Ok(Value::Empty),
    }
}
