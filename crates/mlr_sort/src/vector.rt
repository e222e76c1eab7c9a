//! Vectors in order.
ghost use Rattle.std.specs.Prelude.{◌≡◌, OnOk, OnErr};
ghost use Rattle.std.specs.Cmp.{IsTotalOrder};
ghost use Rattle.std.specs.Fn.{ComparesAs};
ghost use Rattle.std.specs.Ordering.{is_lt};
ghost use Rattle.std.specs.declared.cmp.Ordering.{Ordering as SpecOrdering};
ghost use Rattle.mlr_sort.specs.InOrder.{in_order};

use mlr_spec::NoMemory;
use std::cmp::Ordering;

/// Sorts the elements in place, where those that tie keep their order. It takes memory for half of the elements, and
/// none for a few.
pub fn sort_in_order<T, F: Fn(&T, &T) -> Ordering>(
    items: &mut Vec<T>,
    compare: F,
) -> Result<(), NoMemory>
    requires { F.IsAlwaysCallable compare }
    ensures ok { OnOk result ((cmp : T → T → SpecOrdering) → IsTotalOrder cmp
        → ComparesAs F.FnMut (λ x y. is_lt (cmp x y)) compare
        → items.new.items ≡ in_order cmp items.old.items) }
    ensures err { OnErr result (items.new.items ≡ items.old.items) }
{
    items.sort_by(compare)?;
    Ok(())
}
