//! What a list in order is.
ghost use Rattle.std.specs.Prelude.{◌≡◌, List};
ghost use Rattle.std.specs.Cmp.{IsTotalOrder};
ghost use Rattle.std.specs.declared.cmp.Ordering.{Ordering};
ghost use Rattle.mlr_sort.specs.InOrder.{IsInOrder, in_order};

/// The elements of a list in order are a rearrangement of it that ascends, where elements that tie keep their order; and no other
/// list is. The function does nothing: its clauses are laws of the definition.
pub fn order_laws<A>()
    ensures is { (cmp : A → A → Ordering) (xs : List A) → IsTotalOrder cmp
        → IsInOrder cmp xs (in_order cmp xs) }
    ensures one { (cmp : A → A → Ordering) (xs ys : List A) → IsTotalOrder cmp
        → IsInOrder cmp xs ys → ys ≡ in_order cmp xs }
{}
