//! What the verbs that give records group by group do with their order.
ghost use Rattle.std.specs.Prelude.{ℕ, List, is_some};
ghost use Rattle.std.specs.List.{filter};
ghost use Rattle.std.specs.List.Sorted.{IsPermutation};
ghost use Rattle.mlr_event.specs.declared.event.Ctx.{Ctx};
ghost use Rattle.mlr_groups.specs.Grouping.{group_of};
ghost use Rattle.verbs_base.specs.Records.{Row};
ghost use Rattle.verbs_hold.specs.GroupBy.{group_by};
ghost use Rattle.verbs_hold.specs.GroupLike.{group_like};

/// `group-by` gives the records that have all its fields in another order, and `group-like` all records. The function
/// does nothing: its clauses are laws of the definitions.
pub fn group_laws()
    ensures by { (names : List (List ℕ)) (rows : List Row) (ctx : Ctx)
        → IsPermutation (filter (λ row. is_some (group_of names row.0)) rows)
        ((group_by names).late rows ctx) }
    ensures like { (rows : List Row) (ctx : Ctx) → IsPermutation rows (group_like.late rows ctx) }
{}
