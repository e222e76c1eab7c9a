//! What `sort` gives for whole lists of records.
ghost use Rattle.std.specs.Prelude.{◌≡◌, ℕ, List};
ghost use Rattle.std.specs.Cmp.{IsTotalOrder};
ghost use Rattle.mlr_spec.specs.declared.arith.Order.{Order};
ghost use Rattle.mlr_event.specs.declared.event.Ctx.{Ctx};
ghost use Rattle.verbs_base.specs.Records.{Row};
ghost use Rattle.verbs_sort.specs.Law.{IsSortedBy};
ghost use Rattle.verbs_sort.specs.Sort.{compare_by, keys_of_flags, sort};
ghost use Rattle.verbs_sort.specs.declared.sort.Sort.{Sort};

/// What `sort` gives at the end of a list: its records in another order. Those with all fields of the flags come first, ascend, and
/// keep their order where they tie, and the others follow in their order. Any two records compare. The function does nothing: its
/// clauses are laws of the definition.
pub fn sort_law()
    ensures sorted { (options : Sort) (rows : List Row) (ctx : Ctx)
        → IsSortedBy (keys_of_flags options.flags) rows ((sort options).late rows ctx) }
    ensures order { (keys : List (Order × List ℕ)) → IsTotalOrder (compare_by keys) }
{}
