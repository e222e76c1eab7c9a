//! The fields of which `stats1` gives statistics, and their order.
ghost use Rattle.std.specs.Prelude.{◌≡◌, ℕ, List, true, is_some};
ghost use Rattle.std.specs.List.{filter, flat_map};
ghost use Rattle.mlr_spec.specs.Pairs.{are_distinct, value_at};
ghost use Rattle.verbs_base.specs.Choosing.{once};
ghost use Rattle.verbs_base.specs.Records.{Fields};
ghost use Rattle.verbs_summary.specs.Stats1.{met};

/// `stats1` gives statistics of the named fields that its records have, each once, in the order of the records and then of
/// the names. The function does nothing: its clause is a law of the definitions.
pub fn stats1_law()
    ensures { (names : List (List ℕ)) (given : List Fields) → are_distinct names ≡ true
        → met names given ≡ once (flat_map (λ fields.
        filter (λ name. is_some (value_at name fields)) names) given) }
{}
