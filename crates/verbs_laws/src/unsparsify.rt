//! What `unsparsify` does with the fields of records.
ghost use Rattle.std.specs.Prelude.{◌≡◌, ℕ, not, List, ◌++◌, map};
ghost use Rattle.std.specs.List.{AllByRecursion, filter};
ghost use Rattle.mlr_event.specs.declared.event.Ctx.{Ctx};
ghost use Rattle.mlr_event.specs.Reading.{is_among};
ghost use Rattle.mlr_spec.specs.JsonGrammar.{text_value};
ghost use Rattle.mlr_spec.specs.Pairs.{keys_of};
ghost use Rattle.verbs_base.specs.Choosing.{once};
ghost use Rattle.verbs_base.specs.Records.{Fields, Row};
ghost use Rattle.verbs_hold.specs.Unsparsify.{all_names, unsparsify_rows};
ghost use Rattle.verbs_hold.specs.UnsparsifyFields.{unsparsify_fields};

/// `unsparsify` without `-f` gives records that all have the same fields in the same order. The function does nothing: its
/// clause is a law of the definition.
pub fn unsparsify_law()
    ensures { (fill : List ℕ) (rows : List Row) (ctx : Ctx)
        → AllByRecursion (λ (row : Row). keys_of row.0 ≡ all_names rows)
        ((unsparsify_rows fill).late rows ctx) }
{}

/// `unsparsify -f` appends, in the order of its names, each of them once that the record lacks. The function does nothing:
/// its clause is a law of the definition.
pub fn unsparsify_fields_law()
    ensures { (fill : List ℕ) (names : List (List ℕ)) (fields : Fields)
        → unsparsify_fields fill names fields ≡ fields ++ map (λ name. (name, text_value fill))
        (filter (λ name. not (is_among (keys_of fields) name)) (once names)) }
{}
