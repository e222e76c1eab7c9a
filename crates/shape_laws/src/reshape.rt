//! `reshape` to long and back to wide.
ghost use Rattle.std.specs.Prelude.{◌≡◌, ℕ, List, [], ◌∷◌, map, length};
ghost use Rattle.std.specs.List.{AllByRecursion};
ghost use Rattle.mlr_event.specs.declared.event.Ctx.{Ctx};
ghost use Rattle.mlr_groups.specs.Grouping.{groups_in};
ghost use Rattle.mlr_groups.specs.declared.group_by.GroupBy.TheVariants.{Fields as AllFields};
ghost use Rattle.shape_laws.specs.Back.{ComesBack, HasSelected, back, parted};
ghost use Rattle.verbs_base.specs.Records.{Fields, Row, given_by, records};
ghost use Rattle.verbs_reshape.specs.Reshape.{reshape};
ghost use Rattle.verbs_reshape.specs.ToLong.{others};
ghost use Rattle.verbs_reshape.specs.declared.reshape.Reshape.TheVariants.{Long, Wide};
ghost use Rattle.verbs_reshape.specs.declared.to_long.ToLong.{ToLong};

/// `reshape -i` or `-r` and then `reshape -s` with the same key and value give one record of a record: the other fields, and
/// after them the selected ones. Of records that differ in the other fields and have selected fields of the same names they
/// give one each, in their order; all of them at the end. The function does nothing: its clauses are laws of the definitions.
pub fn reshape_law()
    ensures one { (options : ToLong) (fields : Fields) (longs : List Row) (ctx : Ctx)
        → ComesBack options fields
        → records longs ≡ given_by (reshape (Long options)) (fields ∷ [])
        → (reshape (Wide (back options))).late longs ctx ≡ (parted options.fields fields, ctx) ∷ [] }
    ensures each { (options : ToLong) (names : List (List ℕ)) (given : List Fields)
        (longs : List Row) (ctx : Ctx)
        → AllByRecursion (ComesBack options) given
        → AllByRecursion (HasSelected options names) given
        → length (groups_in AllFields (map (others options.fields) given)) ≡ length given
        → records longs ≡ given_by (reshape (Long options)) given
        → (reshape (Wide (back options))).late longs ctx
        ≡ map (λ fields. (parted options.fields fields, ctx)) given }
    ensures only_late { (options : ToLong) (given : List Fields)
        → AllByRecursion (ComesBack options) given
        → given_by (reshape (Wide (back options))) (given_by (reshape (Long options)) given) ≡ [] }
{}
