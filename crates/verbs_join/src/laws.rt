//! What `join` gives, by the texts in the join fields.
ghost use Rattle.std.specs.Prelude.{◌≡◌, false, true, List};
ghost use Rattle.std.specs.List.{Contains};
ghost use Rattle.mlr_event.specs.declared.event.Ctx.{Ctx};
ghost use Rattle.verbs_base.specs.Records.{Fields, Row, records};
ghost use Rattle.verbs_join.specs.Join.{join, pair_of};
ghost use Rattle.verbs_join.specs.Paired.{HaveSameTexts, IsAlone, IsPairOf};
ghost use Rattle.verbs_join.specs.declared.join.Join.{Join};

/// A right record gives its pairs with all left records that have the same texts in the join fields, and no others. The end
/// gives all left records whose texts no right record had, and no others. The function does nothing: its clauses are laws of
/// the definition.
pub fn join_laws()
    ensures pairs { (options : Join) (lefts before : List Fields) (left right : Fields)
        → options.pairs ≡ true → Contains lefts left → HaveSameTexts options left right
        → Contains ((join options lefts).gives before right) (pair_of options left right) }
    ensures only_pairs { (options : Join) (lefts before : List Fields) (right made : Fields)
        → options.right_unpaired ≡ false → Contains ((join options lefts).gives before right) made
        → IsPairOf options lefts right made }
    ensures late { (options : Join) (lefts : List Fields) (rows : List Row) (ctx : Ctx)
        (left : Fields) → options.left_unpaired ≡ true → Contains lefts left
        → IsAlone options (records rows) left
        → Contains ((join options lefts).late rows ctx) (left, ctx) }
    ensures only_late { (options : Join) (lefts : List Fields) (rows : List Row) (ctx : Ctx)
        (given : Row) → Contains ((join options lefts).late rows ctx) given
        → Contains lefts given.0 × IsAlone options (records rows) given.0 × (given.1 ≡ ctx) }
{}
