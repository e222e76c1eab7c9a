//! What `nest` takes apart it puts together again.
ghost use Rattle.std.specs.Prelude.{◌≡◌, List, []};
ghost use Rattle.std.specs.List.{AllByRecursion};
ghost use Rattle.mlr_event.specs.declared.event.Ctx.{Ctx};
ghost use Rattle.verbs_base.specs.Records.{Row, given_by, records};
ghost use Rattle.verbs_nest.specs.Nest.{nest};
ghost use Rattle.verbs_nest.specs.declared.nest.Nest.{Nest};
ghost use Rattle.shape_laws.specs.Nest.{AreApart, HasText, exploded_rows, ivar};

/// `nest --ivar` holds back the records that `nest --evar` with the same separator makes of records, where each of these has
/// a text in the field. At the end it gives these records back, where no two of them are equal in all other fields. The
/// function does nothing: its clauses are laws of the definition.
pub fn nest_law()
    ensures before_end { (options : Nest) (rows : List Row)
        → AllByRecursion (HasText options.field) rows
        → given_by (nest (ivar options)) (records (exploded_rows options rows)) ≡ [] }
    ensures at_end { (options : Nest) (rows : List Row) (ctx : Ctx)
        → AllByRecursion (HasText options.field) rows → AreApart options.field rows
        → (nest (ivar options)).late (exploded_rows options rows) ctx ≡ rows }
{}
