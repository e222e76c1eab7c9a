//! What the verbs give for whole lists of records.
ghost use Rattle.std.specs.Prelude.{◌≡◌, List};
ghost use Rattle.mlr_event.specs.declared.event.Ctx.{Ctx};
ghost use Rattle.verbs_base.specs.Records.{Row};
ghost use Rattle.verbs_hold.specs.Counted.{AreCounted};
ghost use Rattle.verbs_hold.specs.CountSimilar.{count_similar};
ghost use Rattle.verbs_hold.specs.GroupBy.{group_by};
ghost use Rattle.verbs_hold.specs.Tac.{tac};
ghost use Rattle.verbs_hold.specs.declared.count_similar.CountSimilar.{CountSimilar};

/// `tac` after `tac` gives the records that came, in their order. The function does nothing: its clause is a law of
/// the definition.
pub fn tac_law()
    ensures { (rows : List Row) (ctx end : Ctx) → tac.late (tac.late rows ctx) end ≡ rows }
{}

/// `count-similar` keeps each record that `group-by` keeps, in the same order and with its context, and adds a count. The
/// function does nothing: its clause is a law of the definitions.
pub fn count_similar_law()
    ensures { (options : CountSimilar) (rows : List Row) (ctx : Ctx)
        → AreCounted options.output ((group_by options.groups).late rows ctx)
        ((count_similar options).late rows ctx) }
{}
