//! What `top` has in common with `sort`.
ghost use Rattle.std.specs.Prelude.{◌≡◌, ℕ, List, take};
ghost use Rattle.std.specs.List.{filter};
ghost use Rattle.mlr_event.specs.declared.event.Ctx.{Ctx};
ghost use Rattle.verbs_base.specs.Records.{Row};
ghost use Rattle.verbs_sort.specs.Sort.{sort};
ghost use Rattle.verbs_top.specs.Top.{is_int, top_rows, value_in};
ghost use Rattle.verbs_top.specs.declared.top.Top.{Top};
ghost use Rattle.verbs_laws.specs.SortLike.{sort_like};

/// `top -a` gives the first of the records that `sort` gives by the same field and in the same order, if it is given those
/// that have an int in the field. The function does nothing: its clause is a law of the definitions.
pub fn top_law()
    ensures { (options : Top) (name : List ℕ) (rows : List Row) (ctx : Ctx)
        → top_rows options rows name
        ≡ take options.count ((sort (sort_like options.order name)).late
        (filter (λ row. is_int (value_in name row)) rows) ctx) }
{}
