//! What `uniq` gives for whole lists of records.
ghost use Rattle.std.specs.Prelude.{◌≡◌, List, length};
ghost use Rattle.mlr_groups.specs.Grouping.{groups_in};
ghost use Rattle.mlr_groups.specs.declared.group_by.GroupBy.{GroupBy};
ghost use Rattle.verbs_base.specs.Records.{Fields, given_by};
ghost use Rattle.verbs_count.specs.Uniq.{uniq_first};

/// What `uniq` gives of a list has each group of the list once: its groups are those of the list, in the same order, and
/// it has one record for each of them. The function does nothing: its clauses are laws of the definition.
pub fn uniq_law()
    ensures groups { (by : GroupBy) (given : List Fields)
        → groups_in by (given_by (uniq_first by) given) ≡ groups_in by given }
    ensures once { (by : GroupBy) (given : List Fields)
        → length (given_by (uniq_first by) given) ≡ length (groups_in by given) }
{}
