//! A law of flattening.
ghost use Rattle.std.specs.Prelude.{◌≡◌, ℕ, List};
ghost use Rattle.mlr_spec.specs.Flatten.{flat, unflat};
ghost use Rattle.mlr_spec.specs.Tree.{Tree};
ghost use Rattle.mlr_record.specs.Leaves.{IsFlattenedApart};

/// A record that came from flattening comes back when it is unflattened and flattened again: it lists, in order, the
/// leaves of a nested record, no two of which have one name, and each name is split into the names on its path. So no
/// key is in the way of another, and a text `{}` or `[]` comes back too. The function does nothing: its clause is a
/// law of the definitions.
pub fn flattened_again()
    ensures { (separator : List ℕ) (nested : List (List ℕ × Tree))
        → IsFlattenedApart separator nested
        → flat separator (unflat separator (flat separator nested)) ≡ flat separator nested }
{}
