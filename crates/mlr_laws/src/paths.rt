//! What is at a path of a record that was unflattened.
ghost use Rattle.std.specs.Prelude.{◌≡◌, ℕ, true, List, [], ◌∷◌, ◌++◌, Some, None, map};
ghost use Rattle.mlr_spec.specs.Flatten.{path_of, unflat, with_collection};
ghost use Rattle.mlr_spec.specs.Pairs.{keys_of};
ghost use Rattle.mlr_spec.specs.Tree.{Tree, is_collection};
ghost use Rattle.writers.specs.Runs.{Record};
ghost use Rattle.mlr_laws.specs.Paths.{Path, all_apart, are_without_items, at_path, first_of, first_seen, inside, rest_after};

/// Unflattening, on whole records whose values have no array with items. What is at a path is fixed by the last field whose
/// name spells that path, one above it or one below it. At its own path and below is its value (`value`), whatever was in its
/// way. Above it is a map, or an array (`above`), in which the values of other fields stay. Where there is no such field there
/// is nothing (`none`). The names of the record come in the order in which its fields first spell them (`order`). It does
/// nothing.
pub fn path_laws()
    ensures value { (separator name : List ℕ) (value : Tree) (before following : Record)
        (path rest : Path)
        → are_without_items (before ++ (name, value) ∷ following) ≡ true
        → all_apart separator path following ≡ true
        → rest_after (path_of separator name) path ≡ Some rest
        → at_path path (unflat separator (before ++ (name, value) ∷ following))
        ≡ inside rest (with_collection value) }
    ensures above { (separator name first next : List ℕ) (value : Tree)
        (before following : Record) (path rest : Path)
        → are_without_items (before ++ (name, value) ∷ following) ≡ true
        → all_apart separator (first ∷ path) following ≡ true
        → rest_after (first ∷ path) (path_of separator name) ≡ Some (next ∷ rest)
        → (made : Tree)
        × (at_path (first ∷ path) (unflat separator (before ++ (name, value) ∷ following))
        ≡ Some made) × (is_collection made ≡ true) }
    ensures none { (separator : List ℕ) (pairs : Record) (path : Path)
        → are_without_items pairs ≡ true → all_apart separator path pairs ≡ true
        → at_path path (unflat separator pairs) ≡ None }
    ensures order { (separator : List ℕ) (pairs : Record)
        → keys_of (unflat separator pairs)
        ≡ first_seen [] (map (λ pair. first_of (path_of separator pair.0)) pairs) }
{}
