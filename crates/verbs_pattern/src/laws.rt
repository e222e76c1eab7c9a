//! What `cut` and `rename` give, for a whole record.
ghost use Rattle.std.specs.Prelude.{◌≡◌, ◌++◌, ◌∷◌, ℕ, true, false, List, [], map};
ghost use Rattle.std.specs.List.Sorted.{IsPermutation};
ghost use Rattle.mlr_event.specs.Reading.{is_among};
ghost use Rattle.mlr_spec.specs.Pairs.{are_distinct, keys_of};
ghost use Rattle.mlr_spec.specs.Tree.{Tree};
ghost use Rattle.verbs_base.specs.Records.{Fields};
ghost use Rattle.verbs_fields.specs.declared.rename_names.Renaming.{Renaming};
ghost use Rattle.verbs_fields.specs.RenameNames.{renamed};
ghost use Rattle.verbs_pattern.specs.Cut.{selected};
ghost use Rattle.verbs_pattern.specs.declared.cut.CutFields.{CutFields};
ghost use Rattle.verbs_pattern.specs.Renamed.{last_of_each, reached, under_new_name};
ghost use Rattle.verbs_pattern.specs.Renaming.{renamed_from};

/// What `rename -r` by one pattern gives for a whole record with distinct names. Each field that is reached
/// gets its new name, and of fields that get the same name only the last is kept, in its place; a field isn't
/// reached if an earlier one got its name. If no field gets the name of another, all are reached; and if the
/// new names are distinct too, all are kept. The function does nothing: its clauses are laws of the
/// definitions.
pub fn renamed_law()
    ensures kept { (new_name : List ℕ → List ℕ) (fields : List (List ℕ × Tree))
        → are_distinct (keys_of fields) ≡ true
        → renamed_from new_name [] [] fields
        ≡ last_of_each (map (under_new_name new_name) (reached new_name [] fields)) }
    ensures apart { (new_name : List ℕ → List ℕ) (fields : List (List ℕ × Tree))
        → are_distinct (keys_of fields) ≡ true
        → ((name : List ℕ) → is_among (keys_of fields) name ≡ true
        → is_among (keys_of fields) (new_name name) ≡ true → new_name name ≡ name)
        → renamed_from new_name [] [] fields ≡ last_of_each (map (under_new_name new_name) fields) }
    ensures distinct { (new_name : List ℕ → List ℕ) (fields : List (List ℕ × Tree))
        → are_distinct (keys_of fields) ≡ true
        → ((name : List ℕ) → is_among (keys_of fields) name ≡ true
        → is_among (keys_of fields) (new_name name) ≡ true → new_name name ≡ name)
        → are_distinct (keys_of (map (under_new_name new_name) fields)) ≡ true
        → renamed_from new_name [] [] fields ≡ map (under_new_name new_name) fields }
{}

/// What `cut` keeps and what it keeps with `-x` are together the fields of the record, each in one of the two. The
/// function does nothing: its clause is a law of the definitions.
pub fn cut_law()
    ensures { (which : CutFields) (fields : Fields)
        → IsPermutation fields (selected which false false fields
        ++ selected which false true fields) }
{}

/// Renaming a field and renaming it back gives the record as it was, if its names are distinct and no field had the
/// new name. The function does nothing: its clause is a law of the definitions.
pub fn rename_back_law()
    ensures { (there back : Renaming) (fields : Fields)
        → back.old ≡ there.new → back.new ≡ there.old
        → are_distinct (keys_of fields) ≡ true → is_among (keys_of fields) there.new ≡ false
        → renamed (there ∷ back ∷ []) fields ≡ fields }
{}
