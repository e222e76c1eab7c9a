//! Laws of the verbs, as the definitions of what they give have them.
ghost use Rattle.std.specs.Prelude.{◌≡◌, ◌&&◌, ℕ, true, false, List};
ghost use Rattle.std.specs.List.{list_all, list_any};
ghost use Rattle.std.specs.List.Sorted.{IsPermutation};
ghost use Rattle.mlr_spec.specs.Pairs.{are_distinct, keys_of};
ghost use Rattle.mlr_event.specs.Reading.{is_among};
ghost use Rattle.verbs_base.specs.Changing.{is_taken};
ghost use Rattle.verbs_base.specs.Choosing.{is_empty};
ghost use Rattle.verbs_base.specs.Records.{Fields};
ghost use Rattle.verbs_fields.specs.declared.reorder.Reorder.{Reorder};
ghost use Rattle.verbs_fields.specs.declared.sort_within_records.SortWithinRecords.{SortWithinRecords};
ghost use Rattle.verbs_fields.specs.declared.sparsify.Sparsify.{Sparsify};
ghost use Rattle.verbs_fields.specs.declared.template.Template.{Template};
ghost use Rattle.verbs_fields.specs.Interleaving.{Interleaves};
ghost use Rattle.verbs_fields.specs.Reorder.{reorder};
ghost use Rattle.verbs_fields.specs.SortWithinRecords.{sort_within_records};
ghost use Rattle.verbs_fields.specs.Sparsify.{sparsify};
ghost use Rattle.verbs_fields.specs.Template.{template};

/// `reorder`, and `sort-within-records` without maps inside, rearrange the fields of a record with distinct names. The
/// function does nothing: its clauses are laws of the definitions.
pub fn field_order_law()
    ensures reorder { (verb : Reorder) (fields : Fields) → are_distinct (keys_of fields) ≡ true
        → IsPermutation fields (reorder verb fields) }
    ensures sort_within_records { (verb : SortWithinRecords) (fields : Fields)
        → verb.deep ≡ false → are_distinct (keys_of fields) ≡ true
        → IsPermutation fields (sort_within_records verb fields) }
{}

/// A record is the fields that `sparsify` keeps and others, both in their order, where the others are empty and
/// chosen, and no kept field is. The function does nothing: its clauses are laws of the definitions.
pub fn sparsify_law()
    ensures others { (verb : Sparsify) (fields : Fields) → (others : Fields)
        × Interleaves fields (sparsify verb fields) others
        × (list_all (λ field. is_empty field.1 && is_taken verb.names field.0) others ≡ true) }
    ensures kept { (verb : Sparsify) (fields : Fields)
        → list_any (λ field. is_empty field.1 && is_taken verb.names field.0)
        (sparsify verb fields) ≡ false }
{}

/// `template` gives a field for each of its names, each once, in their order. The function does nothing: its
/// clauses are laws of the definitions.
pub fn template_law()
    ensures names { (verb : Template) (fields : Fields) (name : List ℕ)
        → is_among (keys_of (template verb fields)) name ≡ is_among verb.names name }
    ensures once { (verb : Template) (fields : Fields)
        → are_distinct (keys_of (template verb fields)) ≡ true }
    ensures order { (verb : Template) (fields : Fields) → are_distinct verb.names ≡ true
        → keys_of (template verb fields) ≡ verb.names }
{}
