//! What verbs give for whole lists of records.
ghost use Rattle.std.specs.Prelude.{◌≡◌, ◌<◌, ◌≤◌, ◌^◌, true, List, [], None, take};
ghost use Rattle.verbs_base.specs.Records.{Fields, each, given_by};
ghost use Rattle.verbs_state.specs.Cat.{cat, is_plain};
ghost use Rattle.verbs_state.specs.Head.{head};
ghost use Rattle.verbs_state.specs.Nothing.{nothing};
ghost use Rattle.verbs_state.specs.Rearranged.{AreRearranged};
ghost use Rattle.verbs_state.specs.Regularize.{regularize};
ghost use Rattle.verbs_state.specs.declared.cat.Cat.{Cat};
ghost use Rattle.verbs_state.specs.declared.head.Head.{Head};

/// What `cat` without options gives for a whole list: the list itself, and again after another `cat`. The
/// function does nothing: its clauses are laws of the definitions.
pub fn cat_law()
    ensures plain { (options : Cat) (given : List Fields) → is_plain options ≡ true
        → given_by (cat options) given ≡ given }
    ensures twice { (options : Cat) (given : List Fields) → is_plain options ≡ true
        → given_by (cat options) (given_by (cat options) given) ≡ given_by (cat options) given }
{}

/// What `head` without grouping fields gives for a whole list: its first records. Counting stops at 2^63 - 1,
/// so a greater count passes all. The function does nothing: its clauses are laws of the definitions.
pub fn head_law()
    ensures first { (options : Head) (given : List Fields) → options.groups ≡ None
        → options.count < 2 ^ 63 → given_by (head options) given ≡ take options.count given }
    ensures all { (options : Head) (given : List Fields) → options.groups ≡ None
        → 2 ^ 63 ≤ options.count → given_by (head options) given ≡ given }
{}

/// What `nothing` gives for a whole list: no records. The function does nothing: its clause is a law of the
/// definition.
pub fn nothing_law()
    ensures { (given : List Fields) → given_by (each nothing) given ≡ [] }
{}

/// What `regularize` gives for a whole list: each record with the same fields in some order. The function does
/// nothing: its clause is a law of the definition.
pub fn regularize_law()
    ensures { (given : List Fields) → AreRearranged given (given_by regularize given) }
{}
