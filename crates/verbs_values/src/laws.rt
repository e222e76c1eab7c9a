//! What the definition of parsing a JSON text means, by the grammar.
ghost use Rattle.std.specs.Prelude.{◌≡◌, ℕ, List};
ghost use Rattle.mlr_spec.specs.JsonGrammar.{IsJson};
ghost use Rattle.mlr_spec.specs.Tree.{Tree, error};
ghost use Rattle.mlr_json.specs.Readable.{plain};
ghost use Rattle.verbs_values.specs.JsonValues.{decoded};

/// The value that a text is decoded to, by the grammar alone: the value of its tokens, or error if it has
/// none. The function does nothing: its clauses are laws of the definitions.
pub fn decoded_law()
    ensures value { (text : List ℕ) (value : Tree) → IsJson plain text value
        → decoded text ≡ value }
    ensures none { (text : List ℕ) → ((value : Tree) → IsJson plain text value → ⊥)
        → decoded text ≡ error }
{}
