//! Laws of JSON texts.
ghost use Rattle.std.specs.Prelude.{◌≤◌, ℕ, Bool, List};
ghost use Rattle.mlr_spec.specs.declared.infer.InferOpts.{InferOpts};
ghost use Rattle.mlr_spec.specs.declared.json.JsonStyle.{JsonStyle};
ghost use Rattle.mlr_spec.specs.Json.{json_text};
ghost use Rattle.mlr_spec.specs.JsonGrammar.{IsJson};
ghost use Rattle.mlr_spec.specs.Tree.{Tree};
ghost use Rattle.mlr_value.specs.Depth.{depth};
ghost use Rattle.mlr_json.specs.Answer.{HasOneOutcome};
ghost use Rattle.mlr_json.specs.Readable.{plain, read_back, IsReadable};
ghost use Rattle.mlr_json.specs.Stable.{StaysFound};

/// Each text is one value or has one first fault, by the grammar alone. The function does nothing: its clause is a
/// law of the definitions.
pub fn one_outcome()
    ensures { (opts : InferOpts) (text : List ℕ) → HasOneOutcome opts text }
{}

/// What is written of a value, in either style, is read as that value. Absent is written as the empty value is, and
/// an int that arithmetic made gets its decimal spelling; a value with an error in it is written as no JSON, and so
/// is none of these. The function does nothing: its clause is a law of the definitions.
pub fn written_is_read()
    ensures { (style : JsonStyle) (value : Tree) → IsReadable value → depth value ≤ 100
        → IsJson plain (json_text style value) (read_back value) }
{}

/// What `first_lexeme` finds stays found when bytes follow, but for a run that reaches the end of the text. So a reader of
/// streams may take what it finds in a piece. The function does nothing: its clause is a law of the definitions.
pub fn found_stays()
    ensures { (inside : Bool) (text more : List ℕ) → StaysFound inside text more }
{}
