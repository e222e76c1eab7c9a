//! Values made of texts that aren't inferred.
ghost use Rattle.std.specs.Prelude.{◌≡◌};
ghost use Rattle.mlr_spec.specs.JsonGrammar.{text_value};
ghost use Rattle.mlr_value.specs.Value.{tree_of};

use mlr_value::{Bytes, Value};

/// A text as a string, or as the empty value if it has no bytes. It is not inferred, and not copied.
pub fn string_of(text: Bytes) -> Value
    ensures { tree_of result ≡ text_value text }
{
    if text.is_empty() {
        Value::Empty
    } else {
        Value::Str(text)
    }
}
