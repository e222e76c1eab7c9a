//! Values as JSON texts and back.
ghost use Rattle.std.specs.Prelude.{◌≡◌, IfOk};
ghost use Rattle.mlr_value.specs.Value.{tree_of};
ghost use Rattle.verbs_values.specs.JsonValues.{decoded, encoded};

use mlr_json::{JsonRead, json_text, read_json_value};
use mlr_spec::{JsonStyle, NoMemory};
use mlr_value::Value;
use std::alloc::Global;
use verbs_base::string_of;

/// The JSON text of a value on one line, as a string.
pub fn json_encode(alloc: Global, value: &Value) -> Result<Value, NoMemory>
    ensures { IfOk result (λ made. tree_of made ≡ encoded (tree_of value.now)) }
{
    Ok(string_of(json_text(alloc, value, JsonStyle::Single)?))
}

/// The value of a JSON text, with whitespace around it or not. It is error if the text isn't exactly one
/// value, or a value of more than 100 levels.
pub fn json_decode(alloc: Global, text: &[u8]) -> Result<Value, NoMemory>
    ensures { IfOk result (λ made. tree_of made ≡ decoded text.now) }
{
    match read_json_value(alloc, text) {
        JsonRead::Ok(value) => Ok(value),
        JsonRead::Syntax(_) | JsonRead::Deep(_) => Ok(Value::Error),
        JsonRead::NoMemory => Err(NoMemory),
    }
}
