//! The values of words: numbers, `true`, `false` and `null`.
ghost use Rattle.std.specs.Prelude.{◌≡◌, false, IfOk};
ghost use Rattle.std.specs.Option.{option_map};
ghost use Rattle.mlr_spec.specs.Infer.{kind_of};
ghost use Rattle.mlr_spec.specs.JsonTokens.{word_value, number_of_kind};
ghost use Rattle.mlr_value.specs.Value.{tree_of};

use mlr_spec::{InferOpts, Kind, NoMemory};
use mlr_value::{Bytes, IntValue, Value, infer};
use std::alloc::Global;

const TRUE: &[u8] = b"true";

const FALSE: &[u8] = b"false";

const NULL: &[u8] = b"null";

/// The value of a word of a JSON text, if it has one. It takes memory for a number of more than 20 bytes.
pub fn word_value(alloc: Global, word: &[u8], opts: InferOpts) -> Result<Option<Value>, NoMemory>
    ensures { IfOk result (λ value. option_map tree_of value ≡ word_value opts word.now) }
{
    if word == TRUE {
        return Ok(Some(Value::Bool(true)));
    }
    if word == FALSE {
        return Ok(Some(Value::Bool(false)));
    }
    if word == NULL {
        return Ok(Some(Value::Empty));
    }
    number_value(alloc, word, opts)
}

/// The value of a word that is a number.
fn number_value(alloc: Global, word: &[u8], opts: InferOpts) -> Result<Option<Value>, NoMemory>
    ensures { IfOk result (λ value. option_map tree_of value
        ≡ number_of_kind (kind_of (record { none = false; octal = opts.octal }) word.now)
        opts.none word.now) }
{
    let octal = opts.octal;
    let kind = infer(word, InferOpts { none: false, octal });
    if kind == Kind::Empty || kind == Kind::Str {
        return Ok(None);
    }
    let spelling = Bytes::copy_of(alloc, word)?;
    if opts.none {
        return Ok(Some(Value::Str(spelling)));
    }
    Ok(match kind {
        Kind::Empty | Kind::Str => None,
        Kind::Int(n) => Some(Value::Int(IntValue { n, spelling })),
        Kind::Frac => Some(Value::Frac(spelling)),
        Kind::Wide => Some(Value::Wide(spelling)),
    })
}
