//! `json-parse`: values from JSON texts.
ghost use Rattle.std.specs.Prelude.{◌≡◌, None, IfOk, IsOk};
ghost use Rattle.mlr_value.specs.Value.{tree_of};
ghost use Rattle.verbs_values.specs.JsonParse.{is_parsed, parsed};

use crate::json_values::json_decode;
use mlr_event::Names;
use mlr_record::Record;
use mlr_spec::NoMemory;
use mlr_value::{Bytes, Value, text_of};
use std::alloc::Global;
use text_forms::held_text;
use verbs_base::{Change, PerRecord, change_record, is_taken};

/// The options of `json-parse`, which parses strings and numbers as JSON.
#[derive(Drop)]
pub struct JsonParse {
    /// `-f`: the fields that it takes, or None for all.
    pub names: Option<Names>,
}

impl JsonParse {
    /// A copy. It allocates for the names.
    pub fn copy(&self, _: Global) -> Result<Self, NoMemory>
        ensures same { IfOk result (λ copy. copy ≡ self.now) }
        ensures all { self.now.names ≡ None → IsOk result }
    {
        Ok(JsonParse {
            names: self.names.as_ref().map(Names::copy).transpose()?,
        })
    }
}

impl PerRecord for JsonParse {
    ghost use Rattle.verbs_base.specs.Records.{maps};
    ghost use Rattle.verbs_values.specs.JsonParse.{json_parse};

    ghost gives = { λ verb. maps (json_parse verb) };

    ghost sound = { λ verb. Unit {0} };

    fn made(&mut self, alloc: Global, fields: Record) -> Result<Option<Record>, NoMemory> {
        Ok(Some(change_record(&*self, alloc, fields)?))
    }
}

impl Change for &JsonParse {
    ghost use Rattle.verbs_base.specs.Changing.{is_taken};
    ghost use Rattle.verbs_values.specs.JsonParse.{parsed};

    ghost takes = { λ verb name. is_taken verb.now.names name };

    ghost image = { λ verb value. parsed value };

    fn takes(&self, name: &Bytes) -> bool {
        is_taken(self.names.as_ref(), name)
    }

    fn image(&mut self, alloc: Global, value: Value) -> Result<Value, NoMemory> {
        parse(alloc, value)
    }
}

/// A string or a number parsed as JSON; any other value is unchanged.
fn parse(alloc: Global, value: Value) -> Result<Value, NoMemory>
    ensures { IfOk result (λ made. tree_of made ≡ parsed (tree_of value)) }
{
    if !is_parsed(&value) {
        return Ok(value);
    }
    match held_text(&value) {
        Some(text) => json_decode(alloc, text),
        None => json_decode(alloc, text_of(alloc, &value)?.as_slice()),
    }
}

/// Whether a value is a string or a number.
fn is_parsed(value: &Value) -> bool
    ensures { result ≡ is_parsed (tree_of value.now) }
{
    matches!(value, Value::Str(_)) || value.is_number()
}
