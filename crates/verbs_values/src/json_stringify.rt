//! `json-stringify`: JSON texts of values.
ghost use Rattle.std.specs.Prelude.{◌≡◌, None, IfOk, IsOk};

use crate::json_values::json_encode;
use mlr_event::Names;
use mlr_record::Record;
use mlr_spec::NoMemory;
use mlr_value::{Bytes, Value};
use std::alloc::Global;
use verbs_base::{Change, PerRecord, change_record, is_taken};

/// The options of `json-stringify`, which replaces values by their JSON texts.
#[derive(Drop)]
pub struct JsonStringify {
    /// `-f`: the fields that it takes, or None for all.
    pub names: Option<Names>,
}

impl JsonStringify {
    /// A copy. It allocates for the names.
    pub fn copy(&self, _: Global) -> Result<Self, NoMemory>
        ensures same { IfOk result (λ copy. copy ≡ self.now) }
        ensures all { self.now.names ≡ None → IsOk result }
    {
        Ok(JsonStringify {
            names: self.names.as_ref().map(Names::copy).transpose()?,
        })
    }
}

impl PerRecord for JsonStringify {
    ghost use Rattle.verbs_base.specs.Records.{maps};
    ghost use Rattle.verbs_values.specs.JsonStringify.{json_stringify};

    ghost gives = { λ verb. maps (json_stringify verb) };

    ghost sound = { λ verb. Unit {0} };

    fn made(&mut self, alloc: Global, fields: Record) -> Result<Option<Record>, NoMemory> {
        Ok(Some(change_record(&*self, alloc, fields)?))
    }
}

impl Change for &JsonStringify {
    ghost use Rattle.verbs_base.specs.Changing.{is_taken};
    ghost use Rattle.verbs_values.specs.JsonValues.{encoded};

    ghost takes = { λ verb name. is_taken verb.now.names name };

    ghost image = { λ verb value. encoded value };

    fn takes(&self, name: &Bytes) -> bool {
        is_taken(self.names.as_ref(), name)
    }

    fn image(&mut self, alloc: Global, value: Value) -> Result<Value, NoMemory> {
        json_encode(alloc, &value)
    }
}
