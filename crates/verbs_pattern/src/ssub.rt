//! `ssub`: replaces a plain text in values.
ghost use Rattle.std.specs.Prelude.{◌≡◌, ◌≤◌, length, IfOk, IsOk};

use crate::sub_fields::{SubFields, names_of};
use mlr_pattern::ssub_value;
use mlr_record::Record;
use mlr_spec::NoMemory;
use mlr_value::{Bytes, Value};
use std::alloc::Global;
use verbs_base::{Change, PerRecord, change_record, is_taken};

/// `ssub`: replaces the first occurrence of a plain text in the values of fields. No byte of the text is
/// special.
#[derive(Drop)]
pub struct Ssub {
    pub fields: SubFields,
    pub old: Bytes,
    pub by: Bytes,
}

impl Ssub {
    /// A copy. It allocates for the names, and for texts of more than 20 bytes.
    pub fn copy(&self, alloc: Global) -> Result<Self, NoMemory>
        ensures same { IfOk result (λ copy. copy ≡ self.now) }
        ensures short { self.now.fields ≡ SubFields.All → length self.now.old ≤ 20
            → length self.now.by ≤ 20 → IsOk result }
    {
        Ok(Ssub {
            fields: self.fields.copy(alloc)?,
            old: self.old.copy()?,
            by: self.by.copy()?,
        })
    }
}

impl PerRecord for Ssub {
    ghost use Rattle.verbs_base.specs.Records.{maps};
    ghost use Rattle.verbs_pattern.specs.Ssub.{ssub};

    ghost gives = { λ verb. maps (ssub verb) };

    ghost sound = { λ verb. Unit {0} };

    fn made(&mut self, alloc: Global, fields: Record) -> Result<Option<Record>, NoMemory> {
        let verb: &Ssub = self;
        Ok(Some(change_record(verb, alloc, fields)?))
    }
}

impl Change for &Ssub {
    ghost use Rattle.mlr_pattern.specs.Values.{ssub_of};
    ghost use Rattle.verbs_base.specs.Changing.{is_taken};
    ghost use Rattle.verbs_pattern.specs.SubFields.{names_of};

    ghost takes = { λ verb name. is_taken (names_of verb.now.fields) name };

    ghost image = { λ verb value. ssub_of verb.now.old verb.now.by value };

    fn takes(&self, name: &Bytes) -> bool {
        is_taken(names_of(&self.fields), name)
    }

    fn image(&mut self, alloc: Global, value: Value) -> Result<Value, NoMemory> {
        ssub_value(alloc, value, self.old.as_slice(), self.by.as_slice())
    }
}
