//! `unflatten`: maps and arrays from fields with paths as names.
ghost use Rattle.std.specs.Prelude.{◌≡◌, ◌≤◌, length, None, IfOk, IsOk};

use mlr_event::Names;
use mlr_record::Record;
use mlr_spec::NoMemory;
use mlr_value::Bytes;
use std::alloc::Global;
use verbs_base::PerRecord;

/// The options of `unflatten`, which sets each value at the path that its field's name spells.
#[derive(Drop)]
pub struct Unflatten {
    /// `-f`: the first parts of the names of the fields that it takes, or None for all fields.
    pub names: Option<Names>,
    /// `-s`: the separator between the parts of a name.
    pub separator: Bytes,
}

impl Unflatten {
    /// A copy. It allocates for the names, and for a separator of more than 20 bytes.
    pub fn copy(&self, alloc: Global) -> Result<Self, NoMemory>
        ensures same { IfOk result (λ copy. copy ≡ self.now) }
        ensures short { self.now.names ≡ None → length self.now.separator ≤ 20 → IsOk result }
    {
        Ok(Unflatten {
            names: self.names.as_ref().map(Names::copy).transpose()?,
            separator: Bytes::copy_of(alloc, self.separator.as_slice())?,
        })
    }
}

impl PerRecord for Unflatten {
    ghost use Rattle.verbs_base.specs.Records.{maps};
    ghost use Rattle.verbs_values.specs.Unflatten.{IsSoundUnflatten, unflatten};

    ghost gives = { λ verb. maps (unflatten verb) };

    ghost sound = { λ verb. IsSoundUnflatten verb };

    fn made(&mut self, _: Global, fields: Record) -> Result<Option<Record>, NoMemory> {
        let separator = self.separator.as_slice();
        let mut made = fields;
        match &self.names {
            Some(names) => made.unflatten_named(separator, names.as_slice())?,
            None => made.unflatten(separator)?,
        }
        Ok(Some(made))
    }
}
