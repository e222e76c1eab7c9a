//! `template`: the named fields in the order of the names, with the missing ones filled.
ghost use Rattle.std.specs.Prelude.{◌≡◌, ℕ, false, List, [], map, IfOk, OnOk};
ghost use Rattle.std.specs.Str.{bytes_eq};
ghost use Rattle.mlr_spec.specs.Pairs.{value_at};
ghost use Rattle.mlr_record.specs.Fields.{pairs_of};
ghost use Rattle.verbs_base.specs.Choosing.{once};
ghost use Rattle.verbs_fields.specs.Template.{field_or, put_once};

use mlr_event::Names;
use mlr_event::rows::TakenNames;
use mlr_record::{Field, Record};
use mlr_spec::NoMemory;
use mlr_value::Bytes;
use std::alloc::Global;
use verbs_base::{PerRecord, string_of, take_field};

/// The options of `template`.
#[derive(Drop)]
pub struct Template {
    /// The names, in the order of the fields. A name that repeats counts once.
    pub names: Names,
    /// The value of a missing field.
    pub fill: Bytes,
}

impl Template {
    /// A copy. It allocates for the names, and for a text of more than 20 bytes.
    pub fn copy(&self, alloc: Global) -> Result<Self, NoMemory>
        ensures { IfOk result (λ copy. copy ≡ self.now) }
    {
        Ok(Template {
            names: self.names.copy()?,
            fill: Bytes::copy_of(alloc, self.fill.as_slice())?,
        })
    }
}

impl PerRecord for Template {
    ghost use Rattle.verbs_base.specs.Records.{maps};
    ghost use Rattle.verbs_fields.specs.Template.{template};

    ghost gives = { λ verb. maps (template verb) };

    ghost sound = { λ verb. Unit {0} };

    fn made(&mut self, alloc: Global, fields: Record) -> Result<Option<Record>, NoMemory> {
        let names = self.names.as_slice();
        let mut list = fields.into_fields();
        let mut made = Record::new(alloc)?;
        put_each_named(alloc, names, self.fill.as_slice(), &mut list, &mut made)?;
        Ok(Some(made))
    }
}

/// Appends a field for each name to a record without fields.
fn put_each_named(
    alloc: Global,
    names: &[Bytes],
    fill: &[u8],
    fields: &mut Vec<Field>,
    into: &mut Record,
) -> Result<(), NoMemory>
    requires { into.old ≡ [] }
    ensures { OnOk result (into.new
        ≡ map (field_or fill.now (pairs_of fields.old.items)) (once names.now)) }
{
    for name in names {
        put_named(alloc, name, fill, fields, into)?;
    }
    Ok(())
}

/// Appends the field of this name, unless the record has one.
fn put_named(
    alloc: Global,
    name: &Bytes,
    fill: &[u8],
    fields: &mut Vec<Field>,
    into: &mut Record,
) -> Result<(), NoMemory>
    ensures into { OnOk result (into.new
        ≡ put_once (field_or fill.now (pairs_of fields.old.items) name.now) into.old) }
    ensures others { OnOk result ((other : List ℕ) → bytes_eq name.now other ≡ false
        → value_at other (pairs_of fields.new.items) ≡ value_at other (pairs_of fields.old.items)) }
{
    let key = name.as_slice();
    if into.has(key) {
        return Ok(());
    }
    let value = match take_field(fields, name) {
        Some(field) => field.value,
        None => string_of(Bytes::copy_of(alloc, fill)?),
    };
    into.push(key, value)
}
