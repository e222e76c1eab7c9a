//! `unsparsify -f`: missing fields are filled in at once.
ghost use Rattle.std.specs.Prelude.{◌≡◌, OnOk};
ghost use Rattle.verbs_hold.specs.UnsparsifyFields.{fill_missing, unsparsify_fields};

use mlr_event::Names;
use mlr_record::Record;
use mlr_spec::NoMemory;
use mlr_value::Bytes;
use std::alloc::Global;
use verbs_base::{PerRecord, string_of};

/// The verb `unsparsify -f`, which appends each of its names that a record lacks.
#[derive(Drop)]
pub struct UnsparsifyFields {
    /// The value of a missing field, which is a string.
    pub fill: Bytes,
    pub names: Names,
}

impl PerRecord for UnsparsifyFields {
    ghost use Rattle.verbs_base.specs.Records.{maps};
    ghost use Rattle.verbs_hold.specs.UnsparsifyFields.{unsparsify_fields};

    ghost gives = { λ verb. maps (unsparsify_fields verb.fill verb.names) };

    ghost sound = { λ verb. Unit {0} };

    fn made(&mut self, alloc: Global, fields: Record) -> Result<Option<Record>, NoMemory> {
        let mut made = fields;
        fill_each(alloc, self.fill.as_slice(), &self.names, &mut made)?;
        Ok(Some(made))
    }
}

/// Appends the fields of these names that the record lacks.
fn fill_each(alloc: Global, fill: &[u8], names: &Names, fields: &mut Record) -> Result<(), NoMemory>
    ensures { OnOk result (fields.new ≡ unsparsify_fields fill.now names.now fields.old) }
{
    for name in names.as_slice() {
        fill_missing(alloc, fill, name.as_slice(), fields)?;
    }
    Ok(())
}

/// Appends a field of this name, if the record has none.
fn fill_missing(
    alloc: Global,
    fill: &[u8],
    name: &[u8],
    fields: &mut Record,
) -> Result<(), NoMemory>
    ensures { OnOk result (fields.new ≡ fill_missing fill.now fields.old name.now) }
{
    if fields.get(name).is_none() {
        fields.push(name, string_of(Bytes::copy_of(alloc, fill)?))?;
    }
    Ok(())
}
