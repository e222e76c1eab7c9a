//! The keys of a run of records.
ghost use Rattle.std.specs.Prelude.{◌≡◌, [], OnOk};
ghost use Rattle.mlr_record.specs.Fields.{pairs_of};
ghost use Rattle.writers.specs.declared.form.Part.TheVariants.{Keys};
ghost use Rattle.writers.specs.Cells.{same_texts, texts};

use mlr_record::{Field, Record};
use mlr_spec::NoMemory;
use mlr_value::Bytes;
use std::alloc::Global;

/// Whether these are the keys of the fields, in their order.
#[inline(always)]
pub(crate) fn are_keys(keys: &[Bytes], fields: &[Field]) -> bool
    ensures { result ≡ same_texts keys.now (texts Keys (pairs_of fields.now)) }
{
    if keys.len() != fields.len() {
        return false;
    }
    for place in 0..keys.len() {
        if !keys[place].is(&fields[place].name) {
            return false;
        }
    }
    true
}

/// Replaces the keys by those of the record. It allocates for a key of more than 20 bytes, and for more keys
/// than there ever were.
pub(crate) fn put_keys(
    alloc: Global,
    fields: &Record,
    keys: &mut Vec<Bytes>,
) -> Result<(), NoMemory>
    ensures { OnOk result (keys.new.items ≡ texts Keys fields.now) }
{
    keys.clear();
    for place in 0..fields.len() {
        keys.push(Bytes::copy_of(alloc, fields.entry(place).0)?)?;
    }
    Ok(())
}
