//! `label`: new names for the first fields of a record.
ghost use Rattle.std.specs.Prelude.{◌≡◌, true, ◌<◌, ◌+◌, ◌++◌, length, take, drop, vec_len, IfOk, OnOk};
ghost use Rattle.std.specs.List.{remove, zip};
ghost use Rattle.mlr_spec.specs.Pairs.{are_distinct, keys_of};
ghost use Rattle.mlr_record.specs.Fields.{pairs_of};
ghost use Rattle.verbs_base.specs.Choosing.{dropped};
ghost use Rattle.verbs_fields.specs.Values.{values_of};

use mlr_event::Names;
use mlr_record::{Field, Record};
use mlr_spec::NoMemory;
use mlr_value::Bytes;
use std::alloc::Global;
use verbs_base::{PerRecord, is_among, place_of};

/// The names that `label` gives to the first fields, in order. They are distinct. Names after the last field have
/// no effect, and a field after the last name is dropped if it has one of the names.
#[derive(Drop)]
pub struct Label {
    pub names: Names,
}

impl Label {
    /// A copy. It allocates for the names.
    pub fn copy(&self, _: Global) -> Result<Self, NoMemory>
        ensures { IfOk result (λ copy. copy ≡ self.now) }
    {
        Ok(Label {
            names: self.names.copy()?,
        })
    }
}

impl PerRecord for Label {
    ghost use Rattle.verbs_base.specs.Records.{maps};
    ghost use Rattle.verbs_fields.specs.Label.{IsSoundLabel, label};

    ghost gives = { λ verb. maps (label verb) };

    ghost sound = { λ verb. IsSoundLabel verb };

    fn made(&mut self, alloc: Global, fields: Record) -> Result<Option<Record>, NoMemory> {
        let names = self.names.as_slice();
        let mut list = fields.into_fields();
        drop_others(names, &mut list);
        put_names(names, &mut list)?;
        Ok(Some(Record::of_fields(alloc, list)))
    }
}

/// Whether no name repeats, as `label` requires. It doesn't allocate.
pub fn are_distinct(names: &Names) -> bool
    ensures { result ≡ are_distinct names.now }
{
    let mut left = names.as_slice();
    while let Some((name, more)) = left.split_first() {
        if is_among(more, name) {
            return false;
        }
        left = more;
    }
    true
}

/// Drops the fields after the last name that have one of the names.
fn drop_others(names: &[Bytes], fields: &mut Vec<Field>)
    requires { are_distinct (keys_of (pairs_of fields.old.items)) ≡ true }
    ensures { pairs_of fields.new.items ≡ take (length names.now) (pairs_of fields.old.items)
        ++ dropped names.now (drop (length names.now) (pairs_of fields.old.items)) }
{
    let first = names.len().min(fields.len());
    for name in names {
        if let Some(place) = place_of(&fields[first..], name) {
            drop_at(fields, first + place);
        }
    }
}

/// Drops the field at a place. Few records have such a field, so this stays out of the loop.
#[cold]
#[inline(never)]
fn drop_at(fields: &mut Vec<Field>, place: usize)
    requires { place < vec_len fields.old }
    ensures left { fields.new.items ≡ remove fields.old.items place }
    ensures len { vec_len fields.new + 1 ≡ vec_len fields.old }
{
    drop(fields.remove(place));
}

/// Gives the first fields the names, one each.
fn put_names(names: &[Bytes], fields: &mut [Field]) -> Result<(), NoMemory>
    ensures { OnOk result (pairs_of fields.new ≡ zip names.now (values_of (pairs_of fields.old))
        ++ drop (length names.now) (pairs_of fields.old)) }
{
    for place in 0..names.len().min(fields.len()) {
        fields[place].name = names[place].copy()?;
    }
    Ok(())
}
