//! Values of a record changed in their places, for the verbs that change them.
ghost use Rattle.std.specs.Prelude.{◌≡◌, ◌<◌, ℕ, Bool, List, length, set, slice_index_or, IfOk, OnOk};
ghost use Rattle.mlr_spec.specs.Tree.{Tree};
ghost use Rattle.mlr_value.specs.Value.{tree_of};
ghost use Rattle.mlr_event.specs.Reading.{is_among};
ghost use Rattle.verbs_base.specs.Changing.{changed, changed_field, has_name, with_image};

use crate::field_choice::name_at;
use mlr_event::Names;
use mlr_record::Record;
use mlr_spec::NoMemory;
use mlr_value::{Bytes, Value};
use std::alloc::Global;

/// A verb that changes values in their places: each value that it takes, by a function of the value. What it keeps from
/// one value to the next, as the room of a search, doesn't change the function.
pub trait Change {
    /// Whether it takes the field of a name.
    ghost takes: { Self → List ℕ → Bool };

    /// What a value of such a field becomes.
    ghost image: { Self → Tree → Tree };

    fn takes(&self, name: &Bytes) -> bool
        ensures { result ≡ takes self.now name.now };

    fn image(&mut self, alloc: Global, value: Value) -> Result<Value, NoMemory>
        ensures made { IfOk result (λ made. tree_of made ≡ image self.old (tree_of value)) }
        ensures takes { takes self.new ≡ takes self.old }
        ensures image { image self.new ≡ image self.old };
}

/// The record with the values changed that the verb takes. Names and places stay, and what isn't taken isn't copied.
pub fn change_record<C: Change + Drop>(
    change: C,
    alloc: Global,
    from: Record,
) -> Result<Record, NoMemory>
    ensures { IfOk result (λ made. made ≡ changed (C.takes change) (C.image change) from) }
{
    let mut change = change;
    let mut record = from;
    change_fields(&mut change, alloc, &mut record)?;
    Ok(record)
}

/// Changes the values that the verb takes, in their places.
pub fn change_fields<C: Change>(
    change: &mut C,
    alloc: Global,
    fields: &mut Record,
) -> Result<(), NoMemory>
    ensures changed { OnOk result (fields.new
        ≡ changed (C.takes change.old) (C.image change.old) fields.old) }
    ensures takes { C.takes change.new ≡ C.takes change.old }
    ensures image { C.image change.new ≡ C.image change.old }
{
    for place in 0..fields.len() {
        change_field(change, alloc, fields, place)?;
    }
    Ok(())
}

/// Changes the value at a place if the verb takes its field.
fn change_field<C: Change>(
    change: &mut C,
    alloc: Global,
    fields: &mut Record,
    place: usize,
) -> Result<(), NoMemory>
    requires { place < length fields.old }
    ensures changed { OnOk result ((pair : List ℕ × Tree)
        → fields.new ≡ set fields.old place
        (changed_field (C.takes change.old) (C.image change.old)
        (slice_index_or fields.old place pair))) }
    ensures takes { C.takes change.new ≡ C.takes change.old }
    ensures image { C.image change.new ≡ C.image change.old }
{
    if change.takes(name_at(fields, place)) {
        change_value(change, alloc, fields, place)?;
    }
    Ok(())
}

/// Changes the value at a place.
#[inline(always)]
fn change_value<C: Change>(
    change: &mut C,
    alloc: Global,
    fields: &mut Record,
    place: usize,
) -> Result<(), NoMemory>
    requires { place < length fields.old }
    ensures changed { OnOk result ((pair : List ℕ × Tree)
        → fields.new ≡ set fields.old place
        (with_image (C.image change.old) (slice_index_or fields.old place pair))) }
    ensures takes { C.takes change.new ≡ C.takes change.old }
    ensures image { C.image change.new ≡ C.image change.old }
{
    let value = fields.replace(place, Value::Absent);
    let made = change.image(alloc, value)?;
    fields.replace(place, made);
    Ok(())
}

/// The record with the values of the named fields changed in their places, by a change that, made twice, is made once: so a
/// name may repeat. It searches for each name once.
pub fn change_named<C: Change + Drop>(
    change: C,
    alloc: Global,
    names: &Names,
    from: Record,
) -> Result<Record, NoMemory>
    requires once { (value : Tree)
        → C.image change (C.image change value) ≡ C.image change value }
    ensures { IfOk result (λ made. made ≡ changed (is_among names.now) (C.image change) from) }
{
    let mut change = change;
    let mut record = from;
    for name in names.as_slice() {
        change_field_named(&mut change, alloc, name, &mut record)?;
    }
    Ok(record)
}

/// Changes the value of the field of this name, if there is one.
#[inline(always)]
fn change_field_named<C: Change>(
    change: &mut C,
    alloc: Global,
    name: &Bytes,
    fields: &mut Record,
) -> Result<(), NoMemory>
    ensures changed { OnOk result (fields.new
        ≡ changed (has_name name.now) (C.image change.old) fields.old) }
    ensures image { C.image change.new ≡ C.image change.old }
{
    for place in 0..fields.len() {
        if name_at(fields, place).is(name) {
            return change_value(change, alloc, fields, place);
        }
    }
    Ok(())
}
