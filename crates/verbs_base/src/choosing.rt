//! Fields chosen by their names.
ghost use Rattle.std.specs.Prelude.{◌≡◌};
ghost use Rattle.mlr_value.specs.Value.{tree_of};
ghost use Rattle.verbs_base.specs.Choosing.{dropped, is_empty, kept, picked};

use crate::extraction::{drop_after, swap_named};
use crate::field_choice::is_named;
use mlr_event::Names;
use mlr_record::Record;
use mlr_value::Value;

/// The named fields, in the record's order. It doesn't allocate.
pub fn keep_named(names: &Names, from: Record) -> Record
    ensures { result ≡ kept names.now from }
{
    let mut fields = from.into_fields();
    let alloc = *fields.allocator();
    fields.retain(|field| is_named(names, &field.name));
    Record::of_fields(alloc, fields)
}

/// The fields that aren't named. It doesn't allocate.
pub fn drop_named(names: &Names, from: Record) -> Record
    ensures { result ≡ dropped names.now from }
{
    let mut fields = from.into_fields();
    let alloc = *fields.allocator();
    fields.retain(|field| !is_named(names, &field.name));
    Record::of_fields(alloc, fields)
}

/// The named fields, in the order of the names. A name that repeats counts once. It doesn't allocate.
pub fn pick_named(names: &Names, from: Record) -> Record
    ensures { result ≡ picked names.now from }
{
    let mut fields = from.into_fields();
    let alloc = *fields.allocator();
    let count = swap_named(names.as_slice(), &mut fields);
    drop_after(&mut fields, count);
    Record::of_fields(alloc, fields)
}

/// Whether a value is the empty text.
pub fn is_empty(value: &Value) -> bool
    ensures { result ≡ is_empty (tree_of value.now) }
{
    matches!(value, Value::Empty)
}
