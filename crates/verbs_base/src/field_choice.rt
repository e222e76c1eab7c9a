//! Which fields a verb takes: those of its names, or all.
ghost use Rattle.std.specs.Prelude.{◌≡◌, ◌<◌, Some, length, slice_get};
ghost use Rattle.std.specs.Option.{option_map};
ghost use Rattle.mlr_event.specs.Reading.{is_among};
ghost use Rattle.mlr_spec.specs.Tree.{Tree};
ghost use Rattle.verbs_base.specs.Changing.{is_taken};

use mlr_event::Names;
use mlr_record::Record;
use mlr_value::Bytes;

/// Whether a verb takes the field of a name: one of the names that it was given, or any where it was given none. It takes
/// no memory.
#[inline(always)]
pub fn is_taken(names: Option<&Names>, name: &Bytes) -> bool
    ensures { result ≡ is_taken (option_map (λ names. names.now) names.entry) name.now }
{
    match names {
        Some(names) => is_named(names, name),
        None => true,
    }
}

/// Whether a name is one of the names. It takes no memory.
#[inline(always)]
pub fn is_named(names: &Names, name: &Bytes) -> bool
    ensures { result ≡ is_among names.now name.now }
{
    is_among(names.as_slice(), name)
}

/// Whether a name is in the list. It takes no memory.
#[inline(always)]
pub fn is_among(names: &[Bytes], name: &Bytes) -> bool
    ensures { result ≡ is_among names.now name.now }
{
    for other in names {
        if name.is(other) {
            return true;
        }
    }
    false
}

/// The name of the field at a place. It takes no memory.
#[inline]
pub(crate) fn name_at(fields: &Record, place: usize) -> &Bytes
    requires { place < length fields.now }
    ensures { (value : Tree) × (slice_get fields.now place ≡ Some (result.now, value)) }
{
    &fields.fields()[place].name
}
