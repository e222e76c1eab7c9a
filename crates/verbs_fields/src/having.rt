//! `having-fields`: whether a record has fields of some names.
ghost use Rattle.std.specs.Prelude.{◌≡◌};
ghost use Rattle.verbs_fields.specs.Having.{all_defined, any_defined, has_all, has_no_others, is_defined};

use mlr_event::Names;
use mlr_record::Record;
use verbs_base::is_empty;

/// Whether the record has a field of each name, for `having-fields --at-least`. It doesn't allocate.
pub fn has_all(names: &Names, from: &Record) -> bool
    ensures { result ≡ has_all names.now from.now }
{
    names
        .as_slice()
        .iter()
        .all(|name| from.get(name.as_slice()).is_some())
}

/// Whether each field of the record has one of the names, for `having-fields --at-most`. It doesn't
/// allocate.
pub fn has_no_others(names: &Names, from: &Record) -> bool
    ensures { result ≡ has_no_others names.now from.now }
{
    for place in 0..from.len() {
        if !names.has(from.entry(place).0) {
            return false;
        }
    }
    true
}

/// Whether the record has a field of each name, and none of these is empty, for `having-fields
/// --all-defined`. It doesn't allocate.
pub fn all_defined(names: &Names, from: &Record) -> bool
    ensures { result ≡ all_defined names.now from.now }
{
    names
        .as_slice()
        .iter()
        .all(|name| is_defined(from, name.as_slice()))
}

/// Whether the record has a field of one of the names that isn't empty, for `having-fields --any-defined`.
/// It doesn't allocate.
pub fn any_defined(names: &Names, from: &Record) -> bool
    ensures { result ≡ any_defined names.now from.now }
{
    names
        .as_slice()
        .iter()
        .any(|name| is_defined(from, name.as_slice()))
}

/// Whether the record has a field of this name that isn't empty.
fn is_defined(from: &Record, name: &[u8]) -> bool
    ensures { result ≡ is_defined from.now name.now }
{
    match from.get(name) {
        Some(value) => !is_empty(value),
        None => false,
    }
}
