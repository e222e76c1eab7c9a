//! The fields that `sub`, `gsub` and `ssub` change, by their names.
ghost use Rattle.std.specs.Prelude.{◌≡◌, IfOk, IsOk};
ghost use Rattle.std.specs.Option.{option_map};
ghost use Rattle.verbs_pattern.specs.SubFields.{names_of};

use mlr_event::Names;
use mlr_spec::NoMemory;
use std::alloc::Global;

/// The fields that `sub`, `gsub` and `ssub` change.
#[derive(Drop)]
pub enum SubFields {
    /// `-a`: all fields.
    All,
    /// `-f`: the fields with these names.
    Named(Names),
}

impl SubFields {
    /// A copy. It allocates for the names.
    pub fn copy(&self, _: Global) -> Result<Self, NoMemory>
        ensures same { IfOk result (λ copy. copy ≡ self.now) }
        ensures all { self.now ≡ SubFields.All → IsOk result }
    {
        Ok(match self {
            SubFields::All => SubFields::All,
            SubFields::Named(names) => SubFields::Named(names.copy()?),
        })
    }
}

/// The names of the fields that are changed, or None for all fields.
pub(crate) fn names_of(fields: &SubFields) -> Option<&Names>
    ensures { option_map (λ names. names.now) result ≡ names_of fields.now }
{
    match fields {
        SubFields::All => None,
        SubFields::Named(names) => Some(names),
    }
}
