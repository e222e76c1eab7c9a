//! Records that a verb passes as they are.
ghost use Rattle.std.specs.Prelude.{◌≡◌, ◌∷◌, [], if◌then◌else◌};
ghost use Rattle.std.specs.Option.{option_to_list};

use mlr_record::Record;

/// The record, if it passes.
pub(crate) fn passing(passes: bool, fields: Record) -> Option<Record>
    ensures { option_to_list result ≡ (if passes then fields ∷ [] else []) }
{
    if passes { Some(fields) } else { None }
}
