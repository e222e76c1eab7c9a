//! The fields that `sub`, `gsub` and `ssub` change.
ghost use Rattle.std.specs.Prelude.{◌≡◌, IfOk};
ghost use Rattle.cli_verbs.specs.SubFields.{sub_fields_of};

use cli_choices::names_after;
use cli_grammar::VerbWords;
use mlr_spec::NoMemory;
use std::alloc::Global;
use verbs_pattern::SubFields;

/// The fields that `sub`, `gsub` and `ssub` change.
pub(crate) fn sub_fields(alloc: Global, given: &VerbWords) -> Result<SubFields, NoMemory>
    ensures { IfOk result (λ fields. fields ≡ sub_fields_of given.now) }
{
    if given.has(b"-a") {
        return Ok(SubFields::All);
    }
    Ok(SubFields::Named(names_after(alloc, given, b"-f")?))
}
