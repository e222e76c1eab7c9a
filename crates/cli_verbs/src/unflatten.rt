//! The options of `unflatten`.
ghost use Rattle.std.specs.Prelude.{◌≡◌, IfOk};
ghost use Rattle.cli_verbs.specs.Unflatten.{unflatten_of};

use cli_choices::{given_names, separator_or};
use cli_grammar::VerbWords;
use mlr_spec::NoMemory;
use std::alloc::Global;
use verbs_values::Unflatten;

/// The options of `unflatten`.
pub(crate) fn unflatten(
    alloc: Global,
    flatsep: &[u8],
    given: &VerbWords,
) -> Result<Unflatten, NoMemory>
    ensures { IfOk result (λ options. options ≡ unflatten_of flatsep.now given.now) }
{
    Ok(Unflatten {
        names: given_names(alloc, given, b"-f")?,
        separator: separator_or(alloc, given, b"-s", flatsep)?,
    })
}
