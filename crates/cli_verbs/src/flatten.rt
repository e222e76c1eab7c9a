//! The options of `flatten`.
ghost use Rattle.std.specs.Prelude.{◌≡◌, IfOk};
ghost use Rattle.cli_verbs.specs.Flatten.{flatten_of};

use cli_choices::{given_names, separator_or};
use cli_grammar::VerbWords;
use mlr_spec::NoMemory;
use std::alloc::Global;
use verbs_values::Flatten;

/// The options of `flatten`.
pub(crate) fn flatten(alloc: Global, flatsep: &[u8], given: &VerbWords) -> Result<Flatten, NoMemory>
    ensures { IfOk result (λ options. options ≡ flatten_of flatsep.now given.now) }
{
    Ok(Flatten {
        names: given_names(alloc, given, b"-f")?,
        separator: separator_or(alloc, given, b"-s", flatsep)?,
    })
}
