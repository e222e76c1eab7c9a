//! The options of `gap`.
ghost use Rattle.std.specs.Prelude.{◌≡◌, IfOk};
ghost use Rattle.cli_verbs.specs.Gap.{gap_of};

use cli_choices::{count_or, names_after};
use cli_grammar::VerbWords;
use mlr_spec::NoMemory;
use std::alloc::Global;
use verbs_state::Gap;

/// The options of `gap`.
pub(crate) fn gap(alloc: Global, given: &VerbWords) -> Result<Gap, NoMemory>
    ensures { IfOk result (λ options. options ≡ gap_of given.now) }
{
    if given.has(b"-g") {
        return Ok(Gap::Groups(names_after(alloc, given, b"-g")?));
    }
    Ok(Gap::Count(count_or(given, b"-n", 1)))
}
