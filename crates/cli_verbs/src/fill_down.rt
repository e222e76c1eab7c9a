//! The options of `fill-down`.
ghost use Rattle.std.specs.Prelude.{◌≡◌, IfOk};
ghost use Rattle.cli_verbs.specs.FillDown.{fill_down_of};

use cli_choices::names_after;
use cli_grammar::VerbWords;
use mlr_spec::NoMemory;
use std::alloc::Global;
use verbs_state::FillDown;

/// The options of `fill-down`.
pub(crate) fn fill_down(alloc: Global, given: &VerbWords) -> Result<FillDown, NoMemory>
    ensures { IfOk result (λ options. options ≡ fill_down_of given.now) }
{
    Ok(FillDown {
        names: names_after(alloc, given, b"-f")?,
        blank: given.has(b"-a"),
    })
}
