//! The options of `reorder`.
ghost use Rattle.std.specs.Prelude.{◌≡◌, IfOk};
ghost use Rattle.cli_verbs.specs.Reorder.{reorder_of};

use cli_choices::names_after;
use cli_grammar::VerbWords;
use mlr_spec::NoMemory;
use std::alloc::Global;
use verbs_fields::Reorder;

/// The options of `reorder`.
pub(crate) fn reorder(alloc: Global, given: &VerbWords) -> Result<Reorder, NoMemory>
    ensures { IfOk result (λ options. options ≡ reorder_of given.now) }
{
    Ok(Reorder {
        names: names_after(alloc, given, b"-f")?,
        last: given.has(b"-e"),
    })
}
