//! The options of `fill-empty`.
ghost use Rattle.std.specs.Prelude.{◌≡◌, IfOk};
ghost use Rattle.cli_verbs.specs.FillEmpty.{fill_empty_of};

use cli_choices::text_or;
use cli_grammar::VerbWords;
use mlr_spec::NoMemory;
use std::alloc::Global;
use verbs_values::FillEmpty;

/// The options of `fill-empty`.
pub(crate) fn fill_empty(alloc: Global, given: &VerbWords) -> Result<FillEmpty, NoMemory>
    ensures { IfOk result (λ options. options ≡ fill_empty_of given.now) }
{
    Ok(FillEmpty {
        text: text_or(alloc, given, b"-v", b"N/A")?,
        as_string: given.has(b"-S"),
    })
}
