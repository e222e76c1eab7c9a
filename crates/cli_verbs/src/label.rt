//! The options of `label`.
ghost use Rattle.std.specs.Prelude.{◌≡◌, IfOk};
ghost use Rattle.cli_verbs.specs.Label.{label_of};

use cli_choices::all_names;
use cli_grammar::VerbWords;
use mlr_spec::NoMemory;
use std::alloc::Global;
use verbs_fields::Label;

/// The options of `label`.
pub(crate) fn label(alloc: Global, given: &VerbWords) -> Result<Label, NoMemory>
    ensures { IfOk result (λ options. options ≡ label_of given.now) }
{
    Ok(Label {
        names: all_names(alloc, given.word(0))?,
    })
}
