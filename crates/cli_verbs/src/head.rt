//! The options of `head`.
ghost use Rattle.std.specs.Prelude.{◌≡◌, IfOk};
ghost use Rattle.cli_verbs.specs.Head.{head_of};

use cli_choices::{count_or, given_names};
use cli_grammar::VerbWords;
use mlr_spec::NoMemory;
use std::alloc::Global;
use verbs_state::Head;

/// The options of `head`.
pub(crate) fn head(alloc: Global, given: &VerbWords) -> Result<Head, NoMemory>
    ensures { IfOk result (λ options. options ≡ head_of given.now) }
{
    Ok(Head {
        count: count_or(given, b"-n", 10),
        groups: given_names(alloc, given, b"-g")?,
    })
}
