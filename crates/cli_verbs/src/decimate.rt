//! The options of `decimate`.
ghost use Rattle.std.specs.Prelude.{◌≡◌, IfOk};
ghost use Rattle.cli_verbs.specs.Decimate.{decimate_of};

use cli_choices::{count_or, given_names};
use cli_grammar::VerbWords;
use mlr_spec::NoMemory;
use std::alloc::Global;
use verbs_state::Decimate;

/// The options of `decimate`.
pub(crate) fn decimate(alloc: Global, given: &VerbWords) -> Result<Decimate, NoMemory>
    ensures { IfOk result (λ options. options ≡ decimate_of given.now) }
{
    Ok(Decimate {
        count: count_or(given, b"-n", 10),
        first: given.has(b"-b"),
        groups: given_names(alloc, given, b"-g")?,
    })
}
