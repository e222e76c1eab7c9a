//! The options of `tail`.
ghost use Rattle.std.specs.Prelude.{◌≡◌, IfOk};
ghost use Rattle.cli_retain.specs.Tail.{tail_of};

use cli_choices::{count_or, given_names};
use cli_grammar::VerbWords;
use mlr_spec::NoMemory;
use std::alloc::Global;
use verbs_retain::Tail;

/// The options of `tail`.
pub fn tail(alloc: Global, given: &VerbWords) -> Result<Tail, NoMemory>
    ensures { IfOk result (λ options. options ≡ tail_of given.now) }
{
    Ok(Tail {
        count: count_or(given, b"-n", 10),
        groups: given_names(alloc, given, b"-g")?,
    })
}
