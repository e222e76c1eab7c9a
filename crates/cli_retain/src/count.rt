//! The options of `count`.
ghost use Rattle.std.specs.Prelude.{◌≡◌, IfOk};
ghost use Rattle.cli_retain.specs.Count.{count_of};

use cli_choices::{given_names, text_or};
use cli_grammar::VerbWords;
use mlr_spec::NoMemory;
use std::alloc::Global;
use verbs_retain::Count;

/// The options of `count`.
pub fn count(alloc: Global, given: &VerbWords) -> Result<Count, NoMemory>
    ensures { IfOk result (λ options. options ≡ count_of given.now) }
{
    Ok(Count {
        groups: given_names(alloc, given, b"-g")?,
        number: given.has(b"-n"),
        output: text_or(alloc, given, b"-o", b"count")?,
    })
}
