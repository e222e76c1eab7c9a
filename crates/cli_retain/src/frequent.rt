//! The options of `most-frequent` and `least-frequent`.
ghost use Rattle.std.specs.Prelude.{◌≡◌, IfOk};
ghost use Rattle.cli_retain.specs.Frequent.{frequent_of};

use cli_choices::{count_or, names_after, text_or};
use cli_grammar::VerbWords;
use mlr_spec::NoMemory;
use std::alloc::Global;
use verbs_retain::Frequent;

/// The options of `most-frequent` and `least-frequent`.
pub fn frequent(alloc: Global, given: &VerbWords) -> Result<Frequent, NoMemory>
    ensures { IfOk result (λ options. options ≡ frequent_of given.now) }
{
    Ok(Frequent {
        names: names_after(alloc, given, b"-f")?,
        brief: given.has(b"-b"),
        count: count_or(given, b"-n", 10),
        output: text_or(alloc, given, b"-o", b"count")?,
    })
}
