//! The options of `count-distinct`.
ghost use Rattle.std.specs.Prelude.{◌≡◌, IfOk};
ghost use Rattle.cli_retain.specs.CountDistinct.{count_distinct_of};

use cli_choices::{names_after, text_or};
use cli_grammar::VerbWords;
use mlr_spec::NoMemory;
use std::alloc::Global;
use verbs_retain::CountDistinct;

/// The options of `count-distinct`.
pub fn count_distinct(alloc: Global, given: &VerbWords) -> Result<CountDistinct, NoMemory>
    ensures { IfOk result (λ options. options ≡ count_distinct_of given.now) }
{
    Ok(CountDistinct {
        names: names_after(alloc, given, b"-f")?,
        number: given.has(b"-n"),
        output: text_or(alloc, given, b"-o", b"count")?,
    })
}
