//! The options of `repeat`.
ghost use Rattle.std.specs.Prelude.{◌≡◌, IfOk};
ghost use Rattle.cli_verbs.specs.Repeat.{repeat_of};

use cli_choices::{count_or, text_or};
use cli_grammar::VerbWords;
use mlr_spec::NoMemory;
use std::alloc::Global;
use verbs_state::Repeat;

/// The options of `repeat`.
pub(crate) fn repeat(alloc: Global, given: &VerbWords) -> Result<Repeat, NoMemory>
    ensures { IfOk result (λ options. options ≡ repeat_of given.now) }
{
    if given.has(b"-f") {
        return Ok(Repeat::Field(text_or(alloc, given, b"-f", b"")?));
    }
    Ok(Repeat::Count(count_or(given, b"-n", 0)))
}
