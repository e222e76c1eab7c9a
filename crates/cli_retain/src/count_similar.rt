//! The options of `count-similar`.
ghost use Rattle.std.specs.Prelude.{◌≡◌, IfOk};
ghost use Rattle.cli_retain.specs.CountSimilar.{count_similar_of};

use cli_choices::{names_after, text_or};
use cli_grammar::VerbWords;
use mlr_spec::NoMemory;
use std::alloc::Global;
use verbs_retain::CountSimilar;

/// The options of `count-similar`.
pub fn count_similar(alloc: Global, given: &VerbWords) -> Result<CountSimilar, NoMemory>
    ensures { IfOk result (λ options. options ≡ count_similar_of given.now) }
{
    Ok(CountSimilar {
        groups: names_after(alloc, given, b"-g")?,
        output: text_or(alloc, given, b"-o", b"count")?,
    })
}
