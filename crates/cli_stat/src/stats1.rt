//! The options of `stats1`.
ghost use Rattle.std.specs.Prelude.{◌≡◌, IfOk};
ghost use Rattle.cli_stat.specs.Stats1.{stats1_of};

use crate::lists::accumulators_after;
use cli_choices::{given_names, names_after};
use cli_grammar::VerbWords;
use mlr_spec::NoMemory;
use std::alloc::Global;
use verbs_summary::Stats1;

/// The options of `stats1`.
pub fn stats1(alloc: Global, given: &VerbWords) -> Result<Stats1, NoMemory>
    ensures { IfOk result (λ options. options ≡ stats1_of given.now) }
{
    Ok(Stats1 {
        accumulators: accumulators_after(alloc, given)?,
        names: names_after(alloc, given, b"-f")?,
        groups: given_names(alloc, given, b"-g")?,
    })
}
