//! The options of `step`.
ghost use Rattle.std.specs.Prelude.{◌≡◌, IfOk};
ghost use Rattle.cli_stat.specs.Step.{step_of};

use crate::lists::steppers_after;
use cli_choices::{given_names, names_after};
use cli_grammar::VerbWords;
use mlr_spec::NoMemory;
use std::alloc::Global;
use verbs_step::Step;

/// The options of `step`.
pub fn step(alloc: Global, given: &VerbWords) -> Result<Step, NoMemory>
    ensures { IfOk result (λ options. options ≡ step_of given.now) }
{
    Ok(Step {
        steppers: steppers_after(alloc, given)?,
        names: names_after(alloc, given, b"-f")?,
        groups: given_names(alloc, given, b"-g")?,
    })
}
