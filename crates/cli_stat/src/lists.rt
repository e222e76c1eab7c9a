//! Lists of accumulators and steppers in words.
ghost use Rattle.std.specs.Prelude.{◌≡◌, ◌++◌, IfOk, OnOk};
ghost use Rattle.std.specs.List.{filter_map};
ghost use Rattle.std.specs.Option.{option_to_list};
ghost use Rattle.cli_stat.specs.Lists.{accumulators_after, steppers_after};
ghost use Rattle.stat_base.specs.Accumulators.{accumulator_named};
ghost use Rattle.stat_base.specs.Steppers.{stepper_named};

use cli_choices::{all_names, word_or};
use cli_grammar::VerbWords;
use mlr_list::List;
use mlr_spec::NoMemory;
use stat_base::{Accumulator, Stepper};
use std::alloc::Global;

/// The accumulators in the word after the last `-a`.
pub fn accumulators_after(alloc: Global, given: &VerbWords) -> Result<List<Accumulator>, NoMemory>
    ensures { IfOk result (λ accumulators. accumulators ≡ accumulators_after given.now.options) }
{
    let names = all_names(alloc, word_or(given, b"-a", b""))?;
    let mut accumulators = List::new(alloc);
    for name in names.as_slice() {
        push_accumulator(name.as_slice(), &mut accumulators)?;
    }
    Ok(accumulators)
}

/// Appends the accumulator with this name, if there is one.
fn push_accumulator(name: &[u8], accumulators: &mut List<Accumulator>) -> Result<(), NoMemory>
    ensures { OnOk result (accumulators.new
        ≡ accumulators.old ++ option_to_list (accumulator_named name.now)) }
{
    match Accumulator::named(name) {
        Some(accumulator) => accumulators.push(accumulator),
        None => Ok(()),
    }
}

/// The steppers in the word after the last `-a`.
pub fn steppers_after(alloc: Global, given: &VerbWords) -> Result<List<Stepper>, NoMemory>
    ensures { IfOk result (λ steppers. steppers ≡ steppers_after given.now.options) }
{
    let names = all_names(alloc, word_or(given, b"-a", b""))?;
    let mut steppers = List::new(alloc);
    for name in names.as_slice() {
        push_stepper(name.as_slice(), &mut steppers)?;
    }
    Ok(steppers)
}

/// Appends the stepper with this name, if there is one.
fn push_stepper(name: &[u8], steppers: &mut List<Stepper>) -> Result<(), NoMemory>
    ensures { OnOk result (steppers.new
        ≡ steppers.old ++ option_to_list (stepper_named name.now)) }
{
    match Stepper::named(name) {
        Some(stepper) => steppers.push(stepper),
        None => Ok(()),
    }
}
