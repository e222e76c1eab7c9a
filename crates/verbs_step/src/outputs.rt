//! The names of the fields that `step` makes.
ghost use Rattle.std.specs.Prelude.{◌≡◌, ◌++◌, IfOk, OnOk};
ghost use Rattle.verbs_step.specs.Made.{outputs_for, outputs_of};

use crate::step::Step;
use mlr_spec::NoMemory;
use mlr_value::Bytes;
use stat_base::{Stepper, output_name};
use std::alloc::Global;

/// The names of all fields that may be made: for each named field, one for each stepper.
pub(crate) fn outputs(alloc: Global, options: &Step) -> Result<Vec<Bytes>, NoMemory>
    ensures { IfOk result (λ outputs. outputs.items ≡ outputs_of options.now) }
{
    let mut outputs = Vec::new(alloc);
    for name in options.names.as_slice() {
        append_outputs(
            alloc,
            name.as_slice(),
            options.steppers.as_slice(),
            &mut outputs,
        )?;
    }
    Ok(outputs)
}

/// Appends the names of the fields that are made of one field.
fn append_outputs(
    alloc: Global,
    name: &[u8],
    steppers: &[Stepper],
    outputs: &mut Vec<Bytes>,
) -> Result<(), NoMemory>
    ensures { OnOk result (outputs.new.items
        ≡ outputs.old.items ++ outputs_for steppers.now name.now) }
{
    for stepper in steppers {
        outputs.push(output_name(alloc, name, stepper.name())?)?;
    }
    Ok(())
}
