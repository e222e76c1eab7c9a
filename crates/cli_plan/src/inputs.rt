//! The inputs of a command line.
ghost use Rattle.std.specs.Prelude.{◌≡◌, ◌≤◌, ◌^◌, [], length, map, filter, IfOk};
ghost use Rattle.mlr_event.specs.declared.names.InputName.TheVariants.{File};
ghost use Rattle.cli_plan.specs.Inputs.{file_of, inputs_in, is_from};

use crate::flag::{setting_of, word_of};
use cli_grammar::{Given, Setting};
use mlr_event::{InputName, NameList};
use mlr_spec::NoMemory;
use mlr_value::Bytes;
use std::alloc::Global;

/// More inputs than any memory holds.
const MANY: usize = 1 << 60;

/// The inputs in their order: the file names after the verbs, or else those that flags give, or
/// else standard input. It finds no memory for more of them than any memory holds.
pub fn inputs_of(alloc: Global, flags: &[Given], names: &[Bytes]) -> Result<NameList, NoMemory>
    ensures inputs { IfOk result (λ inputs. inputs ≡ inputs_in flags.now names.now) }
    ensures few { IfOk result (λ inputs. length inputs ≤ 2 ^ 60) }
{
    let files = files_of(alloc, names)?;
    if files.len() != 0 {
        return Ok(files);
    }
    let mut inputs = files_from(alloc, flags)?;
    if inputs.len() == 0 {
        inputs.push(InputName::Stdin)?;
    }
    Ok(inputs)
}

/// The files with these names.
fn files_of(alloc: Global, names: &[Bytes]) -> Result<NameList, NoMemory>
    ensures files { IfOk result (λ files. files ≡ map File names.now) }
    ensures few { IfOk result (λ files. length files ≤ 2 ^ 60) }
{
    if names.len() >= MANY {
        return Err(NoMemory);
    }
    let mut files = NameList::new(alloc);
    for name in names {
        files.push(InputName::File(Bytes::copy_of(alloc, name.as_slice())?))?;
    }
    Ok(files)
}

/// The files that flags give.
fn files_from(alloc: Global, flags: &[Given]) -> Result<NameList, NoMemory>
    ensures files { IfOk result (λ files. files ≡ map file_of (filter is_from flags.now)) }
    ensures few { IfOk result (λ files. length files ≤ 2 ^ 60) }
{
    if flags.len() >= MANY {
        return Err(NoMemory);
    }
    let mut files = NameList::new(alloc);
    for flag in flags {
        if is_from(flag) {
            files.push(InputName::File(Bytes::copy_of(alloc, word_of(flag))?))?;
        }
    }
    Ok(files)
}

/// Whether a flag gives an input.
fn is_from(flag: &Given) -> bool
    ensures { result ≡ is_from flag.now }
{
    matches!(setting_of(flag), Some(Setting::From))
}
