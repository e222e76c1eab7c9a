//! Plans of some verbs, as the tests run them.
ghost use Rattle.std.specs.Prelude.{◌≡◌, [], true, IfOk};
ghost use Rattle.std.specs.List.{list_all};
ghost use Rattle.read_files.specs.Represents.{can_read};
ghost use Rattle.plan_verbs.specs.Plans.{IsSound, can_read_left};
ghost use Rattle.verb_specs.specs.Verbs.{AreSound};

use chain_core::{NameList, Plan, StyleList, VerbList};
use mlr_event::{Format, InputName, ReadOpts};
use mlr_list::List;
use mlr_spec::NoMemory;
use std::alloc::Global;
use writers::WriteOpts;

/// DKVP, as it is read.
pub(crate) fn read_opts(alloc: Global) -> Result<ReadOpts, NoMemory>
    ensures { IfOk result (λ opts. can_read opts ≡ true) }
{
    ReadOpts::of(alloc, Format::Dkvp)
}

/// The styles of a plan: this format, and one that standard output doesn't have.
fn styles(alloc: Global, format: Format) -> Result<StyleList, NoMemory>
    ensures { IfOk result (λ styles. styles ≡ [] → ⊥) }
{
    let mut styles = List::new(alloc);
    styles.push(WriteOpts::of(alloc, format)?)?;
    styles.push(WriteOpts::of(alloc, Format::Csv)?)?;
    Ok(styles)
}

/// Standard input alone.
fn stdin(alloc: Global) -> Result<NameList, NoMemory> {
    let mut names = NameList::new(alloc);
    names.push(InputName::Stdin)?;
    Ok(names)
}

/// A plan that reads standard input as DKVP, and writes this format.
pub(crate) fn plan_of(alloc: Global, verbs: VerbList, format: Format) -> Result<Plan, NoMemory>
    requires sound { AreSound verbs }
    requires lefts { list_all can_read_left verbs ≡ true }
    ensures { IfOk result IsSound }
{
    Ok(Plan {
        read: read_opts(alloc)?,
        inputs: stdin(alloc)?,
        no_input: false,
        verbs,
        styles: styles(alloc, format)?,
        per_batch: 500,
        turns: 1_000_000,
        serial: true,
    })
}
