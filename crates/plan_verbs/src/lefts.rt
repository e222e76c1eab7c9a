//! The left files of a plan, and what they hold.
ghost use Rattle.std.specs.Prelude.{◌≡◌, ◌++◌, IfOk, OnOk, drop, reverse};
ghost use Rattle.plan_verbs.specs.Plans.{left_file, left_files};
ghost use Rattle.verb_specs.specs.Verbs.{after_left, first_of, left_for, left_of, lefts_for};

use crate::plan::Plan;
use left_files::LeftFile;
use mlr_event::Events;
use mlr_list::List;
use mlr_spec::NoMemory;
use std::alloc::Global;
use verb_specs::VerbSpec;

/// For each verb of a plan the events of its left file, which are none for a verb without one.
pub type Lefts = List<Events>;

/// The left files of a plan, in the order of their verbs. It allocates for copies of the names and options.
pub fn left_files_of(alloc: Global, plan: &Plan) -> Result<Vec<LeftFile>, NoMemory>
    ensures { IfOk result (λ files. files.items ≡ left_files plan.now.verbs) }
{
    let mut files = Vec::new(alloc);
    let mut number = 1;
    for spec in plan.verbs.as_slice() {
        push_left_file(alloc, number, spec, &mut files)?;
        number = number.saturating_add(1);
    }
    Ok(files)
}

/// Appends the left file of the verb with this number, if it has one.
fn push_left_file(
    alloc: Global,
    number: u32,
    spec: &VerbSpec,
    files: &mut Vec<LeftFile>,
) -> Result<(), NoMemory>
    ensures { OnOk result (files.new.items ≡ files.old.items ++ left_file number (left_of spec.now)) }
{
    if let Some(left) = spec.left() {
        files.push(LeftFile {
            number,
            read: left.read.copy(alloc)?,
            name: left.name.copy(alloc)?,
        })?;
    }
    Ok(())
}

/// An entry for each verb of a plan, of what its left files hold in their order. It allocates for the list.
pub fn lefts_for(alloc: Global, plan: &Plan, held: Vec<Events>) -> Result<Lefts, NoMemory>
    ensures { IfOk result (λ lefts. lefts ≡ lefts_for plan.now.verbs held.items) }
{
    let mut lefts = List::new(alloc);
    let mut held = held;
    held.reverse();
    for spec in plan.verbs.as_slice() {
        lefts.push(next_left(alloc, spec, &mut held))?;
    }
    Ok(lefts)
}

/// What the left file of a verb holds, which is the last of these; nothing for a verb without one.
fn next_left(alloc: Global, spec: &VerbSpec, held: &mut Vec<Events>) -> Events
    ensures left { result ≡ left_for (left_of spec.now) (reverse held.old.items) }
    ensures rest { reverse held.new.items
        ≡ after_left (left_of spec.now) (reverse held.old.items) }
{
    match spec.left() {
        Some(_) => last_of(alloc, held),
        None => Events::new(alloc),
    }
}

/// Takes the last of these lists away; nothing where there is none.
fn last_of(alloc: Global, held: &mut Vec<Events>) -> Events
    ensures last { result ≡ first_of (reverse held.old.items) }
    ensures rest { reverse held.new.items ≡ drop 1 (reverse held.old.items) }
{
    match held.pop() {
        Some(events) => events,
        None => Events::new(alloc),
    }
}
