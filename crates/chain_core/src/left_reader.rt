//! The reader of a plan's left files.
ghost use Rattle.std.specs.Prelude.{◌≡◌, [], List, Option, IfOk};
ghost use Rattle.mlr_world.specs.Taken.{Take};
ghost use Rattle.read_files.specs.Takes.{After};
ghost use Rattle.left_files.specs.Represents.{ReadAll, TurnCause, Turned};
ghost use Rattle.plan_verbs.specs.declared.plan.Plan.{Plan as SpecPlan};
ghost use Rattle.chain_core.specs.Parts.{ReadsLefts};
ghost use Rattle.plan_verbs.specs.Plans.{IsSound, left_files};

use left_files::LeftTurn;
use mlr_spec::NoMemory;
use mlr_world::Inputs;
use plan_verbs::{Plan, left_files_of};
use std::alloc::Global;

/// Reads the left files of a plan one after another, each whole. It represents what was taken of them.
pub struct LeftReader {
    reader: left_files::LeftReader,
}

// Written by hand, so that the crates above call it instead of dropping the fields themselves.
impl Drop for LeftReader {
    fn drop(self) {
        let LeftReader { reader } = self;
        drop(reader);
    }
}

impl LeftReader {
    /// A reader that has taken nothing. It allocates for copies of the names and options.
    pub fn new(alloc: Global, plan: &Plan) -> Result<Self, NoMemory>
        requires { IsSound plan.now }
        ensures { IfOk result (ReadsLefts plan.now []) }
    {
        Ok(LeftReader {
            reader: left_files::LeftReader::new(alloc, left_files_of(alloc, plan)?),
        })
    }

    /// Makes at most one read, of fewer than 65,536 bytes. It is called while every turn before returned Went.
    pub fn turn<I: Inputs>(&mut self, inputs: &mut I) -> LeftTurn
        requires { (plan : SpecPlan) × (before : Option (List Take)) × (given : List Take)
            × ReadsLefts plan given self.old
            × After before given (I.contents inputs.old) (I.taken inputs.old)
            (I.open_entry inputs.old) }
        ensures turned { (plan : SpecPlan) (before : Option (List Take)) (given : List Take)
            → ReadsLefts plan given self.old
            → After before given (I.contents inputs.old) (I.taken inputs.old)
            (I.open_entry inputs.old)
            → Turned result (left_files plan.verbs) before given self.new.reader
            (I.contents inputs.old) (I.taken inputs.new) (I.open_entry inputs.new) }
        ensures contents { I.contents inputs.new ≡ I.contents inputs.old }
        ensures cause { TurnCause result (I.faults inputs.old) (I.faults inputs.new) }
    {
        self.reader.turn(inputs)
    }

    /// Reads all files: makes turns until it is over.
    pub fn read_all<I: Inputs>(&mut self, inputs: &mut I) -> LeftTurn
        requires { (plan : SpecPlan) × ReadsLefts plan [] self.old }
        ensures read { (plan : SpecPlan) → ReadsLefts plan [] self.old
            → ReadAll result (left_files plan.verbs) (I.contents inputs.old)
            (I.taken inputs.old) (I.taken inputs.new) (I.open_entry inputs.new) }
        ensures contents { I.contents inputs.new ≡ I.contents inputs.old }
        ensures cause { TurnCause result (I.faults inputs.old) (I.faults inputs.new) }
    {
        self.reader.read_all(inputs)
    }
}
