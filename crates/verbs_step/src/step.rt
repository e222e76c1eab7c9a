//! `step`: values that are made of each value of a field and those before it.
ghost use Rattle.std.specs.Prelude.{◌≡◌, [], IfOk};
ghost use Rattle.mlr_groups.specs.declared.group_by.GroupBy.{GroupBy as SpecGroupBy};
ghost use Rattle.verbs_step.specs.Step.{step, step_groups};

use crate::groups::enter;
use crate::making::add_steps;
use crate::outputs::outputs;
use crate::track::Track;
use mlr_event::{Ctx, Event, Events, Names};
use mlr_groups::{GroupBy, Groups};
use mlr_list::List;
use mlr_record::Record;
use mlr_spec::NoMemory;
use mlr_value::{Bytes, Value};
use stat_base::Stepper;
use std::alloc::Global;
use verbs_base::Stateful;

/// The options of `step`.
#[derive(Drop)]
pub struct Step {
    /// What is made of each value.
    pub steppers: List<Stepper>,
    /// The fields whose values are taken.
    pub names: Names,
    /// The grouping fields: only values of the same group count.
    pub groups: Option<Names>,
}

impl Step {
    /// A copy. It allocates for the names.
    pub fn copy(&self, alloc: Global) -> Result<Self, NoMemory>
        ensures { IfOk result (λ copy. copy ≡ self.now) }
    {
        let mut steppers = List::new(alloc);
        for stepper in self.steppers.as_slice() {
            steppers.push(*stepper)?;
        }
        Ok(Step {
            steppers,
            names: self.names.copy()?,
            groups: self.groups.as_ref().map(Names::copy).transpose()?,
        })
    }

    /// What the records of a group have in common. It allocates for the names.
    fn by(&self, alloc: Global) -> Result<GroupBy, NoMemory>
        ensures { IfOk result (λ by. by ≡ step_groups self.now) }
    {
        match &self.groups {
            Some(names) => Ok(GroupBy::Texts(names.copy()?)),
            None => Ok(GroupBy::Texts(Names::new(alloc))),
        }
    }
}

/// The verb `step`.
pub struct StepVerb {
    alloc: Global,
    options: Step,
    /// The names of the fields that may be made: for each named field, one for each stepper.
    outputs: Vec<Bytes>,
    groups: Groups,
    /// For each group and each named field, one track for each stepper.
    tracks: Vec<Vec<Vec<Track>>>,
    /// The values that a record makes, in the order of their names. It is kept for its room.
    made: Vec<Option<Value>>,
}

// Written by hand, so that the crates above call it instead of dropping the fields themselves.
impl Drop for StepVerb {
    fn drop(self) {
        let StepVerb {
            alloc: _,
            options,
            outputs,
            groups,
            tracks,
            made,
        } = self;
        drop(options);
        drop(outputs);
        drop(groups);
        drop(tracks);
        drop(made);
    }
}

impl StepVerb {
    /// The verb with these options, before the first record. It allocates for names.
    pub fn new(alloc: Global, options: Step) -> Result<Self, NoMemory>
        ensures meaning { IfOk result (λ made. ⟦<StepVerb as Stateful>⟧.meaning made
            ≡ step options) }
        ensures represents { IfOk result (λ made. ⟦<StepVerb as Stateful>⟧.represents made []) }
    {
        let outputs = outputs(alloc, &options)?;
        let groups = Groups::new(alloc, options.by(alloc)?);
        Ok(StepVerb {
            alloc,
            options,
            outputs,
            groups,
            tracks: Vec::new(alloc),
            made: Vec::new(alloc),
        })
    }
}

impl Stateful for StepVerb {
    ghost use Rattle.verbs_base.specs.Laws.{stream-shuts};
    ghost use Rattle.verbs_base.specs.Records.{records};
    ghost use Rattle.verbs_step.specs.Represents.{StepRepresents};
    ghost use Rattle.verbs_step.specs.Step.{step, step_gives};

    ghost meaning = { λ s. step s.options };

    ghost represents = { λ s before. StepRepresents s (records before) };

    ghost shuts = { λ s. stream-shuts (step_gives s.options) };

    fn take(&mut self, fields: Record, ctx: Ctx, out: &mut Events) -> Result<(), NoMemory> {
        let Some(place) = enter(
            self.alloc,
            &self.options,
            &fields,
            &mut self.groups,
            &mut self.tracks,
        )?
        else {
            return Ok(());
        };
        let mut fields = fields;
        add_steps(
            self.alloc,
            &self.options,
            &self.outputs,
            &mut self.tracks[place],
            &mut self.made,
            &mut fields,
        )?;
        out.push(Event::Rec(fields, ctx))
    }

    fn finish(&mut self, _: Ctx, _: &mut Events) -> Result<(), NoMemory> {
        Ok(())
    }

    fn is_shut(&self) -> bool {
        false
    }

    fn never_shuts(&self) -> bool {
        true
    }
}
