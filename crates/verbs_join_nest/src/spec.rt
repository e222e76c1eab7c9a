//! The shaping verbs with their options.
ghost use Rattle.std.specs.Prelude.{◌≡◌, [], List, IfOk};
ghost use Rattle.std.specs.Option.{option_map};
ghost use Rattle.mlr_event.specs.declared.event.Event.{Event as SpecEvent};
ghost use Rattle.verbs_join_nest.specs.Meaning.{left_of, meaning_of};

use crate::running::Running;
use mlr_event::{Events, InputName, ReadOpts};
use mlr_spec::NoMemory;
use std::alloc::Global;
use verbs_base::Stateful;
use verbs_join::{Join, JoinVerb};
use verbs_nest::{Nest, NestVerb};
use verbs_reshape::{Reshape, ReshapeVerb};

/// A shaping verb, with its options as given on the command line.
pub enum Spec {
    /// Pairs each record with the records of a left file that have the same texts in some fields.
    Join(Join),
    /// Gives a record for each piece of a value, or a field for each, or joins the values of records into one.
    Nest(Nest),
    /// Gives a record for each of some fields, or one of several such records.
    Reshape(Reshape),
}

// Written by hand, so that the crates above call it instead of dropping the options themselves.
impl Drop for Spec {
    fn drop(self) {
        match self {
            Spec::Join(options) => drop(options),
            Spec::Nest(options) => drop(options),
            Spec::Reshape(options) => drop(options),
        }
    }
}

/// The left file of a verb, and how it is read.
#[derive(Clone, Copy)]
pub struct LeftInput<'a> {
    pub name: &'a InputName,
    pub read: &'a ReadOpts,
}

impl Spec {
    /// A copy, which shares the patterns. It allocates lists, and texts of more than 20 bytes.
    pub fn copy(&self, alloc: Global) -> Result<Self, NoMemory>
        ensures meaning { IfOk result (λ copy. (left : List SpecEvent)
            → meaning_of copy left ≡ meaning_of self.now left) }
        ensures left { IfOk result (λ copy. left_of copy ≡ left_of self.now) }
    {
        match self {
            Spec::Join(options) => Ok(Spec::Join(options.copy(alloc)?)),
            Spec::Nest(options) => Ok(Spec::Nest(options.copy(alloc)?)),
            Spec::Reshape(options) => Ok(Spec::Reshape(options.copy(alloc)?)),
        }
    }

    /// The left file of the verb, if it has one.
    pub fn left(&self) -> Option<LeftInput<'_>>
        ensures { option_map (λ left. (left.name.now, left.read.now)) result ≡ left_of self.now }
    {
        match self {
            Spec::Join(options) => Some(LeftInput {
                name: &options.file,
                read: &options.read,
            }),
            Spec::Nest(_) | Spec::Reshape(_) => None,
        }
    }

    /// The verb with these options and what its left file holds, before the first record. It allocates for the verb's state.
    pub(crate) fn running(self, alloc: Global, left: Events) -> Result<Running, NoMemory>
        ensures meaning { IfOk result (λ made. ⟦<Running as Stateful>⟧.meaning made
            ≡ meaning_of self left) }
        ensures represents { IfOk result (λ made. ⟦<Running as Stateful>⟧.represents made []) }
    {
        match self {
            Spec::Join(options) => Ok(Running::Join(JoinVerb::new(alloc, options, left)?)),
            Spec::Nest(options) => Ok(Running::Nest(NestVerb::new(alloc, options)?)),
            Spec::Reshape(options) => Ok(Running::Reshape(ReshapeVerb::new(alloc, options)?)),
        }
    }
}
