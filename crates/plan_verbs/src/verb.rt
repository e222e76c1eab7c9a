//! Verbs of a chain, of any kind.
ghost use Rattle.std.specs.Prelude.{◌≡◌, ◌++◌, ◌∷◌, [], IfOk, OnOk};
ghost use Rattle.mlr_event.specs.Verb.{Verb as SpecVerb};
ghost use Rattle.verb_specs.specs.Verbs.{IsVerb, verb_with};
ghost use Rattle.plan_verbs.specs.Verbs.{HasBegun, IsNew};

use crate::one_of::OneOf;
use mlr_event::Events;
use mlr_spec::NoMemory;
use std::alloc::Global;
use verb_specs::VerbSpec;
use verbs_join_nest::ShapeVerb;
use verbs_retain::RetainVerb;
use verbs_stat::StatVerb;
use verbs_stream::StreamVerb;

/// A verb of a chain, of any kind. It begins with `begin`, and takes events after that.
pub type Verb = OneOf<StreamVerb, RetainVerb, ShapeVerb, StatVerb>;

impl Verb {
    /// The verb of these options, which hasn't begun, with the records of its left file. It takes memory for a copy of the
    /// options, and for what the verb keeps.
    pub fn new(alloc: Global, spec: &VerbSpec, left: Events) -> Result<Self, NoMemory>
        requires { IsVerb spec.now }
        ensures { IfOk result (λ made. (verb : SpecVerb) → verb_with spec.now left ≡ verb ∷ []
            → IsNew verb made) }
    {
        match spec {
            VerbSpec::Stream(options) => match StreamVerb::of(alloc, options) {
                Ok(verb) => Ok(Verb::Stream(verb)),
                Err(error) => Err(error),
            },
            VerbSpec::Retain(options) => match RetainVerb::of(alloc, options) {
                Ok(verb) => Ok(Verb::Retain(verb)),
                Err(error) => Err(error),
            },
            VerbSpec::Shape(options) => match ShapeVerb::of(alloc, options, left) {
                Ok(verb) => Ok(Verb::Shape(verb)),
                Err(error) => Err(error),
            },
            VerbSpec::Stat(options) => match StatVerb::of(alloc, options) {
                Ok(verb) => Ok(Verb::Stat(verb)),
                Err(error) => Err(error),
            },
            VerbSpec::Seq(_) => unreachable!(),
        }
    }

    /// Appends what the verb makes before all events. It is called once, before the first step.
    pub fn begin(&mut self, out: &mut Events) -> Result<(), NoMemory>
        requires { (verb : SpecVerb) × IsNew verb self.old }
        ensures begun { OnOk result ((verb : SpecVerb) → IsNew verb self.old
            → HasBegun verb self.new) }
        ensures first { OnOk result ((verb : SpecVerb) → IsNew verb self.old
            → out.new ≡ out.old ++ verb.first) }
    {
        match self {
            // It makes nothing before them.
            Verb::Stream(_) | Verb::Retain(_) | Verb::Shape(_) | Verb::Stat(_) => {
                let _ = out;
                Ok(())
            }
        }
    }
}
