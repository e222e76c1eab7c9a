//! The end of a plan's chain.
ghost use Rattle.std.specs.Prelude.{◌≡◌, ◌++◌, ◌∷◌, [], List, None, IfOk};
ghost use Rattle.mlr_event.specs.declared.event.Event.{Event as SpecEvent};
ghost use Rattle.mlr_event.specs.declared.names.Target.TheVariants.{Stdout};
ghost use Rattle.mlr_world.specs.Counts.{Counted};
ghost use Rattle.outlet.specs.Represents.{CountedIf, Took, has_failed, lacks_memory};
ghost use Rattle.writers.specs.declared.options.WriteOpts.{WriteOpts as Options};
ghost use Rattle.chain_core.specs.Parts.{Writes};
ghost use Rattle.plan_verbs.specs.Plans.{IsSound};

use mlr_event::Event;
use mlr_spec::NoMemory;
use mlr_world::Outputs;
use outlet::Let;
use plan_verbs::Plan;
use std::alloc::Global;

/// The end of a chain: it writes what the outputs of a plan get of the events. It represents the list of events that it
/// was given.
pub struct Outlet {
    outlet: outlet::Outlet,
}

// Written by hand, so that the crates above call it instead of dropping the fields themselves.
impl Drop for Outlet {
    fn drop(self) {
        let Outlet { outlet } = self;
        drop(outlet);
    }
}

impl Outlet {
    /// An outlet that was given nothing, and writes by the styles of a plan. It takes memory for options of more than 16
    /// bytes.
    pub fn new(alloc: Global, plan: &Plan) -> Result<Self, NoMemory>
        requires { IsSound plan.now }
        ensures { IfOk result (Writes plan.now.styles []) }
    {
        match plan.styles.at(0) {
            Some(style) => Ok(Outlet {
                outlet: outlet::Outlet::new(alloc, style)?,
            }),
            None => unreachable!(),
        }
    }

    /// Takes an event, and writes what it becomes. It takes memory for the text. It is called while every call before
    /// returned Went.
    pub fn take<O: Outputs>(&mut self, event: Event, outputs: &mut O) -> Let
        requires { (styles : List Options) × (before : List SpecEvent)
            × Writes styles before self.old }
        ensures took { (styles : List Options) (before : List SpecEvent)
            → (writes : Writes styles before self.old)
            → Took result writes.style before (event ∷ []) (O.held outputs.old)
            (O.held outputs.new) }
        ensures represents { (styles : List Options) (before : List SpecEvent)
            → Writes styles before self.old → result ≡ Let.Went
            → Writes styles (before ++ event ∷ []) self.new }
        ensures counts { Counted (has_failed result) (O.faults outputs.old) (O.faults outputs.new)
            Stdout }
        ensures shortages { CountedIf (lacks_memory result) (O.shortages outputs.old)
            (O.shortages outputs.new) }
    {
        self.outlet.take(event, outputs)
    }

    /// Closes what is open, where a run ends without an end or a fault. It adds no text.
    pub fn shut<O: Outputs>(&mut self, outputs: &mut O) -> Let
        ensures answer { result ≡ Let.Over None }
        ensures same { outputs.new ≡ outputs.old }
    {
        self.outlet.shut(outputs)
    }

    /// The outlet itself.
    pub(crate) fn into_inner(self) -> outlet::Outlet
        ensures { result ≡ self.outlet }
    {
        let Outlet { outlet } = self;
        outlet
    }
}
