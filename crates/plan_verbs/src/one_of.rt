//! A verb of one of four kinds.
use mlr_event::{Event, Events, Step};
use mlr_spec::NoMemory;

/// A verb of one of four kinds. It is generic over them, so that each of its functions is proved once for all kinds, however
/// large they are.
pub enum OneOf<A, B, C, D> {
    /// A streaming verb.
    Stream(A),
    /// A retaining verb.
    Retain(B),
    /// A shaping verb.
    Shape(C),
    /// A verb of statistics.
    Stat(D),
}

/// The same call on a verb of whatever kind.
macro_rules! of_each {
    ($one:expr, $verb:ident => $call:expr) => {
        match $one {
            OneOf::Stream($verb) => $call,
            OneOf::Retain($verb) => $call,
            OneOf::Shape($verb) => $call,
            OneOf::Stat($verb) => $call,
        }
    };
}

// Written by hand, so that the crates above call it instead of dropping the fields themselves.
impl<A: Drop, B: Drop, C: Drop, D: Drop> Drop for OneOf<A, B, C, D> {
    fn drop(self) {
        of_each!(self, verb => drop(verb))
    }
}

impl<A: Step, B: Step, C: Step, D: Step> Step for OneOf<A, B, C, D> {
    ghost use Rattle.plan_verbs.specs.declared.one_of.OneOf.TheVariants.{Stream, Retain, Shape, Stat};

    ghost verb = { elim [
      | Stream s ↦ A.verb s
      | Retain s ↦ B.verb s
      | Shape s ↦ C.verb s
      | Stat s ↦ D.verb s
    ] };

    ghost represents = { elim [
      | Stream s ↦ A.represents s
      | Retain s ↦ B.represents s
      | Shape s ↦ C.represents s
      | Stat s ↦ D.represents s
    ] };

    ghost broken = { elim [
      | Stream s ↦ A.broken s
      | Retain s ↦ B.broken s
      | Shape s ↦ C.broken s
      | Stat s ↦ D.broken s
    ] };

    ghost whole = { elim [
      | Stream s ↦ A.whole s
      | Retain s ↦ B.whole s
      | Shape s ↦ C.whole s
      | Stat s ↦ D.whole s
    ] };

    ghost quiet = { elim [
      | Stream s ↦ A.quiet s
      | Retain s ↦ B.quiet s
      | Shape s ↦ C.quiet s
      | Stat s ↦ D.quiet s
    ] };

    ghost orderly = { elim [
      | Stream s ↦ A.orderly s
      | Retain s ↦ B.orderly s
      | Shape s ↦ C.orderly s
      | Stat s ↦ D.orderly s
    ] };

    ghost closes = { elim [
      | Stream s ↦ A.closes s
      | Retain s ↦ B.closes s
      | Shape s ↦ C.closes s
      | Stat s ↦ D.closes s
    ] };

    fn step(&mut self, event: Event, out: &mut Events) -> Result<(), NoMemory> {
        of_each!(self, verb => verb.step(event, out))
    }

    fn step_all(&mut self, events: &mut Events, out: &mut Events) -> Result<(), NoMemory> {
        of_each!(self, verb => verb.step_all(events, out))
    }

    fn never_closes(&self) -> bool {
        of_each!(self, verb => verb.never_closes())
    }

    fn closed(&self) -> bool {
        of_each!(self, verb => verb.closed())
    }

    fn has_effects(&self) -> bool {
        of_each!(self, verb => verb.has_effects())
    }

    fn passes_all(&self) -> bool {
        of_each!(self, verb => verb.passes_all())
    }

    fn is_broken(&self) -> bool {
        of_each!(self, verb => verb.is_broken())
    }
}
