//! The trait of whatever makes events of events, as a verb does.
ghost use Rattle.std.specs.Prelude.{◌≡◌, ◌↔◌, ◌++◌, ◌∷◌, [], List, true, IsTrue, OnOk, OnErr};
ghost use Rattle.mlr_event.specs.declared.event.Event.{Event as SpecEvent};
ghost use Rattle.mlr_event.specs.Adding.{Adds};
ghost use Rattle.mlr_event.specs.Verb.{IsQuiet, KeepsOrder, NeverCloses, PassesAll, StaysClosed, Verb, is_list, is_open, made};

use crate::{Event, Events};
use mlr_spec::NoMemory;

/// Takes events one by one, and makes others of them, as a verb does. It represents the list of events that
/// it was given.
pub trait Step {
    /// What it makes of a list of events, which never changes.
    ghost verb: { Self → Verb };

    /// It has begun, and was given these events.
    ghost represents: { Self → List SpecEvent → Type 0 };

    /// A call found no memory.
    ghost broken: { Self → Type 0 };

    /// Takes an event, and pushes what it gives after those before. No end and no fault may have come before.
    fn step(&mut self, event: Event, out: &mut Events) -> Result<(), NoMemory>
        requires { (given : List SpecEvent) × represents self.old given × (is_open given ≡ true) }
        ensures verb { verb self.new ≡ verb self.old }
        ensures represents { OnOk result ((given : List SpecEvent) → represents self.old given
            → is_open given ≡ true → represents self.new (given ++ event ∷ [])) }
        ensures adds { OnOk result ((given : List SpecEvent) → represents self.old given
            → is_open given ≡ true
            → Adds out.old out.new (made (verb self.old) given)
            (made (verb self.old) (given ++ event ∷ []))) }
        ensures err { OnErr result (broken self.new) };

    /// Takes all events of a list in turn, and leaves the list empty. A verb that can prepare work for many records at
    /// once, such as a search for a pattern, prepares it once a list here, and once a record in `step`.
    fn step_all(&mut self, events: &mut Events, out: &mut Events) -> Result<(), NoMemory>
        requires { (given : List SpecEvent) × represents self.old given
            × (is_list (given ++ events.old) ≡ true) }
        ensures verb { OnOk result (verb self.new ≡ verb self.old) }
        ensures empty { OnOk result (events.new ≡ []) }
        ensures represents { OnOk result ((given : List SpecEvent) → represents self.old given
            → is_list (given ++ events.old) ≡ true → represents self.new (given ++ events.old)) }
        ensures adds { OnOk result ((given : List SpecEvent) → represents self.old given
            → is_list (given ++ events.old) ≡ true
            → Adds out.old out.new (made (verb self.old) given)
            (made (verb self.old) (given ++ events.old))) }
        ensures err { OnErr result (broken self.new) }
    {
        while let Some(event) = events.pop_first() {
            self.step(event, out)?;
        }
        Ok(())
    }

    /// Whether no list closes it, as far as it knows. It takes no memory.
    fn never_closes(&self) -> bool
        ensures { IsTrue result → NeverCloses (verb self.now) }
    {
        false
    }

    /// Whether more records give nothing. It takes no memory.
    fn closed(&self) -> bool
        ensures { (given : List SpecEvent) → represents self.now given
            → result ≡ (verb self.now).closed given };

    /// Whether it may give anything but records. It takes no memory.
    fn has_effects(&self) -> bool
        ensures { result ≡ (verb self.now).effects };

    /// Whether it gives each event as it is, and is never closed. Then a caller may hand a list on without giving
    /// it to this verb. It takes no memory.
    fn passes_all(&self) -> bool
        ensures { IsTrue result → PassesAll (verb self.now) (represents self.now) };

    /// Whether a call found no memory. Then nothing more may be asked of it.
    fn is_broken(&self) -> bool
        ensures { IsTrue result ↔ broken self.now };

    /// An object that represents a list has found memory in all calls.
    ghost whole: { (s : Self) (given : List SpecEvent) → represents s given → broken s → ⊥ };

    /// Without effects it gives records alone.
    ghost quiet: { (s : Self) → IsQuiet (verb s) };

    /// Of its own it gives no end, and nothing after a fault.
    ghost orderly: { (s : Self) → KeepsOrder (verb s) };

    /// Once it is closed it gives nothing more.
    ghost closes: { (s : Self) → StaysClosed (verb s) };
}
