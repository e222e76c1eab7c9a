//! Model verbs: one that passes each event at once, and one that holds all records back. They show that `Step` can be met,
//! and serve the tests of what is generic over it.
ghost use Rattle.std.specs.Prelude.{◌≡◌, ◌++◌, [], false, OnOk};
ghost use Rattle.mlr_event.specs.Models.{last_first, row_of, tac_gives};
ghost use Rattle.mlr_event.specs.Verb.{is_last};

use crate::{Ctx, Event, Events, Step};
use mlr_record::Record;
use mlr_spec::NoMemory;
use std::alloc::Global;

/// Gives each event as it is.
#[derive(Drop)]
pub struct Cat {
    broken: bool,
}

impl Cat {
    /// A verb that was given nothing. It takes no memory.
    pub fn new() -> Self
        ensures { ⟦<Cat as Step>⟧.represents result [] }
    {
        Cat { broken: false }
    }
}

impl Step for Cat {
    ghost use Rattle.std.specs.Prelude.{◌≡◌, [], ◌∷◌, false, true};
    ghost use Rattle.mlr_event.specs.declared.event.Event.TheVariants as event;
    ghost use Rattle.mlr_event.specs.Models.{cat, cat-closes, cat-orderly, cat-quiet, never-both};

    ghost verb = { λ s. cat };

    ghost represents = { λ s given. s.broken ≡ false };

    ghost broken = { λ s. s.broken ≡ true };

    ghost whole = { λ s given holds is. never-both s.broken holds is };

    ghost quiet = { λ s. cat-quiet };

    ghost orderly = { λ s. cat-orderly };

    ghost closes = { λ s. cat-closes };

    fn step(&mut self, event: Event, out: &mut Events) -> Result<(), NoMemory> {
        if let Err(error) = out.push(event) {
            self.broken = true;
            return Err(error);
        }
        Ok(())
    }

    fn never_closes(&self) -> bool {
        true
    }

    fn closed(&self) -> bool {
        false
    }

    fn has_effects(&self) -> bool {
        false
    }

    fn passes_all(&self) -> bool {
        true
    }

    fn is_broken(&self) -> bool {
        self.broken
    }
}

/// Gives all records at the end, the last first.
#[derive(Drop)]
pub struct Tac {
    held: Vec<(Record, Ctx)>,
    broken: bool,
}

impl Tac {
    /// A verb that was given nothing. It takes no memory.
    pub fn new(alloc: Global) -> Self
        ensures { ⟦<Tac as Step>⟧.represents result [] }
    {
        Tac {
            held: Vec::new(alloc),
            broken: false,
        }
    }
}

impl Step for Tac {
    ghost use Rattle.std.specs.Prelude.{◌≡◌, [], ◌∷◌, false, true};
    ghost use Rattle.mlr_event.specs.Models.{TacRepresents, never-both, tac, tac-closes, tac-orderly, tac-quiet};

    ghost verb = { λ s. tac };

    ghost represents = { λ s given. TacRepresents s.broken s.held.items given };

    ghost broken = { λ s. s.broken ≡ true };

    ghost whole = { λ s given holds is. never-both s.broken holds.0 is };

    ghost quiet = { λ s. tac-quiet };

    ghost orderly = { λ s. tac-orderly };

    ghost closes = { λ s. tac-closes };

    fn step(&mut self, event: Event, out: &mut Events) -> Result<(), NoMemory> {
        if let Err(error) = take(&mut self.held, event, out) {
            self.broken = true;
            return Err(error);
        }
        Ok(())
    }

    fn never_closes(&self) -> bool {
        true
    }

    fn closed(&self) -> bool {
        false
    }

    fn has_effects(&self) -> bool {
        false
    }

    fn passes_all(&self) -> bool {
        false
    }

    fn is_broken(&self) -> bool {
        self.broken
    }
}

/// Holds a record back, or gives what an event gives after the records that are held back.
pub(crate) fn take(
    held: &mut Vec<(Record, Ctx)>,
    event: Event,
    out: &mut Events,
) -> Result<(), NoMemory>
    ensures held { OnOk result (is_last event ≡ false
        → held.new.items ≡ held.old.items ++ row_of event) }
    ensures out { OnOk result (out.new ≡ out.old ++ tac_gives held.old.items event) }
{
    match event {
        Event::Rec(fields, ctx) => {
            held.push((fields, ctx))?;
            Ok(())
        }
        Event::Text(text) => out.push(Event::Text(text)),
        Event::Out(target, piece) => out.push(Event::Out(target, piece)),
        Event::End(ctx) => {
            give(held, out)?;
            out.push(Event::End(ctx))
        }
        Event::Fault(fault) => out.push(Event::Fault(fault)),
    }
}

/// Gives all records that are held, the last first.
pub(crate) fn give(held: &mut Vec<(Record, Ctx)>, out: &mut Events) -> Result<(), NoMemory>
    ensures { OnOk result (out.new ≡ out.old ++ last_first held.old.items) }
{
    while let Some((fields, ctx)) = held.pop() {
        out.push(Event::Rec(fields, ctx))?;
    }
    Ok(())
}
