//! Verbs whose output for a record depends on the records before it.
ghost use Rattle.std.specs.Prelude.{◌≡◌, ◌++◌, ◌∷◌, [], List, false, IsTrue, OnOk};
ghost use Rattle.verbs_base.specs.Records.{PassesEach, RecordVerb, Row, StaysShut, given_for, records, row_in, rows_in};
ghost use Rattle.verbs_base.specs.Taking.{Follows, GivesFor, GivesForAll, GivesLate, IsShut};

use mlr_event::{Ctx, Event, Events};
use mlr_record::Record;
use mlr_spec::NoMemory;

/// A verb over records. For each record it gives records, which depend on the records before it, and at the end it
/// gives those that it held back. It keeps only what it needs of the records before.
pub trait Stateful {
    /// The verb as a function, which never changes.
    ghost meaning: { Self → RecordVerb };

    /// The verb was given these records, and not yet the end.
    ghost represents: { Self → List Row → Type 0 };

    /// Takes a record, and appends the records that it gives, with the same context, to `out`.
    fn take(&mut self, fields: Record, ctx: Ctx, out: &mut Events) -> Result<(), NoMemory>
        requires { (before : List Row) × represents self.old before }
        ensures meaning { meaning self.new ≡ meaning self.old }
        ensures represents { OnOk result (Follows (represents self.old) (represents self.new)
            ((fields, ctx) ∷ [])) }
        ensures gives { OnOk result (GivesFor (meaning self.old) (represents self.old) fields ctx
            out.old out.new) };

    /// Takes all events of a list before its end in turn: records as `take` does, and any other event passes. A verb
    /// that prepares work for many records at once, such as a search for a pattern, does so once a list.
    fn take_all(&mut self, events: &mut Events, out: &mut Events) -> Result<(), NoMemory>
        requires { (before : List Row) × represents self.old before }
        ensures meaning { OnOk result (meaning self.new ≡ meaning self.old) }
        ensures empty { OnOk result (events.new ≡ []) }
        ensures represents { OnOk result (Follows (represents self.old) (represents self.new)
            (rows_in events.old)) }
        ensures gives { OnOk result (GivesForAll (meaning self.old) (represents self.old) events.old
            out.old out.new) }
    {
        while let Some(event) = events.pop_first() {
            self.pass(event, out)?;
        }
        Ok(())
    }

    /// Takes an event before the end: a record as `take` does, and any other event passes.
    fn pass(&mut self, event: Event, out: &mut Events) -> Result<(), NoMemory>
        requires { (before : List Row) × represents self.old before }
        ensures meaning { meaning self.new ≡ meaning self.old }
        ensures represents { OnOk result ((before : List Row) → represents self.old before
            → represents self.new (before ++ row_in event)) }
        ensures gives { OnOk result ((before : List Row) → represents self.old before
            → out.new ≡ out.old ++ given_for (meaning self.old) before event) }
    {
        match event {
            Event::Rec(fields, ctx) => self.take(fields, ctx, out),
            other => out.push(other),
        }
    }

    /// Appends the records that the verb held back. It is called once, at the end.
    fn finish(&mut self, ctx: Ctx, out: &mut Events) -> Result<(), NoMemory>
        requires { (before : List Row) × represents self.old before }
        ensures meaning { meaning self.new ≡ meaning self.old }
        ensures gives { OnOk result (GivesLate (meaning self.old) (represents self.old) ctx
            out.old out.new) };

    /// Whether the verb gives nothing for any later record. It doesn't allocate.
    fn is_shut(&self) -> bool
        ensures { IsShut result (meaning self.now) (represents self.now) };

    /// Whether no records close it, as far as it knows. It doesn't allocate.
    fn never_shuts(&self) -> bool
        ensures { IsTrue result → (before : List Row)
            → (meaning self.now).closed (records before) ≡ false };

    /// Whether it gives each record as it is, and so needs no record. It doesn't allocate.
    fn passes_each(&self) -> bool
        ensures { IsTrue result → PassesEach (meaning self.now) (represents self.now) }
    {
        false
    }

    /// A closed verb gives nothing more.
    ghost shuts: { (s : Self) → StaysShut (meaning s) };
}
