//! `repeat`: gives each record several times.
ghost use Rattle.std.specs.Prelude.{◌≡◌, ◌≤◌, ◌++◌, [], ℕ, List, IfOk, IsOk, OnOk, length, replicate};
ghost use Rattle.mlr_event.specs.declared.event.Event.TheVariants as event;
ghost use Rattle.verbs_state.specs.Repeat.{repeat, times};

use mlr_event::{Ctx, Event, Events};
use mlr_record::Record;
use mlr_spec::NoMemory;
use mlr_value::{Bytes, Value};
use std::alloc::Global;
use verbs_base::Stateful;

/// How many times `repeat` gives a record.
#[derive(Drop)]
pub enum Repeat {
    /// This many times.
    Count(u64),
    /// As many times as the int in this field says; not at all if the field is absent, isn't an int or is
    /// negative.
    Field(Bytes),
}

impl Repeat {
    /// A copy. It allocates for a name of more than 20 bytes.
    pub fn copy(&self, alloc: Global) -> Result<Self, NoMemory>
        ensures same { IfOk result (λ copy. copy ≡ self.now) }
        ensures count { (n : ℕ) → self.now ≡ Repeat.Count n → IsOk result }
        ensures short { (name : List ℕ) → self.now ≡ Repeat.Field name → length name ≤ 20
            → IsOk result }
    {
        Ok(match self {
            Repeat::Count(count) => Repeat::Count(*count),
            Repeat::Field(name) => Repeat::Field(Bytes::copy_of(alloc, name.as_slice())?),
        })
    }
}

/// The verb `repeat`. It keeps nothing from one record to the next.
#[derive(Drop)]
pub struct RepeatVerb {
    options: Repeat,
}

impl RepeatVerb {
    /// The verb with these options. It doesn't allocate.
    pub fn new(options: Repeat) -> Self
        ensures meaning { ⟦<RepeatVerb as Stateful>⟧.meaning result ≡ repeat options }
        ensures represents { ⟦<RepeatVerb as Stateful>⟧.represents result [] }
    {
        RepeatVerb { options }
    }
}

impl Stateful for RepeatVerb {
    ghost use Rattle.verbs_base.specs.Laws.{stream-shuts};
    ghost use Rattle.verbs_state.specs.Repeat.{repeat};

    ghost meaning = { λ s. repeat s.options };

    ghost represents = { λ s before. Unit {0} };

    ghost shuts = { λ s. stream-shuts (repeat s.options).gives };

    fn take(&mut self, fields: Record, ctx: Ctx, out: &mut Events) -> Result<(), NoMemory> {
        push_times(times(&self.options, &fields), fields, ctx, out)
    }

    fn finish(&mut self, _: Ctx, _: &mut Events) -> Result<(), NoMemory> {
        Ok(())
    }

    fn is_shut(&self) -> bool {
        false
    }

    fn never_shuts(&self) -> bool {
        true
    }
}

/// The number of times that a record is given.
fn times(options: &Repeat, fields: &Record) -> u64
    ensures { result ≡ times options.now fields.now }
{
    match options {
        Repeat::Count(count) => *count,
        Repeat::Field(name) => match fields.get(name.as_slice()) {
            Some(Value::Int(int)) => u64::try_from(int.n).unwrap_or(0),
            _ => 0,
        },
    }
}

/// Appends a record to `out` this many times: all but the last are copies.
fn push_times(times: u64, fields: Record, ctx: Ctx, out: &mut Events) -> Result<(), NoMemory>
    ensures { OnOk result (out.new ≡ out.old ++ replicate times (event.Rec fields ctx)) }
{
    if times == 0 {
        return Ok(());
    }
    for _ in 0..times - 1 {
        out.push(Event::Rec(fields.copy()?, ctx))?;
    }
    out.push(Event::Rec(fields, ctx))
}
