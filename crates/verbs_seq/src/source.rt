//! `seqgen` as a source of events.
ghost use Rattle.std.specs.Prelude.{◌≡◌, ◌+◌, ◌-◌, ◌^◌, ◌<◌, ◌≤◌, ◌++◌, ◌∷◌, [], ℕ, min, nat_lt, IfOk, OnOk};
ghost use Rattle.verbs_seq.specs.Seq.{IsSoundSeq, count_between, number_from, seq_context, seq_count, seq_event, seq_events};
ghost use Rattle.verbs_seq.specs.Represents.{RepresentsAt};
ghost use Rattle.verbs_seq.specs.declared.seq_spec.SeqSpec.{SeqSpec as Options};

use crate::seq_spec::SeqSpec;
use mlr_event::{Ctx, Event, Events};
use mlr_record::Record;
use mlr_spec::NoMemory;
use mlr_value::{Bytes, IntValue, Value};
use std::alloc::Global;

/// The verb `seqgen`, which reads no input: it gives records with the numbers from a start to a stop.
#[derive(Drop)]
pub struct SeqSource {
    alloc: Global,
    seq: SeqSpec,
    /// The number of records in all.
    count: u64,
    /// The number of records given so far.
    given: u64,
}

impl SeqSource {
    /// A source that has given no records. It doesn't allocate.
    pub fn new(alloc: Global, seq: SeqSpec) -> Result<Self, NoMemory>
        requires { IsSoundSeq seq }
        ensures { IfOk result (λ made. RepresentsAt seq 0 made) }
    {
        let count = count_of(&seq);
        Ok(SeqSource {
            alloc,
            seq,
            count,
            given: 0,
        })
    }

    /// Appends the next `max` records to `out`, or all the remaining ones if they are fewer, and returns
    /// whether more remain. It allocates for each record.
    pub fn fill(&mut self, max: u64, out: &mut Events) -> Result<bool, NoMemory>
        requires some { 0 < max }
        requires represents { (seq : Options) × (given : ℕ) × IsSoundSeq seq
            × RepresentsAt seq given self.old }
        ensures represents { OnOk result ((seq : Options) (given : ℕ)
            → RepresentsAt seq given self.old
            → RepresentsAt seq (given + min max (seq_count seq - given)) self.new) }
        ensures adds { OnOk result ((seq : Options) (given : ℕ) → RepresentsAt seq given self.old
            → out.new ≡ out.old ++ seq_events seq given (min max (seq_count seq - given))) }
        ensures more { IfOk result (λ more. (seq : Options) (given : ℕ)
            → RepresentsAt seq given self.old
            → more ≡ nat_lt (given + min max (seq_count seq - given)) (seq_count seq)) }
    {
        let some = max.min(self.count - self.given);
        push_numbers(self.alloc, &self.seq, self.given, some, out)?;
        self.given += some;
        Ok(self.given < self.count)
    }

    /// The context of the last record that was given, or the zero context. It doesn't allocate.
    pub fn ctx(&self) -> Ctx
        ensures { (seq : Options) (given : ℕ) → RepresentsAt seq given self.now
            → result ≡ seq_context given }
    {
        Ctx {
            nr: self.given,
            fnr: self.given,
            filenum: if self.given == 0 { 0 } else { 1 },
        }
    }
}

/// The number of records in all.
fn count_of(seq: &SeqSpec) -> u64
    requires { IsSoundSeq seq.now }
    ensures { result ≡ seq_count seq.now }
{
    if seq.begins() { seq.steps() + 1 } else { 0 }
}

/// Appends this many records to `out`, from a place on.
fn push_numbers(
    alloc: Global,
    seq: &SeqSpec,
    from: u64,
    some: u64,
    out: &mut Events,
) -> Result<(), NoMemory>
    requires few { seq_count seq.now ≤ 2 ^ 61 }
    requires within { from + some ≤ seq_count seq.now }
    ensures { OnOk result (out.new ≡ out.old ++ seq_events seq.now from some) }
{
    for place in 0..some {
        push_number(alloc, seq, from + place, out)?;
    }
    Ok(())
}

/// Appends the record at a place to `out`.
fn push_number(alloc: Global, seq: &SeqSpec, place: u64, out: &mut Events) -> Result<(), NoMemory>
    requires few { seq_count seq.now ≤ 2 ^ 61 }
    requires within { place < seq_count seq.now }
    ensures { OnOk result (out.new ≡ out.old ++ seq_event seq.now place ∷ []) }
{
    let number = Value::Int(IntValue {
        n: number_at(seq.start, seq.stop, seq.step, place),
        spelling: Bytes::new(alloc),
    });
    let mut fields = Record::new(alloc)?;
    fields.push(seq.field.as_slice(), number)?;
    let ctx = Ctx {
        nr: place + 1,
        fnr: place + 1,
        filenum: 1,
    };
    out.push(Event::Rec(fields, ctx))
}

/// The number at a place. It is between the start and the stop.
fn number_at(start: i64, stop: i64, step: i64, place: u64) -> i64
    requires { place < count_between start stop step }
    ensures { result ≡ number_from start step place }
{
    let number = i128::from(start) + i128::from(place) * i128::from(step);
    i64::try_from(number).unwrap_or(stop)
}
