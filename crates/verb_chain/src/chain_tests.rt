//! Chains of the model verbs, one of which passes each event at once, and one of which reverses the records
//! at the end.
ghost use Rattle.std.specs.Prelude.{◌≡◌, [], true, IfOk};
ghost use Rattle.mlr_event.specs.Verb.{is_list};

use crate::Chain;
use mlr_event::models::{Cat, Tac};
use mlr_event::{Ctx, Event, Events};
use mlr_record::Record;
use mlr_spec::NoMemory;
use mlr_value::Bytes;
use std::alloc::Global;

/// The context of record `nr`.
fn at(nr: u64) -> Ctx {
    Ctx {
        nr,
        fnr: nr,
        filenum: 1,
    }
}

/// The numbers of the records that came out, with 0 for a text and 9 for an end.
fn numbers(out: &Events) -> [u64; 4] {
    let mut shown = [7, 7, 7, 7];
    for place in 0..4 {
        shown[place] = match out.at(place) {
            Some(Event::Rec(_, ctx)) => ctx.nr,
            Some(Event::Text(_)) => 0,
            Some(Event::End(_)) => 9,
            _ => 7,
        };
    }
    shown
}

/// A record, a text, another record and the end.
fn some_events(alloc: Global) -> Result<Events, NoMemory>
    ensures { IfOk result (λ events. is_list events ≡ true) }
{
    let mut events = Events::new(alloc);
    events.push(Event::Rec(Record::new(alloc)?, at(1)))?;
    events.push(Event::Text(Bytes::copy_of(alloc, b"#\n")?))?;
    events.push(Event::Rec(Record::new(alloc)?, at(2)))?;
    events.push(Event::End(at(2)))?;
    Ok(events)
}

#[test]
fn events_pass(rt: HostRuntime) -> Result<(), NoMemory> {
    let alloc = rt.alloc();
    let mut stages: Chain<Cat> = Chain::new(alloc);
    let mut made = Events::new(alloc);
    stages.push(Cat::new(), Events::new(alloc), &mut made)?;
    stages.push(Cat::new(), Events::new(alloc), &mut made)?;
    assert_eq!(rt; made.len(), 0);
    assert!(rt; !stages.stopped());
    let mut out = Events::new(alloc);
    stages.step(Event::Rec(Record::new(alloc)?, at(5)), &mut out)?;
    stages.step(Event::End(at(5)), &mut out)?;
    assert_eq!(rt; numbers(&out), [5, 9, 7, 7]);
    Ok(())
}

#[test]
fn records_are_turned_twice(rt: HostRuntime) -> Result<(), NoMemory> {
    let alloc = rt.alloc();
    let mut stages: Chain<Tac> = Chain::new(alloc);
    let mut made = Events::new(alloc);
    stages.push(Tac::new(alloc), Events::new(alloc), &mut made)?;
    let mut events = some_events(alloc)?;
    stages.take_all(&mut events)?;
    assert_eq!(rt; numbers(&events), [0, 2, 1, 9]);
    let mut stages: Chain<Tac> = Chain::new(alloc);
    stages.push(Tac::new(alloc), Events::new(alloc), &mut made)?;
    stages.push(Tac::new(alloc), Events::new(alloc), &mut made)?;
    let mut events = some_events(alloc)?;
    stages.take_all(&mut events)?;
    assert_eq!(rt; numbers(&events), [0, 1, 2, 9]);
    Ok(())
}
