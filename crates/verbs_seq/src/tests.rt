//! `seqgen`: the numbers from a start to a stop, in portions. Miller 6.6 gives the same, except at the ends
//! of the 64-bit range, where it doesn't end; this is measured, not proved.
ghost use Rattle.std.specs.Prelude.{◌<◌, OnOk};
ghost use Rattle.verbs_seq.specs.Seq.{IsSoundSeq};
ghost use Rattle.verbs_seq.specs.TestSource.{CanFill};

use crate::{SeqSource, SeqSpec};
use mlr_event::{Ctx, Event, Events};
use mlr_spec::NoMemory;
use mlr_value::{Bytes, Value};
use std::alloc::Global;
use std::process::Abort;

const LEAST: i64 = i64::MIN;

const MOST: i64 = i64::MAX;

const FAR: i64 = 1 << 62;

/// The options with the field `i`.
fn counting(alloc: Global, start: i64, stop: i64, step: i64) -> Result<SeqSpec, NoMemory> {
    Ok(SeqSpec {
        field: Bytes::copy_of(alloc, b"i")?,
        start,
        stop,
        step,
    })
}

/// Gives the next records.
fn fill_more(source: &mut SeqSource, max: u64, out: &mut Events) -> Result<bool, NoMemory>
    requires some { 0 < max }
    requires represents { CanFill source.old }
    ensures { OnOk result (CanFill source.new) }
{
    source.fill(max, out)
}

/// The first nine records or more, `max` at a time, and whether more remain.
fn nine(alloc: Global, seq: SeqSpec, max: u64) -> Result<(Events, bool), NoMemory>
    requires sound { IsSoundSeq seq }
    requires some { 0 < max }
{
    let mut source = SeqSource::new(alloc, seq)?;
    let mut out = Events::new(alloc);
    let mut more = true;
    for _ in 0..9u64.div_ceil(max) {
        more = fill_more(&mut source, max, &mut out)?;
    }
    Ok((out, more))
}

/// The number in field `i` of an event that is a record.
fn number_of(event: Option<&Event>) -> Option<i64> {
    let Some(Event::Rec(record, _)) = event else {
        return None;
    };
    match record.get(b"i") {
        Some(Value::Int(int)) => Some(int.n),
        _ => None,
    }
}

/// A start, a stop and a step, the first nine numbers, and whether more remain after them.
type Row = ((i64, i64, i64), &'static [i64], bool);

/// Numbers upwards, downwards, in steps that miss the stop, a single one, none, many, and up to the limits of
/// 64 bits.
const COUNTED: [Row; 12] = [
    ((1, 3, 1), &[1, 2, 3], false),
    ((3, 1, -1), &[3, 2, 1], false),
    ((1, 6, 2), &[1, 3, 5], false),
    ((5, 5, 7), &[5], false),
    ((5, 5, -7), &[5], false),
    ((2, 1, 1), &[], false),
    ((1, 2, -1), &[], false),
    ((-4, 1000, 2), &[-4, -2, 0, 2, 4, 6, 8, 10, 12], true),
    ((MOST - 1, MOST, 1), &[MOST - 1, MOST], false),
    ((LEAST + 1, LEAST, -1), &[LEAST + 1, LEAST], false),
    ((LEAST, MOST, FAR), &[LEAST, -FAR, 0, FAR], false),
    ((MOST, LEAST, LEAST), &[MOST, -1], false),
];

/// Twelve numbers, which come in portions of four.
const FOURS: Row = (
    (-7, 70, 7),
    &[-7, 0, 7, 14, 21, 28, 35, 42, 49, 56, 63, 70],
    false,
);

/// Checks the first numbers, read at most `max` at a time, and that each record is numbered by its place.
fn check_row(rt: &impl Abort, alloc: Global, row: &Row, max: u64) -> Result<(), NoMemory> {
    let ((start, stop, step), numbers, more) = *row;
    let seq = counting(alloc, start, stop, step)?.copy(alloc)?;
    assert!(rt; seq.is_sound(), "{start} is refused");
    if seq.is_sound() && 0 < max {
        let made = nine(alloc, seq, max)?;
        assert_eq!(rt;
            (made.0.len(), made.1),
            (numbers.len(), more),
            "{start}, {max} at a time"
        );
        for place in 0..numbers.len() {
            let event = made.0.at(place);
            let nr = place as u64 + 1;
            let at = Ctx {
                nr,
                fnr: nr,
                filenum: 1,
            };
            assert_eq!(rt;
                number_of(event),
                Some(numbers[place]),
                "{start} at {place}, {max} at a time"
            );
            assert!(rt;
                matches!(event, Some(Event::Rec(_, ctx)) if *ctx == at),
                "{start} at {place}"
            );
        }
    }
    Ok(())
}

#[test]
fn numbers_are_counted_in_portions(rt: HostRuntime) -> Result<(), NoMemory> {
    for row in COUNTED.iter() {
        for max in [1, 3, 9] {
            check_row(&rt, rt.alloc(), row, max)?;
        }
    }
    check_row(&rt, rt.alloc(), &FOURS, 4)
}

/// A start, a stop and a step, and whether they count few enough numbers.
const SOUND: [((i64, i64, i64), bool); 6] = [
    ((1, 2, 0), false),
    ((1, 1 << 61, 1), true),
    ((0, 1 << 61, 1), false),
    ((LEAST, MOST, 1), false),
    ((LEAST, MOST, 8), true),
    ((LEAST, MOST, 7), false),
];

#[test]
fn numbers_that_never_end_are_refused_and_the_last_context_is_told(
    rt: HostRuntime,
) -> Result<(), NoMemory> {
    let alloc = rt.alloc();
    for (i, row) in SOUND.iter().enumerate() {
        let ((start, stop, step), sound) = *row;
        let seq = counting(alloc, start, stop, step)?;
        assert_eq!(rt; seq.is_sound(), sound, "at {i}");
    }
    let seq = counting(alloc, 1, 3, 1)?;
    if seq.is_sound() {
        let mut source = SeqSource::new(alloc, seq)?;
        assert_eq!(rt; source.ctx().filenum, 0);
        let mut out = Events::new(alloc);
        assert!(rt; !source.fill(5, &mut out)?);
        assert_eq!(rt; (source.ctx().nr, source.ctx().filenum), (3, 1));
    }
    Ok(())
}
