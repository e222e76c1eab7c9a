//! What inputs and outputs in memory hold.
ghost use Rattle.std.specs.Prelude.{◌<◌, ◌≤◌};

use crate::{Done, Got, Inputs, MemInputs, MemOutputs, Opened, Outputs, SureInputs, SureOutputs};
use mlr_event::{InputName, Mode, Target};
use mlr_spec::NoMemory;
use mlr_value::Bytes;
use std::alloc::Global;

/// The input file of this name.
fn input(alloc: Global, name: &[u8]) -> Result<InputName, NoMemory> {
    Ok(InputName::File(Bytes::copy_of(alloc, name)?))
}

/// The output file of this name.
fn target(alloc: Global, name: &[u8]) -> Result<Target, NoMemory> {
    Ok(Target::File(Bytes::copy_of(alloc, name)?))
}

/// Inputs that hold `abc` in standard input.
fn abc(alloc: Global, pieces: &[usize], failing: &[u64]) -> Result<MemInputs, NoMemory> {
    let mut contents = Vec::new(alloc);
    contents.push((InputName::Stdin, Bytes::copy_of(alloc, b"abc")?))?;
    MemInputs::new(
        alloc,
        contents,
        Vec::from_slice(alloc, pieces)?,
        Vec::from_slice(alloc, failing)?,
    )
}

/// Opens the input and reads five times.
fn five_reads(inputs: &mut MemInputs, max: usize, all: &mut Bytes) -> Result<[Got; 5], Opened>
    requires { 0 < max }
{
    match inputs.open(&InputName::Stdin) {
        Opened::Ok => {}
        other => return Err(other),
    }
    let first = inputs.read(max, all);
    let second = inputs.read(max, all);
    let third = inputs.read(max, all);
    let fourth = inputs.read(max, all);
    let fifth = inputs.read(max, all);
    Ok([first, second, third, fourth, fifth])
}

/// The sizes of the pieces, the most bytes of a read, the calls that fail, and what five reads of `abc` give.
const READS: [(&[usize], usize, &[u64], [Got; 5]); 6] = [
    (
        &[],
        9,
        &[],
        [Got::Some(3), Got::End, Got::End, Got::End, Got::End],
    ),
    (
        &[],
        2,
        &[],
        [Got::Some(2), Got::Some(1), Got::End, Got::End, Got::End],
    ),
    (
        &[1, 1, 1],
        9,
        &[],
        [Got::Some(1), Got::Some(1), Got::Some(1), Got::End, Got::End],
    ),
    (
        &[2],
        9,
        &[],
        [Got::Some(2), Got::Some(1), Got::End, Got::End, Got::End],
    ),
    (
        &[0, 9],
        9,
        &[],
        [Got::Some(1), Got::Some(2), Got::End, Got::End, Got::End],
    ),
    (
        &[1],
        9,
        &[3],
        [Got::Some(1), Got::Failed, Got::Some(2), Got::End, Got::End],
    ),
];

/// Whether five reads give what a row says, and `abc` in all.
fn are_read(alloc: Global, row: &(&[usize], usize, &[u64], [Got; 5])) -> Result<bool, NoMemory> {
    let (pieces, max, failing, want) = *row;
    let mut inputs = abc(alloc, pieces, failing)?;
    let mut all = Bytes::new(alloc);
    let got = five_reads(&mut inputs, max.max(1), &mut all);
    Ok(got == Ok(want) && all.as_slice() == b"abc".as_slice())
}

/// The first row whose reads give something else.
fn first_misread(alloc: Global) -> Result<Option<usize>, NoMemory> {
    for (i, row) in READS.iter().enumerate() {
        if !are_read(alloc, row)? {
            return Ok(Some(i));
        }
    }
    Ok(None)
}

/// Opens a file that isn't there, and standard input twice, where the second call fails.
fn three_opens(alloc: Global) -> Result<[Opened; 3], NoMemory> {
    let mut inputs = abc(alloc, &[], &[2])?;
    let file = input(alloc, b"abc")?;
    let missing = inputs.open(&file);
    let failed = inputs.open(&InputName::Stdin);
    Ok([missing, failed, inputs.open(&InputName::Stdin)])
}

/// Opens an input and reads three times.
fn three_reads(
    inputs: &mut SureInputs,
    name: &InputName,
    max: usize,
    all: &mut Bytes,
) -> Result<[Got; 3], Opened>
    requires { 1 ≤ max }
{
    match inputs.open(name) {
        Opened::Ok => {}
        other => return Err(other),
    }
    let first = inputs.read(max, all);
    let second = inputs.read(max, all);
    let third = inputs.read(max, all);
    Ok([first, second, third])
}

/// Inputs that never fail: `abc` and then `second` in entries of one file, and `xy` in standard input.
fn sure_inputs(alloc: Global) -> Result<SureInputs, NoMemory> {
    let mut contents = Vec::new(alloc);
    contents.push((input(alloc, b"in")?, Bytes::copy_of(alloc, b"abc")?))?;
    contents.push((input(alloc, b"in")?, Bytes::copy_of(alloc, b"second")?))?;
    contents.push((InputName::Stdin, Bytes::copy_of(alloc, b"xy")?))?;
    SureInputs::new(alloc, contents)
}

/// Whether a file's first entry alone is read.
fn is_first_entry_read(alloc: Global) -> Result<bool, NoMemory> {
    let mut inputs = sure_inputs(alloc)?;
    let mut all = Bytes::new(alloc);
    let got = three_reads(&mut inputs, &input(alloc, b"in")?, 2, &mut all);
    Ok(got == Ok([Got::Some(2), Got::Some(1), Got::End]) && all.as_slice() == b"abc".as_slice())
}

/// Whether a file without an entry is empty, each time that it is opened.
fn is_other_empty(alloc: Global) -> Result<bool, NoMemory> {
    let mut inputs = sure_inputs(alloc)?;
    let other = input(alloc, b"other")?;
    let mut all = Bytes::new(alloc);
    let first = three_reads(&mut inputs, &other, 9, &mut all);
    let second = three_reads(&mut inputs, &other, 9, &mut all);
    let empty = Ok([Got::End, Got::End, Got::End]);
    Ok(first == empty && second == empty && all.is_empty())
}

/// What standard input, another file and standard input again give, a byte a read.
fn read_again(alloc: Global) -> Result<Bytes, NoMemory> {
    let mut inputs = sure_inputs(alloc)?;
    let other = input(alloc, b"other")?;
    let mut all = Bytes::new(alloc);
    for name in [&InputName::Stdin, &other, &InputName::Stdin] {
        if three_reads(&mut inputs, name, 1, &mut all).is_err() {
            all.push(b'!')?;
        }
    }
    Ok(all)
}

/// Whether `new` is written in two pieces.
fn is_new_written<O: Outputs>(outputs: &mut O, target: &Target, mode: Mode) -> bool {
    let opened = outputs.open(target, mode);
    let first = outputs.write(target, b"ne");
    let second = outputs.write(target, b"w");
    let closed = outputs.close(target);
    [opened, first, second, closed] == [Done::Ok; 4]
}

/// Outputs that hold `old` in a file.
fn outputs(alloc: Global, room: usize, failing: &[u64]) -> Result<MemOutputs, NoMemory> {
    let mut held = Vec::new(alloc);
    held.push((target(alloc, b"out")?, Bytes::copy_of(alloc, b"old")?))?;
    MemOutputs::new(alloc, held, room, Vec::from_slice(alloc, failing)?)
}

/// Whether a file holds this after `new` was written to it, and standard output nothing.
fn holds_after_new(alloc: Global, mode: Mode, want: &[u8]) -> Result<bool, NoMemory> {
    let file = target(alloc, b"out")?;
    let mut outputs = outputs(alloc, 100, &[])?;
    let before = outputs.bytes_of(&file) == Some(b"old");
    let written = is_new_written(&mut outputs, &file, mode);
    let nothing: &[u8] = b"";
    Ok(
        before
            && written
            && outputs.bytes_of(&file) == Some(want)
            && outputs.bytes_of(&Target::Stdout) == Some(nothing),
    )
}

/// Whether a file that isn't open is neither written nor closed, and is empty once it is opened.
fn is_opened_first(alloc: Global) -> Result<bool, NoMemory> {
    let other = target(alloc, b"other")?;
    let mut outputs = outputs(alloc, 100, &[])?;
    let written = outputs.write(&other, b"text");
    let closed = outputs.close(&other);
    let missing = outputs.bytes_of(&other).is_none();
    let opened = outputs.open(&other, Mode::Append);
    let nothing: &[u8] = b"";
    Ok(
        [written, closed, opened] == [Done::Failed, Done::Failed, Done::Ok]
            && missing
            && outputs.bytes_of(&other) == Some(nothing),
    )
}

/// Whether a write that fails leaves half of its bytes, and one without room as many as there is
/// room for.
fn is_room_kept(alloc: Global) -> Result<bool, NoMemory> {
    let mut full = outputs(alloc, 7, &[2])?;
    let first = full.write(&Target::Stdout, b"ab");
    let second = full.write(&Target::Stdout, b"cdef");
    let third = full.write(&Target::Stderr, b"past the room");
    let half: &[u8] = b"abcd";
    let rest: &[u8] = b"pas";
    Ok(
        [first, second, third] == [Done::Ok, Done::Failed, Done::Failed]
            && full.bytes_of(&Target::Stdout) == Some(half)
            && full.bytes_of(&Target::Stderr) == Some(rest),
    )
}

/// Outputs that never fail: `old` and then `second` in entries of one file.
fn sure_outputs(alloc: Global) -> Result<SureOutputs, NoMemory> {
    let mut held = Vec::new(alloc);
    held.push((target(alloc, b"out")?, Bytes::copy_of(alloc, b"old")?))?;
    held.push((target(alloc, b"out")?, Bytes::copy_of(alloc, b"second")?))?;
    SureOutputs::new(alloc, held)
}

/// Whether a file of outputs that never fail holds this after `new` was written to it.
fn surely_holds_after_new(alloc: Global, mode: Mode, want: &[u8]) -> Result<bool, NoMemory> {
    let file = target(alloc, b"out")?;
    let mut outputs = sure_outputs(alloc)?;
    let before = outputs.bytes_of(&file) == Some(b"old");
    let written = is_new_written(&mut outputs, &file, mode);
    Ok(before && written && outputs.bytes_of(&file) == Some(want))
}

/// Whether standard output takes two writes and standard error is empty.
fn are_streams_apart(alloc: Global) -> Result<bool, NoMemory> {
    let mut outputs = sure_outputs(alloc)?;
    let first = outputs.write(&Target::Stdout, b"a");
    let second = outputs.write(&Target::Stdout, b"b");
    let both: &[u8] = b"ab";
    let nothing: &[u8] = b"";
    Ok(
        [first, second] == [Done::Ok; 2]
            && outputs.bytes_of(&Target::Stdout) == Some(both)
            && outputs.bytes_of(&Target::Stderr) == Some(nothing),
    )
}

/// Whether a file takes a write once it is open, and not before.
fn is_surely_opened_first(alloc: Global) -> Result<bool, NoMemory> {
    let other = target(alloc, b"other")?;
    let mut outputs = sure_outputs(alloc)?;
    let closed = outputs.close(&other);
    let unopened = outputs.write(&other, b"text");
    let missing = outputs.bytes_of(&other).is_none();
    let opened = outputs.open(&other, Mode::Append);
    let written = outputs.write(&other, b"text");
    let text: &[u8] = b"text";
    Ok(
        [closed, unopened, opened, written] == [Done::Ok, Done::NoMemory, Done::Ok, Done::Ok]
            && missing
            && outputs.bytes_of(&other) == Some(text),
    )
}

#[test]
fn memory_gives_its_texts_and_keeps_what_is_written(rt: HostRuntime) -> Result<(), NoMemory> {
    let alloc = rt.alloc();
    assert_eq!(rt; first_misread(alloc)?, None);
    assert_eq!(rt;
        three_opens(alloc)?,
        [Opened::Failed, Opened::Failed, Opened::Ok]
    );
    assert!(rt; is_first_entry_read(alloc)?);
    assert!(rt; is_other_empty(alloc)?);
    assert_eq!(rt; read_again(alloc)?.as_slice(), b"xyxy".as_slice());
    assert!(rt; holds_after_new(alloc, Mode::Fresh, b"new")?);
    assert!(rt; holds_after_new(alloc, Mode::Append, b"oldnew")?);
    assert!(rt; is_opened_first(alloc)?);
    assert!(rt; is_room_kept(alloc)?);
    assert!(rt; surely_holds_after_new(alloc, Mode::Fresh, b"new")?);
    assert!(rt; surely_holds_after_new(alloc, Mode::Append, b"oldnew")?);
    assert!(rt; are_streams_apart(alloc)?);
    assert!(rt; is_surely_opened_first(alloc)?);
    Ok(())
}
