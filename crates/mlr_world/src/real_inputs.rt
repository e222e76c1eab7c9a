//! The inputs of the system: files and standard input.
ghost use Rattle.std.specs.Prelude.{◌≡◌, ◌↔◌, ◌≤◌, [], ◌++◌, length, take, drop, min, None, IsTrue, IsErr, IfOk, OnOk, OnErr};
ghost use Rattle.std.specs.declared.result.Result.TheVariants.{Ok};
ghost use Rattle.mlr_event.specs.declared.names.InputName.{InputName};
ghost use Rattle.mlr_world.specs.Inputs.{untold_entry};
ghost use Rattle.std.specs.Io.KnownBytes.{Consumes, IsAtEnd, Keeps};

use crate::{Got, Inputs, Opened};
use mlr_event::InputName;
use mlr_spec::NoMemory;
use mlr_value::Bytes;
use std::alloc::Global;
use std::io::{ErrorKind, Read};
use std::marker::Model;
use std::rt::Files;
use std::{fs, io, str};

/// The most bytes that one read asks the system for.
const ROOM: usize = 65_536;

/// How many times a read is tried while signals interrupt it.
const TRIES: u32 = 1_000;

/// The files of the system by name, and standard input.
///
/// Standard input can't be read again from its start: opening it again continues after the bytes read before.
#[derive(Drop)]
pub struct RealInputs<R: Files + Input> {
    alloc: Global,
    rt: R,
    stdin: R::Reader,
    name: Option<InputName>,
    /// The open file, or None while standard input is read.
    file: Option<R::File>,
    ended: bool,
    unread: Unread,
    faults: u64,
}

impl<R: Files + Input + Drop> RealInputs<R> {
    /// No input is open yet. It allocates one buffer; later calls allocate only for names and for the bytes
    /// that a read returns.
    pub fn new(alloc: Global, rt: R) -> Result<Self, NoMemory>
        ensures closed { IfOk result (λ made. ⟦<RealInputs<R> as Inputs>⟧.open_entry made ≡ None) }
        ensures faults { IfOk result (λ made. (name : InputName)
            → ⟦<RealInputs<R> as Inputs>⟧.faults made name ≡ 0) }
    {
        let unread = Unread::new(alloc)?;
        let stdin = rt.reader();
        Ok(RealInputs {
            alloc,
            rt,
            stdin,
            name: None,
            file: None,
            ended: false,
            unread,
            faults: 0,
        })
    }
}

impl<R: Files + Input> Inputs for RealInputs<R> {
    ghost contents = { λ _. None };

    ghost taken = { λ _. None };

    ghost open_entry = { λ s. untold_entry s.name };

    ghost faults = { λ s _. s.faults };

    fn open(&mut self, name: &InputName) -> Opened {
        self.name = None;
        self.file = None;
        self.ended = false;
        self.unread.clear();
        let Ok(copy) = name.copy(self.alloc) else {
            return Opened::NoMemory;
        };
        match file_of(&self.rt, name) {
            Ok(file) => {
                self.name = Some(copy);
                self.file = file;
                Opened::Ok
            }
            Err(_) => {
                self.faults = self.faults.saturating_add(1);
                Opened::Failed
            }
        }
    }

    fn read(&mut self, max: usize, into: &mut Bytes) -> Got {
        if self.unread.is_empty() {
            if self.ended {
                return Got::End;
            }
            let answer = match &mut self.file {
                Some(file) => self.unread.fill(file, max),
                None => self.unread.fill(&mut self.stdin, max),
            };
            match filled_of(answer) {
                Filled::Some => {}
                Filled::End => {
                    self.ended = true;
                    return Got::End;
                }
                Filled::Failed => {
                    self.faults = self.faults.saturating_add(1);
                    return Got::Failed;
                }
            }
        }
        match self.unread.hand_out(max, into) {
            Ok(count) => Got::Some(count),
            Err(_) => Got::NoMemory,
        }
    }
}

/// What a read of the system gave.
#[derive(Clone, Copy)]
enum Filled {
    /// One byte or more.
    Some,
    /// No byte, as the input has ended.
    End,
    Failed,
}

/// What the system's answer to a read of one byte or more says.
fn filled_of(answer: io::Result<usize>) -> Filled
    ensures end { (result ≡ Filled.End) ↔ (answer ≡ Ok 0) }
    ensures failed { (result ≡ Filled.Failed) ↔ IsErr answer }
{
    match answer {
        Ok(0) => Filled::End,
        Ok(_) => Filled::Some,
        Err(_) => Filled::Failed,
    }
}

/// The file of this name, opened, or None for standard input.
fn file_of<R: Files>(rt: &R, name: &InputName) -> io::Result<Option<R::File>> {
    match name {
        InputName::Stdin => Ok(None),
        InputName::File(path) => match str::from_utf8(path.as_slice()) {
            Ok(path) => Ok(Some(fs::open(rt, path)?)),
            Err(_) => Err(io::Error::from(ErrorKind::InvalidInput)),
        },
    }
}

/// Reads up to `max` bytes to the start of the buffer. A read that a signal interrupts is tried again, at
/// most `TRIES` times; then the interruption is its error.
fn read_once<S: Read>(source: &mut S, buffer: &mut [u8], max: usize) -> io::Result<usize>
    ensures most { IfOk result (λ n. n ≤ max) }
    ensures bound { IfOk result (λ n. n ≤ length buffer.new) }
    ensures bytes { IfOk result (λ n. Consumes (S.remaining source.old) (S.remaining source.new)
        (take n buffer.new)) }
    ensures end { IfOk result (λ n. n ≡ 0 → 1 ≤ max → 1 ≤ length buffer.old
        → IsAtEnd (S.remaining source.new)) }
    ensures err { OnErr result (Keeps (S.remaining source.old) (S.remaining source.new)) }
{
    let most = max.min(buffer.len());
    for _ in 0..TRIES {
        match source.read(&mut buffer[..most]) {
            Ok(count) => return Ok(count),
            Err(e) => {
                if e.kind() != ErrorKind::Interrupted {
                    return Err(e);
                }
            }
        }
    }
    Err(io::Error::from(ErrorKind::Interrupted))
}

/// The bytes that the system gave and that no read has returned yet: those of the buffer from `start` up to
/// `end`.
///
/// Between reads there are some only if the last read ran out of memory for them.
#[derive(Drop)]
struct Unread {
    buffer: Vec<u8>,
    start: usize,
    end: usize,
}

impl Model for Unread {
    ghost use Rattle.std.specs.Prelude.{ℕ, ◌≤◌, List, length, take, drop};

    ghost Value = { List ℕ };

    ghost view = { λ u. drop u.start (take u.end u.buffer.items) };

    ghost invariant = { λ u. (u.start ≤ u.end) × (u.end ≤ length u.buffer.items)
        × (1 ≤ length u.buffer.items) };
}

impl Unread {
    fn new(alloc: Global) -> Result<Self, NoMemory>
        ensures { IfOk result (λ made. made ≡ []) }
    {
        Ok(Unread {
            buffer: vec![in alloc; 0; ROOM]?,
            start: 0,
            end: 0,
        })
    }

    fn is_empty(&self) -> bool
        ensures { IsTrue result ↔ (length self.now ≡ 0) }
    {
        self.start == self.end
    }

    fn clear(&mut self)
        ensures { self.new ≡ [] }
    {
        self.start = 0;
        self.end = 0;
    }

    /// Replaces the bytes by up to `max` new ones, with one read.
    fn fill<S: Read>(&mut self, source: &mut S, max: usize) -> io::Result<usize>
        ensures count { IfOk result (λ n. n ≡ length self.new) }
        ensures most { IfOk result (λ n. n ≤ max) }
        ensures bytes { OnOk result (Consumes (S.remaining source.old) (S.remaining source.new)
            self.new) }
        ensures end { IfOk result (λ n. n ≡ 0 → 1 ≤ max → IsAtEnd (S.remaining source.new)) }
        ensures err { OnErr result (self.new ≡ []) }
    {
        self.start = 0;
        self.end = 0;
        self.end = read_once(source, &mut self.buffer, max)?;
        Ok(self.end)
    }

    /// Appends up to `max` of the bytes to `into`. If memory runs out, the bytes stay here.
    fn hand_out(&mut self, max: usize, into: &mut Bytes) -> Result<usize, NoMemory>
        ensures count { IfOk result (λ n. n ≡ min max (length self.old)) }
        ensures handed { IfOk result (λ n. into.new ≡ into.old ++ take n self.old) }
        ensures rest { IfOk result (λ n. self.new ≡ drop n self.old) }
        ensures kept { OnErr result (self.new ≡ self.old) }
        ensures unchanged { OnErr result (into.new ≡ into.old) }
    {
        let count = max.min(self.end - self.start);
        into.append(&self.buffer[self.start..self.start + count])?;
        self.start += count;
        Ok(count)
    }
}

#[cfg(test)]
mod tests {
    use super::*;
    use crate::{Done, Outputs, RealOutputs};
    use mlr_event::{Mode, Target};
    use std::process::Abort;
    use std::test::Fail;

    /// A reader that a signal interrupts first, then gives one byte, fails, and gives one byte again.
    #[derive(Drop)]
    struct Faltering(u8);

    impl Read for Faltering {
        fn read(&mut self, buffer: &mut [u8]) -> io::Result<usize> {
            let call = self.0;
            self.0 = call.saturating_add(1);
            if call == 0 {
                return Err(io::Error::from(ErrorKind::Interrupted));
            }
            if call == 2 || buffer.is_empty() {
                return Err(io::Error::from(ErrorKind::Other));
            }
            buffer[0] = b'a';
            Ok(1)
        }
    }

    /// Checks that inputs have the traits that a program needs to move them to a thread.
    fn ready<I: Inputs + Drop + Send + 'static>(inputs: I) -> I
        ensures { result ≡ inputs }
    {
        inputs
    }

    /// All of an input, by one read of 3 bytes and one of 65,536, and then its end.
    fn take_all<I: Inputs>(rt: &impl Abort, inputs: &mut I, name: &InputName, into: &mut Bytes) {
        assert_eq!(rt; inputs.open(name), Opened::Ok);
        assert_eq!(rt; inputs.read(3, into), Got::Some(3));
        assert_eq!(rt; inputs.read(65_536, into), Got::Some(7));
        assert_eq!(rt; inputs.read(65_536, into), Got::End);
        assert_eq!(rt; inputs.read(1, into), Got::End);
    }

    fn reads_a_file_in_pieces(test: &impl Abort, rt: HostRuntime) -> Result<(), Fail> {
        let alloc = rt.alloc();
        let path = b"pieces.txt";
        let target = Target::File(Bytes::copy_of(alloc, path)?);
        let mut outputs = RealOutputs::new(alloc, rt);
        assert_eq!(test; outputs.open(&target, Mode::Fresh), Done::Ok);
        assert_eq!(test; outputs.write(&target, b"one\ntwo\r\n\xff"), Done::Ok);
        assert_eq!(test; outputs.close(&target), Done::Ok);

        let mut inputs = ready(RealInputs::new(alloc, rt)?);
        let name = InputName::File(Bytes::copy_of(alloc, path)?);
        let mut text = Bytes::new(alloc);
        take_all(test, &mut inputs, &name, &mut text);
        take_all(test, &mut inputs, &name, &mut text);
        assert_eq!(test;
            text.as_slice(),
            b"one\ntwo\r\n\xffone\ntwo\r\n\xff".as_slice()
        );
        fs::remove_file(&rt, "pieces.txt")?;
        Ok(())
    }

    fn counts_what_fails(test: &impl Abort, rt: HostRuntime) -> Result<(), Fail> {
        let alloc = rt.alloc();
        let mut inputs = RealInputs::new(alloc, rt)?;
        let missing = InputName::File(Bytes::copy_of(alloc, b"no such file")?);
        assert_eq!(test; inputs.open(&missing), Opened::Failed);
        let not_text = InputName::File(Bytes::copy_of(alloc, b"\xff")?);
        assert_eq!(test; inputs.open(&not_text), Opened::Failed);
        assert_eq!(test; inputs.faults, 2);

        let folder = InputName::File(Bytes::copy_of(alloc, b".")?);
        let mut text = Bytes::new(alloc);
        assert_eq!(test; inputs.open(&folder), Opened::Ok);
        assert_eq!(test; inputs.read(8, &mut text), Got::Failed);
        assert_eq!(test; inputs.faults, 3);
        Ok(())
    }

    /// A test is run with an empty standard input.
    fn reads_standard_input(test: &impl Abort, rt: HostRuntime) -> Result<(), Fail> {
        let alloc = rt.alloc();
        let mut inputs = RealInputs::new(alloc, rt)?;
        let mut text = Bytes::new(alloc);
        assert_eq!(test; inputs.open(&InputName::Stdin), Opened::Ok);
        assert_eq!(test; inputs.read(8, &mut text), Got::End);
        assert_eq!(test; inputs.faults, 0);
        Ok(())
    }

    fn goes_on_after_an_error(test: &impl Abort, rt: HostRuntime) -> Result<(), Fail> {
        let mut unread = Unread::new(rt.alloc())?;
        let mut source = Faltering(0);
        assert_eq!(test; unread.fill(&mut source, 8).ok(), Some(1));
        assert!(test; unread.fill(&mut source, 8).is_err());
        assert!(test; unread.is_empty());
        assert_eq!(test; unread.fill(&mut source, 8).ok(), Some(1));
        Ok(())
    }

    fn hands_out_in_pieces(test: &impl Abort, rt: HostRuntime) -> Result<(), Fail> {
        let alloc = rt.alloc();
        let mut unread = Unread::new(alloc)?;
        let mut text = Bytes::new(alloc);
        let mut source = b"abcdef".as_slice();
        assert_eq!(test; unread.fill(&mut source, 5).ok(), Some(5));
        assert_eq!(test; unread.hand_out(2, &mut text), Ok(2));
        assert_eq!(test; unread.hand_out(8, &mut text), Ok(3));
        assert_eq!(test; unread.fill(&mut source, 5).ok(), Some(1));
        assert_eq!(test; unread.hand_out(1, &mut text), Ok(1));
        assert_eq!(test; unread.fill(&mut source, 5).ok(), Some(0));
        assert_eq!(test; text.as_slice(), b"abcdef".as_slice());
        Ok(())
    }

    #[test]
    fn files_and_streams_are_read(rt: HostRuntime) -> Result<(), Fail> {
        reads_a_file_in_pieces(&rt, rt)?;
        counts_what_fails(&rt, rt)?;
        reads_standard_input(&rt, rt)?;
        goes_on_after_an_error(&rt, rt)?;
        hands_out_in_pieces(&rt, rt)?;
        Ok(())
    }
}
