//! The outputs of the system: files, standard output and standard error.
ghost use Rattle.std.specs.Prelude.{◌≡◌, ◌≢◌, ◌↔◌, ◌<◌, ◌≤◌, None, All, IsOk, IsErr, IsErrAnd, IfSome, IfNone, length, slice_get, vec_len, vec_capacity};
ghost use Rattle.std.specs.IoError.{error_kind};
ghost use Rattle.mlr_event.specs.declared.names.Target.{Target};
ghost use Rattle.mlr_world.specs.Counts.{Tallied};
ghost use Rattle.mlr_world.specs.Outputs.{call_failed, lacked_memory};

use crate::{Done, Outputs};
use mlr_event::{Mode, Target};
use mlr_value::Bytes;
use std::alloc::Global;
use std::fs::OpenOptions;
use std::io::{Error, ErrorKind, Write};
use std::rt::Files;
use std::{io, str};

/// A runtime with a standard error that takes bytes. `Eprint` of std takes only texts.
pub trait ErrorStream {
    /// Writes all the bytes, or fails.
    fn write_error(&self, bytes: &[u8]) -> io::Result<()>;
}

impl ErrorStream for HostRuntime {
    fn write_error(&self, bytes: &[u8]) -> io::Result<()> {
        self.stderr().write_all(bytes)
    }
}

/// An open file, with its target.
#[derive(Drop)]
struct FileOutput<F> {
    target: Target,
    file: F,
}

/// The files of the system by name, standard output and standard error. Nothing is buffered here.
#[derive(Drop)]
pub struct RealOutputs<R: Files + Print + ErrorStream> {
    alloc: Global,
    rt: R,
    files: Vec<FileOutput<R::File>>,
    counts: Counts,
}

impl<R: Files + Print + ErrorStream> RealOutputs<R> {
    /// No file is open yet. It doesn't allocate.
    pub fn new(alloc: Global, rt: R) -> Self
        ensures faults { (target : Target)
            → ⟦<RealOutputs<R> as Outputs>⟧.faults result target ≡ 0 }
        ensures shortages { ⟦<RealOutputs<R> as Outputs>⟧.shortages result ≡ 0 }
    {
        RealOutputs {
            alloc,
            rt,
            files: Vec::new(alloc),
            counts: Counts {
                faults: 0,
                shortages: 0,
            },
        }
    }
}

impl<R: Files + Print + ErrorStream> Outputs for RealOutputs<R> {
    ghost held = { λ _. None };

    ghost faults = { λ s _. s.counts.faults };

    ghost shortages = { λ s. s.counts.shortages };

    fn open(&mut self, target: &Target, mode: Mode) -> Done {
        let done = match target {
            Target::Stdout | Target::Stderr => Done::Ok,
            Target::File(name) => {
                done_of_open(open_file(&self.rt, self.alloc, &mut self.files, target, name, mode))
            }
        };
        self.counts.add(done);
        done
    }

    fn write(&mut self, target: &Target, bytes: &[u8]) -> Done {
        let answer = match target {
            Target::Stdout => self.rt.write_all(bytes),
            Target::Stderr => self.rt.write_error(bytes),
            Target::File(_) => write_file(&mut self.files, target, bytes),
        };
        let done = done_of_write(answer);
        self.counts.add(done);
        done
    }

    fn close(&mut self, target: &Target) -> Done {
        let done = match target {
            Target::Stdout | Target::Stderr => Done::Ok,
            Target::File(_) => {
                if close_file(&mut self.files, target) {
                    Done::Ok
                } else {
                    Done::Failed
                }
            }
        };
        self.counts.add(done);
        done
    }
}

/// The result of a write. Running out of memory in the system counts as failed too, since bytes may already
/// have been written.
fn done_of_write(answer: io::Result<()>) -> Done
    ensures ok { (result ≡ Done.Ok) ↔ IsOk answer }
    ensures failed { (result ≡ Done.Failed) ↔ IsErr answer }
{
    match answer {
        Ok(()) => Done::Ok,
        Err(_) => Done::Failed,
    }
}

/// The result of an open, which changes nothing if it runs out of memory.
fn done_of_open(answer: io::Result<()>) -> Done
    ensures ok { (result ≡ Done.Ok) ↔ IsOk answer }
    ensures memory { (result ≡ Done.NoMemory) ↔ IsErrAnd answer
        (λ e. error_kind e ≡ ErrorKind.OutOfMemory) }
{
    match answer {
        Ok(()) => Done::Ok,
        Err(e) => {
            if e.kind() == ErrorKind::OutOfMemory {
                Done::NoMemory
            } else {
                Done::Failed
            }
        }
    }
}

/// Opens the file of a target, and closes the one that was open for it. It allocates before it opens.
fn open_file<R: Files>(
    rt: &R,
    alloc: Global,
    files: &mut Vec<FileOutput<R::File>>,
    target: &Target,
    name: &Bytes,
    mode: Mode,
) -> io::Result<()> {
    let Ok(path) = str::from_utf8(name.as_slice()) else {
        return Err(Error::from(ErrorKind::InvalidInput));
    };
    let Ok(target) = target.copy(alloc) else {
        return Err(Error::from(ErrorKind::OutOfMemory));
    };
    files.reserve(1)?;
    close_file(files, &target);
    let mut how = OpenOptions::new();
    match mode {
        Mode::Fresh => how.write(true).create(true).truncate(true),
        Mode::Append => how.append(true).create(true),
    };
    let file = how.open(rt, path)?;
    files.push(FileOutput { target, file }).unwrap();
    Ok(())
}

/// Writes all the bytes to the file of a target. It fails if no file is open for the target.
fn write_file<F: Write>(
    files: &mut [FileOutput<F>],
    target: &Target,
    bytes: &[u8],
) -> io::Result<()> {
    match place_of(files, target) {
        Some(place) => files[place].file.write_all(bytes),
        None => Err(Error::from(ErrorKind::NotFound)),
    }
}

/// Closes the file of a target, and returns whether it was open.
fn close_file<F: Drop>(files: &mut Vec<FileOutput<F>>, target: &Target) -> bool
    ensures len { vec_len files.new ≤ vec_len files.old }
    ensures capacity { vec_capacity files.new ≡ vec_capacity files.old }
{
    match place_of(files, target) {
        Some(place) => {
            files.swap_remove(place);
            true
        }
        None => false,
    }
}

/// The place of the open file of a target.
fn place_of<F>(files: &[FileOutput<F>], target: &Target) -> Option<usize>
    ensures bound { IfSome result (λ place. place < length files.now) }
    ensures here { IfSome result (λ place. IfSome (slice_get files.now place)
        (λ output. output.target ≡ target.now)) }
    ensures absent { IfNone result (All (λ output. output.target ≢ target.now) files.now) }
{
    for (place, output) in files.iter().enumerate() {
        if output.target.is(target) {
            return Some(place);
        }
    }
    None
}

/// How many calls failed and how many ran out of memory. Neither count falls, and each stays at its greatest
/// value.
#[derive(Drop)]
struct Counts {
    faults: u64,
    shortages: u64,
}

impl Counts {
    /// Counts the result of a call.
    fn add(&mut self, done: Done)
        ensures faults { Tallied (call_failed done) self.old.faults self.new.faults }
        ensures faults_stay { self.old.faults ≤ self.new.faults }
        ensures shortages { Tallied (lacked_memory done) self.old.shortages self.new.shortages }
    {
        match done {
            Done::Ok => {}
            Done::Failed => self.faults = self.faults.saturating_add(1),
            Done::NoMemory => self.shortages = self.shortages.saturating_add(1),
        }
    }
}

#[cfg(test)]
mod tests {
    use super::*;
    use std::fs;
    use std::process::Abort;
    use std::test::Fail;

    /// Checks that outputs have the traits that a program needs to move them to a thread.
    fn ready<O: Outputs + Drop + Send + 'static>(outputs: O) -> O
        ensures { result ≡ outputs }
    {
        outputs
    }

    fn writes_files(test: &impl Abort, rt: HostRuntime) -> Result<(), Fail> {
        let alloc = rt.alloc();
        let mut outputs = ready(RealOutputs::new(alloc, rt));
        let one = Target::File(Bytes::copy_of(alloc, b"one.txt")?);
        let two = Target::File(Bytes::copy_of(alloc, b"two.txt")?);
        assert_eq!(test; outputs.open(&one, Mode::Fresh), Done::Ok);
        assert_eq!(test; outputs.open(&two, Mode::Append), Done::Ok);
        assert_eq!(test; outputs.write(&one, b"first\n"), Done::Ok);
        assert_eq!(test; outputs.write(&two, b"other\n"), Done::Ok);
        assert_eq!(test; outputs.write(&one, b"second\n"), Done::Ok);
        assert_eq!(test; outputs.close(&one), Done::Ok);
        // The other file is still open.
        assert_eq!(test; outputs.write(&one, b"closed\n"), Done::Failed);
        assert_eq!(test; outputs.write(&two, b"more\n"), Done::Ok);
        assert_eq!(test; outputs.open(&one, Mode::Append), Done::Ok);
        assert_eq!(test; outputs.write(&one, b"third\n"), Done::Ok);
        assert_eq!(test;
            fs::read_to_string(&rt, "one.txt")?.as_str(),
            "first\nsecond\nthird\n"
        );
        assert_eq!(test;
            fs::read_to_string(&rt, "two.txt")?.as_str(),
            "other\nmore\n"
        );
        assert_eq!(test; outputs.open(&one, Mode::Fresh), Done::Ok);
        assert_eq!(test; outputs.write(&one, b"again\n"), Done::Ok);
        assert_eq!(test; outputs.close(&one), Done::Ok);
        assert_eq!(test; fs::read_to_string(&rt, "one.txt")?.as_str(), "again\n");
        fs::remove_file(&rt, "one.txt")?;
        fs::remove_file(&rt, "two.txt")?;
        assert_eq!(test; outputs.counts.faults, 1);
        Ok(())
    }

    fn counts_what_fails(test: &impl Abort, rt: HostRuntime) -> Result<(), Fail> {
        let alloc = rt.alloc();
        let mut outputs = RealOutputs::new(alloc, rt);
        let target = Target::File(Bytes::copy_of(alloc, b"/dev/full")?);
        assert_eq!(test; outputs.write(&target, b"a"), Done::Failed);
        assert_eq!(test; outputs.close(&target), Done::Failed);
        assert_eq!(test; outputs.open(&target, Mode::Append), Done::Ok);
        assert_eq!(test; outputs.write(&target, b"a"), Done::Failed);
        assert_eq!(test; outputs.close(&target), Done::Ok);
        let not_text = Target::File(Bytes::copy_of(alloc, b"\xff")?);
        assert_eq!(test; outputs.open(&not_text, Mode::Fresh), Done::Failed);
        let in_no_folder = Target::File(Bytes::copy_of(alloc, b"none/such.txt")?);
        assert_eq!(test; outputs.open(&in_no_folder, Mode::Fresh), Done::Failed);
        assert_eq!(test; outputs.counts.faults, 5);
        assert_eq!(test; outputs.counts.shortages, 0);
        Ok(())
    }

    fn writes_streams(test: &impl Abort, rt: HostRuntime) -> Result<(), Fail> {
        let mut outputs = RealOutputs::new(rt.alloc(), rt);
        for target in [Target::Stdout, Target::Stderr] {
            assert_eq!(test; outputs.open(&target, Mode::Fresh), Done::Ok);
            assert_eq!(test; outputs.write(&target, b"to a stream \xff\n"), Done::Ok);
            assert_eq!(test; outputs.close(&target), Done::Ok);
        }
        assert_eq!(test; outputs.counts.faults, 0);
        Ok(())
    }

    #[test]
    fn files_and_streams_are_written(rt: HostRuntime) -> Result<(), Fail> {
        writes_files(&rt, rt)?;
        counts_what_fails(&rt, rt)?;
        writes_streams(&rt, rt)?;
        Ok(())
    }
}
