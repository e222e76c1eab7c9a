//! Names of inputs, and targets of outputs.
ghost use Rattle.std.specs.Prelude.{◌≡◌, ◌↔◌, IsTrue, IfOk};

use mlr_spec::NoMemory;
use mlr_value::Bytes;
use std::alloc::Global;

/// An input of a run.
#[derive(Debug, PartialEq, Eq, Drop)]
pub enum InputName {
    /// Standard input, which messages call `(stdin)`.
    Stdin,
    /// A file, by its name as it was given. Two spellings of one path are two names.
    File(Bytes),
}

impl InputName {
    /// Whether the two are one name.
    pub fn is(&self, other: &InputName) -> bool
        ensures { IsTrue result ↔ (self.now ≡ other.now) }
    {
        match (self, other) {
            (InputName::Stdin, InputName::Stdin) => true,
            (InputName::File(name), InputName::File(other)) => name == other,
            _ => false,
        }
    }

    /// A copy. It takes memory for the name of a file with more than 20 bytes.
    pub fn copy(&self, alloc: Global) -> Result<InputName, NoMemory>
        ensures { IfOk result (λ copy. copy ≡ self.now) }
    {
        match self {
            InputName::Stdin => Ok(InputName::Stdin),
            InputName::File(name) => Ok(InputName::File(Bytes::copy_of(alloc, name.as_slice())?)),
        }
    }
}

/// An output of a run.
#[derive(Debug, PartialEq, Eq, Drop)]
pub enum Target {
    /// Standard output, which messages call `(stdout)`.
    Stdout,
    /// Standard error, which messages call `(stderr)`.
    Stderr,
    /// A file, by its name as it was given. Two spellings of one path are two names.
    File(Bytes),
}

impl Target {
    /// Whether the two are one target.
    pub fn is(&self, other: &Target) -> bool
        ensures { IsTrue result ↔ (self.now ≡ other.now) }
    {
        match (self, other) {
            (Target::Stdout, Target::Stdout) => true,
            (Target::Stderr, Target::Stderr) => true,
            (Target::File(name), Target::File(other)) => name == other,
            _ => false,
        }
    }

    /// A copy. It takes memory for the name of a file with more than 20 bytes.
    pub fn copy(&self, alloc: Global) -> Result<Target, NoMemory>
        ensures { IfOk result (λ copy. copy ≡ self.now) }
    {
        match self {
            Target::Stdout => Ok(Target::Stdout),
            Target::Stderr => Ok(Target::Stderr),
            Target::File(name) => Ok(Target::File(Bytes::copy_of(alloc, name.as_slice())?)),
        }
    }
}

/// A file that a plan names. Both count from 1.
#[derive(Clone, Copy, Debug, PartialEq, Eq)]
pub enum FileRef {
    /// The main input with this number.
    Main(u64),
    /// The left file of the verb with this number.
    Left(u32),
}

/// How an output is opened.
#[derive(Clone, Copy, Debug, PartialEq, Eq)]
pub enum Mode {
    /// `>`: it starts empty.
    Fresh,
    /// `>>`: it keeps what it held.
    Append,
}

/// A row of the plan's writer options. Equal options have one row, and row 0 is the main output's.
#[derive(Clone, Copy, Debug, PartialEq, Eq)]
pub struct StyleId(pub u32);
