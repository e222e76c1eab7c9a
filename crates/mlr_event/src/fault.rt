//! Faults in the data.
use crate::{FileRef, Mode, StyleId};
use mlr_value::Bytes;

/// A fault in the data, with its place. Lines and bytes count from 1 in their file, verbs count from 1 in the chain,
/// and `nr` is the number of the record over all files.
#[derive(Debug, PartialEq, Eq)]
pub enum Fault {
    /// A row of `have` fields under a header of `want` fields. The line is that on which the row begins.
    Length {
        file: FileRef,
        line: u64,
        want: u64,
        have: u64,
    },
    /// A quote that is open at the end of the file. The line is that on which its row begins.
    Quote {
        file: FileRef,
        line: u64,
    },
    /// A line of a table in another form than bars and cells.
    Table {
        file: FileRef,
        line: u64,
    },
    /// The text no longer begins any JSON text.
    JsonSyntax {
        file: FileRef,
        byte: u64,
    },
    /// A bracket opens level 101.
    JsonDeep {
        file: FileRef,
        byte: u64,
    },
    /// A JSON value that is no map, where a record is needed.
    JsonKind {
        file: FileRef,
        byte: u64,
    },
    /// A block of a program took all the turns of loops and calls that it may take.
    Turns {
        verb: u32,
        nr: u64,
        limit: u64,
    },
    /// A call was made while 500 calls were active.
    Depth {
        verb: u32,
        nr: u64,
    },
    /// An assertion failed. `name` is that of its function.
    Assert {
        verb: u32,
        nr: u64,
        name: Bytes,
    },
    /// A value isn't of the type that is declared for it. `name` is that of the local, the parameter, the function
    /// or the redirect.
    WrongType {
        verb: u32,
        nr: u64,
        name: Bytes,
    },
    /// An assignment to an index that the value can't have.
    Index {
        verb: u32,
        nr: u64,
    },
    /// An output was first opened in one mode and style, and then in another.
    OutputTwice {
        name: Bytes,
        first_mode: Mode,
        first: StyleId,
        second_mode: Mode,
        second: StyleId,
    },
}

// Written by hand, so that the crates above call it instead of going through the variants themselves.
impl Drop for Fault {
    #[inline]
    fn drop(self) {
        match self {
            Fault::Length {
                file: _,
                line: _,
                want: _,
                have: _,
            } => {}
            Fault::Quote { file: _, line: _ } | Fault::Table { file: _, line: _ } => {}
            Fault::JsonSyntax { file: _, byte: _ }
            | Fault::JsonDeep { file: _, byte: _ }
            | Fault::JsonKind { file: _, byte: _ } => {}
            Fault::Turns {
                verb: _,
                nr: _,
                limit: _,
            } => {}
            Fault::Depth { verb: _, nr: _ } | Fault::Index { verb: _, nr: _ } => {}
            Fault::Assert {
                verb: _,
                nr: _,
                name,
            } => drop(name),
            Fault::WrongType {
                verb: _,
                nr: _,
                name,
            } => drop(name),
            Fault::OutputTwice {
                name,
                first_mode: _,
                first: _,
                second_mode: _,
                second: _,
            } => drop(name),
        }
    }
}
