//! Events: what flows from a reader through the verbs to the outlet.
use crate::{Fault, Mode, StyleId, Target};
use mlr_record::Record;
use mlr_value::Bytes;

/// The numbers of a record: over all files (NR), in its file (FNR), and of its file (FILENUM). Each counts
/// from 1. In the zero context, that of a record which a `begin` block makes, all three are 0.
#[derive(Clone, Copy, Debug, PartialEq, Eq)]
pub struct Ctx {
    pub nr: u64,
    pub fnr: u64,
    pub filenum: u64,
}

/// What is written to an output.
#[derive(Drop)]
pub enum Body {
    /// A record, in the output's format.
    Rec(Record),
    /// A text, as it is.
    Text(Bytes),
}

/// One thing that is written to an output other than the main one.
#[derive(Drop)]
pub struct Piece {
    pub mode: Mode,
    pub style: StyleId,
    pub body: Body,
}

/// One event of a stream. An end or a fault is the last event of its stream.
#[derive(Drop)]
pub enum Event {
    /// A record.
    Rec(Record, Ctx),
    /// A text for standard output.
    Text(Bytes),
    /// A piece for another output.
    Out(Target, Piece),
    /// The end, with the context of the last record, the count of the last file's records and that of the files.
    End(Ctx),
    /// A fault in the data. Nothing that was held back comes out before it.
    Fault(Fault),
}
