//! The state of reading a file, between lines.
use mlr_event::{Ctx, Events, FileRef, ReadOpts};
use mlr_fields::{Fields, Header};
use std::alloc::Global;

/// How the lines of a PPRINT file are read, and the state after the lines so far.
#[derive(Drop)]
pub struct PprintRules {
    pub(crate) alloc: Global,
    pub(crate) opts: ReadOpts,
    pub(crate) file: FileRef,
    /// The number of the next line.
    pub(crate) number: u64,
    /// The header of the current table, if it has been read.
    pub(crate) header: Option<Header>,
    /// The context of the last record.
    pub(crate) at: Ctx,
    /// A fault occurred, and no event follows it.
    pub(crate) stopped: bool,
}

/// How the lines of an XTAB file are read, and the state after the lines so far.
#[derive(Drop)]
pub struct XtabRules {
    pub(crate) alloc: Global,
    pub(crate) opts: ReadOpts,
    /// The events of the comments since the last empty line.
    pub(crate) passed: Events,
    /// The current record, if a line of it has been read.
    pub(crate) begun: Option<Fields>,
    /// The context of the last record.
    pub(crate) at: Ctx,
}

/// The state for either format.
#[derive(Drop)]
pub enum BlockRules {
    Pprint(PprintRules),
    Xtab(XtabRules),
}
