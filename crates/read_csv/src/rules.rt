//! The state of reading a file, between lines.
ghost use Rattle.std.specs.Prelude.{◌≡◌, true};
ghost use Rattle.read_csv.specs.Usable.{is_usable};

use crate::heading::Heading;
use crate::row::Row;
use mlr_event::{Ctx, FileRef, ReadOpts};
use std::alloc::Global;

/// How the rows of a file are read, and the state after the lines so far.
#[derive(Drop)]
pub struct RowRules {
    pub(crate) alloc: Global,
    pub(crate) opts: ReadOpts,
    pub(crate) file: FileRef,
    /// The number of the next line.
    pub(crate) number: u64,
    /// The line on which the open row began.
    pub(crate) begins: u64,
    /// The header, if it has been read.
    pub(crate) header: Option<Heading>,
    /// The row so far, without fields where a new row begins.
    pub(crate) row: Row,
    /// The context of the last record.
    pub(crate) at: Ctx,
    /// A fault occurred, and no event follows it.
    pub(crate) stopped: bool,
    ghost usable: { is_usable opts ≡ true },
}
