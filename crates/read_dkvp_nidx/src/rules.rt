//! The state of reading a file, between lines.
ghost use Rattle.read_dkvp_nidx.specs.Usable.{is_usable};
ghost use Rattle.std.specs.Prelude.{◌≡◌, true};

use crate::block::Block;
use crate::room::Room;
use mlr_event::{Ctx, FileRef, ReadOpts};
use std::alloc::Global;

/// How the lines of a file are read, and the state after the lines so far.
#[derive(Drop)]
pub struct LineRules {
    pub(crate) alloc: Global,
    pub(crate) opts: ReadOpts,
    pub(crate) file: FileRef,
    /// The number of the next line.
    pub(crate) number: u64,
    pub(crate) block: Block,
    pub(crate) room: Room,
    /// The context of the last record.
    pub(crate) at: Ctx,
    /// A fault occurred, and no event follows it.
    pub(crate) stopped: bool,
    ghost usable: { is_usable opts ≡ true },
}
