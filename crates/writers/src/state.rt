//! What a writer knows of the records before.
ghost use Rattle.std.specs.Prelude.{◌≡◌};
ghost use Rattle.writers.specs.Running.{start};
ghost use Rattle.writers.specs.Represents.{run_of};

use mlr_value::Bytes;
use std::alloc::Global;
use text_columns::Block;

/// How far an output has come.
#[derive(Drop)]
pub(crate) struct State {
    /// Whether a record was written.
    pub(crate) any: bool,
    /// Whether the last thing was a record whose line end is missing.
    pub(crate) mid: bool,
    /// The keys of the records since the last header; none where the next record begins a run.
    pub(crate) keys: Vec<Bytes>,
    /// The lines of the block that is held back.
    pub(crate) block: Block,
}

impl State {
    /// Nothing was written. It takes no memory.
    pub(crate) fn new(alloc: Global) -> Self
        ensures { run_of result ≡ start }
    {
        State {
            any: false,
            mid: false,
            keys: Vec::new(alloc),
            block: Block::new(alloc),
        }
    }
}
