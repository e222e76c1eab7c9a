//! The rows of a block, in chunks.
ghost use Rattle.std.specs.Prelude.{◌≡◌, ◌++◌, ◌∷◌, [], if◌then◌else◌, is_ok};
ghost use Rattle.text_columns.specs.Chunks.{IsLine, first_line, rows_in};

use crate::chunk::Chunk;
use mlr_spec::NoMemory;
use std::alloc::Global;
use std::mem::replace;

/// The rows of a block: those in chunks that are full, and those in the chunk that rows are appended to.
#[derive(Drop)]
pub(crate) struct Rows {
    pub(crate) full: Vec<Chunk>,
    pub(crate) last: Chunk,
}

impl Rows {
    /// No rows. It takes no memory.
    pub(crate) fn new(alloc: Global) -> Self
        ensures { rows_in result.full.items result.last ≡ [] }
    {
        Rows {
            full: Vec::new(alloc),
            last: Chunk::new(alloc),
        }
    }

    /// Appends a row.
    #[inline]
    pub(crate) fn push(&mut self, alloc: Global, line: &[u8]) -> Result<(), NoMemory>
        requires { IsLine line.now }
        ensures { rows_in self.new.full.items self.new.last ≡ (if is_ok result
            then rows_in self.old.full.items self.old.last ++ first_line line.now ∷ []
            else rows_in self.old.full.items self.old.last) }
    {
        if self.last.push_within(line) {
            return Ok(());
        }
        self.push_chunk(alloc, line)
    }

    /// Appends a row in a chunk of its own.
    #[inline(never)]
    fn push_chunk(&mut self, alloc: Global, line: &[u8]) -> Result<(), NoMemory>
        requires { IsLine line.now }
        ensures { rows_in self.new.full.items self.new.last ≡ (if is_ok result
            then rows_in self.old.full.items self.old.last ++ first_line line.now ∷ []
            else rows_in self.old.full.items self.old.last) }
    {
        let chunk = Chunk::of_line(alloc, line)?;
        self.full.reserve(1)?;
        self.full.push(replace(&mut self.last, chunk))?;
        Ok(())
    }

    /// Drops the rows, and keeps the room of one chunk.
    pub(crate) fn clear(&mut self)
        ensures { rows_in self.new.full.items self.new.last ≡ [] }
    {
        self.full.clear();
        self.last.clear();
    }
}
