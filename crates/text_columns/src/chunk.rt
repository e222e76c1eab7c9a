//! A chunk of memory with lines one after another.
ghost use Rattle.std.specs.Prelude.{◌≡◌, ◌++◌, ◌∷◌, [], if◌then◌else◌, IfOk};
ghost use Rattle.text_columns.specs.Chunks.{IsLine, first_line, lines_in};

use mlr_spec::NoMemory;
use std::alloc::Global;
use std::marker::Model;

/// How many bytes a chunk has, unless its first line alone needs more.
const SIZE: usize = 65536;

/// Lines as bytes, in memory that doesn't grow, so that no line moves.
#[derive(Drop)]
pub(crate) struct Chunk {
    bytes: Vec<u8>,
}

impl Model for Chunk {
    ghost use Rattle.std.specs.Prelude.{ℕ, List};
    ghost use Rattle.text_columns.specs.Chunks.{IsLines, lines_in};

    ghost Value = { List (List (List ℕ)) };

    ghost view = { λ chunk. lines_in chunk.bytes.items };

    ghost invariant = { λ chunk. IsLines chunk.bytes.items };
}

impl Chunk {
    /// No lines, and no room for any. It takes no memory.
    pub(crate) fn new(alloc: Global) -> Self
        ensures { result ≡ [] }
    {
        Chunk {
            bytes: Vec::new(alloc),
        }
    }

    /// One line, and room for more.
    pub(crate) fn of_line(alloc: Global, line: &[u8]) -> Result<Self, NoMemory>
        requires { IsLine line.now }
        ensures { IfOk result (λ chunk. chunk ≡ first_line line.now ∷ []) }
    {
        let mut bytes = Vec::with_capacity(alloc, line.len().max(SIZE))?;
        bytes.extend_from_slice(line)?;
        Ok(Chunk { bytes })
    }

    /// Appends the line if there is room for it, and returns whether there was.
    #[inline]
    pub(crate) fn push_within(&mut self, line: &[u8]) -> bool
        requires { IsLine line.now }
        ensures { self.new ≡ (if result then self.old ++ first_line line.now ∷ [] else self.old) }
    {
        if self.bytes.capacity() - self.bytes.len() < line.len() {
            return false;
        }
        self.bytes.extend_from_slice(line).is_ok()
    }

    /// Drops the lines, and keeps the room.
    pub(crate) fn clear(&mut self)
        ensures { self.new ≡ [] }
    {
        self.bytes.clear();
    }

    /// The bytes of the lines.
    pub(crate) fn bytes(&self) -> &[u8]
        ensures { lines_in result.now ≡ self.now }
    {
        self.bytes.as_slice()
    }
}
