//! A piece or the end of a file given to its reader.
ghost use Rattle.std.specs.Prelude.{◌≡◌, ◌+◌, ◌<◌, ◌^◌, ◌++◌, ℕ, List, length, true};
ghost use Rattle.mlr_event.specs.Verb.{is_part};
ghost use Rattle.read_files.specs.Feeding.{EndSays, FedOn, FedSays};
ghost use Rattle.read_files.specs.Readers.{counted};
ghost use Rattle.read_files.specs.Sources.{Source};

use crate::byte_reader::ByteReader;
use crate::faults::ends_in_fault;
use mlr_event::{Ctx, Events};

/// What a reader made of a piece.
#[derive(Clone, Copy)]
pub(crate) enum Fed {
    /// No fault was pushed.
    On,
    /// A fault was pushed.
    Faulty,
    /// There was no memory.
    NoMemory,
}

/// What a reader made of the end of its file.
#[derive(Clone, Copy)]
pub(crate) enum AtEnd {
    /// No fault was pushed, and this is the context after the file.
    On(Ctx),
    /// A fault was pushed.
    Faulty,
    /// There was no memory.
    NoMemory,
}

/// Gives a piece to the reader.
pub(crate) fn feed_piece<R: ByteReader>(reader: &mut R, piece: &[u8], out: &mut Events) -> Fed
    requires { (source : Source) × (bytes : List ℕ) × R.represents reader.old source bytes
        × (length bytes + length piece.now < 2 ^ 62) }
    ensures says { (source : Source) (bytes : List ℕ) → R.represents reader.old source bytes
        → is_part (R.fed source (bytes ++ piece.now)) ≡ true
        → FedSays result out.old out.new (R.fed source bytes) (R.fed source (bytes ++ piece.now)) }
    ensures represents { (source : Source) (bytes : List ℕ) → R.represents reader.old source bytes
        → FedOn result (R.represents reader.new source (bytes ++ piece.now)) }
{
    let before = out.len();
    if reader.feed(piece, out).is_err() {
        return Fed::NoMemory;
    }
    if ends_in_fault(out, before) {
        return Fed::Faulty;
    }
    Fed::On
}

/// Gives the end of the file to the reader.
pub(crate) fn end_file<R: ByteReader>(reader: &mut R, out: &mut Events) -> AtEnd
    requires { (source : Source) × (bytes : List ℕ) × R.represents reader.old source bytes
        × (length bytes < 2 ^ 62) }
    ensures { (source : Source) (bytes : List ℕ) → R.represents reader.old source bytes
        → is_part (R.whole source bytes) ≡ true
        → EndSays result source.ctx (counted source (length bytes)) out.old out.new
        (R.fed source bytes) (R.whole source bytes) }
{
    let before = out.len();
    let Ok(at) = reader.end(out) else {
        return AtEnd::NoMemory;
    };
    if ends_in_fault(out, before) {
        return AtEnd::Faulty;
    }
    AtEnd::On(at)
}
