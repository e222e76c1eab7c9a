//! The trait of a reader of one file, which each format's reader meets.
ghost use Rattle.std.specs.Prelude.{◌≡◌, ◌+◌, ◌<◌, ◌≤◌, ◌^◌, ◌++◌, ℕ, List, [], length, true, IfOk, OnOk};
ghost use Rattle.mlr_event.specs.declared.event.Event.{Event};
ghost use Rattle.mlr_event.specs.declared.options.ReadOpts.{ReadOpts};
ghost use Rattle.mlr_event.specs.Adding.{Adds};
ghost use Rattle.read_json_lines.specs.Represents.{is_usable as json_usable};
ghost use Rattle.read_json_lines.specs.Json.{json_fed, json_read};
ghost use Rattle.read_files.specs.Readers.{counted, JsonRepresents, LinesRepresent};
ghost use Rattle.read_files.specs.Sources.{Source, ctx_after_events};

use mlr_event::{Ctx, Events, FileRef, ReadOpts};
use mlr_lines::{LineFormat, Reader};
use mlr_spec::NoMemory;
use read_json_lines::JsonReader;
use std::alloc::Global;

/// A reader of one file: its bytes come in any pieces, and the events that they fix go out.
pub(crate) trait ByteReader {
    /// A reader can be made with these options.
    ghost usable: { ReadOpts → Type 0 };

    /// The reader was made for this source, and these bytes came so far.
    ghost represents: { Self → Source → List ℕ → Type 0 };

    /// What bytes fix of a file, whatever follows them.
    ghost fed: { Source → List ℕ → List Event };

    /// What a whole file gives.
    ghost whole: { Source → List ℕ → List Event };

    /// Makes a reader of this file, of which no byte came yet.
    fn begin(alloc: Global, opts: &ReadOpts, file: FileRef, start: Ctx) -> Result<Self, NoMemory>
        requires usable { usable opts.now }
        requires nr { start.nr ≤ 2 ^ 62 }
        requires fnr { start.fnr ≤ 2 ^ 62 }
        ensures { IfOk result (λ reader. represents reader
            (record { opts = opts.now; file = file; ctx = start }) []) };

    /// Takes a piece of the file, and pushes the events that it fixes.
    fn feed(&mut self, piece: &[u8], out: &mut Events) -> Result<(), NoMemory>
        requires { (source : Source) × (bytes : List ℕ) × represents self.old source bytes
            × (length bytes + length piece.now < 2 ^ 62) }
        ensures represents { (source : Source) (bytes : List ℕ) → represents self.old source bytes
            → OnOk result (represents self.new source (bytes ++ piece.now)) }
        ensures adds { (source : Source) (bytes : List ℕ) → represents self.old source bytes
            → OnOk result (Adds out.old out.new (fed source bytes)
            (fed source (bytes ++ piece.now))) };

    /// Takes the end of the file, and pushes the rest. Returns the context after the file.
    fn end(&mut self, out: &mut Events) -> Result<Ctx, NoMemory>
        requires { (source : Source) × (bytes : List ℕ) × represents self.old source bytes
            × (length bytes < 2 ^ 62) }
        ensures adds { (source : Source) (bytes : List ℕ) → represents self.old source bytes
            → OnOk result (Adds out.old out.new (fed source bytes) (whole source bytes)) }
        ensures ctx { (source : Source) (bytes : List ℕ) → represents self.old source bytes
            → IfOk result (λ ctx. ctx ≡ ctx_after_events source.ctx (whole source bytes)) }
        ensures few { (source : Source) (bytes : List ℕ) → represents self.old source bytes
            → IfOk result (λ ctx. ctx.nr ≤ counted source (length bytes) + 1) };
}

impl<F: LineFormat> ByteReader for Reader<F> {
    ghost use Rattle.mlr_event.specs.Reading.{events_of};

    ghost usable = { λ opts. F.usable opts ≡ true };

    ghost represents = { λ reader source bytes.
        LinesRepresent F.begins F.after F.count reader source bytes };

    ghost fed = { λ source bytes. events_of source.ctx (F.fed source.opts source.file bytes) };

    ghost whole = { λ source bytes. events_of source.ctx (F.whole source.opts source.file bytes) };

    fn begin(alloc: Global, opts: &ReadOpts, file: FileRef, start: Ctx) -> Result<Self, NoMemory> {
        Reader::new(alloc, opts, file, start)
    }

    fn feed(&mut self, piece: &[u8], out: &mut Events) -> Result<(), NoMemory> {
        Reader::feed(self, piece, out)
    }

    fn end(&mut self, out: &mut Events) -> Result<Ctx, NoMemory> {
        Reader::end(self, out)?;
        Ok(self.ctx())
    }
}

impl ByteReader for JsonReader {
    ghost usable = { λ opts. json_usable opts ≡ true };

    ghost represents = { λ reader source bytes. JsonRepresents reader source bytes };

    ghost fed = { λ source bytes. json_fed source.opts source.file source.ctx bytes };

    ghost whole = { λ source bytes. json_read source.opts source.file source.ctx bytes };

    fn begin(alloc: Global, opts: &ReadOpts, file: FileRef, start: Ctx) -> Result<Self, NoMemory> {
        JsonReader::new(alloc, opts, file, start)
    }

    fn feed(&mut self, piece: &[u8], out: &mut Events) -> Result<(), NoMemory> {
        JsonReader::feed(self, piece, out)
    }

    fn end(&mut self, out: &mut Events) -> Result<Ctx, NoMemory> {
        JsonReader::end(self, out)?;
        Ok(self.ctx())
    }
}
