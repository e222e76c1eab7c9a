//! Splits the pieces of a file into lines.
ghost use Rattle.std.specs.Prelude.{◌≡◌, ◌↔◌, ◌+◌, ◌^◌, ◌<◌, ◌≤◌, ℕ, List, [], ◌++◌, false, length, IsTrue, OnOk, OnErr};
ghost use Rattle.mlr_lines.specs.Lines.{ended_lines, begun_line};
ghost use Rattle.mlr_lines.specs.Steps.{unmarked_line};
ghost use Rattle.mlr_event.specs.Adding.{Adds};
ghost use Rattle.mlr_lines.specs.Represents.{CanTake, IsBroken, IsEnded, IsOpen, Represents, RepresentsAtEnd, Takes, format_after, given};

use crate::LineFormat;
use crate::cut::{first_line, unmarked};
use crate::stage::Stage;
use mlr_event::Events;
use mlr_spec::NoMemory;
use std::alloc::Global;

/// Takes the bytes of one file in pieces and passes each line to a format: as a slice of its piece, or, for a
/// line that spans pieces, from a buffer that is reused. The byte order mark of UTF-8 at the start of the
/// file is dropped.
#[derive(Drop)]
pub struct Lines<F: LineFormat> {
    format: F,
    begun: Vec<u8>,
    first: bool,
    stage: Stage,
}

impl<F: LineFormat> Lines<F> {
    /// The lines of an empty file. It doesn't allocate.
    pub fn new(alloc: Global, format: F) -> Self
        ensures represents { Represents F.after result format [] }
        ensures open { IsOpen result }
        ensures format { result.format ≡ format }
    {
        Lines {
            format,
            begun: Vec::new(alloc),
            first: true,
            stage: Stage::Open,
        }
    }

    /// Takes the next piece of the file, and appends the events of the lines that it ends to `out`. It
    /// allocates for a line that has begun and for events.
    pub fn feed(&mut self, piece: &[u8], out: &mut Events) -> Result<(), NoMemory>
        requires { CanTake F.count self.old (length piece.now) }
        ensures represents { OnOk result ((format : F) (bytes : List ℕ)
            → Represents F.after self.old format bytes
            → Represents F.after self.new format (bytes ++ piece.now)) }
        ensures adds { OnOk result ((format : F) (bytes : List ℕ)
            → Represents F.after self.old format bytes
            → Adds out.old out.new (given F.after F.gives format (ended_lines bytes))
            (given F.after F.gives format (ended_lines (bytes ++ piece.now)))) }
        ensures room { OnOk result (F.count self.new.format
            ≤ F.count self.old.format + length piece.now) }
        ensures open { OnOk result (IsOpen self.new) }
        ensures err { OnErr result (IsBroken self.new) }
    {
        let taken = self.take(piece, out);
        if taken.is_err() {
            self.stage = Stage::Broken;
        }
        taken
    }

    /// Takes the end of the file, and appends the events of the rest to `out`.
    pub fn end(&mut self, out: &mut Events) -> Result<(), NoMemory>
        requires { CanTake F.count self.old 0 }
        ensures represents { OnOk result ((format : F) (bytes : List ℕ)
            → Represents F.after self.old format bytes
            → RepresentsAtEnd F.after F.after_last self.new format bytes) }
        ensures adds { OnOk result ((format : F) (bytes : List ℕ)
            → Represents F.after self.old format bytes
            → out.new ≡ out.old ++ F.gives_last (format_after F.after format (ended_lines bytes))
            (begun_line bytes)) }
        ensures step { OnOk result ((line : List ℕ)
            × (self.new.format ≡ F.after_last self.old.format line)) }
        ensures ended { OnOk result (IsEnded self.new) }
        ensures err { OnErr result (IsBroken self.new) }
    {
        let ended = self
            .format
            .last(unmarked(self.first, self.begun.as_slice()), out);
        self.stage = if ended.is_ok() {
            Stage::Ended
        } else {
            Stage::Broken
        };
        ended
    }

    /// Whether a call ran out of memory. Then no further call is allowed.
    pub fn is_broken(&self) -> bool
        ensures { IsTrue result ↔ IsBroken self.now }
    {
        self.stage == Stage::Broken
    }

    /// The format, after the lines so far.
    pub fn format(&self) -> &F
        ensures { result.now ≡ self.now.format }
    {
        &self.format
    }

    fn take(&mut self, piece: &[u8], out: &mut Events) -> Result<(), NoMemory>
        requires { F.count self.old.format + length piece.now < 2 ^ 63 }
        ensures takes { OnOk result (Takes F.after F.gives self.old self.new piece.now out.old
            out.new) }
        ensures room { OnOk result (F.count self.new.format
            ≤ F.count self.old.format + length piece.now) }
        ensures stage { self.new.stage ≡ self.old.stage }
    {
        let mut rest = piece;
        while let Some((line, following)) = first_line(rest) {
            self.end_line(line, out)?;
            rest = following;
        }
        self.begun.extend_from_slice(rest)?;
        Ok(())
    }

    /// Passes the line that has begun and ends with this part to the format.
    #[inline]
    fn end_line(&mut self, part: &[u8], out: &mut Events) -> Result<(), NoMemory>
        requires count { F.count self.old.format < 2 ^ 63 }
        requires length { length part.now < 2 ^ 63 }
        ensures state { OnOk result (self.new.format ≡ F.after self.old.format
            (unmarked_line self.old.first (self.old.begun.items ++ part.now))) }
        ensures events { OnOk result (out.new ≡ out.old
            ++ F.gives self.old.format (unmarked_line self.old.first
            (self.old.begun.items ++ part.now))) }
        ensures begun { OnOk result (self.new.begun.items ≡ []) }
        ensures first { OnOk result (self.new.first ≡ false) }
        ensures stage { self.new.stage ≡ self.old.stage }
    {
        if self.begun.is_empty() {
            self.format.line(unmarked(self.first, part), out)?;
        } else {
            self.begun.extend_from_slice(part)?;
            self.format
                .line(unmarked(self.first, self.begun.as_slice()), out)?;
            self.begun.clear();
        }
        self.first = false;
        Ok(())
    }
}
