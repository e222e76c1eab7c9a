//! The reader of a file in a format of lines.
ghost use Rattle.std.specs.Prelude.{◌≡◌, ◌↔◌, ◌+◌, ◌^◌, ◌≤◌, ℕ, List, [], ◌++◌, true, length, max, IsTrue, IfOk, OnOk, OnErr};
ghost use Rattle.mlr_event.specs.declared.event.Ctx.{Ctx as SpecCtx};
ghost use Rattle.mlr_event.specs.declared.names.FileRef.{FileRef as SpecRef};
ghost use Rattle.mlr_event.specs.declared.options.ReadOpts.{ReadOpts as Options};
ghost use Rattle.mlr_event.specs.Adding.{Adds};
ghost use Rattle.mlr_event.specs.Reading.{ctx_after, events_of};
ghost use Rattle.mlr_lines.specs.Reader.{CanTake, HasEnded, IsBroken, IsOpen, Represents, RepresentsWhole, used};

use crate::{LineFormat, Lines};
use mlr_event::{Ctx, Events, FileRef, ReadOpts};
use mlr_spec::NoMemory;
use std::alloc::Global;

/// Reads one file, whose bytes come in pieces that may be cut anywhere.
pub struct Reader<F: LineFormat> {
    lines: Lines<F>,
}

// Written out, so that crates above call it and don't depend on the fields.
impl<F: LineFormat + Drop> Drop for Reader<F> {
    fn drop(self) {
        let Reader { lines } = self;
        drop(lines);
    }
}

impl<F: LineFormat> Reader<F> {
    /// A reader at the start of a file. `start` is the context of the last record before this file, with the
    /// number of this file and no record of it. It allocates only for separators and prefixes of more than 20
    /// bytes.
    pub fn new(
        alloc: Global,
        opts: &ReadOpts,
        file: FileRef,
        start: Ctx,
    ) -> Result<Reader<F>, NoMemory>
        requires usable { F.usable opts.now ≡ true }
        requires nr { start.nr ≤ 2 ^ 62 }
        requires fnr { start.fnr ≤ 2 ^ 62 }
        ensures represents { IfOk result (λ reader.
            Represents F.begins F.after opts.now file start reader []) }
        ensures open { IfOk result (λ reader. IsOpen reader) }
        ensures room { IfOk result (λ reader.
            used F.count reader ≤ max 1 (max start.nr start.fnr)) }
    {
        let format = F::begin(alloc, opts.copy(alloc)?, file, start);
        Ok(Reader {
            lines: Lines::new(alloc, format),
        })
    }

    /// Reads the next piece of the file, and appends the events that it fixes to `out`. After a fault it
    /// appends nothing.
    pub fn feed(&mut self, piece: &[u8], out: &mut Events) -> Result<(), NoMemory>
        requires { CanTake F.count self.old (length piece.now) }
        ensures represents { OnOk result ((opts : Options) (file : SpecRef) (start : SpecCtx)
            (bytes : List ℕ)
            → Represents F.begins F.after opts file start self.old bytes
            → Represents F.begins F.after opts file start self.new (bytes ++ piece.now)) }
        ensures adds { OnOk result ((opts : Options) (file : SpecRef) (start : SpecCtx)
            (bytes : List ℕ)
            → Represents F.begins F.after opts file start self.old bytes
            → Adds out.old out.new (events_of start (F.fed opts file bytes))
            (events_of start (F.fed opts file (bytes ++ piece.now)))) }
        ensures open { OnOk result (IsOpen self.new) }
        ensures room { OnOk result (used F.count self.new
            ≤ used F.count self.old + length piece.now) }
        ensures err { OnErr result (IsBroken self.new) }
    {
        F::laws();
        self.lines.feed(piece, out)
    }

    /// Reads the end of the file, and appends the events of what remains to `out`.
    pub fn end(&mut self, out: &mut Events) -> Result<(), NoMemory>
        requires { CanTake F.count self.old 0 }
        ensures represents { OnOk result ((opts : Options) (file : SpecRef) (start : SpecCtx)
            (bytes : List ℕ)
            → Represents F.begins F.after opts file start self.old bytes
            → RepresentsWhole F.begins F.after F.after_last opts file start self.new bytes) }
        ensures adds { OnOk result ((opts : Options) (file : SpecRef) (start : SpecCtx)
            (bytes : List ℕ)
            → Represents F.begins F.after opts file start self.old bytes
            → Adds out.old out.new (events_of start (F.fed opts file bytes))
            (events_of start (F.whole opts file bytes))) }
        ensures ended { OnOk result (HasEnded self.new) }
        ensures room { OnOk result (used F.count self.new ≤ used F.count self.old + 1) }
        ensures err { OnErr result (IsBroken self.new) }
    {
        F::laws();
        self.lines.end(out)
    }

    /// The context of the last record so far, or else the start.
    pub fn ctx(&self) -> Ctx
        ensures fed { (opts : Options) (file : SpecRef) (start : SpecCtx) (bytes : List ℕ)
            → Represents F.begins F.after opts file start self.now bytes
            → result ≡ ctx_after start (F.fed opts file bytes) }
        ensures whole { (opts : Options) (file : SpecRef) (start : SpecCtx) (bytes : List ℕ)
            → RepresentsWhole F.begins F.after F.after_last opts file start self.now bytes
            → result ≡ ctx_after start (F.whole opts file bytes) }
        ensures nr { result.nr ≤ used F.count self.now }
        ensures fnr { result.fnr ≤ used F.count self.now }
    {
        F::laws();
        self.lines.format().ctx()
    }

    /// Whether a call ran out of memory. Then no further call is allowed.
    pub fn is_broken(&self) -> bool
        ensures { IsTrue result ↔ IsBroken self.now }
    {
        self.lines.is_broken()
    }
}
