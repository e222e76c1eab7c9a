//! The reader of JSON and JSON Lines.
ghost use Rattle.std.specs.Prelude.{◌≡◌, ◌↔◌, ◌+◌, ◌*◌, ◌^◌, ◌<◌, ◌≤◌, ℕ, List, [], ◌++◌, true, length, max, IsTrue, IfOk, OnOk, OnErr, Some, None, is_some};
ghost use Rattle.mlr_event.specs.declared.event.Ctx.{Ctx};
ghost use Rattle.mlr_event.specs.declared.event.Event.{Event};
ghost use Rattle.mlr_event.specs.declared.names.FileRef.{FileRef};
ghost use Rattle.mlr_event.specs.declared.options.ReadOpts.{ReadOpts};
ghost use Rattle.mlr_event.specs.Adding.{Adds};
ghost use Rattle.read_json_lines.specs.Json.{ctx_fed, ctx_read, json_fed, json_read};
ghost use Rattle.read_json_lines.specs.Represents.{CanTake, HasEnded, IsBroken, IsOpen, Moves, Represents, RepresentsWhole, RepresentsWith, is_usable, is_waiting, used};

use crate::listing::Trouble;
use crate::stream::Stream;
use mlr_event::{Ctx, Events, FileRef, Format, ReadOpts};
use mlr_spec::NoMemory;
use std::alloc::Global;

/// The byte order mark of UTF-8.
const MARK: [u8; 3] = [0xef, 0xbb, 0xbf];

/// What may still follow.
#[derive(Clone, Copy, Debug, PartialEq, Eq)]
pub(crate) enum Stage {
    /// More bytes or the end.
    Open,
    /// Nothing: the file has ended.
    Ended,
    /// Nothing: a call ran out of memory.
    Broken,
}

/// Reads one file of JSON or JSON Lines, whose bytes come in pieces that may be cut anywhere.
pub struct JsonReader {
    /// The number of bytes of the byte order mark so far, until it is complete or another byte follows.
    mark: Option<usize>,
    stream: Stream,
    stage: Stage,
}

// Written out, so that crates above call it and don't depend on the fields.
impl Drop for JsonReader {
    fn drop(self) {
        let JsonReader {
            mark,
            stream,
            stage,
        } = self;
        drop(mark);
        drop(stream);
        drop(stage);
    }
}

/// Whether a reader can read with these options: the format is JSON or JSON Lines.
pub fn can_read(opts: &ReadOpts) -> bool
    ensures { result ≡ is_usable opts.now }
{
    matches!(opts.format, Format::Json | Format::Jsonl)
}

impl JsonReader {
    /// A reader at the start of a file. `start` is the context of the last record before this file, with the
    /// number of this file and no record of it. It doesn't allocate.
    pub fn new(
        alloc: Global,
        opts: &ReadOpts,
        file: FileRef,
        start: Ctx,
    ) -> Result<JsonReader, NoMemory>
        requires usable { is_usable opts.now ≡ true }
        requires nr { start.nr ≤ 2 ^ 62 }
        requires fnr { start.fnr ≤ 2 ^ 62 }
        ensures represents { IfOk result (λ reader. Represents opts.now file start reader []) }
        ensures open { IfOk result (λ reader. IsOpen reader) }
        ensures room { IfOk result (λ reader. used reader ≤ max 1 (max start.nr start.fnr)) }
    {
        Ok(JsonReader {
            mark: Some(0),
            stream: Stream::new(alloc, opts.infer, file, start),
            stage: Stage::Open,
        })
    }

    /// Reads the next piece of the file, and appends the events of the records that it ends to `out`. After a
    /// fault it appends nothing.
    pub fn feed(&mut self, piece: &[u8], out: &mut Events) -> Result<(), NoMemory>
        requires { CanTake self.old (length piece.now) }
        ensures represents { OnOk result ((opts : ReadOpts) (file : FileRef) (start : Ctx)
            (bytes : List ℕ)
            → Represents opts file start self.old bytes
            → Represents opts file start self.new (bytes ++ piece.now)) }
        ensures adds { OnOk result ((opts : ReadOpts) (file : FileRef) (start : Ctx)
            (bytes : List ℕ)
            → Represents opts file start self.old bytes
            → Adds out.old out.new (json_fed opts file start bytes)
            (json_fed opts file start (bytes ++ piece.now))) }
        ensures open { OnOk result (IsOpen self.new) }
        ensures room { OnOk result (used self.new ≤ used self.old + length piece.now) }
        ensures err { OnErr result (IsBroken self.new) }
    {
        let fed = self.take(piece, out);
        if fed.is_err() {
            self.stage = Stage::Broken;
        }
        fed
    }

    /// Reads the end of the file, and appends a fault to `out` if a value or a list isn't complete.
    pub fn end(&mut self, out: &mut Events) -> Result<(), NoMemory>
        requires { CanTake self.old 0 }
        ensures represents { OnOk result ((opts : ReadOpts) (file : FileRef) (start : Ctx)
            (bytes : List ℕ)
            → Represents opts file start self.old bytes
            → RepresentsWhole opts file start self.new bytes) }
        ensures adds { OnOk result ((opts : ReadOpts) (file : FileRef) (start : Ctx)
            (bytes : List ℕ)
            → Represents opts file start self.old bytes
            → Adds out.old out.new (json_fed opts file start bytes)
            (json_read opts file start bytes)) }
        ensures ended { OnOk result (HasEnded self.new) }
        ensures room { OnOk result (used self.new ≤ used self.old + 1) }
        ensures err { OnErr result (IsBroken self.new) }
    {
        let ended = self.take_end(out);
        self.stage = if ended.is_ok() {
            Stage::Ended
        } else {
            Stage::Broken
        };
        ended
    }

    /// The context of the last record so far, or else the start.
    pub fn ctx(&self) -> Ctx
        ensures fed { (opts : ReadOpts) (file : FileRef) (start : Ctx) (bytes : List ℕ)
            → Represents opts file start self.now bytes → result ≡ ctx_fed opts file start bytes }
        ensures read { (opts : ReadOpts) (file : FileRef) (start : Ctx) (bytes : List ℕ)
            → RepresentsWhole opts file start self.now bytes
            → result ≡ ctx_read opts file start bytes }
        ensures nr { result.nr ≤ used self.now }
        ensures fnr { result.fnr ≤ used self.now }
    {
        self.stream.at
    }

    /// Whether a call ran out of memory. Then no further call is allowed.
    pub fn is_broken(&self) -> bool
        ensures { IsTrue result ↔ IsBroken self.now }
    {
        self.stage == Stage::Broken
    }

    fn take(&mut self, piece: &[u8], out: &mut Events) -> Result<(), NoMemory>
        requires { used self.old + length piece.now < 2 ^ 63 }
        ensures represents { OnOk result ((opts : ReadOpts) (file : FileRef) (start : Ctx)
            (bytes : List ℕ)
            → Represents opts file start self.old bytes
            → Represents opts file start self.new (bytes ++ piece.now)) }
        ensures adds { OnOk result ((opts : ReadOpts) (file : FileRef) (start : Ctx)
            (bytes : List ℕ)
            → Represents opts file start self.old bytes
            → Adds out.old out.new (json_fed opts file start bytes)
            (json_fed opts file start (bytes ++ piece.now))) }
        ensures room { OnOk result (used self.new ≤ used self.old + length piece.now) }
        ensures stage { self.new.stage ≡ self.old.stage }
    {
        let mut left = piece;
        while !left.is_empty() && self.mark.is_some() {
            left = self.take_mark(left, out)?;
        }
        if left.is_empty() || self.stream.stopped {
            return Ok(());
        }
        self.stream.feed(left, out)
    }

    /// Reads a byte of the mark, or else begins the stream. Returns the rest of the text.
    fn take_mark<'a>(&mut self, text: &'a [u8], out: &mut Events) -> Result<&'a [u8], NoMemory>
        requires bytes { 0 < length text.now }
        requires marked { is_some self.old.mark ≡ true }
        requires room { used self.old + length text.now < 2 ^ 63 }
        ensures moves { IfOk result (λ left. (opts : ReadOpts) (file : FileRef) (start : Ctx)
            (all : List ℕ) (put : List Event)
            → RepresentsWith self.old.mark opts file start self.old.stream all text.now put
            → Moves opts file start self.new.mark self.new.stream all left.now put out.old
            out.new) }
        ensures room { IfOk result (λ left. used self.new + length left.now
            ≤ used self.old + length text.now) }
        ensures falls { IfOk result (λ left. is_waiting self.new.mark + length left.now
            < is_waiting self.old.mark + length text.now) }
        ensures stage { self.new.stage ≡ self.old.stage }
    {
        let marked = self.mark.unwrap_or(0);
        if marked < MARK.len() && text[0] == MARK[marked] {
            if marked + 1 < MARK.len() {
                self.mark = Some(marked + 1);
            } else {
                self.mark = None;
                self.stream.place += MARK.len() as u64;
            }
            return Ok(&text[1..]);
        }
        self.mark = None;
        if marked > 0 {
            self.stream.fail(Trouble::Syntax, marked as u64 + 1, out)?;
        }
        Ok(text)
    }

    fn take_end(&mut self, out: &mut Events) -> Result<(), NoMemory>
        requires { used self.old < 2 ^ 63 }
        ensures represents { OnOk result ((opts : ReadOpts) (file : FileRef) (start : Ctx)
            (bytes : List ℕ)
            → Represents opts file start self.old bytes
            → RepresentsWhole opts file start self.new bytes) }
        ensures adds { OnOk result ((opts : ReadOpts) (file : FileRef) (start : Ctx)
            (bytes : List ℕ)
            → Represents opts file start self.old bytes
            → Adds out.old out.new (json_fed opts file start bytes)
            (json_read opts file start bytes)) }
        ensures room { OnOk result (used self.new ≤ used self.old + 1) }
        ensures stage { self.new.stage ≡ self.old.stage }
    {
        let marked = self.mark.unwrap_or(0);
        if marked > 0 {
            return self.stream.fail(Trouble::Syntax, marked as u64 + 1, out);
        }
        if self.stream.stopped {
            return Ok(());
        }
        self.stream.end(out)
    }
}
