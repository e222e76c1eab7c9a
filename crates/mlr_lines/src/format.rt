//! What a format of lines has to define.
ghost use Rattle.std.specs.Prelude.{◌≡◌, ◌+◌, ◌^◌, ◌<◌, ◌≤◌, ℕ, Bool, true, List, ◌++◌, length, max, OnOk};
ghost use Rattle.mlr_event.specs.declared.event.Ctx.{Ctx};
ghost use Rattle.mlr_event.specs.declared.event.Event.{Event};
ghost use Rattle.mlr_event.specs.declared.names.FileRef.{FileRef};
ghost use Rattle.mlr_event.specs.declared.options.ReadOpts.{ReadOpts};
ghost use Rattle.mlr_event.specs.Reading.{Item, ctx_after, events_of};
ghost use Rattle.mlr_lines.specs.Lines.{begun_line, ended_lines};
ghost use Rattle.mlr_lines.specs.Represents.{format_after, given};

use mlr_event::{Ctx, Events, FileRef, ReadOpts};
use mlr_spec::NoMemory;
use std::alloc::Global;

/// A format whose files consist of lines. Its value is the state after the lines so far, and each line
/// updates it. A line is passed without its LF; the CR before the LF, if there is one, is the last byte of
/// the line. How the state is kept is the format's own affair: a reader's contracts speak of the items that bytes fix
/// (`fed`), and of those of a whole file (`whole`).
pub trait LineFormat {
    /// Whether a file can be read with these options.
    ghost usable: { ReadOpts → Bool };

    /// The items that the first bytes of a file fix, whatever follows.
    ghost fed: { ReadOpts → FileRef → List ℕ → List Item };

    /// The items of a whole file.
    ghost whole: { ReadOpts → FileRef → List ℕ → List Item };

    /// The state before the first line of a file, after a record of this context.
    ghost begins: { Self → ReadOpts → FileRef → Ctx → Type 0 };

    /// The state after an ended line.
    ghost after: { Self → List ℕ → Self };

    /// The events of an ended line.
    ghost gives: { Self → List ℕ → List Event };

    /// The state after the rest of the file, which is a last line without LF, or empty.
    ghost after_last: { Self → List ℕ → Self };

    /// The events of the rest of the file.
    ghost gives_last: { Self → List ℕ → List Event };

    /// The context of the last record.
    ghost at: { Self → Ctx };

    /// An upper bound of the state's counters.
    ghost count: { Self → ℕ };

    /// The state before the first line of a file. It takes no memory.
    fn begin(alloc: Global, opts: ReadOpts, file: FileRef, start: Ctx) -> Self
        requires usable { usable opts ≡ true }
        requires nr { start.nr ≤ 2 ^ 62 }
        requires fnr { start.fnr ≤ 2 ^ 62 }
        ensures begins { begins result opts file start }
        ensures count { count result ≤ max 1 (max start.nr start.fnr) };

    /// Reads an ended line, and appends its events to `out`. After an error, the state and the events are
    /// unspecified.
    fn line(&mut self, line: &[u8], out: &mut Events) -> Result<(), NoMemory>
        requires count { count self.old < 2 ^ 63 }
        requires length { length line.now < 2 ^ 63 }
        ensures state { OnOk result (self.new ≡ after self.old line.now) }
        ensures events { OnOk result (out.new ≡ out.old ++ gives self.old line.now) };

    /// Reads the rest of the file, and appends its events to `out`. It is called once, after all ended lines,
    /// and the rest may be empty. After an error, the state and the events are unspecified.
    fn last(&mut self, line: &[u8], out: &mut Events) -> Result<(), NoMemory>
        requires count { count self.old < 2 ^ 63 }
        requires length { length line.now < 2 ^ 63 }
        ensures state { OnOk result (self.new ≡ after_last self.old line.now) }
        ensures events { OnOk result (out.new ≡ out.old ++ gives_last self.old line.now) };

    /// The context of the last record so far, or else of the record before the file.
    fn ctx(&self) -> Ctx
        ensures at { result ≡ at self.now }
        ensures nr { result.nr ≤ count self.now }
        ensures fnr { result.fnr ≤ count self.now };

    /// What the state comes to: reading line by line gives the events of the items that the bytes fix, and the end gives the
    /// others. It does nothing.
    fn laws()
        ensures fed { (format : Self) (opts : ReadOpts) (file : FileRef) (start : Ctx)
            → begins format opts file start → (bytes : List ℕ)
            → given after gives format (ended_lines bytes) ≡ events_of start (fed opts file bytes) }
        ensures whole { (format : Self) (opts : ReadOpts) (file : FileRef) (start : Ctx)
            → begins format opts file start → (bytes : List ℕ)
            → events_of start (fed opts file bytes)
            ++ gives_last (format_after after format (ended_lines bytes)) (begun_line bytes)
            ≡ events_of start (whole opts file bytes) }
        ensures fed_at { (format : Self) (opts : ReadOpts) (file : FileRef) (start : Ctx)
            → begins format opts file start → (bytes : List ℕ)
            → at (format_after after format (ended_lines bytes))
            ≡ ctx_after start (fed opts file bytes) }
        ensures whole_at { (format : Self) (opts : ReadOpts) (file : FileRef) (start : Ctx)
            → begins format opts file start → (bytes : List ℕ)
            → at (after_last (format_after after format (ended_lines bytes)) (begun_line bytes))
            ≡ ctx_after start (whole opts file bytes) }
        ensures count { (format : Self) (line : List ℕ)
            → count (after_last format line) ≤ count format + 1 };

    /// A line raises the bound by at most one.
    ghost counts: { (format : Self) (line : List ℕ)
        → count (after format line) ≤ count format + 1 };
}
