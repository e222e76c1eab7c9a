//! Reads a line as part of a row, and a row as header or record.
ghost use Rattle.std.specs.Prelude.{◌≡◌, ◌+◌, ◌^◌, ◌<◌, ◌≤◌, ◌++◌, ◌∷◌, [], false, length, drop, IfOk, OnOk, None};
ghost use Rattle.mlr_event.specs.Reading.{events_of};
ghost use Rattle.read_csv.specs.RowOutcome.{outcome_items};
ghost use Rattle.read_csv.specs.Headers.{closed_values, header_of, values_header, values_items};
ghost use Rattle.read_csv.specs.OpenRow.{no_row, row_taken};
ghost use Rattle.read_csv.specs.Rules.{after_last, after_line, begins_now, after_row, after_text, count_of, gives_last, gives_line, header_after_row, row_after_row, row_gives, text_items, with_end};

use crate::csv::following;
use crate::fields::take_line;
use crate::heading::Heading;
use crate::records::positions;
use crate::row::Row;
use crate::row_outcome::RowOutcome;
use crate::rules::RowRules;
use mlr_event::rows::{is_comment, next_ctx, push_comment};
use mlr_event::{Ctx, Event, Events, Fault, FileRef, ReadOpts};
use mlr_lines::{LineFormat, without_return};
use mlr_spec::NoMemory;
use std::alloc::Global;

impl LineFormat for RowRules {
    ghost use Rattle.std.specs.Prelude.{Some, None};
    ghost use Rattle.mlr_lines.specs.Lines.{begun_line, ended_lines};
    ghost use Rattle.read_csv.specs.Begins.{Begins};
    ghost use Rattle.read_csv.specs.Counting.{count-line};
    ghost use Rattle.read_csv.specs.Rows.{csv_items};
    ghost use Rattle.read_csv.specs.Rules.{after_last, after_line, count_of, gives_last, gives_line};
    ghost use Rattle.read_csv.specs.Usable.{is_usable};

    ghost usable = { is_usable };

    ghost fed = { λ opts file bytes. csv_items opts file None (ended_lines bytes) };

    ghost whole = { λ opts file bytes.
        csv_items opts file (Some (begun_line bytes)) (ended_lines bytes) };

    ghost begins = { Begins };

    ghost after = { after_line };

    ghost gives = { gives_line };

    ghost after_last = { after_last };

    ghost gives_last = { gives_last };

    ghost at = { λ rules. rules.at };

    ghost count = { count_of };

    ghost counts = { count-line };

    fn begin(alloc: Global, opts: ReadOpts, file: FileRef, start: Ctx) -> Self {
        RowRules {
            alloc,
            opts,
            file,
            number: 1,
            begins: 1,
            header: None,
            row: Row::new(alloc),
            at: start,
            stopped: false,
        }
    }

    fn line(&mut self, line: &[u8], out: &mut Events) -> Result<(), NoMemory> {
        if self.stopped {
            return Ok(());
        }
        let text = without_return(line);
        self.take(text, out)?;
        end_line(&mut self.row, line, text.len())?;
        self.number += 1;
        Ok(())
    }

    fn last(&mut self, line: &[u8], out: &mut Events) -> Result<(), NoMemory> {
        if self.stopped {
            return Ok(());
        }
        self.take(line, out)?;
        if self.row.is_open() {
            self.stopped = true;
            out.push(Event::Fault(Fault::Quote {
                file: self.file,
                line: self.begins,
            }))?;
        }
        Ok(())
    }

    fn ctx(&self) -> Ctx {
        self.at
    }

    fn laws() {}
}

impl RowRules {
    /// Reads a line without its line ending, and appends its events to `out`.
    fn take(&mut self, text: &[u8], out: &mut Events) -> Result<(), NoMemory>
        requires count { count_of self.old < 2 ^ 63 }
        requires goes_on { self.old.stopped ≡ false }
        ensures state { OnOk result (self.new ≡ after_text self.old text.now) }
        ensures events { OnOk result (out.new ≡ out.old
            ++ events_of self.old.at (text_items self.old text.now)) }
    {
        if !self.row.is_open() {
            if is_comment(&self.opts.comments, text) {
                return push_comment(self.alloc, &self.opts.comments, text, out);
            }
            if text.is_empty() {
                return Ok(());
            }
        }
        self.take_row(text, out)
    }

    /// Reads a line that isn't skipped, and appends its events to `out`.
    fn take_row(&mut self, text: &[u8], out: &mut Events) -> Result<(), NoMemory>
        requires count { count_of self.old < 2 ^ 63 }
        requires goes_on { self.old.stopped ≡ false }
        ensures state { OnOk result (self.new ≡ after_row self.old
            (row_taken self.old.opts self.old.row text.now)) }
        ensures events { OnOk result (out.new ≡ out.old
            ++ events_of self.old.at (row_gives self.old
            (row_taken self.old.opts self.old.row text.now))) }
    {
        match self.read_row(text)? {
            RowOutcome::Nothing => Ok(()),
            RowOutcome::Fields(record) => {
                self.at = next_ctx(self.at);
                out.push(Event::Rec(record, self.at))
            }
            RowOutcome::Fault(fault) => {
                self.stopped = true;
                out.push(Event::Fault(fault))
            }
        }
    }

    /// Reads a line that isn't skipped, and returns the outcome of the row if the line ends it.
    fn read_row(&mut self, text: &[u8]) -> Result<RowOutcome, NoMemory>
        ensures items { IfOk result (λ given. outcome_items given
            ≡ row_gives self.old (row_taken self.old.opts self.old.row text.now)) }
        ensures state { OnOk result (self.new ≡ record
            self.old {
              begins = begins_now self.old;
              header = header_after_row self.old
                  (row_taken self.old.opts self.old.row text.now);
              row = row_after_row
                  (row_taken self.old.opts self.old.row text.now);
            }) }
    {
        self.begins = self.begins_now();
        if let Some(record) = take_line(&self.opts, &self.header, &mut self.row, text)? {
            return Ok(RowOutcome::Fields(record));
        }
        if self.row.is_open() {
            return Ok(RowOutcome::Nothing);
        }
        close_row(
            self.alloc,
            &self.opts,
            self.file,
            self.begins,
            &mut self.header,
            &mut self.row,
        )
    }

    /// The number of the line on which the next line's row begins.
    #[inline]
    fn begins_now(&self) -> u64
        ensures { result ≡ begins_now self.now }
    {
        if self.row.is_open() {
            self.begins
        } else {
            self.number
        }
    }
}

/// Takes the fields of an ended row, as the header or under it.
fn close_row(
    alloc: Global,
    opts: &ReadOpts,
    file: FileRef,
    line: u64,
    header: &mut Option<Heading>,
    row: &mut Row,
) -> Result<RowOutcome, NoMemory>
    requires { row.old.quotes ≡ None }
    ensures items { IfOk result (λ given. outcome_items given
        ≡ closed_values opts.now file line header.old row.old.values) }
    ensures header { OnOk result (header.new ≡ values_header opts.now header.old row.old.values) }
    ensures row { OnOk result (row.new ≡ no_row) }
{
    match header {
        Some(names) => give_row(alloc, opts, file, line, names, row),
        None => {
            let names = first_header(alloc, opts.implicit, row)?;
            let given = if opts.implicit {
                give_row(alloc, opts, file, line, &names, row)?
            } else {
                row.clear();
                RowOutcome::Nothing
            };
            *header = Some(names);
            Ok(given)
        }
    }
}

/// Takes the fields of an ended row under a header.
fn give_row(
    alloc: Global,
    opts: &ReadOpts,
    file: FileRef,
    line: u64,
    header: &Heading,
    row: &mut Row,
) -> Result<RowOutcome, NoMemory>
    requires { row.old.quotes ≡ None }
    ensures items { IfOk result (λ given. outcome_items given
        ≡ values_items opts.now file line header.now row.old.values) }
    ensures row { OnOk result (row.new ≡ no_row) }
{
    let want = header.header().len();
    let have = row.len();
    if opts.ragged || have == want {
        let record = row.record(alloc, opts.dedupe, header)?;
        return Ok(RowOutcome::Fields(record));
    }
    row.clear();
    Ok(RowOutcome::Fault(Fault::Length {
        file,
        line,
        want: want as u64,
        have: have as u64,
    }))
}

/// The header that the first row gives: its texts, or positions if the header is implicit.
#[inline(never)]
fn first_header(alloc: Global, implicit: bool, row: &Row) -> Result<Heading, NoMemory>
    ensures { IfOk result (λ header. header ≡ header_of implicit row.now.values) }
{
    let names = if implicit {
        positions(alloc, row.len())?
    } else {
        row.texts(alloc)?
    };
    Heading::new(alloc, names)
}

/// Appends the line ending, which begins at `place`, to an open quote.
#[inline]
fn end_line(row: &mut Row, line: &[u8], place: usize) -> Result<(), NoMemory>
    requires { place ≤ length line.now }
    ensures { OnOk result (row.new ≡ with_end row.old (drop place line.now ++ 10 ∷ [])) }
{
    if row.is_open() {
        row.append(following(line, place))?;
        row.append(b"\n")?;
    }
    Ok(())
}
