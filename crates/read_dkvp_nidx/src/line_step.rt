//! Reads a line as a comment or a row.
ghost use Rattle.std.specs.Prelude.{◌≡◌, ◌^◌, ◌<◌, ◌++◌, IfOk, OnOk, length, false};
ghost use Rattle.mlr_event.specs.Reading.{events_of};
ghost use Rattle.read_dkvp_nidx.specs.Row.{block_of, place_of, row_items};
ghost use Rattle.read_dkvp_nidx.specs.Rules.{after_last, after_line, rules_after, after_row, count_of, gives_last, gives_line, line_events, plain_block, plain_items};

use crate::block::Block;
use crate::dkvp::dkvp_row;
use crate::markdown::{Place, markdown_row};
use crate::nidx::nidx_row;
use crate::room::Room;
use crate::row::Row;
use crate::rules::LineRules;
use mlr_event::rows::{is_comment, next_ctx, push_comment};
use mlr_event::{Ctx, Event, Events, FileRef, Format, ReadOpts};
use mlr_lines::{LineFormat, without_return};
use mlr_spec::NoMemory;
use std::alloc::Global;

impl LineFormat for LineRules {
    ghost use Rattle.mlr_lines.specs.Lines.{fixed_lines, whole_lines};
    ghost use Rattle.read_dkvp_nidx.specs.Counting.{count-line};
    ghost use Rattle.read_dkvp_nidx.specs.Lines.{items_of_lines};
    ghost use Rattle.read_dkvp_nidx.specs.Rules.{Begins, after_last, after_line, count_of, gives_last, gives_line};
    ghost use Rattle.read_dkvp_nidx.specs.Usable.{is_usable};

    ghost usable = { is_usable };

    ghost fed = { λ opts file bytes. items_of_lines opts file opts.format (fixed_lines bytes) };

    ghost whole = { λ opts file bytes. items_of_lines opts file opts.format (whole_lines bytes) };

    ghost begins = { Begins };

    ghost after = { after_line };

    ghost gives = { gives_line };

    ghost after_last = { after_last };

    ghost gives_last = { gives_last };

    ghost at = { λ rules. rules.at };

    ghost count = { count_of };

    ghost counts = { count-line };

    fn begin(alloc: Global, opts: ReadOpts, file: FileRef, start: Ctx) -> Self {
        LineRules {
            alloc,
            opts,
            file,
            number: 1,
            block: Block::Outside,
            room: Room::first(),
            at: start,
            stopped: false,
        }
    }

    fn line(&mut self, line: &[u8], out: &mut Events) -> Result<(), NoMemory> {
        self.take(without_return(line), out)
    }

    fn last(&mut self, line: &[u8], out: &mut Events) -> Result<(), NoMemory> {
        if line.is_empty() {
            return Ok(());
        }
        self.take(line, out)
    }

    fn ctx(&self) -> Ctx {
        self.at
    }

    fn laws() {}
}

impl LineRules {
    /// Reads a line without its line ending, and appends its events to `out`.
    fn take(&mut self, line: &[u8], out: &mut Events) -> Result<(), NoMemory>
        requires count { count_of self.old < 2 ^ 63 }
        requires length { length line.now < 2 ^ 63 }
        ensures state { OnOk result (self.new ≡ rules_after self.old line.now) }
        ensures events { OnOk result (out.new ≡ out.old ++ line_events self.old line.now) }
    {
        if self.stopped {
            return Ok(());
        }
        if is_comment(&self.opts.comments, line) {
            push_comment(self.alloc, &self.opts.comments, line, out)?;
        } else {
            self.take_row(line, out)?;
        }
        self.number += 1;
        Ok(())
    }

    /// Reads a line that isn't a comment, and appends its events to `out`. It doesn't count the line.
    fn take_row(&mut self, line: &[u8], out: &mut Events) -> Result<(), NoMemory>
        requires count { count_of self.old < 2 ^ 63 }
        requires length { length line.now < 2 ^ 63 }
        requires goes_on { self.old.stopped ≡ false }
        ensures state { OnOk result (self.new ≡ after_row self.old line.now) }
        ensures events { OnOk result (out.new ≡ out.old
            ++ events_of self.old.at (plain_items self.old.opts.format self.old.opts self.old.file
            self.old.number (block_of self.old.block) line.now)) }
    {
        match self.row(line)? {
            Row::Nothing => Ok(()),
            Row::Fields(record) => {
                self.at = next_ctx(self.at);
                out.push(Event::Rec(record, self.at))
            }
            Row::Fault(fault) => {
                self.stopped = true;
                out.push(Event::Fault(fault))
            }
        }
    }

    /// The outcome of a line that isn't a comment.
    fn row(&mut self, line: &[u8]) -> Result<Row, NoMemory>
        requires { length line.now < 2 ^ 63 }
        ensures items { IfOk result (λ row. row_items row
            ≡ plain_items self.old.opts.format self.old.opts self.old.file self.old.number
            (block_of self.old.block) line.now) }
        ensures state { OnOk result (self.new ≡ record
            self.old {
              block = place_of (plain_block self.old.opts.format
                  (block_of self.old.block) line.now);
            }) }
    {
        match self.opts.format {
            Format::Dkvp => dkvp_row(self.alloc, &self.opts, &mut self.room, line),
            Format::Nidx => nidx_row(self.alloc, &self.opts, &mut self.room, line),
            Format::Markdown => markdown_row(
                self.alloc,
                &self.opts,
                Place {
                    file: self.file,
                    line: self.number,
                },
                &mut self.block,
                line,
            ),
            _ => Ok(Row::Nothing),
        }
    }
}
