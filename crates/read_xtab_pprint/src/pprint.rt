//! Reads PPRINT line by line.
ghost use Rattle.std.specs.Prelude.{◌≡◌, ◌^◌, ◌<◌, ◌++◌, OnOk, false};
ghost use Rattle.mlr_event.specs.Reading.{events_of};
ghost use Rattle.read_xtab_pprint.specs.Last.{pprint_after_last, pprint_gives_last};
ghost use Rattle.read_xtab_pprint.specs.PprintRules.{after_row, plain_items, pprint_after, pprint_count, pprint_events};

use crate::row::Row;
use crate::rules::PprintRules;
use crate::table::{Place, table_row};
use mlr_event::rows::{is_comment, next_ctx, push_comment};
use mlr_event::{Event, Events};
use mlr_spec::NoMemory;

impl PprintRules {
    /// Reads the rest of the file: a last line without LF, or nothing.
    pub(crate) fn take_last(&mut self, line: &[u8], out: &mut Events) -> Result<(), NoMemory>
        requires { pprint_count self.old < 2 ^ 63 }
        ensures state { OnOk result (self.new ≡ pprint_after_last self.old line.now) }
        ensures events { OnOk result (out.new ≡ out.old ++ pprint_gives_last self.old line.now) }
    {
        if line.is_empty() {
            return Ok(());
        }
        self.take(line, out)
    }

    /// Reads a line without its line ending, and appends its events to `out`.
    pub(crate) fn take(&mut self, line: &[u8], out: &mut Events) -> Result<(), NoMemory>
        requires { pprint_count self.old < 2 ^ 63 }
        ensures state { OnOk result (self.new ≡ pprint_after self.old line.now) }
        ensures events { OnOk result (out.new ≡ out.old ++ pprint_events self.old line.now) }
    {
        if self.stopped {
            return Ok(());
        }
        if is_comment(&self.opts.comments, line) {
            push_comment(self.alloc, &self.opts.comments, line, out)?;
        } else {
            self.take_row(line, out)?;
        }
        self.number += 1;
        Ok(())
    }

    /// Reads a line that isn't a comment, and appends its events to `out`. It doesn't count the line.
    fn take_row(&mut self, line: &[u8], out: &mut Events) -> Result<(), NoMemory>
        requires count { pprint_count self.old < 2 ^ 63 }
        requires goes_on { self.old.stopped ≡ false }
        ensures state { OnOk result (self.new ≡ after_row self.old line.now) }
        ensures events { OnOk result (out.new ≡ out.old
            ++ events_of self.old.at (plain_items self.old.opts self.old.file self.old.number
            self.old.header line.now)) }
    {
        let place = Place {
            file: self.file,
            line: self.number,
        };
        match table_row(self.alloc, &self.opts, place, &mut self.header, line)? {
            Row::Nothing => Ok(()),
            Row::Fields(record) => {
                self.at = next_ctx(self.at);
                out.push(Event::Rec(record, self.at))
            }
            Row::Fault(fault) => {
                self.stopped = true;
                out.push(Event::Fault(fault))
            }
        }
    }
}
