//! Reads XTAB line by line.
ghost use Rattle.std.specs.Prelude.{◌≡◌, ◌^◌, ◌<◌, ◌-◌, ◌++◌, length, OnOk};
ghost use Rattle.read_xtab_pprint.specs.Last.{xtab_after_last, xtab_gives_last};
ghost use Rattle.read_xtab_pprint.specs.Xtab.{without_spaces};
ghost use Rattle.read_xtab_pprint.specs.XtabRules.{after_gap, begun_pairs, gap_events, with_text, xtab_after, xtab_count, xtab_events};

use crate::rules::XtabRules;
use crate::words::{cut_word, without_spaces};
use mlr_event::rows::{is_comment, next_ctx, push_comment};
use mlr_event::{Event, Events, ReadOpts};
use mlr_fields::Fields;
use mlr_record::Record;
use mlr_spec::NoMemory;
use std::alloc::Global;
use std::mem;

impl XtabRules {
    /// Reads the rest of the file, a last line without LF or nothing, and appends the current record to
    /// `out`.
    pub(crate) fn take_last(&mut self, line: &[u8], out: &mut Events) -> Result<(), NoMemory>
        requires { xtab_count self.old < 2 ^ 63 }
        ensures state { OnOk result (self.new ≡ xtab_after_last self.old line.now) }
        ensures events { OnOk result (out.new ≡ out.old ++ xtab_gives_last self.old line.now) }
    {
        if line.is_empty() {
            return self.give(out);
        }
        self.take(line, out)?;
        self.give(out)
    }

    /// Reads a line without its line ending, and appends its events to `out`.
    pub(crate) fn take(&mut self, line: &[u8], out: &mut Events) -> Result<(), NoMemory>
        requires { xtab_count self.old < 2 ^ 63 }
        ensures state { OnOk result (self.new ≡ xtab_after self.old line.now) }
        ensures events { OnOk result (out.new ≡ out.old ++ xtab_events self.old line.now) }
    {
        if is_comment(&self.opts.comments, line) {
            return push_comment(self.alloc, &self.opts.comments, line, &mut self.passed);
        }
        let text = without_spaces(line);
        if text.is_empty() {
            return self.give(out);
        }
        put_line(self.alloc, &self.opts, text, &mut self.begun)
    }

    /// Appends the comments within the current record, and that record, to `out`.
    fn give(&mut self, out: &mut Events) -> Result<(), NoMemory>
        requires { xtab_count self.old < 2 ^ 64 - 1 }
        ensures state { OnOk result (self.new ≡ after_gap self.old) }
        ensures events { OnOk result (out.new ≡ out.old ++ gap_events self.old) }
    {
        push_all(mem::replace(&mut self.passed, Events::new(self.alloc)), out)?;
        if let Some(record) = mem::replace(&mut self.begun, None) {
            self.at = next_ctx(self.at);
            out.push(Event::Rec(record.into_record(), self.at))?;
        }
        Ok(())
    }
}

fn push_all(events: Events, out: &mut Events) -> Result<(), NoMemory>
    ensures { OnOk result (out.new ≡ out.old ++ events) }
{
    for event in events.into_vec() {
        out.push(event)?;
    }
    Ok(())
}

/// Sets the field of a line, without its leading spaces, in the record, which is created if there is none.
fn put_line(
    alloc: Global,
    opts: &ReadOpts,
    text: &[u8],
    record: &mut Option<Fields>,
) -> Result<(), NoMemory>
    requires { length (begun_pairs record.old) < 2 ^ 63 }
    ensures { OnOk result (record.new ≡ with_text opts.now text.now record.old) }
{
    let (key, rest) = cut_word(text);
    let value = without_spaces(rest);
    match record {
        Some(begun) => begun.put_text(alloc, opts, key, value),
        None => {
            let mut begun = Fields::new(Record::new(alloc)?);
            begun.put_text(alloc, opts, key, value)?;
            *record = Some(begun);
            Ok(())
        }
    }
}
