//! A writer of records and texts in any of the nine formats.
ghost use Rattle.std.specs.Prelude.{◌≡◌, ◌↔◌, ℕ, List, [], ◌++◌, ◌∷◌, true, false, IsTrue, IfOk, OnOk, OnErr};
ghost use Rattle.mlr_event.specs.declared.event.Body.{Body};
ghost use Rattle.writers.specs.declared.options.WriteOpts.{WriteOpts};
ghost use Rattle.mlr_event.specs.Adding.{Adds};
ghost use Rattle.writers.specs.Represents.{HasEnded, IsBroken, IsOpen, Represents, run_of};
ghost use Rattle.writers.specs.Running.{after, end_text, gives, record_after, record_text};
ghost use Rattle.writers.specs.Written.{written};

use crate::WriteOpts;
use crate::csv::CsvRows;
use crate::dkvp::append_dkvp;
use crate::json::{append_json, append_json_end, append_line_end};
use crate::jsonl::append_jsonl;
use crate::markdown::MarkdownRows;
use crate::nidx::append_nidx;
use crate::pprint::{append_pprint, end_block};
use crate::rows::append_row;
use crate::shape::shaped;
use crate::stage::Stage;
use crate::state::State;
use crate::tsv::TsvRows;
use crate::xtab::append_xtab;
use mlr_event::{Body, Format};
use mlr_record::Record;
use mlr_spec::NoMemory;
use mlr_value::Bytes;
use std::alloc::Global;

/// Writes one output: records and texts come one after another, and their text is appended to a buffer as
/// soon as it is known. It keeps the keys of the last record, and in PPRINT the lines of the open block.
pub struct Writer {
    alloc: Global,
    opts: WriteOpts,
    state: State,
    /// A buffer for what one value prints.
    scratch: Bytes,
    stage: Stage,
}

// Written by hand, so that the crates above call it instead of dropping the fields themselves.
impl Drop for Writer {
    fn drop(self) {
        let Writer {
            alloc: _,
            opts,
            state,
            scratch,
            stage,
        } = self;
        drop(opts);
        drop(state);
        drop(scratch);
        drop(stage);
    }
}

impl Writer {
    /// Nothing came yet. It takes memory for options of more than 20 bytes.
    pub fn new(alloc: Global, opts: &WriteOpts) -> Result<Writer, NoMemory>
        ensures represents { IfOk result (λ writer. Represents opts.now writer []) }
        ensures open { IfOk result (λ writer. IsOpen writer) }
    {
        Ok(Writer {
            alloc,
            opts: opts.copy(alloc)?,
            state: State::new(alloc),
            scratch: Bytes::new(alloc),
            stage: Stage::Open,
        })
    }

    /// Takes a record or a text, and appends what is now known to be written.
    pub fn take(&mut self, body: Body, out: &mut Bytes) -> Result<(), NoMemory>
        requires { IsOpen self.old }
        ensures represents { OnOk result ((opts : WriteOpts) (bodies : List Body)
            → Represents opts self.old bodies → Represents opts self.new (bodies ++ body ∷ [])) }
        ensures adds { OnOk result ((opts : WriteOpts) (bodies : List Body)
            → Represents opts self.old bodies
            → Adds out.old out.new (written opts bodies false)
            (written opts (bodies ++ body ∷ []) false)) }
        ensures open { OnOk result (IsOpen self.new) }
        ensures err { OnErr result (IsBroken self.new) }
    {
        let taken = self.take_body(body, out);
        if taken.is_err() {
            self.stage = Stage::Broken;
        }
        taken
    }

    /// Takes the end, and appends the rest.
    pub fn end(&mut self, out: &mut Bytes) -> Result<(), NoMemory>
        requires { IsOpen self.old }
        ensures adds { OnOk result ((opts : WriteOpts) (bodies : List Body)
            → Represents opts self.old bodies
            → Adds out.old out.new (written opts bodies false) (written opts bodies true)) }
        ensures ended { OnOk result (HasEnded self.new) }
        ensures err { OnErr result (IsBroken self.new) }
    {
        let ended = self.take_end(out);
        self.stage = if ended.is_ok() {
            Stage::Ended
        } else {
            Stage::Broken
        };
        ended
    }

    /// Whether a call found no memory. Then nothing more may be asked of it.
    pub fn is_broken(&self) -> bool
        ensures { IsTrue result ↔ IsBroken self.now }
    {
        self.stage == Stage::Broken
    }

    fn take_body(&mut self, body: Body, out: &mut Bytes) -> Result<(), NoMemory>
        ensures run { OnOk result (run_of self.new.state
            ≡ after self.old.opts (run_of self.old.state) body) }
        ensures text { OnOk result (out.new ≡ out.old
            ++ gives self.old.opts (run_of self.old.state) body) }
        ensures opts { self.new.opts ≡ self.old.opts }
        ensures stage { self.new.stage ≡ self.old.stage }
    {
        match body {
            Body::Rec(fields) => {
                let fields = shaped(&self.opts, fields)?;
                self.take_record(fields, out)
            }
            Body::Text(text) => {
                append_line_end(&self.state, out)?;
                self.state.mid = false;
                out.append(text.as_slice())
            }
        }
    }

    /// Takes a record in the shape in which it is written.
    fn take_record(&mut self, fields: Record, out: &mut Bytes) -> Result<(), NoMemory>
        ensures run { OnOk result (run_of self.new.state
            ≡ record_after self.old.opts.format self.old.opts (run_of self.old.state) fields) }
        ensures text { OnOk result (out.new ≡ out.old
            ++ record_text self.old.opts.format self.old.opts (run_of self.old.state) fields) }
        ensures opts { self.new.opts ≡ self.old.opts }
        ensures stage { self.new.stage ≡ self.old.stage }
    {
        match self.opts.format {
            Format::Csv => append_row(
                &CsvRows { opts: &self.opts },
                &mut self.state,
                &fields,
                self.alloc,
                &mut self.scratch,
                out,
            ),
            Format::Tsv => append_row(
                &TsvRows { opts: &self.opts },
                &mut self.state,
                &fields,
                self.alloc,
                &mut self.scratch,
                out,
            ),
            Format::Markdown => append_row(
                &MarkdownRows,
                &mut self.state,
                &fields,
                self.alloc,
                &mut self.scratch,
                out,
            ),
            Format::Json => append_json(
                &self.opts,
                &mut self.state,
                &fields,
                &mut self.scratch,
                out,
            ),
            Format::Jsonl => append_jsonl(&fields, &mut self.scratch, out),
            Format::Dkvp => append_dkvp(&self.opts, &fields, &mut self.scratch, out),
            Format::Nidx => append_nidx(&self.opts, &fields, &mut self.scratch, out),
            Format::Xtab => append_xtab(&mut self.state, &fields, out),
            Format::Pprint => append_pprint(&self.opts, &mut self.state, &fields, self.alloc, out),
        }
    }

    fn take_end(&mut self, out: &mut Bytes) -> Result<(), NoMemory>
        ensures text { OnOk result (out.new ≡ out.old
            ++ end_text self.old.opts.format self.old.opts (run_of self.old.state)) }
    {
        match self.opts.format {
            Format::Json => append_json_end(&self.opts, &self.state, out),
            Format::Pprint => end_block(&self.opts, &mut self.state, out),
            _ => Ok(()),
        }
    }
}
