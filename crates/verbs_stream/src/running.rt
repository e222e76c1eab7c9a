//! The streaming verbs, each with what it keeps.

use mlr_event::{Ctx, Events};
use mlr_record::Record;
use mlr_spec::NoMemory;
use verbs_base::{Each, Stateful};
use verbs_fields::{Altkv, Label, Reorder, SortWithinRecords, Sparsify, Template, Unspace};
use verbs_pattern::{CutVerb, GrepVerb, GsubVerb, HavingFieldsVerb, RenameVerb, Ssub, SubVerb};
use verbs_state::{
    CatVerb, DecimateVerb, FillDownVerb, GapVerb, HeadVerb, Nothing, RegularizeVerb, RepeatVerb,
};
use verbs_values::{FillEmpty, Flatten, JsonParse, JsonStringify, Sec2Gmt, Sec2GmtDate, Unflatten};

/// A streaming verb with what it keeps from record to record.
pub enum Running {
    Altkv(Each<Altkv>),
    Cat(CatVerb),
    Cut(CutVerb),
    Decimate(DecimateVerb),
    FillDown(FillDownVerb),
    FillEmpty(Each<FillEmpty>),
    Flatten(Each<Flatten>),
    Gap(GapVerb),
    Grep(GrepVerb),
    Gsub(GsubVerb),
    HavingFields(HavingFieldsVerb),
    Head(HeadVerb),
    JsonParse(Each<JsonParse>),
    JsonStringify(Each<JsonStringify>),
    Label(Each<Label>),
    Nothing(Each<Nothing>),
    Regularize(RegularizeVerb),
    Rename(RenameVerb),
    Reorder(Each<Reorder>),
    Repeat(RepeatVerb),
    Sec2Gmt(Each<Sec2Gmt>),
    Sec2GmtDate(Each<Sec2GmtDate>),
    SortWithinRecords(Each<SortWithinRecords>),
    Sparsify(Each<Sparsify>),
    Ssub(Each<Ssub>),
    Sub(SubVerb),
    Template(Each<Template>),
    Unflatten(Each<Unflatten>),
    Unspace(Each<Unspace>),
}

/// The same call on a verb of whatever kind.
macro_rules! of_each {
    ($running:expr, $verb:ident => $call:expr) => {
        match $running {
            Running::Altkv($verb) => $call,
            Running::Cat($verb) => $call,
            Running::Cut($verb) => $call,
            Running::Decimate($verb) => $call,
            Running::FillDown($verb) => $call,
            Running::FillEmpty($verb) => $call,
            Running::Flatten($verb) => $call,
            Running::Gap($verb) => $call,
            Running::Grep($verb) => $call,
            Running::Gsub($verb) => $call,
            Running::HavingFields($verb) => $call,
            Running::Head($verb) => $call,
            Running::JsonParse($verb) => $call,
            Running::JsonStringify($verb) => $call,
            Running::Label($verb) => $call,
            Running::Nothing($verb) => $call,
            Running::Regularize($verb) => $call,
            Running::Rename($verb) => $call,
            Running::Reorder($verb) => $call,
            Running::Repeat($verb) => $call,
            Running::Sec2Gmt($verb) => $call,
            Running::Sec2GmtDate($verb) => $call,
            Running::SortWithinRecords($verb) => $call,
            Running::Sparsify($verb) => $call,
            Running::Ssub($verb) => $call,
            Running::Sub($verb) => $call,
            Running::Template($verb) => $call,
            Running::Unflatten($verb) => $call,
            Running::Unspace($verb) => $call,
        }
    };
}

// Written by hand, so that what stands above calls it instead of dropping the verbs themselves.
impl Drop for Running {
    fn drop(self) {
        of_each!(self, verb => drop(verb))
    }
}

impl Stateful for Running {
    ghost use Rattle.verbs_stream.specs.Meaning.{meaning_of};
    ghost use Rattle.verbs_stream.specs.Running.{Represents, options_of, stays-shut};

    ghost meaning = { λ s. meaning_of (options_of s) };

    ghost represents = { Represents };

    ghost shuts = { λ s. stays-shut (options_of s) };

    fn take(&mut self, fields: Record, ctx: Ctx, out: &mut Events) -> Result<(), NoMemory> {
        of_each!(self, verb => verb.take(fields, ctx, out))
    }

    fn take_all(&mut self, events: &mut Events, out: &mut Events) -> Result<(), NoMemory> {
        of_each!(self, verb => verb.take_all(events, out))
    }

    fn finish(&mut self, ctx: Ctx, out: &mut Events) -> Result<(), NoMemory> {
        of_each!(self, verb => verb.finish(ctx, out))
    }

    fn is_shut(&self) -> bool {
        of_each!(self, verb => verb.is_shut())
    }

    fn never_shuts(&self) -> bool {
        of_each!(self, verb => verb.never_shuts())
    }

    fn passes_each(&self) -> bool {
        match self {
            Running::Cat(verb) => verb.passes_each(),
            _ => false,
        }
    }
}
