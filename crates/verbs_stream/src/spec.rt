//! The streaming verbs with their options.
ghost use Rattle.std.specs.Prelude.{◌≡◌, [], IfOk, IsOk};
ghost use Rattle.verbs_stream.specs.Meaning.{IsShort, IsSound, meaning_of};

use crate::running::Running;
use mlr_spec::NoMemory;
use std::alloc::Global;
use verbs_base::{Each, Stateful};
use verbs_fields::{Altkv, Label, Reorder, SortWithinRecords, Sparsify, Template, Unspace};
use verbs_pattern::{
    Cut, CutVerb, Grep, GrepVerb, Gsub, GsubVerb, HavingFields, HavingFieldsVerb, Rename,
    RenameVerb, Ssub, Sub, SubVerb,
};
use verbs_state::{
    Cat, CatVerb, Decimate, DecimateVerb, FillDown, FillDownVerb, Gap, GapVerb, Head, HeadVerb,
    Nothing, RegularizeVerb, Repeat, RepeatVerb,
};
use verbs_values::{FillEmpty, Flatten, JsonParse, JsonStringify, Sec2Gmt, Sec2GmtDate, Unflatten};

/// A streaming verb, with its options as given on the command line.
pub enum Spec {
    /// Takes the values in turn as keys and values.
    Altkv,
    /// Passes records, with their numbers if the options ask for them.
    Cat(Cat),
    /// Keeps or drops fields.
    Cut(Cut),
    /// Passes one of every `count` records.
    Decimate(Decimate),
    /// Fills fields with their last values in earlier records.
    FillDown(FillDown),
    /// Fills empty values.
    FillEmpty(FillEmpty),
    /// Replaces a map or an array by one field for each of its leaves.
    Flatten(Flatten),
    /// Inserts records without fields between others.
    Gap(Gap),
    /// Passes the records whose text matches a pattern.
    Grep(Grep),
    /// Replaces all matches in values.
    Gsub(Gsub),
    /// Passes the records that have or don't have certain fields.
    HavingFields(HavingFields),
    /// Passes the first records.
    Head(Head),
    /// Parses values as JSON.
    JsonParse(JsonParse),
    /// Writes values as JSON.
    JsonStringify(JsonStringify),
    /// Names the first fields.
    Label(Label),
    /// Drops all records.
    Nothing,
    /// Gives records with the same names the same order of fields.
    Regularize,
    /// Renames fields.
    Rename(Rename),
    /// Moves fields to the start or to the end.
    Reorder(Reorder),
    /// Gives a record several times.
    Repeat(Repeat),
    /// Replaces seconds by dates with times of day.
    Sec2Gmt(Sec2Gmt),
    /// Replaces seconds by dates.
    Sec2GmtDate(Sec2GmtDate),
    /// Sorts the fields by their names.
    SortWithinRecords(SortWithinRecords),
    /// Drops empty fields.
    Sparsify(Sparsify),
    /// Replaces the first occurrence of a text in values.
    Ssub(Ssub),
    /// Replaces the first match in values.
    Sub(Sub),
    /// Keeps only the named fields, in the order of the names.
    Template(Template),
    /// Sets values at the paths that their names spell.
    Unflatten(Unflatten),
    /// Replaces spaces in names and values.
    Unspace(Unspace),
}

// Written by hand, so that the crates above call it instead of dropping the options themselves.
impl Drop for Spec {
    fn drop(self) {
        match self {
            Spec::Altkv => {}
            Spec::Cat(options) => drop(options),
            Spec::Cut(options) => drop(options),
            Spec::Decimate(options) => drop(options),
            Spec::FillDown(options) => drop(options),
            Spec::FillEmpty(options) => drop(options),
            Spec::Flatten(options) => drop(options),
            Spec::Gap(options) => drop(options),
            Spec::Grep(options) => drop(options),
            Spec::Gsub(options) => drop(options),
            Spec::HavingFields(options) => drop(options),
            Spec::Head(options) => drop(options),
            Spec::JsonParse(options) => drop(options),
            Spec::JsonStringify(options) => drop(options),
            Spec::Label(options) => drop(options),
            Spec::Nothing => {}
            Spec::Regularize => {}
            Spec::Rename(options) => drop(options),
            Spec::Reorder(options) => drop(options),
            Spec::Repeat(options) => drop(options),
            Spec::Sec2Gmt(options) => drop(options),
            Spec::Sec2GmtDate(options) => drop(options),
            Spec::SortWithinRecords(options) => drop(options),
            Spec::Sparsify(options) => drop(options),
            Spec::Ssub(options) => drop(options),
            Spec::Sub(options) => drop(options),
            Spec::Template(options) => drop(options),
            Spec::Unflatten(options) => drop(options),
            Spec::Unspace(options) => drop(options),
        }
    }
}

impl Spec {
    /// A copy, which shares the patterns. It allocates lists, and texts of more than 20 bytes.
    pub fn copy(&self, alloc: Global) -> Result<Self, NoMemory>
        ensures meaning { IfOk result (λ copy. meaning_of copy ≡ meaning_of self.now) }
        ensures sound { IfOk result (λ copy. IsSound self.now → IsSound copy) }
        ensures short { IsShort self.now → IsOk result }
    {
        match self {
            Spec::Altkv => Ok(Spec::Altkv),
            Spec::Cat(options) => Ok(Spec::Cat(options.copy(alloc)?)),
            Spec::Cut(options) => Ok(Spec::Cut(options.copy(alloc)?)),
            Spec::Decimate(options) => Ok(Spec::Decimate(options.copy(alloc)?)),
            Spec::FillDown(options) => Ok(Spec::FillDown(options.copy(alloc)?)),
            Spec::FillEmpty(options) => Ok(Spec::FillEmpty(options.copy(alloc)?)),
            Spec::Flatten(options) => Ok(Spec::Flatten(options.copy(alloc)?)),
            Spec::Gap(options) => Ok(Spec::Gap(options.copy(alloc)?)),
            Spec::Grep(options) => Ok(Spec::Grep(options.copy(alloc)?)),
            Spec::Gsub(options) => Ok(Spec::Gsub(options.copy(alloc)?)),
            Spec::HavingFields(options) => Ok(Spec::HavingFields(options.copy(alloc)?)),
            Spec::Head(options) => Ok(Spec::Head(options.copy(alloc)?)),
            Spec::JsonParse(options) => Ok(Spec::JsonParse(options.copy(alloc)?)),
            Spec::JsonStringify(options) => Ok(Spec::JsonStringify(options.copy(alloc)?)),
            Spec::Label(options) => Ok(Spec::Label(options.copy(alloc)?)),
            Spec::Nothing => Ok(Spec::Nothing),
            Spec::Regularize => Ok(Spec::Regularize),
            Spec::Rename(options) => Ok(Spec::Rename(options.copy(alloc)?)),
            Spec::Reorder(options) => Ok(Spec::Reorder(options.copy(alloc)?)),
            Spec::Repeat(options) => Ok(Spec::Repeat(options.copy(alloc)?)),
            Spec::Sec2Gmt(options) => Ok(Spec::Sec2Gmt(options.copy(alloc)?)),
            Spec::Sec2GmtDate(options) => Ok(Spec::Sec2GmtDate(options.copy(alloc)?)),
            Spec::SortWithinRecords(options) => Ok(Spec::SortWithinRecords(options.copy(alloc)?)),
            Spec::Sparsify(options) => Ok(Spec::Sparsify(options.copy(alloc)?)),
            Spec::Ssub(options) => Ok(Spec::Ssub(options.copy(alloc)?)),
            Spec::Sub(options) => Ok(Spec::Sub(options.copy(alloc)?)),
            Spec::Template(options) => Ok(Spec::Template(options.copy(alloc)?)),
            Spec::Unflatten(options) => Ok(Spec::Unflatten(options.copy(alloc)?)),
            Spec::Unspace(options) => Ok(Spec::Unspace(options.copy(alloc)?)),
        }
    }

    /// The verb with these options, before the first record. It allocates for the verb's state.
    pub(crate) fn running(self, alloc: Global) -> Result<Running, NoMemory>
        requires { IsSound self }
        ensures meaning { IfOk result (λ made. ⟦<Running as Stateful>⟧.meaning made
            ≡ meaning_of self) }
        ensures represents { IfOk result (λ made. ⟦<Running as Stateful>⟧.represents made []) }
    {
        match self {
            Spec::Altkv => Ok(Running::Altkv(Each { alloc, verb: Altkv })),
            Spec::Cat(verb) => Ok(Running::Cat(CatVerb::new(alloc, verb)?)),
            Spec::Cut(verb) => Ok(Running::Cut(CutVerb::new(alloc, verb))),
            Spec::Decimate(verb) => Ok(Running::Decimate(DecimateVerb::new(alloc, verb)?)),
            Spec::FillDown(verb) => Ok(Running::FillDown(FillDownVerb::new(alloc, verb)?)),
            Spec::FillEmpty(verb) => Ok(Running::FillEmpty(Each { alloc, verb })),
            Spec::Flatten(verb) => Ok(Running::Flatten(Each { alloc, verb })),
            Spec::Gap(verb) => Ok(Running::Gap(GapVerb::new(alloc, verb))),
            Spec::Grep(verb) => Ok(Running::Grep(GrepVerb::new(alloc, verb))),
            Spec::Gsub(verb) => Ok(Running::Gsub(GsubVerb::new(alloc, verb))),
            Spec::HavingFields(verb) => Ok(Running::HavingFields(HavingFieldsVerb::new(
                alloc, verb,
            ))),
            Spec::Head(verb) => Ok(Running::Head(HeadVerb::new(alloc, verb)?)),
            Spec::JsonParse(verb) => Ok(Running::JsonParse(Each { alloc, verb })),
            Spec::JsonStringify(verb) => Ok(Running::JsonStringify(Each { alloc, verb })),
            Spec::Label(verb) => Ok(Running::Label(Each { alloc, verb })),
            Spec::Nothing => Ok(Running::Nothing(Each {
                alloc,
                verb: Nothing,
            })),
            Spec::Regularize => Ok(Running::Regularize(RegularizeVerb::new(alloc))),
            Spec::Rename(verb) => Ok(Running::Rename(RenameVerb::new(alloc, verb))),
            Spec::Reorder(verb) => Ok(Running::Reorder(Each { alloc, verb })),
            Spec::Repeat(verb) => Ok(Running::Repeat(RepeatVerb::new(verb))),
            Spec::Sec2Gmt(verb) => Ok(Running::Sec2Gmt(Each { alloc, verb })),
            Spec::Sec2GmtDate(verb) => Ok(Running::Sec2GmtDate(Each { alloc, verb })),
            Spec::SortWithinRecords(verb) => Ok(Running::SortWithinRecords(Each { alloc, verb })),
            Spec::Sparsify(verb) => Ok(Running::Sparsify(Each { alloc, verb })),
            Spec::Ssub(verb) => Ok(Running::Ssub(Each { alloc, verb })),
            Spec::Sub(verb) => Ok(Running::Sub(SubVerb::new(alloc, verb))),
            Spec::Template(verb) => Ok(Running::Template(Each { alloc, verb })),
            Spec::Unflatten(verb) => Ok(Running::Unflatten(Each { alloc, verb })),
            Spec::Unspace(verb) => Ok(Running::Unspace(Each { alloc, verb })),
        }
    }
}
