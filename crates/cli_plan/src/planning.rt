//! The plan of a command line.
ghost use Rattle.std.specs.Prelude.{◌≡◌, true, ℕ, length, None, IfErr, IfOk};
ghost use Rattle.std.specs.List.{list_all};
ghost use Rattle.std.specs.Option.{option_map};
ghost use Rattle.plan_verbs.specs.Plans.{IsSound};
ghost use Rattle.plan_verbs.specs.declared.plan.Plan.{Plan as SpecPlan};
ghost use Rattle.cli_grammar.specs.Grammar.{is_verb};
ghost use Rattle.mlr_event.specs.declared.refusal.Why.TheVariants.{Clash, TooManyVerbs};
ghost use Rattle.cli_verbs.specs.Faults.{IfRefused};
ghost use Rattle.cli_verbs.specs.Verbs.{IsVerbOf};
ghost use Rattle.cli_plan.specs.Accepting.{AreGoodAfter, IsAccepted, IsFirstRefusedAfter, IsGoodAfter, IsGoodPartial, IsRefused, IsRefusedAfter, IsRefusedPartial, clash_after, clash_among, clash_with, is_source};
ghost use Rattle.cli_plan.specs.Options.{flatsep_of, read_of};
ghost use Rattle.cli_plan.specs.Planning.{AreVerbsOf, IsMade, IsPlanOf, IsText, Plans};
ghost use Rattle.cli_plan.specs.Say.{said};

use crate::clash::comment_clash;
use crate::inputs::inputs_of;
use crate::options::{flatsep_of, read_options, write_options};
use crate::planned::Planned;
use crate::say::said;
use crate::settings::{Settings, settings_of};
use chain_core::{Plan, Refusal, VerbList, VerbSpec, Why};
use cli_grammar::{Given, Line, VerbName, VerbWords, grammar_laws, line_of};
use cli_verbs::{Fault, clash_of, partial_fault, verb_of};
use mlr_event::{NameList, Names, ReadOpts};
use mlr_list::List;
use mlr_spec::NoMemory;
use mlr_value::Bytes;
use std::alloc::Global;

/// A chain has at most so many verbs.
const MOST_VERBS: usize = 64;

/// What the words of a command line come to. The environment is for the language.
pub fn plan(alloc: Global, words: &[Bytes], env: &[(Bytes, Bytes)]) -> Planned
    // Ok with the plan that the words mean, Say with the text that they ask for, and Refused where they aren't accepted,
    // at the first word that has no meaning or that the grammar doesn't allow in its place.
    ensures plans { Plans words.now result }
    // The plan can be run.
    ensures sound { (plan : SpecPlan) → result ≡ Planned.Ok plan → IsSound plan }
{
    let _ = env;
    match said(words) {
        Some(text) => text_of(alloc, text),
        None => plan_of_words(alloc, words),
    }
}

/// A text that words ask for.
fn text_of(alloc: Global, text: &[u8]) -> Planned
    ensures { IsText text.now result }
{
    match Bytes::copy_of(alloc, text) {
        Ok(text) => Planned::Say(text),
        Err(NoMemory) => Planned::NoMemory,
    }
}

/// What words come to that ask for no text.
fn plan_of_words(alloc: Global, words: &[Bytes]) -> Planned
    requires { said words.now ≡ None }
    ensures plans { Plans words.now result }
    ensures sound { (plan : SpecPlan) → result ≡ Planned.Ok plan → IsSound plan }
{
    let Ok(line) = line_of(alloc, words) else {
        return Planned::NoMemory;
    };
    grammar_laws();
    match plan_of(alloc, line) {
        Ok(plan) => Planned::Ok(plan),
        Err(Fault::Refused(refusal)) => Planned::Refused(refusal),
        Err(Fault::NoMemory) => Planned::NoMemory,
    }
}

/// The plan of a line, or why it is refused.
fn plan_of(alloc: Global, line: Line) -> Result<Plan, Fault>
    requires { list_all is_verb line.verbs ≡ true }
    ensures accepted { IfOk result (λ _. IsAccepted line) }
    ensures plan { IfOk result (λ plan. IsPlanOf line plan) }
    ensures sound { IfOk result (λ plan. IsSound plan) }
    ensures refused { IfErr result (IfRefused (IsRefused line)) }
{
    let Line {
        flags,
        verbs,
        partial,
        names,
        refusal,
    } = line;
    let settings = settings_of(alloc, flags.as_slice())?;
    let read = read_options(alloc, &settings)?;
    let specs = verbs_of(alloc, flatsep_of(&settings), &read, verbs.as_slice())?;
    check_partial(alloc, verbs.len(), &partial)?;
    check_refusal(refusal)?;
    check_clash(alloc, flags.as_slice(), &settings, verbs.as_slice())?;
    made(
        alloc,
        &settings,
        read,
        flags.as_slice(),
        names.as_slice(),
        specs,
    )
}

/// The verbs of a command line, or the first that is refused.
fn verbs_of(
    alloc: Global,
    flatsep: &[u8],
    read: &ReadOpts,
    verbs: &[VerbWords],
) -> Result<VerbList, Fault>
    ensures verbs { IfOk result (λ specs. AreVerbsOf flatsep.now read.now verbs.now specs) }
    ensures good { IfOk result (λ _. AreGoodAfter 0 verbs.now) }
    ensures refused { IfErr result (IfRefused (IsFirstRefusedAfter 0 verbs.now)) }
{
    let mut specs = List::new(alloc);
    for (before, verb) in verbs.iter().enumerate() {
        specs.push(verb_after(alloc, flatsep, read, before, verb)?)?;
    }
    Ok(specs)
}

/// A verb that so many precede, or why it is refused.
fn verb_after(
    alloc: Global,
    flatsep: &[u8],
    read: &ReadOpts,
    before: usize,
    verb: &VerbWords,
) -> Result<VerbSpec, Fault>
    ensures means { IfOk result (λ spec. IsVerbOf flatsep.now read.now verb.now spec) }
    ensures good { IfOk result (λ _. IsGoodAfter before verb.now) }
    ensures refused { IfErr result (IfRefused (IsRefusedAfter before verb.now)) }
{
    if before >= MOST_VERBS {
        return Err(excess(verb));
    }
    verb_of(alloc, flatsep, read, verb)
}

/// The refusal of a verb after the sixty-fourth.
fn excess(verb: &VerbWords) -> Fault
    ensures { result ≡ Fault.Refused (record { word = verb.now.number; why = TooManyVerbs }) }
{
    Fault::Refused(Refusal {
        word: verb.number as u64,
        why: Why::TooManyVerbs,
    })
}

/// Checks the words of a verb that isn't complete, which so many precede.
fn check_partial(alloc: Global, before: usize, partial: &Option<VerbWords>) -> Result<(), Fault>
    ensures good { IfOk result (λ _. IsGoodPartial before partial.now) }
    ensures refused { IfErr result (IfRefused (IsRefusedPartial before partial.now)) }
{
    match partial {
        None => Ok(()),
        Some(verb) if before >= MOST_VERBS => Err(excess(verb)),
        Some(verb) => partial_fault(alloc, verb),
    }
}

/// Where the grammar refuses a word, this is the fault.
fn check_refusal(refusal: Option<Refusal>) -> Result<(), Fault>
    ensures none { IfOk result (λ _. refusal ≡ None) }
    ensures refused { IfErr result (IfRefused (λ why. refusal ≡ Some why)) }
{
    match refusal {
        None => Ok(()),
        Some(refusal) => Err(Fault::Refused(refusal)),
    }
}

/// Where a word contradicts another, the first of them is refused.
fn check_clash(
    alloc: Global,
    flags: &[Given],
    settings: &Settings,
    verbs: &[VerbWords],
) -> Result<(), Fault>
    ensures none { IfOk result (λ _. clash_with flags.now settings.now verbs.now ≡ None) }
    ensures refused { IfErr result (IfRefused (λ why. (why.why ≡ Clash)
        × (clash_with flags.now settings.now verbs.now ≡ Some why.word))) }
{
    if let Some(number) = comment_clash(flags, settings) {
        return Err(clash_at(number));
    }
    match clash_among(alloc, verbs)? {
        Some(number) => Err(clash_at(number)),
        None => Ok(()),
    }
}

fn clash_at(number: usize) -> Fault
    ensures { result ≡ Fault.Refused (record { word = number; why = Clash }) }
{
    Fault::Refused(Refusal {
        word: number as u64,
        why: Why::Clash,
    })
}

/// The number of the first word of these verbs that contradicts another.
fn clash_among(alloc: Global, verbs: &[VerbWords]) -> Result<Option<usize>, NoMemory>
    ensures { IfOk result (λ number. number ≡ clash_among true verbs.now) }
{
    for (before, verb) in verbs.iter().enumerate() {
        if let Some(number) = clash_after(alloc, before == 0, verb)? {
            return Ok(Some(number));
        }
    }
    Ok(None)
}

/// The number of the first word of a verb that contradicts another: a source has to be the first verb.
fn clash_after(alloc: Global, is_first: bool, verb: &VerbWords) -> Result<Option<usize>, NoMemory>
    ensures { IfOk result (λ number. number ≡ clash_after is_first verb.now) }
{
    if !is_first && is_source(verb.verb) {
        return Ok(Some(verb.number));
    }
    clash_of(alloc, verb)
}

/// Whether a verb is a source.
fn is_source(verb: VerbName) -> bool
    ensures { result ≡ is_source verb }
{
    matches!(verb, VerbName::Seqgen)
}

/// The plan with these verbs, where the inputs are read so.
fn made(
    alloc: Global,
    settings: &Settings,
    read: ReadOpts,
    flags: &[Given],
    names: &[Bytes],
    verbs: VerbList,
) -> Result<Plan, Fault>
    requires { read ≡ read_of settings.now }
    ensures plan { IfOk result (λ plan. IsMade settings.now flags.now names.now verbs plan) }
    ensures refused { IfErr result (IfRefused (λ _. ⊥)) }
{
    Ok(plan_with(alloc, settings, read, flags, names, verbs)?)
}

fn plan_with(
    alloc: Global,
    settings: &Settings,
    read: ReadOpts,
    flags: &[Given],
    names: &[Bytes],
    verbs: VerbList,
) -> Result<Plan, NoMemory>
    requires { read ≡ read_of settings.now }
    ensures { IfOk result (λ plan. IsMade settings.now flags.now names.now verbs plan) }
{
    let mut styles = List::new(alloc);
    styles.push(write_options(alloc, settings)?)?;
    Ok(Plan {
        read,
        inputs: inputs_of(alloc, flags, names)?,
        no_input: settings.no_input,
        verbs,
        styles,
        per_batch: settings.per_batch,
        turns: settings.turns,
        serial: settings.serial,
    })
}
