//! The options of `having-fields`.
ghost use Rattle.std.specs.Prelude.{◌≡◌, ◌∷◌, [], IfErr, IfOk};
ghost use Rattle.std.specs.Arc.{arc_value};
ghost use Rattle.cli_verbs.specs.Compiled.{IsCompiled};
ghost use Rattle.cli_verbs.specs.Faults.{IfRefused};
ghost use Rattle.cli_verbs.specs.HavingFields.{having_names, having_patterns, is_pattern_option, pattern_given, patterns_among, patterns_given, IsHavingBy, IsHavingFieldsOf, IsHavingIn, IsMatchingBy};
ghost use Rattle.cli_verbs.specs.PatternWords.{AreGoodPatterns, IsFirstRefused};

use crate::fault::Fault;
use crate::pattern::pattern_of;
use cli_choices::{argument_of, following, names_in};
use cli_grammar::{Given, VerbWords};
use mlr_event::Names;
use mlr_pattern::Pattern;
use std::alloc::Global;
use std::sync::Arc;
use verbs_pattern::HavingFields;

/// The options of `having-fields`.
pub(crate) fn having_fields(alloc: Global, given: &VerbWords) -> Result<HavingFields, Fault>
    ensures means { IfOk result (IsHavingFieldsOf given.now) }
    ensures good { IfOk result (λ _. AreGoodPatterns (having_patterns given.now)) }
    ensures refused { IfErr result (IfRefused (IsFirstRefused (having_patterns given.now))) }
{
    having_in(alloc, given.options.as_slice())
}

/// The condition of the last of these options. The first pattern that can't be read is refused.
#[tactic(auto, using(crate::proofs::Passing::before_refused, crate::proofs::Passing::having_ends, crate::proofs::Passing::last_good, crate::proofs::Passing::last_refused))]
fn having_in(alloc: Global, options: &[Given]) -> Result<HavingFields, Fault>
    ensures means { IfOk result (IsHavingIn options.now) }
    ensures good { IfOk result (λ _. AreGoodPatterns (patterns_among options.now)) }
    ensures refused { IfErr result (IfRefused (IsFirstRefused (patterns_among options.now))) }
{
    match options.split_last() {
        Some((last, before)) => {
            check_patterns(alloc, before)?;
            let made = having_by(alloc, last)?;
            Ok(made)
        }
        None => Ok(HavingFields::AtLeast(names_in(alloc, b"")?)),
    }
}

/// Compiles the patterns of these options. The first that can't be read is refused.
pub(crate) fn check_patterns(alloc: Global, options: &[Given]) -> Result<(), Fault>
    ensures good { IfOk result (λ _. AreGoodPatterns (patterns_among options.now)) }
    ensures refused { IfErr result (IfRefused (IsFirstRefused (patterns_among options.now))) }
{
    for given in options {
        check_pattern(alloc, given)?;
    }
    Ok(())
}

/// Compiles the pattern of an option, if its word is one.
fn check_pattern(alloc: Global, given: &Given) -> Result<(), Fault>
    ensures good { IfOk result (λ _. AreGoodPatterns (patterns_given given.now)) }
    ensures refused { IfErr result (IfRefused (IsFirstRefused (patterns_given given.now))) }
{
    if is_pattern_option(given.name.as_slice()) {
        let _ = pattern_given(alloc, given)?;
    }
    Ok(())
}

/// The condition of an option.
fn having_by(alloc: Global, given: &Given) -> Result<HavingFields, Fault>
    ensures means { IfOk result (IsHavingBy given.now) }
    ensures good { IfOk result (λ _. AreGoodPatterns (patterns_given given.now)) }
    ensures refused { IfErr result (IfRefused (IsFirstRefused (patterns_given given.now))) }
{
    if is_pattern_option(given.name.as_slice()) {
        return matching_by(alloc, given);
    }
    let names = names_in(alloc, argument_of(given))?;
    Ok(having_names(given.name.as_slice(), names))
}

/// The condition of an option whose word is a pattern.
fn matching_by(alloc: Global, given: &Given) -> Result<HavingFields, Fault>
    ensures means { IfOk result (IsMatchingBy given.now) }
    ensures good { IfOk result (λ _. AreGoodPatterns (pattern_given given.now ∷ [])) }
    ensures refused { IfErr result (IfRefused (IsFirstRefused (pattern_given given.now ∷ []))) }
{
    let pattern = pattern_given(alloc, given)?;
    if given.name.as_slice() == b"--all-matching".as_slice() {
        Ok(HavingFields::AllMatching(pattern))
    } else {
        Ok(HavingFields::AnyMatching(pattern))
    }
}

/// The pattern in the word after an option, compiled.
#[tactic(auto, using(crate::proofs::Refusing::only_refused))]
fn pattern_given(alloc: Global, given: &Given) -> Result<Arc<Pattern>, Fault>
    ensures compiled { IfOk result (λ pattern. IsCompiled (pattern_given given.now)
        (arc_value pattern)) }
    ensures good { IfOk result (λ _. AreGoodPatterns (pattern_given given.now ∷ [])) }
    ensures refused { IfErr result (IfRefused (IsFirstRefused (pattern_given given.now ∷ []))) }
{
    let word = argument_of(given);
    match pattern_of(alloc, following(given.number), false, word) {
        Ok(pattern) => Ok(pattern),
        Err(fault) => Err(fault),
    }
}

/// Whether the word after the option with this name is a pattern.
fn is_pattern_option(name: &[u8]) -> bool
    ensures { result ≡ is_pattern_option name.now }
{
    name == b"--all-matching".as_slice() || name == b"--any-matching".as_slice()
}

/// The condition of the option with this name, by names.
fn having_names(name: &[u8], names: Names) -> HavingFields
    ensures { result ≡ having_names name.now names }
{
    if name == b"--at-most".as_slice() {
        HavingFields::AtMost(names)
    } else if name == b"--which-are".as_slice() {
        HavingFields::WhichAre(names)
    } else if name == b"--all-defined".as_slice() {
        HavingFields::AllDefined(names)
    } else if name == b"--any-defined".as_slice() {
        HavingFields::AnyDefined(names)
    } else {
        HavingFields::AtLeast(names)
    }
}
