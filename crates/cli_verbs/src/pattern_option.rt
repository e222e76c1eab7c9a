//! The patterns of a verb whose option `-r` has names that are patterns.
ghost use Rattle.std.specs.Prelude.{[], List, IfErr, IfOk};
ghost use Rattle.mlr_pattern.specs.Several.{patterns_in};
ghost use Rattle.cli_verbs.specs.Compiled.{AreCompiled};
ghost use Rattle.cli_verbs.specs.Faults.{IfRefused};
ghost use Rattle.cli_verbs.specs.PatternOption.{last_patterns, later_patterns, named_patterns, option_patterns, patterns_among, patterns_given};
ghost use Rattle.cli_verbs.specs.PatternWords.{AreGoodPatterns, IsFirstRefused, PatternWord as SpecPatternWord};

use crate::fault::Fault;
use crate::pattern::patterns_of_names;
use cli_choices::{argument_of, following, names_in};
use cli_grammar::{Given, VerbWords};
use mlr_pattern::Patterns;
use std::alloc::Global;

/// Compiles the patterns so far of a verb with `-r` whose words aren't all there.
pub(crate) fn check_option(alloc: Global, given: &VerbWords) -> Result<(), Fault>
    ensures good { IfOk result (λ _. AreGoodPatterns (option_patterns given.now)) }
    ensures refused { IfErr result (IfRefused (IsFirstRefused (option_patterns given.now))) }
{
    let _ = last_patterns(alloc, given.options.as_slice())?;
    Ok(())
}

/// The patterns of the last `-r`, compiled. The first of any `-r` that can't be read is refused.
pub(crate) fn last_patterns(alloc: Global, options: &[Given]) -> Result<Patterns, Fault>
    ensures compiled { IfOk result (λ patterns. AreCompiled (last_patterns [] options.now)
        (patterns_in patterns)) }
    ensures good { IfOk result (λ _. AreGoodPatterns (patterns_among options.now)) }
    ensures refused { IfErr result (IfRefused (IsFirstRefused (patterns_among options.now))) }
{
    let mut patterns = Patterns::new(alloc);
    for given in options {
        patterns = later_patterns(alloc, given, patterns)?;
    }
    Ok(patterns)
}

/// The patterns of an option, compiled, or else those before.
fn later_patterns(alloc: Global, given: &Given, before: Patterns) -> Result<Patterns, Fault>
    ensures compiled { IfOk result (λ patterns. (words : List SpecPatternWord)
        → AreCompiled words (patterns_in before)
        → AreCompiled (later_patterns words given.now) (patterns_in patterns)) }
    ensures good { IfOk result (λ _. AreGoodPatterns (patterns_given given.now)) }
    ensures refused { IfErr result (IfRefused (IsFirstRefused (patterns_given given.now))) }
{
    if given.name.as_slice() == b"-r".as_slice() {
        named_patterns(alloc, given)
    } else {
        Ok(before)
    }
}

/// The names after `-r` as patterns, compiled.
fn named_patterns(alloc: Global, given: &Given) -> Result<Patterns, Fault>
    ensures compiled { IfOk result (λ patterns. AreCompiled (named_patterns given.now)
        (patterns_in patterns)) }
    ensures good { IfOk result (λ _. AreGoodPatterns (named_patterns given.now)) }
    ensures refused { IfErr result (IfRefused (IsFirstRefused (named_patterns given.now))) }
{
    let names = names_in(alloc, argument_of(given))?;
    patterns_of_names(alloc, following(given.number), names.as_slice())
}
