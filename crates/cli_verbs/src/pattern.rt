//! Patterns in words.
ghost use Rattle.std.specs.Prelude.{◌≡◌, ◌++◌, ◌∷◌, [], false, IfOk, IfErr, OnOk, map};
ghost use Rattle.std.specs.Arc.{arc_value};
ghost use Rattle.mlr_pattern.specs.Several.{patterns_in};
ghost use Rattle.regex.specs.Bytes.{regex_pattern};
ghost use Rattle.cli_verbs.specs.Compiled.{AreCompiled, AreMoreCompiled, IsCompiled, IsNextCompiled};
ghost use Rattle.cli_verbs.specs.Faults.{fault_of, refused, IfRefused};
ghost use Rattle.cli_verbs.specs.PatternWords.{pattern_in, IsGoodPattern, AreGoodPatterns, IsRefusedPattern, IsFirstRefused};

use crate::fault::Fault;
use mlr_event::{Refusal, Why};
use mlr_pattern::{Pattern, PatternFault, PatternWord, Patterns, pattern_word, read_pattern};
use mlr_spec::NoMemory;
use mlr_value::Bytes;
use std::alloc::Global;
use std::sync::Arc;

/// The pattern in the word with this number, compiled.
pub(crate) fn pattern_of(
    alloc: Global,
    number: usize,
    either_case: bool,
    word: &[u8],
) -> Result<Arc<Pattern>, Fault>
    ensures compiled { IfOk result (λ pattern. IsCompiled
        (pattern_in number either_case word.now) (arc_value pattern)) }
    ensures good { IfOk result (λ _. IsGoodPattern (pattern_in number either_case word.now)) }
    ensures refused { IfErr result (IfRefused (IsRefusedPattern
        (pattern_in number either_case word.now))) }
{
    let PatternWord {
        text,
        either_case: by_word,
    } = pattern_word(word);
    match read_pattern(alloc, text, either_case || by_word) {
        Ok(pattern) => shared(alloc, pattern),
        Err(fault) => Err(fault_of(number, fault)),
    }
}

/// A pattern in memory of its own.
fn shared(alloc: Global, pattern: Pattern) -> Result<Arc<Pattern>, Fault>
    ensures shared { IfOk result (λ shared. arc_value shared ≡ pattern) }
    ensures refused { IfErr result (IfRefused (λ _. ⊥)) }
{
    match Arc::new(alloc, pattern) {
        Ok(shared) => Ok(shared),
        Err(_) => Err(Fault::NoMemory),
    }
}

/// Why the word with this number gives no pattern.
fn fault_of(number: usize, fault: PatternFault) -> Fault
    ensures { result ≡ fault_of number fault }
{
    match fault {
        PatternFault::Bad => refused(number, Why::BadPattern),
        PatternFault::TooLarge => refused(number, Why::PatternSize),
        PatternFault::NoMemory => Fault::NoMemory,
    }
}

/// The word with this number is refused.
pub(crate) fn refused(number: usize, why: Why) -> Fault
    ensures { result ≡ refused number why }
{
    Fault::Refused(Refusal {
        word: number as u64,
        why,
    })
}

/// Names in the word with this number as patterns, compiled. The first that can't be read is
/// refused.
pub(crate) fn patterns_of_names(
    alloc: Global,
    number: usize,
    names: &[Bytes],
) -> Result<Patterns, Fault>
    ensures compiled { IfOk result (λ patterns. AreCompiled
        (map (pattern_in number false) names.now) (patterns_in patterns)) }
    ensures good { IfOk result (λ _. AreGoodPatterns (map (pattern_in number false) names.now)) }
    ensures refused { IfErr result (IfRefused (IsFirstRefused
        (map (pattern_in number false) names.now))) }
{
    let mut patterns = Patterns::new(alloc);
    push_patterns(alloc, number, names, &mut patterns)?;
    Ok(patterns)
}

/// Appends the patterns of names.
fn push_patterns(
    alloc: Global,
    number: usize,
    names: &[Bytes],
    patterns: &mut Patterns,
) -> Result<(), Fault>
    ensures compiled { OnOk result (AreMoreCompiled (map (pattern_in number false) names.now)
        (patterns_in patterns.old) (patterns_in patterns.new)) }
    ensures good { IfOk result (λ _. AreGoodPatterns (map (pattern_in number false) names.now)) }
    ensures refused { IfErr result (IfRefused (IsFirstRefused
        (map (pattern_in number false) names.now))) }
{
    for name in names {
        push_pattern(alloc, number, name.as_slice(), patterns)?;
    }
    Ok(())
}

/// Appends the pattern in the word with this number.
fn push_pattern(
    alloc: Global,
    number: usize,
    word: &[u8],
    patterns: &mut Patterns,
) -> Result<(), Fault>
    ensures compiled { OnOk result (IsNextCompiled (pattern_in number false word.now)
        (patterns_in patterns.old) (patterns_in patterns.new)) }
    ensures good { IfOk result (λ _. IsGoodPattern (pattern_in number false word.now)) }
    ensures refused { IfErr result (IfRefused (IsRefusedPattern
        (pattern_in number false word.now))) }
{
    let pattern = pattern_of(alloc, number, false, word)?;
    patterns.push(pattern)?;
    Ok(())
}
