//! Compiles the text of a pattern.
ghost use Rattle.std.specs.Prelude.{◌≡◌, ◌≤◌, IfOk, IfErr};
ghost use Rattle.regex.specs.Bytes.{regex_source, regex_config, IsReadFromSource};
ghost use Rattle.mlr_pattern.specs.Weight.{weight};
ghost use Rattle.mlr_pattern.specs.Reading.{options, IsPatternText};

use crate::Pattern;
use crate::weight::is_heavy;
use regex::RegexBuilder;
use std::alloc::Global;

/// Why a text gives no pattern.
#[derive(Clone, Copy, Debug, PartialEq, Eq)]
pub enum PatternFault {
    /// The text isn't a pattern, or is one that is nested too deep.
    Bad,
    /// The pattern is too large, and its weight is 1,000 or more.
    TooLarge,
    /// Memory ran out. A pattern of a lower weight that is too large gives this too.
    NoMemory,
}

/// Compiles a pattern, which is UTF-8 and may match any bytes. With `either_case` it ignores the case of
/// letters.
pub fn read_pattern(alloc: Global, text: &[u8], either_case: bool) -> Result<Pattern, PatternFault>
    ensures source { IfOk result (λ pattern. regex_source pattern ≡ text.now) }
    ensures config { IfOk result (λ pattern. regex_config pattern ≡ options either_case) }
    ensures read { IfOk result IsReadFromSource }
    ensures good { IfOk result (λ _. IsPatternText either_case text.now) }
    ensures bad { IfErr result (λ fault. fault ≡ PatternFault.Bad
        → ¬ (IsPatternText either_case text.now)) }
    ensures large { IfErr result (λ fault. fault ≡ PatternFault.TooLarge →
        IsPatternText either_case text.now × (1000 ≤ weight text.now)) }
{
    let Ok(source) = str::from_utf8(text) else {
        return Err(PatternFault::Bad);
    };
    let builder = RegexBuilder::new(source).case_insensitive(either_case);
    match builder.build_bytes(alloc) {
        Ok(pattern) => Ok(pattern),
        Err(regex::Error::Syntax(_)) => Err(PatternFault::Bad),
        Err(regex::Error::CompiledTooBig) if is_heavy(text) => Err(PatternFault::TooLarge),
        Err(_) => Err(PatternFault::NoMemory),
    }
}
