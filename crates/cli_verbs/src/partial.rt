//! The patterns of a verb whose words aren't all there.
ghost use Rattle.std.specs.Prelude.{IfErr, IfOk};
ghost use Rattle.cli_verbs.specs.Faults.{IfRefused};
ghost use Rattle.cli_verbs.specs.PatternWords.{AreGoodPatterns, IsFirstRefused};
ghost use Rattle.cli_verbs.specs.Verbs.{own_so_far, patterns_so_far};

use crate::fault::Fault;
use crate::having_fields::check_patterns;
use crate::own_pattern::own_pattern;
use crate::pattern_option::check_option;
use cli_grammar::{VerbName, VerbWords};
use std::alloc::Global;

/// Compiles the patterns so far of a verb whose words aren't all there. The first that can't be
/// read is refused.
pub fn partial_fault(alloc: Global, given: &VerbWords) -> Result<(), Fault>
    ensures good { IfOk result (λ _. AreGoodPatterns (patterns_so_far given.now.verb given.now)) }
    ensures refused { IfErr result (IfRefused (IsFirstRefused
        (patterns_so_far given.now.verb given.now))) }
{
    match given.verb {
        VerbName::Grep => check_own(alloc, given, given.has(b"-i")),
        VerbName::Gsub | VerbName::Sub => check_own(alloc, given, false),
        VerbName::HavingFields => check_patterns(alloc, given.options.as_slice()),
        VerbName::MergeFields | VerbName::Reshape => check_option(alloc, given),
        _ => Ok(()),
    }
}

/// Compiles the pattern in the first word of a verb's own, if the word is there.
fn check_own(alloc: Global, given: &VerbWords, either_case: bool) -> Result<(), Fault>
    ensures good { IfOk result (λ _. AreGoodPatterns (own_so_far either_case given.now)) }
    ensures refused { IfErr result (IfRefused (IsFirstRefused
        (own_so_far either_case given.now))) }
{
    if given.words.len() == 0 {
        return Ok(());
    }
    let _ = own_pattern(alloc, given, either_case)?;
    Ok(())
}
