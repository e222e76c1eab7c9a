//! The options of `grep`.
ghost use Rattle.std.specs.Prelude.{IfErr, IfOk};
ghost use Rattle.cli_verbs.specs.Faults.{IfRefused};
ghost use Rattle.cli_verbs.specs.Grep.{grep_patterns, IsGrepOf};
ghost use Rattle.cli_verbs.specs.PatternWords.{AreGoodPatterns, IsFirstRefused};

use crate::fault::Fault;
use crate::own_pattern::own_pattern;
use cli_grammar::VerbWords;
use std::alloc::Global;
use verbs_pattern::Grep;

/// The options of `grep`.
pub(crate) fn grep(alloc: Global, given: &VerbWords) -> Result<Grep, Fault>
    ensures means { IfOk result (IsGrepOf given.now) }
    ensures good { IfOk result (λ _. AreGoodPatterns (grep_patterns given.now)) }
    ensures refused { IfErr result (IfRefused (IsFirstRefused (grep_patterns given.now))) }
{
    let either_case = given.has(b"-i");
    let pattern = own_pattern(alloc, given, either_case)?;
    Ok(Grep {
        either_case,
        others: given.has(b"-v"),
        pattern,
    })
}
