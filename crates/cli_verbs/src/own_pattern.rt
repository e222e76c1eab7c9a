//! The pattern in the first word of a verb's own.
ghost use Rattle.std.specs.Prelude.{IfErr, IfOk, [], ◌∷◌};
ghost use Rattle.std.specs.Arc.{arc_value};
ghost use Rattle.cli_verbs.specs.Compiled.{IsCompiled};
ghost use Rattle.cli_verbs.specs.Faults.{IfRefused};
ghost use Rattle.cli_verbs.specs.OwnPattern.{own_pattern};
ghost use Rattle.cli_verbs.specs.PatternWords.{AreGoodPatterns, IsFirstRefused};

use crate::fault::Fault;
use crate::pattern::pattern_of;
use cli_grammar::VerbWords;
use mlr_pattern::Pattern;
use std::alloc::Global;
use std::sync::Arc;

/// The pattern in the first word of a verb's own, compiled.
#[tactic(auto, using(crate::proofs::Refusing::only_refused))]
pub(crate) fn own_pattern(
    alloc: Global,
    given: &VerbWords,
    either_case: bool,
) -> Result<Arc<Pattern>, Fault>
    ensures compiled { IfOk result (λ pattern. IsCompiled (own_pattern either_case given.now)
        (arc_value pattern)) }
    ensures good { IfOk result (λ _. AreGoodPatterns (own_pattern either_case given.now ∷ [])) }
    ensures refused { IfErr result (IfRefused (IsFirstRefused
        (own_pattern either_case given.now ∷ []))) }
{
    match pattern_of(alloc, given.own, either_case, given.word(0)) {
        Ok(pattern) => Ok(pattern),
        Err(fault) => Err(fault),
    }
}
