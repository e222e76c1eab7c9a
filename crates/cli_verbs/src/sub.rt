//! The options of `sub`.
ghost use Rattle.std.specs.Prelude.{IfErr, IfOk};
ghost use Rattle.cli_verbs.specs.Faults.{IfRefused};
ghost use Rattle.cli_verbs.specs.Sub.{IsSubOf};
ghost use Rattle.cli_verbs.specs.OwnPattern.{own_patterns};
ghost use Rattle.cli_verbs.specs.PatternWords.{AreGoodPatterns, IsFirstRefused};

use crate::fault::Fault;
use crate::own_pattern::own_pattern;
use crate::sub_fields::sub_fields;
use cli_grammar::VerbWords;
use mlr_value::Bytes;
use std::alloc::Global;
use verbs_pattern::Sub;

/// The options of `sub`.
pub(crate) fn sub(alloc: Global, given: &VerbWords) -> Result<Sub, Fault>
    ensures means { IfOk result (IsSubOf given.now) }
    ensures good { IfOk result (λ _. AreGoodPatterns (own_patterns given.now)) }
    ensures refused { IfErr result (IfRefused (IsFirstRefused (own_patterns given.now))) }
{
    let pattern = own_pattern(alloc, given, false)?;
    Ok(Sub {
        fields: sub_fields(alloc, given)?,
        pattern,
        by: Bytes::copy_of(alloc, given.word(1))?,
    })
}
