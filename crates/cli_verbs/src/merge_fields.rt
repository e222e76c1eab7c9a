//! The options of `merge-fields`.
ghost use Rattle.std.specs.Prelude.{IfErr, IfOk};
ghost use Rattle.cli_verbs.specs.Faults.{IfRefused};
ghost use Rattle.cli_verbs.specs.MergeFields.{AreMergeInputsOf, IsMergeFieldsOf};
ghost use Rattle.cli_verbs.specs.PatternOption.{option_patterns};
ghost use Rattle.cli_verbs.specs.PatternWords.{AreGoodPatterns, IsFirstRefused};

use crate::fault::Fault;
use crate::pattern_option::last_patterns;
use cli_choices::{names_after, text_or};
use cli_grammar::VerbWords;
use cli_stat::accumulators_after;
use std::alloc::Global;
use verbs_summary::{MergeFields, MergeInputs};

/// The options of `merge-fields`.
pub(crate) fn merge_fields(alloc: Global, given: &VerbWords) -> Result<MergeFields, Fault>
    ensures means { IfOk result (IsMergeFieldsOf given.now) }
    ensures good { IfOk result (λ _. AreGoodPatterns (option_patterns given.now)) }
    ensures refused { IfErr result (IfRefused (IsFirstRefused (option_patterns given.now))) }
{
    let inputs = merge_inputs(alloc, given)?;
    Ok(MergeFields {
        accumulators: accumulators_after(alloc, given)?,
        inputs,
        output: text_or(alloc, given, b"-o", b"name")?,
        keep: given.has(b"-k"),
    })
}

/// The fields whose values are taken.
fn merge_inputs(alloc: Global, given: &VerbWords) -> Result<MergeInputs, Fault>
    ensures means { IfOk result (AreMergeInputsOf given.now) }
    ensures good { IfOk result (λ _. AreGoodPatterns (option_patterns given.now)) }
    ensures refused { IfErr result (IfRefused (IsFirstRefused (option_patterns given.now))) }
{
    let patterns = last_patterns(alloc, given.options.as_slice())?;
    if given.has(b"-r") {
        return Ok(MergeInputs::Patterns(patterns));
    }
    if given.has(b"-c") {
        return Ok(MergeInputs::Texts(names_after(alloc, given, b"-c")?));
    }
    Ok(MergeInputs::Names(names_after(alloc, given, b"-f")?))
}
