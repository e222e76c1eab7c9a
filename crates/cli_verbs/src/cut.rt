//! The options of `cut`.
ghost use Rattle.std.specs.Prelude.{IfErr, IfOk};
ghost use Rattle.cli_verbs.specs.Cut.{cut_patterns, name_patterns, AreCutFieldsOf, IsCutOf};
ghost use Rattle.mlr_pattern.specs.Several.{patterns_in};
ghost use Rattle.cli_verbs.specs.Compiled.{AreCompiled};
ghost use Rattle.cli_verbs.specs.Faults.{IfRefused};
ghost use Rattle.cli_verbs.specs.PatternWords.{AreGoodPatterns, IsFirstRefused};

use crate::fault::Fault;
use crate::pattern::patterns_of_names;
use cli_choices::{names_after, number_after};
use cli_grammar::VerbWords;
use mlr_pattern::Patterns;
use std::alloc::Global;
use verbs_pattern::{Cut, CutFields};

/// The options of `cut`.
pub(crate) fn cut(alloc: Global, given: &VerbWords) -> Result<Cut, Fault>
    ensures means { IfOk result (IsCutOf given.now) }
    ensures good { IfOk result (λ _. AreGoodPatterns (cut_patterns given.now)) }
    ensures refused { IfErr result (IfRefused (IsFirstRefused (cut_patterns given.now))) }
{
    let fields = cut_fields(alloc, given)?;
    Ok(Cut {
        fields,
        ordered: given.has(b"-o"),
        complement: given.has(b"-x"),
    })
}

/// The fields that are kept.
fn cut_fields(alloc: Global, given: &VerbWords) -> Result<CutFields, Fault>
    ensures means { IfOk result (AreCutFieldsOf given.now) }
    ensures good { IfOk result (λ _. AreGoodPatterns (cut_patterns given.now)) }
    ensures refused { IfErr result (IfRefused (IsFirstRefused (cut_patterns given.now))) }
{
    if given.has(b"-r") {
        let patterns = name_patterns(alloc, given)?;
        return Ok(CutFields::Patterns(patterns));
    }
    Ok(CutFields::Names(names_after(alloc, given, b"-f")?))
}

/// The names after `-f` as patterns, compiled.
fn name_patterns(alloc: Global, given: &VerbWords) -> Result<Patterns, Fault>
    ensures compiled { IfOk result (λ patterns. AreCompiled (name_patterns given.now)
        (patterns_in patterns)) }
    ensures good { IfOk result (λ _. AreGoodPatterns (name_patterns given.now)) }
    ensures refused { IfErr result (IfRefused (IsFirstRefused (name_patterns given.now))) }
{
    let names = names_after(alloc, given, b"-f")?;
    patterns_of_names(alloc, number_after(given, b"-f"), names.as_slice())
}
