//! The options of `rename`.
ghost use Rattle.std.specs.Prelude.{◌≡◌, ◌++◌, IfErr, IfOk, OnOk, false, [], ◌∷◌};
ghost use Rattle.std.specs.Arc.{arc_value};
ghost use Rattle.cli_verbs.specs.Faults.{IfRefused};
ghost use Rattle.cli_verbs.specs.Rename.{old_words, renamings_of, rename_patterns, by_patterns, compiled_rules, which_of, AreMoreRules, AreRulesOf, IsNextRule, IsRenameOf};
ghost use Rattle.cli_verbs.specs.PatternWords.{pattern_in, AreGoodPatterns, IsFirstRefused, IsGoodPattern, IsRefusedPattern};

use crate::fault::Fault;
use crate::pattern::pattern_of;
use cli_choices::all_names;
use cli_grammar::VerbWords;
use mlr_pattern::{Pattern, Which};
use mlr_spec::NoMemory;
use mlr_value::Bytes;
use std::alloc::Global;
use std::sync::Arc;
use verbs_fields::Renaming;
use verbs_pattern::{Rename, RenamePatterns};

/// The options of `rename`.
pub(crate) fn rename(alloc: Global, given: &VerbWords) -> Result<Rename, Fault>
    ensures means { IfOk result (IsRenameOf given.now) }
    ensures good { IfOk result (λ _. AreGoodPatterns (rename_patterns given.now)) }
    ensures refused { IfErr result (IfRefused (IsFirstRefused (rename_patterns given.now))) }
{
    let names = all_names(alloc, given.word(0))?;
    if by_patterns(given) {
        let pairs = rules_of(alloc, given.own, names.as_slice())?;
        let which = which_of(given);
        return Ok(Rename::Patterns(RenamePatterns { pairs, which }));
    }
    Ok(Rename::Names(renamings_of(alloc, names.as_slice())?))
}

/// Whether the old names are patterns.
fn by_patterns(given: &VerbWords) -> bool
    ensures { result ≡ by_patterns given.now }
{
    given.has(b"-r") || given.has(b"-g")
}

/// Which matches are replaced.
fn which_of(given: &VerbWords) -> Which
    ensures { result ≡ which_of given.now }
{
    if given.has(b"-g") {
        Which::All
    } else {
        Which::First
    }
}

/// The renamings by these names, taken two by two.
fn renamings_of(alloc: Global, names: &[Bytes]) -> Result<Vec<Renaming>, NoMemory>
    ensures { IfOk result (λ renamings. renamings.items ≡ renamings_of names.now) }
{
    let mut renamings = Vec::new(alloc);
    push_renamings(names, &mut renamings)?;
    Ok(renamings)
}

/// Appends the renamings by these names, taken two by two.
fn push_renamings(names: &[Bytes], renamings: &mut Vec<Renaming>) -> Result<(), NoMemory>
    ensures { OnOk result (renamings.new.items ≡ renamings.old.items ++ renamings_of names.now) }
{
    let mut left = names;
    while let [old, new, rest @ ..] = left {
        push_renaming(old, new, renamings)?;
        left = rest;
    }
    Ok(())
}

fn push_renaming(old: &Bytes, new: &Bytes, renamings: &mut Vec<Renaming>) -> Result<(), NoMemory>
    ensures { OnOk result (renamings.new.items ≡ renamings.old.items
        ++ (record { old = old.now; new = new.now }) ∷ []) }
{
    renamings.push(Renaming {
        old: old.copy()?,
        new: new.copy()?,
    })?;
    Ok(())
}

/// The rules by these names, taken two by two. The first old name that can't be read is refused.
fn rules_of(
    alloc: Global,
    number: usize,
    names: &[Bytes],
) -> Result<Vec<(Arc<Pattern>, Bytes)>, Fault>
    ensures means { IfOk result (λ rules. AreRulesOf number names.now
        (compiled_rules rules.items)) }
    ensures good { IfOk result (λ _. AreGoodPatterns (old_words number names.now)) }
    ensures refused { IfErr result (IfRefused (IsFirstRefused (old_words number names.now))) }
{
    let mut rules = Vec::new(alloc);
    push_rules(alloc, number, names, &mut rules)?;
    Ok(rules)
}

/// Appends the rules by these names, taken two by two.
fn push_rules(
    alloc: Global,
    number: usize,
    names: &[Bytes],
    rules: &mut Vec<(Arc<Pattern>, Bytes)>,
) -> Result<(), Fault>
    ensures means { OnOk result (AreMoreRules number names.now
        (compiled_rules rules.old.items) (compiled_rules rules.new.items)) }
    ensures good { IfOk result (λ _. AreGoodPatterns (old_words number names.now)) }
    ensures refused { IfErr result (IfRefused (IsFirstRefused (old_words number names.now))) }
{
    let mut left = names;
    while let [old, new, rest @ ..] = left {
        push_rule(alloc, number, old, new, rules)?;
        left = rest;
    }
    Ok(())
}

/// Appends the rule of two names.
fn push_rule(
    alloc: Global,
    number: usize,
    old: &Bytes,
    new: &Bytes,
    rules: &mut Vec<(Arc<Pattern>, Bytes)>,
) -> Result<(), Fault>
    ensures means { OnOk result (IsNextRule (pattern_in number false old.now) new.now
        (compiled_rules rules.old.items) (compiled_rules rules.new.items)) }
    ensures good { IfOk result (λ _. IsGoodPattern (pattern_in number false old.now)) }
    ensures refused { IfErr result (IfRefused (IsRefusedPattern
        (pattern_in number false old.now))) }
{
    let pattern = pattern_of(alloc, number, false, old.as_slice())?;
    push_pair(pattern, new, rules)?;
    Ok(())
}

/// Appends a pattern with the name that replaces its matches.
#[tactic(auto, using(crate::proofs::Ruling::rules_append))]
fn push_pair(
    pattern: Arc<Pattern>,
    new: &Bytes,
    rules: &mut Vec<(Arc<Pattern>, Bytes)>,
) -> Result<(), NoMemory>
    ensures { OnOk result (compiled_rules rules.new.items
        ≡ compiled_rules rules.old.items ++ (arc_value pattern, new.now) ∷ []) }
{
    rules.push((pattern, new.copy()?))?;
    Ok(())
}
