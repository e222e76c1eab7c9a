//! The options of `reshape`.
ghost use Rattle.std.specs.Prelude.{◌≡◌, IfErr, IfOk};
ghost use Rattle.cli_verbs.specs.Faults.{IfRefused};
ghost use Rattle.cli_verbs.specs.PatternOption.{option_patterns};
ghost use Rattle.cli_verbs.specs.PatternWords.{AreGoodPatterns, IsFirstRefused};
ghost use Rattle.cli_verbs.specs.Reshape.{AreLongFieldsOf, IsReshapeOf, first_two, two_names};

use crate::fault::Fault;
use crate::pattern_option::last_patterns;
use cli_choices::{all_names, names_after, word_or};
use cli_grammar::VerbWords;
use mlr_spec::NoMemory;
use mlr_value::Bytes;
use std::alloc::Global;
use verbs_reshape::{LongFields, Reshape, ToLong, ToWide};

/// The options of `reshape`.
pub(crate) fn reshape(alloc: Global, given: &VerbWords) -> Result<Reshape, Fault>
    ensures means { IfOk result (IsReshapeOf given.now) }
    ensures good { IfOk result (λ _. AreGoodPatterns (option_patterns given.now)) }
    ensures refused { IfErr result (IfRefused (IsFirstRefused (option_patterns given.now))) }
{
    let fields = long_fields(alloc, given)?;
    if given.has(b"-s") {
        let (key, value) = two_names(alloc, word_or(given, b"-s", b""))?;
        return Ok(Reshape::Wide(ToWide { key, value }));
    }
    let (key, value) = two_names(alloc, word_or(given, b"-o", b""))?;
    Ok(Reshape::Long(ToLong { fields, key, value }))
}

/// The fields that are made long.
fn long_fields(alloc: Global, given: &VerbWords) -> Result<LongFields, Fault>
    ensures means { IfOk result (AreLongFieldsOf given.now) }
    ensures good { IfOk result (λ _. AreGoodPatterns (option_patterns given.now)) }
    ensures refused { IfErr result (IfRefused (IsFirstRefused (option_patterns given.now))) }
{
    let patterns = last_patterns(alloc, given.options.as_slice())?;
    if given.has(b"-r") {
        return Ok(LongFields::Patterns(patterns));
    }
    Ok(LongFields::Names(names_after(alloc, given, b"-i")?))
}

/// The two names in a word, of which one that is missing is empty.
fn two_names(alloc: Global, word: &[u8]) -> Result<(Bytes, Bytes), NoMemory>
    ensures { IfOk result (λ names. names ≡ two_names word.now) }
{
    let names = all_names(alloc, word)?;
    first_two(alloc, names.as_slice())
}

/// The first two of these names, of which one that is missing is empty.
fn first_two(alloc: Global, names: &[Bytes]) -> Result<(Bytes, Bytes), NoMemory>
    ensures { IfOk result (λ two. two ≡ first_two names.now) }
{
    match names {
        [key, value, ..] => Ok((key.copy()?, value.copy()?)),
        [key] => Ok((key.copy()?, Bytes::new(alloc))),
        [] => Ok((Bytes::new(alloc), Bytes::new(alloc))),
    }
}
