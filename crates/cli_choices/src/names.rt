//! Lists of names in words.
ghost use Rattle.std.specs.Prelude.{◌≡◌, ◌++◌, ◌∷◌, [], IfOk, OnOk};
ghost use Rattle.cli_choices.specs.Names.{all_names, distinct_after, given_names, names_in};
ghost use Rattle.cli_choices.specs.Growing.{with_new};

use cli_grammar::VerbWords;
use mlr_event::Names;
use mlr_record::split::next_part;
use mlr_spec::NoMemory;
use mlr_value::Bytes;
use std::alloc::Global;

/// The names between the commas of a word.
pub fn all_names(alloc: Global, word: &[u8]) -> Result<Names, NoMemory>
    ensures { IfOk result (λ names. names ≡ all_names word.now) }
{
    let mut names = Names::new(alloc);
    push_all(alloc, word, &mut names)?;
    Ok(names)
}

/// Appends the names between the commas of a word.
fn push_all(alloc: Global, word: &[u8], names: &mut Names) -> Result<(), NoMemory>
    ensures { OnOk result (names.new ≡ names.old ++ all_names word.now) }
{
    let mut left = word;
    loop {
        let (name, rest) = next_part(b",", left);
        push_name(alloc, name, names)?;
        match rest {
            None => return Ok(()),
            Some(rest) => left = rest,
        }
    }
}

fn push_name(alloc: Global, name: &[u8], names: &mut Names) -> Result<(), NoMemory>
    ensures { OnOk result (names.new ≡ names.old ++ name.now ∷ []) }
{
    names.push(Bytes::copy_of(alloc, name)?)?;
    Ok(())
}

/// The names in a word, where a repeated name counts once.
pub fn names_in(alloc: Global, word: &[u8]) -> Result<Names, NoMemory>
    ensures { IfOk result (λ names. names ≡ names_in word.now) }
{
    let all = all_names(alloc, word)?;
    distinct(alloc, all.as_slice())
}

/// These names, where a repeated name counts once.
fn distinct(alloc: Global, all: &[Bytes]) -> Result<Names, NoMemory>
    ensures { IfOk result (λ names. names ≡ distinct_after [] all.now) }
{
    let mut names = Names::new(alloc);
    push_distinct(alloc, all, &mut names)?;
    Ok(names)
}

/// Appends the names that aren't there, each once.
fn push_distinct(alloc: Global, all: &[Bytes], names: &mut Names) -> Result<(), NoMemory>
    ensures { OnOk result (names.new ≡ names.old ++ distinct_after names.old all.now) }
{
    for name in all {
        push_new(alloc, name.as_slice(), names)?;
    }
    Ok(())
}

/// Appends a name, unless it is there.
fn push_new(alloc: Global, name: &[u8], names: &mut Names) -> Result<(), NoMemory>
    ensures { OnOk result (names.new ≡ with_new names.old name.now) }
{
    if names.has(name) {
        return Ok(());
    }
    push_name(alloc, name, names)
}

/// The names that an option gives, if it was given.
pub fn given_names(
    alloc: Global,
    given: &VerbWords,
    option: &[u8],
) -> Result<Option<Names>, NoMemory>
    ensures { IfOk result (λ names. names ≡ given_names option.now given.now.options) }
{
    match given.last(option) {
        Some(word) => Ok(Some(names_in(alloc, word)?)),
        None => Ok(None),
    }
}
