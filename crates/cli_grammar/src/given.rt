//! Flags, options and verbs, as words give them.
ghost use Rattle.std.specs.Prelude.{◌≡◌, slice_index_or, []};
ghost use Rattle.std.specs.Option.{option_map};
ghost use Rattle.cli_grammar.specs.Options.{has, last};

use crate::verb_table::VerbName;
use mlr_event::Names;
use mlr_list::List;
use mlr_value::Bytes;

/// A flag or an option, as words give it.
#[derive(Drop)]
pub struct Given {
    /// The number of its word, counted from 1.
    pub number: usize,
    pub name: Bytes,
    /// The word after it, where one belongs to it.
    pub argument: Option<Bytes>,
}

/// A verb, as words give it.
pub struct VerbWords {
    pub verb: VerbName,
    /// The number of its word, counted from 1.
    pub number: usize,
    pub options: List<Given>,
    /// The number of the first of its own words, counted from 1; 0 where there are none.
    pub own: usize,
    /// The words of its own, after the options.
    pub words: Names,
}

// Written by hand, so that the crates above call it instead of dropping the fields themselves.
impl Drop for VerbWords {
    fn drop(self) {
        let VerbWords {
            verb: _,
            number: _,
            options,
            own: _,
            words,
        } = self;
        drop(options);
        drop(words);
    }
}

impl VerbWords {
    /// Whether an option was given.
    pub fn has(&self, option: &[u8]) -> bool
        ensures { result ≡ has option.now self.now.options }
    {
        has_in(self.options.as_slice(), option)
    }

    /// The word after the last option with this name.
    pub fn last(&self, option: &[u8]) -> Option<&[u8]>
        ensures { option_map (λ word. word.now) result ≡ last option.now self.now.options }
    {
        last_in(self.options.as_slice(), option)
    }

    /// The word of its own at this place, which counts from 0; the empty word where there is none.
    pub fn word(&self, place: usize) -> &[u8]
        ensures { result.now ≡ slice_index_or self.now.words place [] }
    {
        word_at(self.words.as_slice(), place)
    }
}

/// Whether one of these options has this name.
fn has_in(options: &[Given], name: &[u8]) -> bool
    ensures { result ≡ has name.now options.now }
{
    options.iter().any(|given| given.name.as_slice() == name)
}

/// The word after the last of these options with this name.
fn last_in<'a>(options: &'a [Given], name: &[u8]) -> Option<&'a [u8]>
    ensures { option_map (λ word. word.now) result ≡ last name.now options.now }
{
    let mut argument = None;
    for given in options {
        if given.name.as_slice() == name {
            argument = word_of(given);
        }
    }
    argument
}

/// The word after an option, where one belongs to it.
fn word_of(given: &Given) -> Option<&[u8]>
    ensures { option_map (λ word. word.now) result ≡ given.now.argument }
{
    match &given.argument {
        Some(word) => Some(word.as_slice()),
        None => None,
    }
}

/// The word at a place, which counts from 0; the empty word where there is none.
fn word_at(words: &[Bytes], place: usize) -> &[u8]
    ensures { result.now ≡ slice_index_or words.now place [] }
{
    match words.get(place) {
        Some(word) => word.as_slice(),
        None => &[],
    }
}
