//! Reads the words of a command line, one after another.
ghost use Rattle.std.specs.Prelude.{◌≡◌, IfOk, None, drop, map};
ghost use Rattle.std.specs.List.{list_all, list_any};
ghost use Rattle.cli_grammar.specs.Options.{has};
ghost use Rattle.cli_grammar.specs.Reading.{accepted, after, after_all_options, after_flag, after_flag_name, after_flags, after_name, after_option, after_options, after_then, after_words, at_end, at_verb_end, ended, first_word, fulfils, has_required, is_complete, is_dashed, kind_in, lacks_words, line_in, missing, name_at, refused, with_argument, with_option, with_word};

use crate::flag_table::flag_named;
use crate::given::{Given, VerbWords};
use crate::kind::Kind;
use crate::verb_table::{Group, OptionRow, verb_named};
use mlr_event::{Names, Refusal, Why};
use mlr_list::List;
use mlr_spec::NoMemory;
use mlr_tables::verbs;
use mlr_value::Bytes;
use std::alloc::Global;

/// A command line, as far as its words could be read.
#[derive(Drop)]
pub struct Line {
    /// The main flags, in their order.
    pub flags: List<Given>,
    /// The verbs that are complete, in their order.
    pub verbs: List<VerbWords>,
    /// The verb that isn't complete, where the words are refused within one.
    pub partial: Option<VerbWords>,
    /// The file names.
    pub names: Names,
    /// Why the words are no command line, if they are none.
    pub refusal: Option<Refusal>,
}

/// What may follow the words that were read.
#[derive(Drop)]
enum Place {
    /// A flag, or the first verb.
    Flags,
    /// The argument of this flag.
    FlagArgument(Given, Kind),
    /// A verb.
    Verb,
    /// An option of this verb, or what comes after its options.
    Options(VerbWords),
    /// The argument of this option of this verb.
    Argument(VerbWords, Given, Kind),
    /// A word of this verb's own, or what comes after them.
    Words(VerbWords),
}

/// What the next word is.
#[derive(Drop)]
enum Next {
    /// A part of what is being read.
    Goes(Place),
    /// The last word of this flag.
    Flag(Given),
    /// `then`, after this verb.
    Then(VerbWords),
    /// The first file name, after this verb.
    Names(VerbWords),
    /// It is refused; this verb isn't complete.
    Refused(Option<VerbWords>, Refusal),
}

/// Whether a word looks like an option.
fn is_dashed(word: &[u8]) -> bool
    ensures { result ≡ is_dashed word.now }
{
    word.first() == Some(&b'-')
}

/// The kind of the word after an option.
fn kind_in(options: &[OptionRow], word: &[u8]) -> Option<Kind>
    ensures { result ≡ kind_in (map (λ option. (option.0.now, option.1)) options.now) word.now }
{
    for option in options {
        if option.0 == word {
            return Some(option.1);
        }
    }
    None
}

/// Whether a verb has the options that it must have.
fn has_required(verb: &VerbWords) -> bool
    ensures { result ≡ has_required verb.now }
{
    fulfils_all(verb.verb.row().groups, verb)
}

/// Whether one of each of these groups was given that must be.
fn fulfils_all(groups: &[Group], verb: &VerbWords) -> bool
    ensures { result ≡ list_all (fulfils verb.now.options)
        (map (λ group. (map (λ name. name.now) group.0.now, group.1)) groups.now) }
{
    for group in groups {
        if group.1 && !has_one(group.0, verb) {
            return false;
        }
    }
    true
}

/// Whether one of these options was given.
fn has_one(names: &[&[u8]], verb: &VerbWords) -> bool
    ensures { result ≡ list_any (λ name. has name verb.now.options)
        (map (λ name. name.now) names.now) }
{
    for name in names {
        if verb.has(name) {
            return true;
        }
    }
    false
}

fn refusal(number: usize, why: Why) -> Refusal
    ensures { result ≡ (record { word = number; why = why }) }
{
    Refusal {
        word: number as u64,
        why,
    }
}

/// Words that are refused outside a verb.
fn refused_here(number: usize, why: Why) -> Next
    ensures { result ≡ Next.Refused None (record { word = number; why = why }) }
{
    Next::Refused(None, refusal(number, why))
}

/// What a word is where a verb must follow.
fn after_then(alloc: Global, number: usize, word: &[u8]) -> Next
    ensures { result ≡ after_then number word.now }
{
    if let Some(verb) = verb_named(word) {
        return Next::Goes(Place::Options(VerbWords {
            verb,
            number,
            options: List::new(alloc),
            own: 0,
            words: Names::new(alloc),
        }));
    }
    match verbs().find(word) {
        Some(_) => refused_here(number, Why::NotBuilt),
        None => refused_here(number, Why::UnknownVerb),
    }
}

/// The name of a flag or an option, without its argument.
fn name_at(alloc: Global, number: usize, word: &[u8]) -> Result<Given, NoMemory>
    ensures { IfOk result (λ given. given ≡ name_at number word.now) }
{
    Ok(Given {
        number,
        name: Bytes::copy_of(alloc, word)?,
        argument: None,
    })
}

/// A flag or an option with its argument.
fn with_argument(alloc: Global, given: Given, word: &[u8]) -> Result<Given, NoMemory>
    ensures { IfOk result (λ whole. whole ≡ with_argument given word.now) }
{
    let argument = Some(Bytes::copy_of(alloc, word)?);
    Ok(Given {
        number: given.number,
        name: given.name,
        argument,
    })
}

/// The name of a flag, after which a word of this kind follows.
fn after_flag_name(flag: Given, kind: Kind) -> Next
    ensures { result ≡ after_flag_name flag kind }
{
    match kind {
        Kind::Nothing => Next::Flag(flag),
        kind => Next::Goes(Place::FlagArgument(flag, kind)),
    }
}

/// What a word is where a flag or the first verb must follow.
fn after_flags(alloc: Global, number: usize, word: &[u8]) -> Result<Next, NoMemory>
    ensures { IfOk result (λ next. next ≡ after_flags number word.now) }
{
    match flag_named(word) {
        Some((kind, _)) => Ok(after_flag_name(name_at(alloc, number, word)?, kind)),
        None if is_dashed(word) => Ok(refused_here(number, Why::UnknownFlag)),
        None => Ok(after_then(alloc, number, word)),
    }
}

/// What the argument of a flag is.
fn after_flag(
    alloc: Global,
    flag: Given,
    kind: Kind,
    number: usize,
    word: &[u8],
) -> Result<Next, NoMemory>
    ensures { IfOk result (λ next. next ≡ after_flag flag kind number word.now) }
{
    match kind.fault_of(word) {
        Some(why) => Ok(refused_here(number, why)),
        None => Ok(Next::Flag(with_argument(alloc, flag, word)?)),
    }
}

/// What a word is after a verb that is complete.
fn ended(verb: VerbWords, word: &[u8]) -> Next
    ensures { result ≡ ended verb word.now }
{
    if word == b"then".as_slice() {
        Next::Then(verb)
    } else {
        Next::Names(verb)
    }
}

/// A verb with one more option.
fn with_option(verb: VerbWords, option: Given) -> Result<VerbWords, NoMemory>
    ensures { IfOk result (λ more. more ≡ with_option verb option) }
{
    let mut verb = verb;
    verb.options.push(option)?;
    Ok(verb)
}

/// A verb with one more word of its own.
fn with_word(alloc: Global, verb: VerbWords, word: &[u8]) -> Result<VerbWords, NoMemory>
    ensures { IfOk result (λ more. more ≡ with_word verb word.now) }
{
    let mut verb = verb;
    verb.words.push(Bytes::copy_of(alloc, word)?)?;
    Ok(verb)
}

/// A verb whose options or words aren't all there.
fn missing(verb: &VerbWords) -> Refusal
    ensures { result ≡ missing verb.now }
{
    refusal(verb.number, Why::MissingArgument)
}

/// Whether a verb has fewer words of its own than its row says.
fn lacks_words(verb: &VerbWords) -> bool
    ensures { result ≡ lacks_words verb.now }
{
    verb.words.len() < verb.verb.row().words.len()
}

/// What a word is after the options of a verb.
fn after_all_options(
    alloc: Global,
    verb: VerbWords,
    number: usize,
    word: &[u8],
) -> Result<Next, NoMemory>
    ensures { IfOk result (λ next. next ≡ after_all_options verb number word.now) }
{
    if !has_required(&verb) {
        let why = missing(&verb);
        return Ok(Next::Refused(Some(verb), why));
    }
    if !lacks_words(&verb) {
        return Ok(ended(verb, word));
    }
    Ok(Next::Goes(Place::Words(first_word(alloc, verb, number, word)?)))
}

/// A verb with the first of its own words, which has this number.
fn first_word(
    alloc: Global,
    verb: VerbWords,
    number: usize,
    word: &[u8],
) -> Result<VerbWords, NoMemory>
    ensures { IfOk result (λ more. more ≡ first_word verb number word.now) }
{
    let mut verb = verb;
    verb.own = number;
    with_word(alloc, verb, word)
}

/// What a word is where an option of a verb may follow.
fn after_options(
    alloc: Global,
    verb: VerbWords,
    number: usize,
    word: &[u8],
) -> Result<Next, NoMemory>
    ensures { IfOk result (λ next. next ≡ after_options verb number word.now) }
{
    match kind_in(verb.verb.row().options, word) {
        Some(kind) => after_name(verb, name_at(alloc, number, word)?, kind),
        None if is_dashed(word) => {
            let why = refusal(number, Why::UnknownFlag);
            Ok(Next::Refused(Some(verb), why))
        }
        None => after_all_options(alloc, verb, number, word),
    }
}

/// The name of an option, after which a word of this kind follows.
fn after_name(verb: VerbWords, option: Given, kind: Kind) -> Result<Next, NoMemory>
    ensures { IfOk result (λ next. next ≡ after_name verb option kind) }
{
    match kind {
        Kind::Nothing => Ok(Next::Goes(Place::Options(with_option(verb, option)?))),
        kind => Ok(Next::Goes(Place::Argument(verb, option, kind))),
    }
}

/// What the argument of an option is.
fn after_option(
    alloc: Global,
    verb: VerbWords,
    option: Given,
    kind: Kind,
    number: usize,
    word: &[u8],
) -> Result<Next, NoMemory>
    ensures { IfOk result (λ next. next ≡ after_option verb option kind number word.now) }
{
    if let Some(why) = kind.fault_of(word) {
        return Ok(Next::Refused(Some(verb), refusal(number, why)));
    }
    let option = with_argument(alloc, option, word)?;
    Ok(Next::Goes(Place::Options(with_option(verb, option)?)))
}

/// What a word is where a word of a verb's own may follow.
fn after_words(alloc: Global, verb: VerbWords, word: &[u8]) -> Result<Next, NoMemory>
    ensures { IfOk result (λ next. next ≡ after_words verb word.now) }
{
    if lacks_words(&verb) {
        return Ok(Next::Goes(Place::Words(with_word(alloc, verb, word)?)));
    }
    Ok(ended(verb, word))
}

/// What the next word is, which has this number.
fn after(alloc: Global, place: Place, number: usize, word: &[u8]) -> Result<Next, NoMemory>
    ensures { IfOk result (λ next. next ≡ after place number word.now) }
{
    match place {
        Place::Flags => after_flags(alloc, number, word),
        Place::FlagArgument(flag, kind) => after_flag(alloc, flag, kind, number, word),
        Place::Verb => Ok(after_then(alloc, number, word)),
        Place::Options(verb) => after_options(alloc, verb, number, word),
        Place::Argument(verb, option, kind) => {
            after_option(alloc, verb, option, kind, number, word)
        }
        Place::Words(verb) => after_words(alloc, verb, word),
    }
}

/// Reads a command line: main flags, verbs with their options and words, and file names.
pub fn line_of(alloc: Global, words: &[Bytes]) -> Result<Line, NoMemory>
    ensures { IfOk result (λ line. line ≡ line_in words.now) }
{
    let mut flags = List::new(alloc);
    let mut verbs = List::new(alloc);
    let mut place = Place::Flags;
    for (before, word) in words.iter().enumerate() {
        match after(alloc, place, before + 1, word.as_slice())? {
            Next::Goes(to) => place = to,
            Next::Flag(flag) => {
                flags.push(flag)?;
                place = Place::Flags;
            }
            Next::Then(verb) => {
                verbs.push(verb)?;
                place = Place::Verb;
            }
            Next::Names(verb) => {
                verbs.push(verb)?;
                return accepted(alloc, flags, verbs, words_after(words, before));
            }
            Next::Refused(partial, why) => return Ok(refused(alloc, flags, verbs, partial, why)),
        }
    }
    at_end(alloc, words.len() + 1, flags, verbs, place)
}

/// The words after this many.
fn words_after(words: &[Bytes], count: usize) -> &[Bytes]
    ensures { result.now ≡ drop count words.now }
{
    words.get(count..).unwrap_or(&[])
}

/// A command line with these file names.
fn accepted(
    alloc: Global,
    flags: List<Given>,
    verbs: List<VerbWords>,
    names: &[Bytes],
) -> Result<Line, NoMemory>
    ensures { IfOk result (λ line. line ≡ accepted flags verbs names.now) }
{
    Ok(Line {
        flags,
        verbs,
        partial: None,
        names: copy_of(alloc, names)?,
        refusal: None,
    })
}

fn copy_of(alloc: Global, names: &[Bytes]) -> Result<Names, NoMemory>
    ensures { IfOk result (λ copies. copies ≡ names.now) }
{
    let mut copies = Names::new(alloc);
    for name in names {
        copies.push(Bytes::copy_of(alloc, name.as_slice())?)?;
    }
    Ok(copies)
}

/// Words that are refused.
fn refused(
    alloc: Global,
    flags: List<Given>,
    verbs: List<VerbWords>,
    partial: Option<VerbWords>,
    why: Refusal,
) -> Line
    ensures { result ≡ refused flags verbs partial why }
{
    Line {
        flags,
        verbs,
        partial,
        names: Names::new(alloc),
        refusal: Some(why),
    }
}

/// The line if the words end after a word of this verb.
fn at_verb_end(
    alloc: Global,
    flags: List<Given>,
    verbs: List<VerbWords>,
    verb: VerbWords,
) -> Result<Line, NoMemory>
    ensures { IfOk result (λ line. line ≡ at_verb_end flags verbs verb) }
{
    if !is_complete(&verb) {
        let why = missing(&verb);
        return Ok(refused(alloc, flags, verbs, Some(verb), why));
    }
    let mut verbs = verbs;
    verbs.push(verb)?;
    accepted(alloc, flags, verbs, &[])
}

/// Whether a verb has the options that it must have, and its own words.
fn is_complete(verb: &VerbWords) -> bool
    ensures { result ≡ is_complete verb.now }
{
    has_required(verb) && !lacks_words(verb)
}

/// The line if the words end here, where the next would have this number.
fn at_end(
    alloc: Global,
    number: usize,
    flags: List<Given>,
    verbs: List<VerbWords>,
    place: Place,
) -> Result<Line, NoMemory>
    ensures { IfOk result (λ line. line ≡ at_end number flags verbs place) }
{
    let (partial, number, why) = match place {
        Place::Options(verb) | Place::Words(verb) => return at_verb_end(alloc, flags, verbs, verb),
        Place::Flags | Place::Verb => (None, number, Why::NoVerb),
        Place::FlagArgument(flag, _) => (None, flag.number, Why::MissingArgument),
        Place::Argument(verb, option, _) => (Some(verb), option.number, Why::MissingArgument),
    };
    Ok(refused(alloc, flags, verbs, partial, refusal(number, why)))
}
