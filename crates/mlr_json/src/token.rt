//! The tokens of a JSON text, one after another.
ghost use Rattle.std.specs.Prelude.{◌≡◌, ℕ, ◌-◌, ◌<◌, ◌≤◌, List, [], ◌∷◌, Bool, true, false, length, drop, IfOk, IfSome};
ghost use Rattle.mlr_spec.specs.JsonTokens.{raw, text_token, and_token, or_stop, token_of_word, decoded};
ghost use Rattle.mlr_json.specs.Readable.{plain};
ghost use Rattle.mlr_json.specs.Seen.{lexeme_seen};
ghost use Rattle.mlr_json.specs.Steps.{frames_of, takes_text};
ghost use Rattle.mlr_json.specs.Reading.{tokens_left, inside_left, pieces_left, IsFirst, Gives, IsShorter, IsWanted, IsStringEnd, EndsWithin, is_of_string, PieceGives, IsPieceShorter};

use crate::lexeme::{blank_len, raw_len};
use crate::{Lexeme, Machine, Scanned, StringBuilder, first_lexeme, word_value};
use mlr_spec::{InferOpts, JsonMark, NoMemory};
use mlr_value::{Bytes, Value};
use std::alloc::Global;

#[derive(Drop)]
pub(crate) enum Token<'a> {
    Mark(JsonMark),
    /// A word with its value.
    Word(Value),
    /// A string with its text.
    Text(Bytes),
    /// A string whose text is a part of the text that is read.
    Piece(&'a [u8]),
}

/// What comes next in a text, with the text after it. The place of a fault is given by how many bytes remain
/// there.
#[derive(Drop)]
pub(crate) enum Next<'a> {
    Blank(&'a [u8]),
    Token(Token<'a>, &'a [u8]),
    /// A string, where none may come.
    Refused,
    /// A string that is cut off here, or has a byte here that it can't hold.
    Cut(usize),
    /// A byte here that begins no token, or a word here that has no value.
    Bad(usize),
    /// The end of the text.
    End,
}

/// How a string continues after its first quote.
#[derive(Drop)]
pub(crate) enum StringEnd<'a> {
    /// Up to its last quote.
    Closed(Bytes, &'a [u8]),
    /// Up to the place where so many bytes remain.
    Cut(usize),
}

/// What comes next within a string, with the text after it.
enum PieceAt<'a> {
    Raw(&'a [u8], &'a [u8]),
    Unit(u16, &'a [u8]),
    /// The last quote.
    Quote(&'a [u8]),
    /// The string stops where so many bytes remain.
    Stop(usize),
}

/// Reads the next token, or blanks. A string is read only where the machine takes one.
#[inline(always)]
pub(crate) fn next_token<'a>(
    alloc: Global,
    machine: &Machine,
    text: &'a [u8],
) -> Result<Next<'a>, NoMemory>
    ensures tokens { IfOk result (λ next. (end : ℕ) → length text.now ≤ end
        → Gives end (length text.now) next (tokens_left end text.now)) }
    ensures shorter { IfOk result (IsShorter (length text.now)) }
    ensures wanted { IfOk result (IsWanted (takes_text (frames_of machine.now) machine.now.phase)) }
{
    match first_lexeme(false, text) {
        Scanned::Found(lexeme, len) => token_of(alloc, machine, lexeme, text, following(text, len)),
        Scanned::Begun => Ok(Next::End),
        Scanned::Bad(offset) => Ok(Next::Bad(text.len() - offset)),
    }
}

/// The token that begins with the lexeme at the start of a text.
#[inline(always)]
fn token_of<'a>(
    alloc: Global,
    machine: &Machine,
    lexeme: Lexeme<'_>,
    text: &[u8],
    following: &'a [u8],
) -> Result<Next<'a>, NoMemory>
    requires { length following.now < length text.now }
    ensures tokens { IfOk result (λ next. (end : ℕ) → length text.now ≤ end
        → IsFirst false end text.now (lexeme_seen lexeme.entry) following.now
        → Gives end (length text.now) next (tokens_left end text.now)) }
    ensures shorter { IfOk result (IsShorter (length text.now)) }
    ensures wanted { IfOk result (IsWanted (takes_text (frames_of machine.now) machine.now.phase)) }
{
    match lexeme {
        Lexeme::Mark(mark) => Ok(Next::Token(Token::Mark(mark), following)),
        Lexeme::Word(word) => word_token(alloc, word, text, following),
        Lexeme::Quote => string_token(alloc, machine, text, following),
        Lexeme::Blank | Lexeme::Raw(_) | Lexeme::Unit(_) => Ok(Next::Blank(following)),
    }
}

/// The token of a word at the start of a text.
#[inline(always)]
fn word_token<'a>(
    alloc: Global,
    word: &[u8],
    text: &[u8],
    following: &'a [u8],
) -> Result<Next<'a>, NoMemory>
    requires { length following.now < length text.now }
    ensures tokens { IfOk result (λ next. (end : ℕ)
        → Gives end (length text.now) next
        (or_stop (end - length text.now) (token_of_word plain word.now)
        (tokens_left end following.now))) }
    ensures shorter { IfOk result (IsShorter (length text.now)) }
    ensures wanted { IfOk result (λ next. (wanted : Bool) → IsWanted wanted next) }
{
    Ok(match word_value(alloc, word, InferOpts::plain())? {
        Some(value) => Next::Token(Token::Word(value), following),
        None => Next::Bad(text.len()),
    })
}

/// The token of a string whose first quote is at the start of a text.
#[inline(always)]
fn string_token<'a>(
    alloc: Global,
    machine: &Machine,
    text: &[u8],
    following: &'a [u8],
) -> Result<Next<'a>, NoMemory>
    requires { length following.now < length text.now }
    ensures tokens { IfOk result (λ next. (end : ℕ) → length following.now ≤ end
        → Gives end (length text.now) next
        (and_token (end - length text.now) (text_token (decoded (pieces_left end following.now)))
        (inside_left end following.now))) }
    ensures shorter { IfOk result (IsShorter (length text.now)) }
    ensures wanted { IfOk result (IsWanted (takes_text (frames_of machine.now) machine.now.phase)) }
{
    if !machine.takes_text() {
        return Ok(Next::Refused);
    }
    if let Some((piece, following)) = one_piece(following) {
        return Ok(Next::Token(Token::Piece(piece), following));
    }
    match read_pieces(alloc, following)? {
        StringEnd::Closed(text, following) => Ok(Next::Token(Token::Text(text), following)),
        StringEnd::Cut(rest) => Ok(Next::Cut(rest)),
    }
}

/// The bytes of a string that is one piece, from after its first quote, and the text after it.
#[inline(always)]
fn one_piece(text: &[u8]) -> Option<(&[u8], &[u8])>
    ensures tokens { IfSome result (λ found. (end : ℕ) → length text.now ≤ end
        → (pieces_left end text.now ≡ raw found.0.now ∷ [])
        × (inside_left end text.now ≡ tokens_left end found.1.now)) }
    ensures within { IfSome result (λ found. length found.1.now < length text.now) }
{
    let len = raw_len(text);
    match following(text, len) {
        [b'"', rest @ ..] if len > 0 => Some((&text[..len], rest)),
        _ => None,
    }
}

/// Reads a string from after its first quote, piece by piece.
#[inline(never)]
fn read_pieces(alloc: Global, text: &[u8]) -> Result<StringEnd<'_>, NoMemory>
    ensures tokens { IfOk result (λ ended. (end : ℕ) → length text.now ≤ end
        → IsStringEnd end text.now ended) }
    ensures within { IfOk result (EndsWithin (length text.now)) }
{
    let mut builder = StringBuilder::new(alloc);
    let mut left = text;
    loop {
        match piece_at(left) {
            PieceAt::Raw(piece, following) => {
                builder.push_raw(piece)?;
                left = following;
            }
            PieceAt::Unit(code, following) => {
                builder.push_unit(code)?;
                left = following;
            }
            PieceAt::Quote(following) => return Ok(StringEnd::Closed(builder.finish()?, following)),
            PieceAt::Stop(rest) => return Ok(StringEnd::Cut(rest)),
        }
    }
}

/// Reads the next piece within a string, or its last quote.
#[inline(always)]
fn piece_at(text: &[u8]) -> PieceAt<'_>
    ensures tokens { (end : ℕ) → length text.now ≤ end → PieceGives end text.now result }
    ensures shorter { IsPieceShorter (length text.now) result }
{
    match first_lexeme(true, text) {
        Scanned::Found(lexeme, len) => piece_of(lexeme, following(text, len)),
        Scanned::Begun => PieceAt::Stop(0),
        Scanned::Bad(offset) => PieceAt::Stop(text.len() - offset),
    }
}

/// The piece that a lexeme within a string is.
#[inline(always)]
fn piece_of<'a>(lexeme: Lexeme<'a>, following: &'a [u8]) -> PieceAt<'a>
    requires { is_of_string (lexeme_seen lexeme) ≡ true }
    ensures tokens { (end : ℕ) (text : List ℕ)
        → IsFirst true end text (lexeme_seen lexeme.entry) following.now
        → PieceGives end text result }
    ensures shorter { (left : ℕ) → length following.now < left → IsPieceShorter left result }
{
    match lexeme {
        Lexeme::Raw(piece) => PieceAt::Raw(piece, following),
        Lexeme::Unit(code) => PieceAt::Unit(code, following),
        Lexeme::Quote => PieceAt::Quote(following),
        Lexeme::Blank | Lexeme::Mark(_) | Lexeme::Word(_) => unreachable!(),
    }
}

/// The text after its first bytes.
#[inline(always)]
pub(crate) fn following(text: &[u8], len: usize) -> &[u8]
    requires { len ≤ length text.now }
    ensures { result.now ≡ drop len text.now }
{
    &text[len..]
}

/// The text after the blanks that it begins with.
#[inline(always)]
pub(crate) fn after_blank(text: &[u8]) -> &[u8]
    ensures same { (end : ℕ) → length text.now ≤ end
        → tokens_left end result.now ≡ tokens_left end text.now }
    ensures shorter { length result.now ≤ length text.now }
{
    following(text, blank_len(text))
}
