//! JSON texts read as values.
ghost use Rattle.std.specs.Prelude.{◌≡◌, ℕ, ◌+◌, ◌-◌, ◌<◌, ◌≤◌, length, IfOk, IfSome};
ghost use Rattle.mlr_spec.specs.Tree.{Tree};
ghost use Rattle.mlr_spec.specs.JsonTokens.{and_token, tokens_of};
ghost use Rattle.mlr_json.specs.Answer.{Says};
ghost use Rattle.mlr_json.specs.Machine.{Outcome, step, outcome_of};
ghost use Rattle.mlr_json.specs.Readable.{plain};
ghost use Rattle.mlr_json.specs.Steps.{frames_of, IsStep};
ghost use Rattle.mlr_json.specs.Reading.{tokens_left, token_seen};
ghost use Rattle.mlr_json.specs.Seen.{lexeme_seen};
ghost use Rattle.mlr_value.specs.Value.{tree_of};
ghost use Rattle.mlr_json.specs.Turns.{outcome_at, after_at, IsTurn, IsTurnShorter, IsAfter, IsAnswer, IsRead, is_token};

use crate::token::{Next, Token, after_blank, following, next_token};
use crate::{Lexeme, Machine, Scanned, Went, first_lexeme};
use mlr_spec::NoMemory;
use mlr_value::{Bytes, Value};
use std::alloc::Global;

/// What a JSON text is read as. Places of bytes count from 1, and the place after the last byte is one more.
#[derive(Drop)]
pub enum JsonRead {
    /// The value.
    Ok(Value),
    /// The text begins no value any more at this place.
    Syntax(u64),
    /// More than 100 brackets are open at this place.
    Deep(u64),
    /// There was no memory.
    NoMemory,
}

/// How the reading of a text continues. The place of a fault is given by how many bytes remain there.
#[derive(Drop)]
enum Turn<'a> {
    On(&'a [u8]),
    Whole(Value, &'a [u8]),
    Syntax(usize),
    Deep(usize),
}

/// Reads a whole JSON text (RFC 8259): a value, with blanks round it. Numbers are inferred as texts from data are, and
/// keep their spelling.
pub fn read_json_value(alloc: Global, text: &[u8]) -> JsonRead
    // The value or the fault is that of the grammar,
    ensures read { IsRead text.now result }
    // and what the grammar says of the text is returned, unless memory runs out.
    ensures only { (outcome : Outcome) → Says plain text.now outcome → IsAnswer outcome result }
{
    match read_text(alloc, text) {
        Ok(read) => read,
        Err(NoMemory) => JsonRead::NoMemory,
    }
}

fn read_text(alloc: Global, text: &[u8]) -> Result<JsonRead, NoMemory>
    ensures { IfOk result (IsAnswer (outcome_of (length text.now + 1) (tokens_of plain text.now))) }
{
    let mut machine = Machine::new(alloc);
    let mut left = text;
    loop {
        match next_turn(alloc, &mut machine, left)? {
            Turn::On(following) => left = after_blank(following),
            Turn::Whole(value, following) => return Ok(whole(value, text, following)),
            Turn::Syntax(rest) => return Ok(JsonRead::Syntax(place(text, rest))),
            Turn::Deep(rest) => return Ok(JsonRead::Deep(place(text, rest))),
        }
    }
}

/// Reads the next token, or blanks.
#[inline(always)]
fn next_turn<'a>(alloc: Global, machine: &mut Machine, text: &'a [u8]) -> Result<Turn<'a>, NoMemory>
    ensures outcome { IfOk result (λ turn. (end : ℕ) → length text.now ≤ end
        → IsTurn end (outcome_at end (frames_of machine.old) machine.old.phase
        (tokens_left end text.now)) machine.new turn) }
    ensures shorter { IfOk result (IsTurnShorter (length text.now)) }
{
    match next_token(alloc, machine, text)? {
        Next::Blank(following) => Ok(Turn::On(following)),
        Next::Token(token, following) => token_turn(machine, token, text.len(), following),
        Next::Refused => Ok(Turn::Syntax(text.len())),
        Next::Cut(rest) => Ok(Turn::Syntax(rest)),
        Next::Bad(rest) => Ok(Turn::Syntax(rest)),
        Next::End => Ok(Turn::Syntax(0)),
    }
}

/// Takes a token that begins where so many bytes remain.
#[inline(always)]
fn token_turn<'a>(
    machine: &mut Machine,
    token: Token<'_>,
    left: usize,
    following: &'a [u8],
) -> Result<Turn<'a>, NoMemory>
    requires { length following.now < left }
    ensures outcome { IfOk result (λ turn. (end : ℕ)
        → IsTurn end (outcome_at end (frames_of machine.old) machine.old.phase
        (and_token (end - left) (token_seen token.entry) (tokens_left end following.now)))
        machine.new turn) }
    ensures shorter { IfOk result (IsTurnShorter left) }
{
    match take(machine, token)? {
        Went::On => Ok(Turn::On(following)),
        Went::Whole(value) => Ok(Turn::Whole(value, following)),
        Went::Wrong => Ok(Turn::Syntax(left)),
        Went::Deep => Ok(Turn::Deep(left)),
    }
}

#[inline(always)]
fn take(machine: &mut Machine, token: Token<'_>) -> Result<Went, NoMemory>
    ensures { IfOk result (λ went. IsStep (step (frames_of machine.old) machine.old.phase
        (token_seen token.entry)) went machine.new) }
{
    match token {
        Token::Mark(mark) => machine.mark(mark),
        Token::Word(value) => machine.word(value),
        Token::Text(text) => machine.text(text),
        Token::Piece(piece) => {
            let text = Bytes::copy_of(machine.alloc, piece)?;
            machine.text(text)
        }
    }
}

/// The result where a value is whole: it is the value if only blanks follow it.
fn whole(value: Value, text: &[u8], following: &[u8]) -> JsonRead
    requires { length following.now ≤ length text.now }
    ensures { IsAnswer (after_at (tree_of value) (tokens_left (length text.now + 1) following.now))
        result }
{
    match after_blanks(following) {
        None => JsonRead::Ok(value),
        Some(rest) => JsonRead::Syntax(place(text, rest)),
    }
}

/// How many bytes remain from the first one on that is no blank, if there is one.
fn after_blanks(text: &[u8]) -> Option<usize>
    ensures outcome { (end : ℕ) (value : Tree) → length text.now ≤ end
        → IsAfter end value (after_at value (tokens_left end text.now)) result }
    ensures within { IfSome result (λ rest. rest ≤ length text.now) }
{
    let mut left = text;
    loop {
        match first_lexeme(false, left) {
            Scanned::Begun => return None,
            Scanned::Bad(offset) => return Some(left.len() - offset),
            Scanned::Found(lexeme, len) => {
                if is_token(lexeme) {
                    return Some(left.len());
                }
                left = following(left, len);
            }
        }
    }
}

/// Whether a lexeme outside strings is more than blanks.
fn is_token(lexeme: Lexeme<'_>) -> bool
    ensures { result ≡ is_token (lexeme_seen lexeme.entry) }
{
    matches!(lexeme, Lexeme::Mark(_) | Lexeme::Word(_) | Lexeme::Quote)
}

/// The place in a text where so many bytes remain.
fn place(text: &[u8], left: usize) -> u64
    requires { left ≤ length text.now }
    ensures { result ≡ length text.now + 1 - left }
{
    (text.len() - left) as u64 + 1
}
