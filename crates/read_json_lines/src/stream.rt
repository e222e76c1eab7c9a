//! Reads the bytes of a file after its byte order mark.
ghost use Rattle.std.specs.Prelude.{ℕ, List, ◌≡◌, ◌+◌, ◌^◌, ◌<◌, ◌≤◌, ◌++◌, ◌∷◌, [], true, false, length, drop, take, IfOk, OnOk, is_some, None};
ghost use Rattle.mlr_spec.specs.JsonTokens.{lexeme_outside, found, sign, token_of_word};
ghost use Rattle.mlr_spec.specs.JsonTokens as lexeme;
ghost use Rattle.mlr_json.specs.Seen.{lexeme_seen};
ghost use Rattle.mlr_event.specs.declared.event.Event.{Event};
ghost use Rattle.mlr_event.specs.Reading as item;
ghost use Rattle.read_json_lines.specs.Records.{fault_of};
ghost use Rattle.read_json_lines.specs.Turns.{turn_of};
ghost use Rattle.read_json_lines.specs.Streams.{HasPut, IsFit, Appends, Starts, Takes, Turned, and_token, count_of, future, is_between, or_stop, token_of_value, turn_items, waits};

use crate::listing::Trouble;
use crate::record_state::{RecordState, Turn};
use crate::strings::OpenText;
use mlr_event::rows::next_ctx;
use mlr_event::{Ctx, Event, Events, Fault, FileRef};
use mlr_json::{Lexeme, Scanned, blank_len, first_lexeme, word_len, word_value};
use mlr_record::Record;
use mlr_spec::{InferOpts, JsonMark, NoMemory};
use mlr_value::Value;
use std::alloc::Global;

/// A file after its byte order mark, as far as it has been read.
#[derive(Drop)]
pub(crate) struct Stream {
    pub(crate) alloc: Global,
    pub(crate) infer: InferOpts,
    pub(crate) file: FileRef,
    /// The place of the first byte that isn't part of a token yet.
    pub(crate) place: u64,
    pub(crate) record_state: RecordState,
    /// The current string, if its closing quote hasn't been read.
    pub(crate) text: Option<OpenText>,
    /// The bytes that have begun a word, or an escape of a string.
    pub(crate) begun: Vec<u8>,
    /// The context of the last record.
    pub(crate) at: Ctx,
    /// A fault occurred, and no event follows it.
    pub(crate) stopped: bool,
}

impl Stream {
    /// A stream at its start. It doesn't allocate.
    pub(crate) fn new(alloc: Global, infer: InferOpts, file: FileRef, start: Ctx) -> Self
        ensures starts { Starts result infer file start 1 }
    {
        Stream {
            alloc,
            infer,
            file,
            place: 1,
            record_state: RecordState::new(alloc),
            text: None,
            begun: Vec::new(alloc),
            at: start,
            stopped: false,
        }
    }

    /// Reads a piece of the file, and appends the events of the records that it ends to `out`.
    #[inline(never)]
    pub(crate) fn feed(&mut self, piece: &[u8], out: &mut Events) -> Result<(), NoMemory>
        requires goes_on { self.old.stopped ≡ false }
        requires room { count_of self.old + length piece.now < 2 ^ 63 }
        ensures turned { OnOk result (IsFit self.old
            → Turned self.old self.new piece.now [] out.old out.new) }
        ensures room { OnOk result (count_of self.new ≤ count_of self.old + length piece.now) }
    {
        let mut left = piece;
        while !self.stopped && !left.is_empty() {
            left = self.turn(left, out)?;
        }
        Ok(())
    }

    /// Reads the end of the file, and appends its fault, if there is one, to `out`.
    pub(crate) fn end(&mut self, out: &mut Events) -> Result<(), NoMemory>
        requires goes_on { self.old.stopped ≡ false }
        requires room { count_of self.old < 2 ^ 63 }
        ensures ended { OnOk result (IsFit self.old
            → Appends self.old self.new out.old out.new (future self.old true [])) }
        ensures room { OnOk result (count_of self.new ≤ count_of self.old + 1) }
    {
        if self.text.is_some() {
            let place = self.place + self.begun.len() as u64;
            return self.fail(Trouble::Syntax, place, out);
        }
        if !self.begun.is_empty() {
            self.end_word(out)?;
            if self.stopped {
                return Ok(());
            }
        }
        self.end_between(out)
    }

    /// Reads the end of the file outside strings, after all words.
    fn end_between(&mut self, out: &mut Events) -> Result<(), NoMemory>
        requires goes_on { self.old.stopped ≡ false }
        requires text { is_some self.old.text ≡ false }
        requires begun { self.old.begun.items ≡ [] }
        ensures ended { OnOk result (Appends self.old self.new out.old out.new
            (future self.old true [])) }
        ensures same { OnOk result (self.new ≡ record self.old { stopped = self.new.stopped }) }
    {
        if self.record_state.is_at_rest() {
            return Ok(());
        }
        self.fail(Trouble::Syntax, self.place, out)
    }

    /// Reads the start of a text, and returns the rest of it.
    fn turn<'a>(&mut self, text: &'a [u8], out: &mut Events) -> Result<&'a [u8], NoMemory>
        requires bytes { 0 < length text.now }
        requires goes_on { self.old.stopped ≡ false }
        requires room { count_of self.old + length text.now < 2 ^ 63 }
        ensures turned { IfOk result (λ left. IsFit self.old
            → Turned self.old self.new text.now left.now out.old out.new) }
        ensures room { IfOk result (λ left. count_of self.new + length left.now
            ≤ count_of self.old + length text.now) }
        ensures falls { IfOk result (λ left. waits self.new (length left.now)
            < waits self.old (length text.now)) }
    {
        if self.text.is_some() {
            if self.begun.is_empty() {
                self.turn_inside(text, out)
            } else {
                self.end_escape(text, out)
            }
        } else if self.begun.is_empty() {
            self.turn_outside(text, out)
        } else {
            self.go_on(text, out)
        }
    }

    /// Reads one lexeme outside strings.
    fn turn_outside<'a>(&mut self, text: &'a [u8], out: &mut Events) -> Result<&'a [u8], NoMemory>
        requires bytes { 0 < length text.now }
        requires goes_on { self.old.stopped ≡ false }
        requires room { count_of self.old + length text.now < 2 ^ 63 }
        requires text { is_some self.old.text ≡ false }
        requires begun { self.old.begun.items ≡ [] }
        ensures turned { IfOk result (λ left. Turned self.old self.new text.now left.now out.old
            out.new) }
        ensures room { IfOk result (λ left. count_of self.new + length left.now
            ≤ count_of self.old + length text.now) }
        ensures shorter { IfOk result (λ left. length left.now < length text.now) }
    {
        match first_lexeme(false, text) {
            Scanned::Found(lexeme, len) => self.turn_lexeme(lexeme, len, text, out),
            Scanned::Bad(offset) => {
                self.fail(Trouble::Syntax, self.place + offset as u64, out)?;
                Ok(following(text, text.len()))
            }
            Scanned::Begun => Ok(text),
        }
    }

    /// Reads the lexeme at the start of a text, outside strings.
    fn turn_lexeme<'a>(
        &mut self,
        lexeme: Lexeme<'_>,
        len: usize,
        text: &'a [u8],
        out: &mut Events,
    ) -> Result<&'a [u8], NoMemory>
        requires bytes { 0 < len }
        requires within { len ≤ length text.now }
        requires prefix { lexeme_outside text.now ≡ found (lexeme_seen lexeme) len }
        requires outside { is_between (lexeme_seen lexeme) ≡ true }
        requires goes_on { self.old.stopped ≡ false }
        requires room { count_of self.old + length text.now < 2 ^ 63 }
        requires text { is_some self.old.text ≡ false }
        requires begun { self.old.begun.items ≡ [] }
        ensures turned { IfOk result (λ left. Turned self.old self.new text.now left.now out.old
            out.new) }
        ensures room { IfOk result (λ left. count_of self.new + length left.now
            ≤ count_of self.old + length text.now) }
        ensures shorter { IfOk result (λ left. length left.now < length text.now) }
    {
        match lexeme {
            Lexeme::Word(word) => self.turn_word(word, len, text, out),
            Lexeme::Mark(mark) => {
                self.take_mark(mark, out)?;
                self.place += len as u64;
                let left = following(text, len);
                if self.stopped {
                    return Ok(left);
                }
                Ok(self.pass_blanks(left))
            }
            Lexeme::Quote => self.turn_quote(len, text, out),
            Lexeme::Blank => {
                self.place += len as u64;
                Ok(following(text, len))
            }
            Lexeme::Raw(_) | Lexeme::Unit(_) => unreachable!(),
        }
    }

    /// Reads the blanks at the start of a text, and returns the rest of it.
    #[inline(always)]
    fn pass_blanks<'a>(&mut self, text: &'a [u8]) -> &'a [u8]
        requires goes_on { self.old.stopped ≡ false }
        requires room { self.old.place + length text.now < 2 ^ 63 }
        requires text { is_some self.old.text ≡ false }
        requires begun { self.old.begun.items ≡ [] }
        ensures turned { (out : List Event) → Turned self.old self.new text.now result.now out out }
        ensures place { self.new ≡ record self.old { place = self.new.place } }
        ensures room { self.new.place + length result.now ≡ self.old.place + length text.now }
        ensures shorter { length result.now ≤ length text.now }
    {
        let len = blank_len(text);
        self.place += len as u64;
        following(text, len)
    }

    /// Reads a word at the start of a text, or keeps it if the next piece may continue it. If no word is
    /// allowed, its first byte is a fault.
    fn turn_word<'a>(
        &mut self,
        word: &[u8],
        len: usize,
        text: &'a [u8],
        out: &mut Events,
    ) -> Result<&'a [u8], NoMemory>
        requires bytes { 0 < len }
        requires within { len ≤ length text.now }
        requires prefix { lexeme_outside text.now ≡ found (lexeme.word word.now) len }
        requires goes_on { self.old.stopped ≡ false }
        requires room { count_of self.old + length text.now < 2 ^ 63 }
        requires text { is_some self.old.text ≡ false }
        requires begun { self.old.begun.items ≡ [] }
        ensures turned { IfOk result (λ left. Turned self.old self.new text.now left.now out.old
            out.new) }
        ensures room { IfOk result (λ left. count_of self.new + length left.now
            ≤ count_of self.old + length text.now) }
        ensures left { IfOk result (λ left. left.now ≡ drop len text.now) }
    {
        if !self.record_state.takes_word() {
            self.fail(Trouble::Syntax, self.place, out)?;
            return Ok(following(text, len));
        }
        if len == text.len() {
            self.begun.extend_from_slice(word)?;
            return Ok(following(text, len));
        }
        self.take_word(word, out)?;
        self.place += len as u64;
        Ok(following(text, len))
    }

    /// Continues the word that has begun, or ends it.
    #[inline(never)]
    fn go_on<'a>(&mut self, text: &'a [u8], out: &mut Events) -> Result<&'a [u8], NoMemory>
        requires bytes { 0 < length text.now }
        requires goes_on { self.old.stopped ≡ false }
        requires room { count_of self.old + length text.now < 2 ^ 63 }
        requires text { is_some self.old.text ≡ false }
        requires begun { 0 < length self.old.begun.items }
        ensures turned { IfOk result (λ left. IsFit self.old
            → Turned self.old self.new text.now left.now out.old out.new) }
        ensures room { IfOk result (λ left. count_of self.new + length left.now
            ≤ count_of self.old + length text.now) }
        ensures falls { IfOk result (λ left. waits self.new (length left.now)
            < waits self.old (length text.now)) }
    {
        let len = word_len(text);
        if len > 0 {
            self.begun.extend_from_slice(prefix(text, len))?;
            return Ok(following(text, len));
        }
        self.end_word(out)?;
        Ok(text)
    }

    /// Ends the word that has begun.
    #[inline(never)]
    fn end_word(&mut self, out: &mut Events) -> Result<(), NoMemory>
        requires goes_on { self.old.stopped ≡ false }
        requires nr { self.old.at.nr < 2 ^ 63 }
        requires fnr { self.old.at.fnr < 2 ^ 63 }
        requires room { self.old.place + length self.old.begun.items < 2 ^ 63 }
        ensures takes { OnOk result (Takes self.old self.new out.old out.new
            (λ rest. or_stop self.old.place (token_of_word self.old.infer self.old.begun.items)
            rest)) }
        ensures begun { OnOk result (self.new.begun.items ≡ []) }
        ensures same { OnOk result (self.new ≡ record
            self.old {
              place = self.old.place + length self.old.begun.items;
              begun =
                  self.new.begun;
              record_state = self.new.record_state;
              at = self.new.at;
              stopped =
                  self.new.stopped;
            }) }
    {
        let value = word_value(self.alloc, self.begun.as_slice(), self.infer)?;
        let place = self.place;
        self.place += self.begun.len() as u64;
        self.begun.clear();
        self.take_value(value, place, out)
    }

    fn take_mark(&mut self, mark: JsonMark, out: &mut Events) -> Result<(), NoMemory>
        requires goes_on { self.old.stopped ≡ false }
        requires nr { self.old.at.nr < 2 ^ 63 }
        requires fnr { self.old.at.fnr < 2 ^ 63 }
        ensures takes { OnOk result (Takes self.old self.new out.old out.new
            (λ rest. and_token self.old.place (sign mark) rest)) }
        ensures same { OnOk result (self.new ≡ record
            self.old {
              record_state = self.new.record_state;
              at = self.new.at;
              stopped =
                  self.new.stopped;
            }) }
    {
        match mark {
            JsonMark::Colon => {
                let fault = self.record_state.colon();
                self.put_fault(fault, self.place, out)
            }
            JsonMark::Comma => {
                let fault = self.record_state.comma();
                self.put_fault(fault, self.place, out)
            }
            _ => self.take_bracket(mark, out),
        }
    }

    /// Reads a bracket, which may end a record.
    #[inline(never)]
    fn take_bracket(&mut self, mark: JsonMark, out: &mut Events) -> Result<(), NoMemory>
        requires goes_on { self.old.stopped ≡ false }
        requires nr { self.old.at.nr < 2 ^ 63 }
        requires fnr { self.old.at.fnr < 2 ^ 63 }
        ensures takes { OnOk result (Takes self.old self.new out.old out.new
            (λ rest. and_token self.old.place (sign mark) rest)) }
        ensures same { OnOk result (self.new ≡ record
            self.old {
              record_state = self.new.record_state;
              at = self.new.at;
              stopped =
                  self.new.stopped;
            }) }
    {
        let turn = self.record_state.mark(mark)?;
        self.put(turn, self.place, out)
    }

    fn take_word(&mut self, word: &[u8], out: &mut Events) -> Result<(), NoMemory>
        requires goes_on { self.old.stopped ≡ false }
        requires nr { self.old.at.nr < 2 ^ 63 }
        requires fnr { self.old.at.fnr < 2 ^ 63 }
        ensures takes { OnOk result (Takes self.old self.new out.old out.new
            (λ rest. or_stop self.old.place (token_of_word self.old.infer word.now) rest)) }
        ensures same { OnOk result (self.new ≡ record
            self.old {
              record_state = self.new.record_state;
              at = self.new.at;
              stopped =
                  self.new.stopped;
            }) }
    {
        let value = word_value(self.alloc, word, self.infer)?;
        self.take_value(value, self.place, out)
    }

    /// Reads a word with this value; a word without value is a fault.
    #[inline(always)]
    fn take_value(
        &mut self,
        value: Option<Value>,
        place: u64,
        out: &mut Events,
    ) -> Result<(), NoMemory>
        requires goes_on { self.old.stopped ≡ false }
        requires nr { self.old.at.nr < 2 ^ 63 }
        requires fnr { self.old.at.fnr < 2 ^ 63 }
        ensures takes { OnOk result (Takes self.old self.new out.old out.new
            (λ rest. or_stop place (token_of_value value) rest)) }
        ensures same { OnOk result (self.new ≡ record
            self.old {
              record_state = self.new.record_state;
              at = self.new.at;
              stopped =
                  self.new.stopped;
            }) }
    {
        let fault = match value {
            None => Some(Trouble::Syntax),
            Some(value) => self.record_state.word(value)?,
        };
        self.put_fault(fault, place, out)
    }

    /// Appends the fault of a token to `out`, if it has one.
    #[inline(always)]
    pub(crate) fn put_fault(
        &mut self,
        fault: Option<Trouble>,
        place: u64,
        out: &mut Events,
    ) -> Result<(), NoMemory>
        requires goes_on { self.old.stopped ≡ false }
        ensures { OnOk result (HasPut self.old self.new out.old out.new
            (turn_items self.old.file (turn_of fault) place)) }
    {
        match fault {
            None => Ok(()),
            Some(trouble) => self.fail(trouble, place, out),
        }
    }

    /// Appends the outcome of a token to `out`.
    fn put(&mut self, turn: Turn, place: u64, out: &mut Events) -> Result<(), NoMemory>
        requires goes_on { self.old.stopped ≡ false }
        requires nr { self.old.at.nr < 2 ^ 63 }
        requires fnr { self.old.at.fnr < 2 ^ 63 }
        ensures { OnOk result (HasPut self.old self.new out.old out.new
            (turn_items self.old.file turn place)) }
    {
        match turn {
            Turn::On => Ok(()),
            Turn::Record(record) => self.put_record(record, out),
            Turn::Fault(trouble) => self.fail(trouble, place, out),
        }
    }

    /// Appends a record to `out`.
    #[inline(never)]
    fn put_record(&mut self, made: Record, out: &mut Events) -> Result<(), NoMemory>
        requires goes_on { self.old.stopped ≡ false }
        requires nr { self.old.at.nr < 2 ^ 63 }
        requires fnr { self.old.at.fnr < 2 ^ 63 }
        ensures { OnOk result (HasPut self.old self.new out.old out.new (item.fields made ∷ [])) }
    {
        self.at = next_ctx(self.at);
        out.push(Event::Rec(made, self.at))
    }

    /// Appends a fault to `out`, after which nothing follows.
    #[inline(never)]
    pub(crate) fn fail(
        &mut self,
        trouble: Trouble,
        place: u64,
        out: &mut Events,
    ) -> Result<(), NoMemory>
        ensures { OnOk result (HasPut self.old self.new out.old out.new
            (item.fault (fault_of self.old.file trouble place) ∷ [])) }
    {
        self.stopped = true;
        out.push(Event::Fault(fault_of(trouble, self.file, place)))
    }
}

fn fault_of(trouble: Trouble, file: FileRef, byte: u64) -> Fault
    ensures { result ≡ fault_of file trouble byte }
{
    match trouble {
        Trouble::Syntax => Fault::JsonSyntax { file, byte },
        Trouble::Deep => Fault::JsonDeep { file, byte },
        Trouble::Kind => Fault::JsonKind { file, byte },
    }
}

/// The text after its first `len` bytes.
#[inline(always)]
pub(crate) fn following(text: &[u8], len: usize) -> &[u8]
    requires { len ≤ length text.now }
    ensures { result.now ≡ drop len text.now }
{
    &text[len..]
}

/// The first `len` bytes of the text.
#[inline(always)]
pub(crate) fn prefix(text: &[u8], len: usize) -> &[u8]
    requires { len ≤ length text.now }
    ensures { result.now ≡ take len text.now }
{
    &text[..len]
}
