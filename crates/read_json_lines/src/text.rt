//! Reads the strings of a file.
ghost use Rattle.std.specs.Prelude.{ℕ, ◌≡◌, ◌+◌, ◌^◌, ◌<◌, ◌≤◌, [], true, false, length, IfOk, OnOk, is_some, None};
ghost use Rattle.mlr_spec.specs.JsonTokens.{lexeme_outside, found, text_token};
ghost use Rattle.mlr_spec.specs.JsonTokens as lexeme;
ghost use Rattle.mlr_json.specs.Seen.{lexeme_seen};
ghost use Rattle.read_json_lines.specs.Streams.{IsFit, Opens, Pushes, Takes, Turned, and_token, count_of, is_quote, text_tokens};

use crate::listing::Trouble;
use crate::stream::{Stream, following, prefix};
use crate::strings::{OpenText, plain_text};
use mlr_event::Events;
use mlr_json::{Lexeme, Scanned, StringBuilder, first_lexeme};
use mlr_spec::NoMemory;
use mlr_value::Bytes;
use std::mem::replace;

impl Stream {
    /// Reads a string that ends within this text and has no escape, or else its opening quote.
    pub(crate) fn turn_quote<'a>(
        &mut self,
        len: usize,
        text: &'a [u8],
        out: &mut Events,
    ) -> Result<&'a [u8], NoMemory>
        requires bytes { 0 < len }
        requires within { len ≤ length text.now }
        requires prefix { lexeme_outside text.now ≡ found lexeme.quote len }
        requires goes_on { self.old.stopped ≡ false }
        requires room { count_of self.old + length text.now < 2 ^ 63 }
        requires text { is_some self.old.text ≡ false }
        requires begun { self.old.begun.items ≡ [] }
        ensures turned { IfOk result (λ left. Turned self.old self.new text.now left.now out.old
            out.new) }
        ensures room { IfOk result (λ left. count_of self.new + length left.now
            ≤ count_of self.old + length text.now) }
        ensures shorter { IfOk result (λ left. length left.now < length text.now) }
    {
        if let Some((raw, raw_len)) = plain_text(following(text, len)) {
            let end = len + (raw_len + 1);
            self.take_text(raw, out)?;
            self.place += end as u64;
            return Ok(following(text, end));
        }
        self.open_text(out)?;
        self.place += len as u64;
        Ok(following(text, len))
    }

    /// Reads a string of this text.
    #[inline(always)]
    fn take_text(&mut self, text: &[u8], out: &mut Events) -> Result<(), NoMemory>
        requires goes_on { self.old.stopped ≡ false }
        requires nr { self.old.at.nr < 2 ^ 63 }
        requires fnr { self.old.at.fnr < 2 ^ 63 }
        ensures takes { OnOk result (Takes self.old self.new out.old out.new
            (λ rest. and_token self.old.place (text_token text.now) rest)) }
        ensures same { OnOk result (self.new ≡ record
            self.old {
              record_state = self.new.record_state;
              at = self.new.at;
              stopped =
                  self.new.stopped;
            }) }
    {
        let text = Bytes::copy_of(self.alloc, text)?;
        let fault = self.record_state.text(text)?;
        self.put_fault(fault, self.place, out)
    }

    /// Reads the opening quote of a string.
    fn open_text(&mut self, out: &mut Events) -> Result<(), NoMemory>
        requires goes_on { self.old.stopped ≡ false }
        ensures opens { OnOk result (Opens self.old self.new out.old out.new) }
        ensures same { OnOk result (self.new ≡ record
            self.old { text = self.new.text; stopped = self.new.stopped }) }
    {
        if let Some(trouble) = self.record_state.refused_text() {
            return self.fail(trouble, self.place, out);
        }
        self.text = Some(OpenText {
            builder: StringBuilder::new(self.alloc),
            place: self.place,
        });
        Ok(())
    }

    /// Reads one lexeme within a string.
    #[inline(never)]
    pub(crate) fn turn_inside<'a>(
        &mut self,
        text: &'a [u8],
        out: &mut Events,
    ) -> Result<&'a [u8], NoMemory>
        requires bytes { 0 < length text.now }
        requires goes_on { self.old.stopped ≡ false }
        requires room { count_of self.old + length text.now < 2 ^ 63 }
        requires text { is_some self.old.text ≡ true }
        requires begun { self.old.begun.items ≡ [] }
        ensures turned { IfOk result (λ left. IsFit self.old
            → Turned self.old self.new text.now left.now out.old out.new) }
        ensures room { IfOk result (λ left. count_of self.new + length left.now
            ≤ count_of self.old + length text.now) }
        ensures shorter { IfOk result (λ left. length left.now < length text.now) }
    {
        match first_lexeme(true, text) {
            Scanned::Found(lexeme, len) => {
                if is_quote(lexeme) {
                    self.close_text(out)?;
                    self.place += len as u64;
                    return Ok(following(text, len));
                }
                self.push_piece(lexeme)?;
                self.place += len as u64;
                Ok(following(text, len))
            }
            Scanned::Begun => {
                self.begun.extend_from_slice(text)?;
                Ok(following(text, text.len()))
            }
            Scanned::Bad(offset) => {
                self.fail(Trouble::Syntax, self.place + offset as u64, out)?;
                Ok(following(text, text.len()))
            }
        }
    }

    /// Reads one more byte of the escape that has begun.
    #[inline(never)]
    pub(crate) fn end_escape<'a>(
        &mut self,
        text: &'a [u8],
        out: &mut Events,
    ) -> Result<&'a [u8], NoMemory>
        requires bytes { 0 < length text.now }
        requires goes_on { self.old.stopped ≡ false }
        requires room { count_of self.old + length text.now < 2 ^ 63 }
        requires text { is_some self.old.text ≡ true }
        requires begun { 0 < length self.old.begun.items }
        ensures turned { IfOk result (λ left. IsFit self.old
            → Turned self.old self.new text.now left.now out.old out.new) }
        ensures room { IfOk result (λ left. count_of self.new + length left.now
            ≤ count_of self.old + length text.now) }
        ensures shorter { IfOk result (λ left. length left.now < length text.now) }
    {
        let mut escape = replace(&mut self.begun, Vec::new(self.alloc));
        escape.extend_from_slice(prefix(text, 1))?;
        match first_lexeme(true, escape.as_slice()) {
            Scanned::Found(lexeme, len) => {
                self.push_piece(lexeme)?;
                self.place += len as u64;
                Ok(following(text, 1))
            }
            Scanned::Begun => {
                self.begun.extend_from_slice(escape.as_slice())?;
                Ok(following(text, 1))
            }
            Scanned::Bad(offset) => {
                self.fail(Trouble::Syntax, self.place + offset as u64, out)?;
                Ok(following(text, 1))
            }
        }
    }

    /// Appends a piece to the current string.
    fn push_piece(&mut self, lexeme: Lexeme<'_>) -> Result<(), NoMemory>
        requires text { is_some self.old.text ≡ true }
        ensures pushes { OnOk result (Pushes self.old.text self.new.text
            (lexeme_seen lexeme.entry)) }
        ensures open { OnOk result (is_some self.new.text ≡ true) }
        ensures same { OnOk result (self.new ≡ record self.old { text = self.new.text }) }
    {
        if let Some(open) = &mut self.text {
            match lexeme {
                Lexeme::Raw(bytes) => open.builder.push_raw(bytes)?,
                Lexeme::Unit(code) => open.builder.push_unit(code)?,
                Lexeme::Quote | Lexeme::Blank | Lexeme::Mark(_) | Lexeme::Word(_) => {}
            }
        }
        Ok(())
    }

    /// Reads the closing quote of the current string.
    fn close_text(&mut self, out: &mut Events) -> Result<(), NoMemory>
        requires text { is_some self.old.text ≡ true }
        requires goes_on { self.old.stopped ≡ false }
        requires nr { self.old.at.nr < 2 ^ 63 }
        requires fnr { self.old.at.fnr < 2 ^ 63 }
        ensures takes { OnOk result (Takes self.old self.new out.old out.new
            (λ rest. text_tokens self.old.text [] rest)) }
        ensures closed { OnOk result (self.new.text ≡ None) }
        ensures same { OnOk result (self.new ≡ record
            self.old {
              text = self.new.text;
              record_state = self.new.record_state;
              at =
                  self.new.at;
              stopped = self.new.stopped;
            }) }
    {
        let Some(open) = self.text.take() else {
            return Ok(());
        };
        let text = open.builder.finish()?;
        let fault = self.record_state.text(text)?;
        self.put_fault(fault, open.place, out)
    }
}

fn is_quote(lexeme: Lexeme<'_>) -> bool
    ensures { result ≡ is_quote (lexeme_seen lexeme.entry) }
{
    matches!(lexeme, Lexeme::Quote)
}
