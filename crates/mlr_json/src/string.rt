//! Strings built of raw bytes and code units.
ghost use Rattle.std.specs.Prelude.{◌≡◌, ◌+◌, ◌<◌, ◌&&◌, ◌++◌, ◌∷◌, [], List, Some, None, if◌then◌else◌, is_ok, IfOk, OnOk};
ghost use Rattle.std.specs.Char.{encode_utf8};
ghost use Rattle.std.specs.Char.Utf16.{is_high_surrogate, is_low_surrogate, surrogate_pair_char, lone_unit_char};
ghost use Rattle.std.specs.Option.{unwrap_or};
ghost use Rattle.mlr_spec.specs.JsonTokens.{Piece, raw, unit, decoded};
ghost use Rattle.mlr_json.specs.Decoding.{Holds, pending};

use mlr_spec::NoMemory;
use mlr_value::Bytes;
use std::alloc::Global;

/// The text of a string that is read piece by piece. After `NoMemory` it is given up.
#[derive(Drop)]
pub struct StringBuilder {
    text: Bytes,
    /// A high surrogate, which may form a pair with the next unit.
    high: Option<u16>,
}

impl StringBuilder {
    /// A string of no pieces. It takes no memory.
    #[inline(always)]
    pub fn new(alloc: Global) -> Self
        ensures { Holds result [] }
    {
        StringBuilder {
            text: Bytes::new(alloc),
            high: None,
        }
    }

    /// Appends bytes. The first ones are copied once.
    #[inline(always)]
    pub fn push_raw(&mut self, text: &[u8]) -> Result<(), NoMemory>
        ensures { OnOk result ((pieces : List Piece) → Holds self.old pieces
            → Holds self.new (pieces ++ raw text.now ∷ [])) }
    {
        self.end_unit()?;
        self.text.append(text)
    }

    /// Appends a code unit. Two that follow one another may be a pair; a surrogate in no pair becomes U+FFFD.
    pub fn push_unit(&mut self, code: u16) -> Result<(), NoMemory>
        ensures { OnOk result ((pieces : List Piece) → Holds self.old pieces
            → Holds self.new (pieces ++ unit code ∷ [])) }
    {
        if let Some(high) = self.high
            && let Some(character) = pair_character(high, code)
        {
            self.high = None;
            return append_character(character, &mut self.text);
        }
        self.end_unit()?;
        if is_high(code) {
            self.high = Some(code);
            return Ok(());
        }
        append_character(lone_character(code), &mut self.text)
    }

    /// The text of the pieces that were put.
    #[inline(always)]
    pub fn finish(self) -> Result<Bytes, NoMemory>
        ensures { IfOk result
            (λ text. (pieces : List Piece) → Holds self pieces → text ≡ decoded pieces) }
    {
        let mut builder = self;
        builder.end_unit()?;
        let StringBuilder { text, high: _ } = builder;
        Ok(text)
    }

    /// No unit follows the last one.
    #[inline(always)]
    fn end_unit(&mut self) -> Result<(), NoMemory>
        ensures { OnOk result (self.new ≡ record {
          text = self.old.text
              ++ decoded (pending self.old.high);
          high = None;
        }) }
    {
        if let Some(high) = self.high {
            self.high = None;
            append_character(lone_character(high), &mut self.text)?;
        }
        Ok(())
    }
}

fn append_character(character: char, into: &mut Bytes) -> Result<(), NoMemory>
    ensures { into.new ≡ (if is_ok result then into.old ++ encode_utf8 character else into.old) }
{
    let mut buffer = [0; 4];
    into.append(character.encode_utf8(&mut buffer).as_bytes())
}

fn is_high(unit: u16) -> bool
    ensures { result ≡ is_high_surrogate unit }
{
    matches!(unit, 0xD800..=0xDBFF)
}

fn is_low(unit: u16) -> bool
    ensures { result ≡ is_low_surrogate unit }
{
    matches!(unit, 0xDC00..=0xDFFF)
}

/// The character of a pair of surrogates.
fn pair_character(high: u16, low: u16) -> Option<char>
    ensures { result ≡ (if is_high_surrogate high && is_low_surrogate low
        then Some (surrogate_pair_char high low) else None) }
{
    if !is_high(high) || !is_low(low) {
        return None;
    }
    char::from_u32(0x1_0000 + u32::from(high - 0xD800) * 0x400 + u32::from(low - 0xDC00))
}

/// The character of a unit that is in no pair.
fn lone_character(unit: u16) -> char
    ensures { result ≡ unwrap_or (lone_unit_char unit) 0xFFFD }
{
    char::from_u32(u32::from(unit)).unwrap_or(char::REPLACEMENT_CHARACTER)
}
