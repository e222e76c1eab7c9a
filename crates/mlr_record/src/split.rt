//! Texts split at a separator.
ghost use Rattle.std.specs.Prelude.{◌≡◌, ◌+◌, ◌<◌, ◌≤◌, ◌∷◌, ℕ, length, map, IfSome};
ghost use Rattle.std.specs.Simd.Lanes.{mask_l};
ghost use Rattle.std.specs.Option.{option_map};
ghost use Rattle.memchr.specs.Find.{IsFirstByte, Passes, is_byte};
ghost use Rattle.mlr_spec.specs.Split.{place_in, split_by};
ghost use Rattle.mlr_record.specs.Parts.{first_part, after_first, parts_of_rest};

use memchr::{memchr, memmem};
use std::simd::prelude::*;

/// The place of the first separator in the text. It takes no memory.
#[inline(always)]
pub fn separator_place(separator: &[u8], text: &[u8]) -> Option<usize>
    requires { 0 < length separator.now }
    ensures place { result ≡ place_in separator.now text.now }
    ensures inside { IfSome result (λ place. place + length separator.now ≤ length text.now) }
{
    if separator.len() == 1 {
        byte_place(separator[0], text)
    } else {
        memmem::find(text, separator)
    }
}

/// How many bytes are looked at in one step.
const LANES: usize = 16;

/// The place of the first such byte. Most parts are short: so the first bytes are looked at without a call, in one step where there
/// are enough of them.
#[inline(always)]
fn byte_place(byte: u8, text: &[u8]) -> Option<usize>
    ensures { IsFirstByte (is_byte byte) text.now result }
{
    if text.len() < LANES {
        return near_place(byte, text);
    }
    let found = equal_bits(byte, u8x16::from_slice(text));
    if found != 0 {
        return Some(found.trailing_zeros() as usize);
    }
    far_place(byte, text, LANES)
}

/// Bit k is set where lane k is this byte.
#[inline(always)]
fn equal_bits(byte: u8, lanes: u8x16) -> u64
    ensures { result ≡ mask_l (map (is_byte byte) lanes) }
{
    lanes.simd_eq(u8x16::splat(byte)).to_bitmask()
}

/// The place of the first such byte in a text of few bytes, which are looked at one by one.
#[inline(always)]
fn near_place(byte: u8, text: &[u8]) -> Option<usize>
    ensures { IsFirstByte (is_byte byte) text.now result }
{
    for place in 0..text.len() {
        if text[place] == byte {
            return Some(place);
        }
    }
    None
}

/// The place of the first such byte, of which there is none before `from`.
#[inline(never)]
fn far_place(byte: u8, text: &[u8], from: usize) -> Option<usize>
    requires inside { from ≤ length text.now }
    requires none { (place : ℕ) → place < from → Passes (is_byte byte) text.now place → ⊥ }
    ensures { IsFirstByte (is_byte byte) text.now result }
{
    match memchr(byte, &text[from..]) {
        None => None,
        Some(place) => Some(from + place),
    }
}

/// The part of the text before the first separator, and the text after that separator, where the next part
/// begins. It doesn't allocate.
#[inline(always)]
pub fn next_part<'t>(separator: &[u8], text: &'t [u8]) -> (&'t [u8], Option<&'t [u8]>)
    requires { 0 < length separator.now }
    ensures part { result.0.now ≡ first_part separator.now text.now }
    ensures rest { option_map (λ rest. rest.now) result.1 ≡ after_first separator.now text.now }
    ensures shorter { IfSome result.1 (λ rest. length rest.now < length text.now) }
    ensures parts { split_by separator.now text.now
        ≡ result.0.now ∷ parts_of_rest separator.now (option_map (λ rest. rest.now) result.1) }
{
    match separator_place(separator, text) {
        None => (text, None),
        Some(place) => (&text[..place], Some(&text[place + separator.len()..])),
    }
}

/// How many parts the text has between the separators. It takes no memory.
pub fn count_parts(separator: &[u8], text: &[u8]) -> usize
    requires { 0 < length separator.now }
    ensures { result ≡ length (split_by separator.now text.now) }
{
    let mut count = 1;
    let mut left = text;
    while let (_, Some(rest)) = next_part(separator, left) {
        count += 1;
        left = rest;
    }
    count
}
