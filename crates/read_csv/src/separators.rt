//! The lengths of the fields of a line, which separators end.
ghost use Rattle.std.specs.Prelude.{◌≡◌, ◌<◌, ◌≤◌, ◌∷◌, [], length, drop};
ghost use Rattle.mlr_spec.specs.Split.{place_in};

use mlr_record::split::separator_place;
use std::simd::prelude::*;

/// The separators between the fields of a line.
pub(crate) trait Separators {
    ghost use Rattle.std.specs.Prelude.{◌≡◌, ◌≤◌, ℕ, List, length, drop};
    ghost use Rattle.mlr_spec.specs.Split.{place_in};

    /// The bytes of a separator.
    ghost separator: { Self → List ℕ };

    /// How many bytes the field has that begins at a place of the line, if a separator ends it.
    fn field_len(&self, line: &[u8], from: usize) -> Option<usize>
        requires { from ≤ length line.now }
        ensures { result ≡ place_in (separator self.now) (drop from line.now) };

    /// How many bytes a separator has.
    fn width(&self) -> usize
        ensures { result ≡ length (separator self.now) };
}

/// Separators of one byte, as most are.
#[derive(Drop)]
pub(crate) struct OneByte {
    pub(crate) byte: u8,
}

/// How many bytes are looked at in one step.
const LANES: usize = 16;

impl Separators for OneByte {
    ghost use Rattle.std.specs.Prelude.{◌∷◌, []};

    ghost separator = { λ s. s.byte ∷ [] };

    /// Most fields end within one step. Near the end of the line, the step looks at its last bytes, some of which precede
    /// the field.
    #[inline(always)]
    fn field_len(&self, line: &[u8], from: usize) -> Option<usize> {
        let rest = line.len() - from;
        if rest >= LANES {
            let near = place_among(self.byte, u8x16::from_slice(&line[from..]), 0);
            if near.is_some() {
                return near;
            }
        } else if line.len() >= LANES {
            let last = u8x16::from_slice(&line[line.len() - LANES..]);
            return place_among(self.byte, last, LANES - rest);
        }
        far_place(self.byte, &line[from..])
    }

    #[inline(always)]
    fn width(&self) -> usize {
        1
    }
}

/// The place of the first such byte among the lanes after those that are skipped.
#[inline(always)]
fn place_among(byte: u8, lanes: u8x16, skipped: usize) -> Option<usize>
    requires { skipped ≤ LANES }
    ensures { result ≡ place_in (byte ∷ []) (drop skipped lanes) }
{
    let found = lanes.simd_eq(u8x16::splat(byte)).to_bitmask() >> skipped;
    if found == 0 {
        return None;
    }
    Some(found.trailing_zeros() as usize)
}

/// The place of the first such byte of a text, however far it is.
#[inline(never)]
fn far_place(byte: u8, text: &[u8]) -> Option<usize>
    ensures { result ≡ place_in (byte ∷ []) text.now }
{
    separator_place(&[byte], text)
}

/// Separators of any width.
#[derive(Drop)]
pub(crate) struct AnyWidth<'s> {
    pub(crate) separator: &'s [u8],
    ghost some: { 0 < length separator.now },
}

impl Separators for AnyWidth<'_> {
    ghost separator = { λ s. s.separator.now };

    fn field_len(&self, line: &[u8], from: usize) -> Option<usize> {
        separator_place(self.separator, &line[from..])
    }

    fn width(&self) -> usize {
        self.separator.len()
    }
}
