//! Short texts, which take no memory.
ghost use Rattle.std.specs.Prelude.{◌≡◌, ◌+◌, ◌*◌, ◌<◌, ◌≤◌, ◌++◌, ◌∷◌, ℕ, List, [], length, nat_le, take};
ghost use Rattle.std.specs.Str.{bytes_eq};
ghost use Rattle.mlr_value.specs.Stops.{has_stop};

use crate::stops::{has_stop_lane, lanes_before_stop};
use std::marker::Model;
use std::simd::prelude::*;

/// How many bytes a short text holds at most.
pub(crate) const CAPACITY: usize = 20;

/// How many bytes are compared or searched in one step.
pub(crate) const LANES: usize = 16;

/// A text of up to 20 bytes, which takes no memory. It lies as three words do, so that a copy is few moves.
#[derive(Drop)]
pub(crate) struct Short {
    words: [u64; 0],
    cells: [u8; CAPACITY],
    len: u32,
}

impl Model for Short {
    ghost use Rattle.std.specs.Prelude.{◌≡◌, ◌≤◌, ℕ, List, length, take};
    ghost use Rattle.mlr_value.specs.declared.short.TheConstants.{CAPACITY};

    ghost Value = { List ℕ };

    ghost view = { λ s. take s.len s.cells };

    ghost invariant = { λ s. (s.len ≤ CAPACITY) × (length s.cells ≡ CAPACITY) };
}

impl Short {
    /// The empty text.
    #[inline(always)]
    pub(crate) fn new() -> Self
        ensures { result ≡ [] }
    {
        Short {
            words: [],
            cells: [0; CAPACITY],
            len: 0,
        }
    }

    /// A short text of these bytes.
    #[inline(always)]
    pub(crate) fn copy_of(text: &[u8]) -> Self
        requires { length text.now ≤ CAPACITY }
        ensures { result ≡ text.now }
    {
        Short {
            words: [],
            cells: cells_of::<CAPACITY>(text),
            len: text.len() as u32,
        }
    }

    /// At most the first 16 bytes of a text that has as many.
    #[inline(always)]
    pub(crate) fn copy_of_first(text: &[u8], len: usize) -> Self
        requires short { len ≤ LANES }
        requires long { LANES ≤ length text.now }
        ensures { result ≡ take len text.now }
    {
        let mut cells = [0; CAPACITY];
        put_part::<CAPACITY>(&mut cells, 0, &text[..LANES]);
        Short {
            words: [],
            cells,
            len: len as u32,
        }
    }

    /// A copy of the same width whatever the text.
    #[inline(always)]
    pub(crate) fn copy(&self) -> Self
        ensures { result ≡ self.now }
    {
        Short {
            words: [],
            cells: self.cells,
            len: self.len,
        }
    }

    /// Appends the byte.
    #[inline(always)]
    pub(crate) fn push(&mut self, byte: u8)
        requires { length self.old < CAPACITY }
        ensures { self.new ≡ self.old ++ byte ∷ [] }
    {
        let len = self.len();
        self.cells[len] = byte;
        self.len += 1;
    }

    /// Appends the text.
    #[inline(always)]
    pub(crate) fn append(&mut self, text: &[u8])
        requires { length self.old + length text.now ≤ CAPACITY }
        ensures { self.new ≡ self.old ++ text.now }
    {
        let len = self.len();
        put::<CAPACITY>(&mut self.cells, len, text);
        self.len = (len + text.len()) as u32;
    }

    /// Takes all bytes out.
    #[inline(always)]
    pub(crate) fn clear(&mut self)
        ensures { self.new ≡ [] }
    {
        self.len = 0;
    }

    /// The text.
    #[inline(always)]
    pub(crate) fn as_slice(&self) -> &[u8]
        ensures { result.now ≡ self.now }
    {
        &self.cells[..self.len()]
    }

    /// Its first cells, which begin with a text of up to 16 bytes.
    #[inline(always)]
    pub(crate) fn first(&self) -> [u8; LANES]
        ensures prefix { length self.now ≤ LANES → take (length self.now) result ≡ self.now }
        ensures len { length result ≡ LANES }
    {
        let mut first = [0; LANES];
        first.copy_from_slice(&self.cells[..LANES]);
        first
    }

    /// Its cells, which begin with the text.
    #[inline(always)]
    pub(crate) fn cells(&self) -> &[u8; CAPACITY]
        ensures prefix { take (length self.now) result.now ≡ self.now }
        ensures len { length self.now ≤ CAPACITY }
    {
        &self.cells
    }

    /// Whether a text of up to 16 bytes is the same as another. All lanes are compared in one step.
    #[inline(always)]
    pub(crate) fn is(&self, other: &Short) -> bool
        requires { length self.now ≤ LANES }
        ensures { result ≡ bytes_eq self.now other.now }
    {
        self.len == other.len && self.len() <= equal_lanes(self.lanes(), other.lanes())
    }

    /// Whether it contains one of the stops. A text of up to 16 bytes is searched in one step, and a longer one in two, which
    /// overlap.
    #[inline(always)]
    pub(crate) fn has_stop(&self, stops: [u8; 4]) -> bool
        ensures { result ≡ has_stop stops self.now }
    {
        let len = self.len();
        if len <= LANES {
            return lanes_before_stop(self.lanes(), stops) < len;
        }
        has_stop_lane(self.lanes(), stops)
            || has_stop_lane(u8x16::from_slice(&self.cells[len - LANES..]), stops)
    }

    /// The lanes of its first cells.
    #[inline(always)]
    fn lanes(&self) -> u8x16
        ensures prefix { (n : ℕ) → n ≤ length self.now → n ≤ LANES → take n result ≡ take n self.now }
        ensures len { length result ≡ LANES }
    {
        u8x16::from_slice(&self.cells)
    }

    /// How many bytes it has.
    #[inline(always)]
    pub(crate) fn len(&self) -> usize
        ensures value { result ≡ length self.now }
        ensures bound { result ≤ CAPACITY }
    {
        self.len as usize
    }
}

/// How many lanes are equal before the first that differs; more than there are, if none does.
#[inline(always)]
fn equal_lanes(one: u8x16, other: u8x16) -> usize
    ensures { (n : ℕ) → n ≤ LANES → nat_le n result ≡ bytes_eq (take n one) (take n other) }
{
    one.simd_ne(other).to_bitmask().trailing_zeros() as usize
}

/// Cells that begin with the text.
#[inline(always)]
pub(crate) fn cells_of<const N: usize>(text: &[u8]) -> [u8; N]
    requires fits { length text.now ≤ N }
    requires small { N ≤ 32 }
    ensures prefix { take (length text.now) result ≡ text.now }
    ensures len { length result ≡ N }
{
    let mut cells = [0; N];
    put::<N>(&mut cells, 0, text);
    cells
}

/// Writes the text over the cells from `start` on. Its ends, of one width, cover it, so no copy is of a width that is
/// known only at run time.
#[inline(always)]
fn put<const N: usize>(cells: &mut [u8; N], start: usize, text: &[u8])
    requires fits { start + length text.now ≤ N }
    requires small { N ≤ 32 }
    ensures prefix { take (start + length text.now) cells.new ≡ take start cells.old ++ text.now }
    ensures len { length cells.new ≡ N }
{
    let len = text.len();
    if len >= 16 {
        put_ends::<N, 16>(cells, start, text);
    } else if len >= 8 {
        put_ends::<N, 8>(cells, start, text);
    } else if len >= 4 {
        put_ends::<N, 4>(cells, start, text);
    } else if len >= 2 {
        put_ends::<N, 2>(cells, start, text);
    } else if len == 1 {
        cells[start] = text[0];
    }
}

/// Writes the first `W` bytes of the text, and then its last `W`.
#[inline(always)]
fn put_ends<const N: usize, const W: usize>(cells: &mut [u8; N], start: usize, text: &[u8])
    requires fits { start + length text.now ≤ N }
    requires wide { W ≤ length text.now }
    requires covered { length text.now ≤ 2 * W }
    ensures prefix { take (start + length text.now) cells.new ≡ take start cells.old ++ text.now }
    ensures len { length cells.new ≡ N }
{
    let last = text.len() - W;
    put_part::<N>(cells, start, &text[..W]);
    put_part::<N>(cells, start + last, &text[last..]);
}

/// Writes a part of the text over the cells from `start` on.
#[inline(always)]
fn put_part<const N: usize>(cells: &mut [u8; N], start: usize, part: &[u8])
    requires { start + length part.now ≤ N }
    ensures prefix { take (start + length part.now) cells.new ≡ take start cells.old ++ part.now }
    ensures len { length cells.new ≡ N }
{
    cells[..start + part.len()][start..].copy_from_slice(part);
}
