//! Texts searched for a few bytes, sixteen at a time.
ghost use Rattle.std.specs.Prelude.{◌≡◌, ◌≤◌, ℕ, length, map, nat_lt, take};
ghost use Rattle.std.specs.Simd.Lanes.{mask_l};
ghost use Rattle.mlr_value.specs.Stops.{has_stop, is_stop};

use crate::short::{LANES, cells_of};
use std::simd::prelude::*;

/// Whether the text contains one of the stops.
pub(crate) fn has_stop(text: &[u8], stops: [u8; 4]) -> bool
    ensures { result ≡ has_stop stops text.now }
{
    let mut rest = text;
    while rest.len() > LANES {
        if has_stop_lane(u8x16::from_slice(rest), stops) {
            return true;
        }
        rest = &rest[LANES..];
    }
    has_stop_short(rest, stops)
}

/// Whether a short text contains one of the stops.
fn has_stop_short(text: &[u8], stops: [u8; 4]) -> bool
    requires { length text.now ≤ LANES }
    ensures { result ≡ has_stop stops text.now }
{
    lanes_before_stop(u8x16::from_array(cells_of::<LANES>(text)), stops) < text.len()
}

/// How many lanes come before the first that is a stop; more than there are, if none is.
#[inline(always)]
pub(crate) fn lanes_before_stop(lanes: u8x16, stops: [u8; 4]) -> usize
    ensures { (n : ℕ) → n ≤ LANES → has_stop stops (take n lanes) ≡ nat_lt result n }
{
    stop_bits(lanes, stops).trailing_zeros() as usize
}

/// Whether a lane is one of the stops.
#[inline(always)]
pub(crate) fn has_stop_lane(lanes: u8x16, stops: [u8; 4]) -> bool
    ensures { result ≡ has_stop stops lanes }
{
    stop_bits(lanes, stops) != 0
}

/// Bit k is set where lane k is one of the stops.
#[inline(always)]
fn stop_bits(lanes: u8x16, stops: [u8; 4]) -> u64
    ensures { result ≡ mask_l (map (is_stop stops) lanes) }
{
    let found = lanes.simd_eq(u8x16::splat(stops[0]))
        | lanes.simd_eq(u8x16::splat(stops[1]))
        | lanes.simd_eq(u8x16::splat(stops[2]))
        | lanes.simd_eq(u8x16::splat(stops[3]));
    found.to_bitmask()
}
