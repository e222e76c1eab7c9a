//! Bytes that repeat, as the spaces that fill a column.
ghost use Rattle.std.specs.Prelude.{◌≡◌, ◌++◌, ◌∷◌, [], ◌-◌, ◌≤◌, OnOk, replicate};
ghost use Rattle.std.specs.Option.{option_to_list};

use mlr_spec::NoMemory;
use mlr_value::Bytes;
use std::alloc::Global;

/// Enough spaces for most columns.
const SPACES: &[u8; 16] = b"                ";

/// Appends the spaces that a text of this length needs to fill its column, and then the byte, if there is one. Up to 16
/// spaces are copied in the same few moves.
#[inline(always)]
pub(crate) fn append_padding(
    alloc: Global,
    length: usize,
    width: usize,
    next: Option<u8>,
    out: &mut Bytes,
) -> Result<(), NoMemory>
    ensures { OnOk result (out.new ≡ out.old
        ++ replicate (width - length) 32 ++ option_to_list next) }
{
    let missing = width.saturating_sub(length);
    if missing <= SPACES.len() {
        append_spaces(alloc, missing, next, out)
    } else {
        append_repeated(b' ', missing, out)?;
        append_next(next, out)
    }
}

/// Appends so many spaces, and then the byte, if there is one.
#[inline(always)]
fn append_spaces(
    alloc: Global,
    count: usize,
    next: Option<u8>,
    out: &mut Bytes,
) -> Result<(), NoMemory>
    requires { count ≤ 16 }
    ensures { OnOk result (out.new ≡ out.old ++ replicate count 32 ++ option_to_list next) }
{
    let spaces = Bytes::copy_of_first(alloc, SPACES, count)?;
    out.append_then(&spaces, next)
}

/// Appends the byte, if there is one.
fn append_next(next: Option<u8>, out: &mut Bytes) -> Result<(), NoMemory>
    ensures { OnOk result (out.new ≡ out.old ++ option_to_list next) }
{
    match next {
        Some(byte) => out.push(byte),
        None => Ok(()),
    }
}

/// Appends the spaces between a text of this length and the column that follows its own.
#[inline(always)]
pub(crate) fn append_gap(length: usize, width: usize, out: &mut Bytes) -> Result<(), NoMemory>
    ensures { OnOk result (out.new ≡ out.old ++ replicate (width - length) 32 ++ 32 ∷ []) }
{
    let missing = width.saturating_sub(length);
    if missing < SPACES.len() {
        out.append(spaces(missing + 1))
    } else {
        append_repeated(b' ', missing, out)?;
        out.push(b' ')
    }
}

/// So many spaces.
#[inline(always)]
fn spaces(count: usize) -> &'static [u8]
    requires { count ≤ 16 }
    ensures { result.now ≡ replicate count 32 }
{
    &SPACES[..count]
}

/// Appends a byte, so many times.
#[inline(never)]
pub(crate) fn append_repeated(byte: u8, times: usize, out: &mut Bytes) -> Result<(), NoMemory>
    ensures { OnOk result (out.new ≡ out.old ++ replicate times byte) }
{
    for _done in 0..times {
        out.push(byte)?;
    }
    Ok(())
}
