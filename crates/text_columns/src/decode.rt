//! Lines of cells read off their bytes.
ghost use Rattle.std.specs.Prelude.{◌≡◌, ◌≤◌, drop, length, take};
ghost use Rattle.text_columns.specs.Chunks.{after_cell, first_cell, first_length, long_length};

/// The number that bytes begin with, and the bytes after it.
#[inline(always)]
pub(crate) fn first_length(bytes: &[u8]) -> (usize, &[u8])
    ensures number { result.0 ≡ (first_length bytes.now).0 }
    ensures rest { result.1.now ≡ (first_length bytes.now).1 }
{
    match bytes {
        [] => (0, bytes),
        [length, rest @ ..] if *length < 255 => (*length as usize, rest),
        [_, rest @ ..] => long_length(rest),
    }
}

/// The number that the next eight bytes hold, and the bytes after them.
#[inline(never)]
fn long_length(bytes: &[u8]) -> (usize, &[u8])
    ensures number { result.0 ≡ (long_length bytes.now).0 }
    ensures rest { result.1.now ≡ (long_length bytes.now).1 }
{
    match bytes {
        [a, b, c, d, e, f, g, h, rest @ ..] => (
            u64::from_le_bytes([*a, *b, *c, *d, *e, *f, *g, *h]) as usize,
            rest,
        ),
        _ => (0, &[]),
    }
}

/// The length of the cell that bytes begin with, the bytes from its text on, and the bytes after it.
#[inline(always)]
pub(crate) fn first_cell(bytes: &[u8]) -> (usize, &[u8], &[u8])
    ensures text { take result.0 result.1.now ≡ first_cell bytes.now }
    ensures rest { result.2.now ≡ after_cell bytes.now }
    ensures inside { result.0 ≤ length result.1.now }
{
    let (length, cell) = first_length(bytes);
    let length = length.min(cell.len());
    let (_, following) = cell.split_at(length);
    (length, cell, following)
}
