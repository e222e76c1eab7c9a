//! Texts in which some bytes are escaped.
ghost use Rattle.std.specs.Prelude.{◌≡◌, ◌++◌, OnOk};
ghost use Rattle.std.specs.List.{flat_map};
ghost use Rattle.std.specs.Option.{option_to_list};

use crate::fields::append_next;
use mlr_spec::NoMemory;
use mlr_value::Bytes;

/// The bytes that are escaped, and how.
pub(crate) trait Escape {
    ghost use Rattle.std.specs.Prelude.{◌≡◌, ◌++◌, ◌∷◌, [], ℕ, List, OnOk, false};
    ghost use Rattle.mlr_value.specs.Stops.{is_stop};

    /// How a byte is written.
    ghost escaped: { ℕ → List ℕ };

    /// All bytes that aren't written as they are.
    fn stops() -> [u8; 4]
        ensures { (b : ℕ) → is_stop result b ≡ false → escaped b ≡ b ∷ [] };

    /// Appends a byte.
    fn append_byte(byte: u8, out: &mut Bytes) -> Result<(), NoMemory>
        ensures { OnOk result (out.new ≡ out.old ++ escaped byte) };
}

/// Appends a text with its escapes, and then the byte, if there is one: at once, if it has none.
#[inline(always)]
pub(crate) fn append_escaped<E: Escape>(
    text: &Bytes,
    next: Option<u8>,
    out: &mut Bytes,
) -> Result<(), NoMemory>
    ensures { OnOk result (out.new ≡ out.old
        ++ flat_map E.escaped text.now ++ option_to_list next) }
{
    if out.append_plain_then(text, next, E::stops())? {
        Ok(())
    } else {
        append_each::<E>(text.as_slice(), next, out)
    }
}

/// Appends a text byte by byte, and then the byte, if there is one.
#[inline(never)]
fn append_each<E: Escape>(text: &[u8], next: Option<u8>, out: &mut Bytes) -> Result<(), NoMemory>
    ensures { OnOk result (out.new ≡ out.old
        ++ flat_map E.escaped text.now ++ option_to_list next) }
{
    for byte in text {
        E::append_byte(*byte, out)?;
    }
    append_next(next, out)
}
