//! The least suffix that makes a free name.
ghost use Rattle.std.specs.Prelude.{◌≡◌, ◌^◌, ◌<◌, length, true, false, IfOk};
ghost use Rattle.mlr_event.specs.Reading.{is_among, suffixed};
ghost use Rattle.mlr_fields.specs.Suffixes.{AreTaken};

use itoa::Buffer;
use mlr_event::rows::TakenNames;
use mlr_spec::NoMemory;
use mlr_value::Bytes;
use std::alloc::Global;

/// The number of the first suffix.
pub(crate) const FIRST: usize = 2;

/// The name with a number appended.
fn suffixed(alloc: Global, name: &[u8], number: usize) -> Result<Bytes, NoMemory>
    ensures { IfOk result (λ text. text ≡ suffixed name.now number) }
{
    let mut text = Bytes::copy_of(alloc, name)?;
    text.append(b"_")?;
    text.append(Buffer::new().format(number).as_bytes())?;
    Ok(text)
}

/// The least number from `first` up whose suffix makes a free name, and that name. The numbers before
/// `first` are taken.
pub(crate) fn first_free<N: TakenNames>(
    alloc: Global,
    names: &N,
    name: &[u8],
    first: usize,
) -> Result<(usize, Bytes), NoMemory>
    requires few { length (N.names names.now) < 2 ^ 63 }
    requires there { is_among (N.names names.now) name.now ≡ true }
    requires taken { AreTaken (N.names names.now) name.now first }
    ensures name { IfOk result (λ found. found.1 ≡ suffixed name.now found.0) }
    ensures free { IfOk result (λ found. is_among (N.names names.now) found.1 ≡ false) }
    ensures least { IfOk result (λ found. AreTaken (N.names names.now) name.now found.0) }
{
    for number in first..names.count() + 3 {
        let text = suffixed(alloc, name, number)?;
        if !names.has(text.as_slice()) {
            return Ok((number, text));
        }
    }
    Ok((first, Bytes::copy_of(alloc, name)?))
}
