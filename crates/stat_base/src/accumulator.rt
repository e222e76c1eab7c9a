//! The accumulators of `stats1` and `merge-fields`.
ghost use Rattle.std.specs.Prelude.{◌≡◌, ◌++◌, List, ℕ, IfOk, IfSome, OnOk, None};
ghost use Rattle.std.specs.Fmt.{decimal};
ghost use Rattle.stat_base.specs.Accumulators.{accumulator_named, is_percentile, name_of, percentile_named};

use itoa::Buffer;
use mlr_spec::NoMemory;
use mlr_value::Bytes;
use std::alloc::Global;

/// A statistic of the values of a field.
#[derive(Clone, Copy)]
pub enum Accumulator {
    /// How many values there are.
    Count,
    Sum,
    /// The sum divided by the count.
    Mean,
    Min,
    Max,
    /// The most frequent value.
    Mode,
    /// The least frequent value.
    Antimode,
    First,
    Last,
    /// How many different values there are.
    DistinctCount,
    /// How many values are empty.
    NullCount,
    Median,
    /// The value that this percentage of the values, in their order, precedes.
    Percentile(u8),
}

impl Accumulator {
    /// The accumulator of this name.
    pub fn named(name: &[u8]) -> Option<Accumulator>
        ensures { result ≡ accumulator_named name.now }
    {
        if name == b"count".as_slice() {
            Some(Accumulator::Count)
        } else if name == b"sum".as_slice() {
            Some(Accumulator::Sum)
        } else if name == b"mean".as_slice() {
            Some(Accumulator::Mean)
        } else if name == b"min".as_slice() {
            Some(Accumulator::Min)
        } else if name == b"max".as_slice() {
            Some(Accumulator::Max)
        } else if name == b"mode".as_slice() {
            Some(Accumulator::Mode)
        } else if name == b"antimode".as_slice() {
            Some(Accumulator::Antimode)
        } else if name == b"first".as_slice() {
            Some(Accumulator::First)
        } else if name == b"last".as_slice() {
            Some(Accumulator::Last)
        } else if name == b"distinct_count".as_slice() {
            Some(Accumulator::DistinctCount)
        } else if name == b"null_count".as_slice() {
            Some(Accumulator::NullCount)
        } else if name == b"median".as_slice() {
            Some(Accumulator::Median)
        } else {
            percentile_named(name)
        }
    }

    /// Appends its name. It allocates if there is no room.
    pub fn append_name(self, into: &mut Bytes) -> Result<(), NoMemory>
        ensures { OnOk result (into.new ≡ into.old ++ name_of self) }
    {
        match self {
            Accumulator::Count => into.append(b"count"),
            Accumulator::Sum => into.append(b"sum"),
            Accumulator::Mean => into.append(b"mean"),
            Accumulator::Min => into.append(b"min"),
            Accumulator::Max => into.append(b"max"),
            Accumulator::Mode => into.append(b"mode"),
            Accumulator::Antimode => into.append(b"antimode"),
            Accumulator::First => into.append(b"first"),
            Accumulator::Last => into.append(b"last"),
            Accumulator::DistinctCount => into.append(b"distinct_count"),
            Accumulator::NullCount => into.append(b"null_count"),
            Accumulator::Median => into.append(b"median"),
            Accumulator::Percentile(percent) => {
                into.append(b"p")?;
                into.append(Buffer::new().format(percent).as_bytes())
            }
        }
    }
}

/// The percentile of this name.
fn percentile_named(name: &[u8]) -> Option<Accumulator>
    ensures { result ≡ percentile_named name.now }
{
    for percent in 0..101u8 {
        if is_percentile(name, percent) {
            return Some(Accumulator::Percentile(percent));
        }
    }
    None
}

/// Whether a name is that of a percentile.
fn is_percentile(name: &[u8], percent: u8) -> bool
    ensures { result ≡ is_percentile name.now percent }
{
    match name {
        [b'p', digits @ ..] => digits == Buffer::new().format(percent).as_bytes(),
        _ => false,
    }
}
