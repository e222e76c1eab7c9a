//! Open brackets, and what may follow them.
use mlr_value::{ArrayValue, Bytes, MapValue};

/// A bracket that is open, with what was read since.
#[derive(Drop)]
pub enum Frame {
    /// An array with its items so far.
    Array(ArrayValue),
    /// A map with its pairs so far, and the key that was read last.
    Map(MapValue, Bytes),
}

/// What may come next after the innermost open bracket, or at the start of a value.
#[derive(Clone, Copy, Debug, PartialEq, Eq)]
pub enum Phase {
    /// A value.
    Value,
    /// The first item of an array, or its end.
    FirstItem,
    /// The first key of a map, or its end.
    FirstKey,
    /// A key.
    Key,
    /// The colon after a key.
    Colon,
    /// A comma, or the end of the array or the map.
    Later,
}
