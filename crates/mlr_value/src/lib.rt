//! Values: byte texts, the value enum with the spelling that numbers were read with, maps and arrays of values, and
//! the inference of texts from data. Contracts see a value as a `Tree`.
#![tactic(auto)]

mod arithmetic;
mod array_value;
mod bytes;
mod map_value;
mod order;
mod short;
mod stops;
mod value;

pub use arithmetic::{arith, arith1};
pub use array_value::ArrayValue;
pub use bytes::Bytes;
pub use map_value::{MapValue, Pair};
pub use mlr_infer::infer;
pub use mlr_spec::{InferOpts, Kind, Op, Op1, Order};
pub use mlr_tables::{FLAG_ROWS, Table, functions, main_flags, separators, verbs};
pub use order::compare;
pub use value::{IntValue, Value, append_text, from_data, from_data_first, text_of};
