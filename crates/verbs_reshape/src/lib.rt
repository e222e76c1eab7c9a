//! `reshape`, in both directions: to long, a record for each selected field, and to wide, a record for each group of
//! records. The fields of its options are its words on the command line.
#![tactic(auto)]

mod filling;
mod reshape;
mod to_long;
mod to_wide;
mod wide_row;

pub use reshape::{Reshape, ReshapeVerb};
pub use to_long::{LongFields, ToLong, ToLongVerb};
pub use to_wide::{ToWide, ToWideVerb};
