//! Dates and times of day, of values that hold whole seconds since 1970-01-01T00:00:00 in UTC.
#![tactic(auto)]

mod date;
mod gmt;
#[cfg(test)]
mod gmt_tests;

pub use gmt::{sec2gmt, sec2gmtdate};
