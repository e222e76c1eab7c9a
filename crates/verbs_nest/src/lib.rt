//! The verb `nest`, which explodes a value into records or fields, or implodes values into one.
#![tactic(auto)]

mod across_fields;
mod across_records;
mod implode;
mod nest;
mod pieces;
mod verb;

pub use across_fields::AcrossFields;
pub use across_records::AcrossRecords;
pub use implode::ImplodedRows;
pub use nest::{Nest, NestForm};
pub use verb::NestVerb;
