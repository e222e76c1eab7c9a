//! Tests of the crates of data: values, JSON texts, records, events and groups.
#![tactic(auto)]

#[cfg(test)]
mod events;
#[cfg(test)]
mod groups;
#[cfg(test)]
mod json;
mod one_field;
#[cfg(test)]
mod records;
#[cfg(test)]
mod rows;
#[cfg(test)]
mod values;
