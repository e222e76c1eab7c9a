//! Tests of the crates of formats: what the readers make of texts, and what the writers make of records.
#![tactic(auto)]

mod blocks;
#[cfg(test)]
mod columns;
#[cfg(test)]
mod csv;
#[cfg(test)]
mod csv_files;
#[cfg(test)]
mod dkvp_nidx;
mod fields;
#[cfg(test)]
mod json_lines;
#[cfg(test)]
mod pieces;
#[cfg(test)]
mod readers;
#[cfg(test)]
mod written;
#[cfg(test)]
mod xtab_pprint;
