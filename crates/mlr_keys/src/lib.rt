//! The places of keys in a list: a search while they are few, and an index of their hashes once they are many.
#![tactic(auto)]

mod key_index;
mod key_places;

pub use key_places::{HasKey, KeyPlaces};
