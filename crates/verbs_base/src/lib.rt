//! What all families of verbs share: the shape of a verb over records, whether it takes each record by itself
//! (`PerRecord`) or keeps state (`Stateful`), and the same verb over events; which fields a verb takes, and values changed
//! in their places.
#![tactic(auto)]

mod change;
mod choosing;
mod extraction;
mod field_choice;
mod over_events;
mod per_record;
mod stateful;
mod string;

pub use change::{Change, change_fields, change_named, change_record};
pub use choosing::{drop_named, is_empty, keep_named, pick_named};
pub use extraction::{move_named, move_named_last, place_of, take_field};
pub use field_choice::{is_among, is_named, is_taken};
pub use over_events::OverEvents;
pub use per_record::{Each, PerRecord};
pub use stateful::Stateful;
pub use string::string_of;
