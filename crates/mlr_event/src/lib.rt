//! What flows through a run: the names of inputs and outputs, the context of a record, and the events that a
//! reader makes, that verbs pass on and that the outlet writes.
#![tactic(auto)]

mod batch;
mod event;
mod events;
mod fault;
mod field_names;
mod laws;
pub mod models;
mod name_list;
mod names;
mod options;
mod refusal;
pub mod rows;
mod step;

pub use batch::{Batch, Tail};
pub use event::{Body, Ctx, Event, Piece};
pub use events::Events;
pub use fault::Fault;
pub use field_names::Names;
pub use laws::verb_laws;
pub use name_list::NameList;
pub use names::{FileRef, InputName, Mode, StyleId, Target};
pub use options::{Comments, Format, ReadOpts};
pub use refusal::{Refusal, Why};
pub use step::Step;
