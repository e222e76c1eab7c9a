//! A plan says what a command reads, through which verbs its records go, and how they are written. Its parts are a
//! `LeftReader`, a `Reader`, a `Chain` of verbs and an `Outlet`; `run_serial` runs them one after the other.
#![tactic(auto)]

mod laws;
mod left_reader;
mod plan_outlet;
mod reader;
mod run;
mod serial;

pub use laws::meaning_laws;
pub use left_files::{LeftFile, LeftTurn};
pub use left_reader::LeftReader;
pub use mlr_event::NameList;
pub use outlet::Let;
pub use plan_outlet::Outlet;
pub use plan_verbs::{Chain, Lefts, Plan, StyleList, Verb, VerbList, left_files_of, lefts_for};
pub use read_files::ReadTurn;
pub use reader::Reader;
pub use run::run_serial;
pub use serial::Serial;
pub use serial_core::{Ended, Refusal, SerialTurn, Why};
pub use verb_specs::VerbSpec;
