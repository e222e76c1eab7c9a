//! The verbs that search for patterns or texts: `cut`, `having-fields`, `rename`, `grep`, `sub`, `gsub` and `ssub`. The
//! fields of a verb's options are its words on the command line. A verb with patterns is `Searching` with its options: it
//! makes its matchers once for a list of records.
#![tactic(auto)]

mod cut;
mod grep;
mod gsub;
mod having_fields;
mod laws;
mod matchers;
mod passing;
mod rename;
mod rename_patterns;
mod searching;
mod ssub;
mod sub;
mod sub_fields;
mod substitution;

pub use cut::{Cut, CutFields, CutVerb};
pub use grep::{Grep, GrepVerb};
pub use gsub::{Gsub, GsubVerb};
pub use having_fields::{HavingFields, HavingFieldsVerb};
pub use laws::{cut_law, rename_back_law, renamed_law};
pub use matchers::{any_matches, matchers_of};
pub use rename::{Rename, RenameVerb};
pub use rename_patterns::RenamePatterns;
pub use searching::{Searches, Searching};
pub use ssub::Ssub;
pub use sub::{Sub, SubVerb};
pub use sub_fields::SubFields;
