//! The streaming verbs: `Spec` is a verb with its options, and `StreamVerb` is the verb in a chain. Each verb has a file of
//! its own in one of the crates below: verbs on fields, on values, with patterns, and with state.
#![tactic(auto)]

mod running;
mod spec;
mod verb;

pub use spec::Spec;
pub use verb::StreamVerb;
pub use verbs_fields::{
    Label, Reorder, SortWithinRecords, Sparsify, Template, Unspace, UnspacePart,
};
pub use verbs_pattern::{
    Cut, CutFields, Grep, Gsub, HavingFields, Rename, RenamePatterns, Ssub, Sub, SubFields,
};
pub use verbs_state::{Cat, Decimate, FillDown, Gap, Head, Repeat};
pub use verbs_values::{
    FillEmpty, Flatten, JsonParse, JsonStringify, Sec2Gmt, Sec2GmtDate, Unflatten,
};
