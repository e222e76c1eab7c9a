//! The verbs whose output for a record depends on the records before it, with `repeat`, which gives a record
//! several times, and `nothing`, which gives none.
#![tactic(auto)]

mod cat;
mod counted;
mod decimate;
mod fill_down;
mod gap;
mod head;
mod laws;
mod nothing;
mod regularize;
mod repeat;

pub use cat::{Cat, CatVerb};
pub use decimate::{Decimate, DecimateVerb};
pub use fill_down::{FillDown, FillDownVerb};
pub use gap::{Gap, GapVerb};
pub use head::{Head, HeadVerb};
pub use laws::{cat_law, head_law, nothing_law, regularize_law};
pub use nothing::Nothing;
pub use regularize::RegularizeVerb;
pub use repeat::{Repeat, RepeatVerb};
