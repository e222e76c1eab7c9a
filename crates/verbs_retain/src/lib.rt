//! The retaining verbs: `Spec` is a verb with its options, and `RetainVerb` is the verb in a chain. Each verb has a file of its own
//! in one of the crates below: verbs that count, that hold records back, and that sort.
#![tactic(auto)]

mod running;
mod spec;
mod verb;

pub use spec::Spec;
pub use verb::RetainVerb;
pub use verbs_count::{Count, CountDistinct, Frequent, Uniq, UniqShow};
pub use verbs_hold::{CountSimilar, Tail, Unsparsify};
pub use verbs_sort::{Sort, SortFlag};
