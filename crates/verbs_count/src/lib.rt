//! Verbs that count records: `count`, `count-distinct`, `most-frequent`, `least-frequent` and `uniq`.
#![tactic(auto)]

mod count;
mod count_distinct;
mod frequent;
mod group_counts;
mod group_numbers;
mod laws;
mod record_counts;
mod uniq;

pub use count::Count;
pub use count_distinct::CountDistinct;
pub use frequent::{Frequent, FrequentGroups, FrequentVerb};
pub use group_counts::{Counting, GroupCount, GroupCountVerb, group_count};
pub use group_numbers::{GroupNumberVerb, NumberOfGroups, group_number};
pub use laws::uniq_law;
pub use record_counts::{RecordCount, RecordCountVerb, record_count};
pub use uniq::{CountedFirst, Uniq, UniqCountedVerb, UniqFirstVerb, UniqShow};
