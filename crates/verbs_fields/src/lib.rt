//! The verbs that choose, order and name the fields of a record: `altkv`, `label`, `reorder`, `sort-within-records`,
//! `sparsify`, `template` and `unspace`; and the tests and renamings by names that `having-fields` and `rename` need.
#![tactic(auto)]

mod altkv;
mod having;
mod label;
mod laws;
mod rename_names;
mod reorder;
mod sort_within_records;
mod sparsify;
mod template;
mod unspace;

pub use altkv::Altkv;
pub use having::{all_defined, any_defined, has_all, has_no_others};
pub use label::{Label, are_distinct};
pub use laws::{field_order_law, sparsify_law, template_law};
pub use rename_names::{Renaming, rename_each};
pub use reorder::Reorder;
pub use sort_within_records::SortWithinRecords;
pub use sparsify::Sparsify;
pub use template::Template;
pub use unspace::{Unspace, UnspacePart};
