//! Verbs that hold records back and give them at the end: `count-similar`, `group-by`, `group-like`, `tac`, `tail` and
//! `unsparsify`.
#![tactic(auto)]

mod by_place;
mod count_similar;
mod group_by;
mod group_like;
mod held_rows;
mod laws;
mod tac;
mod tail;
mod unsparsify;
mod unsparsify_fields;

pub use count_similar::{CountSimilar, CountSimilarVerb, SimilarRows};
pub use group_by::{GroupByVerb, group_by_verb};
pub use group_like::{GroupLikeVerb, group_like_verb};
pub use held_rows::HeldRows;
pub use laws::{count_similar_law, tac_law};
pub use tac::{TacRows, TacVerb};
pub use tail::{LastRows, Tail, TailVerb};
pub use unsparsify::{Unsparsify, UnsparsifyRows, UnsparsifyVerb, unsparsify_rows};
pub use unsparsify_fields::UnsparsifyFields;
