//! Lists in an order, and vectors that are sorted by one, where elements that tie keep their order.
#![tactic(auto)]

mod laws;
mod vector;

pub use laws::order_laws;
pub use vector::sort_in_order;
