//! Batches, in which events go from one thread to the next.
use crate::Events;

/// What follows a batch.
#[derive(Clone, Copy, Debug, PartialEq, Eq)]
pub enum Tail {
    /// More batches.
    More,
    /// Nothing: the last event of the batch is an end or a fault.
    Last,
    /// Nothing: the stage before ended without an end or a fault.
    Cut,
}

/// Events that are handed on together. An end or a fault is the last event of a batch whose tail is `Last`, and in
/// no other place of any batch.
#[derive(Drop)]
pub struct Batch {
    pub events: Events,
    pub tail: Tail,
}
