//! The stage of a file that is being read.
/// What may still follow.
#[derive(Clone, Copy, Debug, PartialEq, Eq)]
pub(crate) enum Stage {
    /// More bytes or the end.
    Open,
    /// Nothing: the file has ended.
    Ended,
    /// Nothing: a call ran out of memory.
    Broken,
}
