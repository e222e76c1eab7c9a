//! Whether a writer is open, has ended or is broken.
/// What may still come.
#[derive(Clone, Copy, Debug, PartialEq, Eq)]
pub(crate) enum Stage {
    /// More records and texts, or the end.
    Open,
    /// Nothing: the end has come.
    Ended,
    /// Nothing: there was no memory.
    Broken,
}
