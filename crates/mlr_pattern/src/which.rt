//! Whether the first match or all matches are replaced.
/// Which matches are replaced.
#[derive(Clone, Copy, Debug, PartialEq, Eq)]
pub enum Which {
    /// Only the first match.
    First,
    /// All matches, from left to right.
    All,
}
