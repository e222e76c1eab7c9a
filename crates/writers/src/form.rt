//! The one or the other half of a record.

/// The keys of a record or its values.
#[derive(Clone, Copy, Debug, PartialEq, Eq)]
pub(crate) enum Part {
    Keys,
    Values,
}
