//! The place of a stream between records, and the kinds of faults.
/// The place of a stream, with respect to a list of records.
#[derive(Clone, Copy, Debug, PartialEq, Eq)]
pub(crate) enum Listing {
    /// Outside lists.
    Outside,
    /// After the bracket that opens a list.
    First,
    /// After a record of a list.
    After,
    /// After a comma of a list.
    Next,
}

/// The kind of a fault.
#[derive(Clone, Copy, Debug, PartialEq, Eq)]
pub(crate) enum Trouble {
    /// The text isn't a prefix of any JSON text.
    Syntax,
    /// A bracket opens level 101.
    Deep,
    /// A value where a record is required isn't a map.
    Kind,
}
