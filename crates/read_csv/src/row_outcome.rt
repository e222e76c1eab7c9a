//! The outcome of a row.
use mlr_event::Fault;
use mlr_record::Record;

/// What an ended row, or one that continues on the next line, gives.
#[derive(Drop)]
pub(crate) enum RowOutcome {
    /// Nothing: the row is the header, or isn't ended.
    Nothing,
    /// The fields of a record.
    Fields(Record),
    /// A fault, after which the file gives nothing more.
    Fault(Fault),
}
