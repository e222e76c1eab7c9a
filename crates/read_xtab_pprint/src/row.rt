//! The outcome of a line.
use mlr_event::Fault;
use mlr_record::Record;

/// What a line of PPRINT that isn't a comment gives.
#[derive(Drop)]
pub(crate) enum Row {
    /// Nothing.
    Nothing,
    /// The fields of a record.
    Fields(Record),
    /// A fault, after which the file gives nothing more.
    Fault(Fault),
}
