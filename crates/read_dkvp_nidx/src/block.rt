//! The place of a line in a Markdown table.
use mlr_fields::Header;

/// The place of the next line of a Markdown file.
#[derive(Drop)]
pub(crate) enum Block {
    /// The first line of a table, or a line outside tables.
    Outside,
    /// The second line of a table with this header.
    Under(Header),
    /// A later line of a table with this header.
    Within(Header),
}
