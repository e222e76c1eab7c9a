//! Reads the fields of one line of a row.
ghost use Rattle.std.specs.Prelude.{◌≡◌, ◌<◌, length, OnOk, IfOk, IfSome, MatchOption};
ghost use Rattle.read_csv.specs.OpenRow.{no_row, row_taken};
ghost use Rattle.read_csv.specs.Naming.{IsGiven};

use crate::csv::{take_fields, take_quoted};
use crate::heading::Heading;
use crate::row::Row;
use crate::tsv::take_escaped;
use mlr_event::{Format, ReadOpts};
use mlr_record::Record;
use mlr_spec::NoMemory;

/// Reads a line of a row, without its line ending. Returns the row's record if the row is whole and each name of the
/// header has an unquoted field; else the row has the fields.
pub(crate) fn take_line(
    opts: &ReadOpts,
    header: &Option<Heading>,
    row: &mut Row,
    text: &[u8],
) -> Result<Option<Record>, NoMemory>
    requires { 0 < length opts.now.ifs }
    ensures made { IfOk result (λ made. MatchOption made
        (row.new ≡ row_taken opts.now row.old text.now)
        (λ given. IsGiven opts.now header.now (row_taken opts.now row.old text.now) given)) }
    ensures empty { IfOk result (λ made. IfSome made (λ given. row.new ≡ no_row)) }
{
    match (opts.format, header) {
        (Format::Csv, Some(heading)) if (opts.dedupe | heading.is_distinct()) && row.is_new() => {
            row.take_named(opts, heading.header(), text)
        }
        _ => {
            take_text(opts, row, text)?;
            Ok(None)
        }
    }
}

/// Reads a line of a row, without its line ending: its first line, or a further line within an open quote.
fn take_text(opts: &ReadOpts, row: &mut Row, text: &[u8]) -> Result<(), NoMemory>
    requires { 0 < length opts.now.ifs }
    ensures { OnOk result (row.new ≡ row_taken opts.now row.old text.now) }
{
    if row.is_open() {
        return match take_quoted(opts, row, text)? {
            Some(rest) => take_fields(opts, row, rest),
            None => Ok(()),
        };
    }
    match opts.format {
        Format::Tsv => take_escaped(opts, row, text),
        _ => take_fields(opts, row, text),
    }
}
