//! The reader of CSV and TSV.
ghost use Rattle.std.specs.Prelude.{◌≡◌};
ghost use Rattle.read_csv.specs.Usable.{is_usable};

use crate::rules::RowRules;
use mlr_event::{Format, ReadOpts};
use mlr_lines::Reader;

/// Reads one file of CSV or TSV, whose bytes come in pieces that may be cut anywhere.
pub type CsvReader = Reader<RowRules>;

/// Whether a reader can read with these options: the format is CSV or TSV, and the separator isn't empty.
pub fn can_read(opts: &ReadOpts) -> bool
    ensures { result ≡ is_usable opts.now }
{
    match opts.format {
        Format::Csv | Format::Tsv => !opts.ifs.is_empty(),
        _ => false,
    }
}
