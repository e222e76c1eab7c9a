//! The reader of XTAB and PPRINT.
ghost use Rattle.std.specs.Prelude.{◌≡◌};
ghost use Rattle.read_xtab_pprint.specs.Usable.{is_usable};

use crate::rules::BlockRules;
use mlr_event::{Format, ReadOpts};
use mlr_lines::Reader;

/// Reads one file of XTAB or PPRINT, whose bytes come in pieces that may be cut anywhere. In XTAB it holds
/// the current record, and the comments within it, until an empty line or the end of the file.
pub type BlockReader = Reader<BlockRules>;

/// Whether a reader can read with these options: the format is XTAB or PPRINT.
pub fn can_read(opts: &ReadOpts) -> bool
    ensures { result ≡ is_usable opts.now }
{
    match opts.format {
        Format::Xtab | Format::Pprint => true,
        _ => false,
    }
}
