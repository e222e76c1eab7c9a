//! The reader of DKVP, NIDX and Markdown.
ghost use Rattle.std.specs.Prelude.{◌≡◌};
ghost use Rattle.read_dkvp_nidx.specs.Usable.{is_usable};

use crate::rules::LineRules;
use mlr_event::{Format, ReadOpts};
use mlr_lines::Reader;

/// Reads one file of DKVP, NIDX or Markdown, whose bytes come in pieces that may be cut anywhere.
pub type LineReader = Reader<LineRules>;

/// Whether a reader can read with these options: the format is one of these, and its separators aren't empty.
pub fn can_read(opts: &ReadOpts) -> bool
    ensures { result ≡ is_usable opts.now }
{
    match opts.format {
        Format::Dkvp => !opts.ifs.is_empty() && !opts.ips.is_empty(),
        Format::Nidx => !opts.ifs.is_empty(),
        Format::Markdown => true,
        _ => false,
    }
}
