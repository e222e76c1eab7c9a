//! Whether two sets of options are one style.
ghost use Rattle.std.specs.Prelude.{◌≡◌, ◌↔◌, [], false, IsTrue};
ghost use Rattle.writers.specs.Style.{IsSameStyle, if_used, unflattens, uses_bars, uses_header, uses_lists, uses_ofs, uses_ops, uses_quotes};

use crate::WriteOpts;
use mlr_event::Format;
use mlr_value::Bytes;

impl WriteOpts {
    /// Whether both are one style, in which every record is written alike: they differ only in what their format
    /// ignores. It takes no memory.
    pub fn is_same_style(&self, other: &WriteOpts) -> bool
        ensures { IsTrue result ↔ IsSameStyle self.now other.now }
    {
        let format = self.format;
        let nested = unflattens(self);
        (format == other.format)
            & are_same_texts(uses_ofs(format), &self.ofs, &other.ofs)
            & are_same_texts(uses_ops(format), &self.ops, &other.ops)
            & are_same_flags(uses_header(format), self.headerless, other.headerless)
            & are_same_flags(uses_quotes(format), self.quote_all, other.quote_all)
            & are_same_flags(uses_bars(format), self.barred, other.barred)
            & are_same_flags(uses_lists(format), self.stacked, other.stacked)
            & are_same_flags(uses_lists(format), self.listwrap, other.listwrap)
            & (self.flatten == other.flatten)
            & (nested == unflattens(other))
            & are_same_texts(self.flatten | nested, &self.flatsep, &other.flatsep)
    }
}

/// Whether two texts are the same, if they are used.
fn are_same_texts(used: bool, text: &Bytes, other: &Bytes) -> bool
    ensures { IsTrue result ↔ (if_used used [] text.now ≡ if_used used [] other.now) }
{
    !used || text == other
}

/// Whether two flags are the same, if they are used.
fn are_same_flags(used: bool, flag: bool, other: bool) -> bool
    ensures { IsTrue result ↔ (if_used used false flag ≡ if_used used false other) }
{
    !used || flag == other
}

/// Whether records are unflattened.
fn unflattens(opts: &WriteOpts) -> bool
    ensures { result ≡ unflattens opts.now }
{
    !opts.flatten && opts.unflatten && opts.flatsep.len() > 0
}

/// Whether a format has a separator of fields.
fn uses_ofs(format: Format) -> bool
    ensures { result ≡ uses_ofs format }
{
    matches!(
        format,
        Format::Csv | Format::Tsv | Format::Dkvp | Format::Nidx
    )
}

/// Whether a format has a separator of a key and its value.
fn uses_ops(format: Format) -> bool
    ensures { result ≡ uses_ops format }
{
    matches!(format, Format::Dkvp)
}

/// Whether a format has a header that can be left out.
fn uses_header(format: Format) -> bool
    ensures { result ≡ uses_header format }
{
    matches!(format, Format::Csv | Format::Tsv | Format::Pprint)
}

/// Whether a format has quotes.
fn uses_quotes(format: Format) -> bool
    ensures { result ≡ uses_quotes format }
{
    matches!(format, Format::Csv)
}

/// Whether a format has bars that can be left out.
fn uses_bars(format: Format) -> bool
    ensures { result ≡ uses_bars format }
{
    matches!(format, Format::Pprint)
}

/// Whether a format has lists.
fn uses_lists(format: Format) -> bool
    ensures { result ≡ uses_lists format }
{
    matches!(format, Format::Json)
}
