//! CSV, after RFC 4180.
ghost use Rattle.std.specs.Prelude.{◌≡◌, ◌++◌, ◌||◌, OnOk, is_some};
ghost use Rattle.std.specs.List.{list_any};
ghost use Rattle.std.specs.Option.{option_to_list};
ghost use Rattle.mlr_spec.specs.Split.{place_in};
ghost use Rattle.writers.specs.Cells.{texts};
ghost use Rattle.writers.specs.Csv.{csv_field, csv_line, quoted, unless_stop, wants_quotes};

use crate::WriteOpts;
use crate::cell::{CellText, InCells};
use crate::escape::{Escape, append_escaped};
use crate::fields::{append_fields, append_marked_line, append_next};
use crate::form::Part;
use crate::rows::RowFormat;
use mlr_record::Record;
use mlr_record::split::separator_place;
use mlr_spec::NoMemory;
use mlr_value::Bytes;

/// How the rows of CSV are written.
#[derive(Drop)]
pub(crate) struct CsvRows<'a> {
    pub(crate) opts: &'a WriteOpts,
}

/// Cells that a quote, LF, CR and the separator alone put in quotes.
#[derive(Drop)]
struct PlainCells {
    separator: u8,
}

impl CellText for PlainCells {
    ghost cell = { λ cells text. unless_stop cells.separator text };

    #[inline(always)]
    fn append_cell(&self, text: &Bytes, next: Option<u8>, out: &mut Bytes) -> Result<(), NoMemory> {
        if out.append_plain_then(text, next, [b'"', b'\n', b'\r', self.separator])? {
            Ok(())
        } else {
            append_quoted(text, next, out)
        }
    }
}

/// Cells that are looked at by the options.
#[derive(Drop)]
struct AnyCells<'a> {
    opts: &'a WriteOpts,
}

impl<'a> CellText for AnyCells<'a> {
    ghost cell = { λ cells text. csv_field cells.opts.now text };

    fn append_cell(&self, text: &Bytes, next: Option<u8>, out: &mut Bytes) -> Result<(), NoMemory> {
        if self.opts.quote_all || is_special(self.opts.ofs.as_slice(), text.as_slice()) {
            append_quoted(text, next, out)
        } else {
            out.append_then(text, next)
        }
    }
}

impl<'a> RowFormat for CsvRows<'a> {
    ghost headerless = { λ rows. rows.opts.now.headerless };

    ghost header_of = { λ rows keys. csv_line rows.opts.now keys };

    ghost row_of = { λ rows values. csv_line rows.opts.now values };

    #[inline(always)]
    fn is_headerless(&self) -> bool {
        self.opts.headerless
    }

    fn append_header(
        &self,
        fields: &Record,
        scratch: &mut Bytes,
        out: &mut Bytes,
    ) -> Result<(), NoMemory> {
        append_csv_line(self.opts, Part::Keys, fields, scratch, out)
    }

    #[inline]
    fn append_values(
        &self,
        fields: &Record,
        scratch: &mut Bytes,
        out: &mut Bytes,
    ) -> Result<(), NoMemory> {
        append_csv_line(self.opts, Part::Values, fields, scratch, out)
    }
}

/// Appends a line of keys or values. One that would be empty is two quotes.
fn append_csv_line(
    opts: &WriteOpts,
    part: Part,
    fields: &Record,
    scratch: &mut Bytes,
    out: &mut Bytes,
) -> Result<(), NoMemory>
    ensures { OnOk result (out.new ≡ out.old ++ csv_line opts.now (texts part fields.now)) }
{
    let separator = opts.ofs.as_slice();
    if opts.quote_all || separator.len() != 1 || fields.len() < 2 {
        return append_any_line(opts, part, fields, scratch, out);
    }
    let cells = PlainCells {
        separator: separator[0],
    };
    append_marked_line(
        InCells { cells, part },
        separator[0],
        fields.fields(),
        scratch,
        out,
    )
}

/// Appends a line of any cells with any separator.
#[inline(never)]
fn append_any_line(
    opts: &WriteOpts,
    part: Part,
    fields: &Record,
    scratch: &mut Bytes,
    out: &mut Bytes,
) -> Result<(), NoMemory>
    ensures { OnOk result (out.new ≡ out.old ++ csv_line opts.now (texts part fields.now)) }
{
    let before = out.len();
    let form = InCells {
        cells: AnyCells { opts },
        part,
    };
    append_fields(&form, opts.ofs.as_slice(), fields.fields(), scratch, out)?;
    if out.len() == before {
        out.append(b"\"\"")?;
    }
    out.push(b'\n')
}

/// Whether the text contains a quote, LF, CR or the separator.
fn is_special(separator: &[u8], text: &[u8]) -> bool
    ensures { result ≡ (list_any wants_quotes text.now
        || is_some (place_in separator.now text.now)) }
{
    has_special(text) || holds(separator, text)
}

/// Whether the text contains a quote, LF or CR.
#[inline]
fn has_special(text: &[u8]) -> bool
    ensures { result ≡ list_any wants_quotes text.now }
{
    text.iter()
        .any(|b| *b == b'"' || *b == b'\n' || *b == b'\r')
}

/// Whether the text contains the separator. Every text that isn't empty contains an empty one.
fn holds(separator: &[u8], text: &[u8]) -> bool
    ensures { result ≡ is_some (place_in separator.now text.now) }
{
    if separator.len() == 0 {
        return text.len() > 0;
    }
    separator_place(separator, text).is_some()
}

/// Appends a text in quotes, and then the byte, if there is one.
#[inline(never)]
fn append_quoted(text: &Bytes, next: Option<u8>, out: &mut Bytes) -> Result<(), NoMemory>
    ensures { OnOk result (out.new ≡ out.old ++ quoted text.now ++ option_to_list next) }
{
    out.push(b'"')?;
    append_escaped::<Quotes>(text, Some(b'"'), out)?;
    append_next(next, out)
}

/// A quote in quotes is written twice.
#[derive(Drop)]
struct Quotes;

impl Escape for Quotes {
    ghost use Rattle.writers.specs.Csv.{csv_escaped};

    ghost escaped = { csv_escaped };

    #[inline(always)]
    fn stops() -> [u8; 4] {
        [b'"'; 4]
    }

    #[inline]
    fn append_byte(byte: u8, out: &mut Bytes) -> Result<(), NoMemory> {
        match byte {
            b'"' => out.append(b"\"\""),
            _ => out.push(byte),
        }
    }
}
