//! TSV: tab, LF and backslash are escaped.
ghost use Rattle.std.specs.Prelude.{◌≡◌, ◌++◌, OnOk};
ghost use Rattle.writers.specs.Cells.{texts};
ghost use Rattle.writers.specs.Tsv.{tsv_field, tsv_line};

use crate::WriteOpts;
use crate::cell::{CellText, InCells};
use crate::escape::{Escape, append_escaped};
use crate::fields::append_line;
use crate::form::Part;
use crate::rows::RowFormat;
use mlr_record::Record;
use mlr_spec::NoMemory;
use mlr_value::Bytes;

/// How the rows of TSV are written.
#[derive(Drop)]
pub(crate) struct TsvRows<'a> {
    pub(crate) opts: &'a WriteOpts,
}

/// Cells with escapes.
#[derive(Drop)]
struct TsvCells;

impl CellText for TsvCells {
    ghost cell = { λ cells text. tsv_field text };

    #[inline(always)]
    fn append_cell(&self, text: &Bytes, next: Option<u8>, out: &mut Bytes) -> Result<(), NoMemory> {
        append_escaped::<Backslashes>(text, next, out)
    }
}

impl<'a> RowFormat for TsvRows<'a> {
    ghost headerless = { λ rows. rows.opts.now.headerless };

    ghost header_of = { λ rows keys. tsv_line rows.opts.now keys };

    ghost row_of = { λ rows values. tsv_line rows.opts.now values };

    #[inline(always)]
    fn is_headerless(&self) -> bool {
        self.opts.headerless
    }

    fn append_header(
        &self,
        fields: &Record,
        scratch: &mut Bytes,
        out: &mut Bytes,
    ) -> Result<(), NoMemory> {
        append_tsv_line(self, Part::Keys, fields, scratch, out)
    }

    #[inline(always)]
    fn append_values(
        &self,
        fields: &Record,
        scratch: &mut Bytes,
        out: &mut Bytes,
    ) -> Result<(), NoMemory> {
        append_tsv_line(self, Part::Values, fields, scratch, out)
    }
}

/// Appends a line of keys or values.
fn append_tsv_line(
    rows: &TsvRows,
    part: Part,
    fields: &Record,
    scratch: &mut Bytes,
    out: &mut Bytes,
) -> Result<(), NoMemory>
    ensures { OnOk result (out.new ≡ out.old
        ++ tsv_line rows.now.opts.now (texts part fields.now)) }
{
    let cells = TsvCells;
    append_line(
        InCells { cells, part },
        rows.opts.ofs.as_slice(),
        fields.fields(),
        scratch,
        out,
    )
}

/// Tab, LF and backslash are written as `\t`, `\n` and `\\`.
#[derive(Drop)]
struct Backslashes;

impl Escape for Backslashes {
    ghost use Rattle.writers.specs.Tsv.{tsv_escaped};

    ghost escaped = { tsv_escaped };

    #[inline(always)]
    fn stops() -> [u8; 4] {
        [b'\t', b'\n', b'\\', b'\\']
    }

    #[inline]
    fn append_byte(byte: u8, out: &mut Bytes) -> Result<(), NoMemory> {
        match byte {
            b'\t' => out.append(b"\\t"),
            b'\n' => out.append(b"\\n"),
            b'\\' => out.append(b"\\\\"),
            _ => out.push(byte),
        }
    }
}
