//! Markdown tables: a bar in a cell is escaped.
ghost use Rattle.std.specs.Prelude.{◌≡◌, ◌++◌, OnOk, map, codes};
ghost use Rattle.writers.specs.Cells.{texts};
ghost use Rattle.text_columns.specs.Pprint.{between_bars};
ghost use Rattle.writers.specs.Markdown.{bar_cell, markdown_header, markdown_line};

use crate::cell::{CellText, InCells};
use crate::escape::{Escape, append_escaped};
use crate::fields::{FieldText, append_fields, append_next};
use crate::form::Part;
use crate::rows::RowFormat;
use mlr_record::{Field, Record};
use mlr_spec::NoMemory;
use mlr_value::Bytes;

/// How the rows of Markdown are written.
#[derive(Drop)]
pub(crate) struct MarkdownRows;

impl CellText for MarkdownRows {
    ghost cell = { λ rows text. bar_cell text };

    #[inline(always)]
    fn append_cell(&self, text: &Bytes, next: Option<u8>, out: &mut Bytes) -> Result<(), NoMemory> {
        append_escaped::<Bars>(text, next, out)
    }
}

impl RowFormat for MarkdownRows {
    ghost use Rattle.std.specs.Prelude.{false};

    ghost headerless = { λ rows. false };

    ghost header_of = { λ rows keys. markdown_header keys };

    ghost row_of = { λ rows values. markdown_line values };

    #[inline(always)]
    fn is_headerless(&self) -> bool {
        false
    }

    fn append_header(
        &self,
        fields: &Record,
        scratch: &mut Bytes,
        out: &mut Bytes,
    ) -> Result<(), NoMemory> {
        append_cells(Part::Keys, fields, scratch, out)?;
        append_between_bars(&Dashes, fields, scratch, out)
    }

    #[inline(always)]
    fn append_values(
        &self,
        fields: &Record,
        scratch: &mut Bytes,
        out: &mut Bytes,
    ) -> Result<(), NoMemory> {
        append_cells(Part::Values, fields, scratch, out)
    }
}

/// Appends a line of keys or values.
fn append_cells(
    part: Part,
    fields: &Record,
    scratch: &mut Bytes,
    out: &mut Bytes,
) -> Result<(), NoMemory>
    ensures { OnOk result (out.new ≡ out.old ++ markdown_line (texts part fields.now)) }
{
    let form = InCells {
        cells: MarkdownRows,
        part,
    };
    append_between_bars(&form, fields, scratch, out)
}

/// Appends all fields of the record in a line, between bars.
fn append_between_bars<F: FieldText>(
    form: &F,
    fields: &Record,
    scratch: &mut Bytes,
    out: &mut Bytes,
) -> Result<(), NoMemory>
    ensures { OnOk result (out.new ≡ out.old
        ++ between_bars (map (F.text form.now) fields.now)) }
{
    out.append(b"| ")?;
    append_fields(form, b" | ", fields.fields(), scratch, out)?;
    out.append(b" |\n")
}

/// Three dashes below each key.
#[derive(Drop)]
struct Dashes;

impl FieldText for Dashes {
    ghost text = { λ form field. codes "---" };

    fn append_field(
        &self,
        _field: &Field,
        next: Option<u8>,
        _scratch: &mut Bytes,
        out: &mut Bytes,
    ) -> Result<(), NoMemory> {
        out.append(b"---")?;
        append_next(next, out)
    }
}

/// A bar follows a backslash.
#[derive(Drop)]
struct Bars;

impl Escape for Bars {
    ghost use Rattle.writers.specs.Markdown.{bar_escaped};

    ghost escaped = { bar_escaped };

    #[inline(always)]
    fn stops() -> [u8; 4] {
        [b'|'; 4]
    }

    #[inline]
    fn append_byte(byte: u8, out: &mut Bytes) -> Result<(), NoMemory> {
        match byte {
            b'|' => out.append(b"\\|"),
            _ => out.push(byte),
        }
    }
}
