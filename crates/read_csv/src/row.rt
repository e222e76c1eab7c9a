//! Holds the fields of a row while it is read.
ghost use Rattle.std.specs.Prelude.{◌≡◌, ◌<◌, OnOk, IfOk, IfSome, MatchOption, is_some, true, None, length, map};
ghost use Rattle.mlr_spec.specs.Infer.{tree_of_data};
ghost use Rattle.mlr_spec.specs.Tree.{text_of};
ghost use Rattle.mlr_event.specs.Reading.{record_of};
ghost use Rattle.mlr_value.specs.Value.{tree_of};
ghost use Rattle.read_csv.specs.Rows.{row_keys};
ghost use Rattle.read_csv.specs.Fields.{quoted_value};
ghost use Rattle.read_csv.specs.OpenRow.{csv_reading, in_quotes, no_row, row_with, with_text, with_value};
ghost use Rattle.read_csv.specs.Naming.{IsNamed};

use crate::csv::take_fields;
use crate::heading::Heading;
use crate::plain::take_plain;
use crate::records::{named_record, record_of_row, texts};
use mlr_event::ReadOpts;
use mlr_fields::Header;
use mlr_record::{Field, Record};
use mlr_spec::{InferOpts, NoMemory};
use mlr_value::{Bytes, Value, from_data};
use std::alloc::Global;
use std::marker::Model;

/// A row that is being read, which is reused for the next row.
#[derive(Drop)]
pub(crate) struct Row {
    alloc: Global,
    /// The fields that have ended. A field may have its name already.
    fields: Vec<Field>,
    /// Whether the quote of the next field is open.
    quoted: bool,
    /// The text within that quote so far.
    text: Vec<u8>,
}

impl Model for Row {
    ghost use Rattle.std.specs.Prelude.{◌≡◌, false, [], if◌then◌else◌, Some, None};
    ghost use Rattle.std.specs.Coded.{codes};
    ghost use Rattle.mlr_spec.specs.TreeCode.{coded_tree};
    ghost use Rattle.read_csv.specs.OpenRow.{RowState, values_in};

    ghost Value = { RowState };

    ghost coded = { Prim.hlevel (codes, coded_tree) };

    ghost view = { λ row. record {
      values = values_in row.fields.items;
      quotes =
          (if row.quoted then Some row.text.items else None);
    } };

    ghost invariant = { λ row. row.quoted ≡ false → row.text.items ≡ [] };
}

impl Row {
    /// A row without fields. It doesn't allocate.
    pub(crate) fn new(alloc: Global) -> Self
        ensures { result ≡ no_row }
    {
        Row {
            alloc,
            fields: Vec::new(alloc),
            quoted: false,
            text: Vec::new(alloc),
        }
    }

    /// The allocator.
    #[inline]
    pub(crate) fn alloc(&self) -> Global {
        self.alloc
    }

    /// Whether a quote is open.
    #[inline]
    pub(crate) fn is_open(&self) -> bool
        ensures { result ≡ is_some self.now.quotes }
    {
        self.quoted
    }

    /// Appends an unquoted field of this text.
    #[inline(always)]
    pub(crate) fn push_plain(&mut self, text: &[u8], infer: InferOpts) -> Result<(), NoMemory>
        requires { self.old.quotes ≡ None }
        ensures { OnOk result (self.new ≡ with_value self.old (tree_of_data infer text.now)) }
    {
        let value = from_data(self.alloc, text, infer)?;
        self.fields.push(unnamed(self.alloc, value))?;
        Ok(())
    }

    /// Appends text to the open quote, and opens one if none is open.
    #[inline]
    pub(crate) fn append(&mut self, text: &[u8]) -> Result<(), NoMemory>
        ensures { OnOk result (self.new ≡ with_text self.old text.now) }
    {
        self.quoted = true;
        self.text.extend_from_slice(text)?;
        Ok(())
    }

    /// Appends the text of the open quote as a field, and closes the quote.
    pub(crate) fn close(&mut self) -> Result<(), NoMemory>
        ensures { OnOk result (self.new ≡ with_value self.old (quoted_value (in_quotes self.old))) }
    {
        let value = if self.text.is_empty() {
            Value::Empty
        } else {
            Value::Str(Bytes::copy_of(self.alloc, self.text.as_slice())?)
        };
        self.fields.push(unnamed(self.alloc, value))?;
        self.quoted = false;
        self.text.clear();
        Ok(())
    }

    /// The number of ended fields.
    #[inline]
    pub(crate) fn len(&self) -> usize
        ensures { result ≡ length self.now.values }
    {
        self.fields.len()
    }

    /// Whether it has no field yet, not even an open one.
    #[inline]
    pub(crate) fn is_new(&self) -> bool
        ensures { result ≡ true → self.now ≡ no_row }
    {
        !self.quoted && self.fields.is_empty()
    }

    /// Reads the first line of a row under these names, made distinct. Returns the row's record if each name has an
    /// unquoted field; else the row has the fields.
    pub(crate) fn take_named(
        &mut self,
        opts: &ReadOpts,
        names: &Header,
        text: &[u8],
    ) -> Result<Option<Record>, NoMemory>
        requires ifs { 0 < length opts.now.ifs }
        requires new { self.old ≡ no_row }
        ensures made { IfOk result (λ made. MatchOption made
            (self.new ≡ row_with opts.now.infer no_row (csv_reading opts.now.ifs text.now))
            (λ given. IsNamed names.now
            (row_with opts.now.infer no_row (csv_reading opts.now.ifs text.now)) given)) }
        ensures empty { IfOk result (λ made. IfSome made (λ given. self.new ≡ no_row)) }
    {
        match take_plain(self.alloc, opts, names.keys(), &mut self.fields, text)? {
            Some(rest) => take_fields(opts, self, rest)?,
            None if self.fields.len() == names.len() => {
                return Ok(Some(named_record(self.alloc, names, &mut self.fields)?));
            }
            None => {}
        }
        Ok(None)
    }

    /// Drops all fields.
    pub(crate) fn clear(&mut self)
        ensures { self.new ≡ no_row }
    {
        self.fields.clear();
        self.quoted = false;
        self.text.clear();
    }

    /// The texts of the ended fields.
    pub(crate) fn texts(&self, alloc: Global) -> Result<Vec<Bytes>, NoMemory>
        ensures { IfOk result (λ made. made.items ≡ map text_of self.now.values) }
    {
        texts(alloc, self.fields.as_slice())
    }

    /// Moves the fields out of the row, as a record.
    pub(crate) fn record(
        &mut self,
        alloc: Global,
        dedupe: bool,
        header: &Heading,
    ) -> Result<Record, NoMemory>
        requires { self.old.quotes ≡ None }
        ensures made { IfOk result (λ made. made ≡ record_of dedupe
            (row_keys header.now (length self.old.values)) self.old.values) }
        ensures empty { OnOk result (self.new ≡ no_row) }
    {
        record_of_row(alloc, dedupe, header, &mut self.fields)
    }
}

/// A field of this value, whose name is still empty. It doesn't allocate.
#[inline]
fn unnamed(alloc: Global, value: Value) -> Field
    ensures { tree_of result.value ≡ tree_of value }
{
    Field {
        name: Bytes::new(alloc),
        value,
    }
}
