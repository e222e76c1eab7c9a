//! The lines of a PPRINT block, which are held until the widths of its columns are known.
ghost use Rattle.std.specs.Prelude.{◌≡◌, ◌↔◌, ◌++◌, ◌∷◌, [], ◌<◌, ◌^◌, if◌then◌else◌, is_ok, length, IsTrue, OnOk};
ghost use Rattle.mlr_spec.specs.Pairs.{keys_of};
ghost use Rattle.text_columns.specs.Chunks.{first_line};
ghost use Rattle.text_columns.specs.Pprint.{block, values_of, widths_of};

use crate::encode::{append_keys, append_values};
use crate::pprint::append_block;
use crate::rows::Rows;
use crate::widths::{put_widths, widen};
use mlr_record::Record;
use mlr_spec::NoMemory;
use mlr_value::Bytes;
use std::alloc::Global;
use std::marker::Model;
use std::mem::swap;

/// Lines of cells, of which the first has keys, and each other one the values of a record.
pub struct Block {
    alloc: Global,
    /// The line of keys as bytes, or no bytes where there are no lines.
    keys: Bytes,
    rows: Rows,
    /// The widths of the columns, if there are lines.
    widths: Vec<usize>,
    /// A buffer for the line that is appended.
    line: Bytes,
}

// Written by hand, so that the crates above call it instead of dropping the fields themselves.
impl Drop for Block {
    fn drop(self) {
        let Block {
            alloc: _,
            keys,
            rows,
            widths,
            line,
        } = self;
        drop(keys);
        drop(rows);
        drop(widths);
        drop(line);
    }
}

impl Model for Block {
    ghost use Rattle.std.specs.Prelude.{◌≡◌, [], ℕ, List};
    ghost use Rattle.text_columns.specs.Chunks.{block_lines, rows_in};
    ghost use Rattle.text_columns.specs.Columns.{AreWidths};

    ghost Value = { List (List (List ℕ)) };

    ghost view = { λ b. block_lines b.keys (rows_in b.rows.full.items b.rows.last) };

    ghost invariant = { λ b. (b.keys ≡ [] → rows_in b.rows.full.items b.rows.last ≡ [])
        × AreWidths b.widths.items (block_lines b.keys (rows_in b.rows.full.items b.rows.last)) };
}

impl Block {
    /// No lines. It takes no memory.
    pub fn new(alloc: Global) -> Self
        ensures { result ≡ [] }
    {
        Block {
            alloc,
            keys: Bytes::new(alloc),
            rows: Rows::new(alloc),
            widths: Vec::new(alloc),
            line: Bytes::new(alloc),
        }
    }

    /// Whether there are no lines.
    pub fn is_empty(&self) -> bool
        ensures { IsTrue result ↔ (self.now ≡ []) }
    {
        self.keys.is_empty()
    }

    /// Begins with the keys of a record. It takes memory for the line.
    pub fn push_keys(&mut self, fields: &Record) -> Result<(), NoMemory>
        requires { self.old ≡ [] }
        ensures { OnOk result (self.new ≡ keys_of fields.now ∷ []) }
    {
        self.line.clear();
        append_keys(fields.fields(), &mut self.line)?;
        put_keys(&mut self.keys, &mut self.line, &mut self.widths)
    }

    /// Appends the values of a record. It takes memory for a chunk of lines where the last one is full.
    pub fn push_values(&mut self, fields: &Record) -> Result<(), NoMemory>
        ensures { OnOk result (self.new ≡ self.old ++ values_of fields.now ∷ []) }
    {
        self.line.clear();
        append_values(self.alloc, fields.fields(), &mut self.line)?;
        if self.keys.is_empty() {
            return put_keys(&mut self.keys, &mut self.line, &mut self.widths);
        }
        let line = self.line.as_slice();
        self.rows.push(self.alloc, line)?;
        widen(line, &mut self.widths);
        Ok(())
    }

    /// Drops all lines. It keeps the room of one chunk.
    pub fn clear(&mut self)
        ensures { self.new ≡ [] }
    {
        self.keys.clear();
        self.rows.clear();
    }

    /// Appends the text of the block. The lines stay.
    pub fn append_to(&self, barred: bool, headerless: bool, out: &mut Bytes) -> Result<(), NoMemory>
        ensures { OnOk result (out.new ≡ out.old ++ block barred headerless self.now) }
    {
        if self.keys.is_empty() {
            return Ok(());
        }
        append_block(
            self.alloc,
            barred,
            headerless,
            &self.widths,
            self.keys.as_slice(),
            &self.rows,
            out,
        )
    }
}

/// Makes the line that of the keys, and its widths those of the columns.
fn put_keys(keys: &mut Bytes, line: &mut Bytes, widths: &mut Vec<usize>) -> Result<(), NoMemory>
    ensures keys { keys.new ≡ (if is_ok result then line.old else keys.old) }
    ensures widths { OnOk result (widths.new.items
        ≡ widths_of (first_line line.old) (first_line line.old ∷ [])) }
    ensures size { OnOk result (length line.old < 2 ^ 64) }
{
    let bytes = line.as_slice();
    put_widths(bytes, widths)?;
    swap(keys, line);
    Ok(())
}
