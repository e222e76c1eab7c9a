//! Keys and values as the cells of a row.
ghost use Rattle.std.specs.Prelude.{◌≡◌, ◌++◌, OnOk};
ghost use Rattle.std.specs.Option.{option_to_list};
ghost use Rattle.mlr_value.specs.Value.{tree_of};
ghost use Rattle.text_forms.specs.Shown.{shown};

use crate::fields::FieldText;
use crate::form::Part;
use mlr_record::Field;
use mlr_spec::NoMemory;
use mlr_value::{Bytes, Value};
use text_forms::{append_shown, held_bytes};

/// A way of writing a key or a value in a cell of a row.
pub(crate) trait CellText {
    ghost use Rattle.std.specs.Prelude.{◌≡◌, ◌++◌, ℕ, List, OnOk};
    ghost use Rattle.std.specs.Option.{option_to_list};

    /// The text of a cell.
    ghost cell: { Self → List ℕ → List ℕ };

    /// Appends the text of a cell, and then the byte, if there is one.
    fn append_cell(&self, text: &Bytes, next: Option<u8>, out: &mut Bytes) -> Result<(), NoMemory>
        ensures { OnOk result (out.new ≡ out.old
            ++ cell self.now text.now ++ option_to_list next) };
}

/// The key or the value of each field in a cell.
#[derive(Drop)]
pub(crate) struct InCells<C> {
    pub(crate) cells: C,
    pub(crate) part: Part,
}

impl<C: CellText> FieldText for InCells<C> {
    ghost use Rattle.writers.specs.Cells.{part_text};

    ghost text = { λ form field. C.cell form.cells (part_text form.part field) };

    #[inline(always)]
    fn append_field(
        &self,
        field: &Field,
        next: Option<u8>,
        scratch: &mut Bytes,
        out: &mut Bytes,
    ) -> Result<(), NoMemory> {
        let held = match self.part {
            Part::Keys => Some(&field.name),
            Part::Values => held_bytes(&field.value),
        };
        match held {
            Some(text) => self.cells.append_cell(text, next, out),
            None => append_printed(&self.cells, &field.value, next, scratch, out),
        }
    }
}

/// Appends what a value prints, which is written to a buffer that is kept, and then the byte, if there is one.
#[inline(never)]
fn append_printed<C: CellText>(
    cells: &C,
    value: &Value,
    next: Option<u8>,
    scratch: &mut Bytes,
    out: &mut Bytes,
) -> Result<(), NoMemory>
    ensures { OnOk result (out.new ≡ out.old ++ C.cell cells.now (shown (tree_of value.now))
        ++ option_to_list next) }
{
    scratch.clear();
    append_shown(value, scratch)?;
    cells.append_cell(scratch, next, out)
}
