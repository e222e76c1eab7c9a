//! The widths of the columns of a block.
ghost use Rattle.std.specs.Prelude.{◌≡◌, ◌∷◌, [], OnOk};
ghost use Rattle.text_columns.specs.Chunks.{first_line};
ghost use Rattle.text_columns.specs.Columns.{widened};
ghost use Rattle.text_columns.specs.Pprint.{widths_of};

use crate::decode::{first_cell, first_length};
use crate::width::cell_width;
use mlr_spec::NoMemory;

/// Replaces the widths by those of a first line.
pub(crate) fn put_widths(line: &[u8], widths: &mut Vec<usize>) -> Result<(), NoMemory>
    ensures { OnOk result (widths.new.items
        ≡ widths_of (first_line line.now) (first_line line.now ∷ [])) }
{
    let (count, _) = first_length(line);
    widths.clear();
    widths.resize(count, 0)?;
    widen(line, widths);
    Ok(())
}

/// Widens each column to what a line shows in it.
pub(crate) fn widen(line: &[u8], widths: &mut [usize])
    ensures { widths.new ≡ widened (first_line line.now) widths.old }
{
    let (count, cells) = first_length(line);
    let mut rest = cells;
    for column in 0..count.min(widths.len()) {
        let (length, cell, following) = first_cell(rest);
        widths[column] = widths[column].max(cell_width(&cell[..length]));
        rest = following;
    }
}
