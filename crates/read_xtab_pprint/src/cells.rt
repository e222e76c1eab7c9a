//! Splits a line of PPRINT into cells.
ghost use Rattle.std.specs.Prelude.{◌≡◌, [], length, Some, None, IfOk, MatchOption};
ghost use Rattle.read_xtab_pprint.specs.Cells.{IsCellCut, IsCount, cells_in, cells_left, is_barred, takes_turns};
ghost use Rattle.read_xtab_pprint.specs.Pprint.{cells_of, is_bar, words_of};

use crate::words::next_word;
use mlr_spec::NoMemory;
use mlr_value::Bytes;
use std::alloc::Global;

/// Whether the line begins with a bar.
pub(crate) fn is_barred(line: &[u8]) -> bool
    ensures { result ≡ is_barred line.now }
{
    match line {
        [first, ..] => *first == b'|',
        [] => false,
    }
}

/// The number of cells of the line; `None` if the line begins with a bar but isn't cells between bars.
pub(crate) fn count_cells(line: &[u8]) -> Option<usize>
    ensures { MatchOption result (cells_of line.now ≡ None) (λ count. IsCount line.now count) }
{
    if !is_barred(line) {
        return Some(count_left(false, line));
    }
    if !takes_turns(line) {
        return None;
    }
    let count = count_left(true, line);
    if count == 0 { None } else { Some(count) }
}

/// Whether bars and words alternate, from the first bar to the last.
fn takes_turns(line: &[u8]) -> bool
    ensures { result ≡ takes_turns (words_of line.now) }
{
    let mut left = line;
    while let Some((bar, rest)) = next_word(left) {
        if !is_bar(bar) {
            return false;
        }
        match next_word(rest) {
            None => return true,
            Some((_, following)) => left = following,
        }
    }
    false
}

fn is_bar(word: &[u8]) -> bool
    ensures { result ≡ is_bar word.now }
{
    word == b"|".as_slice()
}

fn count_left(barred: bool, line: &[u8]) -> usize
    ensures { result ≡ length (cells_left barred (words_of line.now)) }
{
    let mut count = 0;
    let mut left = line;
    while let Some((_, rest)) = next_cell(barred, left) {
        count += 1;
        left = rest;
    }
    count
}

/// The next cell and the text after it. In a line with bars, the bar before the cell is skipped.
pub(crate) fn next_cell(barred: bool, text: &[u8]) -> Option<(&[u8], &[u8])>
    ensures { MatchOption result (cells_left barred (words_of text.now) ≡ [])
        (λ cut. IsCellCut barred text.now cut.0.now cut.1.now) }
{
    if !barred {
        return next_word(text);
    }
    let (_, rest) = next_word(text)?;
    next_word(rest)
}

/// Copies of the cells of a header line.
pub(crate) fn copy_cells(alloc: Global, line: &[u8]) -> Result<Vec<Bytes>, NoMemory>
    ensures { IfOk result (λ cells. cells.items ≡ cells_in line.now) }
{
    let barred = is_barred(line);
    let mut cells = Vec::new(alloc);
    let mut left = line;
    while let Some((cell, rest)) = next_cell(barred, left) {
        cells.push(Bytes::copy_of(alloc, cell)?)?;
        left = rest;
    }
    Ok(cells)
}
