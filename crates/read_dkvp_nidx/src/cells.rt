//! Splits a line of a Markdown table into cells.
ghost use Rattle.std.specs.Prelude.{◌≡◌, ◌<◌, ◌≤◌, ◌==◌, length, IfOk, MatchOption};
ghost use Rattle.std.specs.List.{list_all, prefix_len, suffix_len};
ghost use Rattle.std.specs.Option.{option_map};
ghost use Rattle.read_dkvp_nidx.specs.Cells.{HasNoBar, IsBarCut, bar_from, is_escape};
ghost use Rattle.read_dkvp_nidx.specs.Markdown.{bar_parts, cell_of, cells_after, cells_of, is_rule, is_space, trimmed, unescaped, without_colons};
ghost use Rattle.read_dkvp_nidx.specs.Row.{cells_in};

use mlr_spec::NoMemory;
use mlr_value::Bytes;
use std::alloc::Global;

/// The cells of a line, or `None` unless it begins and ends with a bar.
pub(crate) fn cells_of(alloc: Global, line: &[u8]) -> Result<Option<Vec<Bytes>>, NoMemory>
    ensures { IfOk result (λ cells. option_map cells_in cells ≡ cells_of line.now) }
{
    match line {
        [b'|', rest @ ..] => cells_after(alloc, rest),
        _ => Ok(None),
    }
}

/// The cells of a line, from the text after its first bar.
fn cells_after(alloc: Global, text: &[u8]) -> Result<Option<Vec<Bytes>>, NoMemory>
    ensures { IfOk result (λ cells. option_map cells_in cells
        ≡ cells_after (bar_parts 124 text.now)) }
{
    let mut cells = Vec::new(alloc);
    let mut left = text;
    while let Some((part, rest)) = cut_bar(left) {
        cells.push(cell_of(alloc, part)?)?;
        left = rest;
    }
    if left.is_empty() && !cells.is_empty() {
        Ok(Some(cells))
    } else {
        Ok(None)
    }
}

/// The text before the next bar and the text after it.
fn cut_bar(text: &[u8]) -> Option<(&[u8], &[u8])>
    ensures { MatchOption result (HasNoBar text.now)
        (λ cut. IsBarCut text.now cut.0.now cut.1.now) }
{
    let place = bar_place(text)?;
    Some((&text[..place], &text[place + 1..]))
}

/// The place of the first bar that isn't escaped, in a text that follows a bar.
fn bar_place(text: &[u8]) -> Option<usize>
    ensures place { result ≡ bar_from 0 124 text.now }
    ensures inside { MatchOption result (Unit {0}) (λ place. place < length text.now) }
{
    let mut last = b'|';
    for (place, byte) in text.iter().enumerate() {
        if *byte == b'|' && last != b'\\' {
            return Some(place);
        }
        last = *byte;
    }
    None
}

/// The cell of a part: without the spaces around it, and with a bar for each `\|`.
fn cell_of(alloc: Global, part: &[u8]) -> Result<Bytes, NoMemory>
    ensures { IfOk result (λ cell. cell ≡ cell_of part.now) }
{
    unescaped(alloc, trimmed(part))
}

fn unescaped(alloc: Global, text: &[u8]) -> Result<Bytes, NoMemory>
    ensures { IfOk result (λ cell. cell ≡ unescaped text.now) }
{
    let mut cell = Bytes::new(alloc);
    let mut left = text;
    while let [byte, rest @ ..] = left {
        if !is_escape(*byte, rest) {
            cell.append(&[*byte])?;
        }
        left = rest;
    }
    Ok(cell)
}

fn is_escape(byte: u8, rest: &[u8]) -> bool
    ensures { result ≡ is_escape byte rest.now }
{
    match rest {
        [next, ..] => byte == b'\\' && *next == b'|',
        [] => false,
    }
}

fn trimmed(text: &[u8]) -> &[u8]
    ensures { result.now ≡ trimmed text.now }
{
    let prefix = &text[spaces_before(text)..];
    &prefix[..prefix.len() - spaces_after(prefix)]
}

fn spaces_before(text: &[u8]) -> usize
    ensures count { result ≡ prefix_len is_space text.now }
    ensures inside { result ≤ length text.now }
{
    for (place, byte) in text.iter().enumerate() {
        if *byte != b' ' {
            return place;
        }
    }
    text.len()
}

fn spaces_after(text: &[u8]) -> usize
    ensures count { result ≡ suffix_len is_space text.now }
    ensures inside { result ≤ length text.now }
{
    let mut left = text.len();
    while left > 0 && text[left - 1] == b' ' {
        left -= 1;
    }
    text.len() - left
}

/// Whether each cell is one or more dashes, with or without a colon at either end.
pub(crate) fn are_rules(cells: &[Bytes]) -> bool
    ensures { result ≡ list_all is_rule cells.now }
{
    for cell in cells {
        if !is_rule(cell.as_slice()) {
            return false;
        }
    }
    true
}

fn is_rule(cell: &[u8]) -> bool
    ensures { result ≡ is_rule cell.now }
{
    let dashes = without_colons(cell);
    !dashes.is_empty() && are_dashes(dashes)
}

fn are_dashes(text: &[u8]) -> bool
    ensures { result ≡ list_all (λ b. b == 45) text.now }
{
    for byte in text {
        if *byte != b'-' {
            return false;
        }
    }
    true
}

fn without_colons(cell: &[u8]) -> &[u8]
    ensures { result.now ≡ without_colons cell.now }
{
    let prefix = match cell {
        [b':', rest @ ..] => rest,
        _ => cell,
    };
    match prefix {
        [rest @ .., b':'] => rest,
        _ => prefix,
    }
}
