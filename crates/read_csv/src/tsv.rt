//! TSV: the fields of a line, with their escapes.
ghost use Rattle.std.specs.Prelude.{◌≡◌, ◌<◌, [], None, length, IfOk, OnOk, MatchOption};
ghost use Rattle.mlr_spec.specs.Infer.{tree_of_data};
ghost use Rattle.read_csv.specs.Escapes.{Unescapes};
ghost use Rattle.read_csv.specs.OpenRow.{row_with, tsv_reading, with_value};
ghost use Rattle.read_csv.specs.Tsv.{unescaped};

use crate::row::Row;
use memchr::memchr;
use mlr_event::ReadOpts;
use mlr_record::split::next_part;
use mlr_spec::{InferOpts, NoMemory};
use std::alloc::Global;

/// Reads the fields of a line of TSV.
pub(crate) fn take_escaped(opts: &ReadOpts, row: &mut Row, text: &[u8]) -> Result<(), NoMemory>
    requires ifs { 0 < length opts.now.ifs }
    requires closed { row.old.quotes ≡ None }
    ensures { OnOk result (row.new ≡ row_with opts.now.infer row.old
        (tsv_reading opts.now.ifs text.now)) }
{
    let mut left = text;
    loop {
        let (part, rest) = next_part(opts.ifs.as_slice(), left);
        push_escaped(row, part, opts.infer)?;
        match rest {
            None => return Ok(()),
            Some(rest) => left = rest,
        }
    }
}

/// Appends a field of TSV to the row.
#[inline]
fn push_escaped(row: &mut Row, text: &[u8], infer: InferOpts) -> Result<(), NoMemory>
    requires { row.old.quotes ≡ None }
    ensures { OnOk result (row.new ≡ with_value row.old (tree_of_data infer (unescaped text.now))) }
{
    match memchr(b'\\', text) {
        None => row.push_plain(text, infer),
        Some(_) => {
            let plain = unescape(row.alloc(), text)?;
            row.push_plain(plain.as_slice(), infer)
        }
    }
}

/// The text with its escapes resolved. It allocates once.
fn unescape(alloc: Global, text: &[u8]) -> Result<Vec<u8>, NoMemory>
    ensures { IfOk result (λ made. made.items ≡ unescaped text.now) }
{
    let mut made = Vec::with_capacity(alloc, text.len())?;
    let mut left = text;
    while let Some((byte, rest)) = next_byte(left) {
        made.push(byte)?;
        left = rest;
    }
    Ok(made)
}

/// The first byte of the text, with its escape resolved, and the rest of the text.
#[inline]
fn next_byte(text: &[u8]) -> Option<(u8, &[u8])>
    ensures { MatchOption result (text.now ≡ []) (λ cut. Unescapes text.now cut.0 cut.1.now) }
{
    match text {
        [b'\\', b't', rest @ ..] => Some((b'\t', rest)),
        [b'\\', b'n', rest @ ..] => Some((b'\n', rest)),
        [b'\\', b'\\', rest @ ..] => Some((b'\\', rest)),
        [byte, rest @ ..] => Some((*byte, rest)),
        [] => None,
    }
}
