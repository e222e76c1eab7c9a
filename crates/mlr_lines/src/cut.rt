//! Cuts a text at its first line ending, and drops the byte order mark and the CR.
ghost use Rattle.std.specs.Prelude.{◌≡◌, ◌+◌, ◌≤◌, length, MatchOption};
ghost use Rattle.mlr_lines.specs.Lines.{without_mark, without_return};
ghost use Rattle.mlr_lines.specs.Steps.{EndsNoLine, EndsLine, unmarked_line};

use memchr::memchr;

/// The first line that ends in the text, without its LF, and the text after the LF.
#[inline]
pub(crate) fn first_line(text: &[u8]) -> Option<(&[u8], &[u8])>
    ensures { MatchOption result (EndsNoLine text.now)
        (λ cut. EndsLine text.now cut.0.now cut.1.now) }
{
    let place = memchr(b'\n', text)?;
    Some((&text[..place], &text[place + 1..]))
}

/// The line, without its byte order mark if it is the first of a file.
#[inline]
pub(crate) fn unmarked(first: bool, line: &[u8]) -> &[u8]
    ensures text { result.now ≡ unmarked_line first line.now }
    ensures length { length result.now ≤ length line.now }
{
    if first { without_mark(line) } else { line }
}

/// The text without the byte order mark of UTF-8 at its start.
fn without_mark(text: &[u8]) -> &[u8]
    ensures text { result.now ≡ without_mark text.now }
    ensures length { length result.now ≤ length text.now }
{
    match text {
        [0xef, 0xbb, 0xbf, rest @ ..] => rest,
        _ => text,
    }
}

/// An ended line without the CR before its LF.
#[inline]
pub fn without_return(line: &[u8]) -> &[u8]
    ensures text { result.now ≡ without_return line.now }
    ensures length { length result.now ≤ length line.now }
{
    match line {
        [prefix @ .., b'\r'] => prefix,
        _ => line,
    }
}
