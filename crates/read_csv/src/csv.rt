//! CSV: the fields of one line of a row, in quotes or not.
ghost use Rattle.std.specs.Prelude.{◌≡◌, ◌<◌, ◌≤◌, None, length, drop, IfOk, OnOk, IfSome, MatchOption};
ghost use Rattle.std.specs.Option.{option_map};
ghost use Rattle.read_csv.specs.OpenRow.{after_quoted, after_quotes, after_row_field, csv_reading, field_row, inside, quoted_row, row_with, starts_quoted, with_text};
ghost use Rattle.read_csv.specs.Quotes.{HasNoQuote, HasQuote};

use crate::row::Row;
use memchr::memchr;
use mlr_event::ReadOpts;
use mlr_record::split::next_part;
use mlr_spec::NoMemory;

/// Reads the fields of a text that isn't within an open quote.
pub(crate) fn take_fields(opts: &ReadOpts, row: &mut Row, text: &[u8]) -> Result<(), NoMemory>
    requires ifs { 0 < length opts.now.ifs }
    requires closed { row.old.quotes ≡ None }
    ensures { OnOk result (row.new ≡ row_with opts.now.infer row.old
        (csv_reading opts.now.ifs text.now)) }
{
    let mut left = text;
    while let Some(rest) = take_field(opts, row, left)? {
        left = rest;
    }
    Ok(())
}

/// Reads the first field of a text, and returns the text after its separator, if there is one.
#[inline]
fn take_field<'t>(
    opts: &ReadOpts,
    row: &mut Row,
    text: &'t [u8],
) -> Result<Option<&'t [u8]>, NoMemory>
    requires ifs { 0 < length opts.now.ifs }
    requires closed { row.old.quotes ≡ None }
    ensures row { OnOk result (row.new ≡ field_row opts.now row.old text.now) }
    ensures following { IfOk result (λ found. option_map (λ rest. rest.now) found
        ≡ after_row_field opts.now.ifs text.now) }
    ensures shorter { IfOk result (λ found. IfSome found
        (λ rest. length rest.now < length text.now)) }
{
    if starts_quoted(text) {
        return take_quoted(opts, row, following(text, 1));
    }
    let (part, rest) = next_part(opts.ifs.as_slice(), text);
    row.push_plain(part, opts.infer)?;
    Ok(rest)
}

/// Reads the rest of a field after its opening quote, and returns the text after its separator, if there is
/// one.
pub(crate) fn take_quoted<'t>(
    opts: &ReadOpts,
    row: &mut Row,
    text: &'t [u8],
) -> Result<Option<&'t [u8]>, NoMemory>
    requires { 0 < length opts.now.ifs }
    ensures row { OnOk result (row.new ≡ quoted_row opts.now.ifs row.old text.now) }
    ensures following { IfOk result (λ found. option_map (λ rest. rest.now) found
        ≡ after_quoted opts.now.ifs text.now) }
    ensures shorter { IfOk result (λ found. IfSome found
        (λ rest. length rest.now < length text.now)) }
{
    match unquote(row, text)? {
        None => Ok(None),
        Some(following) => {
            let (tail, rest) = next_part(opts.ifs.as_slice(), following);
            row.append(tail)?;
            row.close()?;
            Ok(rest)
        }
    }
}

/// Whether the text begins with a quote.
#[inline]
pub(crate) fn starts_quoted(text: &[u8]) -> bool
    ensures { result ≡ starts_quoted text.now }
{
    match text {
        [b'"', ..] => true,
        _ => false,
    }
}

/// The text from `place` on.
#[inline]
pub(crate) fn following(text: &[u8], place: usize) -> &[u8]
    requires { place ≤ length text.now }
    ensures { result.now ≡ drop place text.now }
{
    &text[place..]
}

/// The text before the first quote and the text after it.
#[inline]
fn first_quote(text: &[u8]) -> Option<(&[u8], &[u8])>
    ensures { MatchOption result (HasNoQuote text.now)
        (λ cut. HasQuote text.now cut.0.now cut.1.now) }
{
    let place = memchr(b'"', text)?;
    Some((&text[..place], following(text, place + 1)))
}

/// Appends the text after an opening quote, up to the closing one, to the row's open quote. Returns the text
/// after the closing quote, if there is one.
fn unquote<'t>(row: &mut Row, text: &'t [u8]) -> Result<Option<&'t [u8]>, NoMemory>
    ensures row { OnOk result (row.new ≡ with_text row.old (inside text.now)) }
    ensures following { IfOk result (λ found. option_map (λ rest. rest.now) found
        ≡ after_quotes text.now) }
    ensures shorter { IfOk result (λ found. IfSome found
        (λ rest. length rest.now ≤ length text.now)) }
{
    let mut left = text;
    while let Some((prefix, rest)) = first_quote(left) {
        row.append(prefix)?;
        if !starts_quoted(rest) {
            return Ok(Some(rest));
        }
        row.append(b"\"")?;
        left = following(rest, 1);
    }
    row.append(left)?;
    Ok(None)
}
