//! Replaces the matches of a pattern in a text.
ghost use Rattle.std.specs.Prelude.{◌≡◌, true, false, ◌+◌, ◌-◌, ◌<◌, ◌≤◌, ◌++◌, length, nat_lt, is_some, slice_range, unwrap_or, if◌then◌else◌, IfOk, OnOk, IfSome, IfNone};
ghost use Rattle.regex.specs.Patterns.{find};
ghost use Rattle.regex.specs.Search.{Answers, next_match};
ghost use Rattle.regex.specs.Replace.{group_bytes};
ghost use Rattle.regex.specs.Bytes.{regex_pattern, matcher_pattern, captures_span, captures_haystack};
ghost use Rattle.mlr_pattern.specs.Groups.{group_text, rest_replaced, after_first};
ghost use Rattle.mlr_pattern.specs.Replacing.{filled, matches_of, replaced};

use crate::which::Which;
use crate::{Matcher, Pattern};
use mlr_spec::NoMemory;
use mlr_value::Bytes;
use regex::bytes::Captures;
use std::alloc::Global;

/// Whether a pattern matches somewhere in a text.
pub fn matches(alloc: Global, pattern: &Pattern, text: &[u8]) -> Result<bool, NoMemory>
    ensures { IfOk result (λ found. found ≡ is_some (find (regex_pattern pattern.now) text.now 0)) }
{
    let mut matcher = pattern.matcher(alloc)?;
    Ok(matcher.is_match(text))
}

/// The text with matches of a pattern replaced. In `by`, `\0` to `\9` are the texts of the match and of its
/// groups.
pub fn replaced(
    alloc: Global,
    pattern: &Pattern,
    text: &[u8],
    by: &[u8],
    which: Which,
) -> Result<Bytes, NoMemory>
    ensures { IfOk result (λ out. out
        ≡ replaced text.now by.now (matches_of which (regex_pattern pattern.now) text.now)) }
{
    let mut matcher = pattern.matcher(alloc)?;
    let mut out = Bytes::new(alloc);
    append_replaced(&mut matcher, text, by, which, &mut out)?;
    Ok(out)
}

/// Appends to `out` the text with matches replaced. After NoMemory it isn't specified what was appended. One
/// matcher serves many texts.
pub fn append_replaced(
    matcher: &mut Matcher<'_>,
    text: &[u8],
    by: &[u8],
    which: Which,
    out: &mut Bytes,
) -> Result<(), NoMemory>
    ensures text { OnOk result (out.new ≡ out.old
        ++ replaced text.now by.now (matches_of which (matcher_pattern matcher.old) text.now)) }
    ensures same { matcher_pattern matcher.new ≡ matcher_pattern matcher.old }
{
    if append_if_found(matcher, text, by, which, out)? {
        return Ok(());
    }
    out.append(text)
}

/// The text with matches replaced, or None if there is no match, so that the text needs no copy.
pub fn replaced_if_found(
    alloc: Global,
    matcher: &mut Matcher<'_>,
    text: &[u8],
    by: &[u8],
    which: Which,
) -> Result<Option<Bytes>, NoMemory>
    ensures text { IfOk result (λ made. unwrap_or made text.now
        ≡ replaced text.now by.now (matches_of which (matcher_pattern matcher.old) text.now)) }
    ensures found { IfOk result (λ made. is_some made
        ≡ is_some (find (matcher_pattern matcher.old) text.now 0)) }
    ensures same { matcher_pattern matcher.new ≡ matcher_pattern matcher.old }
{
    let mut out = Bytes::new(alloc);
    let found = append_if_found(matcher, text, by, which, &mut out)?;
    Ok(if found { Some(out) } else { None })
}

/// Appends the text with matches replaced, and nothing if there is no match. Returns whether there is one.
fn append_if_found(
    matcher: &mut Matcher<'_>,
    text: &[u8],
    by: &[u8],
    which: Which,
    out: &mut Bytes,
) -> Result<bool, NoMemory>
    ensures found { IfOk result (λ found. found ≡ true → out.new ≡ out.old
        ++ replaced text.now by.now (matches_of which (matcher_pattern matcher.old) text.now)) }
    ensures none { IfOk result (λ found. found ≡ false → (out.new ≡ out.old)
        × (replaced text.now by.now (matches_of which (matcher_pattern matcher.old) text.now)
        ≡ text.now)) }
    ensures matched { IfOk result (λ found. found ≡ is_some
        (find (matcher_pattern matcher.old) text.now 0)) }
    ensures same { matcher_pattern matcher.new ≡ matcher_pattern matcher.old }
{
    let Some(end) = append_next(matcher, text, by, 0, out)? else {
        return Ok(false);
    };
    append_after(matcher, text, by, which, end, out)?;
    Ok(true)
}

/// Appends the text after the first match, which ends at `end`.
fn append_after(
    matcher: &mut Matcher<'_>,
    text: &[u8],
    by: &[u8],
    which: Which,
    end: usize,
    out: &mut Bytes,
) -> Result<(), NoMemory>
    requires { end ≤ length text.now }
    ensures text { OnOk result (out.new ≡ out.old
        ++ after_first which (matcher_pattern matcher.old) text.now by.now end) }
    ensures same { matcher_pattern matcher.new ≡ matcher_pattern matcher.old }
{
    match which {
        Which::First => out.append(&text[end..]),
        Which::All => append_rest(matcher, text, by, end + 1, out),
    }
}

/// Appends the text after the last match, with all matches in it replaced. `after` is one more than the end
/// of the last match, or 0 before the first.
fn append_rest(
    matcher: &mut Matcher<'_>,
    text: &[u8],
    by: &[u8],
    mut after: usize,
    out: &mut Bytes,
) -> Result<(), NoMemory>
    requires { after ≤ length text.now + 1 }
    ensures text { OnOk result (out.new ≡ out.old
        ++ rest_replaced (matcher_pattern matcher.old) text.now by.now after) }
    ensures same { matcher_pattern matcher.new ≡ matcher_pattern matcher.old }
{
    while let Some(end) = append_next(matcher, text, by, after, out)? {
        after = end + 1;
    }
    out.append(&text[after.saturating_sub(1)..])
}

/// Appends the text up to the next match and the replacement of that match, and returns the end of the match.
/// `after` is one more than the end of the last match, or 0 before the first.
fn append_next(
    matcher: &mut Matcher<'_>,
    text: &[u8],
    by: &[u8],
    after: usize,
    out: &mut Bytes,
) -> Result<Option<usize>, NoMemory>
    ensures found { IfOk result (λ end. Answers end
        (next_match false (matcher_pattern matcher.old) text.now after)
        (λ m end. (end ≡ m.trace.end) ×
        (out.new ≡ out.old ++ (slice_range text.now (after - 1) m.start
        ++ filled (group_bytes text.now m) by.now)))) }
    ensures none { IfOk result (λ end. IfNone end (out.new ≡ out.old)) }
    ensures within { IfOk result (λ end. IfSome end
        (λ end. (after ≤ end) × (end ≤ length text.now))) }
    ensures same { matcher_pattern matcher.new ≡ matcher_pattern matcher.old }
{
    let end = append_found(matcher, text, by, after.saturating_sub(1), after, out)?;
    match end {
        Some(end) if end < after => append_found(matcher, text, by, after, after, out),
        _ => Ok(end),
    }
}

/// The same for the first match from `start` on. It appends nothing if that match ends before `after`.
fn append_found(
    matcher: &mut Matcher<'_>,
    text: &[u8],
    by: &[u8],
    start: usize,
    after: usize,
    out: &mut Bytes,
) -> Result<Option<usize>, NoMemory>
    requires { after ≤ start + 1 }
    ensures found { IfOk result (λ end. Answers end
        (find (matcher_pattern matcher.old) text.now start)
        (λ m end. (end ≡ m.trace.end) ×
        (out.new ≡ (if nat_lt m.trace.end after then out.old
        else out.old ++ (slice_range text.now (after - 1) m.start
        ++ filled (group_bytes text.now m) by.now))))) }
    ensures none { IfOk result (λ end. IfNone end (out.new ≡ out.old)) }
    ensures same { matcher_pattern matcher.new ≡ matcher_pattern matcher.old }
{
    match matcher.captures_at(text, start) {
        None => Ok(None),
        Some(found) => Ok(Some(append_match(&found, text, by, after, out)?)),
    }
}

/// The same for a match that was found.
fn append_match(
    found: &Captures<'_, '_>,
    text: &[u8],
    by: &[u8],
    after: usize,
    out: &mut Bytes,
) -> Result<usize, NoMemory>
    requires text { captures_haystack found.now ≡ text.now }
    requires start { IfSome (captures_span found.now 0) (λ span. after ≤ span.0 + 1) }
    ensures { IfOk result (λ end. IfSome (captures_span found.now 0) (λ span. (end ≡ span.1)
        × (out.new ≡ (if nat_lt span.1 after then out.old else out.old
        ++ (slice_range text.now (after - 1) span.0 ++ filled (group_text found.now) by.now))))) }
{
    let whole = found.get_match();
    if whole.end() >= after {
        out.append(&text[after.saturating_sub(1)..whole.start()])?;
        append_filled(found, by, out)?;
    }
    Ok(whole.end())
}

/// Appends the replacement of a match, with the texts of the groups.
fn append_filled(found: &Captures<'_, '_>, by: &[u8], out: &mut Bytes) -> Result<(), NoMemory>
    ensures { OnOk result (out.new ≡ out.old ++ filled (group_text found.now) by.now) }
{
    let mut left = by;
    while !left.is_empty() {
        left = append_part(found, left, out)?;
    }
    Ok(())
}

/// Appends the text of the first byte or of the first `\0` to `\9` of a replacement, and returns the rest.
fn append_part<'b>(
    found: &Captures<'_, '_>,
    by: &'b [u8],
    out: &mut Bytes,
) -> Result<&'b [u8], NoMemory>
    requires { 0 < length by.now }
    ensures text { IfOk result (λ rest. out.new ++ filled (group_text found.now) rest.now
        ≡ out.old ++ filled (group_text found.now) by.now) }
    ensures shorter { IfOk result (λ rest. length rest.now < length by.now) }
{
    match by {
        [b'\\', digit, rest @ ..] if digit.is_ascii_digit() => {
            out.append(text_of_group(found, usize::from(*digit - b'0')))?;
            Ok(rest)
        }
        _ => {
            out.push(by[0])?;
            Ok(&by[1..])
        }
    }
}

/// The text of a group, which is empty if the group isn't part of the match.
fn text_of_group<'h>(found: &Captures<'_, 'h>, index: usize) -> &'h [u8]
    ensures { result.now ≡ group_text found.now index }
{
    match found.get(index) {
        Some(group) => group.as_bytes(),
        None => &[],
    }
}
