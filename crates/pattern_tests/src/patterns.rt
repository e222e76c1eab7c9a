//! Tables of words and texts that are patterns, and of texts before and after matches are replaced.

use crate::found::found_pattern;
use mlr_pattern::{
    Pattern, PatternFault, Patterns, Which, append_replaced, is_heavy, matches, pattern_word,
    read_pattern, replaced, ssub_value, sub_value,
};
use mlr_spec::{InferOpts, NoMemory};
use mlr_value::{ArrayValue, Bytes, IntValue, MapValue, Value, append_text, from_data};
use std::alloc::Global;
use std::sync::Arc;
use std::test::Fail;

/// A word, the text of its pattern, and whether it ignores the case of letters.
const WORDS: [(&[u8], &[u8], bool); 14] = [
    (b"abc", b"abc", false),
    (b"\"abc\"", b"abc", false),
    (b"\"abc\"i", b"abc", true),
    (b"\"\"", b"", false),
    (b"\"\"i", b"", true),
    (b"\"", b"\"", false),
    (b"\"i", b"\"i", false),
    (b"", b"", false),
    (b"i", b"i", false),
    (b"abci", b"abci", false),
    (b"\"abc", b"\"abc", false),
    (b"abc\"i", b"abc\"i", false),
    (b"\"abc\"I", b"\"abc\"I", false),
    (b"\"a\"b\"i", b"a\"b", true),
];

/// A text, and whether it is a heavy pattern.
const WEIGHTS: [(&[u8], bool); 15] = [
    (b"", false),
    (b"abc", false),
    (b"a{1000}", true),
    (b"a{166}", false),
    (b"a{167}", true),
    (b"a{0}{0}{0}", false),
    (b"a{2,50}", false),
    (b"a{2,80}", true),
    (b"a{,99}", false),
    (b"a{,200}", true),
    (b"a 1000", false),
    (b"a{99999999999999999999999999}", true),
    (b"a{x1000}", false),
    (&[b'a'; 1000], true),
    (&[b'a'; 999], false),
];

/// A text, whether case is ignored, a haystack, and whether the pattern matches it or why the text isn't a
/// pattern.
const READ: [(&[u8], bool, &[u8], Result<bool, PatternFault>); 16] = [
    (b"b+", false, b"abc", Ok(true)),
    (b"b+", false, b"aBc", Ok(false)),
    (b"b+", true, b"aBc", Ok(true)),
    (b"", false, b"", Ok(true)),
    (b"^a.c$", false, b"abc", Ok(true)),
    (b"^a.c$", false, b"abcd", Ok(false)),
    (b"(a|b){2,3}", false, b"xab", Ok(true)),
    (b"\xc3\xa9", true, b"\xc3\x89", Ok(true)),
    (b"a{1000}", false, b"aaa", Ok(false)),
    (b"(", false, b"", Err(PatternFault::Bad)),
    (b"a**{", false, b"", Err(PatternFault::Bad)),
    (b"[a", false, b"", Err(PatternFault::Bad)),
    (b"a{2,1}", false, b"", Err(PatternFault::Bad)),
    (b"\xff", false, b"", Err(PatternFault::Bad)),
    (b"\\1", false, b"", Err(PatternFault::Bad)),
    (
        b"(a{1000}){1000}{1000}",
        false,
        b"",
        Err(PatternFault::TooLarge),
    ),
];

fn first_wrong_word() -> Option<usize> {
    for (i, (word, text, either_case)) in WORDS.iter().enumerate() {
        let found = pattern_word(*word);
        if found.text != *text || found.either_case != *either_case {
            return Some(i);
        }
    }
    None
}

fn first_wrong_weight() -> Option<usize> {
    for (i, (text, heavy)) in WEIGHTS.iter().enumerate() {
        if is_heavy(*text) != *heavy {
            return Some(i);
        }
    }
    None
}

/// Whether the pattern of a text matches a haystack, or why the text isn't a pattern.
fn outcome(
    alloc: Global,
    text: &[u8],
    either_case: bool,
    haystack: &[u8],
) -> Result<Result<bool, PatternFault>, NoMemory> {
    match read_pattern(alloc, text, either_case) {
        Ok(pattern) => Ok(Ok(pattern.matcher(alloc)?.is_match(haystack))),
        Err(fault) => Ok(Err(fault)),
    }
}

fn first_misread(alloc: Global) -> Result<Option<usize>, NoMemory> {
    for (i, (text, either_case, haystack, want)) in READ.iter().enumerate() {
        if outcome(alloc, *text, *either_case, *haystack)? != *want {
            return Ok(Some(i));
        }
    }
    Ok(None)
}

/// A pattern, a text, a replacement, and the text with the first match and with all matches replaced.
type Row = (
    &'static [u8],
    &'static [u8],
    &'static [u8],
    &'static [u8],
    &'static [u8],
);

/// Matches that are replaced in texts.
const IN_TEXTS: [Row; 14] = [
    (b"b", b"abcb", b"x", b"axcb", b"axcx"),
    (b"b", b"xyz", b"q", b"xyz", b"xyz"),
    (b"b", b"", b"q", b"", b""),
    (b"b+", b"abbbcb", b"<\\0>", b"a<bbb>cb", b"a<bbb>c<b>"),
    (b"(a)(b)?", b"aab", b"[\\1\\2]", b"[a]ab", b"[a][ab]"),
    (b"(.)(.)", b"abcd", b"\\2\\1", b"bacd", b"badc"),
    (b"(.)(.)", b"abcd", b"\\2\\9\\1", b"bacd", b"badc"),
    (b"a", b"a", b"\\n\\\\1\\", b"\\n\\\\", b"\\n\\\\"),
    (b"a", b"a", b"$0\\x", b"$0\\x", b"$0\\x"),
    (b"x*", b"axb", b"-", b"-axb", b"-a-b-"),
    (b"", b"ab", b"-", b"-ab", b"-a-b-"),
    (b"^a", b"aaa", b"b", b"baa", b"baa"),
    (
        b"(.)(.)(.)(.)(.)(.)(.)(.)(.)",
        b"123456789",
        b"\\9\\8\\7",
        b"987",
        b"987",
    ),
    (
        b"a",
        b"\xffa\xff",
        b"\xfe",
        b"\xff\xfe\xff",
        b"\xff\xfe\xff",
    ),
];

/// Matches that are replaced in values, which become strings or empty.
const IN_VALUES: [Row; 11] = [
    (b"b", b"abcb", b"x", b"axcb", b"axcx"),
    (b"b", b"abcb", b"<\\0>", b"a<b>cb", b"a<b>c<b>"),
    (
        b"t(.)",
        b"a text of more than thirty bytes",
        b"\\1\\1",
        b"a eext of more than thirty bytes",
        b"a eex  of more hhan hhiryy byees",
    ),
    (
        b"z",
        b"a text of more than thirty bytes",
        b"y",
        b"a text of more than thirty bytes",
        b"a text of more than thirty bytes",
    ),
    (b"5", b"5", b"7", b"7", b"7"),
    (b"x", b"5", b"y", b"5", b"5"),
    (b"f", b"0xff", b"e", b"0xef", b"0xee"),
    (b"0", b"-0.50", b"", b"-.50", b"-.5"),
    (
        b"^9",
        b"99999999999999999999",
        b"x",
        b"x9999999999999999999",
        b"x9999999999999999999",
    ),
    (b"a*", b"aa", b"", b"", b""),
    (b"$", b"", b"end", b"end", b"end"),
];

/// The pattern of a text that is one.
fn pattern_of(alloc: Global, text: &[u8], either_case: bool) -> Result<Pattern, Fail> {
    Ok(found_pattern(alloc, text, either_case).ok_or("no pattern")?)
}

/// Whether the first match and all matches of a row are replaced as it says.
fn are_replaced(alloc: Global, row: &Row) -> Result<bool, Fail> {
    let (pattern, text, by, first, all) = *row;
    let pattern = pattern_of(alloc, pattern, false)?;
    let of_first = replaced(alloc, &pattern, text, by, Which::First)?;
    let of_all = replaced(alloc, &pattern, text, by, Which::All)?;
    Ok(of_first.as_slice() == first && of_all.as_slice() == all)
}

fn first_wrong_text(alloc: Global) -> Result<Option<usize>, Fail> {
    for (i, row) in IN_TEXTS.iter().enumerate() {
        if !are_replaced(alloc, row)? {
            return Ok(Some(i));
        }
    }
    Ok(None)
}

/// What one matcher makes of three texts, after what was there.
fn three_replaced(alloc: Global, pattern: &Pattern) -> Result<Bytes, NoMemory> {
    let mut matcher = pattern.matcher(alloc)?;
    let mut out = Bytes::copy_of(alloc, b"=")?;
    append_replaced(&mut matcher, b"a1B2", b"\\1", Which::All, &mut out)?;
    append_replaced(&mut matcher, b"c3d4", b"\\1", Which::First, &mut out)?;
    append_replaced(&mut matcher, b"none", b"\\1", Which::All, &mut out)?;
    Ok(out)
}

/// A copy of two patterns, and their number.
fn two_patterns(alloc: Global) -> Result<(Patterns, usize), Fail> {
    let mut patterns = Patterns::new(alloc);
    for text in [b"^a".as_slice(), b"b$"] {
        patterns.push(Arc::new(alloc, pattern_of(alloc, text, false)?)?)?;
    }
    let copy = patterns.copy()?;
    Ok((copy, patterns.into_vec().len()))
}

/// Whether one pattern, with one matcher and by itself, is found in texts and replaced.
fn is_found(alloc: Global) -> Result<bool, Fail> {
    let pattern = pattern_of(alloc, b"([a-z])[0-9]", true)?;
    Ok(
        three_replaced(alloc, &pattern)?.as_slice() == b"=aBcd4none".as_slice()
            && matches(alloc, &pattern, b"xE5")?
            && !matches(alloc, &pattern, b"5x")?,
    )
}

/// Whether a copy of two patterns has both, and the first is found in texts.
fn are_copied(alloc: Global) -> Result<bool, Fail> {
    let (copy, count) = two_patterns(alloc)?;
    let first = copy.at(0).ok_or("no pattern")?;
    Ok(
        count == 2
            && copy.len() == 2
            && copy.as_slice().len() == 2
            && copy.at(2).is_none()
            && matches(alloc, first, b"ab")?
            && !matches(alloc, first, b"ba")?,
    )
}

/// The kinds of values that a change of texts gives.
#[derive(Clone, Copy, Debug, PartialEq, Eq)]
enum Kind {
    Absent,
    Empty,
    Str,
    Error,
    Other,
}

fn kind_of(value: &Value) -> Kind {
    match value {
        Value::Absent => Kind::Absent,
        Value::Empty => Kind::Empty,
        Value::Str(_) => Kind::Str,
        Value::Error => Kind::Error,
        _ => Kind::Other,
    }
}

/// Whether the value is of this kind and prints this text.
fn is(value: &Value, wanted: Kind, text: &[u8], alloc: Global) -> Result<bool, NoMemory> {
    let mut printed = Bytes::new(alloc);
    append_text(value, &mut printed)?;
    Ok(kind_of(value) == wanted && printed.as_slice() == text)
}

/// The kind of a changed text.
fn kind_of_text(text: &[u8]) -> Kind {
    if text.is_empty() {
        Kind::Empty
    } else {
        Kind::Str
    }
}

/// A text, the text to replace at its first place, the replacement, and the text after it.
const PLAIN: [(&[u8], &[u8], &[u8], &[u8]); 11] = [
    (b"a.b.c", b".", b"", b"ab.c"),
    (b"a.b.c", b".b", b"\\0", b"a\\0.c"),
    (b"abc", b"", b"x", b"abc"),
    (b"abc", b"d", b"x", b"abc"),
    (b"abc", b"abcd", b"x", b"abc"),
    (b"abc", b"abc", b"", b""),
    (b"", b"a", b"x", b""),
    (b"", b"", b"x", b""),
    (b"5", b"x", b"y", b"5"),
    (
        b"0xff",
        b"ff",
        b"a text of more than thirty bytes",
        b"0xa text of more than thirty bytes",
    ),
    (b"1.50", b".", b",", b"1,50"),
];

/// Values of kinds that data doesn't have, each with its kind after a change, and with its texts after `.$`
/// and after `1` were replaced by `X`.
fn made(alloc: Global) -> Result<[(Value, Kind, &'static [u8], &'static [u8]); 6], NoMemory> {
    let int = IntValue {
        n: -12,
        spelling: Bytes::new(alloc),
    };
    Ok([
        (Value::Absent, Kind::Absent, b"", b""),
        (Value::Error, Kind::Error, b"(error)", b"(error)"),
        (
            Value::Map(MapValue::new(alloc)?),
            Kind::Error,
            b"(error)",
            b"(error)",
        ),
        (
            Value::Array(ArrayValue::new(alloc)),
            Kind::Error,
            b"(error)",
            b"(error)",
        ),
        (Value::Bool(true), Kind::Str, b"truX", b"true"),
        (Value::Int(int), Kind::Str, b"-1X", b"-X2"),
    ])
}

/// Whether the first match and all matches of a row are replaced in its text's value.
fn are_changed(alloc: Global, row: &Row) -> Result<bool, Fail> {
    let (pattern, text, by, first, all) = *row;
    let opts = InferOpts::plain();
    let pattern = pattern_of(alloc, pattern, false)?;
    let mut matcher = pattern.matcher(alloc)?;
    let value = from_data(alloc, text, opts)?;
    let of_first = sub_value(alloc, &mut matcher, value, by, Which::First)?;
    let value = from_data(alloc, text, opts)?;
    let of_all = sub_value(alloc, &mut matcher, value, by, Which::All)?;
    Ok(
        is(&of_first, kind_of_text(first), first, alloc)?
            && is(&of_all, kind_of_text(all), all, alloc)?,
    )
}

fn first_wrong_value(alloc: Global) -> Result<Option<usize>, Fail> {
    for (i, row) in IN_VALUES.iter().enumerate() {
        if !are_changed(alloc, row)? {
            return Ok(Some(i));
        }
    }
    Ok(None)
}

fn first_wrong_plain(alloc: Global) -> Result<Option<usize>, NoMemory> {
    for (i, (text, old, by, want)) in PLAIN.iter().enumerate() {
        let value = from_data(alloc, *text, InferOpts::plain())?;
        let changed = ssub_value(alloc, value, *old, *by)?;
        if !is(&changed, kind_of_text(*want), *want, alloc)? {
            return Ok(Some(i));
        }
    }
    Ok(None)
}

/// Whether both changes of a value of another kind give this kind and these texts.
fn is_other_changed(
    alloc: Global,
    pattern: &Pattern,
    row: &(Value, Kind, &[u8], &[u8]),
) -> Result<bool, NoMemory> {
    let (value, kind, sub, ssub) = row;
    let mut matcher = pattern.matcher(alloc)?;
    let of_sub = sub_value(alloc, &mut matcher, value.copy(alloc)?, b"X", Which::First)?;
    let of_ssub = ssub_value(alloc, value.copy(alloc)?, b"1", b"X")?;
    Ok(is(&of_sub, *kind, *sub, alloc)? && is(&of_ssub, *kind, *ssub, alloc)?)
}

fn first_wrong_other(alloc: Global) -> Result<Option<usize>, Fail> {
    let pattern = pattern_of(alloc, b".$", false)?;
    for (i, row) in made(alloc)?.iter().enumerate() {
        if !is_other_changed(alloc, &pattern, row)? {
            return Ok(Some(i));
        }
    }
    Ok(None)
}

#[test]
fn patterns_are_read_and_matches_are_replaced(rt: HostRuntime) -> Result<(), Fail> {
    let alloc = rt.alloc();
    assert_eq!(rt; first_wrong_word(), None);
    assert_eq!(rt; first_wrong_weight(), None);
    assert_eq!(rt; first_misread(alloc)?, None);
    assert_eq!(rt; first_wrong_text(alloc)?, None);
    assert!(rt; is_found(alloc)?);
    assert!(rt; are_copied(alloc)?);
    assert_eq!(rt; first_wrong_value(alloc)?, None);
    assert_eq!(rt; first_wrong_plain(alloc)?, None);
    assert_eq!(rt; first_wrong_other(alloc)?, None);
    Ok(())
}
