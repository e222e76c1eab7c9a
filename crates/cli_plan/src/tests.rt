//! What flags set.
use crate::settings::{Settings, settings_of};
use cli_grammar::line_of;
use mlr_event::Comments;
use mlr_spec::NoMemory;
use mlr_value::Bytes;
use std::alloc::Global;

/// Flags, and the settings that they give, as `shown` writes them.
const ROWS: [(&str, &str); 29] = [
    (
        "-M --from a",
        "Dkvp Dkvp - - - - - dslfu keep - 500 1000000000",
    ),
    ("--icsv", "Csv Dkvp - - - - - dslfu keep - 500 1000000000"),
    (
        "--ojsonl",
        "Dkvp Jsonl - - - - - dslfu keep - 500 1000000000",
    ),
    ("--c2p", "Csv Pprint - - - - - dslfu keep - 500 1000000000"),
    ("--c2b", "Csv Pprint - - - - - dbslfu keep - 500 1000000000"),
    ("-i tsv", "Tsv Dkvp - - - - - dslfu keep - 500 1000000000"),
    (
        "-o markdown",
        "Dkvp Markdown - - - - - dslfu keep - 500 1000000000",
    ),
    (
        "--io xtab",
        "Xtab Xtab - - - - - dslfu keep - 500 1000000000",
    ),
    (
        "--csv --io nidx --ijson",
        "Json Nidx - - - - - dslfu keep - 500 1000000000",
    ),
    ("--ifs ;", "Dkvp Dkvp ; - - - - dslfu keep - 500 1000000000"),
    (
        "--ips colon",
        "Dkvp Dkvp - : - - - dslfu keep - 500 1000000000",
    ),
    (
        "--ofs ::",
        "Dkvp Dkvp - - :: - - dslfu keep - 500 1000000000",
    ),
    (
        "--ops =>",
        "Dkvp Dkvp - - - => - dslfu keep - 500 1000000000",
    ),
    (
        "--flatsep :",
        "Dkvp Dkvp - - - - : dslfu keep - 500 1000000000",
    ),
    (
        "--fs comma --ifs pipe",
        "Dkvp Dkvp | - , - - dslfu keep - 500 1000000000",
    ),
    (
        "--ops x --ps slash",
        "Dkvp Dkvp - / - / - dslfu keep - 500 1000000000",
    ),
    (
        "--hi --ho --ragged",
        "Dkvp Dkvp - - - - - ihrdslfu keep - 500 1000000000",
    ),
    (
        "--quote-all --barred",
        "Dkvp Dkvp - - - - - dqbslfu keep - 500 1000000000",
    ),
    (
        "--no-dedupe-field-names --no-jvstack --no-jlistwrap",
        "Dkvp Dkvp - - - - - fu keep - 500 1000000000",
    ),
    (
        "--no-jvstack --no-jlistwrap --jvstack --jlistwrap",
        "Dkvp Dkvp - - - - - dslfu keep - 500 1000000000",
    ),
    (
        "--no-auto-flatten",
        "Dkvp Dkvp - - - - - dslu keep - 500 1000000000",
    ),
    (
        "--no-auto-unflatten",
        "Dkvp Dkvp - - - - - dslf keep - 500 1000000000",
    ),
    (
        "--skip-comments",
        "Dkvp Dkvp - - - - - dslfu skip # 500 1000000000",
    ),
    (
        "--pass-comments",
        "Dkvp Dkvp - - - - - dslfu pass # 500 1000000000",
    ),
    (
        "--pass-comments --skip-comments-with //",
        "Dkvp Dkvp - - - - - dslfu skip // 500 1000000000",
    ),
    (
        "--pass-comments-with %",
        "Dkvp Dkvp - - - - - dslfu pass % 500 1000000000",
    ),
    ("-S -O", "Dkvp Dkvp - - - - - dslfuno keep - 500 1000000000"),
    (
        "-n --serial",
        "Dkvp Dkvp - - - - - dslfuxt keep - 500 1000000000",
    ),
    (
        "--records-per-batch 1 --dsl-turns 25",
        "Dkvp Dkvp - - - - - dslfu keep - 1 25",
    ),
];

/// The settings that these flags give, before a verb.
fn settings_from(alloc: Global, flags: &str) -> Result<Settings, NoMemory> {
    let mut words = Vec::new(alloc);
    for word in flags.split(' ') {
        words.push(Bytes::copy_of(alloc, word.as_bytes())?)?;
    }
    words.push(Bytes::copy_of(alloc, b"cat")?)?;
    let line = line_of(alloc, &words)?;
    settings_of(alloc, line.flags.as_slice())
}

/// A separator, or a dash where there is none.
fn separator_shown(given: &Option<Bytes>) -> &[u8] {
    match given {
        Some(text) => text.as_slice(),
        None => b"-",
    }
}

/// What becomes of comments, and their prefix.
fn comments_shown(comments: &Comments) -> (&'static [u8], &[u8]) {
    match comments {
        Comments::Keep => (b" keep ", b"-"),
        Comments::Skip(prefix) => (b" skip ", prefix.as_slice()),
        Comments::Pass(prefix) => (b" pass ", prefix.as_slice()),
    }
}

/// The letters of the switches that are on.
fn letters(settings: &Settings) -> [(bool, u8); 14] {
    [
        (settings.implicit, b'i'),
        (settings.headerless, b'h'),
        (settings.ragged, b'r'),
        (settings.dedupe, b'd'),
        (settings.quote_all, b'q'),
        (settings.barred, b'b'),
        (settings.stacked, b's'),
        (settings.listwrap, b'l'),
        (settings.flattens, b'f'),
        (settings.unflattens, b'u'),
        (settings.infer.none, b'n'),
        (settings.infer.octal, b'o'),
        (settings.no_input, b'x'),
        (settings.serial, b't'),
    ]
}

/// The five separators, each after a space.
fn append_separators(text: &mut Bytes, settings: &Settings) -> Result<(), NoMemory> {
    for given in [
        &settings.ifs,
        &settings.ips,
        &settings.ofs,
        &settings.ops,
        &settings.flatsep,
    ] {
        text.append(b" ")?;
        text.append(separator_shown(given))?;
    }
    Ok(())
}

/// The letters of the switches that are on, after a space.
fn append_letters(text: &mut Bytes, settings: &Settings) -> Result<(), NoMemory> {
    text.append(b" ")?;
    for (on, letter) in letters(settings) {
        if on {
            text.push(letter)?;
        }
    }
    Ok(())
}

/// Settings as a text: the formats, the five separators, the letters of the switches, comments, and
/// two numbers.
fn shown(alloc: Global, settings: &Settings) -> Result<Bytes, NoMemory> {
    let formats = format!(in alloc; "{:?} {:?}", settings.input, settings.output)?;
    let mut text = Bytes::copy_of(alloc, formats.as_bytes())?;
    append_separators(&mut text, settings)?;
    append_letters(&mut text, settings)?;
    let (what, prefix) = comments_shown(&settings.comments);
    text.append(what)?;
    text.append(prefix)?;
    let numbers = format!(in alloc; " {} {}", settings.per_batch, settings.turns)?;
    text.append(numbers.as_bytes())?;
    Ok(text)
}

/// The first row whose flags give other settings.
fn first_wrong(alloc: Global) -> Result<Option<usize>, NoMemory> {
    for (place, row) in ROWS.iter().enumerate() {
        let settings = settings_from(alloc, row.0)?;
        if shown(alloc, &settings)?.as_slice() != row.1.as_bytes() {
            return Ok(Some(place));
        }
    }
    Ok(None)
}

#[test]
fn flags_give_settings(rt: HostRuntime) -> Result<(), NoMemory> {
    assert_eq!(rt; first_wrong(rt.alloc())?, None);
    Ok(())
}
