//! Names and options copied, and events in their order.
ghost use Rattle.std.specs.Prelude.{[]};

use mlr_event::models::{Cat, Tac};
use mlr_event::rows::{TakenNames, is_comment, next_ctx, push_comment, push_text};
use mlr_event::{Comments, Ctx, Event, Events, Format, InputName, Names, ReadOpts, Step, Target};
use mlr_record::Record;
use mlr_spec::{InferOpts, NoMemory};
use mlr_value::{Bytes, Value};
use std::alloc::Global;
use std::process::Abort;

/// Whether the names with a semicolon after each are this text.
fn are(alloc: Global, names: &[Bytes], text: &str) -> Result<bool, NoMemory> {
    let mut all = Bytes::new(alloc);
    for name in names {
        all.append(name.as_slice())?;
        all.append(b";")?;
    }
    Ok(all.as_slice() == text.as_bytes())
}

/// Names, and a text of them with a semicolon after each.
const NAMES: [(&[&str], &str); 5] = [
    (&[], ""),
    (&["a", "b"], "a;b;"),
    (&["a", "a_2", "a"], "a;a_2;a;"),
    (&["", ""], ";;"),
    (
        &["b", "", "a", "a name of more than thirty bytes"],
        "b;;a;a name of more than thirty bytes;",
    ),
];

/// The names of some texts.
fn names_from(alloc: Global, texts: &[&str]) -> Result<Names, NoMemory> {
    let mut names = Names::new(alloc);
    for text in texts {
        names.push(Bytes::copy_of(alloc, text.as_bytes())?)?;
    }
    Ok(names)
}

/// Whether the list has each of the texts at its place.
fn are_at_their_places(names: &Names, texts: &[&str]) -> bool {
    for (place, text) in texts.iter().enumerate() {
        let text = text.as_bytes();
        if !names.has(text) || names.at(place).map(|name| name.as_slice()) != Some(text) {
            return false;
        }
    }
    names.len() == texts.len() && names.at(texts.len()).is_none() && !names.has(b"c")
}

/// Whether a copy of some names is as a row says.
fn are_named(alloc: Global, row: &(&[&str], &str)) -> Result<bool, NoMemory> {
    let (texts, same) = *row;
    let copy = names_from(alloc, texts)?.copy()?;
    let taken = copy.as_slice();
    Ok(are_at_their_places(&copy, texts) && are(alloc, taken, same)?)
}

fn first_misnamed(alloc: Global) -> Result<Option<usize>, NoMemory> {
    for (i, row) in NAMES.iter().enumerate() {
        if !are_named(alloc, row)? {
            return Ok(Some(i));
        }
    }
    Ok(None)
}

/// Options with these separators.
fn options(
    alloc: Global,
    ifs: &str,
    ips: &str,
    ragged: bool,
    comments: Comments,
) -> Result<ReadOpts, NoMemory> {
    Ok(ReadOpts {
        format: Format::Dkvp,
        ifs: Bytes::copy_of(alloc, ifs.as_bytes())?,
        ips: Bytes::copy_of(alloc, ips.as_bytes())?,
        implicit: false,
        ragged,
        dedupe: true,
        comments,
        infer: InferOpts::plain(),
    })
}

/// Two names of files, and whether they are one.
const FILES: [(&str, &str, bool); 5] = [
    ("a", "a", true),
    ("a", "./a", false),
    ("a", "A", false),
    ("data/2024-01/input.dkvp", "data/2024-01/input.dkvp", true),
    ("data/2024-01/input.dkvp", "data/2024-01/input.json", false),
];

/// Whether two inputs of these names are one, and neither is standard input.
fn are_one_input(alloc: Global, first: &str, second: &str) -> Result<Option<bool>, NoMemory> {
    let stdin = InputName::Stdin.copy(alloc)?;
    let input = InputName::File(Bytes::copy_of(alloc, first.as_bytes())?);
    let other = InputName::File(Bytes::copy_of(alloc, second.as_bytes())?).copy(alloc)?;
    if input.is(&stdin) || stdin.is(&other) || !stdin.is(&InputName::Stdin) {
        return Ok(None);
    }
    Ok(Some(input.is(&other)))
}

/// Whether two targets of these names are one, and neither is a standard stream.
fn are_one_target(alloc: Global, first: &str, second: &str) -> Result<Option<bool>, NoMemory> {
    let stdout = Target::Stdout.copy(alloc)?;
    let stderr = Target::Stderr.copy(alloc)?;
    let target = Target::File(Bytes::copy_of(alloc, first.as_bytes())?);
    let other = Target::File(Bytes::copy_of(alloc, second.as_bytes())?).copy(alloc)?;
    if target.is(&stdout) || stderr.is(&other) || stdout.is(&stderr) {
        return Ok(None);
    }
    Ok(Some(target.is(&other)))
}

fn first_wrong_files(alloc: Global) -> Result<Option<usize>, NoMemory> {
    for (i, (first, second, same)) in FILES.iter().enumerate() {
        if are_one_input(alloc, *first, *second)? != Some(*same)
            || are_one_target(alloc, *first, *second)? != Some(*same)
        {
            return Ok(Some(i));
        }
    }
    Ok(None)
}

/// Whether copies of options with comments of this prefix are equal.
fn are_copies_equal(alloc: Global, prefix: &str) -> Result<bool, NoMemory> {
    let pass = Comments::Pass(Bytes::copy_of(alloc, prefix.as_bytes())?);
    let skip = Comments::Skip(Bytes::copy_of(alloc, prefix.as_bytes())?);
    let opts = options(alloc, ";", "::", true, pass)?;
    Ok(opts.copy(alloc)? == opts && skip.copy(alloc)? == skip && skip != opts.comments)
}

/// Whether the standard streams are themselves alone.
fn are_streams(alloc: Global) -> Result<bool, NoMemory> {
    let stdout = Target::Stdout.copy(alloc)?;
    let stderr = Target::Stderr.copy(alloc)?;
    Ok(stdout.is(&Target::Stdout) && stderr.is(&Target::Stderr))
}

/// A record with one field, which was read from a text.
fn one_text(alloc: Global) -> Result<Record, NoMemory> {
    let opts = options(alloc, ",", "=", false, Comments::Keep)?;
    let mut record = Record::new(alloc)?;
    push_text(alloc, &opts, b"a", b"0x10", &mut record)?;
    Ok(record)
}

/// Whether a text is pushed as the value that it is read as.
fn is_text_pushed(alloc: Global) -> Result<bool, NoMemory> {
    let record = one_text(alloc)?;
    Ok(
        record.has(b"a")
            && !record.has(b"a_2")
            && matches!(record.get(b"a"), Some(Value::Int(number)) if number.n == 16),
    )
}

/// Whether comments are known by their prefix.
fn are_comments_known(alloc: Global) -> Result<bool, NoMemory> {
    let pass = Comments::Pass(Bytes::copy_of(alloc, b"//")?);
    Ok(
        is_comment(&pass, b"//a")
            && !is_comment(&pass, b"/")
            && !is_comment(&Comments::Keep, b"//a"),
    )
}

/// Whether a comment is passed on as a line where the options say so, and only there.
fn are_comments_passed(alloc: Global) -> Result<bool, NoMemory> {
    let pass = Comments::Pass(Bytes::copy_of(alloc, b"//")?);
    let skip = Comments::Skip(Bytes::new(alloc));
    let mut out = Events::new(alloc);
    push_comment(alloc, &pass, b"//a", &mut out)?;
    push_comment(alloc, &skip, b"b", &mut out)?;
    let line: &[u8] = b"//a\n";
    let first = matches!(out.at(0), Some(Event::Text(text)) if text.as_slice() == line);
    Ok(first && out.len() == 1)
}

/// The context of the record with this number in the first file.
fn first_file(nr: u64) -> Ctx {
    Ctx {
        nr,
        fnr: nr,
        filenum: 1,
    }
}

/// A letter for each kind of event, and the number of its record.
fn shown(alloc: Global, events: &Events) -> Result<Bytes, NoMemory> {
    let mut text = Bytes::new(alloc);
    for place in 0..events.len() {
        match events.at(place) {
            Some(Event::Rec(_, at)) if at.nr < 10 => text.push(b'0' + at.nr as u8)?,
            Some(Event::Text(_)) => text.push(b't')?,
            Some(Event::End(_)) => text.push(b'e')?,
            _ => text.push(b'?')?,
        }
    }
    Ok(text)
}

/// The events that a verb gives for three records, a text and the end.
fn made_of_three<S: Step + Drop>(alloc: Global, verb: S) -> Result<Bytes, NoMemory>
    requires { S.represents verb [] }
{
    let mut verb = verb;
    let mut out = Events::new(alloc);
    verb.step(Event::Rec(Record::new(alloc)?, first_file(1)), &mut out)?;
    verb.step(Event::Rec(Record::new(alloc)?, first_file(2)), &mut out)?;
    verb.step(Event::Rec(Record::new(alloc)?, first_file(3)), &mut out)?;
    verb.step(Event::Text(Bytes::copy_of(alloc, b"text")?), &mut out)?;
    verb.step(Event::End(first_file(3)), &mut out)?;
    shown(alloc, &out)
}

/// The events that `Cat` gives for a record, a text and the end, if it stays as it was.
fn passed(alloc: Global) -> Result<Bytes, NoMemory> {
    let mut cat = Cat::new();
    let mut out = Events::new(alloc);
    cat.step(Event::Rec(Record::new(alloc)?, first_file(1)), &mut out)?;
    cat.step(Event::Text(Bytes::copy_of(alloc, b"text")?), &mut out)?;
    cat.step(Event::End(first_file(1)), &mut out)?;
    if cat.closed() || cat.has_effects() || cat.is_broken() {
        return Ok(Bytes::new(alloc));
    }
    shown(alloc, &out)
}

/// Whether the next record has the next numbers.
fn is_next_numbered() -> bool {
    let second = Ctx {
        nr: 4,
        fnr: 0,
        filenum: 2,
    };
    let next = Ctx {
        nr: 5,
        fnr: 1,
        filenum: 2,
    };
    next_ctx(second) == next
}

/// Checks options, contexts and lists of events.
pub(crate) fn check_events(rt: &impl Abort, alloc: Global) -> Result<(), NoMemory> {
    assert_eq!(rt; first_misnamed(alloc)?, None);
    assert_eq!(rt; first_wrong_files(alloc)?, None);
    assert!(rt; are_streams(alloc)?);
    assert!(rt; are_copies_equal(alloc, "%")?);
    assert!(rt; are_copies_equal(alloc, "-- a prefix of more bytes than lie inline")?);
    assert!(rt; Comments::Keep.copy(alloc)? == Comments::Keep);
    assert!(rt; is_next_numbered());
    assert!(rt; is_text_pushed(alloc)?);
    assert!(rt; are_comments_known(alloc)? && are_comments_passed(alloc)?);
    let reversed = made_of_three(alloc, Tac::new(alloc))?;
    assert_eq!(rt; reversed.as_slice(), b"t321e".as_slice());
    assert_eq!(rt; passed(alloc)?.as_slice(), b"1te".as_slice());
    Ok(())
}
