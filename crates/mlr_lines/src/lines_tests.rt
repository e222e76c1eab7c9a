//! Files read whole and cut at each byte, by a format that gives each line as a text.

ghost use Rattle.std.specs.Prelude.{◌≡◌, ◌∷◌, [], IfOk};
ghost use Rattle.mlr_event.specs.declared.event.Event.TheVariants as event;

use crate::{LineFormat, Lines};
use mlr_event::{Ctx, Event, Events, FileRef, ReadOpts};
use mlr_spec::NoMemory;
use mlr_value::Bytes;
use std::alloc::Global;
use std::test::Fail;

/// A format that gives each line as a text, and the rest of the file too.
#[derive(Drop)]
struct Echo {
    alloc: Global,
    at: Ctx,
}

impl LineFormat for Echo {
    ghost use Rattle.std.specs.Prelude.{◌≡◌, ℕ, List, true, map, max, [], ◌∷◌, ◌++◌, ◌+◌, ◌≤◌};
    ghost use Rattle.std.proofs.Common.{arith};
    ghost use Rattle.mlr_event.specs.declared.event.Event.TheVariants as event;
    ghost use Rattle.mlr_event.specs.Reading.{comment};
    ghost use Rattle.mlr_lines.specs.Lines.{begun_line, ended_lines};

    ghost usable = { λ opts. true };

    ghost fed = { λ opts file bytes. map comment (ended_lines bytes) };

    ghost whole = { λ opts file bytes. map comment (ended_lines bytes ++ begun_line bytes ∷ []) };

    ghost begins = { λ echo opts file start. echo.at ≡ start };

    ghost after = { λ echo line. echo };

    ghost gives = { λ echo line. event.Text line ∷ [] };

    ghost after_last = { λ echo line. echo };

    ghost gives_last = { λ echo line. event.Text line ∷ [] };

    ghost at = { λ echo. echo.at };

    ghost count = { λ echo. max 1 (max echo.at.nr echo.at.fnr) };

    ghost counts = { λ echo line. Prim.omega arith };

    fn begin(alloc: Global, _: ReadOpts, _: FileRef, start: Ctx) -> Self {
        Echo { alloc, at: start }
    }

    fn line(&mut self, line: &[u8], out: &mut Events) -> Result<(), NoMemory> {
        out.push(Event::Text(Bytes::copy_of(self.alloc, line)?))
    }

    fn last(&mut self, line: &[u8], out: &mut Events) -> Result<(), NoMemory> {
        out.push(Event::Text(Bytes::copy_of(self.alloc, line)?))
    }

    fn ctx(&self) -> Ctx {
        self.at
    }

    fn laws() {}
}

/// Before the first record of a first file.
const START: Ctx = Ctx {
    nr: 0,
    fnr: 0,
    filenum: 1,
};

/// The texts, each in brackets.
fn shown(alloc: Global, events: &Events) -> Result<Bytes, NoMemory> {
    let mut all = Bytes::new(alloc);
    for place in 0..events.len() {
        if let Some(Event::Text(text)) = events.at(place) {
            all.append(b"[")?;
            all.append(text.as_slice())?;
            all.append(b"]")?;
        }
    }
    Ok(all)
}

/// The lines of a file that is read in two pieces.
fn lines_of(alloc: Global, prefix: &[u8], rest: &[u8]) -> Result<Bytes, NoMemory> {
    let mut events = Events::new(alloc);
    let mut lines = Lines::new(alloc, Echo { alloc, at: START });
    if prefix.len() < 1000 && rest.len() < 1000 {
        lines.feed(prefix, &mut events)?;
        lines.feed(rest, &mut events)?;
        lines.end(&mut events)?;
    }
    shown(alloc, &events)
}

const FILES: [(&[u8], &[u8]); 10] = [
    (b"", b"[]"),
    (b"a", b"[a]"),
    (b"a\nbc\n", b"[a][bc][]"),
    (b"\n\na", b"[][][a]"),
    (b"a\r\nb", b"[a\r][b]"),
    (b"\xef\xbb\xbfa\nb", b"[a][b]"),
    (b"\xef\xbb\xbf", b"[]"),
    (b"\xef\xbba\n", b"[\xef\xbba][]"),
    (b"\xef\xbb\xbf\xef\xbb\xbfa\n", b"[\xef\xbb\xbfa][]"),
    (
        b"a\n\xef\xbb\xbfb\n\n\xef\xbb\xbf",
        b"[a][\xef\xbb\xbfb][][\xef\xbb\xbf]",
    ),
];

#[test]
fn files_cut_at_each_byte(rt: HostRuntime) -> Result<(), NoMemory> {
    for (i, row) in FILES.iter().enumerate() {
        let (file, want) = *row;
        for cut in 0..file.len() + 1 {
            let shown = lines_of(rt.alloc(), &file[..cut], &file[cut..])?;
            assert_eq!(rt; shown.as_slice(), want, "at {i}, cut at {cut}");
        }
    }
    Ok(())
}

#[test]
fn lines_broken_never_with_memory(rt: HostRuntime) -> Result<(), Fail> {
    let alloc = rt.alloc();
    let mut events = Events::new(alloc);
    let mut lines = Lines::new(alloc, Echo { alloc, at: START });
    assert!(rt; !lines.is_broken());
    lines.feed(b"a\nb", &mut events).ok().ok_or("no memory")?;
    assert!(rt; !lines.is_broken());
    assert_eq!(rt; events.len(), 1);
    lines.end(&mut events).ok().ok_or("no memory")?;
    assert!(rt; !lines.is_broken());
    let _ = lines.format();
    assert_eq!(rt; events.len(), 2);
    Ok(())
}
