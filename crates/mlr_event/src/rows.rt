//! What all readers do with comments and with the context of a record, and names that are taken.
ghost use Rattle.std.specs.Prelude.{◌≡◌, ◌-◌, ◌^◌, ◌<◌, ◌++◌, ◌∷◌, ℕ, List, [], None, length, OnOk};
ghost use Rattle.mlr_spec.specs.Infer.{tree_of_data};
ghost use Rattle.mlr_spec.specs.Pairs.{keys_of, value_at};
ghost use Rattle.mlr_event.specs.declared.event.Ctx.{Ctx};
ghost use Rattle.mlr_event.specs.Reading.{comment_items, events_of, is_among, is_comment, next};

use crate::{Comments, Ctx, Event, Events, ReadOpts};
use mlr_record::Record;
use mlr_spec::NoMemory;
use mlr_value::{Bytes, from_data};
use std::alloc::Global;

/// The context of the next record.
#[inline]
pub fn next_ctx(at: Ctx) -> Ctx
    requires nr { at.nr < 2 ^ 64 - 1 }
    requires fnr { at.fnr < 2 ^ 64 - 1 }
    ensures { result ≡ next at }
{
    Ctx {
        nr: at.nr + 1,
        fnr: at.fnr + 1,
        filenum: at.filenum,
    }
}

/// Whether the line is a comment.
#[inline]
pub fn is_comment(comments: &Comments, line: &[u8]) -> bool
    ensures { result ≡ is_comment comments.now line.now }
{
    match comments {
        Comments::Keep => false,
        Comments::Skip(prefix) | Comments::Pass(prefix) => line.starts_with(prefix.as_slice()),
    }
}

/// Appends what a comment gives: nothing, or the line and LF.
pub fn push_comment(
    alloc: Global,
    comments: &Comments,
    line: &[u8],
    out: &mut Events,
) -> Result<(), NoMemory>
    ensures { OnOk result ((at : Ctx)
        → out.new ≡ out.old ++ events_of at (comment_items comments.now line.now)) }
{
    if let Comments::Pass(_) = comments {
        let mut text = Bytes::copy_of(alloc, line)?;
        text.append(b"\n")?;
        out.push(Event::Text(text))?;
    }
    Ok(())
}

/// Names that are taken.
pub trait TakenNames {
    /// The names, in order.
    ghost names: { Self → List (List ℕ) };

    /// How many there are.
    fn count(&self) -> usize
        ensures { result ≡ length (names self.now) };

    /// Whether this one is there.
    fn has(&self, name: &[u8]) -> bool
        ensures { result ≡ is_among (names self.now) name.now };
}

impl TakenNames for Record {
    ghost names = { keys_of };

    fn count(&self) -> usize {
        self.len()
    }

    fn has(&self, name: &[u8]) -> bool {
        self.position(name).is_some()
    }
}

impl TakenNames for Vec<Bytes> {
    ghost names = { λ names. names.items };

    fn count(&self) -> usize {
        self.len()
    }

    fn has(&self, name: &[u8]) -> bool {
        self.iter().any(|other| name == other.as_slice())
    }
}

/// Appends a field of this text, whose name the record doesn't have. It makes no search.
#[inline]
pub fn push_text(
    alloc: Global,
    opts: &ReadOpts,
    name: &[u8],
    text: &[u8],
    record: &mut Record,
) -> Result<(), NoMemory>
    requires { value_at name.now record.old ≡ None }
    ensures { OnOk result (record.new ≡ record.old
        ++ (name.now, tree_of_data opts.now.infer text.now) ∷ []) }
{
    let value = from_data(alloc, text, opts.infer)?;
    record.push(name, value)
}
