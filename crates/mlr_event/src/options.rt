//! How a file is read: its format, its separators and its flags.
ghost use Rattle.std.specs.Prelude.{◌≡◌, ◌≤◌, length, IfOk, IsOk};
ghost use Rattle.mlr_event.specs.Defaults.{default_read, default_separator};
ghost use Rattle.mlr_event.specs.Reading.{prefix_of};

use mlr_spec::{InferOpts, NoMemory};
use mlr_value::Bytes;
use std::alloc::Global;

/// A format of records.
#[derive(Clone, Copy, Debug, PartialEq, Eq)]
pub enum Format {
    /// Comma-separated values (RFC 4180).
    Csv,
    /// Tab-separated values, with backslash escapes.
    Tsv,
    /// JSON (RFC 8259).
    Json,
    /// JSON Lines.
    Jsonl,
    /// Delimited key-value pairs, Miller's own format.
    Dkvp,
    /// Values by their position.
    Nidx,
    /// A line for each field.
    Xtab,
    /// Aligned columns.
    Pprint,
    /// Markdown tables.
    Markdown,
}

impl Format {
    /// The separator of fields where no flag gives one.
    pub fn separator(self) -> &'static [u8]
        ensures { result.now ≡ default_separator self }
    {
        match self {
            Format::Tsv => b"\t",
            Format::Nidx => b" ",
            _ => b",",
        }
    }
}

/// What a reader does with a line that begins with a prefix where a row may begin.
#[derive(Debug, PartialEq, Eq, Drop)]
pub enum Comments {
    /// It is data.
    Keep,
    /// It is dropped.
    Skip(Bytes),
    /// It is a text event: the line, and LF.
    Pass(Bytes),
}

impl Comments {
    /// A copy. It takes memory for a prefix of more than 20 bytes.
    pub fn copy(&self, alloc: Global) -> Result<Comments, NoMemory>
        ensures same { IfOk result (λ copy. copy ≡ self.now) }
        ensures short { length (prefix_of self.now) ≤ 20 → IsOk result }
    {
        Ok(match self {
            Comments::Keep => Comments::Keep,
            Comments::Skip(prefix) => Comments::Skip(Bytes::copy_of(alloc, prefix.as_slice())?),
            Comments::Pass(prefix) => Comments::Pass(Bytes::copy_of(alloc, prefix.as_slice())?),
        })
    }
}

/// How a file is read. What another format means has no effect.
#[derive(Debug, PartialEq, Eq)]
pub struct ReadOpts {
    pub format: Format,
    /// The separator of fields (CSV, TSV, DKVP, NIDX): 1 to 16 bytes.
    pub ifs: Bytes,
    /// The separator of a key and its value (DKVP): 1 to 16 bytes.
    pub ips: Bytes,
    /// The first line is data, and the keys are 1, 2, 3 and so on (CSV, TSV).
    pub implicit: bool,
    /// A row may be shorter or longer than its header (CSV, TSV).
    pub ragged: bool,
    /// A name that repeats in a record gets a suffix; else it keeps its first place and takes its last value.
    pub dedupe: bool,
    pub comments: Comments,
    pub infer: InferOpts,
}

// Written by hand, so that the crates above call it instead of dropping the fields themselves.
impl Drop for ReadOpts {
    fn drop(self) {
        let ReadOpts {
            format: _,
            ifs,
            ips,
            implicit: _,
            ragged: _,
            dedupe: _,
            comments,
            infer: _,
        } = self;
        drop(ifs);
        drop(ips);
        drop(comments);
    }
}

impl ReadOpts {
    /// How a format is read where no flag says otherwise. It takes no memory.
    pub fn of(alloc: Global, format: Format) -> Result<ReadOpts, NoMemory>
        ensures same { IfOk result (λ opts. opts ≡ default_read format) }
        ensures sure { IsOk result }
    {
        Ok(ReadOpts {
            format,
            ifs: Bytes::copy_of(alloc, format.separator())?,
            ips: Bytes::copy_of(alloc, b"=")?,
            implicit: false,
            ragged: false,
            dedupe: true,
            comments: Comments::Keep,
            infer: InferOpts::plain(),
        })
    }

    /// A copy. It takes memory for texts of more than 20 bytes.
    pub fn copy(&self, alloc: Global) -> Result<ReadOpts, NoMemory>
        ensures same { IfOk result (λ copy. copy ≡ self.now) }
        ensures short { length self.now.ifs ≤ 20 → length self.now.ips ≤ 20
            → length (prefix_of self.now.comments) ≤ 20 → IsOk result }
    {
        Ok(ReadOpts {
            format: self.format,
            ifs: Bytes::copy_of(alloc, self.ifs.as_slice())?,
            ips: Bytes::copy_of(alloc, self.ips.as_slice())?,
            implicit: self.implicit,
            ragged: self.ragged,
            dedupe: self.dedupe,
            comments: self.comments.copy(alloc)?,
            infer: self.infer,
        })
    }
}
