//! How records are written: the format, its separators and its flags.
ghost use Rattle.std.specs.Prelude.{◌≡◌, ◌≤◌, length, IfOk, IsOk};
ghost use Rattle.writers.specs.Style.{default_write, is_nested};

use mlr_event::Format;
use mlr_spec::NoMemory;
use mlr_value::Bytes;
use std::alloc::Global;

/// How records are written. What another format means has no effect.
#[derive(Debug, PartialEq, Eq)]
pub struct WriteOpts {
    pub format: Format,
    /// The separator of fields (CSV, TSV, DKVP, NIDX).
    pub ofs: Bytes,
    /// The separator of a key and its value (DKVP).
    pub ops: Bytes,
    /// No header is written (CSV, TSV, PPRINT).
    pub headerless: bool,
    /// Every key and value is quoted (CSV).
    pub quote_all: bool,
    /// Columns are between bars (PPRINT).
    pub barred: bool,
    /// Each field has a line of its own (JSON).
    pub stacked: bool,
    /// All records are one list (JSON).
    pub listwrap: bool,
    /// Each record is flattened.
    pub flatten: bool,
    /// Each record is unflattened, if it isn't flattened.
    pub unflatten: bool,
    /// What joins the names on a path of a flattened name.
    pub flatsep: Bytes,
}

// Written by hand, so that the crates above call it instead of dropping the fields themselves.
impl Drop for WriteOpts {
    fn drop(self) {
        let WriteOpts {
            format: _,
            ofs,
            ops,
            headerless: _,
            quote_all: _,
            barred: _,
            stacked: _,
            listwrap: _,
            flatten: _,
            unflatten: _,
            flatsep,
        } = self;
        drop(ofs);
        drop(ops);
        drop(flatsep);
    }
}

impl WriteOpts {
    /// How a format is written where no flag says otherwise: flattened, if values can't be nested in it. It takes no
    /// memory.
    pub fn of(alloc: Global, format: Format) -> Result<WriteOpts, NoMemory>
        ensures same { IfOk result (λ opts. opts ≡ default_write format) }
        ensures sure { IsOk result }
    {
        Ok(WriteOpts {
            format,
            ofs: Bytes::copy_of(alloc, format.separator())?,
            ops: Bytes::copy_of(alloc, b"=")?,
            headerless: false,
            quote_all: false,
            barred: false,
            stacked: true,
            listwrap: true,
            flatten: !is_nested(format),
            unflatten: false,
            flatsep: Bytes::copy_of(alloc, b".")?,
        })
    }

    /// A copy. It takes memory for texts of more than 20 bytes.
    pub fn copy(&self, alloc: Global) -> Result<WriteOpts, NoMemory>
        ensures same { IfOk result (λ copy. copy ≡ self.now) }
        ensures short { length self.now.ofs ≤ 20 → length self.now.ops ≤ 20
            → length self.now.flatsep ≤ 20 → IsOk result }
    {
        Ok(WriteOpts {
            format: self.format,
            ofs: Bytes::copy_of(alloc, self.ofs.as_slice())?,
            ops: Bytes::copy_of(alloc, self.ops.as_slice())?,
            headerless: self.headerless,
            quote_all: self.quote_all,
            barred: self.barred,
            stacked: self.stacked,
            listwrap: self.listwrap,
            flatten: self.flatten,
            unflatten: self.unflatten,
            flatsep: Bytes::copy_of(alloc, self.flatsep.as_slice())?,
        })
    }
}

/// Whether values can be nested in a format.
fn is_nested(format: Format) -> bool
    ensures { result ≡ is_nested format }
{
    matches!(format, Format::Json | Format::Jsonl)
}
