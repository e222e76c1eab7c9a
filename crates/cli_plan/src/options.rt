//! How a command reads and writes, by what its flags set.
ghost use Rattle.std.specs.Prelude.{◌≡◌, IfOk};
ghost use Rattle.writers.specs.Style.{is_nested};
ghost use Rattle.cli_plan.specs.Options.{flatsep_of, given_or, read_of, write_of};

use crate::settings::Settings;
use mlr_event::{Format, ReadOpts};
use mlr_spec::NoMemory;
use mlr_value::Bytes;
use std::alloc::Global;
use writers::WriteOpts;

/// How a command with these settings reads.
pub fn read_options(alloc: Global, settings: &Settings) -> Result<ReadOpts, NoMemory>
    ensures { IfOk result (λ opts. opts ≡ read_of settings.now) }
{
    Ok(ReadOpts {
        format: settings.input,
        ifs: given_or(alloc, settings.input.separator(), &settings.ifs)?,
        ips: given_or(alloc, b"=", &settings.ips)?,
        implicit: settings.implicit,
        ragged: settings.ragged,
        dedupe: settings.dedupe,
        comments: settings.comments.copy(alloc)?,
        infer: settings.infer,
    })
}

/// How a command with these settings writes.
pub fn write_options(alloc: Global, settings: &Settings) -> Result<WriteOpts, NoMemory>
    ensures { IfOk result (λ opts. opts ≡ write_of settings.now) }
{
    let nested = is_nested(settings.output);
    Ok(WriteOpts {
        format: settings.output,
        ofs: given_or(alloc, settings.output.separator(), &settings.ofs)?,
        ops: given_or(alloc, b"=", &settings.ops)?,
        headerless: settings.headerless,
        quote_all: settings.quote_all,
        barred: settings.barred,
        stacked: settings.stacked,
        listwrap: settings.listwrap,
        flatten: settings.flattens && !nested,
        unflatten: settings.unflattens && nested && !is_nested(settings.input),
        flatsep: Bytes::copy_of(alloc, flatsep_of(settings))?,
    })
}

/// What joins the names on a path of a flattened name.
pub fn flatsep_of(settings: &Settings) -> &[u8]
    ensures { result.now ≡ flatsep_of settings.now }
{
    match &settings.flatsep {
        Some(text) => text.as_slice(),
        None => b".",
    }
}

/// A copy of a text that was given, or else of this one.
fn given_or(alloc: Global, default: &[u8], given: &Option<Bytes>) -> Result<Bytes, NoMemory>
    ensures { IfOk result (λ text. text ≡ given_or default.now given.now) }
{
    match given {
        Some(text) => text.copy(),
        None => Bytes::copy_of(alloc, default),
    }
}

/// Whether values can be nested in a format.
pub(crate) fn is_nested(format: Format) -> bool
    ensures { result ≡ is_nested format }
{
    matches!(format, Format::Json | Format::Jsonl)
}
