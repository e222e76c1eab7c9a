//! The reader of one open file, of any format.
ghost use Rattle.std.specs.Prelude.{◌≡◌, true, false};
ghost use Rattle.read_files.specs.Readers.{FileRepresents};
ghost use Rattle.read_files.specs.Represents.{can_read};
ghost use Rattle.read_files.specs.Sources.{gives_as};

use crate::byte_reader::ByteReader;
use mlr_event::{Ctx, Events, FileRef, Format, InputName, ReadOpts};
use mlr_spec::NoMemory;
use read_csv::CsvReader;
use read_dkvp_nidx::LineReader;
use read_json_lines::JsonReader;
use read_xtab_pprint::BlockReader;
use std::alloc::Global;

/// The reader of a file's format.
#[derive(Drop)]
pub(crate) enum OpenFile {
    Csv(CsvReader),
    Line(LineReader),
    Block(BlockReader),
    Json(JsonReader),
}

/// An input that is open, and the reader that takes its bytes.
#[derive(Drop)]
pub(crate) struct OpenInput {
    pub(crate) name: InputName,
    pub(crate) reader: OpenFile,
}

impl ByteReader for OpenFile {
    ghost usable = { λ opts. can_read opts ≡ true };

    ghost represents = { λ reader source bytes. FileRepresents reader source bytes };

    ghost fed = { λ source bytes. gives_as source.opts.format source false bytes };

    ghost whole = { λ source bytes. gives_as source.opts.format source true bytes };

    fn begin(alloc: Global, opts: &ReadOpts, file: FileRef, start: Ctx) -> Result<Self, NoMemory> {
        Ok(match opts.format {
            Format::Csv | Format::Tsv => {
                OpenFile::Csv(ByteReader::begin(alloc, opts, file, start)?)
            }
            Format::Dkvp | Format::Nidx | Format::Markdown => {
                OpenFile::Line(ByteReader::begin(alloc, opts, file, start)?)
            }
            Format::Xtab | Format::Pprint => {
                OpenFile::Block(ByteReader::begin(alloc, opts, file, start)?)
            }
            Format::Json | Format::Jsonl => {
                OpenFile::Json(ByteReader::begin(alloc, opts, file, start)?)
            }
        })
    }

    fn feed(&mut self, piece: &[u8], out: &mut Events) -> Result<(), NoMemory> {
        match self {
            OpenFile::Csv(reader) => ByteReader::feed(reader, piece, out),
            OpenFile::Line(reader) => ByteReader::feed(reader, piece, out),
            OpenFile::Block(reader) => ByteReader::feed(reader, piece, out),
            OpenFile::Json(reader) => ByteReader::feed(reader, piece, out),
        }
    }

    fn end(&mut self, out: &mut Events) -> Result<Ctx, NoMemory> {
        match self {
            OpenFile::Csv(reader) => ByteReader::end(reader, out),
            OpenFile::Line(reader) => ByteReader::end(reader, out),
            OpenFile::Block(reader) => ByteReader::end(reader, out),
            OpenFile::Json(reader) => ByteReader::end(reader, out),
        }
    }
}
