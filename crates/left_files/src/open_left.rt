//! The left file that is being read.
ghost use Rattle.std.specs.Prelude.{◌≡◌, true, IfOk};
ghost use Rattle.left_files.specs.Represents.{Begins};
ghost use Rattle.read_files.specs.Represents.{can_read};

use crate::left_file::LeftFile;
use mlr_event::Events;
use mlr_spec::NoMemory;
use read_files::FileReader;
use std::alloc::Global;

/// The left file that is being read, and the events that were read of it.
#[derive(Drop)]
pub(crate) struct OpenLeft {
    pub(crate) number: u32,
    pub(crate) reader: FileReader,
    pub(crate) events: Events,
}

impl OpenLeft {
    /// A reader of this file, of which nothing was taken.
    pub(crate) fn new(alloc: Global, file: LeftFile) -> Result<Self, NoMemory>
        requires { can_read file.read ≡ true }
        ensures { IfOk result (λ input. Begins file input) }
    {
        let LeftFile { number, read, name } = file;
        let mut names = Vec::new(alloc);
        names.push(name)?;
        Ok(OpenLeft {
            number,
            reader: FileReader::new(alloc, read, names)?,
            events: Events::new(alloc),
        })
    }
}
