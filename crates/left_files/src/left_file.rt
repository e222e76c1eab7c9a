//! A left file of a verb.
ghost use Rattle.std.specs.Prelude.{◌≡◌, IfOk};

use mlr_event::{InputName, ReadOpts};
use mlr_spec::NoMemory;
use std::alloc::Global;

/// A left file of a verb.
#[derive(Drop)]
pub struct LeftFile {
    /// The number of the verb in its chain, which counts from 1.
    pub number: u32,
    /// How the file is read.
    pub read: ReadOpts,
    pub name: InputName,
}

impl LeftFile {
    /// A copy. It takes memory for texts of more than 20 bytes.
    pub fn copy(&self, alloc: Global) -> Result<LeftFile, NoMemory>
        ensures { IfOk result (λ copy. copy ≡ self.now) }
    {
        Ok(LeftFile {
            number: self.number,
            read: self.read.copy(alloc)?,
            name: self.name.copy(alloc)?,
        })
    }
}
