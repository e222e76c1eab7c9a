//! `count`: the number of records, of all or of each group, or the number of groups.
ghost use Rattle.std.specs.Prelude.{◌≡◌, IfOk};

use mlr_event::Names;
use mlr_spec::NoMemory;
use mlr_value::Bytes;
use std::alloc::Global;

/// The options of `count`.
#[derive(Drop)]
pub struct Count {
    pub groups: Option<Names>,
    /// Whether the number of groups is given alone. Without grouping fields it has no effect.
    pub number: bool,
    /// The name of the field that has the count.
    pub output: Bytes,
}

impl Count {
    /// A copy. It allocates for the names of the grouping fields.
    pub fn copy(&self, alloc: Global) -> Result<Self, NoMemory>
        ensures { IfOk result (λ copy. copy ≡ self.now) }
    {
        Ok(Count {
            groups: self.groups.as_ref().map(Names::copy).transpose()?,
            number: self.number,
            output: Bytes::copy_of(alloc, self.output.as_slice())?,
        })
    }
}
