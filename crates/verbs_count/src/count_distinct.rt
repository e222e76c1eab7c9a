//! `count-distinct`: the number of records of each list of texts of some fields, or how many such lists there are.
ghost use Rattle.std.specs.Prelude.{◌≡◌, IfOk};

use mlr_event::Names;
use mlr_spec::NoMemory;
use mlr_value::Bytes;
use std::alloc::Global;

/// The options of `count-distinct`.
#[derive(Drop)]
pub struct CountDistinct {
    pub names: Names,
    /// Whether the number of distinct lists is given alone.
    pub number: bool,
    /// The name of the field that has the count.
    pub output: Bytes,
}

impl CountDistinct {
    /// A copy. It allocates for the names.
    pub fn copy(&self, alloc: Global) -> Result<Self, NoMemory>
        ensures { IfOk result (λ copy. copy ≡ self.now) }
    {
        Ok(CountDistinct {
            names: self.names.copy()?,
            number: self.number,
            output: Bytes::copy_of(alloc, self.output.as_slice())?,
        })
    }
}
