//! `reorder`: the named fields at the start or at the end of a record.
ghost use Rattle.std.specs.Prelude.{◌≡◌, ◌++◌, IfOk};
ghost use Rattle.verbs_base.specs.Choosing.{dropped, picked};

use mlr_event::Names;
use mlr_record::Record;
use mlr_spec::NoMemory;
use std::alloc::Global;
use verbs_base::{PerRecord, move_named, move_named_last};

/// The options of `reorder`.
#[derive(Drop)]
pub struct Reorder {
    pub names: Names,
    /// Whether the named fields are moved to the end.
    pub last: bool,
}

impl Reorder {
    /// A copy. It allocates for the names.
    pub fn copy(&self, _: Global) -> Result<Self, NoMemory>
        ensures { IfOk result (λ copy. copy ≡ self.now) }
    {
        Ok(Reorder {
            names: self.names.copy()?,
            last: self.last,
        })
    }
}

impl PerRecord for Reorder {
    ghost use Rattle.verbs_base.specs.Records.{maps};
    ghost use Rattle.verbs_fields.specs.Reorder.{reorder};

    ghost gives = { λ verb. maps (reorder verb) };

    ghost sound = { λ verb. Unit {0} };

    fn made(&mut self, _: Global, fields: Record) -> Result<Option<Record>, NoMemory> {
        Ok(Some(if self.last {
            named_last(&self.names, fields)
        } else {
            named_first(&self.names, fields)
        }))
    }
}

/// The named fields in the order of the names, then the others. A name that repeats counts once. It doesn't allocate.
fn named_first(names: &Names, from: Record) -> Record
    ensures { result ≡ picked names.now from ++ dropped names.now from }
{
    let mut fields = from.into_fields();
    let alloc = *fields.allocator();
    move_named(names.as_slice(), &mut fields);
    Record::of_fields(alloc, fields)
}

/// The fields that aren't named, then the named ones in the order of the names. A name that repeats counts once. It
/// doesn't allocate.
fn named_last(names: &Names, from: Record) -> Record
    ensures { result ≡ dropped names.now from ++ picked names.now from }
{
    let mut fields = from.into_fields();
    let alloc = *fields.allocator();
    move_named_last(names.as_slice(), &mut fields);
    Record::of_fields(alloc, fields)
}
