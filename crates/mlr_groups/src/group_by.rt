//! What puts records into one group.
ghost use Rattle.std.specs.Prelude.{◌≡◌, [], IfOk, IsTrue};
ghost use Rattle.mlr_groups.specs.declared.group_by.GroupBy.TheVariants.{Texts};

use mlr_event::Names;
use mlr_spec::NoMemory;

/// What the records of a group have in common.
#[derive(Drop)]
pub enum GroupBy {
    /// The texts of these fields. A record without one of them is in no group.
    Texts(Names),
    /// The names of all fields, in their order.
    Keys,
    /// The names and the texts of all fields, in their order.
    Fields,
    /// The names and the texts of all other fields, in their order. A record without one of the named fields is in no group.
    Others(Names),
}

impl GroupBy {
    /// A copy. It allocates for the names.
    pub fn copy(&self) -> Result<Self, NoMemory>
        ensures { IfOk result (λ copy. copy ≡ self.now) }
    {
        match self {
            GroupBy::Texts(names) => Ok(GroupBy::Texts(names.copy()?)),
            GroupBy::Keys => Ok(GroupBy::Keys),
            GroupBy::Fields => Ok(GroupBy::Fields),
            GroupBy::Others(names) => Ok(GroupBy::Others(names.copy()?)),
        }
    }

    /// Whether all records are in one group.
    pub(crate) fn is_of_all(&self) -> bool
        ensures { IsTrue result → self.now ≡ Texts [] }
    {
        match self {
            GroupBy::Texts(names) => names.len() == 0,
            GroupBy::Keys | GroupBy::Fields | GroupBy::Others(_) => false,
        }
    }
}
