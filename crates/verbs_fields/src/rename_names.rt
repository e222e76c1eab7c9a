//! Fields renamed by their names.
ghost use Rattle.std.specs.Prelude.{◌≡◌, ◌≤◌, length, IfOk, IsOk, OnOk};
ghost use Rattle.verbs_fields.specs.RenameNames.{renamed};

use mlr_record::Record;
use mlr_spec::NoMemory;
use mlr_value::Bytes;
use std::alloc::Global;

/// A name and the name that replaces it.
#[derive(Drop)]
pub struct Renaming {
    pub old: Bytes,
    pub new: Bytes,
}

impl Renaming {
    /// A copy. It allocates only for names of more than 20 bytes.
    pub fn copy(&self, _: Global) -> Result<Self, NoMemory>
        ensures same { IfOk result (λ copy. copy ≡ self.now) }
        ensures short { length self.now.old ≤ 20 → length self.now.new ≤ 20 → IsOk result }
    {
        Ok(Renaming {
            old: self.old.copy()?,
            new: self.new.copy()?,
        })
    }
}

/// The fields renamed, one renaming after another, for `rename`: each field keeps its place, and another
/// field with the new name is removed. It allocates for longer names.
pub fn rename_each(renamings: &[Renaming], from: Record) -> Result<Record, NoMemory>
    ensures { IfOk result (λ made. made ≡ renamed renamings.now from) }
{
    let mut made = from;
    rename_in(renamings, &mut made)?;
    Ok(made)
}

/// Renames the fields of a record one after another.
fn rename_in(renamings: &[Renaming], fields: &mut Record) -> Result<(), NoMemory>
    ensures { OnOk result (fields.new ≡ renamed renamings.now fields.old) }
{
    for renaming in renamings {
        fields.rename(renaming.old.as_slice(), renaming.new.as_slice())?;
    }
    Ok(())
}
