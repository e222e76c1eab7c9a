//! The groups of the records so far, and the place of a record's group.
ghost use Rattle.std.specs.Prelude.{◌≡◌, ◌++◌, ◌∷◌, [], List, length, IfOk, OnOk};
ghost use Rattle.mlr_groups.specs.Finding.{IsFoundAt};
ghost use Rattle.mlr_groups.specs.Grouping.{Fields, IsGroupPlace, group_of, groups_in};
ghost use Rattle.mlr_groups.specs.Represents.{GroupsOf, common_of};
ghost use Rattle.mlr_groups.specs.declared.group_by.GroupBy.{GroupBy as SpecGroupBy};

use crate::group_by::GroupBy;
use crate::keys::{KeyTable, append_common, append_group};
use mlr_event::Names;
use mlr_record::Record;
use mlr_spec::NoMemory;
use mlr_value::Bytes;
use std::alloc::Global;

/// The groups of the records so far, in the order in which they came first.
/// Verbs keep the state of a group at its place.
#[derive(Drop)]
pub struct Groups {
    alloc: Global,
    by: GroupBy,
    table: KeyTable,
    key: Bytes,
}

impl Groups {
    /// No groups yet. It doesn't allocate.
    pub fn new(alloc: Global, by: GroupBy) -> Self
        ensures { GroupsOf by [] result }
    {
        Groups {
            alloc,
            by,
            table: KeyTable::new(alloc),
            key: Bytes::new(alloc),
        }
    }

    /// How many groups there are.
    pub fn len(&self) -> usize
        ensures { (by : SpecGroupBy) (before : List Fields) → GroupsOf by before self.now
            → result ≡ length (groups_in by before) }
    {
        self.table.len()
    }

    /// The place of a record's group, which counts from 0; a new group is added at the end. A record may
    /// be in no group. It allocates for a new group, and for a key that is longer
    /// than those before.
    pub fn enter(&mut self, fields: &Record) -> Result<Option<usize>, NoMemory>
        ensures represents { OnOk result ((by : SpecGroupBy) (before : List Fields)
            → GroupsOf by before self.old
            → GroupsOf by (before ++ fields.now ∷ []) self.new) }
        ensures common { common_of self.new ≡ common_of self.old }
        ensures place { IfOk result (λ place. (by : SpecGroupBy) (before : List Fields)
            → GroupsOf by before self.old
            → IsGroupPlace by (before ++ fields.now ∷ []) fields.now place) }
    {
        if self.by.is_of_all() && self.table.len() > 0 {
            // All records are in one group, which exists already.
            return Ok(Some(0));
        }
        self.key.clear();
        if append_common(self.alloc, &self.by, fields, &mut self.key)? {
            let place = self.table.enter(self.key.as_slice())?;
            Ok(Some(place))
        } else {
            Ok(None)
        }
    }

    /// The place of the group of the texts that a record has in these fields, which counts from 0, if there is such a group.
    /// It allocates for a key that is longer than those before.
    pub fn find(&mut self, names: &Names, fields: &Record) -> Result<Option<usize>, NoMemory>
        ensures represents { (by : SpecGroupBy) (before : List Fields)
            → GroupsOf by before self.old → GroupsOf by before self.new }
        ensures place { IfOk result (λ place. (by : SpecGroupBy) (before : List Fields)
            → GroupsOf by before self.old
            → IsFoundAt (groups_in by before) (group_of names.now fields.now) place) }
    {
        self.key.clear();
        if append_group(self.alloc, names, fields, &mut self.key)? {
            Ok(self.table.place_of(self.key.as_slice()))
        } else {
            Ok(None)
        }
    }
}
