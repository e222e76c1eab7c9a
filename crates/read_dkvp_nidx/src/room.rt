//! Room for the fields of the next record.
ghost use Rattle.std.specs.Prelude.{◌≡◌, [], IfOk};
ghost use Rattle.mlr_record.specs.Fields.{pairs_of};

use mlr_record::Record;
use mlr_spec::NoMemory;
use std::alloc::Global;
use std::marker::Model;

/// The room that the first record takes, in fields.
const FIRST: usize = 8;

/// The most room that a record takes at once, in fields.
const MOST: usize = 64;

/// The count of fields of the last record. The next one takes room for as many, since most records of a file are alike.
/// Contracts don't see it.
#[derive(Drop)]
pub struct Room {
    fields: usize,
}

impl Model for Room {
    ghost use base.Stored.{coded_unit};

    ghost Value = { Unit {0} };

    ghost coded = { coded_unit };

    ghost view = { λ _. tt };
}

impl Room {
    /// The room for the first record of a file.
    pub(crate) fn first() -> Self {
        Room { fields: FIRST }
    }

    /// A record without fields that has this room.
    pub(crate) fn empty_record(&self, alloc: Global) -> Result<Record, NoMemory>
        ensures { IfOk result (λ made. made ≡ []) }
    {
        Ok(Record::of_fields(alloc, Vec::with_capacity(alloc, self.fields)?))
    }

    /// Keeps the count of this record's fields.
    pub(crate) fn keep(&mut self, record: &Record) {
        self.fields = record.len().min(MOST);
    }
}
