//! How many records are in each group.
ghost use Rattle.std.specs.Prelude.{◌≡◌, ◌++◌, ◌∷◌, ◌+◌, [], ℕ, List, IfOk, OnOk};
ghost use Rattle.mlr_groups.specs.Grouping.{Fields};
ghost use Rattle.mlr_groups.specs.Represents.{TalliesOf};
ghost use Rattle.mlr_groups.specs.Tallying.{capped, tally};
ghost use Rattle.mlr_groups.specs.declared.group_by.GroupBy.{GroupBy as SpecGroupBy};

use crate::group_by::GroupBy;
use crate::groups::Groups;
use mlr_record::Record;
use mlr_spec::NoMemory;
use std::alloc::Global;

/// The number of records so far in each group.
#[derive(Drop)]
pub struct Tallies {
    groups: Groups,
    counts: Vec<u64>,
}

impl Tallies {
    /// No records yet. It doesn't allocate.
    pub fn new(alloc: Global, by: GroupBy) -> Self
        ensures { TalliesOf by [] result }
    {
        Tallies {
            groups: Groups::new(alloc, by),
            counts: Vec::new(alloc),
        }
    }

    /// Counts a record, and returns the number of earlier records of its group. A record may be in no
    /// group. It allocates for a new group, and for a key that is longer than those
    /// before.
    pub fn count(&mut self, fields: &Record) -> Result<Option<u64>, NoMemory>
        ensures represents { OnOk result ((by : SpecGroupBy) (before : List Fields)
            → TalliesOf by before self.old
            → TalliesOf by (before ++ fields.now ∷ []) self.new) }
        ensures count { IfOk result (λ count. (by : SpecGroupBy) (before : List Fields)
            → TalliesOf by before self.old → count ≡ tally by before fields.now) }
    {
        let Some(place) = self.groups.enter(fields)? else {
            return Ok(None);
        };
        if place < self.counts.len() {
            let count = self.counts[place];
            self.counts[place] = next_count(count);
            Ok(Some(count))
        } else {
            self.counts.push(1)?;
            Ok(Some(0))
        }
    }
}

/// The greatest count, at which counting stops: the greatest signed integer of 64 bits.
const MOST: u64 = (1 << 63) - 1;

/// The count with one more record. It stays at 2^63 - 1.
pub fn next_count(count: u64) -> u64
    ensures next { result ≡ capped (count + 1) }
    ensures counted { (n : ℕ) → count ≡ capped n → result ≡ capped (n + 1) }
{
    if count < MOST { count + 1 } else { MOST }
}
