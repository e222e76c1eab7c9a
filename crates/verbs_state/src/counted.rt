//! The groups in which `cat`, `decimate` and `head` count records.
ghost use Rattle.std.specs.Prelude.{◌≡◌, [], IfOk};
ghost use Rattle.verbs_state.specs.Counted.{AreCounted};

use mlr_event::Names;
use mlr_groups::{GroupBy, Tallies};
use mlr_spec::NoMemory;
use std::alloc::Global;

/// No records yet, in the groups by these fields, or in one group if there are none.
pub(crate) fn no_tallies(alloc: Global, groups: &Option<Names>) -> Result<Tallies, NoMemory>
    ensures { IfOk result (λ made. AreCounted groups.now [] made) }
{
    let names = match groups {
        Some(names) => names.copy()?,
        None => Names::new(alloc),
    };
    Ok(Tallies::new(alloc, GroupBy::Texts(names)))
}
