//! Records, events and groups, each by its tables.
use crate::events::check_events;
use crate::groups::check_groups;
use crate::records::check_records;
use mlr_spec::NoMemory;

#[test]
fn records_events_and_groups_are_as_the_tables_say(rt: HostRuntime) -> Result<(), NoMemory> {
    let alloc = rt.alloc();
    check_records(&rt, alloc)?;
    check_events(&rt, alloc)?;
    check_groups(&rt, alloc)
}
