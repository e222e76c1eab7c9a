//! The readers of all formats, each by its tables.
use crate::csv::check_csv;
use crate::dkvp_nidx::check_dkvp_nidx;
use crate::json_lines::check_json_lines;
use crate::xtab_pprint::check_xtab_pprint;
use mlr_spec::NoMemory;

#[test]
fn files_give_these_events_wherever_they_are_cut(rt: HostRuntime) -> Result<(), NoMemory> {
    let alloc = rt.alloc();
    check_csv(&rt, alloc)?;
    check_dkvp_nidx(&rt, alloc)?;
    check_json_lines(&rt, alloc)?;
    check_xtab_pprint(&rt, alloc)
}
