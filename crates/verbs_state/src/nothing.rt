//! `nothing`: drops all records.
use mlr_record::Record;
use mlr_spec::NoMemory;
use std::alloc::Global;
use verbs_base::PerRecord;

/// The verb `nothing`, which has no options.
#[derive(Drop)]
pub struct Nothing;

impl PerRecord for Nothing {
    ghost use Rattle.verbs_state.specs.Nothing.{nothing};

    ghost gives = { λ verb. nothing };

    ghost sound = { λ verb. Unit {0} };

    fn made(&mut self, _: Global, _: Record) -> Result<Option<Record>, NoMemory> {
        Ok(None)
    }
}
