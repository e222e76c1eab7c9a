//! `sec2gmt`: dates with times of day from seconds.
ghost use Rattle.std.specs.Prelude.{◌≡◌, IfOk};

use mlr_event::Names;
use mlr_record::Record;
use mlr_spec::NoMemory;
use mlr_time::sec2gmt;
use mlr_value::{Bytes, Value};
use std::alloc::Global;
use verbs_base::{Change, PerRecord, change_named, is_named};

/// The options of `sec2gmt`, which replaces the seconds in the named fields by dates with times of day.
#[derive(Drop)]
pub struct Sec2Gmt {
    pub names: Names,
}

impl Sec2Gmt {
    /// A copy. It allocates for the names.
    pub fn copy(&self, _: Global) -> Result<Self, NoMemory>
        ensures { IfOk result (λ copy. copy ≡ self.now) }
    {
        Ok(Sec2Gmt {
            names: self.names.copy()?,
        })
    }
}

impl PerRecord for Sec2Gmt {
    ghost use Rattle.verbs_base.specs.Records.{maps};
    ghost use Rattle.verbs_values.specs.Sec2Gmt.{sec2gmt_fields};

    ghost gives = { λ verb. maps (sec2gmt_fields verb) };

    ghost sound = { λ verb. Unit {0} };

    fn made(&mut self, alloc: Global, fields: Record) -> Result<Option<Record>, NoMemory> {
        Ok(Some(change_named(&*self, alloc, &self.names, fields)?))
    }
}

impl Change for &Sec2Gmt {
    ghost use Rattle.mlr_event.specs.Reading.{is_among};
    ghost use Rattle.mlr_time.specs.Times.{sec2gmt};

    ghost takes = { λ verb name. is_among verb.now.names name };

    ghost image = { λ verb value. sec2gmt value };

    fn takes(&self, name: &Bytes) -> bool {
        is_named(&self.names, name)
    }

    fn image(&mut self, alloc: Global, value: Value) -> Result<Value, NoMemory> {
        sec2gmt(alloc, value)
    }
}
