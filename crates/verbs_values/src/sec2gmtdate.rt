//! `sec2gmtdate`: dates from seconds.
ghost use Rattle.std.specs.Prelude.{◌≡◌, IfOk};

use mlr_event::Names;
use mlr_record::Record;
use mlr_spec::NoMemory;
use mlr_time::sec2gmtdate;
use mlr_value::{Bytes, Value};
use std::alloc::Global;
use verbs_base::{Change, PerRecord, change_named, is_named};

/// The options of `sec2gmtdate`, which replaces the seconds in the named fields by dates.
#[derive(Drop)]
pub struct Sec2GmtDate {
    pub names: Names,
}

impl Sec2GmtDate {
    /// A copy. It allocates for the names.
    pub fn copy(&self, _: Global) -> Result<Self, NoMemory>
        ensures { IfOk result (λ copy. copy ≡ self.now) }
    {
        Ok(Sec2GmtDate {
            names: self.names.copy()?,
        })
    }
}

impl PerRecord for Sec2GmtDate {
    ghost use Rattle.verbs_base.specs.Records.{maps};
    ghost use Rattle.verbs_values.specs.Sec2GmtDate.{sec2gmtdate_fields};

    ghost gives = { λ verb. maps (sec2gmtdate_fields verb) };

    ghost sound = { λ verb. Unit {0} };

    fn made(&mut self, alloc: Global, fields: Record) -> Result<Option<Record>, NoMemory> {
        Ok(Some(change_named(&*self, alloc, &self.names, fields)?))
    }
}

impl Change for &Sec2GmtDate {
    ghost use Rattle.mlr_event.specs.Reading.{is_among};
    ghost use Rattle.mlr_time.specs.Times.{sec2gmtdate};

    ghost takes = { λ verb name. is_among verb.now.names name };

    ghost image = { λ verb value. sec2gmtdate value };

    fn takes(&self, name: &Bytes) -> bool {
        is_named(&self.names, name)
    }

    fn image(&mut self, alloc: Global, value: Value) -> Result<Value, NoMemory> {
        sec2gmtdate(alloc, value)
    }
}
