//! `gsub`: replaces all matches of a pattern in values.
ghost use Rattle.std.specs.Prelude.{◌≡◌, IfOk};
ghost use Rattle.std.specs.Arc.{arc_value};
ghost use Rattle.regex.specs.Bytes.{regex_pattern};
ghost use Rattle.verbs_pattern.specs.Gsub.{gsub};

use crate::searching::{Searches, Searching};
use crate::sub_fields::SubFields;
use crate::substitution::substitute_all;
use mlr_event::Events;
use mlr_pattern::{Pattern, Which};
use mlr_spec::NoMemory;
use mlr_value::Bytes;
use std::alloc::Global;
use std::sync::Arc;

/// `gsub`: as `Sub`, but replaces all matches.
#[derive(Drop)]
pub struct Gsub {
    pub fields: SubFields,
    pub pattern: Arc<Pattern>,
    pub by: Bytes,
}

impl Gsub {
    /// A copy, which shares the pattern. It allocates for the names, and for a text of more than 20 bytes.
    pub fn copy(&self, alloc: Global) -> Result<Self, NoMemory>
        ensures fields { IfOk result (λ copy. copy.fields ≡ self.now.fields) }
        ensures pattern { IfOk result (λ copy. regex_pattern (arc_value copy.pattern)
            ≡ regex_pattern (arc_value self.now.pattern)) }
        ensures by { IfOk result (λ copy. copy.by ≡ self.now.by) }
        ensures meaning { IfOk result (λ copy. gsub copy ≡ gsub self.now) }
    {
        Ok(Gsub {
            fields: self.fields.copy(alloc)?,
            pattern: Arc::try_clone(&self.pattern)?,
            by: Bytes::copy_of(alloc, self.by.as_slice())?,
        })
    }
}

/// The verb `gsub`. It makes one matcher for all records of a list.
pub type GsubVerb = Searching<Gsub>;

impl Searches for Gsub {
    ghost use Rattle.verbs_base.specs.Records.{maps};
    ghost use Rattle.verbs_pattern.specs.Gsub.{gsub};

    ghost gives = { λ options. maps (gsub options) };

    fn search_all(
        &self,
        alloc: Global,
        events: &mut Events,
        out: &mut Events,
    ) -> Result<(), NoMemory> {
        let (fields, pattern, by) = (&self.fields, &self.pattern, &self.by);
        substitute_all(alloc, fields, pattern, by, Which::All, events, out)
    }
}
