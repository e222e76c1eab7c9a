//! `sub`: replaces the first match of a pattern in values.
ghost use Rattle.std.specs.Prelude.{◌≡◌, IfOk};
ghost use Rattle.std.specs.Arc.{arc_value};
ghost use Rattle.regex.specs.Bytes.{regex_pattern};
ghost use Rattle.verbs_pattern.specs.Sub.{sub};

use crate::searching::{Searches, Searching};
use crate::sub_fields::SubFields;
use crate::substitution::substitute_all;
use mlr_event::Events;
use mlr_pattern::{Pattern, Which};
use mlr_spec::NoMemory;
use mlr_value::Bytes;
use std::alloc::Global;
use std::sync::Arc;

/// `sub`: replaces the first match of a pattern in the values of fields. In `by`, `\0` to `\9` are the texts
/// of the match and of its groups.
#[derive(Drop)]
pub struct Sub {
    pub fields: SubFields,
    pub pattern: Arc<Pattern>,
    pub by: Bytes,
}

impl Sub {
    /// A copy, which shares the pattern. It allocates for the names, and for a text of more than 20 bytes.
    pub fn copy(&self, alloc: Global) -> Result<Self, NoMemory>
        ensures fields { IfOk result (λ copy. copy.fields ≡ self.now.fields) }
        ensures pattern { IfOk result (λ copy. regex_pattern (arc_value copy.pattern)
            ≡ regex_pattern (arc_value self.now.pattern)) }
        ensures by { IfOk result (λ copy. copy.by ≡ self.now.by) }
        ensures meaning { IfOk result (λ copy. sub copy ≡ sub self.now) }
    {
        Ok(Sub {
            fields: self.fields.copy(alloc)?,
            pattern: Arc::try_clone(&self.pattern)?,
            by: Bytes::copy_of(alloc, self.by.as_slice())?,
        })
    }
}

/// The verb `sub`. It makes one matcher for all records of a list.
pub type SubVerb = Searching<Sub>;

impl Searches for Sub {
    ghost use Rattle.verbs_base.specs.Records.{maps};
    ghost use Rattle.verbs_pattern.specs.Sub.{sub};

    ghost gives = { λ options. maps (sub options) };

    fn search_all(
        &self,
        alloc: Global,
        events: &mut Events,
        out: &mut Events,
    ) -> Result<(), NoMemory> {
        let (fields, pattern, by) = (&self.fields, &self.pattern, &self.by);
        substitute_all(alloc, fields, pattern, by, Which::First, events, out)
    }
}
