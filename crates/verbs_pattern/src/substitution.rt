//! The change of values by `sub` and `gsub`.
ghost use Rattle.std.specs.Prelude.{◌≡◌, [], OnOk};
ghost use Rattle.std.specs.Arc.{arc_value};
ghost use Rattle.regex.specs.Bytes.{regex_pattern};
ghost use Rattle.mlr_pattern.specs.Values.{sub_of};
ghost use Rattle.verbs_base.specs.Records.{each, maps};
ghost use Rattle.verbs_base.specs.Taking.{GivesForAll};
ghost use Rattle.verbs_pattern.specs.SubFields.{changed_fields};

use crate::searching::search_each;
use crate::sub_fields::{SubFields, names_of};
use mlr_event::Events;
use mlr_pattern::{Matcher, Pattern, Which, sub_value};
use mlr_record::Record;
use mlr_spec::NoMemory;
use mlr_value::{Bytes, Value};
use std::alloc::Global;
use std::sync::Arc;
use verbs_base::{Change, PerRecord, change_fields, is_taken};

/// Takes all events of a list in turn, with a matcher that is made for the list: in the values of these fields, matches
/// are replaced, and any other event passes.
pub(crate) fn substitute_all(
    alloc: Global,
    fields: &SubFields,
    pattern: &Arc<Pattern>,
    by: &Bytes,
    which: Which,
    events: &mut Events,
    out: &mut Events,
) -> Result<(), NoMemory>
    ensures empty { OnOk result (events.new ≡ []) }
    ensures gives { OnOk result (GivesForAll (each (maps (changed_fields fields.now
        (sub_of which (regex_pattern (arc_value pattern.now)) by.now)))) (λ given. Unit {0})
        events.old out.old out.new) }
{
    let matcher = pattern.matcher(alloc)?;
    let by = by.as_slice();
    let verb = Substitution {
        fields,
        matcher,
        by,
        which,
    };
    search_each(alloc, verb, events, out)
}

/// The change of values by `sub` or `gsub`, for the records of one list.
#[derive(Drop)]
struct Substitution<'s> {
    fields: &'s SubFields,
    matcher: Matcher<'s>,
    by: &'s [u8],
    which: Which,
}

impl PerRecord for Substitution<'_> {
    ghost use Rattle.regex.specs.Bytes.{matcher_pattern};
    ghost use Rattle.mlr_pattern.specs.Values.{sub_of};
    ghost use Rattle.verbs_base.specs.Records.{maps};
    ghost use Rattle.verbs_pattern.specs.SubFields.{changed_fields};

    ghost gives = { λ s. maps (changed_fields s.fields.now
        (sub_of s.which (matcher_pattern s.matcher) s.by.now)) };

    ghost sound = { λ s. Unit {0} };

    fn made(&mut self, alloc: Global, fields: Record) -> Result<Option<Record>, NoMemory> {
        let mut made = fields;
        change_fields(self, alloc, &mut made)?;
        Ok(Some(made))
    }
}

impl Change for Substitution<'_> {
    ghost use Rattle.regex.specs.Bytes.{matcher_pattern};
    ghost use Rattle.mlr_pattern.specs.Values.{sub_of};
    ghost use Rattle.verbs_base.specs.Changing.{is_taken};
    ghost use Rattle.verbs_pattern.specs.SubFields.{names_of};

    ghost takes = { λ verb name. is_taken (names_of verb.fields.now) name };

    ghost image = { λ verb value. sub_of verb.which (matcher_pattern verb.matcher) verb.by.now
        value };

    fn takes(&self, name: &Bytes) -> bool {
        is_taken(names_of(self.fields), name)
    }

    fn image(&mut self, alloc: Global, value: Value) -> Result<Value, NoMemory> {
        sub_value(alloc, &mut self.matcher, value, self.by, self.which)
    }
}
