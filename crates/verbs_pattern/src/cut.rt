//! `cut`: keeps or drops fields, by their names or by patterns.
ghost use Rattle.std.specs.Prelude.{◌≡◌, ◌<◌, ◌++◌, ◌∷◌, [], length, map, slice_index_or, IfOk, OnOk};
ghost use Rattle.std.specs.Arc.{arc_value};
ghost use Rattle.regex.specs.Patterns.{Re};
ghost use Rattle.regex.specs.Bytes.{matcher_pattern, regex_pattern};
ghost use Rattle.mlr_record.specs.Fields.{pairs_of};
ghost use Rattle.verbs_pattern.specs.Cut.{AreSameFields, ArePatternsOf, cut, kept_matching};
ghost use Rattle.verbs_pattern.specs.Matching.{has_match};

use crate::matchers::{any_matches, matchers_of};
use crate::searching::{Searches, Searching, search_each};
use mlr_event::{Events, Names};
use mlr_pattern::{Matcher, Patterns};
use mlr_record::{Field, Record};
use mlr_spec::NoMemory;
use std::alloc::Global;
use verbs_base::{PerRecord, drop_named, keep_named, pick_named};

/// The options of `cut`.
#[derive(Drop)]
pub struct Cut {
    pub fields: CutFields,
    /// Whether the kept fields are in the order of the names. It has no effect for patterns.
    pub ordered: bool,
    /// Whether the other fields are kept.
    pub complement: bool,
}

/// The fields that `cut` selects.
#[derive(Drop)]
pub enum CutFields {
    Names(Names),
    Patterns(Patterns),
}

impl Cut {
    /// A copy, which shares the patterns. It allocates the list of fields.
    pub fn copy(&self, alloc: Global) -> Result<Self, NoMemory>
        ensures fields { IfOk result (λ copy. AreSameFields copy.fields self.now.fields) }
        ensures ordered { IfOk result (λ copy. copy.ordered ≡ self.now.ordered) }
        ensures complement { IfOk result (λ copy. copy.complement ≡ self.now.complement) }
        ensures meaning { IfOk result (λ copy. cut copy ≡ cut self.now) }
    {
        Ok(Cut {
            fields: self.fields.copy(alloc)?,
            ordered: self.ordered,
            complement: self.complement,
        })
    }
}

impl CutFields {
    /// A copy, which shares the patterns. It allocates the list.
    pub fn copy(&self, _: Global) -> Result<Self, NoMemory>
        ensures { IfOk result (λ copy. AreSameFields copy self.now) }
    {
        Ok(match self {
            CutFields::Names(names) => CutFields::Names(names.copy()?),
            CutFields::Patterns(patterns) => CutFields::Patterns(patterns.copy()?),
        })
    }

    /// A matcher for each pattern, and none where the fields are named.
    fn matchers(&self, alloc: Global) -> Result<Vec<Matcher<'_>>, NoMemory>
        ensures { IfOk result (λ made. ArePatternsOf self.now (map matcher_pattern made.items)) }
    {
        match self {
            CutFields::Names(_) => Ok(Vec::new(alloc)),
            CutFields::Patterns(patterns) => matchers_of(alloc, patterns.as_slice()),
        }
    }
}

/// The verb `cut`. It makes one matcher for each pattern, for all records of a list.
pub type CutVerb = Searching<Cut>;

impl Searches for Cut {
    ghost use Rattle.verbs_base.specs.Records.{maps};
    ghost use Rattle.verbs_pattern.specs.Cut.{cut};

    ghost gives = { λ options. maps (cut options) };

    fn search_all(
        &self,
        alloc: Global,
        events: &mut Events,
        out: &mut Events,
    ) -> Result<(), NoMemory> {
        let matchers = self.fields.matchers(alloc)?;
        let options = self;
        search_each(alloc, Search { options, matchers }, events, out)
    }
}

/// The search for the fields of `cut`, for the records of one list. It has no matchers where the fields are named.
#[derive(Drop)]
struct Search<'c> {
    options: &'c Cut,
    matchers: Vec<Matcher<'c>>,
}

impl PerRecord for Search<'_> {
    ghost use Rattle.std.specs.Prelude.{map};
    ghost use Rattle.regex.specs.Bytes.{matcher_pattern};
    ghost use Rattle.verbs_base.specs.Records.{maps};
    ghost use Rattle.verbs_pattern.specs.Cut.{ArePatternsOf, cut};

    ghost gives = { λ s. maps (cut s.options.now) };

    ghost sound = { λ s. ArePatternsOf s.options.now.fields
        (map matcher_pattern s.matchers.items) };

    fn made(&mut self, alloc: Global, fields: Record) -> Result<Option<Record>, NoMemory> {
        let complement = self.options.complement;
        Ok(Some(match &self.options.fields {
            CutFields::Names(names) if complement => drop_named(names, fields),
            CutFields::Names(names) if self.options.ordered => pick_named(names, fields),
            CutFields::Names(names) => keep_named(names, fields),
            CutFields::Patterns(_) => {
                keep_matching(alloc, &mut self.matchers, complement, fields)?
            }
        }))
    }
}

/// The fields whose names match one of the patterns, or with `complement` the others. It allocates the list of the
/// fields.
fn keep_matching(
    alloc: Global,
    matchers: &mut [Matcher<'_>],
    complement: bool,
    fields: Record,
) -> Result<Record, NoMemory>
    ensures kept { IfOk result (λ made. made ≡ kept_matching (map matcher_pattern matchers.old)
        complement fields) }
    ensures same { map matcher_pattern matchers.new ≡ map matcher_pattern matchers.old }
{
    let fields = fields.into_fields();
    let mut kept = Vec::with_capacity(alloc, fields.len())?;
    keep_fields(fields, matchers, complement, &mut kept)?;
    Ok(Record::of_fields(alloc, kept))
}

fn keep_fields(
    fields: Vec<Field>,
    matchers: &mut [Matcher<'_>],
    complement: bool,
    kept: &mut Vec<Field>,
) -> Result<(), NoMemory>
    ensures kept { OnOk result (pairs_of kept.new.items ≡ pairs_of kept.old.items
        ++ kept_matching (map matcher_pattern matchers.old) complement (pairs_of fields.items)) }
    ensures same { map matcher_pattern matchers.new ≡ map matcher_pattern matchers.old }
{
    for field in fields {
        keep_field(field, matchers, complement, kept)?;
    }
    Ok(())
}

fn keep_field(
    field: Field,
    matchers: &mut [Matcher<'_>],
    complement: bool,
    kept: &mut Vec<Field>,
) -> Result<(), NoMemory>
    ensures kept { OnOk result (pairs_of kept.new.items ≡ pairs_of kept.old.items
        ++ kept_matching (map matcher_pattern matchers.old) complement (pairs_of (field ∷ []))) }
    ensures same { map matcher_pattern matchers.new ≡ map matcher_pattern matchers.old }
{
    if any_matches(matchers, field.name.as_slice()) != complement {
        kept.push(field)?;
    }
    Ok(())
}
