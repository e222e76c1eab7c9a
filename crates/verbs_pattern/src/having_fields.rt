//! `having-fields`: passes the records that have or don't have certain fields.
ghost use Rattle.std.specs.Prelude.{◌≡◌, [], Some, IfOk};
ghost use Rattle.std.specs.List.{list_all};
ghost use Rattle.std.specs.Option.{option_map};
ghost use Rattle.regex.specs.Bytes.{matcher_pattern};
ghost use Rattle.regex.specs.Patterns.{Re};
ghost use Rattle.verbs_pattern.specs.HavingFields.{all_names_match, any_name_matches, AreSameHaving, has, IsPatternOf};
ghost use Rattle.verbs_pattern.specs.Matching.{has_match};

use crate::passing::passing;
use crate::searching::{Searches, Searching, search_each};
use mlr_event::{Events, Names};
use mlr_pattern::{Matcher, Pattern};
use mlr_record::Record;
use mlr_spec::NoMemory;
use std::alloc::Global;
use std::sync::Arc;
use verbs_base::PerRecord;
use verbs_fields::{all_defined, any_defined, has_all, has_no_others};

/// The records that `having-fields` passes.
#[derive(Drop)]
pub enum HavingFields {
    /// Those that have fields of all the names.
    AtLeast(Names),
    /// Those that have no fields of other names.
    AtMost(Names),
    /// Those that have exactly the fields of the names.
    WhichAre(Names),
    /// Those that have fields of all the names, none of them empty.
    AllDefined(Names),
    /// Those that have a field of one of the names that isn't empty.
    AnyDefined(Names),
    /// Those that have a field, and whose names all match the pattern.
    AllMatching(Arc<Pattern>),
    /// Those with a name that matches the pattern.
    AnyMatching(Arc<Pattern>),
}

impl HavingFields {
    /// A copy, which shares the pattern. It allocates for names.
    pub fn copy(&self, _: Global) -> Result<Self, NoMemory>
        ensures same { IfOk result (λ copy. AreSameHaving copy self.now) }
        ensures meaning { IfOk result (λ copy. has copy ≡ has self.now) }
    {
        Ok(match self {
            HavingFields::AtLeast(names) => HavingFields::AtLeast(names.copy()?),
            HavingFields::AtMost(names) => HavingFields::AtMost(names.copy()?),
            HavingFields::WhichAre(names) => HavingFields::WhichAre(names.copy()?),
            HavingFields::AllDefined(names) => HavingFields::AllDefined(names.copy()?),
            HavingFields::AnyDefined(names) => HavingFields::AnyDefined(names.copy()?),
            HavingFields::AllMatching(pattern) => {
                HavingFields::AllMatching(Arc::try_clone(pattern)?)
            }
            HavingFields::AnyMatching(pattern) => {
                HavingFields::AnyMatching(Arc::try_clone(pattern)?)
            }
        })
    }

    /// A matcher, if there is a pattern.
    fn matcher(&self, alloc: Global) -> Result<Option<Matcher<'_>>, NoMemory>
        ensures { IfOk result (λ made. IsPatternOf self.now (option_map matcher_pattern made)) }
    {
        Ok(match self {
            HavingFields::AllMatching(pattern) => Some(pattern.matcher(alloc)?),
            HavingFields::AnyMatching(pattern) => Some(pattern.matcher(alloc)?),
            _ => None,
        })
    }
}

/// The verb `having-fields`. It makes one matcher for all records of a list, if it has a pattern.
pub type HavingFieldsVerb = Searching<HavingFields>;

impl Searches for HavingFields {
    ghost use Rattle.verbs_base.specs.Records.{passes};
    ghost use Rattle.verbs_pattern.specs.HavingFields.{has};

    ghost gives = { λ options. passes (has options) };

    fn search_all(
        &self,
        alloc: Global,
        events: &mut Events,
        out: &mut Events,
    ) -> Result<(), NoMemory> {
        let matcher = self.matcher(alloc)?;
        let options = self;
        search_each(alloc, Search { options, matcher }, events, out)
    }
}

/// The test of `having-fields`, for the records of one list. It has a matcher if it has a pattern.
#[derive(Drop)]
struct Search<'h> {
    options: &'h HavingFields,
    matcher: Option<Matcher<'h>>,
}

impl PerRecord for Search<'_> {
    ghost use Rattle.std.specs.Option.{option_map};
    ghost use Rattle.regex.specs.Bytes.{matcher_pattern};
    ghost use Rattle.verbs_base.specs.Records.{passes};
    ghost use Rattle.verbs_pattern.specs.HavingFields.{has, IsPatternOf};

    ghost gives = { λ s. passes (has s.options.now) };

    ghost sound = { λ s. IsPatternOf s.options.now (option_map matcher_pattern s.matcher) };

    fn made(&mut self, _: Global, fields: Record) -> Result<Option<Record>, NoMemory> {
        let passes = has(self.options, &mut self.matcher, &fields);
        Ok(passing(passes, fields))
    }
}

/// Whether a record passes. The matcher is of the pattern, if there is one.
fn has(options: &HavingFields, matcher: &mut Option<Matcher<'_>>, fields: &Record) -> bool
    requires { IsPatternOf options.now (option_map matcher_pattern matcher.old) }
    ensures passes { result ≡ has options.now fields.now }
    ensures same { option_map matcher_pattern matcher.new
        ≡ option_map matcher_pattern matcher.old }
{
    match options {
        HavingFields::AtLeast(names) => has_all(names, fields),
        HavingFields::AtMost(names) => has_no_others(names, fields),
        HavingFields::WhichAre(names) => has_all(names, fields) && has_no_others(names, fields),
        HavingFields::AllDefined(names) => all_defined(names, fields),
        HavingFields::AnyDefined(names) => any_defined(names, fields),
        HavingFields::AllMatching(_) => all_names_match(matcher, fields),
        HavingFields::AnyMatching(_) => any_name_matches(matcher, fields),
    }
}

/// Whether the record has a field and all names match the pattern.
fn all_names_match(matcher: &mut Option<Matcher<'_>>, fields: &Record) -> bool
    ensures found { (re : Re) → option_map matcher_pattern matcher.old ≡ Some re
        → result ≡ all_names_match re fields.now }
    ensures same { option_map matcher_pattern matcher.new
        ≡ option_map matcher_pattern matcher.old }
{
    match matcher {
        Some(matcher) if fields.len() > 0 => matches_all_names(matcher, fields),
        _ => false,
    }
}

fn matches_all_names(matcher: &mut Matcher<'_>, fields: &Record) -> bool
    ensures found { result ≡ list_all (λ pair. has_match (matcher_pattern matcher.old) pair.0)
        fields.now }
    ensures same { matcher_pattern matcher.new ≡ matcher_pattern matcher.old }
{
    for place in 0..fields.len() {
        if !matcher.is_match(fields.entry(place).0) {
            return false;
        }
    }
    true
}

/// Whether a name matches the pattern.
fn any_name_matches(matcher: &mut Option<Matcher<'_>>, fields: &Record) -> bool
    ensures found { (re : Re) → option_map matcher_pattern matcher.old ≡ Some re
        → result ≡ any_name_matches re fields.now }
    ensures same { option_map matcher_pattern matcher.new
        ≡ option_map matcher_pattern matcher.old }
{
    match matcher {
        Some(matcher) => matches_any_name(matcher, fields),
        None => false,
    }
}

fn matches_any_name(matcher: &mut Matcher<'_>, fields: &Record) -> bool
    ensures found { result ≡ any_name_matches (matcher_pattern matcher.old) fields.now }
    ensures same { matcher_pattern matcher.new ≡ matcher_pattern matcher.old }
{
    for place in 0..fields.len() {
        if matcher.is_match(fields.entry(place).0) {
            return true;
        }
    }
    false
}
