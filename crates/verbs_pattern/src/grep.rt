//! `grep`: passes the records whose texts match a pattern.
ghost use Rattle.std.specs.Prelude.{◌≡◌, ◌++◌, ◌∷◌, [], if◌then◌else◌, IfOk, OnOk};
ghost use Rattle.std.specs.Arc.{arc_value};
ghost use Rattle.regex.specs.Bytes.{matcher_pattern, regex_pattern};
ghost use Rattle.mlr_value.specs.Value.{tree_of};
ghost use Rattle.text_forms.specs.Dkvp.{pair_text};
ghost use Rattle.verbs_pattern.specs.Grep.{grep, record_text};
ghost use Rattle.verbs_pattern.specs.Matching.{has_match};

use crate::passing::passing;
use crate::searching::{Searches, Searching, search_each};
use mlr_event::Events;
use mlr_pattern::{Matcher, Pattern};
use mlr_record::Record;
use mlr_spec::NoMemory;
use mlr_value::{Bytes, Value};
use std::alloc::Global;
use std::sync::Arc;
use text_forms::append_shown;
use verbs_base::PerRecord;

/// `grep`: passes the records whose text matches a pattern. A record's text is its line in DKVP with `,` and
/// `=`.
#[derive(Drop)]
pub struct Grep {
    /// `-i`: the case of letters is ignored. The pattern was compiled with it already.
    pub either_case: bool,
    /// `-v`: passes the records that don't match.
    pub others: bool,
    pub pattern: Arc<Pattern>,
}

impl Grep {
    /// A copy, which shares the pattern. It doesn't allocate.
    pub fn copy(&self, _: Global) -> Result<Self, NoMemory>
        ensures either_case { IfOk result (λ copy. copy.either_case ≡ self.now.either_case) }
        ensures others { IfOk result (λ copy. copy.others ≡ self.now.others) }
        ensures pattern { IfOk result (λ copy. regex_pattern (arc_value copy.pattern)
            ≡ regex_pattern (arc_value self.now.pattern)) }
        ensures meaning { IfOk result (λ copy. grep copy ≡ grep self.now) }
    {
        Ok(Grep {
            either_case: self.either_case,
            others: self.others,
            pattern: Arc::try_clone(&self.pattern)?,
        })
    }
}

/// The verb `grep`. It makes one matcher for all records of a list.
pub type GrepVerb = Searching<Grep>;

impl Searches for Grep {
    ghost use Rattle.verbs_base.specs.Records.{passes};
    ghost use Rattle.verbs_pattern.specs.Grep.{grep};

    ghost gives = { λ options. passes (grep options) };

    fn search_all(
        &self,
        alloc: Global,
        events: &mut Events,
        out: &mut Events,
    ) -> Result<(), NoMemory> {
        let matcher = self.pattern.matcher(alloc)?;
        let options = self;
        search_each(alloc, Search { options, matcher }, events, out)
    }
}

/// The search for the pattern of `grep`, for the records of one list.
#[derive(Drop)]
struct Search<'g> {
    options: &'g Grep,
    matcher: Matcher<'g>,
}

impl PerRecord for Search<'_> {
    ghost use Rattle.std.specs.Prelude.{◌≡◌};
    ghost use Rattle.std.specs.Arc.{arc_value};
    ghost use Rattle.regex.specs.Bytes.{matcher_pattern, regex_pattern};
    ghost use Rattle.verbs_base.specs.Records.{passes};
    ghost use Rattle.verbs_pattern.specs.Grep.{grep};

    ghost gives = { λ s. passes (grep s.options.now) };

    ghost sound = { λ s. matcher_pattern s.matcher
        ≡ regex_pattern (arc_value s.options.now.pattern) };

    fn made(&mut self, alloc: Global, fields: Record) -> Result<Option<Record>, NoMemory> {
        let found = text_matches(alloc, &mut self.matcher, &fields)?;
        let passes = if self.options.others { !found } else { found };
        Ok(passing(passes, fields))
    }
}

fn text_matches(alloc: Global, matcher: &mut Matcher<'_>, fields: &Record) -> Result<bool, NoMemory>
    ensures found { IfOk result (λ found. found ≡ has_match (matcher_pattern matcher.old)
        (record_text fields.now)) }
    ensures same { matcher_pattern matcher.new ≡ matcher_pattern matcher.old }
{
    let mut text = Bytes::new(alloc);
    append_dkvp(fields, &mut text)?;
    Ok(matcher.is_match(text.as_slice()))
}

/// Appends the text of a record to `out`.
pub(crate) fn append_dkvp(fields: &Record, out: &mut Bytes) -> Result<(), NoMemory>
    ensures { OnOk result (out.new ≡ out.old ++ record_text fields.now) }
{
    for place in 0..fields.len() {
        append_comma(place > 0, out)?;
        let (name, value) = fields.entry(place);
        append_pair(name, value, out)?;
    }
    Ok(())
}

/// Appends a comma, if a field precedes.
fn append_comma(any: bool, out: &mut Bytes) -> Result<(), NoMemory>
    ensures { OnOk result (out.new ≡ out.old ++ (if any then 44 ∷ [] else [])) }
{
    if any { out.push(b',') } else { Ok(()) }
}

fn append_pair(name: &[u8], value: &Value, out: &mut Bytes) -> Result<(), NoMemory>
    ensures { OnOk result (out.new ≡ out.old ++ pair_text (61 ∷ []) (name.now, tree_of value.now)) }
{
    out.append(name)?;
    out.push(b'=')?;
    append_shown(value, out)
}
