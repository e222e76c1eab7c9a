//! `rename -r` and `rename -g`: names rewritten by patterns.
ghost use Rattle.std.specs.Prelude.{◌≡◌, ◌+◌, ◌^◌, ◌<◌, ℕ, true, false, List, length, map, take, slice_index_or, IfOk, OnOk, MatchOption};
ghost use Rattle.std.specs.Arc.{arc_value};
ghost use Rattle.std.specs.Str.{bytes_eq};
ghost use Rattle.regex.specs.Patterns.{Re};
ghost use Rattle.regex.specs.Bytes.{regex_pattern, matcher_pattern};
ghost use Rattle.mlr_spec.specs.Pairs.{are_distinct, keys_of, remove_at};
ghost use Rattle.mlr_spec.specs.Tree.{Tree};
ghost use Rattle.verbs_pattern.specs.Renaming.{renamed_by, renamed_by_each};
ghost use Rattle.verbs_pattern.specs.Rules.{patterns_of, rules_in};
ghost use Rattle.verbs_pattern.specs.RenamingSteps.{new_name, GoesOn, IsRenamedAt};

use mlr_pattern::{Matcher, Pattern, Which, replaced_if_found};
use mlr_record::Record;
use mlr_spec::NoMemory;
use mlr_value::Bytes;
use std::alloc::Global;
use std::sync::Arc;

/// `rename -r` and `rename -g`: rewrites the names that match a pattern. Each pattern has a replacement, in
/// which `\0` to `\9` are the texts of the match and of its groups.
#[derive(Drop)]
pub struct RenamePatterns {
    pub pairs: Vec<(Arc<Pattern>, Bytes)>,
    /// Whether the first match is replaced, with `-r`, or all matches, with `-g`.
    pub which: Which,
}

impl RenamePatterns {
    /// A matcher for each pattern.
    pub(crate) fn matchers(&self, alloc: Global) -> Result<Vec<Matcher<'_>>, NoMemory>
        ensures { IfOk result (λ made. map matcher_pattern made.items ≡ patterns_of self.now) }
    {
        let rules = self.pairs.as_slice();
        let mut matchers = Vec::with_capacity(alloc, rules.len())?;
        for place in 0..rules.len() {
            matchers.push(rules[place].0.matcher(alloc)?)?;
        }
        Ok(matchers)
    }

    /// The record with its fields renamed in place, by one pattern after another, each with its matcher. It
    /// allocates names that change.
    pub(crate) fn renamed(
        &self,
        alloc: Global,
        matchers: &mut [Matcher<'_>],
        mut fields: Record,
    ) -> Result<Record, NoMemory>
        requires { map matcher_pattern matchers.old ≡ patterns_of self.now }
        ensures renamed { IfOk result (λ made. made ≡ renamed_by_each self.now.which
            (rules_in self.now) fields) }
        ensures same { map matcher_pattern matchers.new ≡ map matcher_pattern matchers.old }
    {
        rename_by_each(
            alloc,
            self.pairs.as_slice(),
            matchers,
            self.which,
            &mut fields,
        )?;
        Ok(fields)
    }

    /// A copy, which shares the patterns. It allocates the list, and texts of more than 20 bytes.
    pub fn copy(&self, alloc: Global) -> Result<Self, NoMemory>
        ensures rules { IfOk result (λ copy. rules_in copy ≡ rules_in self.now) }
        ensures which { IfOk result (λ copy. copy.which ≡ self.now.which) }
    {
        let mut pairs = Vec::with_capacity(alloc, self.pairs.len())?;
        for (pattern, by) in &self.pairs {
            let by = Bytes::copy_of(alloc, by.as_slice())?;
            pairs.push((Arc::try_clone(pattern)?, by))?;
        }
        Ok(RenamePatterns {
            pairs,
            which: self.which,
        })
    }
}

fn rename_by_each(
    alloc: Global,
    rules: &[(Arc<Pattern>, Bytes)],
    matchers: &mut [Matcher<'_>],
    which: Which,
    fields: &mut Record,
) -> Result<(), NoMemory>
    requires { map matcher_pattern matchers.old
        ≡ map (λ rule. regex_pattern (arc_value rule.0)) rules.now }
    ensures renamed { OnOk result (fields.new ≡ renamed_by_each which
        (map (λ rule. (regex_pattern (arc_value rule.0), rule.1)) rules.now) fields.old) }
    ensures same { map matcher_pattern matchers.new ≡ map matcher_pattern matchers.old }
{
    for place in 0..rules.len() {
        let by = rules[place].1.as_slice();
        rename_with(alloc, matchers, place, by, which, fields)?;
    }
    Ok(())
}

/// Renames the fields by the pattern of the matcher at this place.
fn rename_with(
    alloc: Global,
    matchers: &mut [Matcher<'_>],
    place: usize,
    by: &[u8],
    which: Which,
    fields: &mut Record,
) -> Result<(), NoMemory>
    requires { place < length matchers.old }
    ensures renamed { OnOk result ((re : Re) → fields.new ≡ renamed_by which
        (slice_index_or (map matcher_pattern matchers.old) place re) by.now fields.old) }
    ensures same { map matcher_pattern matchers.new ≡ map matcher_pattern matchers.old }
{
    rename_all(alloc, &mut matchers[place], by, which, fields)
}

fn rename_all(
    alloc: Global,
    matcher: &mut Matcher<'_>,
    by: &[u8],
    which: Which,
    fields: &mut Record,
) -> Result<(), NoMemory>
    ensures renamed { OnOk result (fields.new ≡ renamed_by which (matcher_pattern matcher.old)
        by.now fields.old) }
    ensures same { matcher_pattern matcher.new ≡ matcher_pattern matcher.old }
{
    let mut place = 0;
    while place < fields.len() {
        place = rename_at(alloc, matcher, by, which, place, fields)?;
    }
    Ok(())
}

/// Renames the field at this place if the pattern changes its name, and returns the place of the next field.
fn rename_at(
    alloc: Global,
    matcher: &mut Matcher<'_>,
    by: &[u8],
    which: Which,
    place: usize,
    fields: &mut Record,
) -> Result<usize, NoMemory>
    requires within { place < length fields.old }
    requires room { place + 1 < 2 ^ 64 }
    requires distinct { are_distinct (keys_of fields.old) ≡ true }
    ensures goes_on { IfOk result (λ next. GoesOn (new_name which (matcher_pattern matcher.old)
        by.now) place fields.old next fields.new) }
    ensures same { matcher_pattern matcher.new ≡ matcher_pattern matcher.old }
{
    let name = fields.entry(place).0;
    match changed_name(alloc, matcher, by, which, name)? {
        Some(new) => rename_to(alloc, place, new.as_slice(), fields),
        None => Ok(place + 1),
    }
}

/// The name that the pattern gives, or None if the name doesn't change.
fn changed_name(
    alloc: Global,
    matcher: &mut Matcher<'_>,
    by: &[u8],
    which: Which,
    name: &[u8],
) -> Result<Option<Bytes>, NoMemory>
    ensures made { IfOk result (λ made. MatchOption made
        (bytes_eq (new_name which (matcher_pattern matcher.old) by.now name.now) name.now ≡ true)
        (λ new. (new ≡ new_name which (matcher_pattern matcher.old) by.now name.now)
        × (bytes_eq new name.now ≡ false))) }
    ensures same { matcher_pattern matcher.new ≡ matcher_pattern matcher.old }
{
    let Some(new) = replaced_if_found(alloc, matcher, name, by, which)? else {
        return Ok(None);
    };
    if new.as_slice() == name {
        return Ok(None);
    }
    Ok(Some(new))
}

/// Sets the name of the field at this place, and returns the place of the next field.
fn rename_to(
    alloc: Global,
    place: usize,
    new: &[u8],
    fields: &mut Record,
) -> Result<usize, NoMemory>
    requires within { place < length fields.old }
    requires room { place + 1 < 2 ^ 64 }
    requires distinct { are_distinct (keys_of fields.old) ≡ true }
    requires other { (pair : List ℕ × Tree)
        → bytes_eq new.now (slice_index_or fields.old place pair).0 ≡ false }
    ensures { IfOk result (λ next. IsRenamedAt place new.now fields.old next fields.new) }
{
    let next = place_after(fields, place, new);
    let old = Bytes::copy_of(alloc, fields.entry(place).0)?;
    fields.rename(old.as_slice(), new)?;
    Ok(next)
}

/// The place after this one, once another field with the new name is removed.
fn place_after(fields: &Record, place: usize, new: &[u8]) -> usize
    requires within { place < length fields.now }
    requires room { place + 1 < 2 ^ 64 }
    ensures { result ≡ length (remove_at new.now (take place fields.now)) + 1 }
{
    match fields.position(new) {
        Some(other) if other < place => place,
        _ => place + 1,
    }
}
