//! Texts searched for several patterns.
ghost use Rattle.std.specs.Prelude.{◌≡◌, ◌<◌, length, map, slice_index_or, IfOk};
ghost use Rattle.std.specs.Arc.{arc_value};
ghost use Rattle.regex.specs.Patterns.{Re};
ghost use Rattle.regex.specs.Bytes.{matcher_pattern, regex_pattern};
ghost use Rattle.verbs_pattern.specs.Matching.{any_matches, has_match};

use mlr_pattern::{Matcher, Pattern};
use mlr_spec::NoMemory;
use std::alloc::Global;
use std::sync::Arc;

/// Whether one of the patterns matches somewhere in the text.
pub fn any_matches(matchers: &mut [Matcher<'_>], text: &[u8]) -> bool
    ensures found { result ≡ any_matches (map matcher_pattern matchers.old) text.now }
    ensures same { map matcher_pattern matchers.new ≡ map matcher_pattern matchers.old }
{
    for place in 0..matchers.len() {
        if is_matched_by(matchers, place, text) {
            return true;
        }
    }
    false
}

fn is_matched_by(matchers: &mut [Matcher<'_>], place: usize, text: &[u8]) -> bool
    requires { place < length matchers.old }
    ensures found { (re : Re)
        → result ≡ has_match (slice_index_or (map matcher_pattern matchers.old) place re) text.now }
    ensures same { map matcher_pattern matchers.new ≡ map matcher_pattern matchers.old }
{
    matchers[place].is_match(text)
}

/// A matcher for each pattern. It allocates for each.
pub fn matchers_of(alloc: Global, patterns: &[Arc<Pattern>]) -> Result<Vec<Matcher<'_>>, NoMemory>
    ensures { IfOk result (λ made. map matcher_pattern made.items
        ≡ map (λ pattern. regex_pattern (arc_value pattern)) patterns.now) }
{
    let mut matchers = Vec::with_capacity(alloc, patterns.len())?;
    for place in 0..patterns.len() {
        matchers.push(patterns[place].matcher(alloc)?)?;
    }
    Ok(matchers)
}
