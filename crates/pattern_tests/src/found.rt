//! Patterns of texts that are patterns.
ghost use Rattle.std.specs.Prelude.{◌≡◌, IfSome};
ghost use Rattle.regex.specs.Bytes.{regex_config, regex_source};
ghost use Rattle.mlr_pattern.specs.Reading.{options};

use mlr_pattern::{Pattern, read_pattern};
use std::alloc::Global;

/// The pattern of a text, if it is one.
pub(crate) fn found_pattern(alloc: Global, text: &[u8], either_case: bool) -> Option<Pattern>
    ensures source { IfSome result (λ pattern. regex_source pattern ≡ text.now) }
    ensures config { IfSome result (λ pattern. regex_config pattern ≡ options either_case) }
{
    read_pattern(alloc, text, either_case).ok()
}
