//! The options of `sort-within-records`.
ghost use Rattle.std.specs.Prelude.{◌≡◌};
ghost use Rattle.cli_verbs.specs.SortWithinRecords.{sort_within_records_of};

use cli_grammar::VerbWords;
use verbs_fields::SortWithinRecords;

/// The options of `sort-within-records`.
pub(crate) fn sort_within_records(given: &VerbWords) -> SortWithinRecords
    ensures { result ≡ sort_within_records_of given.now }
{
    SortWithinRecords {
        deep: given.has(b"-r"),
    }
}
