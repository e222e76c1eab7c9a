//! The options of `unspace`.
ghost use Rattle.std.specs.Prelude.{◌≡◌, IfOk};
ghost use Rattle.cli_verbs.specs.Unspace.{part_of, unspace_of};

use cli_choices::text_or;
use cli_grammar::VerbWords;
use mlr_spec::NoMemory;
use std::alloc::Global;
use verbs_fields::{Unspace, UnspacePart};

/// The options of `unspace`.
pub(crate) fn unspace(alloc: Global, given: &VerbWords) -> Result<Unspace, NoMemory>
    ensures { IfOk result (λ options. options ≡ unspace_of given.now) }
{
    Ok(Unspace {
        text: text_or(alloc, given, b"-f", b"_")?,
        part: part_of(given),
    })
}

/// Where spaces are replaced.
fn part_of(given: &VerbWords) -> UnspacePart
    ensures { result ≡ part_of given.now }
{
    if given.has(b"-k") {
        UnspacePart::Keys
    } else if given.has(b"-v") {
        UnspacePart::Values
    } else {
        UnspacePart::Both
    }
}
