//! The options of `sec2gmt`.
ghost use Rattle.std.specs.Prelude.{◌≡◌, IfOk};
ghost use Rattle.cli_verbs.specs.Sec2Gmt.{sec2gmt_of};

use cli_choices::names_in;
use cli_grammar::VerbWords;
use mlr_spec::NoMemory;
use std::alloc::Global;
use verbs_values::Sec2Gmt;

/// The options of `sec2gmt`.
pub(crate) fn sec2gmt(alloc: Global, given: &VerbWords) -> Result<Sec2Gmt, NoMemory>
    ensures { IfOk result (λ options. options ≡ sec2gmt_of given.now) }
{
    Ok(Sec2Gmt {
        names: names_in(alloc, given.word(0))?,
    })
}
