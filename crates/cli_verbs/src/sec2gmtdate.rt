//! The options of `sec2gmtdate`.
ghost use Rattle.std.specs.Prelude.{◌≡◌, IfOk};
ghost use Rattle.cli_verbs.specs.Sec2GmtDate.{sec2gmtdate_of};

use cli_choices::names_in;
use cli_grammar::VerbWords;
use mlr_spec::NoMemory;
use std::alloc::Global;
use verbs_values::Sec2GmtDate;

/// The options of `sec2gmtdate`.
pub(crate) fn sec2gmtdate(alloc: Global, given: &VerbWords) -> Result<Sec2GmtDate, NoMemory>
    ensures { IfOk result (λ options. options ≡ sec2gmtdate_of given.now) }
{
    Ok(Sec2GmtDate {
        names: names_in(alloc, given.word(0))?,
    })
}
