//! The options of `uniq`.
ghost use Rattle.std.specs.Prelude.{◌≡◌, IfOk};
ghost use Rattle.cli_retain.specs.Uniq.{uniq_of};

use cli_choices::names_after;
use cli_grammar::VerbWords;
use mlr_groups::GroupBy;
use mlr_spec::NoMemory;
use std::alloc::Global;
use verbs_retain::{Uniq, UniqShow};

/// The options of `uniq`.
pub fn uniq(alloc: Global, given: &VerbWords) -> Result<Uniq, NoMemory>
    ensures { IfOk result (λ options. options ≡ uniq_of given.now) }
{
    let by = if given.has(b"-a") {
        GroupBy::Fields
    } else {
        GroupBy::Texts(names_after(alloc, given, b"-g")?)
    };
    let show = if given.has(b"-c") {
        UniqShow::Counted
    } else if given.has(b"-n") {
        UniqShow::Number
    } else {
        UniqShow::First
    };
    Ok(Uniq { by, show })
}
