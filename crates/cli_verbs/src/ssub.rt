//! The options of `ssub`.
ghost use Rattle.std.specs.Prelude.{◌≡◌, IfOk};
ghost use Rattle.cli_verbs.specs.Ssub.{ssub_of};

use crate::sub_fields::sub_fields;
use cli_grammar::VerbWords;
use mlr_spec::NoMemory;
use mlr_value::Bytes;
use std::alloc::Global;
use verbs_pattern::Ssub;

/// The options of `ssub`.
pub(crate) fn ssub(alloc: Global, given: &VerbWords) -> Result<Ssub, NoMemory>
    ensures { IfOk result (λ options. options ≡ ssub_of given.now) }
{
    Ok(Ssub {
        fields: sub_fields(alloc, given)?,
        old: Bytes::copy_of(alloc, given.word(0))?,
        by: Bytes::copy_of(alloc, given.word(1))?,
    })
}
