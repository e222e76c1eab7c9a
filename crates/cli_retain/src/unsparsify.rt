//! The options of `unsparsify`.
ghost use Rattle.std.specs.Prelude.{◌≡◌, IfOk};
ghost use Rattle.cli_retain.specs.Unsparsify.{unsparsify_of};

use cli_choices::{given_names, text_or};
use cli_grammar::VerbWords;
use mlr_spec::NoMemory;
use std::alloc::Global;
use verbs_retain::Unsparsify;

/// The options of `unsparsify`.
pub fn unsparsify(alloc: Global, given: &VerbWords) -> Result<Unsparsify, NoMemory>
    ensures { IfOk result (λ options. options ≡ unsparsify_of given.now) }
{
    Ok(Unsparsify {
        fill: text_or(alloc, given, b"--fill-with", b"")?,
        names: given_names(alloc, given, b"-f")?,
    })
}
