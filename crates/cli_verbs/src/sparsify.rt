//! The options of `sparsify`.
ghost use Rattle.std.specs.Prelude.{◌≡◌, IfOk};
ghost use Rattle.cli_verbs.specs.Sparsify.{sparsify_of};

use cli_choices::given_names;
use cli_grammar::VerbWords;
use mlr_spec::NoMemory;
use std::alloc::Global;
use verbs_fields::Sparsify;

/// The options of `sparsify`.
pub(crate) fn sparsify(alloc: Global, given: &VerbWords) -> Result<Sparsify, NoMemory>
    ensures { IfOk result (λ options. options ≡ sparsify_of given.now) }
{
    Ok(Sparsify {
        names: given_names(alloc, given, b"-f")?,
    })
}
