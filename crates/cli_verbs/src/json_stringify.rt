//! The options of `json-stringify`.
ghost use Rattle.std.specs.Prelude.{◌≡◌, IfOk};
ghost use Rattle.cli_verbs.specs.JsonStringify.{json_stringify_of};

use cli_choices::given_names;
use cli_grammar::VerbWords;
use mlr_spec::NoMemory;
use std::alloc::Global;
use verbs_values::JsonStringify;

/// The options of `json-stringify`.
pub(crate) fn json_stringify(alloc: Global, given: &VerbWords) -> Result<JsonStringify, NoMemory>
    ensures { IfOk result (λ options. options ≡ json_stringify_of given.now) }
{
    Ok(JsonStringify {
        names: given_names(alloc, given, b"-f")?,
    })
}
