//! The options of `json-parse`.
ghost use Rattle.std.specs.Prelude.{◌≡◌, IfOk};
ghost use Rattle.cli_verbs.specs.JsonParse.{json_parse_of};

use cli_choices::given_names;
use cli_grammar::VerbWords;
use mlr_spec::NoMemory;
use std::alloc::Global;
use verbs_values::JsonParse;

/// The options of `json-parse`.
pub(crate) fn json_parse(alloc: Global, given: &VerbWords) -> Result<JsonParse, NoMemory>
    ensures { IfOk result (λ options. options ≡ json_parse_of given.now) }
{
    Ok(JsonParse {
        names: given_names(alloc, given, b"-f")?,
    })
}
