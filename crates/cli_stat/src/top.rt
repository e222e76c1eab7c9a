//! The options of `top`.
ghost use Rattle.std.specs.Prelude.{◌≡◌, IfOk};
ghost use Rattle.cli_stat.specs.Top.{top_of};

use cli_choices::{count_or, given_names, names_after, text_or};
use cli_grammar::VerbWords;
use mlr_spec::NoMemory;
use std::alloc::Global;
use verbs_top::{Top, TopOrder};

/// The options of `top`.
pub fn top(alloc: Global, given: &VerbWords) -> Result<Top, NoMemory>
    ensures { IfOk result (λ options. options ≡ top_of given.now) }
{
    let order = if given.has(b"--min") {
        TopOrder::Min
    } else {
        TopOrder::Max
    };
    Ok(Top {
        names: names_after(alloc, given, b"-f")?,
        count: count_or(given, b"-n", 1),
        groups: given_names(alloc, given, b"-g")?,
        order,
        whole: given.has(b"-a"),
        output: text_or(alloc, given, b"-o", b"top_idx")?,
    })
}
