//! The options of `cat`.
ghost use Rattle.std.specs.Prelude.{◌≡◌, IfOk};
ghost use Rattle.cli_verbs.specs.Cat.{cat_of, is_numbered};

use cli_choices::{given_names, text_or};
use cli_grammar::VerbWords;
use mlr_spec::NoMemory;
use std::alloc::Global;
use verbs_state::Cat;

/// The options of `cat`.
pub(crate) fn cat(alloc: Global, given: &VerbWords) -> Result<Cat, NoMemory>
    ensures { IfOk result (λ options. options ≡ cat_of given.now) }
{
    Ok(Cat {
        number: is_numbered(given),
        name: text_or(alloc, given, b"-N", b"n")?,
        groups: given_names(alloc, given, b"-g")?,
    })
}

/// Whether each record gets its number.
fn is_numbered(given: &VerbWords) -> bool
    ensures { result ≡ is_numbered given.now }
{
    given.has(b"-n") || given.has(b"-N")
}
