//! The options of `template`.
ghost use Rattle.std.specs.Prelude.{◌≡◌, IfOk};
ghost use Rattle.cli_verbs.specs.Template.{template_of};

use cli_choices::{names_after, text_or};
use cli_grammar::VerbWords;
use mlr_spec::NoMemory;
use std::alloc::Global;
use verbs_fields::Template;

/// The options of `template`.
pub(crate) fn template(alloc: Global, given: &VerbWords) -> Result<Template, NoMemory>
    ensures { IfOk result (λ options. options ≡ template_of given.now) }
{
    Ok(Template {
        names: names_after(alloc, given, b"-f")?,
        fill: text_or(alloc, given, b"--fill-with", b"")?,
    })
}
