//! The options of `group-by`.
ghost use Rattle.std.specs.Prelude.{◌≡◌, IfOk};
ghost use Rattle.cli_retain.specs.GroupBy.{group_by_of};

use cli_choices::names_in;
use cli_grammar::VerbWords;
use mlr_event::Names;
use mlr_spec::NoMemory;
use std::alloc::Global;

/// The options of `group-by`.
pub fn group_by(alloc: Global, given: &VerbWords) -> Result<Names, NoMemory>
    ensures { IfOk result (λ options. options ≡ group_by_of given.now) }
{
    names_in(alloc, given.word(0))
}
