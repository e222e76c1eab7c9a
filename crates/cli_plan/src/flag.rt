//! What a flag sets, by which word.
ghost use Rattle.std.specs.Prelude.{◌≡◌};
ghost use Rattle.cli_plan.specs.Flags.{sets_of, setting_of, word_of};

use cli_grammar::{Given, Kind, Setting, flag_named};

/// What a flag sets; None where its name is no flag.
pub(crate) fn setting_of(flag: &Given) -> Option<Setting>
    ensures { result ≡ setting_of flag.now }
{
    sets_of(flag_named(flag.name.as_slice()))
}

/// What a row of the flags sets.
fn sets_of(row: Option<(Kind, Setting)>) -> Option<Setting>
    ensures { result ≡ sets_of row }
{
    match row {
        Some((_, setting)) => Some(setting),
        None => None,
    }
}

/// The word after a flag; the empty word where there is none.
pub(crate) fn word_of(flag: &Given) -> &[u8]
    ensures { result.now ≡ word_of flag.now }
{
    match &flag.argument {
        Some(word) => word.as_slice(),
        None => &[],
    }
}
