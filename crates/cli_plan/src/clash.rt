//! Flags of comments, which clash with JSON.
ghost use Rattle.std.specs.Prelude.{◌≡◌};
ghost use Rattle.cli_plan.specs.Clashes.{comment_clash, first_comment, is_comment_setting, sets_comments};

use crate::flag::setting_of;
use crate::options::is_nested;
use crate::settings::Settings;
use cli_grammar::{Given, Setting};

/// The number of the flag that clashes with the format of the input: JSON has no comments.
pub fn comment_clash(flags: &[Given], settings: &Settings) -> Option<usize>
    ensures { result ≡ comment_clash flags.now settings.now }
{
    if is_nested(settings.input) {
        first_comment(flags)
    } else {
        None
    }
}

/// The number of the first flag that sets what becomes of comments.
fn first_comment(flags: &[Given]) -> Option<usize>
    ensures { result ≡ first_comment flags.now }
{
    for flag in flags {
        if sets_comments(flag) {
            return Some(flag.number);
        }
    }
    None
}

/// Whether a flag sets what becomes of comments.
fn sets_comments(flag: &Given) -> bool
    ensures { result ≡ sets_comments flag.now }
{
    match setting_of(flag) {
        Some(setting) => is_comment_setting(setting),
        None => false,
    }
}

fn is_comment_setting(setting: Setting) -> bool
    ensures { result ≡ is_comment_setting setting }
{
    matches!(
        setting,
        Setting::Skip | Setting::Pass | Setting::SkipWith | Setting::PassWith
    )
}
