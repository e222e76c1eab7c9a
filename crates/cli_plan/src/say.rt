//! What the program says of itself.
ghost use Rattle.std.specs.Prelude.{◌≡◌};
ghost use Rattle.std.specs.Option.{option_map};
ghost use Rattle.cli_plan.specs.Say.{said, said_of};

use mlr_value::Bytes;

/// What the program says in place of a run, if the first word asks for it.
pub fn said(words: &[Bytes]) -> Option<&'static [u8]>
    ensures { option_map (λ text. text.now) result ≡ said words.now }
{
    match words.first() {
        Some(word) => said_of(word.as_slice()),
        None => None,
    }
}

/// What a first word asks for.
fn said_of(word: &[u8]) -> Option<&'static [u8]>
    ensures { option_map (λ text. text.now) result ≡ said_of word.now }
{
    if word == b"--version".as_slice() {
        Some(b"mlr 6 whole-number profile\n")
    } else if word == b"--help".as_slice() || word == b"-h".as_slice() {
        Some(b"usage: mlr {flags} {verb} {options} {then verb ..} {files}\n")
    } else {
        None
    }
}
