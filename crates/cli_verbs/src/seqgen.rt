//! The options of `seqgen`.
ghost use Rattle.std.specs.Prelude.{◌≡◌, IfErr, IfOk};
ghost use Rattle.verbs_seq.specs.Seq.{IsSoundSeq};
ghost use Rattle.cli_verbs.specs.Faults.{IfRefused};
ghost use Rattle.cli_verbs.specs.Seqgen.{seqgen_of, stop_number, IsRefusedSeq};

use crate::fault::Fault;
use crate::pattern::refused;
use cli_choices::{int_or, number_or, text_or};
use cli_grammar::VerbWords;
use mlr_event::Why;
use mlr_spec::NoMemory;
use std::alloc::Global;
use verbs_seq::SeqSpec;

/// The options of `seqgen`, from which a source may count.
pub(crate) fn seqgen(alloc: Global, given: &VerbWords) -> Result<SeqSpec, Fault>
    ensures means { IfOk result (λ options. options ≡ seqgen_of given.now) }
    ensures sound { IfOk result (λ _. IsSoundSeq (seqgen_of given.now)) }
    ensures refused { IfErr result (IfRefused (IsRefusedSeq given.now)) }
{
    let options = numbers(alloc, given)?;
    if options.is_sound() {
        Ok(options)
    } else {
        Err(refused(stop_number(given), Why::BadNumber))
    }
}

/// The options of `seqgen`.
fn numbers(alloc: Global, given: &VerbWords) -> Result<SeqSpec, NoMemory>
    ensures { IfOk result (λ options. options ≡ seqgen_of given.now) }
{
    Ok(SeqSpec {
        field: text_or(alloc, given, b"-f", b"i")?,
        start: int_or(given, b"--start", 1),
        stop: int_or(given, b"--stop", 100),
        step: int_or(given, b"--step", 1),
    })
}

/// The number of the word that is refused where the numbers are too many.
fn stop_number(given: &VerbWords) -> usize
    ensures { result ≡ stop_number given.now }
{
    number_or(given.options.as_slice(), b"--stop", given.number)
}
