//! The options of `nest`.
ghost use Rattle.std.specs.Prelude.{◌≡◌, IfOk};
ghost use Rattle.cli_shape.specs.Nest.{form_of, nest_of, separator_option};

use cli_choices::{separator_or, text_or};
use cli_grammar::VerbWords;
use mlr_spec::NoMemory;
use std::alloc::Global;
use verbs_nest::{Nest, NestForm};

/// The options of `nest`.
pub fn nest(alloc: Global, given: &VerbWords) -> Result<Nest, NoMemory>
    ensures { IfOk result (λ options. options ≡ nest_of given.now) }
{
    Ok(Nest {
        field: text_or(alloc, given, b"-f", b"")?,
        form: form_of(given),
        separator: separator_or(alloc, given, separator_option(given), b";")?,
        pair_separator: separator_or(alloc, given, b"--nested-ps", b":")?,
    })
}

/// The form that the options make together.
fn form_of(given: &VerbWords) -> NestForm
    ensures { result ≡ form_of given.now }
{
    if given.has(b"--implode") || given.has(b"--ivar") {
        return NestForm::Implode;
    }
    let across_fields = given.has(b"--across-fields");
    match given.has(b"--pairs") {
        true if across_fields => NestForm::PairsAcrossFields,
        true => NestForm::PairsAcrossRecords,
        false if across_fields => NestForm::ValuesAcrossFields,
        false => NestForm::ValuesAcrossRecords,
    }
}

/// The option that names the separator of pieces.
fn separator_option(given: &VerbWords) -> &'static [u8]
    ensures { result.now ≡ separator_option given.now }
{
    if given.has(b"--evar") {
        return b"--evar";
    }
    if given.has(b"--ivar") {
        return b"--ivar";
    }
    b"--nested-fs"
}
