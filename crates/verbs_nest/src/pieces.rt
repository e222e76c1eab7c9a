//! The pieces of a value's text, and fields that are made of them.
ghost use Rattle.std.specs.Prelude.{◌≡◌, ◌∷◌, ◌<◌, [], true, length, IfOk, IfSome, MatchOption, OnOk};
ghost use Rattle.std.specs.Option.{option_map};
ghost use Rattle.mlr_spec.specs.JsonGrammar.{text_value};
ghost use Rattle.mlr_spec.specs.Pairs.{are_distinct, keys_of, put_at, value_at};
ghost use Rattle.mlr_value.specs.Value.{tree_of};
ghost use Rattle.text_forms.specs.Shown.{shown};
ghost use Rattle.verbs_nest.specs.Pieces.{pair_of_piece, pieces_of, split_once};

use mlr_fields::{Fields, few};
use mlr_record::split::separator_place;
use mlr_record::{Field, Record};
use mlr_spec::NoMemory;
use mlr_value::{Bytes, Value};
use std::alloc::Global;
use text_forms::shown;
use verbs_base::string_of;

/// What precedes and what follows the first separator in a text, if there is one. No text has an empty
/// separator. It doesn't allocate.
pub(crate) fn split_once<'t>(separator: &[u8], text: &'t [u8]) -> Option<(&'t [u8], &'t [u8])>
    ensures parts { option_map (λ parts. (parts.0.now, parts.1.now)) result
        ≡ split_once separator.now text.now }
    ensures pieces { MatchOption result (pieces_of separator.now text.now ≡ text.now ∷ [])
        (λ parts. pieces_of separator.now text.now
        ≡ parts.0.now ∷ pieces_of separator.now parts.1.now) }
    ensures shorter { IfSome result (λ parts. length parts.1.now < length text.now) }
{
    if separator.is_empty() {
        return None;
    }
    let place = separator_place(separator, text)?;
    Some((&text[..place], &text[place + separator.len()..]))
}

/// The name and the text of the pair in a piece. A piece without the separator keeps the field's name.
pub(crate) fn pair_of_piece<'t>(
    name: &'t [u8],
    separator: &[u8],
    piece: &'t [u8],
) -> (&'t [u8], &'t [u8])
    ensures { (result.0.now, text_value result.1.now)
        ≡ pair_of_piece name.now separator.now piece.now }
{
    match split_once(separator, piece) {
        Some(parts) => parts,
        None => (name, piece),
    }
}

/// The text of a field, if the record has it.
pub(crate) fn text_at(
    alloc: Global,
    name: &[u8],
    fields: &Record,
) -> Result<Option<Bytes>, NoMemory>
    ensures text { IfOk result (λ text. text ≡ option_map shown (value_at name.now fields.now)) }
    ensures distinct { are_distinct (keys_of fields.now) ≡ true }
{
    if fields.len() == 0 {
        return Ok(None);
    }
    match fields.get(name) {
        Some(value) => Ok(Some(shown(alloc, value)?)),
        None => Ok(None),
    }
}

/// A text as a value, whose type isn't inferred.
pub(crate) fn copied_value(alloc: Global, text: &[u8]) -> Result<Value, NoMemory>
    ensures { IfOk result (λ value. tree_of value ≡ text_value text.now) }
{
    Ok(string_of(Bytes::copy_of(alloc, text)?))
}

/// Puts a text as a field into a record.
pub(crate) fn put_text(
    alloc: Global,
    name: &[u8],
    text: &[u8],
    into: &mut Fields,
) -> Result<(), NoMemory>
    ensures { OnOk result (into.new ≡ put_at name.now (text_value text.now) into.old) }
{
    few(into.len())?;
    into.put(alloc, name, copied_value(alloc, text)?, false)
}

/// Puts a field into a record.
pub(crate) fn put_field(alloc: Global, field: Field, into: &mut Fields) -> Result<(), NoMemory>
    ensures { OnOk result (into.new ≡ put_at field.name (tree_of field.value) into.old) }
{
    let Field { name, value } = field;
    few(into.len())?;
    into.put(alloc, name.as_slice(), value, false)
}
