//! `nest --explode --across-fields`: the pieces of a value as fields.
ghost use Rattle.std.specs.Prelude.{◌≡◌, ◌∷◌, [], map, IfOk, OnOk};
ghost use Rattle.std.specs.List.{flat_map};
ghost use Rattle.mlr_spec.specs.Pairs.{put_each};
ghost use Rattle.mlr_record.specs.Fields.{pair_of, pairs_of};
ghost use Rattle.mlr_event.specs.Reading.{suffixed};
ghost use Rattle.verbs_nest.specs.Across.{across_fields};
ghost use Rattle.verbs_nest.specs.Nest.{in_place, replaced};
ghost use Rattle.verbs_nest.specs.Pieces.{numbered, pair_of_piece, pieces_of};

use crate::pieces::{pair_of_piece, put_field, put_text, split_once, text_at};
use itoa::Buffer;
use mlr_fields::Fields;
use mlr_record::{Field, Record};
use mlr_spec::NoMemory;
use mlr_value::Bytes;
use std::alloc::Global;
use verbs_base::PerRecord;

/// A verb that puts the pieces of a value as fields in the place of its field.
#[derive(Drop)]
pub struct AcrossFields {
    pub field: Bytes,
    pub separator: Bytes,
    /// What separates the name and the value of a pair, where the pieces are pairs.
    pub pair_separator: Option<Bytes>,
}

impl PerRecord for AcrossFields {
    ghost use Rattle.std.specs.Prelude.{◌∷◌, []};
    ghost use Rattle.verbs_nest.specs.Across.{across_fields};
    ghost use Rattle.verbs_nest.specs.Nest.{exploded};

    ghost gives = { λ verb. exploded verb.field verb.separator
        (λ pieces. across_fields verb.field verb.pair_separator pieces ∷ []) };

    ghost sound = { λ verb. Unit {0} };

    fn made(&mut self, alloc: Global, fields: Record) -> Result<Option<Record>, NoMemory> {
        match text_at(alloc, self.field.as_slice(), &fields)? {
            Some(text) => Ok(Some(with_pieces(alloc, self, text.as_slice(), fields)?)),
            None => Ok(Some(fields)),
        }
    }
}

/// A record with the pieces of this text in the place of the field.
fn with_pieces(
    alloc: Global,
    verb: &AcrossFields,
    text: &[u8],
    fields: Record,
) -> Result<Record, NoMemory>
    ensures { IfOk result (λ made. made ≡ replaced verb.now.field
        (across_fields verb.now.field verb.now.pair_separator
        (pieces_of verb.now.separator text.now)) fields) }
{
    let mut made = Fields::new(Record::new(alloc)?);
    put_fields(alloc, verb, text, fields.into_fields(), &mut made)?;
    Ok(made.into_record())
}

/// Puts each field into a record, and the pieces of this text in the place of the named one.
fn put_fields(
    alloc: Global,
    verb: &AcrossFields,
    text: &[u8],
    fields: Vec<Field>,
    into: &mut Fields,
) -> Result<(), NoMemory>
    ensures { OnOk result (into.new ≡ put_each into.old (flat_map (in_place verb.now.field
        (across_fields verb.now.field verb.now.pair_separator
        (pieces_of verb.now.separator text.now))) (pairs_of fields.items))) }
{
    for field in fields {
        put_place(alloc, verb, text, field, into)?;
    }
    Ok(())
}

/// Puts a field into a record, or the pieces of this text in the place of the named one.
fn put_place(
    alloc: Global,
    verb: &AcrossFields,
    text: &[u8],
    field: Field,
    into: &mut Fields,
) -> Result<(), NoMemory>
    ensures { OnOk result (into.new ≡ put_each into.old (in_place verb.now.field
        (across_fields verb.now.field verb.now.pair_separator
        (pieces_of verb.now.separator text.now)) (pair_of field))) }
{
    if field.name.is(&verb.field) {
        put_pieces(alloc, verb, text, into)
    } else {
        put_field(alloc, field, into)
    }
}

/// Puts the pieces of a text as fields into a record.
fn put_pieces(
    alloc: Global,
    verb: &AcrossFields,
    text: &[u8],
    into: &mut Fields,
) -> Result<(), NoMemory>
    ensures { OnOk result (into.new ≡ put_each into.old
        (across_fields verb.now.field verb.now.pair_separator
        (pieces_of verb.now.separator text.now))) }
{
    let field = verb.field.as_slice();
    let separator = verb.separator.as_slice();
    match &verb.pair_separator {
        Some(between) => put_pairs(alloc, field, separator, between.as_slice(), text, into),
        None => put_numbered(alloc, field, separator, text, into),
    }
}

/// Puts the pieces of a text as pairs into a record.
fn put_pairs(
    alloc: Global,
    name: &[u8],
    separator: &[u8],
    pair_separator: &[u8],
    text: &[u8],
    into: &mut Fields,
) -> Result<(), NoMemory>
    ensures { OnOk result (into.new ≡ put_each into.old
        (map (pair_of_piece name.now pair_separator.now) (pieces_of separator.now text.now))) }
{
    let mut left = text;
    while let Some((piece, rest)) = split_once(separator, left) {
        put_pair(alloc, name, pair_separator, piece, into)?;
        left = rest;
    }
    put_pair(alloc, name, pair_separator, left, into)
}

/// Puts the pair in a piece into a record.
fn put_pair(
    alloc: Global,
    name: &[u8],
    pair_separator: &[u8],
    piece: &[u8],
    into: &mut Fields,
) -> Result<(), NoMemory>
    ensures { OnOk result (into.new ≡ put_each into.old
        (pair_of_piece name.now pair_separator.now piece.now ∷ [])) }
{
    let (key, value) = pair_of_piece(name, pair_separator, piece);
    put_text(alloc, key, value, into)
}

/// Puts the pieces of a text into a record, under the name and a number.
fn put_numbered(
    alloc: Global,
    name: &[u8],
    separator: &[u8],
    text: &[u8],
    into: &mut Fields,
) -> Result<(), NoMemory>
    ensures { OnOk result (into.new ≡ put_each into.old
        (numbered name.now 1 (pieces_of separator.now text.now))) }
{
    let mut number = 1;
    let mut left = text;
    while let Some((piece, rest)) = split_once(separator, left) {
        put_text(
            alloc,
            suffixed(alloc, name, number)?.as_slice(),
            piece,
            into,
        )?;
        number += 1;
        left = rest;
    }
    put_text(alloc, suffixed(alloc, name, number)?.as_slice(), left, into)
}

/// The name with a number appended.
fn suffixed(alloc: Global, name: &[u8], number: usize) -> Result<Bytes, NoMemory>
    ensures { IfOk result (λ text. text ≡ suffixed name.now number) }
{
    let mut text = Bytes::copy_of(alloc, name)?;
    text.append(b"_")?;
    text.append(Buffer::new().format(number).as_bytes())?;
    Ok(text)
}
