//! `nest --explode --across-records`: a record for each piece of a value.
ghost use Rattle.std.specs.Prelude.{◌≡◌, ◌++◌, ◌∷◌, [], true, map, is_some, IfOk, OnOk};
ghost use Rattle.std.specs.List.{flat_map};
ghost use Rattle.mlr_spec.specs.JsonGrammar.{text_value};
ghost use Rattle.mlr_spec.specs.Pairs.{are_distinct, keys_of, put_at, put_each, value_at};
ghost use Rattle.mlr_spec.specs.Tree.{empty};
ghost use Rattle.mlr_record.specs.Fields.{pairs_of};
ghost use Rattle.verbs_base.specs.Records.{with_context};
ghost use Rattle.verbs_nest.specs.Across.{across_records};
ghost use Rattle.verbs_nest.specs.Nest.{in_place, replaced};
ghost use Rattle.verbs_nest.specs.Pieces.{pieces_of};

use crate::pieces::{copied_value, pair_of_piece, put_field, put_text, split_once, text_at};
use mlr_event::{Ctx, Event, Events};
use mlr_fields::Fields;
use mlr_record::{Field, Record};
use mlr_spec::NoMemory;
use mlr_value::{Bytes, Value};
use std::alloc::Global;
use verbs_base::Stateful;

/// A verb that gives a record for each piece of a value.
#[derive(Drop)]
pub struct AcrossRecords {
    pub alloc: Global,
    pub field: Bytes,
    pub separator: Bytes,
    /// What separates the name and the value of a pair, where the pieces are pairs.
    pub pair_separator: Option<Bytes>,
}

impl Stateful for AcrossRecords {
    ghost use Rattle.std.specs.Prelude.{◌∷◌, [], map};
    ghost use Rattle.verbs_base.specs.Laws.{stream-shuts};
    ghost use Rattle.verbs_base.specs.Records.{each};
    ghost use Rattle.verbs_nest.specs.Across.{across_records};
    ghost use Rattle.verbs_nest.specs.Nest.{exploded};

    ghost meaning = { λ s. each (exploded s.field s.separator
        (λ pieces. map (λ piece. across_records s.field s.pair_separator piece ∷ []) pieces)) };

    ghost represents = { λ s before. Unit {0} };

    ghost shuts = { λ s. stream-shuts (λ before. exploded s.field s.separator
        (λ pieces. map (λ piece. across_records s.field s.pair_separator piece ∷ []) pieces)) };

    fn take(&mut self, fields: Record, ctx: Ctx, out: &mut Events) -> Result<(), NoMemory> {
        match text_at(self.alloc, self.field.as_slice(), &fields)? {
            Some(text) => {
                let emptied = emptied(self.field.as_slice(), fields)?;
                push_exploded(self, text.as_slice(), emptied, ctx, out)
            }
            None => out.push(Event::Rec(fields, ctx)),
        }
    }

    fn finish(&mut self, _: Ctx, _: &mut Events) -> Result<(), NoMemory> {
        Ok(())
    }

    fn is_shut(&self) -> bool {
        false
    }

    fn never_shuts(&self) -> bool {
        true
    }
}

/// A record with an empty value in the field, so that copies of the record have no copy of its text.
fn emptied(field: &[u8], fields: Record) -> Result<Record, NoMemory>
    ensures { IfOk result (λ made. made ≡ put_at field.now empty fields) }
{
    let mut made = fields;
    made.put(field, Value::Empty)?;
    Ok(made)
}

/// Appends a record for each piece of the text. All but the last are copies.
fn push_exploded(
    verb: &AcrossRecords,
    text: &[u8],
    fields: Record,
    ctx: Ctx,
    out: &mut Events,
) -> Result<(), NoMemory>
    requires there { is_some (value_at verb.now.field fields) ≡ true }
    requires distinct { are_distinct (keys_of fields) ≡ true }
    ensures { OnOk result (out.new ≡ out.old ++ with_context ctx
        (map (λ made. replaced verb.now.field made fields)
        (map (λ piece. across_records verb.now.field verb.now.pair_separator piece ∷ [])
        (pieces_of verb.now.separator text.now)))) }
{
    let mut left = text;
    while let Some((piece, rest)) = split_once(verb.separator.as_slice(), left) {
        let made = with_piece(verb, piece, fields.copy()?)?;
        out.push(Event::Rec(made, ctx))?;
        left = rest;
    }
    let made = with_piece(verb, left, fields)?;
    out.push(Event::Rec(made, ctx))
}

/// A record with a piece in the place of the field.
fn with_piece(verb: &AcrossRecords, piece: &[u8], fields: Record) -> Result<Record, NoMemory>
    requires there { is_some (value_at verb.now.field fields) ≡ true }
    requires distinct { are_distinct (keys_of fields) ≡ true }
    ensures { IfOk result (λ made. made ≡ replaced verb.now.field
        (across_records verb.now.field verb.now.pair_separator piece.now ∷ []) fields) }
{
    let field = verb.field.as_slice();
    match &verb.pair_separator {
        Some(between) => {
            let (name, text) = pair_of_piece(field, between.as_slice(), piece);
            with_pair(verb.alloc, field, name, text, fields)
        }
        None => with_value(verb.alloc, field, piece, fields),
    }
}

/// A record with this pair in the place of the field.
fn with_pair(
    alloc: Global,
    field: &[u8],
    name: &[u8],
    text: &[u8],
    fields: Record,
) -> Result<Record, NoMemory>
    requires there { is_some (value_at field.now fields) ≡ true }
    requires distinct { are_distinct (keys_of fields) ≡ true }
    ensures { IfOk result (λ made. made ≡ replaced field.now
        ((name.now, text_value text.now) ∷ []) fields) }
{
    if name == field {
        return with_value(alloc, field, text, fields);
    }
    let mut made = Fields::new(Record::new(alloc)?);
    put_fields(alloc, field, name, text, fields.into_fields(), &mut made)?;
    Ok(made.into_record())
}

/// A record with this text as the value of the field.
fn with_value(alloc: Global, field: &[u8], text: &[u8], fields: Record) -> Result<Record, NoMemory>
    requires there { is_some (value_at field.now fields) ≡ true }
    requires distinct { are_distinct (keys_of fields) ≡ true }
    ensures { IfOk result (λ made. made ≡ replaced field.now
        ((field.now, text_value text.now) ∷ []) fields) }
{
    let mut made = fields;
    made.put(field, copied_value(alloc, text)?)?;
    Ok(made)
}

/// Puts each field into a record, and a pair in the place of the named one.
fn put_fields(
    alloc: Global,
    field: &[u8],
    name: &[u8],
    text: &[u8],
    fields: Vec<Field>,
    into: &mut Fields,
) -> Result<(), NoMemory>
    ensures { OnOk result (into.new ≡ put_each into.old (flat_map
        (in_place field.now ((name.now, text_value text.now) ∷ [])) (pairs_of fields.items))) }
{
    for other in fields {
        if other.name.as_slice() == field {
            put_text(alloc, name, text, into)?;
        } else {
            put_field(alloc, other, into)?;
        }
    }
    Ok(())
}
