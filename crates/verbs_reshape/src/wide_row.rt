//! The record of a group, which is built as its records come.
ghost use Rattle.std.specs.Prelude.{◌≡◌, [], IfOk};
ghost use Rattle.std.specs.Option.{option_map, option_to_list};
ghost use Rattle.mlr_record.specs.Fields.{pair_of};
ghost use Rattle.mlr_spec.specs.Pairs.{put_each, value_at};
ghost use Rattle.mlr_value.specs.Value.{tree_of};
ghost use Rattle.text_forms.specs.Shown.{shown};
ghost use Rattle.verbs_base.specs.Choosing.{dropped};
ghost use Rattle.verbs_reshape.specs.ToWide.{both, pair_in, paired, wide};

use crate::to_wide::ToWide;
use group_state::{AtEnd, OfGroup};
use mlr_event::{Ctx, Event, Events};
use mlr_fields::{Fields, few};
use mlr_record::{Field, Record};
use mlr_spec::NoMemory;
use mlr_value::Bytes;
use std::alloc::Global;
use text_forms::shown;
use verbs_base::take_field;

/// The record of a group so far: the other fields of its first record, and a field for each key.
#[derive(Drop)]
pub(crate) struct WideRow {
    options: ToWide,
    made: Option<Fields>,
}

impl WideRow {
    /// The record of no records yet. It doesn't allocate.
    pub(crate) fn new(options: ToWide) -> Self
        ensures gives { ⟦<WideRow as AtEnd>⟧.gives result ≡ wide options }
        ensures holds { ⟦<WideRow as AtEnd>⟧.holds result [] }
    {
        WideRow {
            options,
            made: None,
        }
    }
}

impl AtEnd for WideRow {
    ghost use Rattle.std.specs.Prelude.{◌≡◌};
    ghost use Rattle.verbs_reshape.specs.ToWide.{wide, wide_record};

    ghost gives = { λ s. wide s.options };

    ghost holds = { λ s rows. s.made ≡ wide_record s.options rows };

    fn add(&mut self, alloc: Global, fields: Record, _: Ctx) -> Result<(), NoMemory> {
        let Parted { others, pair } = part(alloc, &self.options, fields)?;
        let made = match self.made.take() {
            Some(made) => made,
            None => Fields::new(others),
        };
        self.made = Some(with_pair(alloc, pair, made)?);
        Ok(())
    }

    fn finish(&mut self, _: Global, ctx: Ctx, out: &mut Events) -> Result<(), NoMemory> {
        match self.made.take() {
            Some(made) => out.push(Event::Rec(made.into_record(), ctx)),
            None => Ok(()),
        }
    }
}

impl OfGroup for WideRow {
    fn fresh(&self, alloc: Global) -> Result<Self, NoMemory> {
        Ok(WideRow::new(self.options.copy(alloc)?))
    }
}

/// The parts of a record: the other fields, and, if it has both fields, the text of its key with its value.
#[derive(Drop)]
struct Parted {
    others: Record,
    pair: Option<Field>,
}

/// Parts a record. It copies the text of the key.
fn part(alloc: Global, options: &ToWide, fields: Record) -> Result<Parted, NoMemory>
    ensures others { IfOk result (λ parted. parted.others ≡ dropped (both options.now) fields) }
    ensures pair { IfOk result (λ parted. option_map pair_of parted.pair
        ≡ pair_in options.now fields) }
{
    let text = key_text(alloc, options, &fields)?;
    let mut others = fields.into_fields();
    let value = take_field(&mut others, &options.value);
    drop(take_field(&mut others, &options.key));
    Ok(Parted {
        others: Record::of_fields(alloc, others),
        pair: paired(text, value),
    })
}

/// The text of a record's key, if it has one.
fn key_text(alloc: Global, options: &ToWide, fields: &Record) -> Result<Option<Bytes>, NoMemory>
    ensures { IfOk result (λ text. text
        ≡ option_map shown (value_at options.now.key fields.now)) }
{
    match fields.get(options.key.as_slice()) {
        Some(key) => Ok(Some(shown(alloc, key)?)),
        None => Ok(None),
    }
}

/// A field of this name with the value of another, if both are there.
fn paired(name: Option<Bytes>, field: Option<Field>) -> Option<Field>
    ensures { option_map pair_of result
        ≡ paired name (option_map (λ field. tree_of field.value) field) }
{
    match (name, field) {
        (Some(name), Some(Field { name: _, value })) => Some(Field { name, value }),
        _ => None,
    }
}

/// The record of a group with one more pair, if there is one.
fn with_pair(alloc: Global, pair: Option<Field>, made: Fields) -> Result<Fields, NoMemory>
    ensures { IfOk result (λ all. all ≡ put_each made
        (option_to_list (option_map pair_of pair))) }
{
    let mut made = made;
    if let Some(Field { name, value }) = pair {
        few(made.len())?;
        made.put(alloc, name.as_slice(), value, false)?;
    }
    Ok(made)
}
