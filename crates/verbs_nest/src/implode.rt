//! `nest --implode`: one record of those that are equal in all other fields.
ghost use Rattle.std.specs.Prelude.{◌≡◌, ◌++◌, ◌∷◌, [], IfOk, OnOk};
ghost use Rattle.std.specs.Option.{option_map_or};
ghost use Rattle.mlr_spec.specs.Pairs.{value_at};
ghost use Rattle.mlr_groups.specs.declared.group_by.GroupBy.TheVariants.{Others};
ghost use Rattle.text_forms.specs.Shown.{shown};
ghost use Rattle.group_state.specs.AtEnd.{by_groups_or_pass};
ghost use Rattle.verbs_nest.specs.Implode.{imploded};

use group_state::{AtEnd, OfGroup, OfGroupsOrPass};
use mlr_event::{Ctx, Event, Events, Names};
use mlr_groups::GroupBy;
use mlr_record::Record;
use mlr_spec::NoMemory;
use mlr_value::Bytes;
use std::alloc::Global;
use std::mem::replace;
use text_forms::append_shown;
use verbs_base::{Stateful, string_of};

/// The first record of a group, and the texts of a field of all, joined.
#[derive(Drop)]
pub struct ImplodedRows {
    pub field: Bytes,
    pub separator: Bytes,
    pub first: Option<(Record, Ctx)>,
    pub text: Bytes,
}

/// The verb that implodes the values of a field, before the first record. It allocates for the field's name.
pub(crate) fn implode_verb(
    alloc: Global,
    field: Bytes,
    separator: Bytes,
) -> Result<OfGroupsOrPass<ImplodedRows>, NoMemory>
    ensures meaning { IfOk result (λ made. ⟦<OfGroupsOrPass<ImplodedRows> as Stateful>⟧.meaning made
        ≡ by_groups_or_pass (Others (field ∷ [])) (imploded field separator)) }
    ensures represents { IfOk result (λ made.
        ⟦<OfGroupsOrPass<ImplodedRows> as Stateful>⟧.represents made []) }
{
    let mut names = Names::new(alloc);
    names.push(Bytes::copy_of(alloc, field.as_slice())?)?;
    let none = ImplodedRows {
        field,
        separator,
        first: None,
        text: Bytes::new(alloc),
    };
    Ok(OfGroupsOrPass::new(alloc, GroupBy::Others(names), none))
}

impl AtEnd for ImplodedRows {
    ghost use Rattle.std.specs.Prelude.{◌≡◌, slice_get};
    ghost use Rattle.mlr_spec.specs.Json.{joined};
    ghost use Rattle.verbs_nest.specs.Implode.{imploded, texts_at};

    ghost gives = { λ s. imploded s.field s.separator };

    ghost holds = { λ s rows. (s.first ≡ slice_get rows 0)
        × (s.text ≡ joined s.separator (texts_at s.field rows)) };

    fn add(&mut self, _: Global, fields: Record, ctx: Ctx) -> Result<(), NoMemory> {
        if self.first.is_some() {
            self.text.append(self.separator.as_slice())?;
            append_text_at(self.field.as_slice(), &fields, &mut self.text)
        } else {
            append_text_at(self.field.as_slice(), &fields, &mut self.text)?;
            self.first = Some((fields, ctx));
            Ok(())
        }
    }

    fn finish(&mut self, alloc: Global, _: Ctx, out: &mut Events) -> Result<(), NoMemory> {
        match replace(&mut self.first, None) {
            Some((fields, ctx)) => {
                let text = replace(&mut self.text, Bytes::new(alloc));
                let mut fields = fields;
                fields.put(self.field.as_slice(), string_of(text))?;
                out.push(Event::Rec(fields, ctx))
            }
            None => Ok(()),
        }
    }
}

impl OfGroup for ImplodedRows {
    fn fresh(&self, alloc: Global) -> Result<Self, NoMemory> {
        Ok(ImplodedRows {
            field: Bytes::copy_of(alloc, self.field.as_slice())?,
            separator: Bytes::copy_of(alloc, self.separator.as_slice())?,
            first: None,
            text: Bytes::new(alloc),
        })
    }
}

/// Appends the text of a field, if the record has it.
fn append_text_at(name: &[u8], fields: &Record, out: &mut Bytes) -> Result<(), NoMemory>
    ensures { OnOk result (out.new ≡ out.old
        ++ option_map_or shown (value_at name.now fields.now) []) }
{
    match fields.get(name) {
        Some(value) => append_shown(value, out),
        None => Ok(()),
    }
}
