//! `reshape` to wide: a record for each group of records that are equal in all other fields.
ghost use Rattle.std.specs.Prelude.{◌≡◌, ◌++◌, ◌∷◌, [], List, IfOk, OnOk};
ghost use Rattle.mlr_event.specs.declared.event.Ctx.{Ctx as SpecCtx};
ghost use Rattle.mlr_groups.specs.Keys.{entered};
ghost use Rattle.mlr_value.specs.Value.{tree_of};
ghost use Rattle.text_forms.specs.Shown.{shown};
ghost use Rattle.verbs_base.specs.Records.{Row};
ghost use Rattle.verbs_reshape.specs.ToWide.{both, keys_in, to_wide};

use crate::filling::push_filled;
use crate::wide_row::WideRow;
use group_state::OfGroupsOrPass;
use mlr_event::{Ctx, Events, Names};
use mlr_groups::{GroupBy, KeyTable};
use mlr_record::Record;
use mlr_spec::NoMemory;
use mlr_value::{Bytes, Value};
use std::alloc::Global;
use text_forms::shown;
use verbs_base::Stateful;

/// The options of `reshape` with `-s`.
#[derive(Drop)]
pub struct ToWide {
    /// The field whose texts become names.
    pub key: Bytes,
    /// The field whose values they get.
    pub value: Bytes,
}

impl ToWide {
    /// A copy. It allocates for a text of more than 20 bytes.
    pub fn copy(&self, alloc: Global) -> Result<Self, NoMemory>
        ensures { IfOk result (λ copy. copy ≡ self.now) }
    {
        Ok(ToWide {
            key: Bytes::copy_of(alloc, self.key.as_slice())?,
            value: Bytes::copy_of(alloc, self.value.as_slice())?,
        })
    }

    /// The names of the two fields.
    fn both(&self, alloc: Global) -> Result<Names, NoMemory>
        ensures { IfOk result (λ names. names ≡ both self.now) }
    {
        let mut names = Names::new(alloc);
        names.push(Bytes::copy_of(alloc, self.key.as_slice())?)?;
        names.push(Bytes::copy_of(alloc, self.value.as_slice())?)?;
        Ok(names)
    }
}

/// The verb `reshape` with `-s`.
#[derive(Drop)]
pub struct ToWideVerb {
    alloc: Global,
    options: ToWide,
    /// The keys of all groups, in the order in which they came first.
    keys: KeyTable,
    groups: OfGroupsOrPass<WideRow>,
}

impl ToWideVerb {
    /// The verb with these options, before the first record. It allocates for names.
    pub fn new(alloc: Global, options: ToWide) -> Result<Self, NoMemory>
        ensures meaning { IfOk result (λ made. ⟦<ToWideVerb as Stateful>⟧.meaning made
            ≡ to_wide options) }
        ensures represents { IfOk result (λ made. ⟦<ToWideVerb as Stateful>⟧.represents made []) }
    {
        let by = GroupBy::Others(options.both(alloc)?);
        let none = WideRow::new(options.copy(alloc)?);
        Ok(ToWideVerb {
            alloc,
            options,
            keys: KeyTable::new(alloc),
            groups: OfGroupsOrPass::new(alloc, by, none),
        })
    }
}

impl Stateful for ToWideVerb {
    ghost use Rattle.std.specs.Prelude.{◌≡◌};
    ghost use Rattle.verbs_base.specs.Laws.{never-shuts};
    ghost use Rattle.verbs_reshape.specs.ToWide.{filled_rows, keys_in, with_keys};

    ghost meaning = { λ s. with_keys (keys_in s.options)
        (⟦<OfGroupsOrPass<WideRow> as Stateful>⟧.meaning s.groups) };

    ghost represents = { λ s before. (s.keys ≡ keys_in s.options before)
        × ⟦<OfGroupsOrPass<WideRow> as Stateful>⟧.represents s.groups before };

    ghost shuts = { λ s. never-shuts
        (⟦<OfGroupsOrPass<WideRow> as Stateful>⟧.meaning s.groups).gives
        (λ rows ctx. filled_rows (keys_in s.options rows)
        ((⟦<OfGroupsOrPass<WideRow> as Stateful>⟧.meaning s.groups).late rows ctx)) };

    fn take(&mut self, fields: Record, ctx: Ctx, out: &mut Events) -> Result<(), NoMemory> {
        enter_key(self.alloc, &self.options, &fields, &mut self.keys)?;
        self.groups.take(fields, ctx, out)
    }

    fn finish(&mut self, ctx: Ctx, out: &mut Events) -> Result<(), NoMemory> {
        let mut made = Events::new(self.alloc);
        self.groups.finish(ctx, &mut made)?;
        push_filled(self.alloc, &self.keys, made, out)
    }

    fn is_shut(&self) -> bool {
        false
    }

    fn never_shuts(&self) -> bool {
        true
    }
}

/// Adds the key of a record to the keys, if the record has both fields.
fn enter_key(
    alloc: Global,
    options: &ToWide,
    fields: &Record,
    keys: &mut KeyTable,
) -> Result<(), NoMemory>
    ensures { OnOk result ((rows : List Row) (ctx : SpecCtx) → keys.old ≡ keys_in options.now rows
        → keys.new ≡ keys_in options.now (rows ++ (fields.now, ctx) ∷ [])) }
{
    let Some(key) = fields.get(options.key.as_slice()) else {
        return Ok(());
    };
    if fields.get(options.value.as_slice()).is_none() {
        return Ok(());
    }
    enter_shown(alloc, key, keys)
}

/// Adds the text of a value to the keys.
fn enter_shown(alloc: Global, key: &Value, keys: &mut KeyTable) -> Result<(), NoMemory>
    ensures { OnOk result (keys.new ≡ entered keys.old (shown (tree_of key.now))) }
{
    let text = shown(alloc, key)?;
    keys.enter(text.as_slice())?;
    Ok(())
}
