//! `fill-down`: fills fields with the last values of earlier records.
ghost use Rattle.std.specs.Prelude.{◌≡◌, ◌++◌, ◌∷◌, [], List, Some, true, IfOk, OnOk, length, map, vec_len};
ghost use Rattle.std.specs.List.{fold};
ghost use Rattle.std.specs.Option.{option_map, option_or};
ghost use Rattle.mlr_value.specs.Value.{tree_of};
ghost use Rattle.verbs_base.specs.Records.{Fields};
ghost use Rattle.verbs_state.specs.FillDown.{KeepsLast, fill_down, filled, is_wanting, last_carried, carried};

use mlr_event::{Ctx, Event, Events, Names};
use mlr_record::Record;
use mlr_spec::NoMemory;
use mlr_value::Value;
use std::alloc::Global;
use std::mem::replace;
use verbs_base::Stateful;

/// The options of `fill-down`.
#[derive(Drop)]
pub struct FillDown {
    pub names: Names,
    /// Whether the fields to fill are those that are present and empty, rather than those that are absent.
    pub blank: bool,
}

impl FillDown {
    /// A copy. It allocates for the names.
    pub fn copy(&self, _: Global) -> Result<Self, NoMemory>
        ensures { IfOk result (λ copy. copy ≡ self.now) }
    {
        Ok(FillDown {
            names: self.names.copy()?,
            blank: self.blank,
        })
    }
}

/// The verb `fill-down`, which keeps the last value of each named field.
#[derive(Drop)]
pub struct FillDownVerb {
    alloc: Global,
    options: FillDown,
    kept: Vec<Option<Value>>,
}

impl FillDownVerb {
    /// The verb with these options, before the first record. It allocates room for a value for each name.
    pub fn new(alloc: Global, options: FillDown) -> Result<Self, NoMemory>
        ensures meaning { IfOk result (λ made. ⟦<FillDownVerb as Stateful>⟧.meaning made
            ≡ fill_down options) }
        ensures represents { IfOk result (λ made. ⟦<FillDownVerb as Stateful>⟧.represents made []) }
    {
        let count = options.names.len();
        let mut kept = Vec::with_capacity(alloc, count)?;
        for _ in 0..count {
            kept.push(None)?;
        }
        Ok(FillDownVerb {
            alloc,
            options,
            kept,
        })
    }
}

impl Stateful for FillDownVerb {
    ghost use Rattle.verbs_base.specs.Laws.{stream-shuts};
    ghost use Rattle.verbs_base.specs.Records.{records};
    ghost use Rattle.verbs_state.specs.FillDown.{FillDownRepresents, fill_down, fill_down_gives};

    ghost meaning = { λ s. fill_down s.options };

    ghost represents = { λ s before. FillDownRepresents s (records before) };

    ghost shuts = { λ s. stream-shuts (fill_down_gives s.options) };

    fn take(&mut self, fields: Record, ctx: Ctx, out: &mut Events) -> Result<(), NoMemory> {
        let mut fields = fields;
        fill_each(self.alloc, &self.options, &mut self.kept, &mut fields)?;
        out.push(Event::Rec(fields, ctx))
    }

    fn finish(&mut self, _: Ctx, _: &mut Events) -> Result<(), NoMemory> {
        Ok(())
    }

    fn is_shut(&self) -> bool {
        false
    }

    fn never_shuts(&self) -> bool {
        true
    }
}

/// Fills the named fields in turn, and keeps the values that the record had before.
fn fill_each(
    alloc: Global,
    options: &FillDown,
    kept: &mut [Option<Value>],
    fields: &mut Record,
) -> Result<(), NoMemory>
    requires { length kept.old ≡ length options.now.names }
    ensures fields { OnOk result ((before : List Fields) → KeepsLast options.now kept.old before
        → fields.new ≡ fold (filled options.now.blank before) fields.old options.now.names) }
    ensures kept { OnOk result ((before : List Fields) → KeepsLast options.now kept.old before
        → KeepsLast options.now kept.new (before ++ fields.old ∷ [])) }
    ensures length { length kept.new ≡ length kept.old }
{
    for (place, name) in options.names.as_slice().iter().enumerate() {
        fill(
            alloc,
            options.blank,
            name.as_slice(),
            &mut kept[place],
            fields,
        )?;
    }
    Ok(())
}

/// Fills the field of this name with the kept value if it needs one; otherwise keeps its value. A name may
/// repeat: a value that was filled in under it is the one that is kept already.
fn fill(
    alloc: Global,
    blank: bool,
    name: &[u8],
    kept: &mut Option<Value>,
    fields: &mut Record,
) -> Result<(), NoMemory>
    ensures fields { OnOk result ((before : List Fields)
        → option_map tree_of kept.old ≡ last_carried blank name.now before
        → fields.new ≡ filled blank before fields.old name.now) }
    ensures kept { OnOk result (option_map tree_of kept.new
        ≡ option_or (carried blank name.now fields.old) (option_map tree_of kept.old)) }
{
    if !keep(alloc, blank, name, fields, kept)? {
        return Ok(());
    }
    match kept {
        Some(value) => fields.put(name, value.copy(alloc)?),
        None => Ok(()),
    }
}

/// Keeps the value of the field with this name, and returns whether the field needs to be filled instead.
fn keep(
    alloc: Global,
    blank: bool,
    name: &[u8],
    fields: &Record,
    kept: &mut Option<Value>,
) -> Result<bool, NoMemory>
    ensures wants { IfOk result (λ wants. wants ≡ is_wanting blank name.now fields.now) }
    ensures kept { OnOk result (option_map tree_of kept.new
        ≡ option_or (carried blank name.now fields.now) (option_map tree_of kept.old)) }
    ensures wanting { IfOk result (λ wants. wants ≡ true → kept.new ≡ kept.old) }
{
    match fields.get(name) {
        None => Ok(!blank),
        Some(Value::Empty) if blank => Ok(true),
        Some(value) if holds_text(kept, value) => Ok(false),
        Some(value) => {
            replace(kept, Some(value.copy(alloc)?));
            Ok(false)
        }
    }
}

/// Whether the kept value is a string of the same bytes. Other values are copied as fast as they are
/// compared.
fn holds_text(kept: &Option<Value>, value: &Value) -> bool
    ensures { result ≡ true → option_map tree_of kept.now ≡ Some (tree_of value.now) }
{
    match (kept, value) {
        (Some(Value::Str(text)), Value::Str(other)) => text == other,
        _ => false,
    }
}
