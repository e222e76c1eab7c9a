//! The fields that a record gets.
ghost use Rattle.std.specs.Prelude.{◌≡◌, ◌++◌, ◌∷◌, [], List, IfOk, OnOk, length, map};
ghost use Rattle.std.specs.Option.{option_map};
ghost use Rattle.mlr_spec.specs.Pairs.{put_each};
ghost use Rattle.mlr_value.specs.Value.{tree_of};
ghost use Rattle.stat_base.specs.declared.stepper.Stepper.{Stepper};
ghost use Rattle.verbs_base.specs.Records.{Fields};
ghost use Rattle.verbs_step.specs.Kept.{kept, kept_after, made_from};
ghost use Rattle.verbs_step.specs.Made.{kept_by, made_by, made_in, named, outputs_of, present_at, trees_of};
ghost use Rattle.verbs_step.specs.Represents.{kept_for, kept_in, kept_of_group};
ghost use Rattle.verbs_step.specs.Step.{with_steps};

use crate::step::Step;
use crate::track::Track;
use mlr_record::Record;
use mlr_spec::NoMemory;
use mlr_value::{Bytes, Value};
use std::alloc::Global;

/// Puts the fields that are made of the named fields into a record, and keeps its values in the tracks of its
/// group.
pub(crate) fn add_steps(
    alloc: Global,
    options: &Step,
    outputs: &[Bytes],
    tracks: &mut [Vec<Track>],
    made: &mut Vec<Option<Value>>,
    fields: &mut Record,
) -> Result<(), NoMemory>
    requires { (outputs.now ≡ outputs_of options.now) × (before : List Fields)
        × (kept_in tracks.old ≡ kept_of_group options.now before) }
    ensures fields { OnOk result ((before : List Fields)
        → kept_in tracks.old ≡ kept_of_group options.now before
        → fields.new ≡ with_steps options.now before fields.old) }
    ensures kept { OnOk result ((before : List Fields)
        → kept_in tracks.old ≡ kept_of_group options.now before
        → kept_in tracks.new ≡ kept_of_group options.now (before ++ fields.old ∷ [])) }
{
    made.clear();
    make_each(alloc, options.names.as_slice(), fields, tracks, made)?;
    put_all(outputs, made, fields)
}

/// Appends what each named field makes, and keeps its value.
fn make_each(
    alloc: Global,
    names: &[Bytes],
    fields: &Record,
    tracks: &mut [Vec<Track>],
    made: &mut Vec<Option<Value>>,
) -> Result<(), NoMemory>
    requires { length tracks.old ≡ length names.now }
    ensures made { OnOk result ((steppers : List Stepper) (before : List Fields)
        → kept_in tracks.old ≡ kept_for steppers names.now before
        → trees_of made.new.items
        ≡ trees_of made.old.items ++ made_in steppers names.now before fields.now) }
    ensures kept { OnOk result ((steppers : List Stepper) (before : List Fields)
        → kept_in tracks.old ≡ kept_for steppers names.now before
        → kept_in tracks.new ≡ kept_for steppers names.now (before ++ fields.now ∷ [])) }
{
    for (place, name) in names.iter().enumerate() {
        make(alloc, fields, name.as_slice(), &mut tracks[place], made)?;
    }
    Ok(())
}

/// Appends what a field makes, and keeps its value. An absent value and an empty one make nothing and aren't
/// kept.
fn make(
    alloc: Global,
    fields: &Record,
    name: &[u8],
    tracks: &mut [Track],
    made: &mut Vec<Option<Value>>,
) -> Result<(), NoMemory>
    ensures made { OnOk result (trees_of made.new.items
        ≡ trees_of made.old.items
        ++ made_by (present_at name.now fields.now) (map kept tracks.old)) }
    ensures kept { OnOk result (map kept tracks.new
        ≡ kept_by (present_at name.now fields.now) (map kept tracks.old)) }
{
    match present(fields, name) {
        Some(value) => step_all(alloc, value, tracks, made),
        None => skip_all(tracks, made),
    }
}

/// The value of this name, if it isn't empty.
fn present<'a>(fields: &'a Record, name: &[u8]) -> Option<&'a Value>
    ensures { option_map (λ value. tree_of value.now) result ≡ present_at name.now fields.now }
{
    match fields.get(name) {
        Some(Value::Empty) => None,
        found => found,
    }
}

/// Appends what each stepper makes of a value, and keeps the value.
fn step_all(
    alloc: Global,
    value: &Value,
    tracks: &mut [Track],
    made: &mut Vec<Option<Value>>,
) -> Result<(), NoMemory>
    ensures made { OnOk result (trees_of made.new.items
        ≡ trees_of made.old.items ++ made_by (Some (tree_of value.now)) (map kept tracks.old)) }
    ensures kept { OnOk result (map kept tracks.new
        ≡ kept_by (Some (tree_of value.now)) (map kept tracks.old)) }
{
    for track in tracks.iter_mut() {
        made.push(Some(track.step(alloc, value)?))?;
    }
    Ok(())
}

/// Appends that no stepper makes a value.
fn skip_all(tracks: &[Track], made: &mut Vec<Option<Value>>) -> Result<(), NoMemory>
    ensures { OnOk result (trees_of made.new.items
        ≡ trees_of made.old.items ++ made_by None (map kept tracks.now)) }
{
    for _ in tracks {
        made.push(None)?;
    }
    Ok(())
}

/// Puts the values that were made into a record, each under its name.
fn put_all(
    outputs: &[Bytes],
    made: &mut [Option<Value>],
    fields: &mut Record,
) -> Result<(), NoMemory>
    requires { length made.old ≡ length outputs.now }
    ensures { OnOk result (fields.new
        ≡ put_each fields.old (named outputs.now (trees_of made.old))) }
{
    for (place, output) in outputs.iter().enumerate() {
        put_made(output.as_slice(), &mut made[place], fields)?;
    }
    Ok(())
}

/// Puts a value under this name, if it was made.
fn put_made(name: &[u8], made: &mut Option<Value>, fields: &mut Record) -> Result<(), NoMemory>
    ensures { OnOk result (fields.new
        ≡ put_each fields.old (named (name.now ∷ []) (option_map tree_of made.old ∷ []))) }
{
    match made.take() {
        Some(value) => fields.put(name, value),
        None => Ok(()),
    }
}
