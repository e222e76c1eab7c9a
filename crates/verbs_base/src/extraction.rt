//! Removes fields by name from a list, or moves them in it.
ghost use Rattle.std.specs.Prelude.{◌≡◌, ◌++◌, true, length, take, drop, vec_len, ◌+◌, ◌-◌, ◌<◌, ◌≤◌};
ghost use Rattle.std.specs.Option.{is_some, option_map};
ghost use Rattle.mlr_spec.specs.Pairs.{remove_at, keys_of, are_distinct};
ghost use Rattle.mlr_record.specs.Fields.{IsPlaceOf, pair_of, pairs_of};
ghost use Rattle.verbs_base.specs.Choosing.{named, picked, dropped};
ghost use Rattle.verbs_base.specs.Placing.{IsPlaced, IsPlacedLast};

use mlr_record::Field;
use mlr_value::Bytes;
use std::mem::forget;

/// Removes the field of this name, if there is one, and returns it.
pub fn take_field(fields: &mut Vec<Field>, name: &Bytes) -> Option<Field>
    ensures taken { option_map pair_of result ≡ named (pairs_of fields.old.items) name.now }
    ensures left { pairs_of fields.new.items ≡ remove_at name.now (pairs_of fields.old.items) }
{
    let place = place_of(fields, name)?;
    Some(fields.remove(place))
}

/// The place of the field with this name, if there is one. It takes no memory.
#[inline(always)]
pub fn place_of(fields: &[Field], name: &Bytes) -> Option<usize>
    ensures { IsPlaceOf name.now fields.now result }
{
    for (place, field) in fields.iter().enumerate() {
        if field.name.is(name) {
            return Some(place);
        }
    }
    None
}

/// Moves the named fields to the start, in the order of the names, and returns how many they are. A name that repeats
/// counts once. It doesn't allocate.
pub fn move_named(names: &[Bytes], fields: &mut [Field]) -> usize
    requires { are_distinct (keys_of (pairs_of fields.old)) ≡ true }
    ensures count { result ≡ length (picked names.now (pairs_of fields.old)) }
    ensures moved { pairs_of fields.new ≡ picked names.now (pairs_of fields.old)
        ++ dropped names.now (pairs_of fields.old) }
{
    place_named(names, fields, true)
}

/// Swaps the named fields to the start, in the order of the names, and returns how many they are. The others follow in any
/// order. A name that repeats counts once. It doesn't allocate.
pub(crate) fn swap_named(names: &[Bytes], fields: &mut [Field]) -> usize
    requires { are_distinct (keys_of (pairs_of fields.old)) ≡ true }
    ensures count { result ≡ length (picked names.now (pairs_of fields.old)) }
    ensures swapped { take result (pairs_of fields.new) ≡ picked names.now (pairs_of fields.old) }
{
    place_named(names, fields, false)
}

/// Places the named fields at the start, in the order of the names, and returns how many they are. The others keep their
/// order, if that is asked.
#[inline(always)]
fn place_named(names: &[Bytes], fields: &mut [Field], keeps_order: bool) -> usize
    requires { are_distinct (keys_of (pairs_of fields.old)) ≡ true }
    ensures count { result ≡ length (picked names.now (pairs_of fields.old)) }
    ensures first { take result (pairs_of fields.new) ≡ picked names.now (pairs_of fields.old) }
    ensures kept { keeps_order ≡ true → drop result (pairs_of fields.new)
        ≡ dropped names.now (pairs_of fields.old) }
{
    let mut count = 0;
    for name in names {
        if place_first(&mut fields[count..], name, keeps_order) {
            count += 1;
        }
    }
    count
}

/// Places the field of this name at the start, if there is one, and returns whether there is one. The others keep their
/// order, if that is asked, and otherwise the first one takes its place.
#[inline(always)]
#[tactic(auto, using(crate::proofs::Moving::found_some))]
fn place_first(fields: &mut [Field], name: &Bytes, keeps_order: bool) -> bool
    requires { are_distinct (keys_of (pairs_of fields.old)) ≡ true }
    ensures found { result ≡ is_some (named (pairs_of fields.old) name.now) }
    ensures placed { IsPlaced keeps_order name.now (pairs_of fields.old) (pairs_of fields.new) }
{
    let Some(place) = place_of(fields, name) else {
        return false;
    };
    if keeps_order {
        fields[..place + 1].rotate_right(1);
    } else {
        fields.swap(0, place);
    }
    true
}

/// Moves the named fields to the end, in the order of the names. A name that repeats counts once. It doesn't allocate.
pub fn move_named_last(names: &[Bytes], fields: &mut [Field])
    requires { are_distinct (keys_of (pairs_of fields.old)) ≡ true }
    ensures { pairs_of fields.new ≡ dropped names.now (pairs_of fields.old)
        ++ picked names.now (pairs_of fields.old) }
{
    let mut rest = fields.len();
    for name in names {
        if place_last(fields, rest, name) {
            rest -= 1;
        }
    }
}

/// Places the field of this name, if it is among the first `rest`, at the end, and returns whether it is among them.
#[inline(always)]
fn place_last(fields: &mut [Field], rest: usize, name: &Bytes) -> bool
    requires within { rest ≤ length fields.old }
    requires distinct { are_distinct (keys_of (take rest (pairs_of fields.old))) ≡ true }
    ensures placed { IsPlacedLast rest name.now (pairs_of fields.old) result (pairs_of fields.new) }
    ensures len { length fields.new ≡ length fields.old }
{
    let Some(place) = place_of(&fields[..rest], name) else {
        return false;
    };
    fields[place..].rotate_left(1);
    true
}

/// Drops the fields after the first `count`. Most hold no memory, and then nothing has to be done.
pub(crate) fn drop_after(fields: &mut Vec<Field>, count: usize)
    ensures { fields.new.items ≡ take count fields.old.items }
{
    while fields.len() > count {
        drop_last(fields);
    }
}

/// Drops the last field.
#[inline(always)]
fn drop_last(fields: &mut Vec<Field>)
    requires { 0 < vec_len fields.old }
    ensures left { fields.new.items ≡ take (vec_len fields.old - 1) fields.old.items }
    ensures len { vec_len fields.new + 1 ≡ vec_len fields.old }
{
    match fields.last() {
        Some(field) if field.name.holds_memory() || field.value.holds_memory() => drop(
            fields.pop(),
        ),
        _ => forget(fields.pop()),
    }
}
