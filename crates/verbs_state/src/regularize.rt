//! `regularize`: gives records with the same names the same order of fields.
ghost use Rattle.std.specs.Prelude.{◌≡◌, ◌<◌, ◌++◌, ◌∷◌, [], true, List, ℕ, Some, IfOk, OnOk, length, map, slice_index_or};
ghost use Rattle.mlr_spec.specs.Pairs.{are_distinct, keys_of};
ghost use Rattle.mlr_groups.specs.Keys.{key_of};
ghost use Rattle.verbs_base.specs.Choosing.{picked};
ghost use Rattle.verbs_base.specs.Records.{Fields};
ghost use Rattle.verbs_fields.specs.Sorting.{by_name};
ghost use Rattle.verbs_state.specs.Regularize.{KeepsFirsts, regular, regularize};

use mlr_event::{Ctx, Event, Events, Names};
use mlr_groups::{KeyTable, append_text};
use mlr_record::Record;
use mlr_spec::NoMemory;
use mlr_value::Bytes;
use std::alloc::Global;
use verbs_base::{Stateful, pick_named};

/// The verb `regularize`, which has no options. It keeps the sets of names so far, and for each set the order of
/// the names in its first record.
#[derive(Drop)]
pub struct RegularizeVerb {
    alloc: Global,
    sets: KeyTable,
    orders: Vec<Names>,
    /// The place of the last record's set, which in most data is also the next record's.
    last: usize,
    key: Bytes,
}

impl RegularizeVerb {
    /// The verb before the first record. It doesn't allocate.
    pub fn new(alloc: Global) -> Self
        ensures meaning { ⟦<RegularizeVerb as Stateful>⟧.meaning result ≡ regularize }
        ensures represents { ⟦<RegularizeVerb as Stateful>⟧.represents result [] }
    {
        RegularizeVerb {
            alloc,
            sets: KeyTable::new(alloc),
            orders: Vec::new(alloc),
            last: 0,
            key: Bytes::new(alloc),
        }
    }
}

impl Stateful for RegularizeVerb {
    ghost use Rattle.verbs_base.specs.Laws.{stream-shuts};
    ghost use Rattle.verbs_base.specs.Records.{records};
    ghost use Rattle.verbs_state.specs.Regularize.{RegularizeRepresents, regularize};

    ghost meaning = { λ s. regularize };

    ghost represents = { λ s before. RegularizeRepresents s (records before) };

    ghost shuts = { λ s. stream-shuts regularize.gives };

    fn take(&mut self, fields: Record, ctx: Ctx, out: &mut Events) -> Result<(), NoMemory> {
        let (sets, orders, key) = (&mut self.sets, &mut self.orders, &mut self.key);
        let made = regular(self.alloc, fields, sets, orders, &mut self.last, key)?;
        out.push(Event::Rec(made, ctx))
    }

    fn finish(&mut self, _: Ctx, _: &mut Events) -> Result<(), NoMemory> {
        Ok(())
    }

    fn is_shut(&self) -> bool {
        false
    }

    fn never_shuts(&self) -> bool {
        true
    }
}

/// The fields in the order of the first record with the same names. `last` becomes the place of their set.
fn regular(
    alloc: Global,
    fields: Record,
    sets: &mut KeyTable,
    orders: &mut Vec<Names>,
    last: &mut usize,
    key: &mut Bytes,
) -> Result<Record, NoMemory>
    requires { (before : List Fields) × KeepsFirsts sets.old orders.old.items before }
    ensures made { IfOk result (λ made. (before : List Fields)
        → KeepsFirsts sets.old orders.old.items before → made ≡ regular before fields) }
    ensures keeps { OnOk result ((before : List Fields)
        → KeepsFirsts sets.old orders.old.items before
        → KeepsFirsts sets.new orders.new.items (before ++ fields ∷ [])) }
{
    match orders.get(*last) {
        Some(order) if are_names(order, &fields) => return Ok(fields),
        _ => {}
    }
    let place = enter(alloc, &fields, sets, orders, key)?;
    *last = place;
    let order = &orders[place];
    if are_names(order, &fields) {
        return Ok(fields);
    }
    Ok(pick_named(order, fields))
}

/// Whether these are the names of the record's fields, in their order.
fn are_names(names: &Names, fields: &Record) -> bool
    ensures names { result ≡ true → names.now ≡ keys_of fields.now }
    ensures distinct { are_distinct (keys_of fields.now) ≡ true }
{
    if names.len() != fields.len() {
        return false;
    }
    for (place, name) in names.as_slice().iter().enumerate() {
        if name.as_slice() != fields.entry(place).0 {
            return false;
        }
    }
    true
}

/// The place of the record's set of names, which is added at the end, with the record's order, if it is new.
fn enter(
    alloc: Global,
    fields: &Record,
    sets: &mut KeyTable,
    orders: &mut Vec<Names>,
    key: &mut Bytes,
) -> Result<usize, NoMemory>
    requires { (before : List Fields) × KeepsFirsts sets.old orders.old.items before }
    ensures place { IfOk result (λ place. place < length orders.new.items) }
    ensures order { IfOk result (λ place. (before : List Fields) (order : List (List ℕ))
        → KeepsFirsts sets.old orders.old.items before
        → regular before fields.now ≡ picked (slice_index_or orders.new.items place order)
        fields.now) }
    ensures keeps { OnOk result ((before : List Fields)
        → KeepsFirsts sets.old orders.old.items before
        → KeepsFirsts sets.new orders.new.items (before ++ fields.now ∷ [])) }
{
    key.clear();
    append_sorted(alloc, fields, key)?;
    let place = sets.enter(key.as_slice())?;
    if place >= orders.len() {
        orders.push(names_of(alloc, fields)?)?;
    }
    Ok(place)
}

/// The names of a record's fields.
fn names_of(alloc: Global, fields: &Record) -> Result<Names, NoMemory>
    ensures names { IfOk result (λ names. names ≡ keys_of fields.now) }
    ensures distinct { are_distinct (keys_of fields.now) ≡ true }
{
    let mut names = Names::new(alloc);
    for place in 0..fields.len() {
        names.push(Bytes::copy_of(alloc, fields.entry(place).0)?)?;
    }
    Ok(names)
}

/// Appends the key of the record's names, sorted by bytes, to `key`.
fn append_sorted(alloc: Global, fields: &Record, key: &mut Bytes) -> Result<(), NoMemory>
    ensures { OnOk result (key.new ≡ key.old ++ key_of (keys_of (by_name fields.now))) }
{
    let mut names = borrowed_names(alloc, fields)?;
    names.sort_unstable_by(|left, right| left.cmp(right));
    for name in &names {
        append_text(name, key)?;
    }
    Ok(())
}

/// The names of a record's fields, borrowed.
fn borrowed_names(alloc: Global, fields: &Record) -> Result<Vec<&[u8]>, NoMemory>
    ensures names { IfOk result (λ names. map (λ name. name.now) names.items ≡ keys_of fields.now) }
    ensures distinct { are_distinct (keys_of fields.now) ≡ true }
{
    let mut names = Vec::with_capacity(alloc, fields.len())?;
    for place in 0..fields.len() {
        names.push(fields.entry(place).0)?;
    }
    Ok(names)
}
