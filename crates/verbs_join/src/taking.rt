//! Pairs that take the right record, so that its fields are moved where they can be.
ghost use Rattle.std.specs.Prelude.{◌≡◌, ◌++◌, [], ℕ, List, Some, map, true, false, IfOk, OnOk};
ghost use Rattle.mlr_event.specs.Reading.{is_among};
ghost use Rattle.mlr_spec.specs.Pairs.{are_distinct, keys_of, put_each};
ghost use Rattle.verbs_base.specs.Choosing.{dropped};
ghost use Rattle.verbs_base.specs.Records.{Fields as Pairs, with_context};
ghost use Rattle.verbs_join.specs.Join.{joined, pair_of};
ghost use Rattle.verbs_join.specs.Places.{at_places};
ghost use Rattle.verbs_join.specs.Sharing.{shares_name};

use crate::join::Join;
use crate::naming::{FEW, Naming};
use crate::pairing::{pair, push_copied, put_joined, put_others, record_at};
use mlr_event::{Ctx, Event, Events, Names};
use mlr_fields::Fields;
use mlr_record::Record;
use mlr_spec::NoMemory;
use std::alloc::Global;
use verbs_base::{drop_named, is_named};

/// Appends the pairs of the left records at these places with a right one, with this context. The last pair takes the right
/// record.
pub(crate) fn push_pairs(
    alloc: Global,
    options: &Join,
    lefts: &[Record],
    places: &[usize],
    right: Record,
    ctx: Ctx,
    out: &mut Events,
) -> Result<(), NoMemory>
    requires { (found : List Pairs) × at_places lefts.now places.now ≡ map Some found }
    ensures { OnOk result ((found : List Pairs) → at_places lefts.now places.now ≡ map Some found
        → out.new ≡ out.old ++ with_context ctx
        (map (λ left. pair_of options.now left right) found)) }
{
    let Some((last, others)) = places.split_last() else {
        return Ok(());
    };
    push_copied(alloc, options, lefts, others, &right, ctx, out)?;
    let made = pair_taking(alloc, options, record_at(lefts, *last), right)?;
    out.push(Event::Rec(made, ctx))?;
    Ok(())
}

/// The pair of a left record and a right one, whose fields are moved where no two names are equal.
fn pair_taking(
    alloc: Global,
    options: &Join,
    left: &Record,
    right: Record,
) -> Result<Record, NoMemory>
    ensures { IfOk result (λ made. made ≡ pair_of options.now left.now right) }
{
    let made = left_part(alloc, options, left)?;
    if made.len() >= FEW || shares_name(&made, &options.right, &right) {
        return pair(alloc, options, left, &right);
    }
    followed_by(made, drop_named(&options.right, right))
}

/// The join fields of a pair and the left record's other fields, by their own names.
fn left_part(alloc: Global, options: &Join, left: &Record) -> Result<Record, NoMemory>
    ensures { IfOk result (λ made. made ≡ put_each [] (joined options.now left.now
        ++ dropped options.now.left left.now)) }
{
    let mut made = Fields::new(Record::new(alloc)?);
    put_joined(alloc, options, left, &mut made)?;
    put_others(alloc, &options.left, &Naming::Plain, left, &mut made)?;
    Ok(made.into_record())
}

/// Whether a record has the name of a field that another has outside its join fields.
fn shares_name(made: &Record, join: &Names, other: &Record) -> bool
    ensures { result ≡ shares_name made.now join.now other.now }
{
    for field in other.fields() {
        if !is_named(join, &field.name) && made.get(field.name.as_slice()).is_some() {
            return true;
        }
    }
    false
}

/// A record with the fields of another, which has none of its names, after its own.
fn followed_by(made: Record, rest: Record) -> Result<Record, NoMemory>
    requires { (name : List ℕ) → is_among (keys_of made) name ≡ true
        → is_among (keys_of rest) name ≡ false }
    ensures fields { IfOk result (λ all. all ≡ made ++ rest) }
    ensures distinct { are_distinct (keys_of (made ++ rest)) ≡ true }
{
    let mut fields = made.into_fields();
    let alloc = *fields.allocator();
    fields.append(&mut rest.into_fields())?;
    Ok(Record::of_fields(alloc, fields))
}
