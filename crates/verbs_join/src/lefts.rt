//! The left records by the texts of their join fields.
ghost use Rattle.std.specs.Prelude.{◌≡◌, ◌<◌, ◌+◌, ◌++◌, ◌∷◌, [], ℕ, List, false, length, map, vec_len, Some, slice_get, IfOk, OnOk};
ghost use Rattle.std.specs.List.{list_any};
ghost use Rattle.mlr_groups.specs.Represents.{GroupsOf};
ghost use Rattle.mlr_groups.specs.declared.group_by.GroupBy.TheVariants.{Texts};
ghost use Rattle.verbs_base.specs.Records.{Fields, with_context};
ghost use Rattle.verbs_join.specs.Join.{lefts_in, pairs_with, unpaired};
ghost use Rattle.verbs_join.specs.Represents.{AreIndexed, HasPartners, LeftsOf};

use crate::join::Join;
use mlr_event::{Ctx, Event, Events};
use mlr_groups::{GroupBy, Groups};
use mlr_record::Record;
use mlr_spec::NoMemory;
use std::alloc::Global;

/// The left records by the texts of their join fields, and which of these texts came in a right record.
#[derive(Drop)]
pub(crate) struct Lefts {
    /// The left records in the order of their file.
    pub(crate) records: Vec<Record>,
    groups: Groups,
    /// For each group, its bucket: the places of its records.
    pub(crate) buckets: Vec<Vec<usize>>,
    /// For each group, whether its records have been paired.
    paired: Vec<bool>,
}

impl Lefts {
    /// The records of a left file, of which none has been paired. It allocates for an index of them.
    pub(crate) fn new(alloc: Global, options: &Join, left: Events) -> Result<Self, NoMemory>
        ensures records { IfOk result (λ made. made.records.items ≡ lefts_in left) }
        ensures lefts { IfOk result (λ made. LeftsOf options.now [] made) }
    {
        let records = records_in(alloc, left)?;
        let mut groups = Groups::new(alloc, GroupBy::Texts(options.left.copy()?));
        let buckets = buckets_of(alloc, &records, &mut groups)?;
        let paired = none_paired(alloc, &buckets)?;
        Ok(Lefts {
            records,
            groups,
            buckets,
            paired,
        })
    }

    /// The bucket of the left records that a right one pairs with, if there are any. It counts as paired then. It allocates
    /// for a key that is longer than those before.
    pub(crate) fn pair_with(
        &mut self,
        options: &Join,
        right: &Record,
    ) -> Result<Option<usize>, NoMemory>
        requires { (rights : List Fields) × LeftsOf options.now rights self.old }
        ensures records { self.new.records ≡ self.old.records }
        ensures lefts { OnOk result ((rights : List Fields) → LeftsOf options.now rights self.old
            → LeftsOf options.now (rights ++ right.now ∷ []) self.new) }
        ensures found { IfOk result (λ bucket. HasPartners options.now self.new right.now bucket) }
    {
        let Some(bucket) = self.groups.find(&options.right, right)? else {
            return Ok(None);
        };
        self.paired[bucket] = true;
        Ok(Some(bucket))
    }

    /// Appends the left records that weren't paired, with this context.
    pub(crate) fn push_unpaired(
        &mut self,
        options: &Join,
        ctx: Ctx,
        out: &mut Events,
    ) -> Result<(), NoMemory>
        requires { (rights : List Fields) × LeftsOf options.now rights self.old }
        ensures records { self.new.records ≡ self.old.records }
        ensures gives { OnOk result ((rights : List Fields) → LeftsOf options.now rights self.old
            → out.new ≡ out.old ++ with_context ctx
            (unpaired options.now self.old.records.items rights)) }
    {
        for place in 0..self.records.len() {
            self.push_unless_paired(options, place, ctx, out)?;
        }
        Ok(())
    }

    /// Appends the left record at a place, with this context, unless it has been paired.
    fn push_unless_paired(
        &mut self,
        options: &Join,
        place: usize,
        ctx: Ctx,
        out: &mut Events,
    ) -> Result<(), NoMemory>
        requires place { place < vec_len self.old.records }
        requires lefts { (rights : List Fields) × LeftsOf options.now rights self.old }
        ensures records { self.new.records ≡ self.old.records }
        ensures lefts { (rights : List Fields) → LeftsOf options.now rights self.old
            → LeftsOf options.now rights self.new }
        ensures gives { OnOk result ((rights : List Fields) (left : Fields)
            → LeftsOf options.now rights self.old
            → slice_get self.old.records.items place ≡ Some left
            → out.new ≡ out.old ++ with_context ctx (unpaired options.now (left ∷ []) rights)) }
    {
        if self.is_paired(options, place)? {
            return Ok(());
        }
        out.push(Event::Rec(self.records[place].copy()?, ctx))
    }

    /// Whether the left record at a place has been paired.
    fn is_paired(&mut self, options: &Join, place: usize) -> Result<bool, NoMemory>
        requires place { place < vec_len self.old.records }
        requires lefts { (rights : List Fields) × LeftsOf options.now rights self.old }
        ensures records { self.new.records ≡ self.old.records }
        ensures lefts { (rights : List Fields) → LeftsOf options.now rights self.old
            → LeftsOf options.now rights self.new }
        ensures paired { IfOk result (λ paired. (rights : List Fields) (left : Fields)
            → LeftsOf options.now rights self.old
            → slice_get self.old.records.items place ≡ Some left
            → paired ≡ list_any (pairs_with options.now left) rights) }
    {
        match self.groups.find(&options.left, &self.records[place])? {
            Some(group) => Ok(self.paired[group]),
            None => Ok(false),
        }
    }
}

/// The records among events, in their order.
fn records_in(alloc: Global, events: Events) -> Result<Vec<Record>, NoMemory>
    ensures { IfOk result (λ made. made.items ≡ lefts_in events) }
{
    let mut records = Vec::with_capacity(alloc, events.len())?;
    for event in events.into_vec() {
        if let Event::Rec(fields, _) = event {
            records.push(fields)?;
        }
    }
    Ok(records)
}

/// The places of the records of each group, where the groups are those of no records before.
fn buckets_of(
    alloc: Global,
    records: &[Record],
    groups: &mut Groups,
) -> Result<Vec<Vec<usize>>, NoMemory>
    ensures { IfOk result (λ buckets. (names : List (List ℕ))
        → GroupsOf (Texts names) [] groups.old
        → AreIndexed names records.now (length records.now) groups.new buckets.items) }
{
    let mut buckets = Vec::new(alloc);
    for place in 0..records.len() {
        enter(alloc, records, place, groups, &mut buckets)?;
    }
    Ok(buckets)
}

/// Enters the record at a place in the bucket of its group, if it is in one.
fn enter(
    alloc: Global,
    records: &[Record],
    place: usize,
    groups: &mut Groups,
    buckets: &mut Vec<Vec<usize>>,
) -> Result<(), NoMemory>
    requires { place < length records.now }
    ensures { OnOk result ((names : List (List ℕ))
        → AreIndexed names records.now place groups.old buckets.old.items
        → AreIndexed names records.now (place + 1) groups.new buckets.new.items) }
{
    let Some(group) = groups.enter(&records[place])? else {
        return Ok(());
    };
    if group < buckets.len() {
        buckets[group].push(place)?;
    } else {
        buckets.push(bucket_of(alloc, place)?)?;
    }
    Ok(())
}

/// The bucket of a group with one record.
fn bucket_of(alloc: Global, place: usize) -> Result<Vec<usize>, NoMemory>
    ensures { IfOk result (λ bucket. bucket.items ≡ place ∷ []) }
{
    let mut bucket = Vec::with_capacity(alloc, 1)?;
    bucket.push(place)?;
    Ok(bucket)
}

/// For each group, that its records haven't been paired.
fn none_paired(alloc: Global, buckets: &[Vec<usize>]) -> Result<Vec<bool>, NoMemory>
    ensures { IfOk result (λ paired. paired.items ≡ map (λ bucket. false) buckets.now) }
{
    let mut paired = Vec::with_capacity(alloc, buckets.len())?;
    for _ in buckets {
        paired.push(false)?;
    }
    Ok(paired)
}
