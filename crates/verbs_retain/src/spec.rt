//! The retaining verbs with their options.
ghost use Rattle.std.specs.Prelude.{◌≡◌, [], IfOk, IsOk};
ghost use Rattle.verbs_count.specs.Count.{count, counted_groups};
ghost use Rattle.verbs_count.specs.CountDistinct.{count_distinct};
ghost use Rattle.verbs_count.specs.Uniq.{uniq};
ghost use Rattle.verbs_hold.specs.Unsparsify.{unsparsify};
ghost use Rattle.verbs_retain.specs.Meaning.{IsShort, meaning_of};

use crate::running::Running;
use group_state::OfAll;
use mlr_event::Names;
use mlr_groups::GroupBy;
use mlr_spec::NoMemory;
use mlr_value::Bytes;
use std::alloc::Global;
use verbs_base::{Each, Stateful};
use verbs_count::{
    Count, CountDistinct, CountedFirst, Counting, Frequent, Uniq, UniqFirstVerb, UniqShow,
    group_count, group_number, record_count,
};
use verbs_hold::{
    CountSimilar, TacRows, Tail, Unsparsify, UnsparsifyFields, group_by_verb, group_like_verb,
    unsparsify_rows,
};
use verbs_sort::{Sort, SortRows};

/// A retaining verb, with its options as given on the command line.
pub enum Spec {
    /// Gives the number of records, or of groups.
    Count(Count),
    /// Gives the number of records of each list of texts.
    CountDistinct(CountDistinct),
    /// Gives the records group by group, each with the number of records of its group.
    CountSimilar(CountSimilar),
    /// Gives the records group by group, by the texts of these fields.
    GroupBy(Names),
    /// Gives the records group by group, by their names.
    GroupLike,
    /// Gives the groups of the least number of records.
    LeastFrequent(Frequent),
    /// Gives the groups of the greatest number of records.
    MostFrequent(Frequent),
    /// Gives the records in order.
    Sort(Sort),
    /// Gives the records backwards.
    Tac,
    /// Gives the last records.
    Tail(Tail),
    /// Gives the first record of each group.
    Uniq(Uniq),
    /// Fills each record with the names of all.
    Unsparsify(Unsparsify),
}

// Written by hand, so that the crates above call it instead of dropping the options themselves.
impl Drop for Spec {
    fn drop(self) {
        match self {
            Spec::Count(options) => drop(options),
            Spec::CountDistinct(options) => drop(options),
            Spec::CountSimilar(options) => drop(options),
            Spec::GroupBy(names) => drop(names),
            Spec::GroupLike => {}
            Spec::LeastFrequent(options) => drop(options),
            Spec::MostFrequent(options) => drop(options),
            Spec::Sort(options) => drop(options),
            Spec::Tac => {}
            Spec::Tail(options) => drop(options),
            Spec::Uniq(options) => drop(options),
            Spec::Unsparsify(options) => drop(options),
        }
    }
}

impl Spec {
    /// A copy. It allocates lists, and texts of more than 20 bytes.
    pub fn copy(&self, alloc: Global) -> Result<Self, NoMemory>
        ensures meaning { IfOk result (λ copy. meaning_of copy ≡ meaning_of self.now) }
        ensures short { IsShort self.now → IsOk result }
    {
        match self {
            Spec::Count(options) => Ok(Spec::Count(options.copy(alloc)?)),
            Spec::CountDistinct(options) => Ok(Spec::CountDistinct(options.copy(alloc)?)),
            Spec::CountSimilar(options) => Ok(Spec::CountSimilar(options.copy(alloc)?)),
            Spec::GroupBy(names) => Ok(Spec::GroupBy(names.copy()?)),
            Spec::GroupLike => Ok(Spec::GroupLike),
            Spec::LeastFrequent(options) => Ok(Spec::LeastFrequent(options.copy(alloc)?)),
            Spec::MostFrequent(options) => Ok(Spec::MostFrequent(options.copy(alloc)?)),
            Spec::Sort(options) => Ok(Spec::Sort(options.copy(alloc)?)),
            Spec::Tac => Ok(Spec::Tac),
            Spec::Tail(options) => Ok(Spec::Tail(options.copy(alloc)?)),
            Spec::Uniq(options) => Ok(Spec::Uniq(options.copy(alloc)?)),
            Spec::Unsparsify(options) => Ok(Spec::Unsparsify(options.copy(alloc)?)),
        }
    }

    /// The verb with these options, before the first record. It allocates for the verb's state.
    pub(crate) fn running(self, alloc: Global) -> Result<Running, NoMemory>
        ensures meaning { IfOk result (λ made. ⟦<Running as Stateful>⟧.meaning made
            ≡ meaning_of self) }
        ensures represents { IfOk result (λ made. ⟦<Running as Stateful>⟧.represents made []) }
    {
        match self {
            Spec::Count(options) => counting(alloc, options),
            Spec::CountDistinct(options) => counting_distinct(alloc, options),
            Spec::CountSimilar(options) => Ok(Running::CountSimilar(options.verb(alloc))),
            Spec::GroupBy(names) => Ok(Running::Groups(group_by_verb(alloc, names))),
            Spec::GroupLike => Ok(Running::Groups(group_like_verb(alloc))),
            Spec::LeastFrequent(options) => Ok(Running::Frequent(options.verb(alloc, true)?)),
            Spec::MostFrequent(options) => Ok(Running::Frequent(options.verb(alloc, false)?)),
            Spec::Sort(options) => Ok(Running::Sort(OfAll {
                alloc,
                state: SortRows::new(alloc, options)?,
            })),
            Spec::Tac => Ok(Running::Tac(TacRows::verb(alloc))),
            Spec::Tail(options) => Ok(Running::Tail(options.verb(alloc))),
            Spec::Uniq(options) => uniq(alloc, options),
            Spec::Unsparsify(options) => Ok(unsparsify(alloc, options)),
        }
    }
}

/// The verb `count`.
fn counting(alloc: Global, options: Count) -> Result<Running, NoMemory>
    ensures meaning { IfOk result (λ made. ⟦<Running as Stateful>⟧.meaning made ≡ count options) }
    ensures represents { IfOk result (λ made. ⟦<Running as Stateful>⟧.represents made []) }
{
    let Count {
        groups,
        number,
        output,
    } = options;
    match groups {
        None => Ok(Running::RecordCount(record_count(alloc, output))),
        Some(names) => counting_groups(alloc, names, number, output),
    }
}

/// The verb `count-distinct`.
fn counting_distinct(alloc: Global, options: CountDistinct) -> Result<Running, NoMemory>
    ensures meaning { IfOk result (λ made. ⟦<Running as Stateful>⟧.meaning made
        ≡ count_distinct options) }
    ensures represents { IfOk result (λ made. ⟦<Running as Stateful>⟧.represents made []) }
{
    let CountDistinct {
        names,
        number,
        output,
    } = options;
    counting_groups(alloc, names, number, output)
}

/// The verb that gives the number of groups, or the number of records of each.
fn counting_groups(
    alloc: Global,
    names: Names,
    number: bool,
    output: Bytes,
) -> Result<Running, NoMemory>
    ensures meaning { IfOk result (λ made. ⟦<Running as Stateful>⟧.meaning made
        ≡ counted_groups names number output) }
    ensures represents { IfOk result (λ made. ⟦<Running as Stateful>⟧.represents made []) }
{
    if number {
        let by = GroupBy::Texts(names);
        return Ok(Running::GroupNumber(group_number(alloc, by, output)));
    }
    let counting = Counting {
        groups: names,
        output: Some(output),
    };
    Ok(Running::GroupCount(group_count(alloc, counting)?))
}

/// The verb `uniq`.
fn uniq(alloc: Global, options: Uniq) -> Result<Running, NoMemory>
    ensures meaning { IfOk result (λ made. ⟦<Running as Stateful>⟧.meaning made ≡ uniq options) }
    ensures represents { IfOk result (λ made. ⟦<Running as Stateful>⟧.represents made []) }
{
    let Uniq { by, show } = options;
    match show {
        UniqShow::First => Ok(Running::UniqFirst(UniqFirstVerb::new(alloc, by))),
        UniqShow::Counted => Ok(Running::UniqCounted(CountedFirst::verb(alloc, by))),
        UniqShow::Number => {
            let output = Bytes::copy_of(alloc, b"count")?;
            Ok(Running::GroupNumber(group_number(alloc, by, output)))
        }
    }
}

/// The verb `unsparsify`.
fn unsparsify(alloc: Global, options: Unsparsify) -> Running
    ensures meaning { ⟦<Running as Stateful>⟧.meaning result ≡ unsparsify options }
    ensures represents { ⟦<Running as Stateful>⟧.represents result [] }
{
    let Unsparsify { fill, names } = options;
    match names {
        None => Running::Unsparsify(unsparsify_rows(alloc, fill)),
        Some(names) => Running::UnsparsifyFields(Each {
            alloc,
            verb: UnsparsifyFields { fill, names },
        }),
    }
}
