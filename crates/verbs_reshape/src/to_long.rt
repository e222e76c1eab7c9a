//! `reshape` to long: a record for each selected field.
ghost use Rattle.std.specs.Prelude.{◌≡◌, ◌++◌, ◌∷◌, [], false, map, true, IfOk, OnOk};
ghost use Rattle.mlr_record.specs.Fields.{pairs_of};
ghost use Rattle.mlr_spec.specs.Pairs.{are_distinct, keys_of};
ghost use Rattle.mlr_value.specs.Value.{tree_of};
ghost use Rattle.regex.specs.Bytes.{matcher_pattern};
ghost use Rattle.verbs_base.specs.Choosing.{dropped, picked};
ghost use Rattle.verbs_base.specs.Records.{with_context};
ghost use Rattle.verbs_pattern.specs.Cut.{kept_matching};
ghost use Rattle.verbs_reshape.specs.ToLong.{AreSameFields, ArePatternsOf, long_record, or_itself, to_long};

use mlr_event::{Ctx, Event, Events, Names};
use mlr_pattern::{Matcher, Patterns};
use mlr_record::{Field, Record};
use mlr_spec::NoMemory;
use mlr_value::Bytes;
use std::alloc::Global;
use verbs_base::{Stateful, move_named, string_of};
use verbs_pattern::{Searches, Searching, any_matches, matchers_of};

/// The options of `reshape` with `-i` or `-r`.
#[derive(Drop)]
pub struct ToLong {
    pub fields: LongFields,
    /// The field that takes the name of a selected field.
    pub key: Bytes,
    /// The field that takes its value.
    pub value: Bytes,
}

/// The fields that `reshape` selects.
#[derive(Drop)]
pub enum LongFields {
    /// `-i`: those of these names, in the order of the names.
    Names(Names),
    /// `-r`: those whose names match one of these patterns.
    Patterns(Patterns),
}

impl ToLong {
    /// A copy, which shares the patterns. It allocates the list of fields, and texts of more than 20 bytes.
    pub fn copy(&self, alloc: Global) -> Result<Self, NoMemory>
        ensures fields { IfOk result (λ copy. AreSameFields copy.fields self.now.fields) }
        ensures key { IfOk result (λ copy. copy.key ≡ self.now.key) }
        ensures value { IfOk result (λ copy. copy.value ≡ self.now.value) }
        ensures meaning { IfOk result (λ copy. to_long copy ≡ to_long self.now) }
    {
        Ok(ToLong {
            fields: self.fields.copy()?,
            key: Bytes::copy_of(alloc, self.key.as_slice())?,
            value: Bytes::copy_of(alloc, self.value.as_slice())?,
        })
    }
}

impl LongFields {
    /// A copy, which shares the patterns. It allocates the list.
    fn copy(&self) -> Result<Self, NoMemory>
        ensures { IfOk result (λ copy. AreSameFields copy self.now) }
    {
        Ok(match self {
            LongFields::Names(names) => LongFields::Names(names.copy()?),
            LongFields::Patterns(patterns) => LongFields::Patterns(patterns.copy()?),
        })
    }

    /// A matcher for each pattern, and none where the fields are named.
    fn matchers(&self, alloc: Global) -> Result<Vec<Matcher<'_>>, NoMemory>
        ensures { IfOk result (λ made. ArePatternsOf self.now (map matcher_pattern made.items)) }
    {
        match self {
            LongFields::Names(_) => Ok(Vec::new(alloc)),
            LongFields::Patterns(patterns) => matchers_of(alloc, patterns.as_slice()),
        }
    }
}

/// The verb `reshape` with `-i` or `-r`. It makes one matcher for each pattern, for all records of a list.
pub type ToLongVerb = Searching<ToLong>;

impl Searches for ToLong {
    ghost use Rattle.verbs_reshape.specs.ToLong.{to_long};

    ghost gives = { to_long };

    fn search_all(
        &self,
        alloc: Global,
        events: &mut Events,
        out: &mut Events,
    ) -> Result<(), NoMemory> {
        let matchers = self.fields.matchers(alloc)?;
        let options = self;
        let mut search = Search {
            alloc,
            options,
            matchers,
        };
        search.take_all(events, out)
    }
}

/// The search for the selected fields, for the records of one list. It has no matchers where the fields are named.
#[derive(Drop)]
struct Search<'l> {
    alloc: Global,
    options: &'l ToLong,
    matchers: Vec<Matcher<'l>>,
}

impl Stateful for Search<'_> {
    ghost use Rattle.std.specs.Prelude.{map};
    ghost use Rattle.regex.specs.Bytes.{matcher_pattern};
    ghost use Rattle.verbs_base.specs.Laws.{stream-shuts};
    ghost use Rattle.verbs_base.specs.Records.{each};
    ghost use Rattle.verbs_reshape.specs.ToLong.{ArePatternsOf, to_long};

    ghost meaning = { λ s. each (to_long s.options.now) };

    ghost represents = { λ s before. ArePatternsOf s.options.now.fields
        (map matcher_pattern s.matchers.items) };

    ghost shuts = { λ s. stream-shuts (λ before. to_long s.options.now) };

    fn take(&mut self, fields: Record, ctx: Ctx, out: &mut Events) -> Result<(), NoMemory> {
        let options = self.options;
        let split = match &options.fields {
            LongFields::Names(names) => split_named(names, fields)?,
            LongFields::Patterns(_) => split_matching(self.alloc, &mut self.matchers, fields)?,
        };
        push_split(self.alloc, options, split, ctx, out)
    }

    fn finish(&mut self, _: Ctx, _: &mut Events) -> Result<(), NoMemory> {
        Ok(())
    }

    fn is_shut(&self) -> bool {
        false
    }

    fn never_shuts(&self) -> bool {
        true
    }
}

/// The fields of a record: the selected ones, and the others.
#[derive(Drop)]
struct Split {
    selected: Vec<Field>,
    others: Record,
}

/// Splits a record into the fields of these names, in the order of the names, and the others.
fn split_named(names: &Names, fields: Record) -> Result<Split, NoMemory>
    ensures selected { IfOk result (λ split. pairs_of split.selected.items
        ≡ picked names.now fields) }
    ensures others { IfOk result (λ split. split.others ≡ dropped names.now fields) }
    ensures distinct { IfOk result (λ split. are_distinct (keys_of fields) ≡ true) }
{
    let mut selected = fields.into_fields();
    let alloc = *selected.allocator();
    let count = move_named(names.as_slice(), &mut selected);
    let others = selected.split_off(count)?;
    Ok(Split {
        selected,
        others: Record::of_fields(alloc, others),
    })
}

/// Splits a record into the fields whose names match one of the patterns, and the others.
fn split_matching(
    alloc: Global,
    matchers: &mut [Matcher<'_>],
    fields: Record,
) -> Result<Split, NoMemory>
    ensures selected { IfOk result (λ split. pairs_of split.selected.items
        ≡ kept_matching (map matcher_pattern matchers.old) false fields) }
    ensures others { IfOk result (λ split. split.others
        ≡ kept_matching (map matcher_pattern matchers.old) true fields) }
    ensures distinct { IfOk result (λ split. are_distinct (keys_of fields) ≡ true) }
    ensures same { map matcher_pattern matchers.new ≡ map matcher_pattern matchers.old }
{
    let mut selected = Vec::new(alloc);
    let mut others = Vec::with_capacity(alloc, fields.len())?;
    split_fields(fields.into_fields(), matchers, &mut selected, &mut others)?;
    Ok(Split {
        selected,
        others: Record::of_fields(alloc, others),
    })
}

fn split_fields(
    fields: Vec<Field>,
    matchers: &mut [Matcher<'_>],
    selected: &mut Vec<Field>,
    others: &mut Vec<Field>,
) -> Result<(), NoMemory>
    ensures selected { OnOk result (pairs_of selected.new.items ≡ pairs_of selected.old.items
        ++ kept_matching (map matcher_pattern matchers.old) false (pairs_of fields.items)) }
    ensures others { OnOk result (pairs_of others.new.items ≡ pairs_of others.old.items
        ++ kept_matching (map matcher_pattern matchers.old) true (pairs_of fields.items)) }
    ensures same { map matcher_pattern matchers.new ≡ map matcher_pattern matchers.old }
{
    for field in fields {
        split_field(field, matchers, selected, others)?;
    }
    Ok(())
}

fn split_field(
    field: Field,
    matchers: &mut [Matcher<'_>],
    selected: &mut Vec<Field>,
    others: &mut Vec<Field>,
) -> Result<(), NoMemory>
    ensures selected { OnOk result (pairs_of selected.new.items ≡ pairs_of selected.old.items
        ++ kept_matching (map matcher_pattern matchers.old) false (pairs_of (field ∷ []))) }
    ensures others { OnOk result (pairs_of others.new.items ≡ pairs_of others.old.items
        ++ kept_matching (map matcher_pattern matchers.old) true (pairs_of (field ∷ []))) }
    ensures same { map matcher_pattern matchers.new ≡ map matcher_pattern matchers.old }
{
    if any_matches(matchers, field.name.as_slice()) {
        selected.push(field)?;
    } else {
        others.push(field)?;
    }
    Ok(())
}

/// Appends the record of each selected field, or of the other fields alone if none is selected.
fn push_split(
    alloc: Global,
    options: &ToLong,
    split: Split,
    ctx: Ctx,
    out: &mut Events,
) -> Result<(), NoMemory>
    ensures { OnOk result (out.new ≡ out.old ++ with_context ctx (or_itself split.others
        (map (long_record options.now split.others) (pairs_of split.selected.items)))) }
{
    let Split { selected, others } = split;
    if selected.is_empty() {
        out.push(Event::Rec(others, ctx))
    } else {
        push_each(alloc, options, selected, &others, ctx, out)
    }
}

/// Appends the record of each selected field.
fn push_each(
    alloc: Global,
    options: &ToLong,
    selected: Vec<Field>,
    others: &Record,
    ctx: Ctx,
    out: &mut Events,
) -> Result<(), NoMemory>
    ensures { OnOk result (out.new ≡ out.old ++ with_context ctx
        (map (long_record options.now others.now) (pairs_of selected.items))) }
{
    for field in selected {
        let made = copy_with_room(alloc, others)?;
        out.push(Event::Rec(long_record(options, field, made)?, ctx))?;
    }
    Ok(())
}

/// The other fields with a selected one as two.
fn long_record(options: &ToLong, field: Field, others: Record) -> Result<Record, NoMemory>
    ensures { IfOk result (λ made. made ≡ long_record options.now others
        (field.name, tree_of field.value)) }
{
    let Field { name, value } = field;
    let mut made = others;
    made.put(options.key.as_slice(), string_of(name))?;
    made.put(options.value.as_slice(), value)?;
    Ok(made)
}

/// A copy with room for two more fields.
fn copy_with_room(alloc: Global, others: &Record) -> Result<Record, NoMemory>
    ensures { IfOk result (λ copy. copy ≡ others.now) }
{
    let mut fields = Vec::with_capacity(alloc, others.len().saturating_add(2))?;
    push_copies(alloc, others.fields(), &mut fields)?;
    Ok(Record::of_fields(alloc, fields))
}

/// Appends copies of fields.
fn push_copies(alloc: Global, fields: &[Field], copies: &mut Vec<Field>) -> Result<(), NoMemory>
    ensures { OnOk result (pairs_of copies.new.items
        ≡ pairs_of copies.old.items ++ pairs_of fields.now) }
{
    for field in fields {
        copies.push(Field {
            name: field.name.copy()?,
            value: field.value.copy(alloc)?,
        })?;
    }
    Ok(())
}
