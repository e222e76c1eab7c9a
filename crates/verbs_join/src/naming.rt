//! The names of the fields of a pair.
ghost use Rattle.std.specs.Prelude.{◌≡◌, [], ℕ, List, IfOk};
ghost use Rattle.std.specs.Option.{option_map, unwrap_or};
ghost use Rattle.mlr_event.specs.Reading.{is_among};
ghost use Rattle.mlr_spec.specs.Pairs.{keys_of};
ghost use Rattle.verbs_base.specs.Choosing.{dropped};
ghost use Rattle.verbs_join.specs.Join.{prefix_for};
ghost use Rattle.verbs_join.specs.Naming.{prefix_by};

use mlr_event::Names;
use mlr_groups::KeyTable;
use mlr_record::Record;
use mlr_spec::NoMemory;
use mlr_value::Bytes;
use std::alloc::Global;
use verbs_base::is_named;

/// How the fields of one side are named: a name gets the prefix where the other record has it outside its join fields.
#[derive(Drop)]
pub(crate) enum Naming<'r> {
    /// There is no prefix.
    Plain,
    /// The prefix, and the other record with its join fields. It has few fields, so that a search goes over them.
    Few(&'r Bytes, &'r Names, &'r Record),
    /// The prefix, and the names of the other record's many fields outside its join fields.
    Many(&'r Bytes, KeyTable),
}

/// Under so many fields a search goes over the fields themselves.
pub(crate) const FEW: usize = 64;

impl<'r> Naming<'r> {
    /// The naming of the fields of one side by its prefix and the other record. It allocates if that one has many fields.
    pub(crate) fn new(
        alloc: Global,
        prefix: Option<&'r Bytes>,
        join: &'r Names,
        other: &'r Record,
    ) -> Result<Naming<'r>, NoMemory>
        ensures { IfOk result (λ made. prefix_by made
            ≡ prefix_for (option_map (λ prefix. prefix.now) prefix.entry)
            (dropped join.now other.now)) }
    {
        match prefix {
            None => Ok(Naming::Plain),
            Some(prefix) if other.len() < FEW => Ok(Naming::Few(prefix, join, other)),
            Some(prefix) => Ok(Naming::Many(prefix, other_names(alloc, join, other)?)),
        }
    }

    /// The prefix that a name gets, if it gets one. It doesn't allocate.
    pub(crate) fn prefix(&self, name: &Bytes) -> Option<&Bytes>
        ensures { unwrap_or (option_map (λ prefix. prefix.now) result) []
            ≡ prefix_by self.now name.now }
    {
        match self {
            Naming::Plain => None,
            Naming::Few(prefix, join, other) => has_other(join, other, name).then_some(*prefix),
            Naming::Many(prefix, names) => {
                names.place_of(name.as_slice()).is_some().then_some(*prefix)
            }
        }
    }
}

/// Whether a record has a field of this name outside its join fields.
fn has_other(join: &Names, record: &Record, name: &Bytes) -> bool
    ensures { result ≡ is_among (keys_of (dropped join.now record.now)) name.now }
{
    record.get(name.as_slice()).is_some() && !is_named(join, name)
}

/// The names of a record's fields outside its join fields.
fn other_names(alloc: Global, join: &Names, record: &Record) -> Result<KeyTable, NoMemory>
    ensures { IfOk result (λ table. (name : List ℕ)
        → is_among table name ≡ is_among (keys_of (dropped join.now record.now)) name) }
{
    let mut table = KeyTable::new(alloc);
    for field in record.fields() {
        if !is_named(join, &field.name) {
            table.enter(field.name.as_slice())?;
        }
    }
    Ok(table)
}
