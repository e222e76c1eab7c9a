//! Fields that are put into a record.
ghost use Rattle.std.specs.Prelude.{◌≡◌, OnOk};
ghost use Rattle.mlr_record.specs.Fields.{pairs_of};
ghost use Rattle.mlr_spec.specs.Pairs.{put_each};

use mlr_fields::{Fields, few};
use mlr_record::{Field, Record};
use mlr_spec::NoMemory;
use std::alloc::Global;
use std::mem;

/// So many fields are put by an index of the names. For fewer, a search over the names takes less time.
const MANY: usize = 64;

/// Puts each of the fields into a record. It takes time proportional to the count of fields where they are many.
pub(crate) fn put_fields(
    alloc: Global,
    fields: Vec<Field>,
    into: &mut Record,
) -> Result<(), NoMemory>
    ensures { OnOk result (into.new ≡ put_each into.old (pairs_of fields.items)) }
{
    if fields.len() < MANY {
        return put_few(fields, into);
    }
    let mut made = Fields::new(mem::replace(into, Record::of_fields(alloc, Vec::new(alloc))));
    put_many(alloc, fields, &mut made)?;
    *into = made.into_record();
    Ok(())
}

/// Puts each of a few fields into a record.
fn put_few(fields: Vec<Field>, into: &mut Record) -> Result<(), NoMemory>
    ensures { OnOk result (into.new ≡ put_each into.old (pairs_of fields.items)) }
{
    for field in fields {
        let Field { name, value } = field;
        into.put(name.as_slice(), value)?;
    }
    Ok(())
}

/// Puts each of many fields into a record.
fn put_many(alloc: Global, fields: Vec<Field>, into: &mut Fields) -> Result<(), NoMemory>
    ensures { OnOk result (into.new ≡ put_each into.old (pairs_of fields.items)) }
{
    for field in fields {
        let Field { name, value } = field;
        few(into.len())?;
        into.put(alloc, name.as_slice(), value, false)?;
    }
    Ok(())
}
