//! Names in a row, each made distinct from those before it.
ghost use Rattle.std.specs.Prelude.{◌≡◌, ◌^◌, ◌<◌, [], length, IfOk, IsOk};
ghost use Rattle.mlr_event.specs.Reading.{distinct_names, free_name};

use crate::fields::FEW;
use crate::name_index::NameIndex;
use crate::suffixes::{FIRST, first_free};
use mlr_event::rows::TakenNames;
use mlr_spec::NoMemory;
use mlr_value::Bytes;
use std::alloc::Global;

/// The names, each made distinct from those before it.
pub(crate) fn distinct_names(alloc: Global, names: &[Bytes]) -> Result<Vec<Bytes>, NoMemory>
    ensures names { IfOk result (λ made. made.items ≡ distinct_names names.now) }
    ensures none { names.now ≡ [] → IsOk result }
{
    if names.len() < FEW {
        few_distinct_names(alloc, names)
    } else {
        many_distinct_names(alloc, names)
    }
}

fn few_distinct_names(alloc: Global, names: &[Bytes]) -> Result<Vec<Bytes>, NoMemory>
    ensures names { IfOk result (λ made. made.items ≡ distinct_names names.now) }
    ensures none { names.now ≡ [] → IsOk result }
{
    let mut made = Vec::with_capacity(alloc, names.len())?;
    for name in names {
        made.push(free_name(alloc, &made, name.as_slice())?)?;
    }
    Ok(made)
}

/// The name as it is free: a name that is taken gets the least suffix from 2 up that makes a free one.
fn free_name(alloc: Global, names: &Vec<Bytes>, name: &[u8]) -> Result<Bytes, NoMemory>
    requires { length names.now.items < 2 ^ 63 }
    ensures { IfOk result (λ free. free ≡ free_name names.now.items name.now) }
{
    if names.has(name) {
        Ok(first_free(alloc, names, name, FIRST)?.1)
    } else {
        Ok(Bytes::copy_of(alloc, name)?)
    }
}

fn many_distinct_names(alloc: Global, names: &[Bytes]) -> Result<Vec<Bytes>, NoMemory>
    ensures { IfOk result (λ made. made.items ≡ distinct_names names.now) }
{
    let mut index = NameIndex::new(alloc, names.len())?;
    let mut made = Vec::with_capacity(alloc, names.len())?;
    for name in names {
        let free = index.free_name(name.as_slice())?;
        index.push(free.as_slice())?;
        made.push(free)?;
    }
    Ok(made)
}
