//! `sparsify`: a record without its empty fields.
ghost use Rattle.std.specs.Prelude.{◌≡◌, not, None, IfOk, IsOk};
ghost use Rattle.std.specs.List.{filter};
ghost use Rattle.std.specs.Option.{option_map};
ghost use Rattle.mlr_record.specs.Fields.{pair_of};
ghost use Rattle.verbs_fields.specs.Sparsify.{is_sparse};

use mlr_event::Names;
use mlr_record::{Field, Record};
use mlr_spec::NoMemory;
use std::alloc::Global;
use verbs_base::{PerRecord, is_empty, is_taken};

/// The options of `sparsify`.
#[derive(Drop)]
pub struct Sparsify {
    /// The fields that may be dropped, or None for all.
    pub names: Option<Names>,
}

impl Sparsify {
    /// A copy. It allocates for the names.
    pub fn copy(&self, _: Global) -> Result<Self, NoMemory>
        ensures same { IfOk result (λ copy. copy ≡ self.now) }
        ensures all { self.now.names ≡ None → IsOk result }
    {
        Ok(Sparsify {
            names: self.names.as_ref().map(Names::copy).transpose()?,
        })
    }
}

impl PerRecord for Sparsify {
    ghost use Rattle.verbs_base.specs.Records.{maps};
    ghost use Rattle.verbs_fields.specs.Sparsify.{sparsify};

    ghost gives = { λ verb. maps (sparsify verb) };

    ghost sound = { λ verb. Unit {0} };

    fn made(&mut self, _: Global, fields: Record) -> Result<Option<Record>, NoMemory> {
        Ok(Some(without_sparse(self.names.as_ref(), fields)))
    }
}

/// The fields except the empty ones, or except the empty ones among the named. It doesn't allocate.
fn without_sparse(names: Option<&Names>, from: Record) -> Record
    ensures { result
        ≡ filter (λ pair. not (is_sparse (option_map (λ names. names.now) names.entry) pair)) from }
{
    let mut fields = from.into_fields();
    let alloc = *fields.allocator();
    fields.retain(|field| !is_sparse(names, field));
    Record::of_fields(alloc, fields)
}

/// Whether a field is empty and among the named fields, if there are names.
fn is_sparse(names: Option<&Names>, field: &Field) -> bool
    ensures { result ≡ is_sparse (option_map (λ names. names.now) names.entry) (pair_of field.now) }
{
    is_empty(&field.value) && is_taken(names, &field.name)
}
