//! The options of `nest`.
ghost use Rattle.std.specs.Prelude.{◌≡◌, IfOk};

use mlr_spec::NoMemory;
use mlr_value::Bytes;
use std::alloc::Global;

/// What `nest` makes of a field.
#[derive(Clone, Copy)]
pub enum NestForm {
    /// `--explode --values --across-records`: a record for each piece of the value.
    ValuesAcrossRecords,
    /// `--explode --values --across-fields`: a field for each piece of the value, under the field's name and a number.
    ValuesAcrossFields,
    /// `--explode --pairs --across-records`: a record for each piece of the value, with the pair in it as its field.
    PairsAcrossRecords,
    /// `--explode --pairs --across-fields`: a field for each piece of the value, with the pair in it.
    PairsAcrossFields,
    /// `--implode --values --across-records`: one record of those that are equal in all other fields, with all their values
    /// joined.
    Implode,
}

/// The options of `nest`.
#[derive(Drop)]
pub struct Nest {
    /// `-f`: the name of the field.
    pub field: Bytes,
    pub form: NestForm,
    /// `--nested-fs`: what separates the pieces of a value.
    pub separator: Bytes,
    /// `--nested-ps`: what separates the name and the value of a pair.
    pub pair_separator: Bytes,
}

impl Nest {
    /// A copy. It allocates for texts of more than 20 bytes.
    pub fn copy(&self, alloc: Global) -> Result<Self, NoMemory>
        ensures { IfOk result (λ copy. copy ≡ self.now) }
    {
        Ok(Nest {
            field: Bytes::copy_of(alloc, self.field.as_slice())?,
            form: self.form,
            separator: Bytes::copy_of(alloc, self.separator.as_slice())?,
            pair_separator: Bytes::copy_of(alloc, self.pair_separator.as_slice())?,
        })
    }
}
