//! `fill-empty`: a text in place of each empty value.
ghost use Rattle.std.specs.Prelude.{◌≡◌, ◌≤◌, length, IfOk, IsOk};

use mlr_record::Record;
use mlr_spec::{InferOpts, NoMemory};
use mlr_value::{Bytes, Value, from_data};
use std::alloc::Global;
use verbs_base::{Change, PerRecord, change_record, string_of};

/// The options of `fill-empty`, which sets each empty value to a text.
#[derive(Drop)]
pub struct FillEmpty {
    /// `-v`: the text, which is `N/A` by default.
    pub text: Bytes,
    /// `-S`: the text is a string, and its type isn't inferred.
    pub as_string: bool,
}

impl FillEmpty {
    /// A copy. It allocates only for a text of more than 20 bytes.
    pub fn copy(&self, alloc: Global) -> Result<Self, NoMemory>
        ensures same { IfOk result (λ copy. copy ≡ self.now) }
        ensures short { length self.now.text ≤ 20 → IsOk result }
    {
        Ok(FillEmpty {
            text: Bytes::copy_of(alloc, self.text.as_slice())?,
            as_string: self.as_string,
        })
    }
}

impl PerRecord for FillEmpty {
    ghost use Rattle.verbs_base.specs.Records.{maps};
    ghost use Rattle.verbs_values.specs.FillEmpty.{fill_empty};

    ghost gives = { λ verb. maps (fill_empty verb) };

    ghost sound = { λ verb. Unit {0} };

    fn made(&mut self, alloc: Global, fields: Record) -> Result<Option<Record>, NoMemory> {
        Ok(Some(change_record(&*self, alloc, fields)?))
    }
}

impl Change for &FillEmpty {
    ghost use Rattle.std.specs.Prelude.{true};
    ghost use Rattle.verbs_values.specs.FillEmpty.{filled};

    ghost takes = { λ verb name. true };

    ghost image = { λ verb value. filled verb.now value };

    fn takes(&self, _: &Bytes) -> bool {
        true
    }

    fn image(&mut self, alloc: Global, value: Value) -> Result<Value, NoMemory> {
        match value {
            Value::Empty if self.as_string => {
                Ok(string_of(Bytes::copy_of(alloc, self.text.as_slice())?))
            }
            Value::Empty => from_data(alloc, self.text.as_slice(), InferOpts::plain()),
            value => Ok(value),
        }
    }
}
