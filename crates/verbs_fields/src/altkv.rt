//! `altkv`: the values of a record as keys and values in turn.
ghost use Rattle.std.specs.Prelude.{◌≡◌, [], OnOk, MatchOption};
ghost use Rattle.mlr_spec.specs.Pairs.{put_at, put_each};
ghost use Rattle.mlr_value.specs.Value.{tree_of};
ghost use Rattle.mlr_record.specs.Fields.{pairs_of};
ghost use Rattle.text_forms.specs.Shown.{shown};
ghost use Rattle.verbs_fields.specs.Altkv.{in_turn};
ghost use Rattle.verbs_fields.specs.Values.{values_of};

use itoa::Buffer;
use mlr_record::{Field, Record};
use mlr_spec::NoMemory;
use mlr_value::Value;
use std::alloc::Global;
use text_forms::shown;
use verbs_base::PerRecord;

/// The verb `altkv`, which takes the values in turn as keys and values. An odd last value gets the number of its
/// pair as its key, and a key that repeats keeps its place and takes the later value. It has no options.
#[derive(Drop)]
pub struct Altkv;

impl PerRecord for Altkv {
    ghost use Rattle.verbs_base.specs.Records.{maps};
    ghost use Rattle.verbs_fields.specs.Altkv.{altkv};

    ghost gives = { λ verb. maps altkv };

    ghost sound = { λ verb. Unit {0} };

    fn made(&mut self, alloc: Global, fields: Record) -> Result<Option<Record>, NoMemory> {
        let values = fields.into_fields();
        let count = values.len();
        let mut made = Record::new(alloc)?;
        let mut buffer = Buffer::new();
        let last = buffer.format(count - count / 2);
        put_in_turn(alloc, values, last.as_bytes(), &mut made)?;
        Ok(Some(made))
    }
}

/// Sets the values, in turn a key and a value, in a record without fields.
fn put_in_turn(
    alloc: Global,
    fields: Vec<Field>,
    last: &[u8],
    into: &mut Record,
) -> Result<(), NoMemory>
    requires { into.old ≡ [] }
    ensures { OnOk result (into.new ≡ put_each []
        (in_turn last.now (values_of (pairs_of fields.items)))) }
{
    let mut fields = fields.into_iter();
    while let Some(key) = fields.next() {
        put_turn(alloc, key.value, fields.next(), last, into)?;
    }
    Ok(())
}

/// Sets a key to the value that follows it, or, if none follows, the key `last` to this value.
fn put_turn(
    alloc: Global,
    key: Value,
    next: Option<Field>,
    last: &[u8],
    into: &mut Record,
) -> Result<(), NoMemory>
    ensures { OnOk result (MatchOption next (into.new ≡ put_at last.now (tree_of key) into.old)
        (λ field. into.new ≡ put_at (shown (tree_of key)) (tree_of field.value) into.old)) }
{
    match next {
        Some(field) => into.put(shown(alloc, &key)?.as_slice(), field.value),
        None => into.put(last, key),
    }
}
