//! What a stepper keeps of the values of a field.
ghost use Rattle.std.specs.Prelude.{◌≡◌, Some, None, [], IfOk, OnOk};
ghost use Rattle.std.specs.Option.{option_map};
ghost use Rattle.mlr_value.specs.Value.{tree_of};
ghost use Rattle.verbs_step.specs.Kept.{kept, kept_after, kept_of, last_operand, made_from, total};

use group_state::count_value;
use mlr_groups::next_count;
use mlr_spec::{NoMemory, Op};
use mlr_value::{Value, arith};
use stat_base::Stepper;
use std::alloc::Global;
use std::mem::replace;

/// What a stepper keeps of the values of a field in the records of a group.
#[derive(Drop)]
pub(crate) enum Track {
    /// The last value, or the empty text before the first.
    Shift(Value),
    /// The last value, if there is one.
    Delta(Option<Value>),
    /// The sum of the values.
    Rsum(Value),
    /// How many values there are.
    Counter(u64),
}

impl Track {
    /// What the stepper keeps of no values. It doesn't allocate.
    pub(crate) fn new(alloc: Global, stepper: Stepper) -> Self
        ensures { kept result ≡ kept_of stepper [] }
    {
        match stepper {
            Stepper::Shift => Track::Shift(Value::Empty),
            Stepper::Delta => Track::Delta(None),
            Stepper::Rsum => Track::Rsum(count_value(alloc, 0)),
            Stepper::Counter => Track::Counter(0),
        }
    }

    /// Takes the next value, and returns what the stepper makes of it. It allocates to copy a text of more than
    /// 20 bytes.
    pub(crate) fn step(&mut self, alloc: Global, value: &Value) -> Result<Value, NoMemory>
        ensures made { IfOk result (λ made. tree_of made
            ≡ made_from (tree_of value.now) (kept self.old)) }
        ensures kept { OnOk result (kept self.new
            ≡ kept_after (tree_of value.now) (kept self.old)) }
    {
        match self {
            Track::Shift(last) => Ok(replace(last, value.copy(alloc)?)),
            Track::Delta(last) => delta(alloc, value, last),
            Track::Rsum(sum) => add(alloc, value, sum),
            Track::Counter(count) => {
                *count = next_count(*count);
                Ok(count_value(alloc, *count))
            }
        }
    }
}

/// The value without the last one, which it replaces, or 0 where there is none.
fn delta(alloc: Global, value: &Value, last: &mut Option<Value>) -> Result<Value, NoMemory>
    ensures made { IfOk result (λ made. tree_of made
        ≡ made_from (tree_of value.now) (last_operand (option_map tree_of last.old))) }
    ensures kept { OnOk result (option_map tree_of last.new ≡ Some (tree_of value.now)) }
{
    let made = match last {
        Some(last) => arith(alloc, Op::Minus, value, last)?,
        None => count_value(alloc, 0),
    };
    replace(last, Some(value.copy(alloc)?));
    Ok(made)
}

/// Adds the value to the sum, and returns the new sum.
fn add(alloc: Global, value: &Value, sum: &mut Value) -> Result<Value, NoMemory>
    ensures made { IfOk result (λ made. tree_of made
        ≡ made_from (tree_of value.now) (total (tree_of sum.old))) }
    ensures kept { OnOk result (total (tree_of sum.new)
        ≡ kept_after (tree_of value.now) (total (tree_of sum.old))) }
{
    let made = arith(alloc, Op::Plus, sum, value)?;
    replace(sum, made.copy(alloc)?);
    Ok(made)
}
