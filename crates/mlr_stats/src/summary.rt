//! What is kept of the values of a field.
ghost use Rattle.std.specs.Prelude.{◌≡◌, ◌++◌, ◌∷◌, [], Bool, List, true, length, IfOk, OnOk};
ghost use Rattle.mlr_spec.specs.Order.{order_of};
ghost use Rattle.mlr_spec.specs.declared.arith.Order.TheVariants.{Mixed};
ghost use Rattle.mlr_sort.specs.InOrder.{in_order};
ghost use Rattle.mlr_record.specs.Fields.{pairs_of};
ghost use Rattle.mlr_spec.specs.Tree.{Tree};
ghost use Rattle.mlr_value.specs.Value.{tree_of};
ghost use Rattle.stat_base.specs.Values.{sum_of};
ghost use Rattle.mlr_groups.specs.Tallying.{capped};
ghost use Rattle.mlr_stats.specs.Kept.{Arranges, KeepsAll, Summarizes, is_nil, serves};
ghost use Rattle.mlr_stats.specs.Statistic.{fields_of, mean_of, statistic};
ghost use Rattle.stat_base.specs.Accumulators.{name_of};
ghost use Rattle.stat_base.specs.Outputs.{output_name};
ghost use Rattle.stat_base.specs.declared.accumulator.Accumulator.{Accumulator as SpecAccumulator};
ghost use Rattle.mlr_stats.specs.declared.needs.Needs.{Needs as SpecNeeds};

use crate::more::{More, add_more, more_of, more_statistic, sort_more};
use crate::needs::Needs;
use crate::statistics::Statistics;
use group_state::count_value;
use mlr_groups::next_count;
use mlr_record::Field;
use mlr_spec::{NoMemory, Op};
use mlr_value::{Bytes, IntValue, Value, arith};
use stat_base::Accumulator;
use std::alloc::Global;

/// What is kept of the values of a field, as far as some statistics need it.
#[derive(Drop)]
pub struct Summary {
    /// How many values aren't empty.
    count: u64,
    /// How many values are empty.
    nulls: u64,
    sum: Value,
    more: Option<Box<More>>,
}

impl Summary {
    /// No values yet. It allocates where more than counts and the sum is needed.
    pub fn new(alloc: Global, statistics: &Statistics) -> Result<Self, NoMemory>
        ensures { IfOk result (λ made. Summarizes statistics.now [] made) }
    {
        Ok(Summary {
            count: 0,
            nulls: 0,
            sum: zero(alloc),
            more: more_of(alloc, statistics.needs())?,
        })
    }

    /// Whether there are no values yet.
    pub fn is_nil(&self) -> bool
        ensures { (accumulators : List SpecAccumulator) (values : List Tree)
            → Summarizes accumulators values self.now → result ≡ is_nil values }
    {
        self.count == 0 && self.nulls == 0
    }

    /// Takes one more value. It copies the value where that is needed.
    pub fn add(
        &mut self,
        alloc: Global,
        statistics: &Statistics,
        value: &Value,
    ) -> Result<(), NoMemory>
        ensures { OnOk result ((values : List Tree) → Summarizes statistics.now values self.old
            → Summarizes statistics.now (values ++ tree_of value.now ∷ []) self.new) }
    {
        if value.is_empty() {
            self.nulls = next_count(self.nulls);
            return Ok(());
        }
        self.count = next_count(self.count);
        let needs = statistics.needs();
        add_to_sum(alloc, needs.sum, &mut self.sum, value)?;
        add_more(alloc, needs, &mut self.more, value)
    }

    /// Sorts the values that are kept, if any are. It comes before `append_all`. It allocates to sort.
    pub fn sort(&mut self) -> Result<(), NoMemory>
        ensures { OnOk result ((accumulators : List SpecAccumulator) (values : List Tree)
            → Summarizes accumulators values self.old → Arranges accumulators values self.new) }
    {
        sort_more(&mut self.more)
    }

    /// Appends the statistics of the values, which are sorted, as fields that are named after this field.
    pub fn append_all(
        &self,
        alloc: Global,
        statistics: &Statistics,
        name: &[u8],
        into: &mut Vec<Field>,
    ) -> Result<(), NoMemory>
        ensures { OnOk result ((values : List Tree) → Arranges statistics.now values self.now
            → pairs_of into.new.items
            ≡ pairs_of into.old.items ++ fields_of statistics.now name.now values) }
    {
        for accumulator in statistics.accumulators() {
            self.append(alloc, *accumulator, name, into)?;
        }
        Ok(())
    }

    /// Appends a statistic of the values, which are sorted.
    fn append(
        &self,
        alloc: Global,
        accumulator: Accumulator,
        name: &[u8],
        into: &mut Vec<Field>,
    ) -> Result<(), NoMemory>
        ensures { OnOk result ((needs : SpecNeeds) (values : List Tree)
            → KeepsAll needs (in_order (order_of Mixed)) values self.now
            → serves needs accumulator ≡ true
            → pairs_of into.new.items
            ≡ pairs_of into.old.items ++ fields_of (accumulator ∷ []) name.now values) }
    {
        let name = output_of(alloc, name, accumulator)?;
        let value = self.statistic(alloc, accumulator)?;
        into.push(Field { name, value })?;
        Ok(())
    }

    /// A statistic of the values, which are sorted.
    fn statistic(&self, alloc: Global, accumulator: Accumulator) -> Result<Value, NoMemory>
        ensures { IfOk result (λ made. (needs : SpecNeeds) (values : List Tree)
            → KeepsAll needs (in_order (order_of Mixed)) values self.now
            → serves needs accumulator ≡ true
            → tree_of made ≡ statistic values accumulator) }
    {
        match accumulator {
            Accumulator::Count => Ok(count_value(alloc, self.count)),
            Accumulator::NullCount => Ok(count_value(alloc, self.nulls)),
            Accumulator::Sum => self.sum.copy(alloc),
            Accumulator::Mean => mean(alloc, self.count, &self.sum),
            other => more_statistic(alloc, &self.more, other),
        }
    }
}

/// The int 0.
fn zero(alloc: Global) -> Value
    ensures { tree_of result ≡ sum_of [] }
{
    Value::Int(IntValue {
        n: 0,
        spelling: Bytes::new(alloc),
    })
}

/// Adds a value to the sum, if that is needed.
fn add_to_sum(alloc: Global, needed: bool, sum: &mut Value, value: &Value) -> Result<(), NoMemory>
    ensures { OnOk result ((values : List Tree) → (needed ≡ true → tree_of sum.old ≡ sum_of values)
        → needed ≡ true → tree_of sum.new ≡ sum_of (values ++ tree_of value.now ∷ [])) }
{
    if needed {
        *sum = arith(alloc, Op::Plus, &*sum, value)?;
    }
    Ok(())
}

/// The sum divided by the count, which is the error value if there are no values.
fn mean(alloc: Global, count: u64, sum: &Value) -> Result<Value, NoMemory>
    ensures { IfOk result (λ mean. (values : List Tree) → count ≡ capped (length values)
        → tree_of sum.now ≡ sum_of values → tree_of mean ≡ mean_of values) }
{
    if count == 0 {
        return Ok(Value::Error);
    }
    arith(alloc, Op::Divide, sum, &count_value(alloc, count))
}

/// The name of the field that a statistic of a field makes.
fn output_of(alloc: Global, field: &[u8], accumulator: Accumulator) -> Result<Bytes, NoMemory>
    ensures { IfOk result (λ name. name ≡ output_name field.now (name_of accumulator)) }
{
    let mut name = Bytes::copy_of(alloc, field)?;
    name.append(b"_")?;
    accumulator.append_name(&mut name)?;
    Ok(name)
}
