//! The statistics that are asked for.
ghost use Rattle.std.specs.Prelude.{◌≡◌};
ghost use Rattle.mlr_stats.specs.Kept.{needs_of};

use crate::needs::Needs;
use mlr_list::List;
use stat_base::Accumulator;
use std::marker::Model;

/// Some statistics, and what must be kept of values for them.
#[derive(Drop)]
pub struct Statistics {
    accumulators: List<Accumulator>,
    needs: Needs,
}

impl Model for Statistics {
    ghost use Rattle.std.specs.Prelude.{◌≡◌, List as Items};
    ghost use Rattle.stat_base.specs.declared.accumulator.Accumulator.{Accumulator as SpecAccumulator};
    ghost use Rattle.mlr_stats.specs.Kept.{needs_of};

    ghost Value = { Items SpecAccumulator };

    ghost view = { λ statistics. statistics.accumulators };

    ghost invariant = { λ statistics. statistics.needs ≡ needs_of statistics.accumulators };
}

impl Statistics {
    /// These statistics. It doesn't allocate.
    pub fn new(accumulators: List<Accumulator>) -> Self
        ensures { result ≡ accumulators }
    {
        let needs = Needs::of(accumulators.as_slice());
        Statistics {
            accumulators,
            needs,
        }
    }

    /// The statistics, in the order in which they are given.
    pub(crate) fn accumulators(&self) -> &[Accumulator]
        ensures { result.now ≡ self.now }
    {
        self.accumulators.as_slice()
    }

    /// What must be kept of values.
    pub(crate) fn needs(&self) -> Needs
        ensures { result ≡ needs_of self.now }
    {
        self.needs
    }
}
