//! What must be kept of values for some statistics.
ghost use Rattle.std.specs.Prelude.{◌≡◌};
ghost use Rattle.mlr_stats.specs.Kept.{needs_more, needs_of, with_needs};

use stat_base::Accumulator;

/// What must be kept of values for some statistics, beside counts.
#[derive(Clone, Copy)]
pub struct Needs {
    pub sum: bool,
    pub least: bool,
    pub greatest: bool,
    pub first: bool,
    pub last: bool,
    /// The number of the values of each text.
    pub texts: bool,
    /// All values.
    pub values: bool,
}

impl Needs {
    /// What these statistics need.
    pub(crate) fn of(accumulators: &[Accumulator]) -> Needs
        ensures { result ≡ needs_of accumulators.now }
    {
        let mut needs = Needs {
            sum: false,
            least: false,
            greatest: false,
            first: false,
            last: false,
            texts: false,
            values: false,
        };
        for accumulator in accumulators {
            needs = needs.with(*accumulator);
        }
        needs
    }

    /// What is needed for one more statistic.
    fn with(self, accumulator: Accumulator) -> Needs
        ensures { result ≡ with_needs self accumulator }
    {
        match accumulator {
            Accumulator::Count | Accumulator::NullCount => self,
            Accumulator::Sum | Accumulator::Mean => Needs { sum: true, ..self },
            Accumulator::Min => Needs {
                least: true,
                ..self
            },
            Accumulator::Max => Needs {
                greatest: true,
                ..self
            },
            Accumulator::First => Needs {
                first: true,
                ..self
            },
            Accumulator::Last => Needs { last: true, ..self },
            Accumulator::Mode | Accumulator::Antimode | Accumulator::DistinctCount => Needs {
                texts: true,
                ..self
            },
            Accumulator::Median | Accumulator::Percentile(_) => Needs {
                values: true,
                ..self
            },
        }
    }

    /// Whether more than counts and the sum is needed.
    pub(crate) fn more(self) -> bool
        ensures { result ≡ needs_more self }
    {
        self.least || self.greatest || self.first || self.last || self.texts || self.values
    }
}
