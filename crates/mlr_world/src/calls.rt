//! What the objects in memory are told about their calls: which fail, and the sizes of the pieces.
ghost use Rattle.std.specs.Prelude.{◌≡◌};
ghost use Rattle.mlr_world.specs.Calls.{calls_of, next_fails, called, limit_of, sizes_after};

use crate::Got;
use std::marker::Model;

/// The numbers, from 1, of the calls that fail, and the number of calls so far.
#[derive(Drop)]
pub(crate) struct Failing {
    numbers: Vec<u64>,
    calls: u64,
}

impl Model for Failing {
    ghost use Rattle.mlr_world.specs.Calls.{Calls};

    ghost Value = { Calls };

    ghost view = { λ f. record { failing = f.numbers.items; made = f.calls } };
}

impl Failing {
    pub(crate) fn new(numbers: Vec<u64>) -> Failing
        ensures { result ≡ calls_of numbers.items }
    {
        Failing { numbers, calls: 0 }
    }

    /// Counts a call, and returns whether it fails.
    pub(crate) fn next(&mut self) -> bool
        ensures fails { result ≡ next_fails self.old }
        ensures called { self.new ≡ called self.old }
    {
        self.calls = self.calls.saturating_add(1);
        self.numbers.contains(&self.calls)
    }
}

/// The sizes of the pieces, and how many of them were used.
#[derive(Drop)]
pub(crate) struct Pieces {
    sizes: Vec<usize>,
    used: usize,
}

impl Model for Pieces {
    ghost use Rattle.std.specs.Prelude.{ℕ, ◌≤◌, List, drop, length};

    ghost Value = { List ℕ };

    ghost view = { λ p. drop p.used p.sizes.items };

    ghost invariant = { λ p. p.used ≤ length p.sizes.items };
}

impl Pieces {
    pub(crate) fn new(sizes: Vec<usize>) -> Pieces
        ensures { result ≡ sizes.items }
    {
        Pieces { sizes, used: 0 }
    }

    /// The most bytes that the next read takes.
    pub(crate) fn limit(&self, max: usize) -> usize
        ensures { result ≡ limit_of self.now max }
    {
        match self.sizes.get(self.used) {
            Some(size) => max.min((*size).max(1)),
            None => max,
        }
    }

    /// Goes on to the next size if the read took bytes.
    pub(crate) fn pass(&mut self, got: Got)
        ensures { self.new ≡ sizes_after got self.old }
    {
        match got {
            Got::Some(_) => {
                if self.used < self.sizes.len() {
                    self.used += 1;
                }
            }
            Got::End | Got::Failed | Got::NoMemory => {}
        }
    }
}
