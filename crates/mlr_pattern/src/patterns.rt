//! A list of patterns.
ghost use Rattle.std.specs.Prelude.{◌≡◌, ◌++◌, ◌∷◌, [], length, if◌then◌else◌, is_ok, IfOk, map, slice_get};
ghost use Rattle.std.specs.Arc.{arc_value};
ghost use Rattle.std.specs.Option.{option_map};
ghost use Rattle.regex.specs.Bytes.{regex_pattern};
ghost use Rattle.mlr_pattern.specs.Several.{patterns_in};

use crate::Pattern;
use mlr_spec::NoMemory;
use std::alloc::Global;
use std::sync::Arc;

/// Patterns in order, as options of verbs have them. A copy shares them.
#[derive(Drop)]
pub struct Patterns {
    alloc: Global,
    patterns: Vec<Arc<Pattern>>,
}

impl Patterns {
    /// No patterns. It doesn't allocate.
    pub fn new(alloc: Global) -> Self
        ensures { patterns_in result ≡ [] }
    {
        Patterns {
            alloc,
            patterns: Vec::new(alloc),
        }
    }

    /// The number of patterns.
    pub fn len(&self) -> usize
        ensures { result ≡ length (patterns_in self.now) }
    {
        self.patterns.len()
    }

    /// The pattern at a place, which counts from 0.
    pub fn at(&self, place: usize) -> Option<&Arc<Pattern>>
        ensures { option_map (λ pattern. regex_pattern (arc_value pattern.now)) result
            ≡ slice_get (patterns_in self.now) place }
    {
        self.patterns.get(place)
    }

    /// All patterns.
    #[inline]
    pub fn as_slice(&self) -> &[Arc<Pattern>]
        ensures { map (λ pattern. regex_pattern (arc_value pattern)) result.now
            ≡ patterns_in self.now }
    {
        self.patterns.as_slice()
    }

    /// Appends a pattern.
    pub fn push(&mut self, pattern: Arc<Pattern>) -> Result<(), NoMemory>
        ensures { patterns_in self.new ≡ (if is_ok result
            then patterns_in self.old ++ regex_pattern (arc_value pattern) ∷ []
            else patterns_in self.old) }
    {
        self.patterns.push(pattern)?;
        Ok(())
    }

    /// The patterns, as a vector.
    pub fn into_vec(self) -> Vec<Arc<Pattern>>
        ensures { map (λ pattern. regex_pattern (arc_value pattern)) result.items
            ≡ patterns_in self }
    {
        self.patterns
    }

    /// A copy, which shares the patterns.
    pub fn copy(&self) -> Result<Patterns, NoMemory>
        ensures { IfOk result (λ copy. patterns_in copy ≡ patterns_in self.now) }
    {
        let mut patterns = Vec::with_capacity(self.alloc, self.patterns.len())?;
        for pattern in &self.patterns {
            patterns.push(Arc::try_clone(pattern)?)?;
        }
        Ok(Patterns {
            alloc: self.alloc,
            patterns,
        })
    }
}
