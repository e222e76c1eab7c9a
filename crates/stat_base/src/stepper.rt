//! The steppers of `step`.
ghost use Rattle.std.specs.Prelude.{◌≡◌};
ghost use Rattle.stat_base.specs.Steppers.{name_of, stepper_named};

/// What `step` gives for a value of a field.
#[derive(Clone, Copy)]
pub enum Stepper {
    /// The value before.
    Shift,
    /// The value without the one before.
    Delta,
    /// The sum of the values so far.
    Rsum,
    /// How many values there are so far.
    Counter,
}

impl Stepper {
    /// The stepper of this name.
    pub fn named(name: &[u8]) -> Option<Stepper>
        ensures { result ≡ stepper_named name.now }
    {
        if name == b"shift".as_slice() {
            Some(Stepper::Shift)
        } else if name == b"delta".as_slice() {
            Some(Stepper::Delta)
        } else if name == b"rsum".as_slice() {
            Some(Stepper::Rsum)
        } else if name == b"counter".as_slice() {
            Some(Stepper::Counter)
        } else {
            None
        }
    }

    /// Its name.
    pub fn name(self) -> &'static [u8]
        ensures { result.now ≡ name_of self }
    {
        match self {
            Stepper::Shift => b"shift",
            Stepper::Delta => b"delta",
            Stepper::Rsum => b"rsum",
            Stepper::Counter => b"counter",
        }
    }
}
