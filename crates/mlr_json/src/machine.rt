//! A value that is read token by token.
ghost use Rattle.std.specs.Prelude.{◌≤◌, vec_len};

use crate::{Frame, Phase};
use mlr_value::Value;
use std::alloc::Global;

/// A value that is read token by token. Where a token is wrong or goes too deep, and without memory, it is given up.
#[derive(Drop)]
pub struct Machine {
    pub(crate) alloc: Global,
    /// The brackets that are open, the innermost last.
    pub(crate) frames: Vec<Frame>,
    pub(crate) phase: Phase,
    ghost is_shallow: { vec_len frames ≤ 100 },
}

/// What a token led to.
#[derive(Drop)]
pub enum Went {
    /// More tokens belong to the value.
    On,
    /// The value is whole. The machine is ready for the next one.
    Whole(Value),
    /// The token may not come here.
    Wrong,
    /// The token opens level 101.
    Deep,
}
