//! The shaping verbs: `Spec` is a verb with its options, and `ShapeVerb` is the verb in a chain. Each verb has a crate of its own
//! below.
#![tactic(auto)]

mod running;
mod spec;
mod verb;

pub use spec::{LeftInput, Spec};
pub use verb::ShapeVerb;
pub use verbs_join::Join;
pub use verbs_nest::{Nest, NestForm};
pub use verbs_reshape::{LongFields, Reshape, ToLong, ToWide};
