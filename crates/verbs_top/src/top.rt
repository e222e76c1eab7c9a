//! `top`: the greatest ints of some fields, or the least.
ghost use Rattle.std.specs.Prelude.{◌≡◌, [], IfOk};
ghost use Rattle.verbs_top.specs.Top.{top};

use crate::state::TopState;
use group_state::OfGroups;
use mlr_event::Names;
use mlr_groups::GroupBy;
use mlr_spec::NoMemory;
use mlr_value::Bytes;
use std::alloc::Global;
use verbs_base::Stateful;

/// Which ints come first.
#[derive(Clone, Copy, PartialEq, Eq)]
pub enum TopOrder {
    /// The greatest.
    Max,
    /// The least.
    Min,
}

/// The options of `top`.
#[derive(Drop)]
pub struct Top {
    /// The fields whose ints are taken.
    pub names: Names,
    /// The number of ints that are given.
    pub count: u64,
    /// The grouping fields: the first `count` ints of each group are given.
    pub groups: Option<Names>,
    pub order: TopOrder,
    /// `-a`: the records that have the ints of the first field are given.
    pub whole: bool,
    /// The name of the field that has the place of an int.
    pub output: Bytes,
}

/// The verb `top`.
pub type TopVerb = OfGroups<TopState>;

impl Top {
    /// A copy. It allocates for the names.
    pub fn copy(&self, alloc: Global) -> Result<Self, NoMemory>
        ensures { IfOk result (λ copy. copy ≡ self.now) }
    {
        Ok(Top {
            names: self.names.copy()?,
            count: self.count,
            groups: self.groups.as_ref().map(Names::copy).transpose()?,
            order: self.order,
            whole: self.whole,
            output: Bytes::copy_of(alloc, self.output.as_slice())?,
        })
    }

    /// The verb before the first record. It allocates for its options, which all groups share.
    pub fn verb(self, alloc: Global) -> Result<TopVerb, NoMemory>
        ensures meaning { IfOk result (λ made. ⟦<TopVerb as Stateful>⟧.meaning made ≡ top self) }
        ensures represents { IfOk result (λ made. ⟦<TopVerb as Stateful>⟧.represents made []) }
    {
        let names = match &self.groups {
            Some(names) => names.copy()?,
            None => Names::new(alloc),
        };
        let state = TopState::new(alloc, self)?;
        Ok(OfGroups::new(alloc, GroupBy::Texts(names), state))
    }
}
