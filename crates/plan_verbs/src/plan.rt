//! A command as a plan: inputs, verbs and styles.
ghost use Rattle.std.specs.Prelude.{◌≡◌, IfOk};
ghost use Rattle.plan_verbs.specs.Plans.{IsCopy, IsSound};
ghost use Rattle.verb_specs.specs.Verbs.{AreSameVerbs};

use mlr_event::{NameList, ReadOpts};
use mlr_list::List;
use mlr_spec::NoMemory;
use std::alloc::Global;
use verb_specs::VerbSpec;
use writers::WriteOpts;

/// Verbs in their order.
pub type VerbList = List<VerbSpec>;

/// How the outputs of a command are written, by their numbers.
pub type StyleList = List<WriteOpts>;

/// What a command reads, through which verbs its records go, and how they are written.
pub struct Plan {
    /// How the main inputs are read.
    pub read: ReadOpts,
    /// The main inputs, in their order.
    pub inputs: NameList,
    /// No main input is read.
    pub no_input: bool,
    /// The verbs, in their order; only the first may be a source.
    pub verbs: VerbList,
    /// How outputs are written: the first style is that of standard output.
    pub styles: StyleList,
    /// At most so many records go from one thread to the next at a time.
    pub per_batch: u64,
    /// A loop of the language takes at most so many turns.
    pub turns: u64,
    /// The run goes one after the other, without threads.
    pub serial: bool,
}

// Written by hand, so that the crates above call it instead of dropping the fields themselves.
impl Drop for Plan {
    fn drop(self) {
        let Plan {
            read,
            inputs,
            no_input: _,
            verbs,
            styles,
            per_batch: _,
            turns: _,
            serial: _,
        } = self;
        drop(read);
        drop(inputs);
        drop(verbs);
        drop(styles);
    }
}

impl Plan {
    /// A copy, which shares the patterns. It takes memory for lists, and for texts of more than 20 bytes.
    pub fn copy(&self, alloc: Global) -> Result<Self, NoMemory>
        ensures copy { IfOk result (λ copy. IsCopy self.now copy) }
        ensures sound { IfOk result (λ copy. IsSound self.now → IsSound copy) }
    {
        Ok(Plan {
            read: self.read.copy(alloc)?,
            inputs: self.inputs.copy()?,
            no_input: self.no_input,
            verbs: copy_verbs(alloc, self.verbs.as_slice())?,
            styles: copy_styles(alloc, self.styles.as_slice())?,
            per_batch: self.per_batch,
            turns: self.turns,
            serial: self.serial,
        })
    }
}

/// A copy of a list of verbs.
fn copy_verbs(alloc: Global, verbs: &[VerbSpec]) -> Result<VerbList, NoMemory>
    ensures { IfOk result (λ copies. AreSameVerbs verbs.now copies) }
{
    let mut copies = List::new(alloc);
    for verb in verbs {
        copies.push(verb.copy(alloc)?)?;
    }
    Ok(copies)
}

/// A copy of a list of styles.
fn copy_styles(alloc: Global, styles: &[WriteOpts]) -> Result<StyleList, NoMemory>
    ensures { IfOk result (λ copies. copies ≡ styles.now) }
{
    let mut copies = List::new(alloc);
    for style in styles {
        copies.push(style.copy(alloc)?)?;
    }
    Ok(copies)
}
