//! The options of `join`.
ghost use Rattle.std.specs.Prelude.{◌≡◌, IfOk};

use mlr_event::{InputName, Names, ReadOpts};
use mlr_spec::NoMemory;
use mlr_value::Bytes;
use std::alloc::Global;

/// The options of `join`.
pub struct Join {
    /// `-f`: the left file.
    pub file: InputName,
    /// How the left file is read. The verb itself doesn't look at it.
    pub read: ReadOpts,
    /// `-l`: the names of the join fields in a left record.
    pub left: Names,
    /// `-r`: their names in a right record, which are as many.
    pub right: Names,
    /// `-j`: their names in a pair, which are as many.
    pub output: Names,
    /// Whether pairs are given, as they are without `--np`.
    pub pairs: bool,
    /// `--ul`: whether left records without a pair are given, at the end.
    pub left_unpaired: bool,
    /// `--ur`: whether right records without a pair are given.
    pub right_unpaired: bool,
    /// `--lp`: what precedes the name of a left record's field where the right one has such a field too.
    pub left_prefix: Option<Bytes>,
    /// `--rp`: the same for a right record's field.
    pub right_prefix: Option<Bytes>,
}

// Written by hand, so that the crates above call it instead of dropping the fields themselves.
impl Drop for Join {
    fn drop(self) {
        let Join {
            file,
            read,
            left,
            right,
            output,
            pairs: _,
            left_unpaired: _,
            right_unpaired: _,
            left_prefix,
            right_prefix,
        } = self;
        drop(file);
        drop(read);
        drop(left);
        drop(right);
        drop(output);
        drop(left_prefix);
        drop(right_prefix);
    }
}

impl Join {
    /// A copy. It allocates for the names of fields, and for other texts of more than 20 bytes.
    pub fn copy(&self, alloc: Global) -> Result<Self, NoMemory>
        ensures { IfOk result (λ copy. copy ≡ self.now) }
    {
        Ok(Join {
            file: self.file.copy(alloc)?,
            read: self.read.copy(alloc)?,
            left: self.left.copy()?,
            right: self.right.copy()?,
            output: self.output.copy()?,
            pairs: self.pairs,
            left_unpaired: self.left_unpaired,
            right_unpaired: self.right_unpaired,
            left_prefix: self.left_prefix.as_ref().map(Bytes::copy).transpose()?,
            right_prefix: self.right_prefix.as_ref().map(Bytes::copy).transpose()?,
        })
    }
}
