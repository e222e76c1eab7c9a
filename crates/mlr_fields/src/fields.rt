//! Records built field by field.
ghost use Rattle.std.specs.Prelude.{◌≡◌, ◌^◌, ◌<◌, ◌≤◌, ◌++◌, ◌∷◌, [], None, true, length, OnOk};
ghost use Rattle.mlr_spec.specs.Infer.{tree_of_data};
ghost use Rattle.mlr_spec.specs.Pairs.{are_distinct, keys_of, value_at};
ghost use Rattle.mlr_value.specs.Value.{tree_of};
ghost use Rattle.mlr_event.specs.Rows.{with_field};
ghost use Rattle.mlr_fields.specs.Marks.{mark_of};

use crate::marks::{NameMarks, mark_of};
use crate::name_index::NameIndex;
use crate::suffixes::{FIRST, first_free};
use mlr_event::ReadOpts;
use mlr_event::rows::TakenNames;
use mlr_record::Record;
use mlr_spec::NoMemory;
use mlr_value::{Value, from_data};
use std::alloc::Global;
use std::marker::Model;
use std::mem;

/// Under so many names a search goes over the names themselves.
pub(crate) const FEW: usize = 64;

/// A record that is built field by field. Its names have an index once they are many, so that it takes time
/// proportional to the count of fields.
pub struct Fields {
    record: Record,
    /// The marks of its names.
    marks: NameMarks,
    /// The names of the first fields, where there are many.
    index: Option<NameIndex>,
}

// Written by hand, so that the crates above call it instead of dropping the fields themselves.
impl Drop for Fields {
    #[inline]
    fn drop(self) {
        let Fields {
            record,
            marks: _,
            index,
        } = self;
        drop(record);
        drop(index);
    }
}

impl Model for Fields {
    ghost use Rattle.std.specs.Prelude.{List, ℕ, ◌≤◌, IfSome, length};
    ghost use Rattle.mlr_spec.specs.Tree.{Tree};
    ghost use Rattle.mlr_spec.specs.TreeCode.{coded_pairs};
    ghost use Rattle.mlr_spec.specs.Pairs.{keys_of};
    ghost use Rattle.mlr_fields.specs.Marks.{AreMarked};
    ghost use Rattle.mlr_fields.specs.Prefixes.{IsPrefix};
    ghost use Rattle.mlr_fields.specs.declared.fields.TheConstants.{FEW};

    ghost Value = { List (List ℕ × Tree) };

    ghost coded = { coded_pairs };

    ghost view = { λ fields. fields.record };

    ghost invariant = { λ fields. AreMarked fields.marks (keys_of fields.record)
        × IfSome fields.index (λ index.
        IsPrefix index (keys_of fields.record) × (FEW ≤ length index)) };
}

impl Fields {
    /// The fields of a record, to which more are added. It takes no memory.
    #[inline]
    pub fn new(from: Record) -> Self
        ensures { result ≡ from }
    {
        let marks = if from.len() == 0 {
            NameMarks::none()
        } else {
            NameMarks::all()
        };
        Fields {
            record: from,
            marks,
            index: None,
        }
    }

    /// How many fields it has.
    #[inline]
    pub fn len(&self) -> usize
        ensures { result ≡ length self.now }
    {
        self.record.len()
    }

    /// The record. It takes no memory.
    #[inline]
    pub fn into_record(self) -> Record
        ensures { result ≡ self }
    {
        let Fields {
            record,
            marks: _,
            index: _,
        } = self;
        record
    }

    /// Appends a field whose name isn't there. It makes no search.
    #[inline(always)]
    pub fn push(&mut self, name: &[u8], value: Value) -> Result<(), NoMemory>
        requires { value_at name.now self.old ≡ None }
        ensures { OnOk result (self.new ≡ self.old ++ (name.now, tree_of value) ∷ []) }
    {
        self.push_marked(name, mark_of(name), value)
    }

    /// Appends a field whose name isn't there and has this mark.
    #[inline(always)]
    fn push_marked(&mut self, name: &[u8], mark: usize, value: Value) -> Result<(), NoMemory>
        requires new { value_at name.now self.old ≡ None }
        requires mark { mark ≡ mark_of name.now }
        requires few { mark < 64 }
        ensures { OnOk result (self.new ≡ self.old ++ (name.now, tree_of value) ∷ []) }
    {
        self.record.push(name, value)?;
        self.marks.add(mark);
        Ok(())
    }

    /// Sets a field. A name that is there gets a suffix, or its value is replaced.
    #[inline]
    pub fn put(
        &mut self,
        alloc: Global,
        name: &[u8],
        value: Value,
        dedupe: bool,
    ) -> Result<(), NoMemory>
        requires { length self.old < 2 ^ 63 }
        ensures { OnOk result (self.new ≡ with_field dedupe name.now (tree_of value) self.old) }
    {
        let mark = mark_of(name);
        if self.marks.lack(mark) {
            self.push_marked(name, mark, value)
        } else {
            self.put_searched(alloc, name, value, dedupe)
        }
    }

    /// Sets a field of this text, by the options. A name that is there gets a suffix, or its value is replaced.
    #[inline]
    pub fn put_text(
        &mut self,
        alloc: Global,
        opts: &ReadOpts,
        name: &[u8],
        text: &[u8],
    ) -> Result<(), NoMemory>
        requires { length self.old < 2 ^ 63 }
        ensures { OnOk result (self.new ≡ with_field opts.now.dedupe name.now
            (tree_of_data opts.now.infer text.now) self.old) }
    {
        let mark = mark_of(name);
        if !self.marks.lack(mark) {
            return self.put_text_searched(alloc, opts, name, text);
        }
        let value = from_data(alloc, text, opts.infer)?;
        self.push_marked(name, mark, value)
    }

    /// Sets a field of this text, whose name is searched for.
    #[inline(never)]
    fn put_text_searched(
        &mut self,
        alloc: Global,
        opts: &ReadOpts,
        name: &[u8],
        text: &[u8],
    ) -> Result<(), NoMemory>
        requires { length self.old < 2 ^ 63 }
        ensures { OnOk result (self.new ≡ with_field opts.now.dedupe name.now
            (tree_of_data opts.now.infer text.now) self.old) }
    {
        let value = from_data(alloc, text, opts.infer)?;
        self.put_searched(alloc, name, value, opts.dedupe)
    }

    /// Sets a field, whose name is searched for.
    #[inline(never)]
    fn put_searched(
        &mut self,
        alloc: Global,
        name: &[u8],
        value: Value,
        dedupe: bool,
    ) -> Result<(), NoMemory>
        requires { length self.old < 2 ^ 63 }
        ensures { OnOk result (self.new ≡ with_field dedupe name.now (tree_of value) self.old) }
    {
        if self.record.len() < FEW {
            self.put_few(alloc, name, value, dedupe)
        } else {
            self.put_many(alloc, name, value, dedupe)
        }
    }

    /// Sets a field of a record of few fields.
    #[inline]
    fn put_few(
        &mut self,
        alloc: Global,
        name: &[u8],
        value: Value,
        dedupe: bool,
    ) -> Result<(), NoMemory>
        requires { length self.old < 2 ^ 63 }
        ensures { OnOk result (self.new ≡ with_field dedupe name.now (tree_of value) self.old) }
    {
        if !self.record.has(name) {
            self.push(name, value)
        } else if dedupe {
            let (_, free) = first_free(alloc, &self.record, name, FIRST)?;
            self.push(free.as_slice(), value)
        } else {
            self.record.put(name, value)
        }
    }

    /// Sets a field of a record of many fields.
    #[cold]
    #[inline(never)]
    fn put_many(
        &mut self,
        alloc: Global,
        name: &[u8],
        value: Value,
        dedupe: bool,
    ) -> Result<(), NoMemory>
        requires many { FEW ≤ length self.old }
        requires few { length self.old < 2 ^ 63 }
        ensures { OnOk result (self.new ≡ with_field dedupe name.now (tree_of value) self.old) }
    {
        let mut index = match mem::replace(&mut self.index, None) {
            Some(index) => index,
            None => NameIndex::new(alloc, 2 * FEW)?,
        };
        index.add_names(&self.record)?;
        self.marks = NameMarks::all();
        put_indexed(&mut self.record, &mut index, name, value, dedupe)?;
        self.index = Some(index);
        Ok(())
    }
}

/// Sets a field in a record whose names are in an index. It adds no name to the index.
fn put_indexed(
    record: &mut Record,
    index: &mut NameIndex,
    name: &[u8],
    value: Value,
    dedupe: bool,
) -> Result<(), NoMemory>
    requires few { length record.old < 2 ^ 63 }
    requires distinct { are_distinct index.old ≡ true }
    requires index { index.old ≡ keys_of record.old }
    ensures record { OnOk result (record.new
        ≡ with_field dedupe name.now (tree_of value) record.old) }
    ensures index { index.new ≡ index.old }
{
    if dedupe {
        let free = index.free_name(name)?;
        return record.push(free.as_slice(), value);
    }
    match index.place(name) {
        None => record.push(name, value),
        Some(place) => {
            record.replace(place, value);
            Ok(())
        }
    }
}
