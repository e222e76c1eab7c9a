//! `cat`: passes records, with their numbers if the options ask for them.
ghost use Rattle.std.specs.Prelude.{◌≡◌, ◌≤◌, [], None, IfOk, IsOk, length};
ghost use Rattle.verbs_state.specs.Cat.{cat, is_plain, numbered};

use crate::counted::no_tallies;
use mlr_event::{Ctx, Event, Events, Names};
use mlr_groups::{Tallies, next_count};
use mlr_record::Record;
use mlr_spec::NoMemory;
use mlr_value::{Bytes, IntValue, Value};
use std::alloc::Global;
use verbs_base::Stateful;

/// The options of `cat`.
#[derive(Drop)]
pub struct Cat {
    /// Whether each record gets its number, counted from 1.
    pub number: bool,
    /// The name of the field for the number.
    pub name: Bytes,
    /// The grouping fields: each group is counted by itself.
    pub groups: Option<Names>,
}

impl Cat {
    /// A copy. It allocates for a name of more than 20 bytes, and for the names of the grouping fields.
    pub fn copy(&self, alloc: Global) -> Result<Self, NoMemory>
        ensures same { IfOk result (λ copy. copy ≡ self.now) }
        ensures short { length self.now.name ≤ 20 → self.now.groups ≡ None → IsOk result }
    {
        Ok(Cat {
            number: self.number,
            name: Bytes::copy_of(alloc, self.name.as_slice())?,
            groups: self.groups.as_ref().map(Names::copy).transpose()?,
        })
    }
}

/// The verb `cat`.
#[derive(Drop)]
pub struct CatVerb {
    alloc: Global,
    options: Cat,
    tallies: Tallies,
}

impl CatVerb {
    /// The verb with these options, before the first record.
    pub fn new(alloc: Global, options: Cat) -> Result<Self, NoMemory>
        ensures meaning { IfOk result (λ made. ⟦<CatVerb as Stateful>⟧.meaning made ≡ cat options) }
        ensures represents { IfOk result (λ made. ⟦<CatVerb as Stateful>⟧.represents made []) }
    {
        let tallies = no_tallies(alloc, &options.groups)?;
        Ok(CatVerb {
            alloc,
            options,
            tallies,
        })
    }
}

impl Stateful for CatVerb {
    ghost use Rattle.verbs_base.specs.Laws.{stream-shuts};
    ghost use Rattle.verbs_base.specs.Records.{records};
    ghost use Rattle.verbs_state.specs.Cat.{CatRepresents, cat, cat_gives};

    ghost meaning = { λ s. cat s.options };

    ghost represents = { λ s before. CatRepresents s (records before) };

    ghost shuts = { λ s. stream-shuts (cat_gives s.options) };

    fn take(&mut self, fields: Record, ctx: Ctx, out: &mut Events) -> Result<(), NoMemory> {
        if is_plain(&self.options) {
            return out.push(Event::Rec(fields, ctx));
        }
        match self.tallies.count(&fields)? {
            Some(count) => {
                let made = number(self.alloc, &self.options, count, fields)?;
                out.push(Event::Rec(made, ctx))
            }
            None => Ok(()),
        }
    }

    fn finish(&mut self, _: Ctx, _: &mut Events) -> Result<(), NoMemory> {
        Ok(())
    }

    fn is_shut(&self) -> bool {
        false
    }

    fn never_shuts(&self) -> bool {
        true
    }

    fn passes_each(&self) -> bool {
        is_plain(&self.options)
    }
}

/// Whether `cat` numbers no records and has no grouping fields.
fn is_plain(options: &Cat) -> bool
    ensures { result ≡ is_plain options.now }
{
    !options.number && options.groups.is_none()
}

/// The record with its number as the first field, if the options ask for numbers.
fn number(alloc: Global, options: &Cat, earlier: u64, fields: Record) -> Result<Record, NoMemory>
    ensures { IfOk result (λ made. made ≡ numbered options.now earlier fields) }
{
    let mut made = fields;
    if options.number {
        let count = Value::Int(IntValue {
            n: next_count(earlier) as i64,
            spelling: Bytes::new(alloc),
        });
        made.put_first(options.name.as_slice(), count)?;
    }
    Ok(made)
}
