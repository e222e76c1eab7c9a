//! `rename`: renames fields, by their names or by patterns.
ghost use Rattle.std.specs.Prelude.{◌≡◌, map, IfOk};
ghost use Rattle.regex.specs.Bytes.{matcher_pattern};
ghost use Rattle.verbs_pattern.specs.Rename.{AreSameRename, ArePatternsOf, rename};

use crate::rename_patterns::RenamePatterns;
use crate::searching::{Searches, Searching, search_each};
use mlr_event::Events;
use mlr_pattern::Matcher;
use mlr_record::Record;
use mlr_spec::NoMemory;
use std::alloc::Global;
use verbs_base::PerRecord;
use verbs_fields::{Renaming, rename_each};

/// The renamings of `rename`.
#[derive(Drop)]
pub enum Rename {
    /// Each name in turn is replaced by another.
    Names(Vec<Renaming>),
    /// Each pattern in turn rewrites the names that match it.
    Patterns(RenamePatterns),
}

impl Rename {
    /// A copy, which shares the patterns. It allocates the list, and texts of more than 20 bytes.
    pub fn copy(&self, alloc: Global) -> Result<Self, NoMemory>
        ensures same { IfOk result (λ copy. AreSameRename copy self.now) }
        ensures meaning { IfOk result (λ copy. rename copy ≡ rename self.now) }
    {
        Ok(match self {
            Rename::Names(renamings) => Rename::Names(copy_renamings(alloc, renamings)?),
            Rename::Patterns(options) => Rename::Patterns(options.copy(alloc)?),
        })
    }

    /// A matcher for each pattern, and none where the fields are named.
    fn matchers(&self, alloc: Global) -> Result<Vec<Matcher<'_>>, NoMemory>
        ensures { IfOk result (λ made. ArePatternsOf self.now (map matcher_pattern made.items)) }
    {
        match self {
            Rename::Names(_) => Ok(Vec::new(alloc)),
            Rename::Patterns(patterns) => patterns.matchers(alloc),
        }
    }
}

/// The verb `rename`. It makes one matcher for each pattern, for all records of a list.
pub type RenameVerb = Searching<Rename>;

impl Searches for Rename {
    ghost use Rattle.verbs_base.specs.Records.{maps};
    ghost use Rattle.verbs_pattern.specs.Rename.{rename};

    ghost gives = { λ options. maps (rename options) };

    fn search_all(
        &self,
        alloc: Global,
        events: &mut Events,
        out: &mut Events,
    ) -> Result<(), NoMemory> {
        let matchers = self.matchers(alloc)?;
        let options = self;
        search_each(alloc, Search { options, matchers }, events, out)
    }
}

/// The search for the fields of `rename`, for the records of one list. It has no matchers where the fields are named.
#[derive(Drop)]
struct Search<'r> {
    options: &'r Rename,
    matchers: Vec<Matcher<'r>>,
}

impl PerRecord for Search<'_> {
    ghost use Rattle.std.specs.Prelude.{map};
    ghost use Rattle.regex.specs.Bytes.{matcher_pattern};
    ghost use Rattle.verbs_base.specs.Records.{maps};
    ghost use Rattle.verbs_pattern.specs.Rename.{ArePatternsOf, rename};

    ghost gives = { λ s. maps (rename s.options.now) };

    ghost sound = { λ s. ArePatternsOf s.options.now (map matcher_pattern s.matchers.items) };

    fn made(&mut self, alloc: Global, fields: Record) -> Result<Option<Record>, NoMemory> {
        let made = match self.options {
            Rename::Names(renamings) => rename_each(renamings.as_slice(), fields)?,
            Rename::Patterns(patterns) => patterns.renamed(alloc, &mut self.matchers, fields)?,
        };
        Ok(Some(made))
    }
}

fn copy_renamings(alloc: Global, renamings: &[Renaming]) -> Result<Vec<Renaming>, NoMemory>
    ensures { IfOk result (λ copy. copy.items ≡ renamings.now) }
{
    let mut copies = Vec::with_capacity(alloc, renamings.len())?;
    for renaming in renamings {
        copies.push(renaming.copy(alloc)?)?;
    }
    Ok(copies)
}
