//! The header of a CSV file.
ghost use Rattle.std.specs.Prelude.{◌≡◌, true, IfOk};
ghost use Rattle.mlr_event.specs.Reading.{distinct_names};

use mlr_fields::Header;
use mlr_spec::NoMemory;
use mlr_value::Bytes;
use std::alloc::Global;
use std::marker::Model;

/// The header of a file. It records once whether the names are distinct, so that rows under distinct names
/// need no search.
#[derive(Drop)]
pub(crate) struct Heading {
    header: Header,
    distinct: bool,
}

impl Model for Heading {
    ghost use Rattle.std.specs.Prelude.{List, ℕ, ◌≡◌, true};
    ghost use Rattle.mlr_event.specs.Reading.{distinct_names};

    ghost Value = { List (List ℕ) };

    ghost view = { λ heading. heading.header };

    ghost invariant = { λ heading. heading.distinct ≡ true
        → distinct_names heading.header ≡ heading.header };
}

impl Heading {
    /// A header of these names.
    pub(crate) fn new(alloc: Global, names: Vec<Bytes>) -> Result<Self, NoMemory>
        ensures { IfOk result (λ heading. heading ≡ names.items) }
    {
        let header = Header::new(alloc, names)?;
        let distinct = header.keys() == header.names();
        Ok(Heading { header, distinct })
    }

    /// The names as they are in the file, and made distinct.
    #[inline]
    pub(crate) fn header(&self) -> &Header
        ensures { result.now ≡ self.now }
    {
        &self.header
    }

    /// Whether the names in the file are distinct.
    #[inline]
    pub(crate) fn is_distinct(&self) -> bool
        ensures { result ≡ true → distinct_names self.now ≡ self.now }
    {
        self.distinct
    }
}
