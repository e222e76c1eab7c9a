//! Names in strict byte order.
ghost use Rattle.std.specs.Prelude.{◌≡◌, ◌<◌, [], map, length, get_or, true};
ghost use Rattle.mlr_tables.specs.Table.{row_of, is_ascending};

use std::cmp::Ordering;
use std::marker::Model;

/// Names in strict byte order, by which each has a row from 0.
#[derive(Drop)]
pub struct Table<const N: usize> {
    names: &'static [&'static [u8]],
}

impl<const N: usize> Model for Table<N> {
    ghost use Rattle.std.specs.Prelude.{◌≡◌, ℕ, List, map, length, true};
    ghost use Rattle.mlr_tables.specs.Table.{is_ascending};

    ghost Value = { List (List ℕ) };

    ghost view = { λ t. map (λ name. name.now) t.names.now };

    ghost invariant = { λ t. (is_ascending (map (λ name. name.now) t.names.now) ≡ true)
        × (length t.names.now ≡ N) };
}

impl<const N: usize> Table<N> {
    /// The table of these names.
    pub(crate) const fn new(names: &'static [&'static [u8]]) -> Self
        requires order { is_ascending (map (λ name. name.now) names.now) ≡ true }
        requires count { length names.now ≡ N }
        ensures { result ≡ map (λ name. name.now) names.now }
    {
        Table { names }
    }

    /// How many names it has.
    pub fn len(&self) -> usize
        ensures value { result ≡ length self.now }
        ensures rows { result ≡ N }
    {
        self.names.len()
    }

    /// The name of a row.
    pub fn name(&self, row: usize) -> &'static [u8]
        requires { row < length self.now }
        ensures { result.now ≡ get_or self.now row [] }
    {
        let names = self.names;
        names[row]
    }

    /// The row of a name. It takes no memory.
    pub fn find(&self, name: &[u8]) -> Option<usize>
        ensures { result ≡ row_of name.now self.now }
    {
        let mut start = 0;
        let mut end = self.names.len();
        while start < end {
            let middle = start + (end - start) / 2;
            match name.cmp(self.name(middle)) {
                Ordering::Equal => return Some(middle),
                Ordering::Less => end = middle,
                Ordering::Greater => start = middle + 1,
            }
        }
        None
    }
}
