//! The names of the separators that have one.
ghost use Rattle.std.specs.Prelude.{◌≡◌};
ghost use Rattle.mlr_tables.specs.Names.{separator_names};

use crate::Table;

const NAMES: [&[u8]; 8] = [
    b"colon",
    b"comma",
    b"equals",
    b"pipe",
    b"semicolon",
    b"slash",
    b"space",
    b"tab",
];

/// The names of the separators that have one.
pub const fn separators() -> Table<8>
    ensures { result ≡ separator_names }
{
    Table::new(&NAMES)
}
