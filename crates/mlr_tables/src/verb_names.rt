//! The names of the verbs.
ghost use Rattle.std.specs.Prelude.{◌≡◌};
ghost use Rattle.mlr_tables.specs.Names.{verb_names};

use crate::Table;

const NAMES: [&[u8]; 53] = [
    b"altkv",
    b"cat",
    b"count",
    b"count-distinct",
    b"count-similar",
    b"cut",
    b"decimate",
    b"fill-down",
    b"fill-empty",
    b"filter",
    b"flatten",
    b"gap",
    b"grep",
    b"group-by",
    b"group-like",
    b"gsub",
    b"having-fields",
    b"head",
    b"join",
    b"json-parse",
    b"json-stringify",
    b"label",
    b"least-frequent",
    b"merge-fields",
    b"most-frequent",
    b"nest",
    b"nothing",
    b"put",
    b"regularize",
    b"rename",
    b"reorder",
    b"repeat",
    b"reshape",
    b"sec2gmt",
    b"sec2gmtdate",
    b"seqgen",
    b"sort",
    b"sort-within-records",
    b"sparsify",
    b"split",
    b"ssub",
    b"stats1",
    b"step",
    b"sub",
    b"tac",
    b"tail",
    b"tee",
    b"template",
    b"top",
    b"unflatten",
    b"uniq",
    b"unspace",
    b"unsparsify",
];

/// The names of the verbs.
pub const fn verbs() -> Table<53>
    ensures { result ≡ verb_names }
{
    Table::new(&NAMES)
}
