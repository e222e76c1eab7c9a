//! The verbs of a command line, each with its options and its own words.
ghost use Rattle.std.specs.Prelude.{◌≡◌};
ghost use Rattle.cli_grammar.specs.Verbs.{named_among, row_of_verb, verb_named};

use crate::kind::Kind;
use std::marker::Model;

/// An option, and what the word after it is.
pub type OptionRow = (&'static [u8], Kind);

/// Options of which at most one may be given, but in `join` and `sort`, where each counts, and whether one of them must be.
pub type Group = (&'static [&'static [u8]], bool);

/// A verb: its name, its options, and the words of its own that follow them.
#[derive(Drop)]
pub struct VerbRow {
    pub name: &'static [u8],
    pub options: &'static [OptionRow],
    pub groups: &'static [Group],
    pub words: &'static [Kind],
}

impl Model for VerbRow {
    ghost use Rattle.std.specs.Prelude.{map};
    ghost use Rattle.cli_grammar.specs.Rows.{VerbRow as Row};

    ghost Value = { Row };

    ghost view = { λ row. record {
      name = row.name.now;
      options = map (λ option. (option.0.now, option.1)) row.options.now;
      groups = map (λ group. (map (λ name. name.now) group.0.now, group.1)) row.groups.now;
      words = row.words.now;
    } };
}

/// The verbs that have rows.
#[derive(Clone, Copy)]
pub enum VerbName {
    Altkv,
    Cat,
    Count,
    CountDistinct,
    CountSimilar,
    Cut,
    Decimate,
    FillDown,
    FillEmpty,
    Flatten,
    Gap,
    Grep,
    GroupBy,
    GroupLike,
    Gsub,
    HavingFields,
    Head,
    Join,
    JsonParse,
    JsonStringify,
    Label,
    LeastFrequent,
    MergeFields,
    MostFrequent,
    Nest,
    Nothing,
    Regularize,
    Rename,
    Reorder,
    Repeat,
    Reshape,
    Sec2Gmt,
    Sec2GmtDate,
    Seqgen,
    Sort,
    SortWithinRecords,
    Sparsify,
    Ssub,
    Stats1,
    Step,
    Sub,
    Tac,
    Tail,
    Template,
    Top,
    Unflatten,
    Uniq,
    Unspace,
    Unsparsify,
}

/// All verbs that have rows, in the order of their names.
const VERBS: [VerbName; 49] = [
    VerbName::Altkv,
    VerbName::Cat,
    VerbName::Count,
    VerbName::CountDistinct,
    VerbName::CountSimilar,
    VerbName::Cut,
    VerbName::Decimate,
    VerbName::FillDown,
    VerbName::FillEmpty,
    VerbName::Flatten,
    VerbName::Gap,
    VerbName::Grep,
    VerbName::GroupBy,
    VerbName::GroupLike,
    VerbName::Gsub,
    VerbName::HavingFields,
    VerbName::Head,
    VerbName::Join,
    VerbName::JsonParse,
    VerbName::JsonStringify,
    VerbName::Label,
    VerbName::LeastFrequent,
    VerbName::MergeFields,
    VerbName::MostFrequent,
    VerbName::Nest,
    VerbName::Nothing,
    VerbName::Regularize,
    VerbName::Rename,
    VerbName::Reorder,
    VerbName::Repeat,
    VerbName::Reshape,
    VerbName::Sec2Gmt,
    VerbName::Sec2GmtDate,
    VerbName::Seqgen,
    VerbName::Sort,
    VerbName::SortWithinRecords,
    VerbName::Sparsify,
    VerbName::Ssub,
    VerbName::Stats1,
    VerbName::Step,
    VerbName::Sub,
    VerbName::Tac,
    VerbName::Tail,
    VerbName::Template,
    VerbName::Top,
    VerbName::Unflatten,
    VerbName::Uniq,
    VerbName::Unspace,
    VerbName::Unsparsify,
];

/// A count of records or of copies.
const COUNT: Kind = Kind::Number(0, i64::MAX);

/// A count that is at least 1.
const POSITIVE: Kind = Kind::Number(1, i64::MAX);

/// Any whole number of 64 bits.
const NUMBER: Kind = Kind::Number(i64::MIN, i64::MAX);

const ALTKV: VerbRow = VerbRow {
    name: b"altkv",
    options: &[],
    groups: &[],
    words: &[],
};

const CAT: VerbRow = VerbRow {
    name: b"cat",
    options: &[
        (b"-n", Kind::Nothing),
        (b"-N", Kind::Text),
        (b"-g", Kind::Names),
    ],
    groups: &[],
    words: &[],
};

const CUT_GROUPS: [Group; 1] = [(&[b"-f"], true)];

const CUT: VerbRow = VerbRow {
    name: b"cut",
    options: &[
        (b"-f", Kind::Names),
        (b"-o", Kind::Nothing),
        (b"-x", Kind::Nothing),
        (b"-r", Kind::Nothing),
    ],
    groups: &CUT_GROUPS,
    words: &[],
};

const DECIMATE_GROUPS: [Group; 1] = [(&[b"-b", b"-e"], false)];

const DECIMATE: VerbRow = VerbRow {
    name: b"decimate",
    options: &[
        (b"-n", POSITIVE),
        (b"-b", Kind::Nothing),
        (b"-e", Kind::Nothing),
        (b"-g", Kind::Names),
    ],
    groups: &DECIMATE_GROUPS,
    words: &[],
};

const FILL_DOWN_GROUPS: [Group; 1] = [(&[b"-f"], true)];

const FILL_DOWN: VerbRow = VerbRow {
    name: b"fill-down",
    options: &[(b"-f", Kind::Names), (b"-a", Kind::Nothing)],
    groups: &FILL_DOWN_GROUPS,
    words: &[],
};

const FILL_EMPTY: VerbRow = VerbRow {
    name: b"fill-empty",
    options: &[(b"-v", Kind::Text), (b"-S", Kind::Nothing)],
    groups: &[],
    words: &[],
};

const FLATTEN: VerbRow = VerbRow {
    name: b"flatten",
    options: &[(b"-f", Kind::Names), (b"-s", Kind::Separator)],
    groups: &[],
    words: &[],
};

const GAP_GROUPS: [Group; 1] = [(&[b"-n", b"-g"], true)];

const GAP: VerbRow = VerbRow {
    name: b"gap",
    options: &[(b"-n", POSITIVE), (b"-g", Kind::Names)],
    groups: &GAP_GROUPS,
    words: &[],
};

const GREP: VerbRow = VerbRow {
    name: b"grep",
    options: &[(b"-i", Kind::Nothing), (b"-v", Kind::Nothing)],
    groups: &[],
    words: &[Kind::Pattern],
};

const GSUB_GROUPS: [Group; 1] = [(&[b"-f", b"-a"], true)];

const GSUB: VerbRow = VerbRow {
    name: b"gsub",
    options: &[(b"-f", Kind::Names), (b"-a", Kind::Nothing)],
    groups: &GSUB_GROUPS,
    words: &[Kind::Pattern, Kind::Text],
};

const HAVING_FIELDS_GROUPS: [Group; 1] = [(
    &[
        b"--at-least",
        b"--at-most",
        b"--which-are",
        b"--all-defined",
        b"--any-defined",
        b"--all-matching",
        b"--any-matching",
    ],
    true,
)];

const HAVING_FIELDS: VerbRow = VerbRow {
    name: b"having-fields",
    options: &[
        (b"--at-least", Kind::Names),
        (b"--at-most", Kind::Names),
        (b"--which-are", Kind::Names),
        (b"--all-defined", Kind::Names),
        (b"--any-defined", Kind::Names),
        (b"--all-matching", Kind::Pattern),
        (b"--any-matching", Kind::Pattern),
    ],
    groups: &HAVING_FIELDS_GROUPS,
    words: &[],
};

const HEAD: VerbRow = VerbRow {
    name: b"head",
    options: &[(b"-n", COUNT), (b"-g", Kind::Names)],
    groups: &[],
    words: &[],
};

const JSON_PARSE: VerbRow = VerbRow {
    name: b"json-parse",
    options: &[(b"-f", Kind::Names)],
    groups: &[],
    words: &[],
};

const JSON_STRINGIFY: VerbRow = VerbRow {
    name: b"json-stringify",
    options: &[(b"-f", Kind::Names)],
    groups: &[],
    words: &[],
};

const LABEL: VerbRow = VerbRow {
    name: b"label",
    options: &[],
    groups: &[],
    words: &[Kind::Names],
};

const NOTHING: VerbRow = VerbRow {
    name: b"nothing",
    options: &[],
    groups: &[],
    words: &[],
};

const REGULARIZE: VerbRow = VerbRow {
    name: b"regularize",
    options: &[],
    groups: &[],
    words: &[],
};

const RENAME: VerbRow = VerbRow {
    name: b"rename",
    options: &[(b"-r", Kind::Nothing), (b"-g", Kind::Nothing)],
    groups: &[],
    words: &[Kind::Names],
};

const REORDER_GROUPS: [Group; 1] = [(&[b"-f"], true)];

const REORDER: VerbRow = VerbRow {
    name: b"reorder",
    options: &[(b"-f", Kind::Names), (b"-e", Kind::Nothing)],
    groups: &REORDER_GROUPS,
    words: &[],
};

const REPEAT_GROUPS: [Group; 1] = [(&[b"-n", b"-f"], true)];

const REPEAT: VerbRow = VerbRow {
    name: b"repeat",
    options: &[(b"-n", COUNT), (b"-f", Kind::Text)],
    groups: &REPEAT_GROUPS,
    words: &[],
};

const SEC2GMT: VerbRow = VerbRow {
    name: b"sec2gmt",
    options: &[],
    groups: &[],
    words: &[Kind::Names],
};

const SEC2GMTDATE: VerbRow = VerbRow {
    name: b"sec2gmtdate",
    options: &[],
    groups: &[],
    words: &[Kind::Names],
};

const SEQGEN: VerbRow = VerbRow {
    name: b"seqgen",
    options: &[
        (b"-f", Kind::Text),
        (b"--start", NUMBER),
        (b"--stop", NUMBER),
        (b"--step", Kind::Step),
    ],
    groups: &[],
    words: &[],
};

const SORT_WITHIN_RECORDS: VerbRow = VerbRow {
    name: b"sort-within-records",
    options: &[(b"-r", Kind::Nothing)],
    groups: &[],
    words: &[],
};

const SPARSIFY: VerbRow = VerbRow {
    name: b"sparsify",
    options: &[(b"-f", Kind::Names)],
    groups: &[],
    words: &[],
};

const SSUB_GROUPS: [Group; 1] = [(&[b"-f", b"-a"], true)];

const SSUB: VerbRow = VerbRow {
    name: b"ssub",
    options: &[(b"-f", Kind::Names), (b"-a", Kind::Nothing)],
    groups: &SSUB_GROUPS,
    words: &[Kind::Text, Kind::Text],
};

const SUB_GROUPS: [Group; 1] = [(&[b"-f", b"-a"], true)];

const SUB: VerbRow = VerbRow {
    name: b"sub",
    options: &[(b"-f", Kind::Names), (b"-a", Kind::Nothing)],
    groups: &SUB_GROUPS,
    words: &[Kind::Pattern, Kind::Text],
};

const TEMPLATE_GROUPS: [Group; 1] = [(&[b"-f"], true)];

const TEMPLATE: VerbRow = VerbRow {
    name: b"template",
    options: &[(b"-f", Kind::Names), (b"--fill-with", Kind::Text)],
    groups: &TEMPLATE_GROUPS,
    words: &[],
};

const UNFLATTEN: VerbRow = VerbRow {
    name: b"unflatten",
    options: &[(b"-f", Kind::Names), (b"-s", Kind::Separator)],
    groups: &[],
    words: &[],
};

const UNSPACE_GROUPS: [Group; 1] = [(&[b"-k", b"-v"], false)];

const UNSPACE: VerbRow = VerbRow {
    name: b"unspace",
    options: &[
        (b"-f", Kind::Text),
        (b"-k", Kind::Nothing),
        (b"-v", Kind::Nothing),
    ],
    groups: &UNSPACE_GROUPS,
    words: &[],
};

const COUNT_VERB: VerbRow = VerbRow {
    name: b"count",
    options: &[
        (b"-g", Kind::Names),
        (b"-n", Kind::Nothing),
        (b"-o", Kind::Text),
    ],
    groups: &[],
    words: &[],
};

const COUNT_DISTINCT_GROUPS: [Group; 1] = [(&[b"-f"], true)];

const COUNT_DISTINCT: VerbRow = VerbRow {
    name: b"count-distinct",
    options: &[
        (b"-f", Kind::Names),
        (b"-n", Kind::Nothing),
        (b"-o", Kind::Text),
    ],
    groups: &COUNT_DISTINCT_GROUPS,
    words: &[],
};

const COUNT_SIMILAR_GROUPS: [Group; 1] = [(&[b"-g"], true)];

const COUNT_SIMILAR: VerbRow = VerbRow {
    name: b"count-similar",
    options: &[(b"-g", Kind::Names), (b"-o", Kind::Text)],
    groups: &COUNT_SIMILAR_GROUPS,
    words: &[],
};

const GROUP_BY: VerbRow = VerbRow {
    name: b"group-by",
    options: &[],
    groups: &[],
    words: &[Kind::Names],
};

const GROUP_LIKE: VerbRow = VerbRow {
    name: b"group-like",
    options: &[],
    groups: &[],
    words: &[],
};

const LEAST_FREQUENT_GROUPS: [Group; 1] = [(&[b"-f"], true)];

const LEAST_FREQUENT: VerbRow = VerbRow {
    name: b"least-frequent",
    options: &[
        (b"-f", Kind::Names),
        (b"-b", Kind::Nothing),
        (b"-n", COUNT),
        (b"-o", Kind::Text),
    ],
    groups: &LEAST_FREQUENT_GROUPS,
    words: &[],
};

const MOST_FREQUENT_GROUPS: [Group; 1] = [(&[b"-f"], true)];

const MOST_FREQUENT: VerbRow = VerbRow {
    name: b"most-frequent",
    options: &[
        (b"-f", Kind::Names),
        (b"-b", Kind::Nothing),
        (b"-n", COUNT),
        (b"-o", Kind::Text),
    ],
    groups: &MOST_FREQUENT_GROUPS,
    words: &[],
};

const SORT_GROUPS: [Group; 1] = [(&[b"-f", b"-r", b"-nf", b"-nr", b"-c", b"-cr"], true)];

const SORT: VerbRow = VerbRow {
    name: b"sort",
    options: &[
        (b"-f", Kind::Names),
        (b"-r", Kind::Names),
        (b"-nf", Kind::Names),
        (b"-nr", Kind::Names),
        (b"-c", Kind::Names),
        (b"-cr", Kind::Names),
    ],
    groups: &SORT_GROUPS,
    words: &[],
};

const TAC: VerbRow = VerbRow {
    name: b"tac",
    options: &[],
    groups: &[],
    words: &[],
};

const TAIL: VerbRow = VerbRow {
    name: b"tail",
    options: &[(b"-n", COUNT), (b"-g", Kind::Names)],
    groups: &[],
    words: &[],
};

const UNIQ_GROUPS: [Group; 2] = [(&[b"-g", b"-a"], true), (&[b"-c", b"-n"], false)];

const UNIQ: VerbRow = VerbRow {
    name: b"uniq",
    options: &[
        (b"-g", Kind::Names),
        (b"-a", Kind::Nothing),
        (b"-c", Kind::Nothing),
        (b"-n", Kind::Nothing),
    ],
    groups: &UNIQ_GROUPS,
    words: &[],
};

const UNSPARSIFY: VerbRow = VerbRow {
    name: b"unsparsify",
    options: &[(b"--fill-with", Kind::Text), (b"-f", Kind::Names)],
    groups: &[],
    words: &[],
};

/// The left file, and the names of the join fields, of which each option counts.
const JOIN_GROUPS: [Group; 2] = [(&[b"-f"], true), (&[b"-j", b"-l", b"-r"], true)];

const JOIN: VerbRow = VerbRow {
    name: b"join",
    options: &[
        (b"-f", Kind::File),
        (b"-j", Kind::Names),
        (b"-l", Kind::Names),
        (b"-r", Kind::Names),
        (b"--np", Kind::Nothing),
        (b"--ul", Kind::Nothing),
        (b"--ur", Kind::Nothing),
        (b"--lp", Kind::Text),
        (b"--rp", Kind::Text),
        (b"-i", Kind::Format),
    ],
    groups: &JOIN_GROUPS,
    words: &[],
};

const MERGE_FIELDS_GROUPS: [Group; 2] = [(&[b"-a"], true), (&[b"-f", b"-r", b"-c"], true)];

const MERGE_FIELDS: VerbRow = VerbRow {
    name: b"merge-fields",
    options: &[
        (b"-a", Kind::Accumulators),
        (b"-f", Kind::Names),
        (b"-r", Kind::Names),
        (b"-c", Kind::Names),
        (b"-o", Kind::Text),
        (b"-k", Kind::Nothing),
    ],
    groups: &MERGE_FIELDS_GROUPS,
    words: &[],
};

/// The options that make a form of `nest` together: one of each of the first three groups. An implosion has values and goes across
/// records.
const NEST_GROUPS: [Group; 6] = [
    (&[b"--explode", b"--implode", b"--evar", b"--ivar"], true),
    (&[b"--values", b"--pairs", b"--evar", b"--ivar"], true),
    (
        &[
            b"--across-records",
            b"--across-fields",
            b"--evar",
            b"--ivar",
        ],
        true,
    ),
    (&[b"--implode", b"--pairs"], false),
    (&[b"--implode", b"--across-fields"], false),
    (&[b"-f"], true),
];

const NEST: VerbRow = VerbRow {
    name: b"nest",
    options: &[
        (b"--explode", Kind::Nothing),
        (b"--implode", Kind::Nothing),
        (b"--values", Kind::Nothing),
        (b"--pairs", Kind::Nothing),
        (b"--across-records", Kind::Nothing),
        (b"--across-fields", Kind::Nothing),
        (b"--evar", Kind::Separator),
        (b"--ivar", Kind::Separator),
        (b"-f", Kind::Text),
        (b"--nested-fs", Kind::Separator),
        (b"--nested-ps", Kind::Separator),
    ],
    groups: &NEST_GROUPS,
    words: &[],
};

/// A direction of `reshape`: what is made long with the names of two fields, or those of two fields that are made wide.
const RESHAPE_GROUPS: [Group; 2] = [(&[b"-i", b"-r", b"-s"], true), (&[b"-o", b"-s"], true)];

const RESHAPE: VerbRow = VerbRow {
    name: b"reshape",
    options: &[
        (b"-i", Kind::Names),
        (b"-r", Kind::Names),
        (b"-o", Kind::Names),
        (b"-s", Kind::Names),
    ],
    groups: &RESHAPE_GROUPS,
    words: &[],
};

const STATS1_GROUPS: [Group; 2] = [(&[b"-a"], true), (&[b"-f"], true)];

const STATS1: VerbRow = VerbRow {
    name: b"stats1",
    options: &[
        (b"-a", Kind::Accumulators),
        (b"-f", Kind::Names),
        (b"-g", Kind::Names),
    ],
    groups: &STATS1_GROUPS,
    words: &[],
};

const STEP_GROUPS: [Group; 2] = [(&[b"-a"], true), (&[b"-f"], true)];

const STEP: VerbRow = VerbRow {
    name: b"step",
    options: &[
        (b"-a", Kind::Steppers),
        (b"-f", Kind::Names),
        (b"-g", Kind::Names),
    ],
    groups: &STEP_GROUPS,
    words: &[],
};

const TOP_GROUPS: [Group; 2] = [(&[b"-f"], true), (&[b"--min", b"--max"], false)];

const TOP: VerbRow = VerbRow {
    name: b"top",
    options: &[
        (b"-f", Kind::Names),
        (b"-n", COUNT),
        (b"-g", Kind::Names),
        (b"--min", Kind::Nothing),
        (b"--max", Kind::Nothing),
        (b"-a", Kind::Nothing),
        (b"-o", Kind::Text),
    ],
    groups: &TOP_GROUPS,
    words: &[],
};

impl VerbName {
    /// The row of this verb.
    pub fn row(self) -> VerbRow
        ensures { result ≡ row_of_verb self }
    {
        match self {
            VerbName::Altkv => ALTKV,
            VerbName::Cat => CAT,
            VerbName::Count => COUNT_VERB,
            VerbName::CountDistinct => COUNT_DISTINCT,
            VerbName::CountSimilar => COUNT_SIMILAR,
            VerbName::Cut => CUT,
            VerbName::Decimate => DECIMATE,
            VerbName::FillDown => FILL_DOWN,
            VerbName::FillEmpty => FILL_EMPTY,
            VerbName::Flatten => FLATTEN,
            VerbName::Gap => GAP,
            VerbName::Grep => GREP,
            VerbName::GroupBy => GROUP_BY,
            VerbName::GroupLike => GROUP_LIKE,
            VerbName::Gsub => GSUB,
            VerbName::HavingFields => HAVING_FIELDS,
            VerbName::Head => HEAD,
            VerbName::Join => JOIN,
            VerbName::JsonParse => JSON_PARSE,
            VerbName::JsonStringify => JSON_STRINGIFY,
            VerbName::Label => LABEL,
            VerbName::LeastFrequent => LEAST_FREQUENT,
            VerbName::MergeFields => MERGE_FIELDS,
            VerbName::MostFrequent => MOST_FREQUENT,
            VerbName::Nest => NEST,
            VerbName::Nothing => NOTHING,
            VerbName::Regularize => REGULARIZE,
            VerbName::Rename => RENAME,
            VerbName::Reorder => REORDER,
            VerbName::Repeat => REPEAT,
            VerbName::Reshape => RESHAPE,
            VerbName::Sec2Gmt => SEC2GMT,
            VerbName::Sec2GmtDate => SEC2GMTDATE,
            VerbName::Seqgen => SEQGEN,
            VerbName::Sort => SORT,
            VerbName::SortWithinRecords => SORT_WITHIN_RECORDS,
            VerbName::Sparsify => SPARSIFY,
            VerbName::Ssub => SSUB,
            VerbName::Stats1 => STATS1,
            VerbName::Step => STEP,
            VerbName::Sub => SUB,
            VerbName::Tac => TAC,
            VerbName::Tail => TAIL,
            VerbName::Template => TEMPLATE,
            VerbName::Top => TOP,
            VerbName::Unflatten => UNFLATTEN,
            VerbName::Uniq => UNIQ,
            VerbName::Unspace => UNSPACE,
            VerbName::Unsparsify => UNSPARSIFY,
        }
    }
}

/// The verb with this name, if it has a row.
pub(crate) fn verb_named(word: &[u8]) -> Option<VerbName>
    ensures { result ≡ verb_named word.now }
{
    named_among(&VERBS, word)
}

/// The first of these verbs with this name.
fn named_among(verbs: &[VerbName], word: &[u8]) -> Option<VerbName>
    ensures { result ≡ named_among verbs.now word.now }
{
    for verb in verbs {
        if verb.row().name == word {
            return Some(*verb);
        }
    }
    None
}
