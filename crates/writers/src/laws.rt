//! Laws of what is written, on whole lists.
ghost use Rattle.std.specs.Prelude.{◌≡◌, ℕ, Bool, true, false, if◌then◌else◌, List, [], ◌∷◌, ◌++◌, codes, map};
ghost use Rattle.std.specs.List.{flat_map};
ghost use Rattle.mlr_event.specs.declared.event.Body.{Body};
ghost use Rattle.mlr_event.specs.declared.event.Body.TheVariants.{Rec, Text};
ghost use Rattle.mlr_event.specs.declared.options.Format.TheVariants.{Csv, Tsv, Json, Jsonl, Dkvp, Nidx, Xtab, Pprint, Markdown};
ghost use Rattle.mlr_spec.specs.Json.{json_record};
ghost use Rattle.text_columns.specs.Xtab.{xtab_lines};
ghost use Rattle.writers.specs.declared.form.Part.TheVariants.{Keys, Values};
ghost use Rattle.writers.specs.declared.options.WriteOpts.{WriteOpts};
ghost use Rattle.writers.specs.Cells.{shaped, texts};
ghost use Rattle.writers.specs.Csv.{csv_line};
ghost use Rattle.writers.specs.Dkvp.{dkvp_record};
ghost use Rattle.writers.specs.Json.{is_listed, style_of};
ghost use Rattle.writers.specs.Jsonl.{jsonl_record};
ghost use Rattle.writers.specs.Markdown.{markdown_header, markdown_line};
ghost use Rattle.writers.specs.Nidx.{nidx_record};
ghost use Rattle.writers.specs.Pprint.{block};
ghost use Rattle.writers.specs.Runs.{Record, all_but_last, line_end_after, list_begun, list_of, runs_of, sheet, tables, wants_line_end};
ghost use Rattle.writers.specs.Style.{IsSameStyle};
ghost use Rattle.writers.specs.Tsv.{tsv_line};
ghost use Rattle.writers.specs.Written.{written};

/// What was written before the end begins what is written of every longer list. It does nothing.
pub fn growth_law()
    ensures { (opts : WriteOpts) (bodies following : List Body) (ended : Bool) → (more : List ℕ)
        × (written opts (bodies ++ following) ended ≡ written opts bodies false ++ more) }
{}

/// Records in CSV, TSV and Markdown: a table for each run of records with equal keys, a header and then a row for each
/// record, with an empty line between two tables. Without headers (CSV, TSV) the rows follow one another. All of it is
/// written before the end. It does nothing.
pub fn table_laws()
    ensures csv { (opts : WriteOpts) (rs : List Record) (ended : Bool) → opts.format ≡ Csv
        → written opts (map Rec rs) ended
        ≡ sheet opts.headerless (λ r. csv_line opts (texts Keys r))
        (λ r. csv_line opts (texts Values r)) (map (shaped opts) rs) }
    ensures tsv { (opts : WriteOpts) (rs : List Record) (ended : Bool) → opts.format ≡ Tsv
        → written opts (map Rec rs) ended
        ≡ sheet opts.headerless (λ r. tsv_line opts (texts Keys r))
        (λ r. tsv_line opts (texts Values r)) (map (shaped opts) rs) }
    ensures markdown { (opts : WriteOpts) (rs : List Record) (ended : Bool) → opts.format ≡ Markdown
        → written opts (map Rec rs) ended
        ≡ sheet false (λ r. markdown_header (texts Keys r)) (λ r. markdown_line (texts Values r))
        (map (shaped opts) rs) }
{}

/// Records in PPRINT: a block for each run of records with equal keys, with an empty line between two. The last run is
/// held back until a record of another run, a record without fields or the end comes. It does nothing.
pub fn block_laws()
    ensures pprint { (opts : WriteOpts) (rs : List Record) → opts.format ≡ Pprint
        → written opts (map Rec rs) true ≡ tables (block opts) (runs_of (map (shaped opts) rs)) }
    ensures held { (opts : WriteOpts) (rs : List Record) → opts.format ≡ Pprint
        → written opts (map Rec rs) false
        ≡ tables (block opts) (all_but_last (runs_of (map (shaped opts) rs))) }
{}

/// Records in JSON Lines, DKVP and NIDX: a line for each. In XTAB: the lines of each record with fields, with an empty
/// line between two records. All of it is written before the end. It does nothing.
pub fn line_laws()
    ensures jsonl { (opts : WriteOpts) (rs : List Record) (ended : Bool) → opts.format ≡ Jsonl
        → written opts (map Rec rs) ended ≡ flat_map jsonl_record (map (shaped opts) rs) }
    ensures dkvp { (opts : WriteOpts) (rs : List Record) (ended : Bool) → opts.format ≡ Dkvp
        → written opts (map Rec rs) ended ≡ flat_map (dkvp_record opts) (map (shaped opts) rs) }
    ensures nidx { (opts : WriteOpts) (rs : List Record) (ended : Bool) → opts.format ≡ Nidx
        → written opts (map Rec rs) ended ≡ flat_map (nidx_record opts) (map (shaped opts) rs) }
    ensures xtab { (opts : WriteOpts) (rs : List Record) (ended : Bool) → opts.format ≡ Xtab
        → written opts (map Rec rs) ended ≡ tables xtab_lines (map (shaped opts) rs) }
{}

/// Records in JSON: one list in brackets, with a comma and a line end between two records; before the end,
/// what follows the last record is missing. Without the list, each record and a line end. It does nothing.
pub fn list_laws()
    ensures listed { (opts : WriteOpts) (rs : List Record) → opts.format ≡ Json
        → opts.listwrap ≡ true
        → written opts (map Rec rs) true
        ≡ list_of (json_record (style_of opts)) (map (shaped opts) rs) }
    ensures begun { (opts : WriteOpts) (rs : List Record) → opts.format ≡ Json
        → opts.listwrap ≡ true
        → written opts (map Rec rs) false
        ≡ list_begun (json_record (style_of opts)) (map (shaped opts) rs) }
    ensures bare { (opts : WriteOpts) (rs : List Record) (ended : Bool) → opts.format ≡ Json
        → opts.listwrap ≡ false
        → written opts (map Rec rs) ended
        ≡ flat_map (λ r. json_record (style_of opts) r ++ 10 ∷ []) (map (shaped opts) rs) }
{}

/// A text among records is written at its place, as it is, and nothing else changes: so in PPRINT it precedes
/// a block that is held back. In a JSON list it follows the missing line end of a record before it; without
/// the text that line end is written once another text or the end comes. It does nothing.
pub fn text_laws()
    ensures text { (opts : WriteOpts) (before following : List Body) (text : List ℕ) (ended : Bool)
        → (opts.format ≡ Json → opts.listwrap ≡ false) → (more : List ℕ)
        × (written opts (before ++ following) ended ≡ written opts before false ++ more)
        × (written opts (before ++ Text text ∷ following) ended
        ≡ written opts before false ++ text ++ more) }
    ensures listed { (opts : WriteOpts) (before following : List Body) (text : List ℕ)
        (ended : Bool)
        → opts.format ≡ Json → opts.listwrap ≡ true → (more : List ℕ)
        × (written opts (before ++ following) ended
        ≡ written opts before false ++
        (if wants_line_end following ended then line_end_after before else []) ++ more)
        × (written opts (before ++ Text text ∷ following) ended
        ≡ written opts before false ++ line_end_after before ++ text ++ more) }
    ensures last { (opts : WriteOpts) (before : List Body) (text : List ℕ) → opts.format ≡ Json
        → opts.listwrap ≡ true
        → written opts (before ++ Text text ∷ []) false
        ≡ written opts before false ++ line_end_after before ++ text }
{}

/// Texts without a record: they are written as they are, and the end adds nothing but the brackets of a JSON list. So an
/// output that had no record has its texts alone as long as its writer isn't ended. It does nothing.
pub fn text_only_laws()
    ensures before { (opts : WriteOpts) (texts : List (List ℕ))
        → written opts (map Text texts) false ≡ flat_map (λ (text : List ℕ). text) texts }
    ensures ended { (opts : WriteOpts) (texts : List (List ℕ))
        → written opts (map Text texts) true ≡ flat_map (λ (text : List ℕ). text) texts
        ++ (if is_listed opts.format opts then codes "[\n]\n" else []) }
{}

/// Options of one style write the same: what a format ignores has no effect. It does nothing.
pub fn style_law()
    ensures { (opts other : WriteOpts) (bodies : List Body) (ended : Bool)
        → IsSameStyle opts other → written opts bodies ended ≡ written other bodies ended }
{}
