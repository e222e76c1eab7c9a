//! The laws of the events that the first bytes of a file fix.
ghost use Rattle.std.specs.Prelude.{◌≡◌, ℕ, List, ◌++◌};
ghost use Rattle.mlr_event.specs.declared.event.Ctx.{Ctx};
ghost use Rattle.mlr_event.specs.declared.event.Event.{Event};
ghost use Rattle.mlr_event.specs.declared.names.FileRef.{FileRef};
ghost use Rattle.mlr_event.specs.declared.options.Format.TheVariants as format;
ghost use Rattle.mlr_event.specs.declared.options.ReadOpts.{ReadOpts};
ghost use Rattle.mlr_lines.specs.Prefixes.{ended_prefix};
ghost use Rattle.read_xtab_pprint.specs.Blocks.{block_fed, block_read};
ghost use Rattle.read_xtab_pprint.specs.Prefixes.{gap_prefix};

/// The events that the first bytes of a file fix stay the same whatever bytes follow. They are the events of
/// a shorter file: in PPRINT of the longest prefix that ends with a line ending, in XTAB of the longest that
/// ends with an empty line. It does nothing.
pub fn prefix_laws()
    ensures fed { (opts : ReadOpts) (file : FileRef) (start : Ctx) (bytes rest : List ℕ)
        → (more : List Event)
        × (block_fed opts file start (bytes ++ rest) ≡ block_fed opts file start bytes ++ more) }
    ensures read { (opts : ReadOpts) (file : FileRef) (start : Ctx) (bytes rest : List ℕ)
        → (more : List Event)
        × (block_read opts file start (bytes ++ rest) ≡ block_fed opts file start bytes ++ more) }
    ensures prefix { (opts : ReadOpts) (file : FileRef) (start : Ctx) (bytes : List ℕ)
        → opts.format ≡ format.Pprint
        → block_fed opts file start bytes ≡ block_read opts file start (ended_prefix bytes) }
    ensures gap { (opts : ReadOpts) (file : FileRef) (start : Ctx) (bytes : List ℕ)
        → opts.format ≡ format.Xtab
        → block_fed opts file start bytes
        ≡ block_read opts file start (gap_prefix opts.comments bytes) }
{}
