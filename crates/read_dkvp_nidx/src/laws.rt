//! The laws of the events that the first bytes of a file fix.
ghost use Rattle.std.specs.Prelude.{◌≡◌, ℕ, List, ◌++◌};
ghost use Rattle.mlr_event.specs.declared.event.Ctx.{Ctx};
ghost use Rattle.mlr_event.specs.declared.event.Event.{Event};
ghost use Rattle.mlr_event.specs.declared.names.FileRef.{FileRef};
ghost use Rattle.mlr_event.specs.declared.options.ReadOpts.{ReadOpts};
ghost use Rattle.mlr_lines.specs.Prefixes.{ended_prefix};
ghost use Rattle.read_dkvp_nidx.specs.Lines.{line_fed, line_read};

/// The events that the first bytes of a file fix stay the same whatever bytes follow. They are the events of
/// a shorter file: of the longest prefix that ends with a line ending. It does nothing.
pub fn prefix_laws()
    ensures fed { (opts : ReadOpts) (file : FileRef) (start : Ctx) (bytes rest : List ℕ)
        → (more : List Event)
        × (line_fed opts file start (bytes ++ rest) ≡ line_fed opts file start bytes ++ more) }
    ensures read { (opts : ReadOpts) (file : FileRef) (start : Ctx) (bytes rest : List ℕ)
        → (more : List Event)
        × (line_read opts file start (bytes ++ rest) ≡ line_fed opts file start bytes ++ more) }
    ensures prefix { (opts : ReadOpts) (file : FileRef) (start : Ctx) (bytes : List ℕ)
        → line_fed opts file start bytes ≡ line_read opts file start (ended_prefix bytes) }
{}
