//! The laws of the events that the first bytes of a file fix.
ghost use Rattle.std.specs.Prelude.{◌≡◌, ℕ, List, [], false, ◌++◌};
ghost use Rattle.mlr_event.specs.declared.event.Ctx.{Ctx};
ghost use Rattle.mlr_event.specs.declared.event.Event.{Event};
ghost use Rattle.mlr_event.specs.declared.names.FileRef.{FileRef};
ghost use Rattle.mlr_event.specs.declared.options.ReadOpts.{ReadOpts};
ghost use Rattle.mlr_event.specs.Reading.{is_comment};
ghost use Rattle.read_csv.specs.Prefixes.{closed_prefix};
ghost use Rattle.read_csv.specs.Rows.{csv_fed, csv_read};

/// The events that the first bytes of a file fix stay the same whatever bytes follow. They are the events of
/// a shorter file: of the longest prefix that ends with a line ending outside quotes, provided that a comment
/// prefix isn't empty. It does nothing.
pub fn prefix_laws()
    ensures fed { (opts : ReadOpts) (file : FileRef) (start : Ctx) (bytes rest : List ℕ)
        → (more : List Event)
        × (csv_fed opts file start (bytes ++ rest) ≡ csv_fed opts file start bytes ++ more) }
    ensures read { (opts : ReadOpts) (file : FileRef) (start : Ctx) (bytes rest : List ℕ)
        → (more : List Event)
        × (csv_read opts file start (bytes ++ rest) ≡ csv_fed opts file start bytes ++ more) }
    ensures prefix { (opts : ReadOpts) (file : FileRef) (start : Ctx) (bytes : List ℕ)
        → is_comment opts.comments [] ≡ false
        → csv_fed opts file start bytes ≡ csv_read opts file start (closed_prefix opts bytes) }
{}
