//! Sheets that are written are read again.
ghost use Rattle.std.specs.Prelude.{◌≡◌, ◌∷◌, [], false, Bool, List, map};
ghost use Rattle.mlr_spec.specs.Ascii.{comma, tab};
ghost use Rattle.mlr_event.specs.declared.event.Body.TheVariants.{Rec};
ghost use Rattle.mlr_event.specs.declared.event.Ctx.{Ctx};
ghost use Rattle.mlr_event.specs.declared.names.FileRef.{FileRef};
ghost use Rattle.mlr_event.specs.declared.options.Format.TheVariants.{Csv, Tsv};
ghost use Rattle.mlr_event.specs.Defaults.{default_read};
ghost use Rattle.mlr_event.specs.Reading.{events_of, fields};
ghost use Rattle.read_csv.specs.Rows.{csv_read};
ghost use Rattle.writers.specs.declared.options.WriteOpts.{WriteOpts};
ghost use Rattle.writers.specs.Cells.{shaped};
ghost use Rattle.writers.specs.Runs.{Record};
ghost use Rattle.writers.specs.Written.{written};
ghost use Rattle.mlr_laws.specs.Sheets.{IsSheet, as_data, csv_text, csv_value, fits_csv, fits_tsv, read_again, tsv_text};

use writers::table_laws;

/// Records with the same keys, which CSV or TSV can carry: what is written of them is read as these records.
/// Each value is what data of its text is; in CSV, a text in quotes stays a text. It does nothing.
pub fn sheet_laws()
    ensures csv { (opts : WriteOpts) (rs : List Record) (ended : Bool) (file : FileRef)
        (start : Ctx) → opts.format ≡ Csv → opts.ofs ≡ comma ∷ [] → opts.headerless ≡ false
        → IsSheet fits_csv (csv_text opts) (map (shaped opts) rs)
        → csv_read (default_read Csv) file start (written opts (map Rec rs) ended)
        ≡ events_of start (map (λ r. fields (read_again (csv_value opts) r))
        (map (shaped opts) rs)) }
    ensures tsv { (opts : WriteOpts) (rs : List Record) (ended : Bool) (file : FileRef)
        (start : Ctx) → opts.format ≡ Tsv → opts.ofs ≡ tab ∷ [] → opts.headerless ≡ false
        → IsSheet fits_tsv tsv_text (map (shaped opts) rs)
        → csv_read (default_read Tsv) file start (written opts (map Rec rs) ended)
        ≡ events_of start (map (λ r. fields (read_again as_data r)) (map (shaped opts) rs)) }
{
    table_laws();
}
