//! States how a file is split into lines.
ghost use Rattle.std.specs.Prelude.{◌≡◌, ◌==◌, ℕ, List, [], ◌∷◌, ◌++◌};
ghost use Rattle.std.specs.List.{slice_split};
ghost use Rattle.mlr_lines.specs.Lines.{begun_line, ended_lines, without_mark};

/// The ended lines of a file and the line that has begun after them are the file, without its byte order
/// mark, split at LF. It does nothing.
pub fn line_laws()
    ensures { (bytes : List ℕ)
        → ended_lines bytes ++ begun_line bytes ∷ []
        ≡ slice_split (λ b. b == 10) (without_mark bytes) }
{}
