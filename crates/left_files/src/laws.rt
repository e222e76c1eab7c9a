//! Laws of what left files hold.
ghost use Rattle.std.specs.Prelude.{◌≡◌, List, length};
ghost use Rattle.mlr_event.specs.declared.event.Event.{Event};
ghost use Rattle.mlr_world.specs.Taken.{Take};
ghost use Rattle.read_files.specs.Takes.{GoesOn, InOrder};
ghost use Rattle.read_files.specs.Represents.{AllRead};
ghost use Rattle.left_files.specs.declared.left_file.LeftFile.{LeftFile};
ghost use Rattle.left_files.specs.Lefts.{lefts_of, names_of, reading, whole};

use read_files::source_laws;

/// As more is taken of left files, how far they are read doesn't change once they have a fault or are whole (`fixed`). Where
/// they are whole, each was read to its end (`read`), and there are events of each (`each`). It does nothing.
pub fn left_laws()
    ensures fixed { (files : List LeftFile) (given longer : List Take)
        → InOrder (names_of files) given → InOrder (names_of files) longer → GoesOn given longer
        → (lefts_of files given ≡ reading → ⊥) → lefts_of files longer ≡ lefts_of files given }
    ensures read { (files : List LeftFile) (given : List Take) (lefts : List (List Event))
        → InOrder (names_of files) given → lefts_of files given ≡ whole lefts
        → AllRead (names_of files) given }
    ensures each { (files : List LeftFile) (given : List Take) (lefts : List (List Event))
        → InOrder (names_of files) given → lefts_of files given ≡ whole lefts
        → length lefts ≡ length files }
{
    source_laws();
}
