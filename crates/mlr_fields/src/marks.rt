//! Marks that show quickly that a name isn't there.
ghost use Rattle.std.specs.Prelude.{◌≡◌, ◌<◌, ℕ, List, [], ◌∷◌, ◌++◌, false, IsTrue};
ghost use Rattle.mlr_event.specs.Reading.{is_among};
ghost use Rattle.mlr_fields.specs.Marks.{AreMarked, mark_of};

/// A mark for each name of a list. There are few marks, so that names share them: a name without its mark isn't in the
/// list, but one with its mark may be missing too.
#[derive(Drop)]
pub(crate) struct NameMarks {
    bits: u64,
}

impl NameMarks {
    /// No marks.
    #[inline(always)]
    pub(crate) fn none() -> Self
        ensures { AreMarked result [] }
    {
        NameMarks { bits: 0 }
    }

    /// All marks.
    #[inline(always)]
    pub(crate) fn all() -> Self
        ensures { (names : List (List ℕ)) → AreMarked result names }
    {
        NameMarks { bits: u64::MAX }
    }

    /// Whether there is no mark of this number, so that no marked name has it.
    #[inline(always)]
    pub(crate) fn lack(&self, mark: usize) -> bool
        requires { mark < 64 }
        ensures { IsTrue result → (names : List (List ℕ)) (name : List ℕ)
            → AreMarked self.now names → mark ≡ mark_of name → is_among names name ≡ false }
    {
        (self.bits >> mark) & 1 == 0
    }

    /// Adds the mark of a name that is appended to the names.
    #[inline(always)]
    pub(crate) fn add(&mut self, mark: usize)
        requires { mark < 64 }
        ensures { (names : List (List ℕ)) (name : List ℕ) → AreMarked self.old names
            → mark ≡ mark_of name → AreMarked self.new (names ++ name ∷ []) }
    {
        self.bits |= 1 << mark;
    }
}

/// The number of a name's mark.
#[inline(always)]
pub(crate) fn mark_of(name: &[u8]) -> usize
    ensures mark { result ≡ mark_of name.now }
    ensures few { result < 64 }
{
    if name.is_empty() {
        return 0;
    }
    let last = name.len() - 1;
    (usize::from(name[0]) + 2 * usize::from(name[last]) + last) % 64
}
