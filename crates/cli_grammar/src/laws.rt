//! Laws of the grammar.
ghost use Rattle.std.specs.Prelude.{◌≡◌, ℕ, ◌-◌, ◌≢◌, List, None, Some, true};
ghost use Rattle.std.specs.List.{list_all};
ghost use Rattle.mlr_event.specs.declared.refusal.Refusal.{Refusal as SpecRefusal};
ghost use Rattle.mlr_event.specs.declared.refusal.Why.TheVariants.{MissingArgument};
ghost use Rattle.cli_grammar.specs.declared.given.Given.{Given as SpecGiven};
ghost use Rattle.cli_grammar.specs.declared.given.VerbWords.{VerbWords as SpecVerbWords};
ghost use Rattle.cli_grammar.specs.Grammar.{IsLine, IsRefusedAfter, is_flag, is_verb};
ghost use Rattle.cli_grammar.specs.Reading.{accepted, line_in};

/// Laws of the grammar. The flags and the complete verbs of a line fit their rows. Words are
/// accepted only as the command line that they are, and each command line is accepted as the only
/// one that its words are. Words that are refused are refused after the longest part with which a
/// command line begins: at the word that the refusal names, unless one is missing.
pub fn grammar_laws()
    ensures fits { (words : List (List ℕ)) → (list_all is_flag (line_in words).flags ≡ true)
        × (list_all is_verb (line_in words).verbs ≡ true) }
    ensures line { (words : List (List ℕ)) → (line_in words).refusal ≡ None
        → IsLine words (line_in words).flags (line_in words).verbs (line_in words).names }
    ensures found { (words : List (List ℕ)) (flags : List SpecGiven) (verbs : List SpecVerbWords)
        (names : List (List ℕ)) → IsLine words flags verbs names
        → line_in words ≡ accepted flags verbs names }
    ensures one { (words : List (List ℕ)) (flags other : List SpecGiven)
        (verbs more : List SpecVerbWords) (names rest : List (List ℕ))
        → IsLine words flags verbs names → IsLine words other more rest → (flags ≡ other)
        × (verbs ≡ more) × (names ≡ rest) }
    ensures place { (words : List (List ℕ)) (why : SpecRefusal)
        → (line_in words).refusal ≡ Some why
        → (before : ℕ) × IsRefusedAfter words before }
    ensures word { (words : List (List ℕ)) (why : SpecRefusal)
        → (line_in words).refusal ≡ Some why → why.why ≢ MissingArgument → IsRefusedAfter words (why.word - 1) }
{}
