//! Laws of what words come to.
ghost use Rattle.std.specs.Prelude.{◌≡◌, ◌≢◌, ℕ, List};
ghost use Rattle.mlr_event.specs.declared.refusal.Refusal.{Refusal as SpecRefusal};
ghost use Rattle.mlr_event.specs.declared.refusal.Why.TheVariants.{PatternSize};
ghost use Rattle.cli_grammar.specs.Reading.{line_in};
ghost use Rattle.cli_plan.specs.Accepting.{IsAccepted, IsRefused};

/// Laws of what words come to: words that are refused aren't accepted, and they are refused in one way. Only a
/// pattern that is found too large may be refused and read.
pub fn refusal_laws()
    ensures apart { (words : List (List ℕ)) (why : SpecRefusal) → why.why ≢ PatternSize
        → IsRefused (line_in words) why → ¬ (IsAccepted (line_in words)) }
    ensures one { (words : List (List ℕ)) (why other : SpecRefusal) → why.why ≢ PatternSize
        → other.why ≢ PatternSize → IsRefused (line_in words) why
        → IsRefused (line_in words) other → why ≡ other }
{}
