//! Laws of what a plan makes of its inputs.
ghost use Rattle.std.specs.Prelude.{◌≡◌, ◌++◌, ℕ, List, [], false};
ghost use Rattle.mlr_event.specs.declared.names.Target.{Target};
ghost use Rattle.mlr_event.specs.Verb.{is_open};
ghost use Rattle.mlr_world.specs.Taken.{Take};
ghost use Rattle.read_files.specs.Takes.{GoesOn, InOrder};
ghost use Rattle.serial_core.specs.Meaning.{Meaning, text};
ghost use Rattle.plan_verbs.specs.declared.plan.Plan.{Plan};
ghost use Rattle.chain_core.specs.Meanings.{IsMeaningOf};
ghost use Rattle.chain_core.specs.Outputs.{pieces_for};

use left_files::left_laws;
use outlet::outlet_laws;
use read_files::source_laws;
use verb_chain::chain_laws;

/// Laws of meanings. Where more is taken of the inputs of a plan, the text of standard output is extended (`grows`), and
/// once the result has an end or a fault it stays as it is (`fixed`). No verb that is built makes pieces, so no other target
/// gets anything (`pieces`). It does nothing.
pub fn meaning_laws()
    ensures grows { (plan : Plan) (meaning : Meaning) → IsMeaningOf plan meaning
        → (given longer : List Take) → InOrder meaning.names given
        → InOrder meaning.names longer → GoesOn given longer
        → (more : List ℕ) × (text meaning longer ≡ text meaning given ++ more) }
    ensures fixed { (plan : Plan) (meaning : Meaning) → IsMeaningOf plan meaning
        → (given longer : List Take) → InOrder meaning.names given
        → InOrder meaning.names longer → GoesOn given longer
        → is_open (meaning.result given) ≡ false → meaning.result longer ≡ meaning.result given }
    ensures pieces { (plan : Plan) (meaning : Meaning) → IsMeaningOf plan meaning
        → (given : List Take) (one : Target) → pieces_for one (meaning.result given) ≡ [] }
{
    chain_laws();
    left_laws();
    outlet_laws();
    source_laws();
}
