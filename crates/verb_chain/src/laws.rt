//! Laws of chains: how their output grows with the list of events.
ghost use Rattle.std.specs.Prelude.{◌≡◌, ◌++◌, List, true};
ghost use Rattle.mlr_event.specs.declared.event.Event.{Event};
ghost use Rattle.mlr_event.specs.Verb.{Verb};
ghost use Rattle.verb_chain.specs.Chain.{chain, stopped};

/// Laws of chains. The output for some events is a prefix of the output for those events and more (`growth`).
/// Once a verb is closed, and no verb before it has effects, more events give nothing (`stop`). The function
/// does nothing: its clauses are the laws.
pub fn chain_laws()
    ensures growth { (verbs : List Verb) (events following : List Event) → (more : List Event)
        × (chain verbs (events ++ following) ≡ chain verbs events ++ more) }
    ensures stop { (verbs : List Verb) (events following : List Event) → stopped verbs events ≡ true
        → chain verbs (events ++ following) ≡ chain verbs events }
{}
