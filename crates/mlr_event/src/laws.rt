//! Laws of verbs.
ghost use Rattle.std.specs.Prelude.{◌≡◌, ◌++◌, ◌∷◌, [], List, true, false};
ghost use Rattle.std.specs.List.{list_any};
ghost use Rattle.mlr_event.specs.declared.event.Event.{Event};
ghost use Rattle.mlr_event.specs.Verb.{IsQuiet, KeepsOrder, Verb, gives, is_fault, is_list, is_open, is_record, made, others};

/// What a verb makes of events. What was made is a prefix of what is made of every longer list (`growth`).
/// Until a fault comes, each event adds what it gives after those before it, so that texts, pieces and faults
/// keep their places (`one_more`). A verb without effects adds no text, no piece and no fault (`quiet`). In
/// what it makes of a list of events an end or a fault is the last, as in the list (`order`). It does
/// nothing.
pub fn verb_laws()
    ensures growth { (verb : Verb) (events following : List Event) → (more : List Event)
        × (made verb (events ++ following) ≡ made verb events ++ more) }
    ensures one_more { (verb : Verb) (events : List Event) (e : Event)
        → list_any is_fault (made verb events) ≡ false
        → made verb (events ++ e ∷ []) ≡ made verb events ++ gives verb events e }
    ensures quiet { (verb : Verb) (events : List Event) (e : Event) → IsQuiet verb
        → verb.effects ≡ false → is_open events ≡ true
        → others (made verb (events ++ e ∷ [])) ≡ others (events ++ e ∷ []) }
    ensures order { (verb : Verb) (events : List Event) → KeepsOrder verb → is_list events ≡ true
        → is_list (made verb events) ≡ true }
{}
