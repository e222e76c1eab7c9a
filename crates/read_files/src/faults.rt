//! Faults among events.
ghost use Rattle.std.specs.Prelude.{◌≡◌, ◌++◌, List, length, true};
ghost use Rattle.std.specs.List.{list_any};
ghost use Rattle.mlr_event.specs.declared.event.Event.{Event as SpecEvent};
ghost use Rattle.mlr_event.specs.Verb.{is_fault, is_part};

use mlr_event::{Event, Events};

/// Whether a fault is among the events after the first `before`, where it can only be the last.
pub(crate) fn ends_in_fault(events: &Events, before: usize) -> bool
    ensures { (known more : List SpecEvent) → events.now ≡ known ++ more → before ≡ length known
        → is_part more ≡ true → result ≡ list_any is_fault more }
{
    let count = events.len();
    if count <= before {
        return false;
    }
    match events.at(count - 1) {
        Some(event) => is_fault(event),
        None => false,
    }
}

fn is_fault(event: &Event) -> bool
    ensures { result ≡ is_fault event.now }
{
    matches!(event, Event::Fault(_))
}
