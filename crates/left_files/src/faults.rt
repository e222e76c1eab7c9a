//! Faults of left files.
ghost use Rattle.std.specs.Prelude.{◌≡◌};
ghost use Rattle.std.specs.Option.{option_and_then};
ghost use Rattle.left_files.specs.Lefts.{at_left, fault_of};

use mlr_event::{Event, Fault, FileRef};

/// The fault that an event is, if it is one.
pub(crate) fn fault_of(event: Option<Event>) -> Option<Fault>
    ensures { result ≡ option_and_then fault_of event }
{
    match event {
        Some(Event::Fault(fault)) => Some(fault),
        Some(Event::Rec(_, _) | Event::Text(_) | Event::Out(_, _) | Event::End(_)) | None => None,
    }
}

/// The same fault in the left file of the verb with this number.
pub(crate) fn at_left(number: u32, fault: Fault) -> Fault
    ensures { result ≡ at_left number fault }
{
    let mut fault = fault;
    let left = FileRef::Left(number);
    match &mut fault {
        Fault::Length { file, .. } => *file = left,
        Fault::Quote { file, .. } => *file = left,
        Fault::Table { file, .. } => *file = left,
        Fault::JsonSyntax { file, .. } => *file = left,
        Fault::JsonDeep { file, .. } => *file = left,
        Fault::JsonKind { file, .. } => *file = left,
        _ => {}
    }
    fault
}
