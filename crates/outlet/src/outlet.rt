//! The end of a chain: what standard output gets of events.
ghost use Rattle.std.specs.Prelude.{◌≡◌, ◌<◌, ◌++◌, ◌∷◌, [], List, length, true, None, IfOk, OnOk};
ghost use Rattle.mlr_event.specs.declared.event.Event.{Event as SpecEvent};
ghost use Rattle.mlr_event.specs.declared.event.Event.TheVariants.{Out};
ghost use Rattle.mlr_event.specs.declared.names.Target.TheVariants.{Stdout};
ghost use Rattle.mlr_event.specs.Verb.{is_list};
ghost use Rattle.mlr_world.specs.Counts.{Counted};
ghost use Rattle.mlr_world.specs.Outputs.{ChangesAt};
ghost use Rattle.writers.specs.declared.options.WriteOpts.{WriteOpts as Options};
ghost use Rattle.writers.specs.Represents.{IsOpen};
ghost use Rattle.outlet.specs.Out.{event_bodies};
ghost use Rattle.outlet.specs.Represents.{CountedIf, LetLeaves, Represents, Took, has_failed, lacks_memory};
ghost use Rattle.outlet.specs.PendingText.{OutcomeFor, IsAt, Appends, AppendsSome, let_of, over_by};

use mlr_event::{Body, Event, Events, Fault, Piece, Target};
use mlr_spec::NoMemory;
use mlr_value::Bytes;
use mlr_world::{Done, Outputs};
use std::alloc::Global;
use writers::{WriteOpts, Writer};

/// How much text is gathered before it is written, in bytes: what a verb gives at the end may be all that was read.
const GATHERED: usize = 65_536;

/// The result of a call of an outlet.
#[derive(Debug, PartialEq, Eq, Drop)]
pub enum Let {
    /// All that the events become was written, and more may come.
    Went,
    /// The end has come, or this fault, and all was written.
    Over(Option<Fault>),
    /// This target can't be written.
    Failed(Target),
    /// There was no memory.
    NoMemory,
}

/// The end of a chain: it writes what standard output gets of the events. It represents the list of events
/// that it was given.
pub struct Outlet {
    writer: Writer,
    /// What is to be written next.
    text: Bytes,
}

// Written by hand, so that the crates above call it instead of dropping the fields themselves.
impl Drop for Outlet {
    fn drop(self) {
        let Outlet { writer, text } = self;
        drop(writer);
        drop(text);
    }
}

impl Outlet {
    /// An outlet that was given nothing. It takes memory for options of more than 20 bytes.
    pub fn new(alloc: Global, opts: &WriteOpts) -> Result<Self, NoMemory>
        ensures { IfOk result (λ made. Represents opts.now [] made) }
    {
        Ok(Outlet {
            writer: Writer::new(alloc, opts)?,
            text: Bytes::new(alloc),
        })
    }

    /// Takes an event, and writes what it becomes. It takes memory for the text.
    pub fn take<O: Outputs>(&mut self, event: Event, outputs: &mut O) -> Let
        requires { (opts : Options) × (before : List SpecEvent) × Represents opts before self.old }
        ensures took { (opts : Options) (before : List SpecEvent) → Represents opts before self.old
            → Took result opts before (event ∷ []) (O.held outputs.old) (O.held outputs.new) }
        ensures represents { (opts : Options) (before : List SpecEvent)
            → Represents opts before self.old → result ≡ Let.Went
            → Represents opts (before ++ event ∷ []) self.new }
        ensures counts { Counted (has_failed result) (O.faults outputs.old) (O.faults outputs.new)
            Stdout }
        ensures shortages { CountedIf (lacks_memory result) (O.shortages outputs.old)
            (O.shortages outputs.new) }
    {
        match self.put(event) {
            Ok(over) => self.write(over, outputs),
            Err(NoMemory) => Let::NoMemory,
        }
    }

    /// Takes all events of a list, writes what they become, and leaves the list empty where it returns Went. It allocates
    /// for the text, of which it holds 64 KiB and what one event more becomes.
    pub fn take_all<O: Outputs>(&mut self, events: &mut Events, outputs: &mut O) -> Let
        requires { (opts : Options) × (before : List SpecEvent) × Represents opts before self.old
            × (is_list (before ++ events.old) ≡ true) }
        ensures took { (opts : Options) (before : List SpecEvent) → Represents opts before self.old
            → is_list (before ++ events.old) ≡ true
            → Took result opts before events.old (O.held outputs.old) (O.held outputs.new) }
        ensures represents { (opts : Options) (before : List SpecEvent)
            → Represents opts before self.old → is_list (before ++ events.old) ≡ true
            → result ≡ Let.Went → Represents opts (before ++ events.old) self.new }
        ensures emptied { result ≡ Let.Went → events.new ≡ [] }
        ensures counts { Counted (has_failed result) (O.faults outputs.old) (O.faults outputs.new)
            Stdout }
        ensures shortages { CountedIf (lacks_memory result) (O.shortages outputs.old)
            (O.shortages outputs.new) }
    {
        while events.len() > 0 {
            let over = match self.put_some(events) {
                Ok(over) => over,
                Err(NoMemory) => return Let::NoMemory,
            };
            match self.write(over, outputs) {
                Let::Went => {}
                ended => return ended,
            }
        }
        Let::Went
    }

    /// Closes what is open, where a run ends without an end or a fault. It adds no text.
    pub fn shut<O: Outputs>(&mut self, outputs: &mut O) -> Let
        ensures answer { result ≡ Let.Over None }
        ensures same { outputs.new ≡ outputs.old }
    {
        let _ = outputs;
        Let::Over(None)
    }

    /// Appends what an event becomes to the text. Returns whether the event is the last, with its fault.
    fn put(&mut self, event: Event) -> Result<Option<Option<Fault>>, NoMemory>
        requires { (opts : Options) × (before : List SpecEvent) × IsAt opts before self.old }
        ensures over { IfOk result (λ over. over ≡ over_by event) }
        ensures appends { IfOk result (λ over. (opts : Options) (before : List SpecEvent)
            → IsAt opts before self.old → Appends over opts before (event ∷ []) self.old self.new) }
    {
        match event {
            Event::Rec(fields, _) => self.put_body(Body::Rec(fields)),
            Event::Text(text) => self.put_body(Body::Text(text)),
            Event::Out(target, piece) => self.put_piece(target, piece),
            Event::End(_) => {
                self.writer.end(&mut self.text)?;
                Ok(Some(None))
            }
            Event::Fault(fault) => Ok(Some(Some(fault))),
        }
    }

    /// Appends what a piece becomes to the text, if it is for standard output.
    fn put_piece(&mut self, target: Target, piece: Piece) -> Result<Option<Option<Fault>>, NoMemory>
        requires { IsOpen self.old.writer }
        ensures over { IfOk result (λ over. over ≡ None) }
        ensures appends { OnOk result ((opts : Options) (before : List SpecEvent)
            → IsAt opts before self.old
            → Appends None opts before (Out target piece ∷ []) self.old self.new) }
    {
        if target.is(&Target::Stdout) {
            self.put_body(piece.body)
        } else {
            Ok(None)
        }
    }

    /// Appends what a record or a text becomes to the text. No such event is the last.
    fn put_body(&mut self, body: Body) -> Result<Option<Option<Fault>>, NoMemory>
        requires { IsOpen self.old.writer }
        ensures over { IfOk result (λ over. over ≡ None) }
        ensures appends { OnOk result ((opts : Options) (before : List SpecEvent)
            (event : SpecEvent)
            → IsAt opts before self.old → event_bodies event ≡ body ∷ []
            → Appends None opts before (event ∷ []) self.old self.new) }
    {
        self.writer.take(body, &mut self.text)?;
        Ok(None)
    }

    /// Appends what the first events of a list become to the text, and takes them out, up to one that is the last or fills
    /// the text. Returns whether one is the last, with its fault.
    fn put_some(&mut self, events: &mut Events) -> Result<Option<Option<Fault>>, NoMemory>
        requires open { (opts : Options) × (before : List SpecEvent) × IsAt opts before self.old
            × (is_list (before ++ events.old) ≡ true) }
        requires some { 0 < length events.old }
        ensures appends { IfOk result (λ over. AppendsSome over self.old events.old self.new
            events.new) }
        ensures fewer { OnOk result (length events.new < length events.old) }
    {
        while let Some(event) = events.pop_first() {
            if let Some(fault) = self.put(event)? {
                return Ok(Some(fault));
            }
            if self.text.len() >= GATHERED {
                break;
            }
        }
        Ok(None)
    }

    /// Writes the text, and returns whether the events are over.
    fn write<O: Outputs>(&mut self, over: Option<Option<Fault>>, outputs: &mut O) -> Let
        ensures leaves { ChangesAt Stdout (LetLeaves result self.old.text) (O.held outputs.old)
            (O.held outputs.new) }
        ensures answer { OutcomeFor over result }
        ensures went { result ≡ Let.Went → self.new ≡ record self.old { text = [] } }
        ensures counts { Counted (has_failed result) (O.faults outputs.old) (O.faults outputs.new)
            Stdout }
        ensures shortages { CountedIf (lacks_memory result) (O.shortages outputs.old)
            (O.shortages outputs.new) }
    {
        if self.text.is_empty() {
            return let_of(over);
        }
        match outputs.write(&Target::Stdout, self.text.as_slice()) {
            Done::Ok => {
                self.text.clear();
                let_of(over)
            }
            Done::Failed => Let::Failed(Target::Stdout),
            Done::NoMemory => Let::NoMemory,
        }
    }
}

/// The result once all is written.
fn let_of(over: Option<Option<Fault>>) -> Let
    ensures { result ≡ let_of over }
{
    match over {
        Some(fault) => Let::Over(fault),
        None => Let::Went,
    }
}
