//! Reads the tokens of records and of lists of records.
ghost use Rattle.std.specs.Prelude.{◌≡◌, [], IfOk};
ghost use Rattle.mlr_spec.specs.JsonTokens.{sign, text_token, word_token};
ghost use Rattle.mlr_spec.specs.declared.json.JsonMark.TheVariants as JsonMark;
ghost use Rattle.mlr_json.specs.Machine.{Step};
ghost use Rattle.mlr_json.specs.Steps.{IsStep, Represents};
ghost use Rattle.mlr_json.specs.declared.frame.Phase.{Phase};
ghost use Rattle.mlr_value.specs.Value.{tree_of};
ghost use Rattle.read_json_lines.specs.Records.{after_record, comma_turn, is_at_rest, list_begun, list_ended, map_begun, other_value, record_turn, start_state, takes_word, turn, turn_between, value_turn};
ghost use Rattle.read_json_lines.specs.Turns.{IsTurn, RefusesText, state_of, turn_of};

use crate::listing::{Listing, Trouble};
use crate::records::record_of;
use mlr_json::{Machine, Went};
use mlr_record::Record;
use mlr_spec::{JsonMark, NoMemory};
use mlr_value::{Bytes, Value};
use std::alloc::Global;

/// The state of a stream of records, between tokens. It must not be used after a fault, or after running out
/// of memory.
#[derive(Drop)]
pub(crate) struct RecordState {
    alloc: Global,
    list: Listing,
    /// The machine of the current record, or of the next one.
    machine: Machine,
}

/// The outcome of a token.
#[derive(Drop)]
pub(crate) enum Turn {
    /// The token continues a record or a list, or begins one.
    On,
    /// The token completes a record.
    Record(Record),
    /// The token has a fault.
    Fault(Trouble),
}

impl RecordState {
    /// The state at the start of a stream. It doesn't allocate.
    pub(crate) fn new(alloc: Global) -> Self
        ensures { state_of result ≡ start_state }
    {
        RecordState {
            alloc,
            list: Listing::Outside,
            machine: Machine::new(alloc),
        }
    }

    /// Whether neither a record nor a list is open.
    pub(crate) fn is_at_rest(&self) -> bool
        ensures { result ≡ is_at_rest (state_of self.now) }
    {
        self.list == Listing::Outside && !self.machine.is_within()
    }

    /// The fault of a string at this place, if it isn't allowed, whatever its text.
    pub(crate) fn refused_text(&self) -> Option<Trouble>
        ensures { RefusesText (state_of self.now) result }
    {
        if !self.machine.is_within() {
            return Some(other_value(self.list));
        }
        if self.machine.takes_text() {
            None
        } else {
            Some(Trouble::Syntax)
        }
    }

    /// Whether a word is allowed at this place, whatever its value.
    pub(crate) fn takes_word(&self) -> bool
        ensures { result ≡ takes_word (state_of self.now) }
    {
        if self.machine.is_within() {
            self.machine.takes_value()
        } else {
            self.list != Listing::After
        }
    }

    pub(crate) fn mark(&mut self, mark: JsonMark) -> Result<Turn, NoMemory>
        ensures { IfOk result
            (λ made. IsTurn (turn (state_of self.old) (sign mark)) made (state_of self.new)) }
    {
        if self.machine.is_within() {
            let went = self.machine.mark(mark)?;
            return self.value_turn(went);
        }
        self.mark_between(mark)
    }

    /// Reads a colon, and returns the fault if it may not come here.
    #[inline(always)]
    pub(crate) fn colon(&mut self) -> Option<Trouble>
        ensures { IsTurn (turn (state_of self.old) (sign JsonMark.Colon)) (turn_of result)
            (state_of self.new) }
    {
        if self.machine.is_within() && self.machine.colon() {
            None
        } else {
            Some(Trouble::Syntax)
        }
    }

    /// Reads a comma, and returns the fault if it may not come here.
    #[inline(always)]
    pub(crate) fn comma(&mut self) -> Option<Trouble>
        ensures { IsTurn (turn (state_of self.old) (sign JsonMark.Comma)) (turn_of result)
            (state_of self.new) }
    {
        if !self.machine.is_within() {
            return self.comma_between();
        }
        if self.machine.comma() {
            None
        } else {
            Some(Trouble::Syntax)
        }
    }

    /// Reads a word with this value, and returns the fault if it may not come here.
    #[inline(always)]
    pub(crate) fn word(&mut self, value: Value) -> Result<Option<Trouble>, NoMemory>
        ensures { IfOk result (λ fault. IsTurn (turn (state_of self.old)
            (word_token (tree_of value))) (turn_of fault) (state_of self.new)) }
    {
        if !self.machine.is_within() {
            return Ok(Some(other_value(self.list)));
        }
        let goes_on = self.machine.word_within(value)?;
        Ok(if goes_on { None } else { Some(Trouble::Syntax) })
    }

    /// Reads a string with this text, and returns the fault if it may not come here.
    #[inline(always)]
    pub(crate) fn text(&mut self, text: Bytes) -> Result<Option<Trouble>, NoMemory>
        ensures { IfOk result (λ fault. IsTurn (turn (state_of self.old) (text_token text))
            (turn_of fault) (state_of self.new)) }
    {
        if !self.machine.is_within() {
            return Ok(Some(other_value(self.list)));
        }
        let goes_on = self.machine.text_within(text)?;
        Ok(if goes_on { None } else { Some(Trouble::Syntax) })
    }

    /// Reads a mark outside records.
    #[inline(never)]
    fn mark_between(&mut self, mark: JsonMark) -> Result<Turn, NoMemory>
        ensures { IfOk result (λ made. IsTurn (turn_between (state_of self.old) (sign mark)) made
            (state_of self.new)) }
    {
        match mark {
            JsonMark::BeginMap => self.begin_map(),
            JsonMark::BeginArray => Ok(self.begin_list()),
            JsonMark::EndArray => Ok(self.end_list()),
            JsonMark::Comma => Ok(turn_of(self.comma_between())),
            JsonMark::EndMap | JsonMark::Colon => Ok(Turn::Fault(Trouble::Syntax)),
        }
    }

    fn begin_map(&mut self) -> Result<Turn, NoMemory>
        ensures { IfOk result (λ made. IsTurn (map_begun (state_of self.old)) made
            (state_of self.new)) }
    {
        if self.list == Listing::After {
            return Ok(Turn::Fault(Trouble::Syntax));
        }
        let went = self.machine.mark(JsonMark::BeginMap)?;
        self.value_turn(went)
    }

    fn begin_list(&mut self) -> Turn
        ensures { IsTurn (list_begun (state_of self.old) self.old.list) result (state_of self.new) }
    {
        match self.list {
            Listing::Outside => {
                self.list = Listing::First;
                Turn::On
            }
            Listing::First | Listing::Next => Turn::Fault(Trouble::Kind),
            Listing::After => Turn::Fault(Trouble::Syntax),
        }
    }

    fn end_list(&mut self) -> Turn
        ensures { IsTurn (list_ended (state_of self.old) self.old.list) result (state_of self.new) }
    {
        match self.list {
            Listing::First | Listing::After => {
                self.list = Listing::Outside;
                Turn::On
            }
            Listing::Outside | Listing::Next => Turn::Fault(Trouble::Syntax),
        }
    }

    fn comma_between(&mut self) -> Option<Trouble>
        ensures { IsTurn (comma_turn (state_of self.old) self.old.list) (turn_of result)
            (state_of self.new) }
    {
        if self.list != Listing::After {
            return Some(Trouble::Syntax);
        }
        self.list = Listing::Next;
        None
    }

    /// The outcome of a step within a record. Most steps continue the record, so this match is inlined.
    #[inline(always)]
    fn value_turn(&mut self, went: Went) -> Result<Turn, NoMemory>
        ensures { IfOk result (λ made. (step : Step) → IsStep step went self.old.machine
            → IsTurn (value_turn self.old.list step) made (state_of self.new)) }
    {
        match went {
            Went::On => Ok(Turn::On),
            Went::Whole(value) => self.end_record(value),
            Went::Wrong => Ok(Turn::Fault(Trouble::Syntax)),
            Went::Deep => Ok(Turn::Fault(Trouble::Deep)),
        }
    }

    /// Completes a record with this value, or returns a fault unless the value is a map.
    #[inline(never)]
    fn end_record(&mut self, value: Value) -> Result<Turn, NoMemory>
        ensures turn { IfOk result (λ made. Represents self.old.machine [] Phase.Value
            → IsTurn (record_turn self.old.list (tree_of value)) made (state_of self.new)) }
    {
        match record_of(self.alloc, value)? {
            None => Ok(Turn::Fault(Trouble::Kind)),
            Some(record) => {
                self.list = after_record(self.list);
                Ok(Turn::Record(record))
            }
        }
    }
}

/// The outcome of a token that completes no record.
fn turn_of(fault: Option<Trouble>) -> Turn
    ensures { result ≡ turn_of fault }
{
    match fault {
        None => Turn::On,
        Some(trouble) => Turn::Fault(trouble),
    }
}

/// The fault of a value that isn't a map.
fn other_value(list: Listing) -> Trouble
    ensures { result ≡ other_value list }
{
    if list == Listing::After {
        Trouble::Syntax
    } else {
        Trouble::Kind
    }
}

/// The place of a stream after a record.
fn after_record(list: Listing) -> Listing
    ensures { result ≡ after_record list }
{
    if list == Listing::Outside {
        Listing::Outside
    } else {
        Listing::After
    }
}
