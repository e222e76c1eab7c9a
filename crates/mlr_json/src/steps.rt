//! The steps of the machine: one for each token.
ghost use Rattle.std.specs.Prelude.{◌≡◌, ◌∷◌, [], List, true, if◌then◌else◌, IfOk, OnOk};
ghost use Rattle.mlr_spec.specs.JsonTokens.{sign, text_token, word_token};
ghost use Rattle.mlr_spec.specs.JsonGrammar.{text_value};
ghost use Rattle.mlr_value.specs.Value.{tree_of};
ghost use Rattle.mlr_spec.specs.declared.json.JsonMark.TheVariants as JsonMark;
ghost use Rattle.mlr_json.specs.declared.frame.Frame.{Frame};
ghost use Rattle.mlr_json.specs.declared.machine.Went.TheVariants as Went;
ghost use Rattle.mlr_json.specs.Machine.{step, on, wrong, with_value, with_key, map_ended, array_ended, takes_value, takes_key};
ghost use Rattle.mlr_json.specs.Steps.{frames_of, Represents, IsStep, went, is_in_map, is_within, takes_text};

use crate::{Frame, Machine, Phase, Went};
use mlr_spec::{JsonMark, NoMemory};
use mlr_value::{ArrayValue, Bytes, MapValue, Value};
use std::alloc::Global;

/// How many brackets may be open at once.
const MOST_FRAMES: usize = 100;

impl Machine {
    /// A machine before a value. It takes no memory.
    pub fn new(alloc: Global) -> Self
        ensures { Represents result [] Phase.Value }
    {
        Machine {
            alloc,
            frames: Vec::new(alloc),
            phase: Phase::Value,
        }
    }

    /// Whether a bracket is open, so that the value isn't whole.
    pub fn is_within(&self) -> bool
        ensures { result ≡ is_within (frames_of self.now) }
    {
        !self.frames.is_empty()
    }

    /// Whether a string may come next.
    #[inline(always)]
    pub fn takes_text(&self) -> bool
        ensures { result ≡ takes_text (frames_of self.now) self.now.phase }
    {
        self.takes_value() || self.takes_key() && self.is_in_map()
    }

    /// Reads a mark. It takes memory for a bracket that opens.
    #[inline(always)]
    #[tactic(auto, unfolding(crate::specs::Machine::step))]
    pub fn mark(&mut self, mark: JsonMark) -> Result<Went, NoMemory>
        ensures { IfOk result
            (λ went. IsStep (step (frames_of self.old) self.old.phase (sign mark)) went self.new) }
    {
        match mark {
            JsonMark::BeginMap => {
                let pairs = MapValue::new(self.alloc)?;
                self.open(Frame::Map(pairs, Bytes::new(self.alloc)), Phase::FirstKey)
            }
            JsonMark::BeginArray => self.open(
                Frame::Array(ArrayValue::new(self.alloc)),
                Phase::FirstItem,
            ),
            JsonMark::EndMap => self.end_map(),
            JsonMark::EndArray => self.end_array(),
            JsonMark::Colon => Ok(went(self.colon())),
            JsonMark::Comma => Ok(went(self.comma())),
        }
    }

    /// Reads a word that has this value.
    #[inline(always)]
    #[tactic(auto, unfolding(crate::specs::Machine::step))]
    pub fn word(&mut self, value: Value) -> Result<Went, NoMemory>
        ensures { IfOk result (λ went. IsStep (step (frames_of self.old) self.old.phase
            (word_token (tree_of value))) went self.new) }
    {
        if self.takes_value() {
            self.value(value)
        } else {
            Ok(Went::Wrong)
        }
    }

    /// Reads a string that has this text: a key or a value.
    #[inline(always)]
    #[tactic(auto, unfolding(crate::specs::Machine::step))]
    pub fn text(&mut self, text: Bytes) -> Result<Went, NoMemory>
        ensures { IfOk result (λ went. IsStep (step (frames_of self.old) self.old.phase
            (text_token text)) went self.new) }
    {
        if self.takes_key() {
            Ok(went(self.key(text)))
        } else if self.takes_value() {
            self.value(text_value(text))
        } else {
            Ok(Went::Wrong)
        }
    }

    /// Reads a word that has this value, within a bracket, and says whether it may come there.
    #[inline(always)]
    #[tactic(auto, unfolding(crate::specs::Machine::step))]
    pub fn word_within(&mut self, value: Value) -> Result<bool, NoMemory>
        requires { is_within (frames_of self.old) ≡ true }
        ensures { IfOk result (λ goes_on. IsStep (step (frames_of self.old) self.old.phase
            (word_token (tree_of value))) (went goes_on) self.new) }
    {
        if !self.takes_value() {
            return Ok(false);
        }
        self.add(value)?;
        Ok(true)
    }

    /// Reads a string that has this text, within a bracket, and says whether it may come there.
    #[inline(always)]
    #[tactic(auto, unfolding(crate::specs::Machine::step))]
    pub fn text_within(&mut self, text: Bytes) -> Result<bool, NoMemory>
        requires { is_within (frames_of self.old) ≡ true }
        ensures { IfOk result (λ goes_on. IsStep (step (frames_of self.old) self.old.phase
            (text_token text)) (went goes_on) self.new) }
    {
        if self.takes_key() {
            return Ok(self.key(text));
        }
        if !self.takes_value() {
            return Ok(false);
        }
        self.add(text_value(text))?;
        Ok(true)
    }

    /// Whether a value may come next.
    #[inline(always)]
    pub fn takes_value(&self) -> bool
        ensures { result ≡ takes_value self.now.phase }
    {
        matches!(self.phase, Phase::Value | Phase::FirstItem)
    }

    #[inline(always)]
    fn takes_key(&self) -> bool
        ensures { result ≡ takes_key self.now.phase }
    {
        matches!(self.phase, Phase::FirstKey | Phase::Key)
    }

    /// Whether the innermost bracket is that of a map.
    #[inline(always)]
    fn is_in_map(&self) -> bool
        ensures { result ≡ is_in_map (frames_of self.now) }
    {
        matches!(self.frames.last(), Some(Frame::Map(..)))
    }

    /// Takes a value: as the next item, as the value of the key before it, or as the whole value.
    #[inline(always)]
    fn value(&mut self, value: Value) -> Result<Went, NoMemory>
        ensures { IfOk result (λ went. IsStep (with_value (tree_of value) (frames_of self.old)) went
            self.new) }
    {
        if !self.is_within() {
            self.phase = Phase::Value;
            return Ok(Went::Whole(value));
        }
        self.add(value)?;
        Ok(Went::On)
    }

    /// Adds a value to the innermost bracket.
    #[inline(always)]
    fn add(&mut self, value: Value) -> Result<(), NoMemory>
        requires { is_within (frames_of self.old) ≡ true }
        ensures { OnOk result (IsStep (with_value (tree_of value) (frames_of self.old)) Went.On
            self.new) }
    {
        if let Some(frame) = self.frames.last_mut() {
            add_value(frame, value)?;
            self.phase = Phase::Later;
        }
        Ok(())
    }

    /// Takes the key of the next pair, and says whether it may come here.
    #[inline(always)]
    fn key(&mut self, key: Bytes) -> bool
        ensures { IsStep (with_key key (frames_of self.old)) (went result) self.new }
    {
        let Some(frame) = self.frames.last_mut() else {
            return false;
        };
        if !give_key(frame, key) {
            return false;
        }
        self.phase = Phase::Colon;
        true
    }

    #[inline(always)]
    fn open(&mut self, frame: Frame, phase: Phase) -> Result<Went, NoMemory>
        ensures { IfOk result (λ went. IsStep (if takes_value self.old.phase
            then on (frame ∷ frames_of self.old) phase else wrong) went self.new) }
    {
        if !self.takes_value() {
            return Ok(Went::Wrong);
        }
        if self.frames.len() >= MOST_FRAMES {
            return Ok(Went::Deep);
        }
        self.frames.push(frame)?;
        self.phase = phase;
        Ok(Went::On)
    }

    #[inline(always)]
    fn end_map(&mut self) -> Result<Went, NoMemory>
        ensures { IfOk result (λ went. IsStep (map_ended (frames_of self.old) self.old.phase) went
            self.new) }
    {
        if !matches!(self.phase, Phase::FirstKey | Phase::Later) {
            return Ok(Went::Wrong);
        }
        match self.frames.pop() {
            Some(Frame::Map(pairs, _)) => self.value(Value::Map(pairs)),
            _ => Ok(Went::Wrong),
        }
    }

    #[inline(always)]
    fn end_array(&mut self) -> Result<Went, NoMemory>
        ensures { IfOk result (λ went. IsStep (array_ended (frames_of self.old) self.old.phase) went
            self.new) }
    {
        if !matches!(self.phase, Phase::FirstItem | Phase::Later) {
            return Ok(Went::Wrong);
        }
        match self.frames.pop() {
            Some(Frame::Array(items)) => self.value(Value::Array(items)),
            _ => Ok(Went::Wrong),
        }
    }

    /// Reads a colon, and says whether it may come here.
    #[inline(always)]
    #[tactic(auto, unfolding(crate::specs::Machine::step))]
    pub fn colon(&mut self) -> bool
        ensures { IsStep (step (frames_of self.old) self.old.phase (sign JsonMark.Colon))
            (went result) self.new }
    {
        if self.phase != Phase::Colon {
            return false;
        }
        self.phase = Phase::Value;
        true
    }

    /// Reads a comma, and says whether it may come here.
    #[inline(always)]
    #[tactic(auto, unfolding(crate::specs::Machine::step))]
    pub fn comma(&mut self) -> bool
        ensures { IsStep (step (frames_of self.old) self.old.phase (sign JsonMark.Comma))
            (went result) self.new }
    {
        if self.phase != Phase::Later || self.frames.is_empty() {
            return false;
        }
        self.phase = if self.is_in_map() {
            Phase::Key
        } else {
            Phase::Value
        };
        true
    }
}

/// What a token led to that completes no value.
#[inline(always)]
fn went(goes_on: bool) -> Went
    ensures { result ≡ went goes_on }
{
    if goes_on { Went::On } else { Went::Wrong }
}

/// Adds a value to an open bracket: as the next item, or as the value of the key before it.
#[inline(always)]
fn add_value(frame: &mut Frame, value: Value) -> Result<(), NoMemory>
    ensures { OnOk result ((frames : List Frame)
        → with_value (tree_of value) (frame.old ∷ frames) ≡ on (frame.new ∷ frames) Phase.Later) }
{
    match frame {
        Frame::Array(items) => items.push(value),
        Frame::Map(pairs, key) => pairs.put_owned(key.copy()?, value),
    }
}

/// Gives an open map the key of its next pair, and says whether it is a map.
#[inline(always)]
fn give_key(frame: &mut Frame, key: Bytes) -> bool
    ensures { (frames : List Frame) → with_key key (frame.old ∷ frames)
        ≡ (if result then on (frame.new ∷ frames) Phase.Colon else wrong) }
{
    match frame {
        Frame::Array(_) => false,
        Frame::Map(_, last) => {
            *last = key;
            true
        }
    }
}

/// A string without bytes is the empty value.
#[inline(always)]
fn text_value(text: Bytes) -> Value
    ensures { tree_of result ≡ text_value text }
{
    if text.is_empty() {
        Value::Empty
    } else {
        Value::Str(text)
    }
}
