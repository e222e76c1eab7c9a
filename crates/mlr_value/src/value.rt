//! Values of the ten kinds, and what they print.
ghost use Rattle.std.specs.Prelude.{◌≡◌, ◌≤◌, ◌++◌, false, is_ok, if◌then◌else◌, length, take, IfOk};
ghost use Rattle.mlr_spec.specs.Infer.{tree_of_data, tree_of_kind};
ghost use Rattle.mlr_spec.specs.Tree.{text_of, is_absent, is_empty, is_number, is_collection};
ghost use Rattle.mlr_value.specs.Value.{tree_of, int_text};

use crate::{ArrayValue, Bytes, MapValue, infer};
use itoa::Buffer;
use mlr_spec::{InferOpts, Kind, NoMemory};
use std::alloc::Global;

/// A whole number of 64 bits, with the spelling that it was read with. One that arithmetic made has no spelling,
/// and prints in decimal.
#[derive(Debug, PartialEq, Eq, Drop)]
pub struct IntValue {
    pub n: i64,
    pub spelling: Bytes,
}

/// A value: of a field, or in a map or an array.
#[cycle(value)]
#[derive(Debug, Drop)]
pub enum Value {
    /// No value: of a field that isn't there.
    Absent,
    /// A text of no bytes.
    Empty,
    /// A text that is no number.
    Str(Bytes),
    /// A whole number of 64 bits.
    Int(IntValue),
    /// A number with a point or an exponent, in its spelling.
    Frac(Bytes),
    /// A whole number that 64 bits don't hold, in its spelling.
    Wide(Bytes),
    /// True or false.
    Bool(bool),
    /// A map of values.
    Map(MapValue),
    /// A list of values.
    Array(ArrayValue),
    /// The result of a computation that has none.
    Error,
}

const _: () = prove!(size_of::<Value>() <= 48);

impl Value {
    /// Whether there is no value.
    #[inline]
    pub fn is_absent(&self) -> bool
        ensures { result ≡ is_absent (tree_of self.now) }
    {
        matches!(self, Value::Absent)
    }

    /// Whether it is the text of no bytes.
    #[inline]
    pub fn is_empty(&self) -> bool
        ensures { result ≡ is_empty (tree_of self.now) }
    {
        matches!(self, Value::Empty)
    }

    /// Whether it is an int, a fraction or wide.
    #[inline]
    pub fn is_number(&self) -> bool
        ensures { result ≡ is_number (tree_of self.now) }
    {
        matches!(self, Value::Int(_) | Value::Frac(_) | Value::Wide(_))
    }

    /// Whether it is a map or an array.
    #[inline]
    pub fn is_collection(&self) -> bool
        ensures { result ≡ is_collection (tree_of self.now) }
    {
        matches!(self, Value::Map(_) | Value::Array(_))
    }

    /// Whether it holds memory, as maps, arrays and long texts do.
    #[inline(always)]
    pub fn holds_memory(&self) -> bool
        ensures { result ≡ false → is_collection (tree_of self.now) ≡ false }
    {
        match self {
            Value::Absent | Value::Empty | Value::Bool(_) | Value::Error => false,
            Value::Str(text) | Value::Frac(text) | Value::Wide(text) => text.holds_memory(),
            Value::Int(int) => int.spelling.holds_memory(),
            Value::Map(_) | Value::Array(_) => true,
        }
    }

    /// A copy. It takes memory for maps, arrays and texts of more than 20 bytes.
    #[cycle(copy)]
    pub fn copy(&self, alloc: Global) -> Result<Value, NoMemory>
        ensures { IfOk result (λ copy. tree_of copy ≡ tree_of self.now) }
    {
        match self {
            Value::Absent => Ok(Value::Absent),
            Value::Empty => Ok(Value::Empty),
            Value::Str(text) => Ok(Value::Str(text.copy()?)),
            Value::Int(int) => Ok(Value::Int(IntValue {
                n: int.n,
                spelling: int.spelling.copy()?,
            })),
            Value::Frac(text) => Ok(Value::Frac(text.copy()?)),
            Value::Wide(text) => Ok(Value::Wide(text.copy()?)),
            Value::Bool(b) => Ok(Value::Bool(*b)),
            Value::Map(map) => Ok(Value::Map(map.copy(alloc)?)),
            Value::Array(array) => Ok(Value::Array(array.copy(alloc)?)),
            Value::Error => Ok(Value::Error),
        }
    }
}

/// A text from data as a value, which keeps the text as its spelling. It takes memory where the text has more than
/// 20 bytes.
#[inline(always)]
pub fn from_data(alloc: Global, text: &[u8], opts: InferOpts) -> Result<Value, NoMemory>
    ensures { IfOk result (λ value. tree_of value ≡ tree_of_data opts text.now) }
{
    let kind = infer(text, opts);
    if kind == Kind::Empty {
        return Ok(Value::Empty);
    }
    Ok(spelled(kind, Bytes::copy_of(alloc, text)?))
}

/// The first `len` bytes of a text from data as a value, which keeps them as its spelling. It takes memory where they
/// are more than 20.
#[inline(always)]
pub fn from_data_first(
    alloc: Global,
    text: &[u8],
    len: usize,
    opts: InferOpts,
) -> Result<Value, NoMemory>
    requires { len ≤ length text.now }
    ensures { IfOk result (λ value. tree_of value ≡ tree_of_data opts (take len text.now)) }
{
    let kind = infer(&text[..len], opts);
    if kind == Kind::Empty {
        return Ok(Value::Empty);
    }
    Ok(spelled(kind, Bytes::copy_of_first(alloc, text, len)?))
}

/// The value of this kind and spelling.
#[inline(always)]
fn spelled(kind: Kind, spelling: Bytes) -> Value
    ensures { tree_of result ≡ tree_of_kind kind spelling }
{
    match kind {
        Kind::Empty => Value::Empty,
        Kind::Str => Value::Str(spelling),
        Kind::Int(n) => Value::Int(IntValue { n, spelling }),
        Kind::Frac => Value::Frac(spelling),
        Kind::Wide => Value::Wide(spelling),
    }
}

/// Appends what the value prints.
#[inline(always)]
pub fn append_text(value: &Value, into: &mut Bytes) -> Result<(), NoMemory>
    ensures { into.new ≡ (if is_ok result then into.old ++ text_of (tree_of value.now)
        else into.old) }
{
    match value {
        Value::Absent | Value::Empty | Value::Map(_) | Value::Array(_) => Ok(()),
        Value::Str(text) | Value::Frac(text) | Value::Wide(text) => into.append(text.as_slice()),
        Value::Int(int) => append_int(int, into),
        Value::Bool(true) => into.append(b"true"),
        Value::Bool(false) => into.append(b"false"),
        Value::Error => into.append(b"(error)"),
    }
}

/// An int in its spelling, or in decimal.
#[inline(always)]
fn append_int(int: &IntValue, into: &mut Bytes) -> Result<(), NoMemory>
    ensures { into.new ≡ (if is_ok result then into.old ++ int_text int.now else into.old) }
{
    if int.spelling.is_empty() {
        into.append(Buffer::new().format(int.n).as_bytes())
    } else {
        into.append(int.spelling.as_slice())
    }
}

/// What a value prints that is no map and no array.
pub fn text_of(alloc: Global, value: &Value) -> Result<Bytes, NoMemory>
    requires { is_collection (tree_of value.now) ≡ false }
    ensures { IfOk result (λ text. text ≡ text_of (tree_of value.now)) }
{
    let mut text = Bytes::new(alloc);
    append_text(value, &mut text)?;
    Ok(text)
}
