//! Byte texts, of which the short ones are stored without an allocation.
ghost use Rattle.std.specs.Prelude.{◌≡◌, ◌≤◌, ◌↔◌, [], ◌∷◌, ◌++◌, length, false, not, take, ◌&&◌, if◌then◌else◌, is_ok, OnOk, IfOk, IsOk, IsTrue, ◌+◌, vec_len, vec_capacity};
ghost use Rattle.std.specs.Option.{option_to_list};
ghost use Rattle.std.specs.Str.{bytes_eq};
ghost use Rattle.mlr_value.specs.Stops.{has_stop};

use crate::short::{CAPACITY, LANES, Short, cells_of};
use crate::stops::{has_stop, lanes_before_stop};
use mlr_spec::NoMemory;
use std::alloc::Global;
use std::fmt;
use std::marker::Model;
use std::simd::prelude::*;

/// A byte text, which need not be UTF-8. Up to 20 bytes lie in the value itself and take no memory.
pub struct Bytes {
    room: Room,
    alloc: Global,
}

// Written by hand, so that the crates above call it instead of dropping the fields themselves.
impl Drop for Bytes {
    #[inline]
    fn drop(self) {
        let Bytes { room, alloc: _ } = self;
        drop(room);
    }
}

/// Where a text lies.
#[derive(Drop)]
enum Room {
    Inline(Short),
    Heap(Vec<u8>),
}

impl Model for Bytes {
    ghost use Rattle.std.specs.Prelude.{ℕ, List};
    ghost use Rattle.mlr_value.specs.Bytes.{text_in};

    ghost Value = { List ℕ };

    ghost view = { λ b. text_in b.room };
}

impl Bytes {
    /// The empty text. It takes no memory.
    #[inline(always)]
    pub fn new(alloc: Global) -> Self
        ensures { result ≡ [] }
    {
        Bytes {
            room: Room::Inline(Short::new()),
            alloc,
        }
    }

    /// A copy. It takes memory where the text has more than 20 bytes.
    #[inline(always)]
    pub fn copy_of(alloc: Global, text: &[u8]) -> Result<Self, NoMemory>
        ensures copied { IfOk result (λ copy. copy ≡ text.now) }
        ensures short { length text.now ≤ 20 → IsOk result }
    {
        if text.len() <= CAPACITY {
            return Ok(Bytes {
                room: Room::Inline(Short::copy_of(text)),
                alloc,
            });
        }
        let mut copy = Bytes::new(alloc);
        copy.become_long(text)?;
        Ok(copy)
    }

    /// A copy. It takes memory where the text has more than 20 bytes.
    #[inline(always)]
    pub fn copy(&self) -> Result<Self, NoMemory>
        ensures same { IfOk result (λ copy. copy ≡ self.now) }
        ensures short { length self.now ≤ 20 → IsOk result }
    {
        match &self.room {
            Room::Inline(short) => Ok(Bytes {
                room: Room::Inline(short.copy()),
                alloc: self.alloc,
            }),
            Room::Heap(heap) => Bytes::copy_of(self.alloc, heap.as_slice()),
        }
    }

    /// A copy of the first `len` bytes of the text. It takes memory where they are more than 20. At most the first 16
    /// bytes of a text that has as many are copied by the same few moves.
    #[inline(always)]
    pub fn copy_of_first(alloc: Global, text: &[u8], len: usize) -> Result<Self, NoMemory>
        requires { len ≤ length text.now }
        ensures copied { IfOk result (λ copy. copy ≡ take len text.now) }
        ensures short { len ≤ 20 → IsOk result }
    {
        if len <= LANES && text.len() >= LANES {
            return Ok(Bytes {
                room: Room::Inline(Short::copy_of_first(text, len)),
                alloc,
            });
        }
        Bytes::copy_of(alloc, &text[..len])
    }

    /// Becomes the text, which lies in memory.
    #[inline(never)]
    fn become_long(&mut self, text: &[u8]) -> Result<(), NoMemory>
        ensures { OnOk result (self.new ≡ text.now) }
    {
        let mut heap = Vec::with_capacity(self.alloc, text.len())?;
        heap.extend_from_slice(text)?;
        self.room = Room::Heap(heap);
        Ok(())
    }

    /// Appends the byte. The capacity at least doubles where it grows.
    #[inline(always)]
    pub fn push(&mut self, byte: u8) -> Result<(), NoMemory>
        ensures { self.new ≡ (if is_ok result then self.old ++ byte ∷ [] else self.old) }
    {
        match &mut self.room {
            Room::Inline(short) if short.len() < CAPACITY => {
                short.push(byte);
                Ok(())
            }
            Room::Inline(_) => self.spill(&[byte]),
            Room::Heap(heap) => {
                heap.push(byte)?;
                Ok(())
            }
        }
    }

    /// Appends the text. The capacity at least doubles where it grows.
    #[inline(always)]
    pub fn append(&mut self, text: &[u8]) -> Result<(), NoMemory>
        ensures appended { self.new ≡ (if is_ok result then self.old ++ text.now else self.old) }
        ensures nothing { text.now ≡ [] → IsOk result }
    {
        match &mut self.room {
            Room::Heap(heap) if text.len() <= LANES && heap.capacity() - heap.len() >= LANES => {
                append_cells::<LANES>(heap, &cells_of::<LANES>(text), text.len())
            }
            _ => self.append_any(text),
        }
    }

    /// Appends a text of any length to a text stored in either way.
    #[inline(never)]
    fn append_any(&mut self, text: &[u8]) -> Result<(), NoMemory>
        ensures appended { self.new ≡ (if is_ok result then self.old ++ text.now else self.old) }
        ensures nothing { text.now ≡ [] → IsOk result }
    {
        match &mut self.room {
            Room::Inline(short) if text.len() <= CAPACITY - short.len() => {
                short.append(text);
                Ok(())
            }
            Room::Inline(_) => self.spill(text),
            Room::Heap(heap) => {
                heap.extend_from_slice(text)?;
                Ok(())
            }
        }
    }

    /// Appends the text, and moves the whole to the heap.
    #[cold]
    #[inline(never)]
    fn spill(&mut self, text: &[u8]) -> Result<(), NoMemory>
        ensures { self.new ≡ (if is_ok result then self.old ++ text.now else self.old) }
    {
        let mut heap = Vec::with_capacity(
            self.alloc,
            (2 * CAPACITY).max(self.len().saturating_add(text.len())),
        )?;
        heap.extend_from_slice(self.as_slice())?;
        heap.extend_from_slice(text)?;
        self.room = Room::Heap(heap);
        Ok(())
    }

    /// Appends the text unless it contains one of the stops, and returns whether it did.
    #[inline(always)]
    pub fn append_plain(&mut self, text: &[u8], stops: [u8; 4]) -> Result<bool, NoMemory>
        ensures plain { IfOk result (λ plain. plain ≡ not (has_stop stops text.now)) }
        ensures appended { self.new ≡ (if is_ok result && not (has_stop stops text.now)
            then self.old ++ text.now else self.old) }
    {
        if let Room::Heap(heap) = &mut self.room
            && text.len() <= LANES
            && heap.capacity() - heap.len() >= LANES
        {
            let cells = cells_of::<LANES>(text);
            if lanes_before_stop(u8x16::from_array(cells), stops) < text.len() {
                return Ok(false);
            }
            append_cells::<LANES>(heap, &cells, text.len())?;
            return Ok(true);
        }
        self.append_plain_any(text, stops)
    }

    /// Appends a text of any length, unless it contains one of the stops, to a text stored in either way.
    #[inline(never)]
    fn append_plain_any(&mut self, text: &[u8], stops: [u8; 4]) -> Result<bool, NoMemory>
        ensures plain { IfOk result (λ plain. plain ≡ not (has_stop stops text.now)) }
        ensures appended { self.new ≡ (if is_ok result && not (has_stop stops text.now)
            then self.old ++ text.now else self.old) }
    {
        if has_stop(text, stops) {
            return Ok(false);
        }
        self.append_any(text)?;
        Ok(true)
    }

    /// Appends the text, and then the byte, if there is one. The capacity at least doubles where it grows. Where memory
    /// runs out, the text may have been appended.
    #[inline(always)]
    pub fn append_then(&mut self, text: &Bytes, next: Option<u8>) -> Result<(), NoMemory>
        ensures { OnOk result (self.new ≡ self.old ++ text.now ++ option_to_list next) }
    {
        if let Room::Inline(short) = &text.room
            && let Room::Heap(heap) = &mut self.room
            && heap.capacity() - heap.len() >= CAPACITY
        {
            return append_short_then(heap, short, next);
        }
        self.append_any_then(text.as_slice(), next)
    }

    /// Appends a text of any length, and then the byte, to a text stored in either way.
    #[inline(never)]
    fn append_any_then(&mut self, text: &[u8], next: Option<u8>) -> Result<(), NoMemory>
        ensures { OnOk result (self.new ≡ self.old ++ text.now ++ option_to_list next) }
    {
        self.append_any(text)?;
        match next {
            None => Ok(()),
            Some(byte) => self.push(byte),
        }
    }

    /// Appends the text, and then the byte, if there is one, unless the text contains one of the stops. Returns whether it
    /// did. Where memory runs out, the text may have been appended.
    #[inline(always)]
    pub fn append_plain_then(
        &mut self,
        text: &Bytes,
        next: Option<u8>,
        stops: [u8; 4],
    ) -> Result<bool, NoMemory>
        ensures plain { IfOk result (λ plain. plain ≡ not (has_stop stops text.now)) }
        ensures appended { OnOk result (self.new ≡ (if has_stop stops text.now then self.old
            else self.old ++ text.now ++ option_to_list next)) }
    {
        if let Room::Inline(short) = &text.room
            && let Room::Heap(heap) = &mut self.room
            && heap.capacity() - heap.len() >= CAPACITY
        {
            if short.has_stop(stops) {
                return Ok(false);
            }
            append_short_then(heap, short, next)?;
            return Ok(true);
        }
        self.append_plain_any_then(text.as_slice(), next, stops)
    }

    /// Appends a text of any length, and then the byte, unless the text contains one of the stops, to a text stored in
    /// either way.
    #[inline(never)]
    fn append_plain_any_then(
        &mut self,
        text: &[u8],
        next: Option<u8>,
        stops: [u8; 4],
    ) -> Result<bool, NoMemory>
        ensures plain { IfOk result (λ plain. plain ≡ not (has_stop stops text.now)) }
        ensures appended { OnOk result (self.new ≡ (if has_stop stops text.now then self.old
            else self.old ++ text.now ++ option_to_list next)) }
    {
        if has_stop(text, stops) {
            return Ok(false);
        }
        self.append_any_then(text, next)?;
        Ok(true)
    }

    /// Takes all bytes out, and keeps the room.
    #[inline]
    pub fn clear(&mut self)
        ensures { self.new ≡ [] }
    {
        match &mut self.room {
            Room::Inline(short) => short.clear(),
            Room::Heap(heap) => heap.clear(),
        }
    }

    /// The text.
    #[inline(always)]
    pub fn as_slice(&self) -> &[u8]
        ensures { result.now ≡ self.now }
    {
        match &self.room {
            Room::Inline(short) => short.as_slice(),
            Room::Heap(heap) => heap.as_slice(),
        }
    }

    /// How many bytes it has.
    #[inline(always)]
    pub fn len(&self) -> usize
        ensures { result ≡ length self.now }
    {
        match &self.room {
            Room::Inline(short) => short.len(),
            Room::Heap(heap) => heap.len(),
        }
    }

    /// Whether it is the same text. Two texts of up to 16 bytes are compared in one step.
    #[inline(always)]
    pub fn is(&self, other: &Bytes) -> bool
        ensures { result ≡ bytes_eq self.now other.now }
    {
        if let Room::Inline(short) = &self.room
            && let Room::Inline(other) = &other.room
            && short.len() <= LANES
        {
            return short.is(other);
        }
        self.as_slice() == other.as_slice()
    }

    /// Whether it holds memory, as each text of more than 20 bytes does.
    #[inline(always)]
    pub fn holds_memory(&self) -> bool
        ensures { result ≡ false → length self.now ≤ 20 }
    {
        match &self.room {
            Room::Inline(short) => {
                let len = short.len();
                prove!(len <= CAPACITY);
                false
            }
            Room::Heap(_) => true,
        }
    }

    /// Whether it has no bytes.
    #[inline(always)]
    pub fn is_empty(&self) -> bool
        ensures { IsTrue result ↔ (self.now ≡ []) }
    {
        self.len() == 0
    }
}

/// Appends the first bytes of the cells. A copy of a fixed width, cut to the text, needs no call of `memcpy`.
#[inline(always)]
fn append_cells<const N: usize>(
    heap: &mut Vec<u8>,
    cells: &[u8; N],
    count: usize,
) -> Result<(), NoMemory>
    requires { count ≤ N }
    ensures appended { heap.new.items ≡ (if is_ok result then heap.old.items ++ take count cells.now
        else heap.old.items) }
    ensures room { N + vec_len heap.old ≤ vec_capacity heap.old → IsOk result }
{
    let len = heap.len();
    heap.extend_from_slice(cells)?;
    heap.truncate(len + count);
    Ok(())
}

/// Appends a short text, and then the byte, if there is one. A text of up to 16 bytes is copied in one step.
#[inline(always)]
fn append_short_then(heap: &mut Vec<u8>, text: &Short, next: Option<u8>) -> Result<(), NoMemory>
    ensures { OnOk result (heap.new.items ≡ heap.old.items ++ text.now ++ option_to_list next) }
{
    let len = text.len();
    if len <= LANES {
        append_cells::<LANES>(heap, &text.first(), len)?;
    } else {
        append_cells::<CAPACITY>(heap, text.cells(), len)?;
    }
    if let Some(byte) = next {
        heap.push(byte)?;
    }
    Ok(())
}

impl PartialEq for Bytes {
    ghost use Rattle.std.specs.Cmp.{partial_equiv_from_equiv};
    ghost use Rattle.std.specs.Cmp.Lexicographic.{nat_list_eq_equiv};
    ghost use Rattle.std.specs.Str.{bytes_eq};

    ghost eq = { bytes_eq };

    ghost laws = { partial_equiv_from_equiv nat_list_eq_equiv };

    #[inline(always)]
    fn eq(&self, other: &Self) -> bool {
        self.is(other)
    }
}

impl Eq for Bytes {
    ghost use Rattle.std.specs.Cmp.Lexicographic.{nat_list_eq_equiv};

    ghost laws = { nat_list_eq_equiv };
}

/// As text, in quotes, where each byte is shown as a character of its own.
impl fmt::Debug for Bytes {
    fn fmt<W: fmt::Write>(&self, f: &mut fmt::Formatter<W>) -> fmt::Result {
        f.write_str("\"")?;
        for byte in self.as_slice() {
            fmt::Write::write_char(f, char::from(*byte))?;
        }
        f.write_str("\"")
    }
}
