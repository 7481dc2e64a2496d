//! The encoder of lengths.
#![tactic(auto, unfolding(crate::specs::Length::written_lengths, crate::specs::Length::length_room, crate::specs::Length::length_capacity))]

ghost use Rattle.std.specs.Prelude.{◌≡◌, false, ◌+◌, ◌<◌, ◌≤◌, ◌++◌, [], ◌∷◌, None, length, map, All, pos, IsTrue};
ghost use Rattle.std.specs.Prelude.{IsFalse, IsOk, OnOk, IfErr, OnErr};
ghost use Rattle.bitcode_columns.specs.ByteColumn.{byte_text};
ghost use Rattle.bitcode_memory.specs.Fast.{fast_items, fast_room};
ghost use Rattle.bitcode_columns.specs.IntColumn.{int_text};
ghost use Rattle.bitcode_coder.specs.Coder.{BeginsWith};
ghost use Rattle.bitcode_coder.specs.Columns.{lengths, one};
ghost use Rattle.bitcode_coder.specs.LengthColumn.{length_bytes};
ghost use Rattle.bitcode_coder.specs.LengthParts.{AreLengthParts};
ghost use Rattle.bitcode_coder.specs.Spelling.{natural};

use crate::coder::{Buffer, HoldsColumns};
use crate::length::{ChunkWidth, ESCAPE, Len};
use crate::one::write_length;
use bitcode_columns::pack::pack_bytes;
use bitcode_int_columns::pack_ints::pack_ints;
use bitcode_memory::error::{Error, Reason};
use bitcode_memory::fast::{FastVec, PushUnchecked};
use std::alloc::Global;
use std::mem::replace;

/// The column that lengths are written to.
///
/// A length below 255 is written as one byte. A greater one is written as the byte 255, and again among the large
/// lengths after all those bytes: 1, 255 and 2 become 0, 1, 255, 2, 6, 255.
#[derive(Drop)]
pub struct LengthEncoder {
    alloc: Global,
    small: FastVec<u8>,
    large: Vec<u64>,
    ghost split: { AreLengthParts (fast_items small) large.items },
}

// Writes both parts of a column. They are scratch afterwards.
fn pack_parts(
    alloc: Global,
    small: &mut [u8],
    large: &mut [u64],
    out: &mut Vec<u8>,
) -> Result<(), Error>
    ensures written { OnOk result
        (out.new.items ≡ out.old.items
        ++ (byte_text (map pos small.old) ++ int_text 8 (map pos large.old))) }
    ensures begins { BeginsWith out.old.items out.new.items }
    ensures reason { IfErr result (λ e. e.reason ≡ Reason.OutOfMemory) }
{
    pack_bytes(small, out)?;
    if large.is_empty() {
        return Ok(());
    }
    pack_ints(alloc, large, out)
}

// Whether one of several lengths is over `max`.
fn is_one_over<T: Len>(several: &[T], max: usize) -> bool
    ensures over { IsTrue result → All (λ t. T.size t ≤ max) several.now → ⊥ }
    ensures within { IsFalse result → All (λ t. T.size t ≤ max) several.now }
{
    for t in several {
        if t.len() > max {
            return true;
        }
    }
    false
}

// Pushes lengths of at most `max`, which is at most 64. The caller must have reserved the room. The list is passed by
// value and returned: through a reference, each push would load and store its length.
fn push_short<T: Len>(mut small: FastVec<u8>, chunk: &[T], max: usize) -> FastVec<u8>
    requires room { length chunk.now ≤ fast_room small }
    requires max { max ≤ 64 }
    requires within { All (λ t. T.size t ≤ max) chunk.now }
    ensures written { fast_items result ≡ fast_items small ++ map T.size chunk.now }
    ensures room { fast_room small ≡ fast_room result + length chunk.now }
{
    for t in chunk {
        small.push_unchecked(t.len() as u8);
    }
    small
}

impl HoldsColumns for LengthEncoder {
    ghost use Rattle.bitcode_coder.specs.Length.{written_lengths, length_room, length_capacity};

    ghost columns = { λ e. one (lengths None) (map natural (written_lengths e)) };

    ghost room = { length_room };

    ghost capacity = { length_capacity };

    ghost surely_overflows = { λ e n. ⊥ };

    ghost overflows = { λ e n. ⊥ };

    ghost writes_free = { false };
}

impl Buffer for LengthEncoder {
    fn new(alloc: Global) -> Self {
        LengthEncoder {
            alloc,
            small: FastVec::new(alloc),
            large: Vec::new(alloc),
        }
    }

    fn reserve(&mut self, n: usize) -> Result<(), Error> {
        self.small.reserve(n)
    }

    fn collect_into(&mut self, out: &mut Vec<u8>) -> Result<(), Error> {
        let packed = pack_parts(self.alloc, self.small.as_mut_slice(), &mut self.large, out);
        self.small.clear();
        self.large.clear();
        packed
    }

    fn clear(&mut self) {
        self.small.clear();
        self.large.clear();
    }
}

impl LengthEncoder {
    ghost use Rattle.bitcode_coder.specs.Length.{written_lengths, length_room};

    /// Appends the column of one length to `out`, whatever lengths the encoder has.
    ///
    /// Errors: `out of memory`. `out` then begins with its old bytes.
    ///
    /// ```
    /// let lengths = LengthEncoder::new(alloc);
    /// lengths.write_one(3, &mut bytes)?; // [3]
    /// ```
    pub fn write_one(&self, length: usize, out: &mut Vec<u8>) -> Result<(), Error>
        ensures written { OnOk result
            (out.new.items ≡ out.old.items ++ length_bytes (length ∷ [])) }
        ensures begins { BeginsWith out.old.items out.new.items }
        ensures refused { IfErr result (λ e. e.reason ≡ Reason.OutOfMemory) }
    {
        write_length(self.alloc, length, out)
    }

    /// Adds a length. The caller must have reserved room for it.
    ///
    /// A length of 255 or more may allocate. If that fails, the error is `out of memory`, and nothing is added.
    pub fn encode(&mut self, length: usize) -> Result<(), Error>
        requires { 0 < length_room self.old }
        ensures written { OnOk result
            (written_lengths self.new ≡ written_lengths self.old ++ length ∷ []) }
        ensures room { OnOk result (length_room self.new + 1 ≡ length_room self.old) }
        ensures short { length < 255 → IsOk result }
        ensures refused { IfErr result (λ e. e.reason ≡ Reason.OutOfMemory) }
        ensures unchanged { OnErr result (written_lengths self.new ≡ written_lengths self.old) }
    {
        if length < ESCAPE as usize {
            self.encode_less_than_255(length);
        } else {
            self.large.push(length as u64)?;
            self.small.push_unchecked(ESCAPE);
        }
        Ok(())
    }

    /// Adds a length below 255 without allocating. The caller must have reserved room for it.
    ///
    /// ```rust
    /// let mut lengths = LengthEncoder::new(alloc);
    /// lengths.reserve(1)?;
    /// lengths.encode_less_than_255(3);
    /// ```
    pub fn encode_less_than_255(&mut self, length: usize)
        requires room { 0 < length_room self.old }
        requires below { length < 255 }
        ensures written { written_lengths self.new ≡ written_lengths self.old ++ length ∷ [] }
        ensures room { length_room self.new + 1 ≡ length_room self.old }
    {
        self.small.push_unchecked(length as u8);
    }

    /// Adds the lengths of a chunk, unless one of them exceeds `max`, which is at most 64. The caller must have
    /// reserved room.
    ///
    /// Returns whether one exceeds it. In this case it adds nothing. It does not allocate.
    ///
    /// ```rust
    /// let mut lengths = LengthEncoder::new(alloc);
    /// lengths.reserve(2)?;
    /// assert!(rt; !lengths.encode_vectored_max_len(&[&[1u8, 2][..], &[]], 8)); // 2 and 0 are written
    /// ```
    pub fn encode_vectored_max_len<T: Len>(&mut self, chunk: &[T], max: usize) -> bool
        requires room { length chunk.now ≤ length_room self.old }
        requires max { max ≤ 64 }
        ensures over { IsTrue result → All (λ t. T.size t ≤ max) chunk.now → ⊥ }
        ensures unchanged { IsTrue result → written_lengths self.new ≡ written_lengths self.old }
        ensures room_kept { IsTrue result → length_room self.new ≡ length_room self.old }
        ensures within { IsFalse result → All (λ t. T.size t ≤ max) chunk.now }
        ensures written { IsFalse result
            → written_lengths self.new ≡ written_lengths self.old ++ map T.size chunk.now }
        ensures room { length_room self.old ≤ length_room self.new + length chunk.now }
    {
        let over = is_one_over(chunk, max);
        if !over {
            self.push_each_short(chunk, max);
        }
        over
    }

    // Writes lengths of at most `max` each, which is at most 64. Room for them was reserved.
    fn push_each_short<T: Len>(&mut self, chunk: &[T], max: usize)
        requires room { length chunk.now ≤ length_room self.old }
        requires max { max ≤ 64 }
        requires within { All (λ t. T.size t ≤ max) chunk.now }
        ensures written { written_lengths self.new ≡ written_lengths self.old ++ map T.size
            chunk.now }
        ensures room { length_room self.old ≡ length_room self.new + length chunk.now }
    {
        let small = replace(&mut self.small, FastVec::new(self.alloc));
        self.small = push_short(small, chunk, max);
    }

    /// Adds the lengths of a chunk, whatever they are. The caller must have reserved room for them.
    ///
    /// A length of 255 or more may allocate. If that fails, the error is `out of memory`, and the lengths before it may
    /// have been added.
    pub fn encode_vectored_fallback<T: Len>(&mut self, chunk: &[T]) -> Result<(), Error>
        requires { length chunk.now ≤ length_room self.old }
        ensures written { OnOk result
            (written_lengths self.new ≡ written_lengths self.old ++ map T.size chunk.now) }
        ensures room { OnOk result
            (length_room self.old ≡ length_room self.new + length chunk.now) }
        ensures refused { IfErr result (λ e. e.reason ≡ Reason.OutOfMemory) }
    {
        for t in chunk {
            self.encode(t.len())?;
        }
        Ok(())
    }

    /// Adds the lengths of a chunk of slices with elements of `size` bytes. The caller must have reserved room for
    /// them.
    ///
    /// If a slice is longer than the width, it starts again with twice the width, and finally with the fallback.
    /// Errors: those of [`LengthEncoder::encode_vectored_fallback`].
    ///
    /// ```rust
    /// let mut lengths = LengthEncoder::new(alloc);
    /// let mut width = ChunkWidth::first(1);
    /// lengths.reserve(2)?;
    /// lengths.encode_chunk(&[&[1u8, 2][..], &[]], &mut width, 1)?;
    /// ```
    pub fn encode_chunk<T: Len>(
        &mut self,
        chunk: &[T],
        width: &mut ChunkWidth,
        size: usize,
    ) -> Result<(), Error>
        requires { length chunk.now ≤ length_room self.old }
        ensures written { OnOk result
            (written_lengths self.new ≡ written_lengths self.old ++ map T.size chunk.now) }
        ensures room { OnOk result
            (length_room self.old ≤ length_room self.new + length chunk.now) }
        ensures refused { IfErr result (λ e. e.reason ≡ Reason.OutOfMemory) }
    {
        while let Some(max) = width.elements() {
            if !self.encode_vectored_max_len(chunk, max) {
                return Ok(());
            }
            *width = width.doubled(size);
        }
        self.encode_vectored_fallback(chunk)
    }
}
