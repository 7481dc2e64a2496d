//! The decoder of lengths.
#![tactic(auto, unfolding(crate::specs::Length::short_left, crate::specs::Length::large_left, crate::specs::Length::lengths_left, crate::specs::Length::lengths_sum, crate::specs::Length::lengths_owned))]

ghost use Rattle.std.specs.Prelude.{◌≡◌, ◌+◌, ◌<◌, ◌≤◌, [], ◌∷◌, ◌++◌, ◌↔◌, IsTrue, Some, None, ◌^◌, pos};
ghost use Rattle.std.specs.Prelude.{length, map, drop, sum, All, MatchBool, IfSome, IfOk, OnOk, IfErr, OnErr};
ghost use Rattle.bitcode_memory.specs.Fast.{cow_rest};
ghost use Rattle.bitcode_columns.specs.IntColumn.{SpellsInts, int_text};
ghost use Rattle.bitcode_memory.specs.LittleEndian.{little_endian};
ghost use Rattle.bitcode_columns.specs.Reading.{Reads, IsEndOf};
ghost use Rattle.bitcode_coder.specs.Faults.{NamesIntsFault};
ghost use Rattle.bitcode_coder.specs.LengthColumn.{SpellsLengths, KeepsCap, length_limit, length_bytes, lengths_from};
ghost use Rattle.bitcode_coder.specs.LengthColumn.{escape};
ghost use Rattle.bitcode_coder.specs.LengthParts.{escapes, ReadsParts, sum_fault, NamesLengthFault};

use crate::coder::both;
use crate::length::ESCAPE;
use bitcode_columns::strict::read_bytes;
use bitcode_int_columns::strict::read_ints;
use bitcode_memory::error::{Error, Reason};
use bitcode_memory::fast::CowSlice;
use bitcode_memory::ints::known_bytes;
use bitcode_memory::refuse::err;
use std::alloc::Global;

// Read lengths sum to less than this: what isize can hold, divided by 4096.
const LENGTH_LIMIT: u128 = 2251799813685247;

// The sum of fewer bytes is less than 2^64.
const MANY: usize = 1 << 56;

/// The column that lengths are read from.
///
/// ```rust
/// let mut input: &[u8] = &[0, 1, 255, 2, 6, 255];
/// let mut lengths = LengthDecoder::new(alloc);
/// lengths.populate(&mut input, 3)?;
/// assert_eq!(rt; lengths.length(), 258);
/// assert_eq!(rt; lengths.decode(), 1);
/// ```
#[derive(Drop)]
pub struct LengthDecoder<'a> {
    alloc: Global,
    small: CowSlice<'a, u8>,
    large: CowSlice<'a, [u8; 8]>,
    sum: usize,
    ghost enough: { length (cow_rest large) ≡ escapes (cow_rest small) },
}

// The number with these eight bytes, the lowest first.
fn number_of_bytes(bytes: [u8; 8]) -> u64
    ensures { result ≡ little_endian bytes }
{
    u64::from_le_bytes(bytes)
}

// Whether each of the numbers is a length for which an escape is written.
fn are_large(large: &[[u8; 8]]) -> bool
    ensures { MatchBool result (All (λ bytes. escape ≤ little_endian bytes) large.now)
        (All (λ bytes. escape ≤ little_endian bytes) large.now → ⊥) }
{
    large
        .iter()
        .all(|bytes| number_of_bytes(*bytes) >= u64::from(ESCAPE))
}

// How many large lengths follow the bytes.
fn count_escapes(small: &[u8]) -> usize
    ensures { result ≡ escapes small.now }
{
    small.iter().filter(|byte| **byte == ESCAPE).count()
}

// The sum of bytes.
fn sum_of_bytes(bytes: &[u8]) -> u64
    requires { length bytes.now < 2 ^ 56 }
    ensures { result ≡ sum bytes.now }
{
    let mut total = 0;
    for byte in bytes {
        total += u64::from(*byte);
    }
    total
}

// Reads so many large lengths as a column of integers. Of none nothing is read.
fn read_large<'a>(
    alloc: Global,
    input: &mut &'a [u8],
    count: usize,
    large: &mut CowSlice<'a, [u8; 8]>,
    strict: bool,
) -> Result<bool, Error>
    ensures read { OnOk result
        (Reads (SpellsInts 8) count input.old.now (map little_endian (cow_rest large.new))
        input.new.now) }
    ensures judged { IsTrue strict → IfOk result (λ written. IsTrue written
        ↔ (input.old.now ≡ int_text 8 (map pos (map little_endian (cow_rest large.new)))
        ++ input.new.now)) }
    ensures refused { IfErr result (λ e. NamesIntsFault 8 e.reason count input.old.now) }
    ensures rest { OnErr result (IsEndOf input.old.now input.new.now) }
{
    if count == 0 {
        large.set_borrowed(&[]);
        return Ok(true);
    }
    read_ints::<u64>(alloc, input, count, large, strict)
}

// Reads both parts of a column, whatever they sum to. Where `strict`, the answer is whether they are those that are
// written.
fn read_parts<'a>(
    alloc: Global,
    input: &mut &'a [u8],
    k: usize,
    small: &mut CowSlice<'a, u8>,
    large: &mut CowSlice<'a, [u8; 8]>,
    strict: bool,
) -> Result<bool, Error>
    ensures read { OnOk result
        (ReadsParts k input.old.now (cow_rest small.new) (map little_endian (cow_rest large.new))
        input.new.now) }
    ensures judged { IsTrue strict → IfOk result (λ written. IsTrue written
        ↔ (input.old.now ≡ length_bytes
        (lengths_from (cow_rest small.new) (map little_endian (cow_rest large.new)))
        ++ input.new.now)) }
    ensures refused { IfErr result (λ e. NamesLengthFault e.reason k input.old.now) }
    ensures rest { OnErr result (IsEndOf input.old.now input.new.now) }
{
    let small_written = read_bytes::<u8>(alloc, input, k, small, strict)?;
    let shorts = small.as_slice();
    known_bytes(shorts);
    let count = count_escapes(shorts);
    let large_written = read_large(alloc, input, count, large, strict)?;
    let enough = are_large(large.as_slice());
    Ok(both(both(small_written, large_written), enough))
}

// The byte of a column of one length below 255, the bytes behind it, and that length, if the input begins with such a
// column.
#[inline(always)]
fn single_short(bytes: &[u8], k: usize) -> Option<(&[u8], &[u8], usize)>
    ensures read { IfSome result
        (λ parts. ReadsParts k bytes.now parts.0.now [] parts.1.now) }
    ensures written { IfSome result
        (λ parts. bytes.now ≡ length_bytes (lengths_from parts.0.now []) ++ parts.1.now) }
    ensures sum { IfSome result (λ parts. parts.2 ≡ sum (lengths_from parts.0.now [])) }
    ensures below { IfSome result (λ parts. sum (lengths_from parts.0.now []) < length_limit) }
{
    if k != 1 {
        return None;
    }
    let (first, rest) = bytes.split_first()?;
    if *first == ESCAPE {
        return None;
    }
    known_bytes(bytes);
    Some((&bytes[..1], rest, *first as usize))
}

// Whether a byte is over the limit.
fn any_byte_over(bytes: &[u8], limit: usize) -> bool
    ensures { MatchBool result (All (λ byte. byte ≤ limit) bytes.now → ⊥)
        (All (λ byte. byte ≤ limit) bytes.now) }
{
    bytes.iter().any(|byte| *byte as usize > limit)
}

impl<'a> LengthDecoder<'a> {
    ghost use Rattle.bitcode_coder.specs.Length.{short_left, large_left, lengths_left, lengths_sum, lengths_owned};

    /// Creates an empty decoder without allocating.
    pub fn new(alloc: Global) -> Self
        ensures left { lengths_left result ≡ [] }
        ensures sum { lengths_sum result ≡ 0 }
        ensures owned { lengths_owned result ≡ 0 }
    {
        LengthDecoder {
            alloc,
            small: CowSlice::new(alloc),
            large: CowSlice::new(alloc),
            sum: 0,
        }
    }

    /// Reads `k` lengths from the front of the input.
    ///
    /// The short bytes are validated first, with the errors of a byte column, and then the large lengths, with the
    /// errors of a 64-bit integer column. If both are valid, a sum over 18446744073709551615 is the error
    /// `length overflow`, and any other sum of 2251799813685247 or more is `huge length`.
    ///
    /// If the input has both parts unpacked, they are borrowed from it without allocating.
    pub fn populate(&mut self, input: &mut &'a [u8], k: usize) -> Result<(), Error>
        ensures read { OnOk result
            (Reads (SpellsLengths None) k input.old.now (lengths_left self.new) input.new.now) }
        ensures parts { OnOk result
            (ReadsParts k input.old.now (short_left self.new) (large_left self.new) input.new.now) }
        ensures sum { OnOk result (lengths_sum self.new ≡ sum (lengths_left self.new)) }
        ensures refused { IfErr result (λ e. NamesLengthFault e.reason k input.old.now) }
        ensures rest { OnErr result (IsEndOf input.old.now input.new.now) }
    {
        self.read(input, k, false)?;
        Ok(())
    }

    /// Reads `k` lengths as [`LengthDecoder::populate`] does. If `strict`, it returns whether the bytes of both parts
    /// are those that would be written for the lengths. Otherwise the returned bool has no meaning.
    #[inline(always)]
    pub fn read(&mut self, input: &mut &'a [u8], k: usize, strict: bool) -> Result<bool, Error>
        ensures read { OnOk result
            (Reads (SpellsLengths None) k input.old.now (lengths_left self.new) input.new.now) }
        ensures parts { OnOk result
            (ReadsParts k input.old.now (short_left self.new) (large_left self.new) input.new.now) }
        ensures sum { OnOk result (lengths_sum self.new ≡ sum (lengths_left self.new)) }
        ensures judged { IsTrue strict → IfOk result
            (λ written. IsTrue written
            ↔ (input.old.now ≡ length_bytes (lengths_left self.new) ++ input.new.now)) }
        ensures refused { IfErr result (λ e. NamesLengthFault e.reason k input.old.now) }
        ensures rest { OnErr result (IsEndOf input.old.now input.new.now) }
    {
        let bytes = *input;
        if let Some((byte, rest, length)) = single_short(bytes, k) {
            *input = rest;
            self.small.set_borrowed(byte);
            self.large.set_borrowed(&[]);
            self.sum = length;
            return Ok(true);
        }
        self.read_any(input, k, strict)
    }

    // Like `read`, for all other columns. It is never inlined, so that `read` needs no stack frame of its size.
    #[inline(never)]
    fn read_any(&mut self, input: &mut &'a [u8], k: usize, strict: bool) -> Result<bool, Error>
        ensures read { OnOk result
            (Reads (SpellsLengths None) k input.old.now (lengths_left self.new) input.new.now) }
        ensures parts { OnOk result
            (ReadsParts k input.old.now (short_left self.new) (large_left self.new) input.new.now) }
        ensures sum { OnOk result (lengths_sum self.new ≡ sum (lengths_left self.new)) }
        ensures judged { IsTrue strict → IfOk result
            (λ written. IsTrue written
            ↔ (input.old.now ≡ length_bytes (lengths_left self.new) ++ input.new.now)) }
        ensures refused { IfErr result (λ e. NamesLengthFault e.reason k input.old.now) }
        ensures rest { OnErr result (IsEndOf input.old.now input.new.now) }
    {
        let parts = read_parts(
            self.alloc,
            input,
            k,
            &mut self.small,
            &mut self.large,
            strict,
        );
        match parts {
            Ok(written) => {
                self.sum = self.checked_sum()?;
                Ok(written)
            }
            Err(error) => {
                self.small.set_borrowed(&[]);
                self.large.set_borrowed(&[]);
                Err(error)
            }
        }
    }

    /// The sum of all lengths that were read, including those already taken.
    pub fn length(&self) -> usize
        ensures { result ≡ lengths_sum self.now }
    {
        self.sum
    }

    /// Whether one of the remaining lengths exceeds the limit `N`. It does not allocate.
    ///
    /// For `N` below 255 it compares the short bytes with `N`. So a byte 255 exceeds the limit, whatever length
    /// follows: 255, 6, 2 is the single length 2, and still exceeds 100. For a greater `N` it compares the lengths.
    pub fn any_greater_than<const N: usize>(&self) -> bool
        ensures { MatchBool result
            (KeepsCap (Some N) (short_left self.now) (lengths_left self.now) → ⊥)
            (KeepsCap (Some N) (short_left self.now) (lengths_left self.now)) }
    {
        if N < ESCAPE as usize {
            any_byte_over(self.small.as_slice(), N)
        } else {
            self.any_length_over(N)
        }
    }

    /// Takes the next length and its short byte. At least one must be left.
    pub fn decode(&mut self) -> usize
        requires { 0 < length (lengths_left self.old) }
        ensures taken { lengths_left self.old ≡ result ∷ lengths_left self.new }
        ensures short { short_left self.new ≡ drop 1 (short_left self.old) }
        ensures sum { lengths_sum self.new ≡ lengths_sum self.old }
    {
        let byte = self.small.next_unchecked();
        if byte == ESCAPE {
            number_of_bytes(self.large.next_unchecked()) as usize
        } else {
            byte as usize
        }
    }

    // The same lengths, to be taken without taking them here.
    pub(crate) fn borrowed_clone(&self) -> LengthDecoder<'_>
        ensures short { short_left result ≡ short_left self.now }
        ensures left { lengths_left result ≡ lengths_left self.now }
    {
        let mut small = CowSlice::new(self.alloc);
        small.set_borrowed(self.small.as_slice());
        let mut large = CowSlice::new(self.alloc);
        large.set_borrowed(self.large.as_slice());
        LengthDecoder {
            alloc: self.alloc,
            small,
            large,
            sum: self.sum,
        }
    }

    // How many lengths are left.
    pub(crate) fn remaining(&self) -> usize
        ensures { result ≡ length (lengths_left self.now) }
    {
        self.small.as_slice().len()
    }

    // The bytes of the lengths that are left, if none of them is large.
    pub(crate) fn as_short(&self) -> Option<&[u8]>
        ensures lengths { IfSome result (λ bytes. bytes.now ≡ lengths_left self.now) }
        ensures no_large { IfSome result (λ bytes. large_left self.now ≡ []) }
    {
        if self.large.as_slice().is_empty() {
            Some(self.small.as_slice())
        } else {
            None
        }
    }

    // Passes over `n` lengths, none of which is large.
    pub(crate) fn pass_short(&mut self, n: usize)
        requires short { large_left self.old ≡ [] }
        requires left { n ≤ length (lengths_left self.old) }
        ensures { lengths_left self.new ≡ drop n (lengths_left self.old) }
    {
        let _passed = self.small.chunk_unchecked(n);
    }

    // The sum of the lengths that are left.
    fn total(&self) -> u128
        ensures { result ≡ sum (lengths_left self.now) }
    {
        match self.as_short() {
            Some(bytes) if bytes.len() < MANY => u128::from(sum_of_bytes(bytes)),
            _ => self.total_of_each(),
        }
    }

    // The same, one by one.
    fn total_of_each(&self) -> u128
        ensures { result ≡ sum (lengths_left self.now) }
    {
        let mut lengths = self.borrowed_clone();
        let mut total: u128 = 0;
        for _ in 0..self.remaining() {
            total += lengths.decode() as u128;
        }
        total
    }

    // The sum, where lengths may have it.
    fn checked_sum(&self) -> Result<usize, Error>
        ensures sum { IfOk result (λ sum_left. sum_left ≡ sum (lengths_left self.now)) }
        ensures below { OnOk result (sum (lengths_left self.now) < length_limit) }
        ensures refused { IfErr result
            (λ e. sum_fault (sum (lengths_left self.now)) ≡ Some e.reason) }
    {
        let total = self.total();
        if total > u64::MAX as u128 {
            return err(Reason::LengthOverflow);
        }
        if total >= LENGTH_LIMIT {
            return err(Reason::HugeLength);
        }
        Ok(total as usize)
    }

    // Whether a length is over the limit.
    fn any_length_over(&self, limit: usize) -> bool
        ensures { MatchBool result (All (λ n. n ≤ limit) (lengths_left self.now) → ⊥)
            (All (λ n. n ≤ limit) (lengths_left self.now)) }
    {
        let mut lengths = self.borrowed_clone();
        for _ in 0..self.remaining() {
            if lengths.decode() > limit {
                return true;
            }
        }
        false
    }
}
