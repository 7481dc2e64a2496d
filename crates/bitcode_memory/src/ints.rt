//! The integers that columns hold: as numbers, as residues and as bytes.
ghost use Rattle.std.specs.Prelude.{◌≡◌, ℕ, ◌+◌, ◌-◌, ◌*◌, ◌%◌, ◌^◌, ◌<◌, ◌≤◌, ℤ, int_lt, ◌↔◌, Bool, List, ◌++◌};
ghost use Rattle.std.specs.Prelude.{length, take, drop, map, All, vec_len, vec_capacity, IsOk, IsErr, IfOk, OnOk};
ghost use Rattle.std.specs.Prelude.{IfErr, OnErr};
ghost use Rattle.bitcode_memory.specs.IntWidths.{IsWidth};
ghost use Rattle.bitcode_memory.specs.LittleEndian.{little_endian, number_bytes, SpellsRaw};
ghost use Rattle.bitcode_memory.specs.IntRange.{least_number, greatest_number};
ghost use Rattle.bitcode_memory.specs.Ints.{IsNumber, residue, number_of};

use crate::consume::consume_byte_arrays;
use crate::error::{Error, Reason};

mod signed;
mod sizes;
mod unsigned;
mod wide;

/// An unsigned integer of a fixed width. An [`Int`] of that width becomes one modulo a power of 256.
pub trait SizedUInt: Copy {
    // in bytes
    ghost width: { ℕ };

    ghost value: { Self → ℕ };

    /// Converts to the widest type without changing the number.
    fn to_wide(self) -> u128
        ensures same { result ≡ value self }
        ensures in_range { value self < 256 ^ width };

    /// Keeps the lowest bytes of a number, as many as the type has: 258 becomes the `u8` 2.
    fn from_wide(wide: u128) -> Self
        ensures { value result ≡ wide % 256 ^ width };

    /// The sum modulo the number of values of the type.
    fn wrapping_add(self, right: Self) -> Self
        ensures { value result ≡ (value self + value right) % 256 ^ width };

    /// The difference modulo the number of values of the type.
    fn wrapping_sub(self, right: Self) -> Self
        ensures { value result ≡ (value self + (256 ^ width - value right)) % 256 ^ width };

    /// Takes a number off the front of the input, its lowest byte first.
    ///
    /// If fewer bytes are left than the type has, the error is `EOF` and the input is unchanged.
    fn read(input: &mut &[u8]) -> Result<Self, Error>
        ensures refused { IsErr result ↔ (length input.old.now < width) }
        ensures reason { IfErr result (λ e. e.reason ≡ Reason.Eof) }
        ensures unchanged { OnErr result (input.new.now ≡ input.old.now) }
        ensures taken { IfOk result
            (λ number. value number ≡ little_endian (take width input.old.now)) }
        ensures rest { OnOk result (input.new.now ≡ drop width input.old.now) };

    /// Appends the bytes of the number, the lowest first.
    ///
    /// If an allocation fails, the error is `out of memory` and `out` is unchanged.
    fn write(self, out: &mut Vec<u8>) -> Result<(), Error>
        ensures written { OnOk result
            (out.new.items ≡ out.old.items ++ number_bytes width (value self)) }
        ensures unchanged { OnErr result (out.new.items ≡ out.old.items) }
        ensures reason { IfErr result (λ e. e.reason ≡ Reason.OutOfMemory) }
        ensures succeeds { vec_len out.old + width ≤ vec_capacity out.old → IsOk result }
        ensures len { OnOk result (vec_len out.new ≡ vec_len out.old + width) }
        ensures capacity { vec_capacity out.old ≤ vec_capacity out.new };

    /// The size of a number in bytes.
    fn size() -> usize
        ensures { result ≡ width };

    /// Appends the bytes of the number, the lowest first. The caller must have reserved the room.
    fn push(self, out: &mut Vec<u8>)
        requires { vec_len out.old + width ≤ vec_capacity out.old }
        ensures written { out.new.items ≡ out.old.items ++ number_bytes width (value self) }
        ensures len { vec_len out.new ≡ vec_len out.old + width }
        ensures capacity { vec_capacity out.new ≡ vec_capacity out.old };

    /// Overwrites a slice of the same size with the bytes of the number, the lowest first.
    fn put(self, bytes: &mut [u8])
        requires { length bytes.old ≡ width }
        ensures { bytes.new ≡ number_bytes width (value self) };

    ghost width_law: { IsWidth width };
}

/// An integer that can be an entry of a column.
pub trait Int: Copy {
    /// The number's bytes, the lowest first.
    type Une: Copy;

    /// The unsigned integer of the same width.
    type Unsigned: SizedUInt;

    // in bytes
    ghost width: { ℕ };

    ghost signed: { Bool };

    ghost number: { Self → ℤ };

    ghost une_bytes: { Self.Une → List ℕ };

    /// The size of a number in bytes.
    fn width() -> usize
        ensures { result ≡ width };

    /// Whether the type has negative numbers.
    fn is_signed() -> bool
        ensures { result ≡ signed };

    /// The number with these bytes.
    fn from_unaligned(unaligned: Self::Une) -> Self
        ensures { number result ≡ number_of width signed (little_endian (une_bytes unaligned)) };

    /// The bytes of the number: the `u16` 258 has `[2, 1]`.
    fn to_unaligned(self) -> Self::Une
        ensures { une_bytes result ≡ number_bytes width (residue width (number self)) };

    /// The number modulo the number of values of the type: the `i16` -1 becomes 65535.
    fn to_unsigned(self) -> Self::Unsigned
        ensures value { Self.Unsigned.value result ≡ residue width (number self) }
        ensures in_range { IsNumber width signed (number self) };

    /// The inverse of [`Int::to_unsigned`].
    fn from_unsigned(unsigned: Self::Unsigned) -> Self
        ensures { number result ≡ number_of width signed (Self.Unsigned.value unsigned) };

    /// Whether the number is less than the other.
    fn is_less(self, other: Self) -> bool
        ensures { result ≡ int_lt (number self) (number other) };

    /// Takes `count` numbers off the front of the input, each as its bytes.
    ///
    /// If too few bytes are left, the error is `EOF` and the input is unchanged.
    fn consume_unaligned<'a>(input: &mut &'a [u8], count: usize) -> Result<&'a [Self::Une], Error>
        ensures refused { IsErr result ↔ (length input.old.now < count * width) }
        ensures reason { IfErr result (λ e. e.reason ≡ Reason.Eof) }
        ensures unchanged { OnErr result (input.new.now ≡ input.old.now) }
        ensures size { IfOk result (λ entries. length entries.now ≡ count) }
        ensures spelled { IfOk result
            (λ entries. SpellsRaw width (take (count * width) input.old.now)
            (map (λ e. little_endian (une_bytes e)) entries.now)) }
        ensures rest { OnOk result (input.new.now ≡ drop (count * width) input.old.now) };

    ghost width_law: { IsWidth width };

    ghost unsigned_law: { Self.Unsigned.width ≡ width };
}

/// An [`Int`] whose range is the same on every machine.
pub trait SizedInt: Int {
    /// The least number of the type.
    const MIN: Self;

    /// The greatest number of the type.
    const MAX: Self;

    ghost MIN: { Self };

    ghost MAX: { Self };

    ghost bounds_law: { (Self.number MIN ≡ least_number Self.width Self.signed)
        × (Self.number MAX ≡ greatest_number Self.width Self.signed) };
}

/// Each byte is below 256. It does nothing; its contract is for proofs.
pub fn known_bytes(_bytes: &[u8])
    ensures { All (λ byte. byte < 256) _bytes.now }
{}

// Takes `count` arrays of `N` bytes, which are the bytes of numbers.
#[tactic(auto, using(crate::proofs::UnalignedLemmas::first_chunks_spell))]
fn consume_numbers<'a, const N: usize>(
    input: &mut &'a [u8],
    count: usize,
) -> Result<&'a [[u8; N]], Error>
    requires { 0 < N }
    ensures refused { IsErr result ↔ (length input.old.now < count * N) }
    ensures reason { IfErr result (λ e. e.reason ≡ Reason.Eof) }
    ensures unchanged { OnErr result (input.new.now ≡ input.old.now) }
    ensures size { IfOk result (λ entries. length entries.now ≡ count) }
    ensures spelled { IfOk result
        (λ entries. SpellsRaw N (take (count * N) input.old.now) (map little_endian entries.now)) }
    ensures rest { OnOk result (input.new.now ≡ drop (count * N) input.old.now) }
{
    known_bytes(input);
    let arrays = consume_byte_arrays(input, count)?;
    Ok(arrays)
}

/// Appends the bytes. The caller must have reserved the room.
///
/// It is inlined, so that the compiler knows the number of bytes. It appends them one by one, which takes less time for
/// few bytes than a call that copies them.
#[inline(always)]
pub fn push_bytes(bytes: &[u8], out: &mut Vec<u8>)
    requires { vec_len out.old + length bytes.now ≤ vec_capacity out.old }
    ensures written { out.new.items ≡ out.old.items ++ bytes.now }
    ensures len { vec_len out.new ≡ vec_len out.old + length bytes.now }
    ensures capacity { vec_capacity out.new ≡ vec_capacity out.old }
{
    for byte in bytes {
        out.push_reserved(*byte);
    }
}

// Takes an array of `N` bytes.
fn consume_array<const N: usize>(input: &mut &[u8]) -> Result<[u8; N], Error>
    requires { 0 < N }
    ensures refused { IsErr result ↔ (length input.old.now < N) }
    ensures reason { IfErr result (λ e. e.reason ≡ Reason.Eof) }
    ensures unchanged { OnErr result (input.new.now ≡ input.old.now) }
    ensures taken { IfOk result (λ bytes. bytes ≡ take N input.old.now) }
    ensures rest { OnOk result (input.new.now ≡ drop N input.old.now) }
{
    let arrays = consume_byte_arrays::<N>(input, 1)?;
    Ok(arrays[0])
}
