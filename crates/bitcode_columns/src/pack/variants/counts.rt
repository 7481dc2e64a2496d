//! Counting variants from their packed bytes.
ghost use Rattle.std.specs.Prelude.{◌≡◌, ℕ, ◌+◌, ◌*◌, ◌^◌, ◌<◌, length, slice_index};
ghost use Rattle.bitcode_columns.specs.Digits.{digits_in_byte, SpellsDigits};
ghost use Rattle.bitcode_columns.specs.DigitCounts.{digits_of, digits_counted};
ghost use Rattle.bitcode_columns.specs.Histogram.{AreCounts, count_of};
ghost use Rattle.bitcode_memory.specs.LittleEndian.{little_endian};

use crate::histogram::{MOST_IN_ONE_TABLE, counts_below, histogram};
use crate::pack::Base;
use bitcode_memory::ints::known_bytes;

/// Adds the digits of a byte that occurs `times` times to the counts of the numbers below `N`. It ignores all other
/// digits.
fn count_digits<const N: usize>(base: Base, byte: u8, times: usize, counts: &mut [usize; N])
    requires { (value : ℕ) → value < N
        → slice_index counts.old value + times * count_of value (digits_of base byte) < 2 ^ 64 }
    ensures { (value : ℕ) → value < N
        → slice_index counts.new value ≡ slice_index counts.old value + times * count_of value
        (digits_of base byte) }
{
    let radix = base.radix();
    let mut rest = u16::from(byte);
    for _place in 0..base.digits_in_byte() {
        let digit = (rest % radix) as usize;
        if digit < N {
            counts[digit] += times;
        }
        rest /= radix;
    }
}

/// Counts the digits of the bytes that are each number below `N`: for each of the 256 bytes its digits, times the
/// number of its occurrences.
fn counts_of_digits<const N: usize>(base: Base, packed: &[u8]) -> [usize; N]
    requires { (value : ℕ) → value < N → digits_counted base value packed.now < 2 ^ 64 }
    ensures { (value : ℕ) → value < N
        → slice_index result value ≡ digits_counted base value packed.now }
{
    let of_bytes = histogram(packed);
    let mut counts = [0; N];
    for byte in 0..256 {
        count_digits(base, byte as u8, of_bytes[byte], &mut counts);
    }
    counts
}

/// Eight bytes as one integer, with the first byte lowest.
#[inline(always)]
fn bits_of_eight(bytes: [u8; 8]) -> u64
    ensures { result ≡ little_endian bytes }
{
    u64::from_le_bytes(bytes)
}

/// The number of 1 bits in eight bytes.
#[inline(always)]
fn ones_of_eight(bytes: [u8; 8]) -> usize
    ensures { result ≡ digits_counted Base.Two 1 bytes }
{
    known_bytes(&bytes);
    bits_of_eight(bytes).count_ones() as usize
}

/// The number of 1 bits in the bytes, byte by byte.
fn ones_of_each(packed: &[u8]) -> usize
    requires { 8 * length packed.now < 2 ^ 64 }
    ensures { result ≡ digits_counted Base.Two 1 packed.now }
{
    known_bytes(packed);
    let mut ones = 0;
    for byte in packed {
        ones += byte.count_ones() as usize;
    }
    ones
}

/// The number of 1 bits in the bytes, eight bytes at a time.
fn ones_of(packed: &[u8]) -> usize
    requires { 8 * length packed.now < 2 ^ 64 }
    ensures { result ≡ digits_counted Base.Two 1 packed.now }
{
    known_bytes(packed);
    let (blocks, rest) = packed.as_chunks::<8>();
    let mut ones = 0;
    for block in blocks {
        ones += ones_of_eight(*block);
    }
    ones + ones_of_each(rest)
}

/// The numbers of 0 bits and of 1 bits in the bytes.
fn counts_of_bits<const N: usize>(packed: &[u8]) -> [usize; N]
    requires two { N ≡ 2 }
    requires few { 8 * length packed.now < 2 ^ 64 }
    ensures { (value : ℕ) → value < N
        → slice_index result value ≡ digits_counted Base.Two value packed.now }
{
    known_bytes(packed);
    let ones = ones_of(packed);
    let mut counts = [0; N];
    counts[0] = 8 * packed.len() - ones;
    counts[1] = ones;
    counts
}

/// Counts the digits of the bytes that are each number below `N`. For base 2 and `N = 2` it counts bits.
fn counts_of_whole<const N: usize>(base: Base, packed: &[u8]) -> [usize; N]
    requires counts { (value : ℕ) → value < N → digits_counted base value packed.now < 2 ^ 64 }
    requires digits { digits_in_byte base * length packed.now < 2 ^ 64 }
    ensures { (value : ℕ) → value < N
        → slice_index result value ≡ digits_counted base value packed.now }
{
    if base == Base::Two && N == 2 {
        counts_of_bits(packed)
    } else {
        counts_of_digits(base, packed)
    }
}

/// Counts the entries that are each number below `N`. The entries are the digits of the bytes. It counts bits, and from
/// 100 whole bytes on also other digits, by the byte, except those in the last byte.
pub(super) fn packed_counts<const N: usize>(base: Base, packed: &[u8], entries: &[u8]) -> [usize; N]
    requires { SpellsDigits base packed.now entries.now }
    ensures { AreCounts N entries.now result }
{
    let in_byte = base.digits_in_byte();
    let whole = entries.len() / in_byte;
    let are_bits = base == Base::Two && N == 2;
    if N == 0 || base == Base::Whole || (whole <= MOST_IN_ONE_TABLE && !are_bits) {
        return counts_below(entries);
    }
    let behind = &entries[whole * in_byte..];
    let mut counts = counts_of_whole(base, &packed[..whole]);
    for entry in behind {
        let value = *entry as usize;
        if value < N {
            counts[value] += 1;
        }
    }
    counts
}
