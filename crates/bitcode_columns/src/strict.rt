//! Reading a column and checking whether its bytes are those that `encode` would write for its entries.
ghost use Rattle.std.specs.Prelude.{◌≡◌, ◌≢◌, ◌↔◌, ℕ, ℤ, [], ◌∷◌, ◌-◌, ◌*◌, ◌≤ℤ◌, IsSome, IfSome};
ghost use Rattle.std.specs.Prelude.{◌<◌, ◌≤◌, ◌++◌, List, All, length, map, MatchBool, IsTrue, IsOk};
ghost use Rattle.std.specs.Prelude.{IfOk, OnOk, IfErr, OnErr, ◌⊎◌, sum, ◌^◌};
ghost use Rattle.std.specs.Int.{div_ceil};
ghost use Rattle.bitcode_columns.specs.BoolColumn.{SpellsBools, bool_text};
ghost use Rattle.bitcode_columns.specs.ByteColumn.{SpellsBytes, byte_text, level_of_base};
ghost use Rattle.bitcode_columns.specs.Digits.{SpellsDigits, digits_text, radix, digits_in_byte};
ghost use Rattle.bitcode_memory.specs.Fast.{cow_rest};
ghost use Rattle.bitcode_columns.specs.Reading.{Reads, IsEndOf, Names, NamesVariantFault, bools_fault, bytes_fault};
ghost use Rattle.bitcode_columns.specs.Reading.{bytes_stand_raw, variants_stand_raw};
ghost use Rattle.bitcode_columns.specs.Histogram.{AreCounts};
ghost use Rattle.bitcode_columns.specs.VariantColumn.{SpellsVariants, variant_text};
ghost use Rattle.bitcode_columns.specs.WrittenDigits.{UsesNoMore, IsPacked};
ghost use Rattle.bitcode_memory.specs.declared.error.Reason.{Reason};
ghost use Rattle.bitcode_memory.specs.Ints.{IsNumber, residue, number_of, least, greatest};

use crate::byte::Byte;
use crate::digit::Digit;
use crate::pack::bytes::{MOST_UNSHIFTED, plain_base, shifted_base};
use crate::pack::variants::base_of_variants;
use crate::pack::{Base, MOST_WITHOUT_TAG, unpack_bools, unpack_bytes, unpack_bytes_less_than};
use bitcode_memory::error::{Error, Reason};
use bitcode_memory::fast::CowSlice;
use bitcode_memory::ints::known_bytes;
use std::alloc::Global;

// What a number of so many digits is below.
fn limit_of(base: Base, digits: usize) -> u16
    requires { digits ≤ digits_in_byte base }
    ensures { result ≡ radix base ^ digits }
{
    let radix = base.radix();
    let mut limit: u16 = 1;
    for _digit in 0..digits {
        limit *= radix;
    }
    limit
}

// Whether all bytes are below the limit.
fn all_below(bytes: &[u8], limit: u16) -> bool
    ensures { MatchBool result (All (λ byte. byte < limit) bytes.now)
        (All (λ byte. byte < limit) bytes.now → ⊥) }
{
    bytes.iter().all(|byte| u16::from(*byte) < limit)
}

// Whether the bytes of so many digits have nothing above them.
fn use_no_more(base: Base, packed: &[u8], count: usize) -> bool
    requires { length packed.now ≡ div_ceil count (digits_in_byte base) }
    ensures { MatchBool result (UsesNoMore base count packed.now)
        (UsesNoMore base count packed.now → ⊥) }
{
    let in_byte = base.digits_in_byte();
    let (whole, last) = packed.split_at(count / in_byte);
    all_below(whole, limit_of(base, in_byte)) && all_below(last, limit_of(base, count % in_byte))
}

// Whether bytes that spell digits are those that are written for them.
pub(crate) fn is_digits_text<T: Digit>(base: Base, packed: &[u8], entries: &[T]) -> bool
    requires { SpellsDigits base packed.now (map T.digit_of entries.now) }
    ensures { IsTrue result ↔ (packed.now ≡ digits_text base (map T.digit_of entries.now)) }
{
    use_no_more(base, packed, entries.len())
}

// Whether bytes are a plain tag of the base and, behind it, so many digits.
fn stand_plain(base: Base, packed: &[u8], count: usize) -> bool
    ensures { MatchBool result (IsPacked (2 * level_of_base base ∷ []) base count packed.now)
        (IsPacked (2 * level_of_base base ∷ []) base count packed.now → ⊥) }
{
    let Some((tag, body)) = packed.split_first() else {
        return false;
    };
    *tag == 2 * base.level()
        && body.len() == count.div_ceil(base.digits_in_byte())
        && use_no_more(base, body, count)
}

// Whether bytes are a shifted tag of the base, the least entry and, behind it, so many digits.
fn stand_shifted(base: Base, least: u8, packed: &[u8], count: usize) -> bool
    requires { 0 < level_of_base base }
    ensures { MatchBool result
        (IsPacked ((2 * level_of_base base - 1) ∷ (least ∷ [])) base count packed.now)
        (IsPacked ((2 * level_of_base base - 1) ∷ (least ∷ [])) base count packed.now → ⊥) }
{
    let Some((tag, behind)) = packed.split_first() else {
        return false;
    };
    let Some((low, body)) = behind.split_first() else {
        return false;
    };
    *tag == 2 * base.level() - 1
        && *low == least
        && body.len() == count.div_ceil(base.digits_in_byte())
        && use_no_more(base, body, count)
}

/// Whether bytes that spell a column of `count` entries are those that are written for them. Of the entries it needs
/// only the least and the greatest.
pub fn is_bytes_text<T: Byte>(packed: &[u8], count: usize, low: T, high: T) -> bool
    requires { T.number low ≤ℤ T.number high }
    ensures { (entries : List ℤ) → length entries ≡ count → All (IsNumber 1 T.signed) entries
        → least entries ≡ T.number low → greatest entries ≡ T.number high
        → SpellsBytes packed.now (map (residue 1) entries)
        → (IsTrue result ↔ (packed.now ≡ byte_text entries)) }
{
    if count <= MOST_WITHOUT_TAG {
        return true;
    }
    let plain = plain_base(low, high);
    let shifted = shifted_base(low, high);
    if count > MOST_UNSHIFTED && plain.level() < shifted.level() {
        stand_shifted(shifted, low.to_byte(), packed, count)
    } else {
        stand_plain(plain, packed, count)
    }
}

// The least and the greatest of the numbers with these bytes, if there are any.
fn byte_bounds<T: Byte>(bytes: &[u8]) -> Option<(T, T)>
    ensures variant { IsSome result ↔ (0 < length bytes.now) }
    ensures least { IfSome result
        (λ pair. T.number pair.0 ≡ least (map (number_of 1 T.signed) bytes.now)) }
    ensures greatest { IfSome result
        (λ pair. T.number pair.1 ≡ greatest (map (number_of 1 T.signed) bytes.now)) }
{
    let (first, rest) = bytes.split_first()?;
    let mut least = T::from_byte(*first);
    let mut greatest = least;
    for byte in rest {
        let entry = T::from_byte(*byte);
        if entry.is_less(least) {
            least = entry;
        }
        if greatest.is_less(entry) {
            greatest = entry;
        }
    }
    Some((least, greatest))
}

/// The bytes that were taken from the front of an input.
pub fn taken<'a>(before: &'a [u8], rest: &[u8]) -> &'a [u8]
    requires { length rest.now ≤ length before.now }
    ensures { (piece : List ℕ) → before.now ≡ piece ++ rest.now → result.now ≡ piece }
{
    &before[..before.len() - rest.len()]
}

/// Reads a column of bools as [`unpack_bools`] does. If `strict`, it returns whether the bytes are those that would be
/// written for the bools. Otherwise the returned bool has no meaning.
pub fn read_bools<'a>(
    alloc: Global,
    input: &mut &'a [u8],
    count: usize,
    out: &mut CowSlice<'a, bool>,
    strict: bool,
) -> Result<bool, Error>
    ensures read { OnOk result
        (Reads SpellsBools count input.old.now (cow_rest out.new) input.new.now) }
    ensures judged { IsTrue strict → IfOk result
        (λ written. IsTrue written
        ↔ (input.old.now ≡ bool_text (cow_rest out.new) ++ input.new.now)) }
    ensures refused { IfErr result (λ e. Names e.reason (bools_fault count input.old.now)) }
    ensures rest { OnErr result (IsEndOf input.old.now input.new.now) }
    ensures empty { count ≡ 0 → IsOk result }
{
    let before = *input;
    unpack_bools(alloc, input, count, out)?;
    if !strict {
        return Ok(true);
    }
    Ok(is_digits_text(Base::Two, taken(before, input), out.as_slice()))
}

/// Reads a column of bytes as [`unpack_bytes`](crate::pack::unpack_bytes) does. If `strict`, it returns whether the
/// bytes are those that would be written for the `u8`s or `i8`s. Otherwise the returned bool has no meaning.
pub fn read_bytes<'a, T: Byte>(
    alloc: Global,
    input: &mut &'a [u8],
    count: usize,
    out: &mut CowSlice<'a, u8>,
    strict: bool,
) -> Result<bool, Error>
    ensures read { OnOk result
        (Reads SpellsBytes count input.old.now (cow_rest out.new) input.new.now) }
    ensures judged { IsTrue strict → IfOk result
        (λ written. IsTrue written
        ↔ (input.old.now ≡ byte_text (map (number_of 1 T.signed) (cow_rest out.new))
        ++ input.new.now)) }
    ensures refused { IfErr result (λ e. Names e.reason (bytes_fault count input.old.now)) }
    ensures rest { OnErr result (IsEndOf input.old.now input.new.now) }
    ensures raw { IsTrue (bytes_stand_raw count input.old.now)
        → IfErr result (λ e. e.reason ≢ Reason.OutOfMemory) }
{
    let before = *input;
    unpack_bytes(alloc, input, count, out)?;
    if !strict {
        return Ok(true);
    }
    let entries = out.as_slice();
    known_bytes(entries);
    let Some(bounds) = byte_bounds::<T>(entries) else {
        return Ok(true);
    };
    let packed = taken(before, input);
    Ok(is_bytes_text(packed, count, bounds.0, bounds.1))
}

/// Reads a column of variants as [`unpack_bytes_less_than`](crate::pack::unpack_bytes_less_than) does, with their
/// counts for `H = N`. If `strict`, it returns whether the bytes are those that would be written for the variants.
/// Otherwise the returned bool has no meaning.
pub fn read_variants<'a, const N: usize, const H: usize>(
    alloc: Global,
    input: &mut &'a [u8],
    count: usize,
    out: &mut CowSlice<'a, u8>,
    strict: bool,
) -> Result<([usize; H], bool), Error>
    requires { (H ≡ N) ⊎ (H ≡ 0) }
    ensures read { OnOk result
        (Reads (SpellsVariants N) count input.old.now (cow_rest out.new) input.new.now) }
    ensures judged { IsTrue strict → IfOk result
        (λ read. IsTrue read.1
        ↔ (input.old.now ≡ variant_text N (cow_rest out.new) ++ input.new.now)) }
    ensures counts { IfOk result (λ read. AreCounts H (cow_rest out.new) read.0) }
    ensures total { IfOk result (λ read. H ≡ N → sum read.0 ≡ count) }
    ensures refused { IfErr result (λ e. NamesVariantFault e.reason N count input.old.now) }
    ensures rest { OnErr result (IsEndOf input.old.now input.new.now) }
    ensures raw { IsTrue (variants_stand_raw N count)
        → IfErr result (λ e. e.reason ≢ Reason.OutOfMemory) }
{
    let before = *input;
    let counts = unpack_bytes_less_than::<N, H>(alloc, input, count, out)?;
    if !strict {
        return Ok((counts, true));
    }
    let packed = taken(before, input);
    let written = is_digits_text(base_of_variants::<N>(), packed, out.as_slice());
    Ok((counts, written))
}
