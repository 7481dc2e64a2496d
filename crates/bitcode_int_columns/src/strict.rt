//! Reading a column of integers and checking whether its bytes are those that `encode` would write for its entries.
ghost use Rattle.std.specs.Prelude.{◌≡◌, ◌≢◌, ◌↔◌, ℕ, ℤ, ◌∷◌, ◌≤ℤ◌, IsSome, IfSome, ◌^◌};
ghost use Rattle.std.specs.Prelude.{◌<◌, ◌≤◌, ◌++◌, List, All, length, map, MatchOption, pos, IsTrue};
ghost use Rattle.std.specs.Prelude.{IfOk, OnOk, IfErr, OnErr};
ghost use Rattle.bitcode_columns.specs.IntColumn.{SpellsInts, SpellsNarrow, int_text, narrow_text};
ghost use Rattle.bitcode_memory.specs.LittleEndian.{little_endian, number_bytes};
ghost use Rattle.bitcode_memory.specs.Fast.{cow_rest};
ghost use Rattle.bitcode_columns.specs.Reading.{Reads, IsEndOf, Names, ints_fault, ints_stand_raw};
ghost use Rattle.bitcode_memory.specs.declared.error.Reason.{Reason};
ghost use Rattle.bitcode_memory.specs.Ints.{IsNumber, residue, number_of, least, greatest};

use crate::pack_ints::unpack_ints;
use crate::pack_ints::width::{is_bare, is_shifted, plain_width, shifted_width, tag_for};
use bitcode_columns::strict::{is_bytes_text, taken};
use bitcode_memory::error::{Error, Reason};
use bitcode_memory::fast::CowSlice;
use bitcode_memory::ints::{Int, SizedUInt, known_bytes};
use std::alloc::Global;

// The bytes after a tag, if they begin with it.
fn behind_tag(packed: &[u8], tag: u8) -> Option<&[u8]>
    ensures { MatchOption result ((body : List ℕ) → packed.now ≡ tag ∷ body → ⊥)
        (λ body. packed.now ≡ tag ∷ body.now) }
{
    let (first, body) = packed.split_first()?;
    if *first == tag { Some(body) } else { None }
}

// The bytes after the least entry, if they begin with it.
fn behind_least<T: Int>(behind: &[u8], least: T) -> Option<&[u8]>
    ensures { MatchOption result
        ((body : List ℕ) → behind.now ≡ number_bytes T.width (residue T.width (T.number least))
        ++ body → ⊥)
        (λ body. behind.now ≡ number_bytes T.width (residue T.width (T.number least)) ++ body.now) }
{
    known_bytes(behind);
    let mut body = behind;
    let Ok(first) = T::Unsigned::read(&mut body) else {
        return None;
    };
    if first.to_wide() == least.to_unsigned().to_wide() {
        Some(body)
    } else {
        None
    }
}

// Whether bytes that spell `count` numbers of a width are those that are written for them. For numbers of one byte it
// needs the least and the greatest; others are raw.
fn is_narrow_text(body: &[u8], count: usize, width: usize, low: u128, high: u128) -> bool
    requires { width ≡ 1 → (low ≤ high) × (high < 256) }
    ensures { (numbers : List ℕ) → length numbers ≡ count → All (λ n. n < 256 ^ width) numbers
        → (width ≡ 1 → (least (map pos numbers) ≡ pos low)
        × (greatest (map pos numbers) ≡ pos high))
        → SpellsNarrow width body.now numbers
        → (IsTrue result ↔ (body.now ≡ narrow_text width numbers)) }
{
    if width != 1 {
        return true;
    }
    is_bytes_text::<u8>(body, count, (low % 0x100) as u8, (high % 0x100) as u8)
}

// Whether bytes that spell a column of `count` integers are those that are written for them. Of the integers it needs
// only the least and the greatest.
fn is_ints_text<T: Int>(packed: &[u8], count: usize, low: T, high: T) -> bool
    requires order { T.number low ≤ℤ T.number high }
    requires wide { 2 ≤ T.width }
    ensures { (entries : List ℤ) → length entries ≡ count → All (IsNumber T.width T.signed) entries
        → least entries ≡ T.number low → greatest entries ≡ T.number high
        → SpellsInts T.width packed.now (map (residue T.width) entries)
        → (IsTrue result ↔ (packed.now ≡ int_text T.width entries)) }
{
    if is_bare(T::width(), count) {
        return true;
    }
    known_bytes(packed);
    let plain = plain_width(low, high);
    let shifted = shifted_width(low, high);
    if is_shifted(count, plain, shifted) {
        let tag = tag_for(T::width(), shifted).saturating_sub(1);
        let Some(behind) = behind_tag(packed, tag) else {
            return false;
        };
        let Some(body) = behind_least(behind, low) else {
            return false;
        };
        let far = high.to_unsigned().wrapping_sub(low.to_unsigned()).to_wide();
        is_narrow_text(body, count, shifted, 0, far)
    } else {
        let Some(body) = behind_tag(packed, tag_for(T::width(), plain)) else {
            return false;
        };
        let least = low.to_unsigned().to_wide();
        let greatest = high.to_unsigned().to_wide();
        is_narrow_text(body, count, plain, least, greatest)
    }
}

// The least and the greatest of the integers of these bytes, if there are any.
fn int_bounds<T: Int>(entries: &[T::Une]) -> Option<(T, T)>
    ensures variant { IsSome result ↔ (0 < length entries.now) }
    ensures least { IfSome result
        (λ pair. T.number pair.0 ≡ least
        (map (λ u. number_of T.width T.signed (little_endian (T.une_bytes u))) entries.now)) }
    ensures greatest { IfSome result
        (λ pair. T.number pair.1 ≡ greatest
        (map (λ u. number_of T.width T.signed (little_endian (T.une_bytes u))) entries.now)) }
{
    let (first, rest) = entries.split_first()?;
    let mut least = T::from_unaligned(*first);
    let mut greatest = least;
    for bytes in rest {
        let entry = T::from_unaligned(*bytes);
        if entry.is_less(least) {
            least = entry;
        }
        if greatest.is_less(entry) {
            greatest = entry;
        }
    }
    Some((least, greatest))
}

/// Reads a column of integers of more than one byte as [`unpack_ints`](crate::pack_ints::unpack_ints) does. If
/// `strict`, it returns whether the bytes are those that would be written for the integers. Otherwise the returned bool
/// has no meaning.
#[inline(always)]
pub fn read_ints<'a, T: Int>(
    alloc: Global,
    input: &mut &'a [u8],
    count: usize,
    out: &mut CowSlice<'a, T::Une>,
    strict: bool,
) -> Result<bool, Error>
    requires { 2 ≤ T.width }
    ensures read { OnOk result
        (Reads (SpellsInts T.width) count input.old.now
        (map (λ u. little_endian (T.une_bytes u)) (cow_rest out.new)) input.new.now) }
    ensures in_width { OnOk result
        (All (λ n. n < 256 ^ T.width)
        (map (λ u. little_endian (T.une_bytes u)) (cow_rest out.new))) }
    ensures judged { IsTrue strict → IfOk result
        (λ written. IsTrue written
        ↔ (input.old.now ≡ int_text T.width
        (map (λ u. number_of T.width T.signed (little_endian (T.une_bytes u))) (cow_rest out.new))
        ++ input.new.now)) }
    ensures refused { IfErr result (λ e. Names e.reason (ints_fault T.width count input.old.now)) }
    ensures rest { OnErr result (IsEndOf input.old.now input.new.now) }
    ensures raw { IsTrue (ints_stand_raw T.width count input.old.now)
        → IfErr result (λ e. e.reason ≢ Reason.OutOfMemory) }
{
    let before = *input;
    unpack_ints::<T>(alloc, input, count, out)?;
    if !strict {
        return Ok(true);
    }
    let Some(bounds) = int_bounds::<T>(out.as_slice()) else {
        return Ok(true);
    };
    let packed = taken(before, input);
    Ok(is_ints_text(packed, count, bounds.0, bounds.1))
}
