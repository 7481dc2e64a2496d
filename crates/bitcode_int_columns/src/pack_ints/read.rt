//! Reading the numbers of a column.
ghost use Rattle.std.specs.Prelude.{◌≡◌, ◌≢◌, ℕ, Option, Some, ◌+◌, ◌*◌, ◌%◌, ◌^◌, ◌<◌, ◌≤◌, List, ◌++◌, length};
ghost use Rattle.std.specs.Prelude.{map, All, IsTrue, IsErr, IfOk, OnOk, IfErr, OnErr, ◌↔◌};
ghost use Rattle.std.specs.Simd.{first_chunks};
ghost use Rattle.bitcode_memory.specs.declared.error.Reason.{Reason};
ghost use Rattle.bitcode_memory.specs.Fast.{cow_rest};
ghost use Rattle.bitcode_columns.specs.ByteColumn.{SpellsBytes};
ghost use Rattle.bitcode_memory.specs.IntWidths.{IsWidth};
ghost use Rattle.bitcode_columns.specs.IntColumn.{SpellsInts, SpellsNarrow, SpellsAtIntLevel, tagged_form, halvings};
ghost use Rattle.bitcode_columns.specs.IntColumn.{highest_int_tag, width_at_level};
ghost use Rattle.bitcode_int_columns.specs.IntHeader.{TellsLevel, ReadsWidened};
ghost use Rattle.bitcode_memory.specs.LittleEndian.{SpellsRaw, little_endian};
ghost use Rattle.bitcode_columns.specs.Tagged.{SpellsTagged};
ghost use Rattle.bitcode_columns.specs.Reading.{Reads, IsEndOf, Names, missing, tagged_fault, bytes_fault};
ghost use Rattle.bitcode_columns.specs.Reading.{narrow_fault, ints_fault_as, ints_fault, has_raw_tag, bytes_stand_raw};
ghost use Rattle.bitcode_columns.specs.Reading.{ints_stand_raw};

use crate::pack_ints::width::halvings;
use bitcode_columns::pack::{MOST_WITHOUT_TAG, unpack_bytes};
use bitcode_memory::consume::{consume_byte, consume_bytes};
use bitcode_memory::error::{Error, Reason};
use bitcode_memory::fast::CowSlice;
use bitcode_memory::ints::{Int, SizedUInt, known_bytes};
use bitcode_memory::refuse::err;
use std::alloc::Global;

// The bytes of a narrow number and the least entry together.
fn widened<T: Int>(narrow: u128, least: T::Unsigned) -> T::Une
    ensures { little_endian (T.une_bytes result) ≡ (narrow + T.Unsigned.value least) % 256
        ^ T.width }
{
    let sum = T::Unsigned::from_wide(narrow).wrapping_add(least);
    T::from_unsigned(sum).to_unaligned()
}

// Takes so many numbers of a width from the front of the input, as bytes.
fn claim<'a>(input: &mut &'a [u8], count: usize, width: usize) -> Result<&'a [u8], Error>
    ensures refused { IsErr result ↔ (length input.old.now < count * width) }
    ensures reason { IfErr result (λ e. e.reason ≡ Reason.Eof) }
    ensures unchanged { OnErr result (input.new.now ≡ input.old.now) }
    ensures size { IfOk result (λ bytes. length bytes.now ≡ count * width) }
    ensures whole { IfOk result (λ bytes. input.old.now ≡ bytes.now ++ input.new.now) }
{
    match count.checked_mul(width) {
        Some(size) => consume_bytes(input, size),
        None => err(Reason::Eof),
    }
}

// The entries whose narrow numbers are these bytes.
fn widen_numbers<T: Int, N: SizedUInt>(
    alloc: Global,
    bytes: &[u8],
    count: usize,
    least: T::Unsigned,
) -> Result<Vec<T::Une>, Error>
    requires { length bytes.now ≡ count * N.width }
    ensures widened { IfOk result (λ entries. map (λ u. little_endian (T.une_bytes u)) entries.items
        ≡ map (λ n. (n + T.Unsigned.value least) % 256 ^ T.width)
        (map little_endian (first_chunks N.width count bytes.now))) }
    ensures reason { IfErr result (λ e. e.reason ≡ Reason.OutOfMemory) }
{
    let mut entries = Vec::with_capacity(alloc, count)?;
    let mut rest = bytes;
    for _i in 0..count {
        let narrow = N::read(&mut rest)?;
        entries.push_reserved(widened::<T>(narrow.to_wide(), least));
    }
    Ok(entries)
}

// The entries whose narrow numbers stand raw at the front of the input.
fn read_raw<T: Int, N: SizedUInt>(
    alloc: Global,
    input: &mut &[u8],
    count: usize,
    width: usize,
    least: T::Unsigned,
) -> Result<Vec<T::Une>, Error>
    requires { width ≡ N.width }
    ensures read { IfOk result
        (λ entries. ReadsWidened T.width (T.Unsigned.value least) (SpellsRaw N.width) count
        input.old.now (map (λ u. little_endian (T.une_bytes u)) entries.items) input.new.now) }
    ensures refused { IfErr result (λ e. Names e.reason (missing (count * N.width) input.old.now)) }
    ensures rest { OnErr result (IsEndOf input.old.now input.new.now) }
{
    let bytes = claim(input, count, width)?;
    known_bytes(bytes);
    let entries = widen_numbers::<T, N>(alloc, bytes, count, least)?;
    Ok(entries)
}

// Bytes, each widened.
fn widen_bytes<T: Int>(
    alloc: Global,
    bytes: &[u8],
    least: T::Unsigned,
) -> Result<Vec<T::Une>, Error>
    ensures widened { IfOk result
        (λ entries. map (λ u. little_endian (T.une_bytes u)) entries.items ≡ map
        (λ n. (n + T.Unsigned.value least) % 256 ^ T.width) bytes.now) }
    ensures reason { IfErr result (λ e. e.reason ≡ Reason.OutOfMemory) }
{
    let mut entries = Vec::with_capacity(alloc, bytes.len())?;
    for byte in bytes {
        entries.push_reserved(widened::<T>(*byte as u128, least));
    }
    Ok(entries)
}

// The entries whose narrow numbers are a byte column at the front of the input.
fn read_bytes<'a, T: Int>(
    alloc: Global,
    input: &mut &'a [u8],
    count: usize,
    least: T::Unsigned,
) -> Result<Vec<T::Une>, Error>
    ensures read { IfOk result
        (λ entries. ReadsWidened T.width (T.Unsigned.value least) SpellsBytes count input.old.now
        (map (λ u. little_endian (T.une_bytes u)) entries.items) input.new.now) }
    ensures refused { IfErr result (λ e. Names e.reason (bytes_fault count input.old.now)) }
    ensures rest { OnErr result (IsEndOf input.old.now input.new.now) }
{
    let mut bytes = CowSlice::new(alloc);
    unpack_bytes(alloc, input, count, &mut bytes)?;
    let entries = widen_bytes::<T>(alloc, bytes.as_slice(), least)?;
    Ok(entries)
}

// The entries whose narrow numbers have a width of their own.
fn read_narrow<'a, T: Int>(
    alloc: Global,
    input: &mut &'a [u8],
    count: usize,
    width: usize,
    least: T::Unsigned,
) -> Result<Vec<T::Une>, Error>
    requires { IsWidth width }
    ensures read { IfOk result
        (λ entries. ReadsWidened T.width (T.Unsigned.value least) (SpellsNarrow width) count
        input.old.now (map (λ u. little_endian (T.une_bytes u)) entries.items) input.new.now) }
    ensures refused { IfErr result (λ e. Names e.reason (narrow_fault count width input.old.now)) }
    ensures rest { OnErr result (IsEndOf input.old.now input.new.now) }
{
    match width {
        1 => read_bytes::<T>(alloc, input, count, least),
        2 => read_raw::<T, u16>(alloc, input, count, width, least),
        4 => read_raw::<T, u32>(alloc, input, count, width, least),
        8 => read_raw::<T, u64>(alloc, input, count, width, least),
        _ => read_raw::<T, u128>(alloc, input, count, width, least),
    }
}

// The functions below are inlined, so that a caller that reads one integer pays for no other case.

// How the narrow numbers of a column follow its tag.
struct Header<T: Int> {
    // in bytes
    width: usize,
    least: T::Unsigned,
}

// Reads the tag of a column of more than one byte, and the least entry where the tag says that there is one.
#[inline(always)]
fn read_header<T: Int>(input: &mut &[u8]) -> Result<Header<T>, Error>
    requires { 2 ≤ T.width }
    ensures read { IfOk result
        (λ header. (level : ℕ) × (level ≤ halvings T.width)
        × (header.width ≡ width_at_level T.width level)
        × TellsLevel T.width (highest_int_tag T.width) input.old.now level
        (T.Unsigned.value header.least) input.new.now) }
    ensures refused { IfErr result
        (λ e. (narrow : ℕ → List ℕ → Option Reason)
        → tagged_fault T.width (highest_int_tag T.width) narrow input.old.now ≡ Some e.reason) }
    ensures memory { IfErr result (λ e. e.reason ≢ Reason.OutOfMemory) }
    ensures rest { OnErr result (IsEndOf input.old.now input.new.now) }
{
    let tag = consume_byte(input)?;
    let width = T::width();
    if tag > 2 * halvings(width) {
        return err(Reason::InvalidPacking);
    }
    let least = if tag % 2 == 1 {
        T::Unsigned::read(input)?
    } else {
        T::Unsigned::from_wide(0)
    };
    let level = tag.div_ceil(2);
    Ok(Header {
        width: width >> level,
        least,
    })
}

// Lets `out` go on with entries that stand as they are at the front of the input.
#[inline(always)]
fn borrow_entries<'a, T: Int>(
    input: &mut &'a [u8],
    count: usize,
    out: &mut CowSlice<'a, T::Une>,
) -> Result<(), Error>
    ensures read { OnOk result
        (Reads (SpellsRaw T.width) count input.old.now
        (map (λ u. little_endian (T.une_bytes u)) (cow_rest out.new)) input.new.now) }
    ensures refused { IfErr result (λ e. Names e.reason (missing (count * T.width) input.old.now)) }
    ensures memory { IfErr result (λ e. e.reason ≢ Reason.OutOfMemory) }
    ensures rest { OnErr result (input.new.now ≡ input.old.now) }
{
    let entries = T::consume_unaligned(input, count)?;
    out.set_borrowed(entries);
    Ok(())
}

// The first byte of the input is the tag of entries that stand as they are.
#[inline(always)]
fn has_raw_tag(input: &[u8]) -> bool
    ensures { result ≡ has_raw_tag input.now }
{
    match input.first() {
        Some(tag) => *tag == 0,
        None => false,
    }
}

// Reads a column of integers of more than one byte that begins with a tag.
#[inline(always)]
fn read_tagged<'a, T: Int>(
    alloc: Global,
    input: &mut &'a [u8],
    count: usize,
    out: &mut CowSlice<'a, T::Une>,
) -> Result<(), Error>
    requires { 2 ≤ T.width }
    ensures read { OnOk result
        (Reads (SpellsTagged T.width (highest_int_tag T.width) (SpellsAtIntLevel T.width)) count
        input.old.now (map (λ u. little_endian (T.une_bytes u)) (cow_rest out.new)) input.new.now) }
    ensures refused { IfErr result
        (λ e. Names e.reason (ints_fault_as tagged_form T.width count input.old.now)) }
    ensures rest { OnErr result (IsEndOf input.old.now input.new.now) }
    ensures raw { IsTrue (has_raw_tag input.old.now)
        → IfErr result (λ e. e.reason ≢ Reason.OutOfMemory) }
{
    let raw = has_raw_tag(input);
    let Header { width, least } = read_header::<T>(input)?;
    if raw {
        return borrow_entries::<T>(input, count, out);
    }
    let entries = read_narrow::<T>(alloc, input, count, width, least)?;
    out.set_owned(entries);
    Ok(())
}

// Reads a column of integers of one byte.
fn read_column<'a, T: Int>(
    alloc: Global,
    input: &mut &'a [u8],
    count: usize,
    out: &mut CowSlice<'a, T::Une>,
) -> Result<(), Error>
    requires { T.width ≡ 1 }
    ensures read { OnOk result
        (Reads SpellsBytes count input.old.now
        (map (λ u. little_endian (T.une_bytes u)) (cow_rest out.new)) input.new.now) }
    ensures refused { IfErr result (λ e. Names e.reason (bytes_fault count input.old.now)) }
    ensures rest { OnErr result (IsEndOf input.old.now input.new.now) }
    ensures raw { IsTrue (bytes_stand_raw count input.old.now)
        → IfErr result (λ e. e.reason ≢ Reason.OutOfMemory) }
{
    if count <= MOST_WITHOUT_TAG {
        return borrow_entries::<T>(input, count, out);
    }
    if has_raw_tag(input) {
        consume_byte(input)?;
        return borrow_entries::<T>(input, count, out);
    }
    let none = T::Unsigned::from_wide(0);
    let entries = read_bytes::<T>(alloc, input, count, none)?;
    out.set_owned(entries);
    Ok(())
}

// Reads a column by its form.
#[inline(always)]
fn read_ints<'a, T: Int>(
    alloc: Global,
    input: &mut &'a [u8],
    count: usize,
    out: &mut CowSlice<'a, T::Une>,
) -> Result<(), Error>
    ensures read { OnOk result
        (Reads (SpellsInts T.width) count input.old.now
        (map (λ u. little_endian (T.une_bytes u)) (cow_rest out.new)) input.new.now) }
    ensures refused { IfErr result (λ e. Names e.reason (ints_fault T.width count input.old.now)) }
    ensures rest { OnErr result (IsEndOf input.old.now input.new.now) }
    ensures raw { IsTrue (ints_stand_raw T.width count input.old.now)
        → IfErr result (λ e. e.reason ≢ Reason.OutOfMemory) }
{
    let width = T::width();
    if width == 1 {
        return read_column::<T>(alloc, input, count, out);
    }
    if count == 0 || (width == 2 && count == 1) {
        return borrow_entries::<T>(input, count, out);
    }
    read_tagged::<T>(alloc, input, count, out)
}

/// Reads a column of `count` integers from the front of the input into `out`, as the bytes of each.
///
/// A column without a tag, or with the tag 0, is borrowed from the input without allocating.
///
/// From `[1, 255, 255, 10, 85]`, seven `i16` are the bytes of 0, -1, 0, -1, 0, -1 and 0. If bytes are missing, the
/// error is `EOF`; for an unknown tag `invalid packing`; if an allocation fails, `out of memory`.
#[inline(always)]
pub fn unpack_ints<'a, T: Int>(
    alloc: Global,
    input: &mut &'a [u8],
    count: usize,
    out: &mut CowSlice<'a, T::Une>,
) -> Result<(), Error>
    ensures read { OnOk result
        (Reads (SpellsInts T.width) count input.old.now
        (map (λ u. little_endian (T.une_bytes u)) (cow_rest out.new)) input.new.now) }
    ensures in_width { OnOk result
        (All (λ n. n < 256 ^ T.width)
        (map (λ u. little_endian (T.une_bytes u)) (cow_rest out.new))) }
    ensures refused { IfErr result (λ e. Names e.reason (ints_fault T.width count input.old.now)) }
    ensures rest { OnErr result (IsEndOf input.old.now input.new.now) }
    ensures raw { IsTrue (ints_stand_raw T.width count input.old.now)
        → IfErr result (λ e. e.reason ≢ Reason.OutOfMemory) }
{
    known_bytes(input);
    read_ints::<T>(alloc, input, count, out)
}
