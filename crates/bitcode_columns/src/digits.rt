//! Packing small entries as digits of bytes.
ghost use Rattle.std.specs.Prelude.{◌≡◌, ◌+◌, ◌*◌, ◌/◌, ◌%◌, ◌<◌, ◌≤◌, ◌++◌, length, map, take, drop, vec_len};
ghost use Rattle.std.specs.Prelude.{vec_capacity, All, ◌⊎◌, IsOk, IfOk, OnOk, IfErr, OnErr};
ghost use Rattle.std.specs.List.{range_with_len};
ghost use Rattle.std.specs.Int.{div_ceil};
ghost use Rattle.bitcode_columns.specs.Digits.{radix, digits_in_byte, digit, number_with_digits, SpellsDigits};
ghost use Rattle.bitcode_columns.specs.Digits.{digits_text};
ghost use Rattle.bitcode_columns.specs.Reading.{Reads, IsEndOf, Names, digits_fault};

use crate::digit::Digit;
use crate::pack::Base;
use bitcode_memory::consume::consume_bytes;
use bitcode_memory::error::{Error, Reason};
use bitcode_memory::ints::push_bytes;
use std::alloc::{AllocError, Global};
use std::mem::replace;

// The factors for two or four bytes that are digits of base 16 or 4, and for four bytes that are two digits of base 2
// each, in their lower and their upper half. The highest byte of the product is the number with these digits.
const OF_TWO: u16 = 0x0110;

const OF_FOUR: u32 = 0x0104_1040;

const OF_EIGHT: u32 = 0x0102_0408;

// The number with these digits, the lowest first.
#[inline(always)]
fn number_with_digits<T: Digit>(base: Base, digits: &[T]) -> u8
    requires { number_with_digits (radix base) (map T.digit_of digits.now) < 256 }
    ensures { result ≡ number_with_digits (radix base) (map T.digit_of digits.now) }
{
    let radix = base.radix();
    let mut number: u16 = 0;
    for place in (0..digits.len()).rev() {
        number = u16::from(digits[place].to_digit()) + radix * number;
    }
    number as u8
}

// The number with two digits of base 16.
#[inline(always)]
fn number_with_two<T: Digit>(digits: &[T]) -> u8
    requires size { length digits.now ≡ 2 }
    requires digits { All (λ entry. T.digit_of entry < 16) digits.now }
    ensures { result ≡ number_with_digits 16 (map T.digit_of digits.now) }
{
    let bytes = [digits[0].to_digit(), digits[1].to_digit()];
    (u16::from_le_bytes(bytes).wrapping_mul(OF_TWO) >> 8) as u8
}

// The number with four digits of base 4.
#[inline(always)]
fn number_with_four<T: Digit>(digits: &[T]) -> u8
    requires size { length digits.now ≡ 4 }
    requires digits { All (λ entry. T.digit_of entry < 4) digits.now }
    ensures { result ≡ number_with_digits 4 (map T.digit_of digits.now) }
{
    let bytes = [
        digits[0].to_digit(),
        digits[1].to_digit(),
        digits[2].to_digit(),
        digits[3].to_digit(),
    ];
    (u32::from_le_bytes(bytes).wrapping_mul(OF_FOUR) >> 24) as u8
}

// The number with eight digits of base 2.
#[inline(always)]
fn number_with_eight<T: Digit>(digits: &[T]) -> u8
    requires size { length digits.now ≡ 8 }
    requires digits { All (λ entry. T.digit_of entry < 2) digits.now }
    ensures { result ≡ number_with_digits 2 (map T.digit_of digits.now) }
{
    let low = u32::from_le_bytes([
        digits[0].to_digit(),
        digits[1].to_digit(),
        digits[2].to_digit(),
        digits[3].to_digit(),
    ]);
    let high = u32::from_le_bytes([
        digits[4].to_digit(),
        digits[5].to_digit(),
        digits[6].to_digit(),
        digits[7].to_digit(),
    ]);
    ((low + 16 * high).wrapping_mul(OF_EIGHT) >> 24) as u8
}

// The number whose digits are the entries, as many as there are in a byte.
#[inline(always)]
fn whole_byte<T: Digit>(base: Base, digits: &[T]) -> u8
    requires size { length digits.now ≡ digits_in_byte base }
    requires digits { All (λ entry. T.digit_of entry < radix base) digits.now }
    ensures { result ≡ number_with_digits (radix base) (map T.digit_of digits.now) }
{
    match base {
        Base::Sixteen => number_with_two(digits),
        Base::Four => number_with_four(digits),
        Base::Two => number_with_eight(digits),
        _ => number_with_digits(base, digits),
    }
}

// A whole group of so many entries. It is found by its place: behind a slice that is cut shorter at each turn, the
// compiler makes no loop that works on many groups at once.
#[inline(always)]
fn group<T: Digit>(entries: &[T], size: usize, place: usize) -> &[T]
    requires { place < length entries.now / size }
    ensures items { result.now ≡ take size (drop (place * size) entries.now) }
    ensures len { length result.now ≡ size }
{
    let start = place * size;
    let (_, rest) = entries.split_at(start);
    let (front, _) = rest.split_at(size);
    front
}

// Appends the entries, so many of them to a byte as the base has digits in it: whole bytes first, and then the entries
// that are left.
//
// The list is handed over and given back: what holds it is then known to lie apart from its bytes, and its length is
// kept in a register while they are written.
#[inline(always)]
fn push_digits<T: Digit>(base: Base, entries: &[T], mut out: Vec<u8>) -> Vec<u8>
    requires room { vec_len out + div_ceil (length entries.now) (digits_in_byte base) ≤ vec_capacity
        out }
    requires digits { All (λ entry. T.digit_of entry < radix base) entries.now }
    ensures { result.items ≡ out.items ++ digits_text base (map T.digit_of entries.now) }
{
    let in_byte = base.digits_in_byte();
    let whole = entries.len() / in_byte;
    for byte in 0..whole {
        let digits = group(entries, in_byte, byte);
        out.push_reserved(whole_byte(base, digits));
    }
    let behind = whole * in_byte;
    let (_, rest) = entries.split_at(behind);
    if rest.is_empty() {
        return out;
    }
    out.push_reserved(number_with_digits(base, rest));
    out
}

// The same, by a loop for each base: the compiler then knows the radix, and divides and multiplies by no other number.
fn push_packed<T: Digit>(base: Base, entries: &[T], out: Vec<u8>) -> Vec<u8>
    requires room { vec_len out + div_ceil (length entries.now) (digits_in_byte base) ≤ vec_capacity
        out }
    requires digits { All (λ entry. T.digit_of entry < radix base) entries.now }
    ensures { result.items ≡ out.items ++ digits_text base (map T.digit_of entries.now) }
{
    match base {
        Base::Whole => push_digits(Base::Whole, entries, out),
        Base::Sixteen => push_digits(Base::Sixteen, entries, out),
        Base::Six => push_digits(Base::Six, entries, out),
        Base::Four => push_digits(Base::Four, entries, out),
        Base::Three => push_digits(Base::Three, entries, out),
        Base::Two => push_digits(Base::Two, entries, out),
    }
}

/// Appends a header and then the entries, as whole bytes or as digits of the base.
///
/// If an allocation fails, the error is `out of memory`, and `out` still begins with what it held before.
pub(crate) fn pack_digits<T: Digit>(
    front: &[u8],
    base: Base,
    entries: &[T],
    out: &mut Vec<u8>,
) -> Result<(), Error>
    requires { (base ≡ Base.Whole) ⊎ All (λ entry. T.digit_of entry < radix base) entries.now }
    ensures written { OnOk result
        (out.new.items ≡ out.old.items
        ++ (front.now ++ digits_text base (map T.digit_of entries.now))) }
    ensures reason { IfErr result (λ e. e.reason ≡ Reason.OutOfMemory) }
    ensures unchanged { OnErr result (out.new.items ≡ out.old.items) }
    ensures full { OnErr result
        (vec_capacity out.old < vec_len out.old + length
        (front.now ++ digits_text base (map T.digit_of entries.now))) }
{
    let packed = entries.len().div_ceil(base.digits_in_byte());
    out.reserve(packed.saturating_add(front.len()))?;
    push_bytes(front, out);
    if base == Base::Whole {
        T::push_whole(entries, out);
    } else {
        let alloc = *out.allocator();
        let held = replace(out, Vec::new(alloc));
        *out = push_packed(base, entries, held);
    }
    Ok(())
}

// Writes the lowest digits of a byte over as many entries.
fn put_digits_of<T: Digit, const RADIX: u16>(byte: u8, entries: &mut [T])
    requires some { 0 < RADIX }
    requires few { RADIX ≤ 256 }
    requires in_limit { RADIX ≤ T.limit }
    ensures { map T.digit_of entries.new ≡ map (digit RADIX byte)
        (range_with_len 0 (length entries.old)) }
{
    let mut rest = u16::from(byte);
    for place in 0..entries.len() {
        entries[place] = T::from_digit((rest % RADIX) as u8);
        rest /= RADIX;
    }
}

// Writes all digits of a byte over as many entries.
fn put_byte<T: Digit, const RADIX: u16>(byte: u8, entries: &mut [T])
    requires some { 0 < RADIX }
    requires few { RADIX ≤ 256 }
    requires in_limit { RADIX ≤ T.limit }
    requires bits { RADIX ≡ 2 → length entries.old ≡ 8 }
    ensures { map T.digit_of entries.new ≡ map (digit RADIX byte)
        (range_with_len 0 (length entries.old)) }
{
    if RADIX == 2 {
        T::put_bits(byte, entries);
    } else {
        put_digits_of::<T, RADIX>(byte, entries);
    }
}

// Writes the digits of bytes that hold so many entries and no more over them: those of whole bytes first. The compiler
// knows the radix and how many digits a byte has, and divides by no other number.
fn put_groups<T: Digit, const RADIX: u16, const IN_BYTE: usize>(
    _base: Base,
    packed: &[u8],
    entries: &mut [T],
)
    requires radix { RADIX ≡ radix _base }
    requires in_byte { IN_BYTE ≡ digits_in_byte _base }
    requires size { length packed.now ≡ div_ceil (length entries.old) (digits_in_byte _base) }
    requires in_limit { radix _base ≤ T.limit }
    ensures { SpellsDigits _base packed.now (map T.digit_of entries.new) }
{
    let whole = entries.len() / IN_BYTE;
    for byte in 0..whole {
        let start = byte * IN_BYTE;
        put_byte::<T, RADIX>(packed[byte], &mut entries[start..start + IN_BYTE]);
    }
    if whole < packed.len() {
        put_digits_of::<T, RADIX>(packed[whole], &mut entries[whole * IN_BYTE..]);
    }
}

// The same at each base.
fn put_digits<T: Digit>(base: Base, packed: &[u8], entries: &mut [T])
    requires size { length packed.now ≡ div_ceil (length entries.old) (digits_in_byte base) }
    requires in_limit { radix base ≤ T.limit }
    ensures { SpellsDigits base packed.now (map T.digit_of entries.new) }
{
    match base {
        Base::Whole => put_groups::<T, 256, 1>(base, packed, entries),
        Base::Sixteen => put_groups::<T, 16, 2>(base, packed, entries),
        Base::Six => put_groups::<T, 6, 3>(base, packed, entries),
        Base::Four => put_groups::<T, 4, 4>(base, packed, entries),
        Base::Three => put_groups::<T, 3, 5>(base, packed, entries),
        Base::Two => put_groups::<T, 2, 8>(base, packed, entries),
    }
}

// So many entries, from bytes that hold them and no more. They are written over zeros.
fn unpacked_digits<T: Digit>(
    alloc: Global,
    base: Base,
    packed: &[u8],
    count: usize,
) -> Result<Vec<T>, AllocError>
    requires size { length packed.now ≡ div_ceil count (digits_in_byte base) }
    requires in_limit { radix base ≤ T.limit }
    ensures size { IfOk result (λ entries. vec_len entries ≡ count) }
    ensures spelled { IfOk result
        (λ entries. SpellsDigits base packed.now (map T.digit_of entries.items)) }
    ensures empty { count ≡ 0 → IsOk result }
{
    let mut entries = Vec::with_capacity(alloc, count)?;
    entries.resize(count, T::from_digit(0)).unwrap();
    put_digits(base, packed, entries.as_mut_slice());
    Ok(entries)
}

/// Reads `count` entries from the front of the input.
///
/// Takes the bytes off the input before it allocates memory for the entries.
pub(crate) fn unpack_digits<T: Digit>(
    alloc: Global,
    base: Base,
    input: &mut &[u8],
    count: usize,
) -> Result<Vec<T>, Error>
    requires { radix base ≤ T.limit }
    ensures read { IfOk result
        (λ entries. Reads (λ bytes read. SpellsDigits base bytes (map T.digit_of read)) count
        input.old.now entries.items input.new.now) }
    ensures refused { IfErr result (λ e. Names e.reason (digits_fault base count input.old.now)) }
    ensures rest { OnErr result (IsEndOf input.old.now input.new.now) }
    ensures empty { count ≡ 0 → IsOk result }
{
    let packed = consume_bytes(input, count.div_ceil(base.digits_in_byte()))?;
    let entries = unpacked_digits(alloc, base, packed, count)?;
    Ok(entries)
}
