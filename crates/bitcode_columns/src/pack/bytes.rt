//! Byte columns.
ghost use Rattle.std.specs.Prelude.{◌≡◌, ◌≢◌, ℕ, ◌+◌, ◌%◌, ◌/◌, ◌<◌, ◌≤◌, ◌++◌, ◌-ℤ◌, ◌≤ℤ◌, pos, int_lt, unsigned_abs};
ghost use Rattle.std.specs.Prelude.{vec_len, vec_capacity, if◌then◌else◌, List, Option, Some, All, length, map, IsTrue};
ghost use Rattle.std.specs.Prelude.{OnOk, IfOk, IfErr, OnErr};
ghost use Rattle.bitcode_memory.specs.declared.error.Reason.{Reason};
ghost use Rattle.bitcode_columns.specs.ByteColumn.{SpellsBytes, byte_text, highest_byte_tag};
ghost use Rattle.bitcode_columns.specs.ByteForm.{TellsForm};
ghost use Rattle.bitcode_columns.specs.Digits.{base_for};
ghost use Rattle.bitcode_memory.specs.Fast.{cow_rest};
ghost use Rattle.bitcode_memory.specs.Ints.{residue};
ghost use Rattle.bitcode_columns.specs.Reading.{Reads, IsEndOf, Names, tagged_fault, bytes_fault, bytes_stand_raw};

use crate::byte::Byte;
use crate::digits::{pack_digits, unpack_digits};
use crate::pack::{Base, MOST_WITHOUT_TAG};
use bitcode_memory::consume::{consume_byte, consume_bytes};
use bitcode_memory::error::{Error, Reason};
use bitcode_memory::fast::CowSlice;
use bitcode_memory::ints::known_bytes;
use bitcode_memory::minmax::minmax;
use bitcode_memory::refuse::err;
use std::alloc::Global;

/// The tag of the highest level.
const HIGHEST_TAG: u8 = 10;

/// A column of at most this many bytes is never written as differences from its least entry.
pub(crate) const MOST_UNSHIFTED: usize = 5;

/// How the entries of a byte column follow its tag.
#[derive(Clone, Copy)]
struct Form {
    /// The base of the digits.
    base: Base,
    /// The number that is added to each digit.
    least: u8,
}

/// Reads the tag of a column, and its least entry if the tag announces one.
fn read_form(input: &mut &[u8]) -> Result<Form, Error>
    ensures read { IfOk result
        (λ form. TellsForm input.old.now form.base form.least input.new.now) }
    ensures refused { IfErr result
        (λ e. (narrow : ℕ → List ℕ → Option Reason)
        → tagged_fault 1 highest_byte_tag narrow input.old.now ≡ Some e.reason) }
    ensures memory { IfErr result (λ e. e.reason ≢ Reason.OutOfMemory) }
    ensures rest { OnErr result (IsEndOf input.old.now input.new.now) }
{
    let tag = consume_byte(input)?;
    if tag > HIGHEST_TAG {
        return err(Reason::InvalidPacking);
    }
    let least = if tag % 2 == 1 {
        consume_byte(input)?
    } else {
        0
    };
    Ok(Form {
        base: Base::at_level((tag + 1) / 2),
        least,
    })
}

/// Adds a number to each entry, modulo 256.
fn add_to_each(entries: &mut Vec<u8>, number: u8)
    ensures { entries.new.items ≡ map (λ entry. (entry + number) % 256) entries.old.items }
{
    if number == 0 {
        known_bytes(entries);
        return;
    }
    for entry in entries.iter_mut() {
        *entry = entry.wrapping_add(number);
    }
}

/// Makes `out` borrow a slice of the input. Its bytes are below 256, as all bytes are.
pub(super) fn borrow_bytes<'a>(bytes: &'a [u8], out: &mut CowSlice<'a, u8>)
    ensures rest { cow_rest out.new ≡ bytes.now }
    ensures below { All (λ byte. byte < 256) bytes.now }
{
    out.set_borrowed(bytes);
}

/// Reads a column of `count` bytes from the front of the input into `out`.
///
/// A column of at most two entries, or one with the tag 0, is borrowed from the input without allocating.
///
/// If bytes are missing, the error is `EOF`; for an unknown tag `invalid packing`; if an allocation fails,
/// `out of memory`. After an error the input is a suffix of what it was, and `out` must be filled again before use.
///
/// ```rust
/// let mut input: &[u8] = &[1, 201, 16, 50, 84, 6];
/// let mut bytes = CowSlice::new(alloc);
/// unpack_bytes(alloc, &mut input, 7, &mut bytes)?;
/// assert_eq!(rt; bytes.as_slice(), [201, 202, 203, 204, 205, 206, 207].as_slice());
/// ```
pub fn unpack_bytes<'a>(
    alloc: Global,
    input: &mut &'a [u8],
    count: usize,
    out: &mut CowSlice<'a, u8>,
) -> Result<(), Error>
    ensures read { OnOk result
        (Reads SpellsBytes count input.old.now (cow_rest out.new) input.new.now) }
    ensures refused { IfErr result (λ e. Names e.reason (bytes_fault count input.old.now)) }
    ensures rest { OnErr result (IsEndOf input.old.now input.new.now) }
    ensures raw { IsTrue (bytes_stand_raw count input.old.now)
        → IfErr result (λ e. e.reason ≢ Reason.OutOfMemory) }
{
    if count <= MOST_WITHOUT_TAG {
        borrow_bytes(consume_bytes(input, count)?, out);
        return Ok(());
    }
    let form = read_form(input)?;
    if form.base == Base::Whole {
        borrow_bytes(consume_bytes(input, count)?, out);
        return Ok(());
    }
    let mut entries = unpack_digits(alloc, form.base, input, count)?;
    add_to_each(&mut entries, form.least);
    out.set_owned(entries);
    Ok(())
}

/// Subtracts the least number from each, so that the difference can be a digit.
fn subtract_from_each<T: Byte>(bytes: &mut [T], least: T)
    requires { All (λ entry. T.number least ≤ℤ T.number entry) bytes.old }
    ensures { map (λ entry. residue 1 (T.number entry)) bytes.new ≡ map
        (λ entry. unsigned_abs (T.number entry -ℤ T.number least)) bytes.old }
{
    let low = least.to_byte();
    for byte in bytes.iter_mut() {
        *byte = T::from_byte(byte.to_byte().wrapping_sub(low));
    }
}

/// The base for unshifted entries: negative ones need whole bytes.
pub(crate) fn plain_base<T: Byte>(least: T, greatest: T) -> Base
    requires { T.number least ≤ℤ T.number greatest }
    ensures { result
        ≡ (if int_lt (T.number least) (pos 0) then Base.Whole
        else base_for (unsigned_abs (T.number greatest))) }
{
    if least.is_less(T::from_byte(0)) {
        Base::Whole
    } else {
        Base::for_greatest(greatest.to_byte())
    }
}

/// The base for the differences from the least entry.
pub(crate) fn shifted_base<T: Byte>(least: T, greatest: T) -> Base
    requires { T.number least ≤ℤ T.number greatest }
    ensures { result ≡ base_for (unsigned_abs (T.number greatest -ℤ T.number least)) }
{
    Base::for_greatest(greatest.to_byte().wrapping_sub(least.to_byte()))
}

/// Appends bytes one by one, without a tag: the column is too short to have one.
fn pack_untagged<T: Byte>(bytes: &[T], out: &mut Vec<u8>) -> Result<(), Error>
    ensures written { OnOk result
        (out.new.items ≡ out.old.items ++ map (λ byte. residue 1 (T.number byte)) bytes.now) }
    ensures reason { IfErr result (λ e. e.reason ≡ Reason.OutOfMemory) }
    ensures unchanged { OnErr result (out.new.items ≡ out.old.items) }
    ensures full { OnErr result (vec_capacity out.old < vec_len out.old + length bytes.now) }
{
    out.reserve(bytes.len())?;
    for byte in bytes {
        out.push_reserved(byte.to_byte());
    }
    Ok(())
}

/// Appends a column of bytes: unchanged, several to a byte if they are small, or as differences from the least one if
/// they are close to it. `bytes` is scratch afterwards.
///
/// If an allocation fails, the error is `out of memory`, and `out` still begins with what it held before.
///
/// ```rust
/// let mut out = Vec::new(alloc);
/// pack_bytes(&mut [201u8, 202, 203, 204, 205, 206, 207], &mut out)?;
/// assert_eq!(rt; out.as_slice(), [1, 201, 16, 50, 84, 6].as_slice());
/// ```
pub fn pack_bytes<T: Byte>(bytes: &mut [T], out: &mut Vec<u8>) -> Result<(), Error>
    ensures written { OnOk result
        (out.new.items ≡ out.old.items ++ byte_text (map T.number bytes.old)) }
    ensures reason { IfErr result (λ e. e.reason ≡ Reason.OutOfMemory) }
    ensures unchanged { OnErr result (out.new.items ≡ out.old.items) }
    ensures full { OnErr result
        (vec_capacity out.old < vec_len out.old + length (byte_text (map T.number bytes.old))) }
{
    if bytes.len() <= MOST_WITHOUT_TAG {
        return pack_untagged(bytes, out);
    }
    let (least, greatest) = minmax(bytes);
    let plain = plain_base(least, greatest);
    let shifted = shifted_base(least, greatest);
    if bytes.len() > MOST_UNSHIFTED && plain.level() < shifted.level() {
        subtract_from_each(bytes, least);
        pack_digits(
            &[2 * shifted.level() - 1, least.to_byte()],
            shifted,
            bytes,
            out,
        )
    } else {
        pack_digits(&[2 * plain.level()], plain, bytes, out)
    }
}
