//! Variant columns.
ghost use Rattle.std.specs.Prelude.{◌≡◌, ◌≢◌, ◌+◌, ◌-◌, ◌<◌, ◌⊎◌, ◌++◌, length, sum, nat_lt, All, IsTrue, IfOk};
ghost use Rattle.std.specs.Prelude.{OnOk, IfErr, OnErr, vec_len, vec_capacity};
ghost use Rattle.std.specs.List.{list_all};
ghost use Rattle.bitcode_columns.specs.Histogram.{AreCounts};
ghost use Rattle.bitcode_columns.specs.Digits.{SpellsDigits, base_for, radix};
ghost use Rattle.bitcode_memory.specs.Fast.{cow_rest};
ghost use Rattle.bitcode_columns.specs.Reading.{Reads, IsEndOf, Names, NamesVariantFault, digits_fault};
ghost use Rattle.bitcode_columns.specs.Reading.{variants_stand_raw};
ghost use Rattle.bitcode_columns.specs.VariantColumn.{SpellsVariants, variant_text};

use crate::digits::{pack_digits, unpack_digits};
use crate::pack::Base;
use crate::pack::bytes::borrow_bytes;
use crate::pack::variants::counts::packed_counts;
use crate::single::single_digit;
use bitcode_memory::consume::{consume_byte, consume_bytes};
use bitcode_memory::error::{Error, Reason};
use bitcode_memory::fast::CowSlice;
use bitcode_memory::refuse::err;
use std::alloc::Global;

mod counts;

/// A variant is a byte, whatever `N` is.
const HIGHEST_BYTE: usize = 255;

/// The base whose digits are the variants below `N`.
pub(crate) fn base_of_variants<const N: usize>() -> Base
    ensures { result ≡ base_for (N - 1) }
{
    Base::for_greatest(N.saturating_sub(1).min(HIGHEST_BYTE) as u8)
}

/// Appends a column of variants, each below `N`. The base for `N - 1` says how many share a byte; with 17 variants or
/// more, each has a byte of its own.
///
/// If an allocation fails, the error is `out of memory`, and `out` still begins with what it held before.
///
/// ```rust
/// let mut out = Vec::new(alloc);
/// pack_bytes_less_than::<3>(&[2, 0, 1, 2, 2], &mut out)?;
/// assert_eq!(rt; out.as_slice(), [227].as_slice());
/// ```
pub fn pack_bytes_less_than<const N: usize>(bytes: &[u8], out: &mut Vec<u8>) -> Result<(), Error>
    requires { All (λ entry. entry < N) bytes.now }
    ensures written { OnOk result (out.new.items ≡ out.old.items ++ variant_text N bytes.now) }
    ensures reason { IfErr result (λ e. e.reason ≡ Reason.OutOfMemory) }
    ensures unchanged { OnErr result (out.new.items ≡ out.old.items) }
    ensures full { OnErr result
        (vec_capacity out.old < vec_len out.old + length (variant_text N bytes.now)) }
{
    pack_digits(&[], base_of_variants::<N>(), bytes, out)
}

/// Reads the digits of a column of `count` variants from the front of the input into `out`. With 17 variants or more,
/// `out` borrows them from the input. One variant takes no memory either.
fn read_digits<'a, const N: usize>(
    alloc: Global,
    input: &mut &'a [u8],
    count: usize,
    out: &mut CowSlice<'a, u8>,
) -> Result<(), Error>
    ensures read { OnOk result
        (Reads (SpellsDigits (base_for (N - 1))) count input.old.now (cow_rest out.new)
        input.new.now) }
    ensures refused { IfErr result
        (λ e. Names e.reason (digits_fault (base_for (N - 1)) count input.old.now)) }
    ensures rest { OnErr result (IsEndOf input.old.now input.new.now) }
    ensures raw { IsTrue (variants_stand_raw N count)
        → IfErr result (λ e. e.reason ≢ Reason.OutOfMemory) }
{
    let base = base_of_variants::<N>();
    if base == Base::Whole {
        borrow_bytes(consume_bytes(input, count)?, out);
    } else if count == 1 {
        let byte = consume_byte(input)?;
        out.set_borrowed(single_digit(base, byte));
    } else {
        out.set_owned(unpack_digits(alloc, base, input, count)?);
    }
    Ok(())
}

/// Whether each entry, a digit of the base, is below the number of variants. If every digit is, it does not look at
/// them.
fn are_variants(base: Base, entries: &[u8], variants: usize) -> bool
    requires { All (λ entry. entry < radix base) entries.now }
    ensures { result ≡ list_all (λ entry. nat_lt entry variants) entries.now }
{
    usize::from(base.radix()) <= variants
        || entries.iter().all(|entry| (*entry as usize) < variants)
}

/// Reads a column of `count` variants from the front of the input into `out`.
///
/// For `H = N` the result counts the entries: how many are variant 0, how many are variant 1, and so on. For `H = 0` it
/// counts nothing. With 17 variants or more, `out` borrows the entries from the input without allocating. Nor does it
/// allocate for one entry or none.
///
/// If bytes are missing, the error is `EOF`; if an entry is not below `N`, `invalid packing`; if an allocation fails,
/// `out of memory`. After an error the input is a suffix of what it was, and `out` must be filled again before use.
///
/// ```rust
/// let mut input: &[u8] = &[227];
/// let mut variants = CowSlice::new(alloc);
/// let counts = unpack_bytes_less_than::<3, 3>(alloc, &mut input, 4, &mut variants)?;
/// assert_eq!(rt; variants.as_slice(), [2, 0, 1, 2].as_slice());
/// assert_eq!(rt; counts, [1, 1, 2]);
/// ```
pub fn unpack_bytes_less_than<'a, const N: usize, const H: usize>(
    alloc: Global,
    input: &mut &'a [u8],
    count: usize,
    out: &mut CowSlice<'a, u8>,
) -> Result<[usize; H], Error>
    requires { (H ≡ N) ⊎ (H ≡ 0) }
    ensures read { OnOk result
        (Reads (SpellsVariants N) count input.old.now (cow_rest out.new) input.new.now) }
    ensures counts { IfOk result (λ counts. AreCounts H (cow_rest out.new) counts) }
    ensures total { IfOk result (λ counts. H ≡ N → sum counts ≡ count) }
    ensures refused { IfErr result (λ e. NamesVariantFault e.reason N count input.old.now) }
    ensures rest { OnErr result (IsEndOf input.old.now input.new.now) }
    ensures raw { IsTrue (variants_stand_raw N count)
        → IfErr result (λ e. e.reason ≢ Reason.OutOfMemory) }
{
    let before = *input;
    read_digits::<N>(alloc, input, count, out)?;
    let entries = out.as_slice();
    let base = base_of_variants::<N>();
    if !are_variants(base, entries, N) {
        return err(Reason::InvalidPacking);
    }
    let packed = &before[..before.len() - input.len()];
    Ok(packed_counts(base, packed, entries))
}
