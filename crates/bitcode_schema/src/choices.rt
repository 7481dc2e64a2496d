//! The column of variants of an enum whose number of variants is known only at run time.
ghost use Rattle.std.specs.Prelude.{◌≡◌, ◌≤◌, ◌++◌, ◌↔◌, nat_lt, IsTrue, IfOk, IfErr, OnOk};
ghost use Rattle.std.specs.List.{list_all};
ghost use Rattle.bitcode_memory.specs.Fast.{cow_rest};
ghost use Rattle.bitcode_columns.specs.Histogram.{count_of};
ghost use Rattle.bitcode_columns.specs.Reading.{Reads};
ghost use Rattle.bitcode_columns.specs.VariantColumn.{SpellsVariants, variant_text};
ghost use Rattle.bitcode_coder.specs.Faults.{NamesVariantsFault};
ghost use Rattle.bitcode_schema.specs.Variants.{ReadsDigits};

use bitcode_columns::strict::read_variants as read_variants_below;
use bitcode_memory::error::{Error, Reason};
use bitcode_memory::fast::CowSlice;
use bitcode_memory::refuse::err;
use std::alloc::Global;

// Reads a column of digits as the variants of an enum of `N` variants.
fn read_below<'a, const N: usize>(
    alloc: Global,
    input: &mut &'a [u8],
    k: usize,
    out: &mut CowSlice<'a, u8>,
    strict: bool,
) -> Result<bool, Error>
    ensures read { OnOk result
        (Reads (SpellsVariants N) k input.old.now (cow_rest out.new) input.new.now) }
    ensures judged { IsTrue strict → IfOk result
        (λ written. IsTrue written
        ↔ (input.old.now ≡ variant_text N (cow_rest out.new) ++ input.new.now)) }
    ensures refused { IfErr result (λ e. NamesVariantsFault N e.reason k input.old.now) }
{
    let ([], written) = read_variants_below::<N, 0>(alloc, input, k, out, strict)?;
    Ok(written)
}

// Reads a column of digits in the base for so many variants.
fn read_digits<'a>(
    alloc: Global,
    input: &mut &'a [u8],
    k: usize,
    count: usize,
    out: &mut CowSlice<'a, u8>,
    strict: bool,
) -> Result<bool, Error>
    requires { (2 ≤ count) × (count ≤ 256) }
    ensures read { OnOk result
        (ReadsDigits count k input.old.now (cow_rest out.new) input.new.now) }
    ensures judged { IsTrue strict → IfOk result
        (λ written. IsTrue written
        ↔ (input.old.now ≡ variant_text count (cow_rest out.new) ++ input.new.now)) }
    ensures refused { IfErr result (λ e. NamesVariantsFault count e.reason k input.old.now) }
{
    match count {
        0..=2 => read_below::<2>(alloc, input, k, out, strict),
        3 => read_below::<3>(alloc, input, k, out, strict),
        4 => read_below::<4>(alloc, input, k, out, strict),
        5..=6 => read_below::<6>(alloc, input, k, out, strict),
        7..=16 => read_below::<16>(alloc, input, k, out, strict),
        _ => read_below::<256>(alloc, input, k, out, strict),
    }
}

// Whether each entry is below the number of variants.
fn are_below(entries: &[u8], count: usize) -> bool
    ensures { result ≡ list_all (λ entry. nat_lt entry count) entries.now }
{
    entries.iter().all(|entry| (*entry as usize) < count)
}

/// Reads `k` variants of an enum of so many variants.
pub(crate) fn read_variants<'a>(
    alloc: Global,
    input: &mut &'a [u8],
    k: usize,
    count: usize,
    out: &mut CowSlice<'a, u8>,
    strict: bool,
) -> Result<bool, Error>
    requires { (2 ≤ count) × (count ≤ 256) }
    ensures read { OnOk result
        (Reads (SpellsVariants count) k input.old.now (cow_rest out.new) input.new.now) }
    ensures judged { IsTrue strict → IfOk result
        (λ written. IsTrue written
        ↔ (input.old.now ≡ variant_text count (cow_rest out.new) ++ input.new.now)) }
    ensures refused { IfErr result (λ e. NamesVariantsFault count e.reason k input.old.now) }
{
    let written = read_digits(alloc, input, k, count, out, strict)?;
    if !are_below(out.as_slice(), count) {
        return err(Reason::InvalidPacking);
    }
    Ok(written)
}

/// How often a variant stands among others.
pub(crate) fn times(variants: &[u8], variant: usize) -> usize
    ensures { result ≡ count_of variant variants.now }
{
    variants
        .iter()
        .filter(|entry| **entry as usize == variant)
        .count()
}
