//! The rows of variants by themselves.
ghost use Rattle.std.specs.Prelude.{◌≤◌};

use bitcode::coder::Buffer as _;
use bitcode::{Reason, VariantDecoder, VariantEncoder};
use bitcode_test_support::Got;
use std::alloc::Global;

/// One byte is read as one of `N` variants, and is this one.
fn reads_one<const N: usize>(alloc: Global, byte: u8, expected: u8) -> Result<(), Got>
    requires { N ≤ 256 }
{
    let bytes = [byte];
    let mut input: &[u8] = &bytes;
    let mut variants = VariantDecoder::<N, true>::new(alloc);
    match variants.populate(&mut input, 1) {
        Ok(()) if input.is_empty() && variants.decode() == expected => Ok(()),
        Ok(()) => Err(Got::AnotherValue),
        Err(error) => Err(Got::Refused(error)),
    }
}

/// The bytes are no column of so many of `N` variants.
fn refuses_as<const N: usize, const C_STYLE: bool>(
    alloc: Global,
    mut bytes: &[u8],
    count: usize,
) -> Result<(), Got>
    requires { N ≤ 256 }
{
    let mut variants = VariantDecoder::<N, C_STYLE>::new(alloc);
    match variants.populate(&mut bytes, count) {
        Ok(()) => Err(Got::AnotherValue),
        Err(error) if error.reason == Reason::InvalidPacking => Ok(()),
        Err(error) => Err(Got::Refused(error)),
    }
}

/// So many of `N` variants are read, and so many of them are each.
fn counts<const N: usize>(
    alloc: Global,
    mut bytes: &[u8],
    count: usize,
    expected: [usize; N],
) -> Result<(), Got>
    requires { N ≤ 256 }
{
    let mut variants = VariantDecoder::<N, false>::new(alloc);
    if let Err(error) = variants.populate(&mut bytes, count) {
        return Err(Got::Refused(error));
    }
    for variant in 0..N {
        if variants.length(variant) != expected[variant] {
            return Err(Got::AnotherValue);
        }
    }
    Ok(())
}

/// The last of six variants is written as this byte.
fn writes_last_of_six(alloc: Global, expected: u8) -> Result<(), Got> {
    let mut variants = VariantEncoder::<6>::new(alloc);
    if let Err(error) = variants.reserve(1) {
        return Err(Got::Refused(error));
    }
    variants.encode(5);
    let mut out = Vec::new(alloc);
    match variants.collect_into(&mut out) {
        Ok(()) if out.as_slice() == [expected].as_slice() => Ok(()),
        Ok(()) => Err(Got::Bytes(out)),
        Err(error) => Err(Got::Refused(error)),
    }
}

/// The last of six variants, read as one of five and of six; a byte above them is read by its digit.
pub fn last_of_six(alloc: Global) -> Result<(), Got> {
    writes_last_of_six(alloc, 5)?;
    refuses_as::<5, true>(alloc, &[5], 1)?;
    reads_one::<6>(alloc, 5, 5)?;
    reads_one::<6>(alloc, 6, 0)
}

/// Bytes above 242 are counted by their digits in base 3.
pub fn counts_of_high_bytes(alloc: Global) -> Result<(), Got> {
    counts::<3>(alloc, &[243; 100], 500, [500, 0, 0])
}

/// Three variants are counted byte by byte, without the digits that the last byte has left.
pub fn counts_in_base_three(alloc: Global) -> Result<(), Got> {
    counts::<3>(alloc, &[255; 100], 500, [300, 200, 0])?;
    counts::<3>(alloc, &[255; 100], 498, [298, 200, 0])?;
    counts::<3>(alloc, &[255; 101], 501, [301, 200, 0])
}

/// Five variants are digits in base 6, where 5 is none of them, and a digit that is left over may be.
pub fn counts_in_base_six(alloc: Global) -> Result<(), Got> {
    counts::<5>(alloc, &[255; 100], 300, [100, 100, 0, 100, 0])?;
    let mut bytes = [0; 100];
    bytes[99] = 5;
    refuses_as::<5, false>(alloc, &bytes, 298)?;
    bytes[99] = 180;
    counts::<5>(alloc, &bytes, 299, [299, 0, 0, 0, 0])?;
    refuses_as::<5, false>(alloc, &bytes, 300)
}

/// Two variants are counted as bits, without those that the last byte has left.
pub fn counts_of_bits(alloc: Global) -> Result<(), Got> {
    counts::<2>(alloc, &[255, 254], 9, [1, 8])
}

/// Seventeen variants stand as they are.
pub fn raw_variants(alloc: Global) -> Result<(), Got> {
    let mut input: &[u8] = &[16, 3];
    let mut variants = VariantDecoder::<17, true>::new(alloc);
    match variants.populate(&mut input, 2) {
        Ok(()) if variants.decode() == 16 && variants.decode() == 3 => {}
        Ok(()) => return Err(Got::AnotherValue),
        Err(error) => return Err(Got::Refused(error)),
    }
    refuses_as::<17, true>(alloc, &[16, 17], 2)
}
