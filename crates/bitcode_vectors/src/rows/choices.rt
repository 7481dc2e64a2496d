//! The stored rows of options, results and types written by hand.
use crate::rows::untyped;
use bitcode::{Reason, decode};
use bitcode_test_support::by_hand::never::Never;
use bitcode_test_support::by_hand::one::One;
use bitcode_test_support::by_hand::two::Two;
use bitcode_test_support::{Got, decodes, encodes, refuses};
use std::alloc::Global;

/// The variants of all options stand together, and then the values of those that have one.
pub fn options(alloc: Global) -> Result<(), Got> {
    let shorts: Vec<Option<i16>> = vec![in alloc; None, Some(1), None]?;
    encodes(alloc, &shorts, &[3, 2, 1, 0])?;
    options_in_pairs(alloc)?;
    untyped::enums::options_in_pairs(alloc)
}

/// In pairs too, before the columns of the other fields.
fn options_in_pairs(alloc: Global) -> Result<(), Got> {
    let mut pairs: Vec<(Option<u8>, u8)> = Vec::with_capacity(alloc, 2)?;
    pairs.push((None, 3))?;
    pairs.push((Some(4), 5))?;
    encodes(alloc, &pairs, &[2, 2, 4, 3, 5])
}

/// A column for each variant's payload, in the order of the variants.
pub fn two_variants(alloc: Global) -> Result<(), Got> {
    let written: Vec<Two> = vec![in alloc; Two::A(1), Two::B(-1), Two::A(2)]?;
    encodes(alloc, &written, &[3, 2, 1, 2, 255])?;
    let read: Vec<Two> = vec![in alloc; Two::A(1), Two::B(-1), Two::B(-2)]?;
    decodes(alloc, &[3, 6, 1, 255, 254], read)
}

/// Under a shape another index is refused; in the first format unused bits of the last byte are ignored, so that no
/// byte is another option.
pub fn unused_bits_of_an_option(alloc: Global) -> Result<(), Got> {
    untyped::enums::unknown_indices(alloc)?;
    decodes::<Option<bool>>(alloc, &[2], None)
}

/// All values stand before all errors, and under a shape the columns in the order of their first entries.
pub fn results(alloc: Global) -> Result<(), Got> {
    let list: Vec<Result<bool, u32>> = vec![in alloc; Err(1), Ok(false)]?;
    encodes(alloc, &list, &[2, 1, 0, 4, 1])?;
    untyped::enums::results(alloc)
}

/// An enum of one variant has no variant column; one of none has no values.
pub fn one_variant_and_none(alloc: Global) -> Result<(), Got> {
    encodes(alloc, &One::A(7), &[7])?;
    refuses::<Never>(alloc, &[], Reason::InvalidEnumVariant)?;
    reads_no_values(alloc, &[0])?;
    refuses::<Vec<Never>>(alloc, &[1], Reason::InvalidEnumVariant)
}

/// The bytes are read as a list of no values.
fn reads_no_values(alloc: Global, bytes: &[u8]) -> Result<(), Got> {
    match decode::<Vec<Never>>(alloc, bytes) {
        Ok(list) if list.is_empty() => Ok(()),
        Ok(_) => Err(Got::AnotherValue),
        Err(error) => Err(Got::Refused(error)),
    }
}
