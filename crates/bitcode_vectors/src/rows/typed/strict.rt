//! The stored rows of strict reading: a column is accepted in the bytes that are written for it, and in no others.
use bitcode::{Reason, VariantDecoder, View};
use bitcode_test_support::{Got, decodes, decodes_strictly, refuses_strictly};
use std::alloc::Global;
use std::collections::BTreeMap;

/// Unused digits are 0, and a column of one integer has no least entry.
pub fn digits_and_widths(alloc: Global) -> Result<(), Got> {
    decodes_strictly(alloc, &[0], false)?;
    decodes_strictly(alloc, &[1], true)?;
    decodes_strictly(alloc, &[4, 255], 255u32)?;
    refuses_strictly::<bool>(alloc, &[2], Reason::NotTheWrittenText)?;
    refuses_strictly::<bool>(alloc, &[255], Reason::NotTheWrittenText)?;
    refuses_strictly::<bool>(alloc, &[2, 0], Reason::ExpectedEof)?;
    refuses_strictly::<bool>(alloc, &[], Reason::Eof)?;
    refuses_strictly::<u32>(alloc, &[0, 255, 0, 0, 0], Reason::NotTheWrittenText)?;
    refuses_strictly::<u32>(alloc, &[3, 1, 0, 0, 0, 254], Reason::NotTheWrittenText)
}

/// So many variants in base three are read from a byte, and this is whether it is the one that is written.
fn judges_variants(alloc: Global, byte: u8, count: usize, expected: bool) -> Result<(), Got> {
    let bytes = [byte];
    let mut input: &[u8] = &bytes;
    let mut variants = VariantDecoder::<3, false>::new(alloc);
    match View::populate_strict(&mut variants, &mut input, count) {
        Ok(written) if written == expected => Ok(()),
        Ok(_) => Err(Got::AnotherValue),
        Err(error) => Err(Got::Refused(error)),
    }
}

/// Lists of bytes and of integers in one spelling each. Of a map only the columns are asked, and not the order of its
/// keys.
pub fn lists_and_maps(alloc: Global) -> Result<(), Got> {
    decodes_strictly(alloc, &[2, 0, 1], vec![in alloc; 0u8, 1]?)?;
    decodes_strictly(alloc, &[5, 10, 0], vec![in alloc; 0u8, 0, 0, 0, 0]?)?;
    refuses_strictly::<Vec<u8>>(alloc, &[255, 6, 2, 0, 1], Reason::NotTheWrittenText)?;
    refuses_strictly::<Vec<u8>>(alloc, &[5, 8, 243], Reason::NotTheWrittenText)?;
    let shifted = [5, 1, 255, 255, 10, 21];
    decodes(alloc, &shifted, vec![in alloc; 0i16, -1, 0, -1, 0]?)?;
    refuses_strictly::<Vec<i16>>(alloc, &shifted, Reason::NotTheWrittenText)?;
    let mut map: BTreeMap<u8, u8> = BTreeMap::new(alloc);
    let _none = map.insert(1, 6)?;
    decodes_strictly(alloc, &[2, 1, 1, 5, 6], map)?;
    judges_variants(alloc, 243, 5, false)?;
    judges_variants(alloc, 0, 5, true)
}
