//! The rows of sets.
use bitcode_test_support::{Got, decodes, encodes};
use std::alloc::Global;
use std::collections::BTreeSet;

/// A set counts equal elements once.
pub fn equal_elements(alloc: Global) -> Result<(), Got> {
    let mut set: BTreeSet<u8> = BTreeSet::new(alloc);
    let _first = set.insert(2)?;
    let _second = set.insert(1)?;
    encodes(alloc, &set, &[2, 1, 2])?;
    decodes(alloc, &[3, 0, 2, 1, 2], set)
}
