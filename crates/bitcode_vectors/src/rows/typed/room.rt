//! The stored row of lists with reserved room.
use bitcode::{FastVec, PushUnchecked};
use bitcode_test_support::Got;
use std::alloc::Global;

/// The items are these.
fn shows(items: &[u32], expected: &[u32]) -> Result<(), Got> {
    if items == expected {
        Ok(())
    } else {
        Err(Got::AnotherValue)
    }
}

/// A list shows what was pushed until it is cleared, and a copied one what is pushed behind its items.
pub fn pushed_items(alloc: Global) -> Result<(), Got> {
    let mut list: FastVec<u32> = FastVec::new(alloc);
    list.reserve(2)?;
    list.push_unchecked(1);
    list.push_unchecked(2);
    shows(list.as_slice(), &[1, 2])?;
    list.clear();
    shows(list.as_slice(), &[])?;
    let mut copy = FastVec::from_vec(alloc, vec![in alloc; 3u32]?)?;
    copy.reserve(1)?;
    copy.push_unchecked(4);
    shows(copy.into_vec()?.as_slice(), &[3, 4])
}
