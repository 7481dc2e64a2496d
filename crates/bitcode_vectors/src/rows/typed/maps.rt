//! The rows of maps.
use bitcode_test_support::{Got, decodes, encodes};
use std::alloc::Global;
use std::collections::{BTreeMap, HashMap};

/// Of two pairs with equal keys the last gives the value, and an ordered map is written in the order of its keys.
pub fn equal_keys(alloc: Global) -> Result<(), Got> {
    let mut map: BTreeMap<u8, u8> = BTreeMap::new(alloc);
    let _none = map.insert(1, 6)?;
    encodes(alloc, &map, &[1, 1, 6])?;
    decodes(alloc, &[2, 1, 1, 5, 6], map)
}

/// A hashed map of one pair.
pub fn hashed_pair(alloc: Global) -> Result<(), Got> {
    let mut map: HashMap<u8, u8> = HashMap::new(alloc);
    let _none = map.insert(1, 6)?;
    encodes(alloc, &map, &[1, 1, 6])
}
