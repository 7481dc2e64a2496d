//! The rows of heaps.
use bitcode::decode;
use bitcode_test_support::Got;
use std::alloc::Global;
use std::collections::BinaryHeap;

/// A heap counts equal elements as often as they are there.
pub fn heap_of_three(alloc: Global) -> Result<(), Got> {
    let mut heap = decode::<BinaryHeap<u8>>(alloc, &[3, 0, 2, 1, 2])?;
    let popped = (heap.pop(), heap.pop(), heap.pop(), heap.pop());
    if popped == (Some(2), Some(2), Some(1), None) {
        Ok(())
    } else {
        Err(Got::AnotherValue)
    }
}
