//! Byte columns: how they are packed and refused.
use crate::Got;
use bitcode::{Byte, CowSlice, Reason, pack_bytes, unpack_bytes};
use std::alloc::Global;

/// The byte column of these entries is these bytes.
pub fn packs_bytes<T: Byte>(alloc: Global, entries: &mut [T], expected: &[u8]) -> Result<(), Got> {
    let mut out = Vec::new(alloc);
    match pack_bytes(entries, &mut out) {
        Ok(()) if out.as_slice() == expected => Ok(()),
        Ok(()) => Err(Got::Bytes(out)),
        Err(error) => Err(Got::Refused(error)),
    }
}

/// So many bytes are refused for this reason.
pub fn unpack_bytes_refuses(
    alloc: Global,
    mut bytes: &[u8],
    count: usize,
    reason: Reason,
) -> Result<(), Got> {
    let mut out = CowSlice::new(alloc);
    match unpack_bytes(alloc, &mut bytes, count, &mut out) {
        Ok(()) => Err(Got::AnotherValue),
        Err(error) if error.reason == reason => Ok(()),
        Err(error) => Err(Got::Refused(error)),
    }
}
