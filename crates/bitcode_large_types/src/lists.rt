//! Calls at lists of large types. All are proved.

use crate::account::Account;
use crate::packet::Packet;
use bitcode::{Error, decode, encode};
use std::alloc::Global;

/// Reads structs of 17 fields, and writes them again.
pub fn accounts<'a>(alloc: Global, bytes: &'a [u8]) -> Result<Vec<u8>, Error> {
    let accounts: Vec<Account<'a>> = decode(alloc, bytes)?;
    encode(alloc, &accounts)
}

/// Writes values of an enum of 20 variants.
///
/// There is no call here that reads a list of them: its check stops at the checker's step limit.
pub fn packed(alloc: Global, packets: &Vec<Packet>) -> Result<Vec<u8>, Error> {
    encode(alloc, packets)
}
