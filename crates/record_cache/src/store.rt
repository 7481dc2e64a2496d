//! Where a cache is kept: one file, which is there whole or as it was.
use crate::cache::{Records, from_bytes, to_bytes};
use anyhow::{Context, Result};
use std::fs::{File, OpenFile};
use std::io::{Read, Write};
use std::rt::Files;
use std::{fs, io};

/// The records that a file keeps.
///
/// Errors: what is at fault with the file, or that it cannot be read.
pub fn load(rt: &(impl AllocGlobal + Files), path: &str) -> Result<Records> {
    let mut bytes = Vec::new(rt.alloc());
    File::open(rt, path)?.read_to_end(&mut bytes)?;
    Ok(from_bytes(rt.alloc(), &bytes)?)
}

/// Keeps the records in a file.
///
/// They are written to a new file beside it, which then takes its name in one step: whenever the
/// program or the machine stops, the name leads to the old records or to the new ones.
pub fn save(rt: &(impl AllocGlobal + Files), path: &str, records: &Records) -> Result<()> {
    let bytes = to_bytes(rt.alloc(), records)?;
    let beside = format!(in rt.alloc(); "{path}.new")?;
    write_whole(rt, beside.as_str(), &bytes)?;
    fs::rename(rt, beside.as_str(), path)?;
    Ok(())
}

/// Writes a file, and returns once its bytes are on the disk.
fn write_whole(rt: &impl Files, path: &str, bytes: &[u8]) -> io::Result<()> {
    let mut file = File::create(rt, path)?;
    file.write_all(bytes)?;
    file.sync_all()
}
