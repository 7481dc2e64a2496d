//! Puts the records of several cache files together, and keeps them in the first: a cache on disk
//! that no crash leaves half written, and that refuses what is older, damaged or cut off.
//!
//!     record_cache FILE..
#![tactic(auto)]

pub mod cache;
pub mod file_id;
pub mod file_record;
mod store;

use crate::cache::Records;
use crate::file_id::FileId;
use crate::file_record::FileRecord;
use anyhow::{Context, Result};
use std::collections::HashMap;
use std::env;
use std::rt::{Env, Files};

/// The records of a file. A file that has none of use is named, with what is at fault, and the
/// program goes on without it.
fn load(rt: &(impl AllocGlobal + Files + Print), path: &str) -> Result<Records> {
    match store::load(rt, path) {
        Ok(records) => {
            let count = records.len();
            println!(rt; "{path}: {count} records")?;
            Ok(records)
        }
        Err(fault) => {
            println!(rt; "{path}: refused: {fault}")?;
            Ok(HashMap::new(rt.alloc()))
        }
    }
}

/// Adds a record, unless a later one of the same file is there.
fn add(records: &mut Records, id: FileId, record: FileRecord) -> Result<()> {
    if let Some(known) = records.get(&id)
        && record.modified < known.modified
    {
        return Ok(());
    }
    records.insert(id, record)?;
    Ok(())
}

/// The records of all the files that the program's words name.
fn load_all(rt: &(impl AllocGlobal + Env + Files + Print)) -> Result<Records> {
    let mut records = HashMap::new(rt.alloc());
    for path in env::args(rt)?.skip(1) {
        for (id, record) in &load(rt, path.as_str())? {
            add(&mut records, *id, *record)?;
        }
    }
    Ok(records)
}

fn run(rt: &(impl AllocGlobal + Env + Files + Print)) -> Result<()> {
    let first = env::args(rt)?.nth(1).context("usage: record_cache FILE..")?;
    let records = load_all(rt)?;
    store::save(rt, first.as_str(), &records)?;
    load(rt, first.as_str())?;
    Ok(())
}

fn main(rt: HostRuntime) -> Result<()> {
    run(&rt)
}
