//! Sums one column of a table of sales that comes on standard input, without making its rows.
//!
//! With the word `write` it writes a table to standard output instead, for another run to read.
#![tactic(auto)]

mod column;
pub mod sale;
mod table;

use anyhow::Result;
use std::io;
use std::io::{Read, Write};
use std::rt::Env;

/// Prints the sum of the amounts of the table on standard input.
fn report(rt: &(impl AllocGlobal + Input + Print)) -> Result<()> {
    let mut table = Vec::new(rt.alloc());
    rt.reader().read_to_end(&mut table)?;
    let size = table.len();
    let total = column::total(rt.alloc(), &table)?;
    println!(rt; "{size} bytes, {total} cents")?;
    Ok(())
}

/// Writes a table to standard output.
fn write(rt: &(impl AllocGlobal + Print)) -> Result<()> {
    let table = table::write(rt.alloc())?;
    io::writer(rt).write_all(table.as_slice())?;
    Ok(())
}

fn main(rt: HostRuntime) -> Result<()> {
    let mut word = [0; 5];
    match rt.arg(1, &mut word) {
        Ok(5) if word == *b"write" => write(&rt),
        _ => report(&rt),
    }
}
