//! Prints the sealed messages that come on standard input, as they come, and where in the input others were damaged.
//!
//! With the word `send` it writes some messages to standard output instead, for another run to read.
#![tactic(auto)]

pub mod celsius;
pub mod level;
pub mod message;
mod sender;
mod stream;

use anyhow::Result;
use std::io;
use std::io::Write;
use std::rt::{Env, Runtime};

/// Reads standard input to its end.
fn print_messages(rt: &(impl AllocGlobal + Input + Print)) -> Result<()> {
    let mut reader = rt.reader();
    let mut stream = stream::Stream::new(rt.alloc());
    for _read in 0..u64::MAX {
        let is_end = !stream.fill(&mut reader)?;
        stream.print(rt, rt.alloc(), is_end)?;
        if is_end {
            break;
        }
    }
    Ok(())
}

/// Writes the messages to standard output.
fn send_messages(rt: &(impl AllocGlobal + Print)) -> Result<()> {
    let bytes = sender::frames(rt.alloc())?;
    io::writer(rt).write_all(bytes.as_slice())?;
    Ok(())
}

fn main(rt: HostRuntime) -> Result<()> {
    let mut word = [0; 4];
    match rt.arg(1, &mut word) {
        Ok(4) if word == *b"send" => send_messages(&rt),
        _ => print_messages(&rt),
    }
}
