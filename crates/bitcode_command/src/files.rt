//! Reading what a call is given, and writing what it makes.
use crate::failure::Failure;
use crate::fault::Fault;
use std::alloc::Global;
use std::fs::{File, OpenFile};
use std::io::{Read, Write};
use std::rt::Files;
use std::{fs, io, str};

// How many bytes are read at once, and after how many a terminal shows the progress.
const CHUNK: usize = 1 << 16;

const SHOWN: usize = 1 << 24;

// The name of standard input and output in messages.
const STANDARD_INPUT: &str = "standard input";

const STANDARD_OUTPUT: &str = "standard output";

/// The bytes of a file, or of standard input. With `shows` a terminal shows how many of a long input there are so far.
pub fn read_bytes(
    rt: &(impl AllocGlobal + Files + Input + Eprint),
    path: Option<&str>,
    shows: bool,
) -> Result<Vec<u8>, Failure> {
    let name = path.unwrap_or(STANDARD_INPUT);
    let read = match path {
        None => read_all(rt, rt.reader(), shows),
        Some(path) => match File::open(rt, path) {
            Ok(file) => read_all(rt, file, shows),
            Err(error) => Err(error),
        },
    };
    match read {
        Ok(bytes) => Ok(bytes),
        Err(error) => Err(Failure::of_file(rt.alloc(), name, error)),
    }
}

// All that a reader has.
fn read_all<R: Read + Drop>(
    rt: &(impl AllocGlobal + Eprint),
    mut reader: R,
    shows: bool,
) -> io::Result<Vec<u8>> {
    let mut chunk = vec![in rt.alloc(); 0u8; CHUNK]?;
    let mut bytes = Vec::new(rt.alloc());
    let mut shown = 0usize;
    for _ in 0..u64::MAX {
        let count = reader.read(&mut chunk)?;
        if count == 0 {
            break;
        }
        bytes.extend_from_slice(&chunk[..count])?;
        if shows && bytes.len() / SHOWN > shown {
            shown = bytes.len() / SHOWN;
            show(rt, bytes.len())?;
        }
    }
    if shown > 0 {
        eprint!(rt; "\r{:40}\r", "")?;
    }
    Ok(bytes)
}

// How far it is, in a line that the next one replaces.
fn show(rt: &impl Eprint, bytes: usize) -> io::Result<()> {
    let megabytes = bytes / 1_000_000;
    eprint!(rt; "\r{megabytes} MB read")
}

/// The text of a schema or of JSON that was read.
pub fn text_of(alloc: Global, bytes: &[u8]) -> Result<&str, Fault> {
    match str::from_utf8(bytes) {
        Ok(text) => Ok(text),
        Err(_) => Err(Fault::new(alloc, "the text is not UTF-8")),
    }
}

/// Writes bytes to a file, or to standard output.
pub fn write_bytes(
    rt: &(impl AllocGlobal + Files + Print),
    path: Option<&str>,
    bytes: &[u8],
) -> Result<(), Failure> {
    let written = match path {
        None => io::writer(rt).write_all(bytes),
        Some(path) => fs::write(rt, path, bytes),
    };
    match written {
        Ok(()) => Ok(()),
        Err(error) => Err(Failure::of_file(rt.alloc(), path.unwrap_or(STANDARD_OUTPUT), error)),
    }
}
