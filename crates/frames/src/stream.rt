//! A stream of sealed messages, of which some may be damaged or cut off.
ghost use Rattle.std.specs.Prelude.{◌≡◌, ◌<◌, ◌≤◌, length, IfOk, IfErr, OnErr};
ghost use Rattle.bitcode.specs.ByHand.{IsNextOf, IsRefusalOfFront};

use crate::message::Message;
use anyhow::Result;
use bitcode::coder::HoldsData;
use bitcode::sealed::{Expected, Label, Next, OpenError, next_head, open_next};
use bitcode::{Decoder, Error, HasDecoder, Reason, Shaped};
use std::alloc::Global;
use std::io::Read;

/// What messages are sealed under.
pub const MESSAGES: Label = Label {
    kind: 0x4D45_5353,
    version: 1,
};

/// No message has over 64 KiB, so no damaged length makes the reader wait for more.
const EXPECTED: Expected = Expected {
    label: MESSAGES,
    most_bytes: 1 << 16,
};

type MessageDecoder<'a> = <Message<'a> as HasDecoder<'a>>::Decoder;

/// How many bytes are read at once.
const CHUNK: usize = 4096;

/// The message at the front of the input, which then begins behind it, or what was skipped there, or
/// that the input ends within a message and may be tried again once more bytes have come.
///
/// Errors: `out of memory`. The input is then as it was.
pub fn next_message<'a>(
    alloc: Global,
    input: &mut &'a [u8],
) -> std::result::Result<Next<Message<'a>>, Error>
    ensures found { IfOk result (λ next. IsNextOf ⟦<Message<'a> as Shaped>⟧.data.makes
        ⟦<Message<'a> as Shaped>⟧.data.shape
        (λ e. IsRefusalOfFront
        ⟦<MessageDecoder<'a> as Decoder<Message<'a>>>⟧.makes_free
        ⟦<MessageDecoder<'a> as HoldsData>⟧.shape ⟦<Message<'a> as Shaped>⟧.data.shape EXPECTED
        input.old.now e) EXPECTED input.old.now input.new.now next) }
    ensures memory { IfErr result (λ e. e.reason ≡ Reason.OutOfMemory) }
    ensures unchanged { OnErr result (input.new.now ≡ input.old.now) }
{
    open_next(alloc, &EXPECTED, input)
}

/// Prints the message at the front of the bytes, or why there is none, and answers how many bytes
/// are done with: none where more are to come.
fn print_front(
    rt: &impl Print,
    alloc: Global,
    bytes: &[u8],
    offset: u64,
    is_end: bool,
) -> Result<usize>
    requires { 0 < length bytes.now }
    ensures { IfOk result (λ used. used ≤ length bytes.now) }
{
    let mut rest = bytes;
    match next_message(alloc, &mut rest)? {
        Next::Opened(message) => {
            println!(rt; "{offset}: {message:?}")?;
            Ok(bytes.len() - rest.len())
        }
        Next::Skipped { fault, bytes } => {
            println!(rt; "{offset}: {fault}; {bytes} bytes skipped")?;
            Ok(bytes)
        }
        Next::EndCutOff { .. } if !is_end => Ok(0),
        Next::EndCutOff { present, wanted } => {
            let fault = OpenError::CutOff { present, wanted };
            let used = next_head(bytes);
            println!(rt; "{offset}: {fault}; {used} bytes skipped")?;
            Ok(used)
        }
    }
}

/// The bytes of a stream that have come and are not done with, and how many came before them.
#[derive(Drop)]
pub struct Stream {
    bytes: Vec<u8>,
    offset: u64,
}

impl Stream {
    /// A stream of which nothing has come.
    pub fn new(alloc: Global) -> Self {
        Stream {
            bytes: Vec::new(alloc),
            offset: 0,
        }
    }

    /// Waits for more bytes, and answers whether some came: none do at the end.
    pub fn fill(&mut self, reader: &mut impl Read) -> Result<bool> {
        let mut chunk = [0; CHUNK];
        let count = reader.read(&mut chunk)?;
        self.bytes.extend_from_slice(&chunk[..count])?;
        Ok(count > 0)
    }

    /// Prints what has come whole, and all else once the end is reached.
    pub fn print(&mut self, rt: &impl Print, alloc: Global, is_end: bool) -> Result<()> {
        let mut done = 0;
        while done < self.bytes.len() {
            let offset = self.offset.saturating_add(done as u64);
            let used = print_front(rt, alloc, &self.bytes[done..], offset, is_end)?;
            if used == 0 {
                break;
            }
            done += used;
        }
        self.bytes.drain(..done);
        self.offset = self.offset.saturating_add(done as u64);
        Ok(())
    }
}
