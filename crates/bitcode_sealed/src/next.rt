//! Reading many sealed values, of which some may be damaged, cut off, or for another program.
ghost use Rattle.std.specs.Prelude.{◌≡◌, IfOk, OnErr, IfErr, MatchResult};
ghost use Rattle.bitcode_sealed.specs.Front.{IsSkipped, EndIsCutOff};
ghost use Rattle.bitcode_sealed.specs.Next.{IsNextOf};
ghost use Rattle.bitcode_sealed.specs.Opening.{IsRefusalOfFront};

use crate::bytes::SEALING_BYTES;
use crate::error::OpenError;
use crate::front::{next_head, skip_sealed};
use crate::label::Expected;
use crate::values::open_front;
use bitcode_coder::coder::{Decoder, NewDecoder, View};
use bitcode_derive::derive::HasDecoder;
use bitcode_memory::error::{Error, Reason};
use bitcode_memory::refuse::err;
use bitcode_shapes::shaped::Shaped;
use std::alloc::Global;

/// What was at the front of an input of sealed values.
#[derive(Clone, Copy, Debug, PartialEq, Eq, Drop)]
pub enum Next<T> {
    /// A value, which the input now begins behind.
    Opened(T),
    /// Bytes that `fault` keeps the program from opening. So many were skipped: all of a value that is whole, and
    /// otherwise those before the next position where sealed bytes may begin.
    Skipped { fault: OpenError, bytes: usize },
    /// The input ends within sealed bytes: it has `present` bytes and needs `wanted`. It is unchanged.
    EndCutOff { present: u64, wanted: u64 },
}

// How many bytes at the front of the input are skipped. Where it ends within sealed bytes that are not too long, the
// error is how many bytes it has and needs.
fn bytes_to_skip(expected: &Expected, input: &[u8]) -> Result<usize, (u64, u64)>
    ensures { MatchResult result (λ bytes. IsSkipped expected.now input.now bytes)
        (λ e. EndIsCutOff expected.now input.now e.0 e.1) }
{
    let mut rest = input;
    let fault = match skip_sealed(&mut rest) {
        Ok(_) => return Ok(input.len() - rest.len()),
        Err(fault) => fault,
    };
    match fault {
        OpenError::CutOff { present, wanted } => {
            if wanted <= expected.most_bytes.saturating_add(SEALING_BYTES) {
                Err((present, wanted))
            } else {
                Ok(next_head(input))
            }
        }
        _ => Ok(next_head(input)),
    }
}

/// Opens the sealed bytes at the front of the input, or skips what is there.
///
/// So it reads a journal or a stream in which some values are damaged, cut off, or for another program:
///
/// - `Opened`: the value. The input then begins behind it.
/// - `Skipped`: the first `OpenError` of the front, and how many bytes were skipped. If a whole value is there, under
///   whatever label, it is skipped. Otherwise the input then begins at the next position where sealed bytes may begin.
/// - `EndCutOff`: the input ends within sealed bytes, whose value has at most `most_bytes` bytes. The input is
///   unchanged: a reader of a stream appends to it and calls again, and at the end of a journal the last record is
///   torn. An empty input is such an end, with 0 bytes of 20.
///
/// Errors: `out of memory` if an allocation fails. The input is then unchanged.
///
/// ```text
/// while !input.is_empty() {
///     match open_next::<Record>(alloc, &EXPECTED, &mut input)? {
///         Next::Opened(record) => apply(record),
///         Next::Skipped { fault, bytes } => report(fault, bytes),
///         Next::EndCutOff { .. } => break,
///     }
/// }
/// ```
pub fn open_next<'a, T: HasDecoder<'a> + Shaped + Drop>(
    alloc: Global,
    expected: &Expected,
    input: &mut &'a [u8],
) -> Result<Next<T>, Error>
where
    T::Decoder: NewDecoder + View<'a> + Decoder<T> + Drop,
    ensures found { IfOk result (λ next. IsNextOf T.data.makes T.data.shape
        (λ e. IsRefusalOfFront T.Decoder.makes_free T.Decoder.shape T.data.shape
        expected.now input.old.now e) expected.now input.old.now input.new.now next) }
    ensures memory { IfErr result (λ e. e.reason ≡ Reason.OutOfMemory) }
    ensures refused { IfErr result
        (λ e. IsRefusalOfFront T.Decoder.makes_free T.Decoder.shape T.data.shape
        expected.now input.old.now (OpenError.Value e)) }
    ensures unchanged { OnErr result (input.new.now ≡ input.old.now) }
{
    let fault = match open_front(alloc, expected, input) {
        Ok(t) => return Ok(Next::Opened(t)),
        Err(fault) => fault,
    };
    if fault.is_out_of_memory() {
        return err(Reason::OutOfMemory);
    }
    match bytes_to_skip(expected, *input) {
        Ok(bytes) => {
            *input = &input[bytes..];
            Ok(Next::Skipped { fault, bytes })
        }
        Err((present, wanted)) => Ok(Next::EndCutOff { present, wanted }),
    }
}
