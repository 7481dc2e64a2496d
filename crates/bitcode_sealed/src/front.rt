//! What is at the front of an input, whatever its label.
ghost use Rattle.std.specs.Prelude.{◌≡◌, ◌<◌, length, IfOk, IfErr, OnErr};
ghost use Rattle.bitcode_sealed.specs.Faults.{IsHeadFault, IsWholeFault};
ghost use Rattle.bitcode_sealed.specs.Front.{HasLabel, IsSkip, IsNextHead};

use crate::bytes::split_value;
use crate::error::OpenError;
use crate::head::{begins_as_sealed, read_head};
use crate::label::Label;

/// The label of the sealed bytes at the front of the input.
///
/// A program that accepts several labels chooses how to open the value by it. The call reads only the header, so the
/// value may still be cut off or damaged.
///
/// Errors: `NotSealed`, `CutOff` within the header, and `HeadDamaged`.
///
/// ```text
/// let label = read_label(&bytes)?;
/// if label == OLD.label { open_old(alloc, &bytes) } else { open(alloc, &EXPECTED, &bytes) }
/// ```
pub fn read_label(input: &[u8]) -> Result<Label, OpenError>
    ensures found { IfOk result (λ label. HasLabel label input.now) }
    ensures refused { IfErr result (λ e. IsHeadFault input.now e) }
{
    let head = read_head(input)?;
    Ok(head.label)
}

/// Advances the input past the sealed bytes at its front, and returns their label.
///
/// It accepts every label and every size, verifies both checksums, and does not decode the value.
///
/// Errors: `NotSealed`, `CutOff`, `HeadDamaged` and `ValueDamaged`. The input is then unchanged.
///
/// ```text
/// let mut input = bytes.as_slice();
/// let skipped = skip_sealed(&mut input)?;
/// let record: Record = open_front(alloc, &EXPECTED, &mut input)?;
/// ```
pub fn skip_sealed<'a>(input: &mut &'a [u8]) -> Result<Label, OpenError>
    ensures found { IfOk result (λ label. IsSkip label input.old.now input.new.now) }
    ensures refused { IfErr result (λ e. IsWholeFault input.old.now e) }
    ensures unchanged { OnErr result (input.new.now ≡ input.old.now) }
{
    let head = read_head(*input)?;
    let (_, rest) = split_value(head, *input)?;
    *input = rest;
    Ok(head.label)
}

/// The first position after the first byte where sealed bytes may begin, or else the number of bytes.
///
/// At this position are the first two bytes of a header, or the first of them as the last byte of the input. A reader
/// of a damaged input goes on there.
///
/// ```rust
/// assert!(rt; next_head(&[0xBC, 0xF5, 0, 0xBC, 0xF5]) == 3);
/// assert!(rt; next_head(&[0xBC, 0xF5, 0, 0xBC]) == 3);
/// ```
pub fn next_head(input: &[u8]) -> usize
    requires { 0 < length input.now }
    ensures { IsNextHead input.now result }
{
    for at in 1..input.len() {
        if begins_as_sealed(&input[at..]) {
            return at;
        }
    }
    input.len()
}
