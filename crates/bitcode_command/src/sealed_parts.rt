//! The values in a file: its bytes, or those of the sealed values in it.
use crate::failure::Failure;
use bitcode_sealed::bytes::split_sealed;
use bitcode_sealed::crc::crc_32;
use bitcode_sealed::error::OpenError;
use bitcode_sealed::front::read_label;
use bitcode_sealed::label::{Expected, Label};
use std::alloc::{AllocError, Global};

// The bytes of a header before its checksum.
const HEAD_BEFORE_SUM: usize = 16;

/// What the header of a sealed value says, and both checksums.
#[derive(Clone, Copy)]
pub struct Seal {
    pub label: Label,
    pub head_sum: u32,
    pub value_sum: u32,
}

/// The bytes of a value, and its seal if it has one.
#[derive(Clone, Copy)]
pub struct Part<'a> {
    pub seal: Option<Seal>,
    pub bytes: &'a [u8],
}

impl Part<'_> {
    /// The line that tells of the seal.
    pub fn line(&self, alloc: Global) -> Result<Option<String>, AllocError> {
        let Some(seal) = &self.seal else {
            return Ok(None);
        };
        let kind = seal.label.kind;
        let version = seal.label.version;
        let length = self.bytes.len();
        let head = seal.head_sum;
        let value = seal.value_sum;
        let line = format!(in alloc;
            "sealed: kind {kind:#010x}, version {version}, {length} bytes, checksums {head:08x} and {value:08x}"
        )?;
        Ok(Some(line))
    }
}

// The sealed value at the front of an input, and the rest.
fn open_front(input: &[u8]) -> Result<(Part<'_>, &[u8]), OpenError> {
    let label = read_label(input)?;
    let expected = Expected {
        label,
        most_bytes: u64::MAX,
    };
    let (bytes, rest) = split_sealed(&expected, input)?;
    let seal = Seal {
        label,
        head_sum: crc_32(&input[..HEAD_BEFORE_SUM.min(input.len())]),
        value_sum: crc_32(bytes),
    };
    let part = Part {
        seal: Some(seal),
        bytes,
    };
    Ok((part, rest))
}

/// The sealed values of an input, one behind the other, if there are `many`, and otherwise the one.
pub fn sealed_parts(alloc: Global, input: &[u8], many: bool) -> Result<Vec<Part<'_>>, Failure> {
    let mut parts = Vec::new(alloc);
    let mut rest = input;
    for _ in 0..input.len().max(1) {
        let (part, behind) = match open_front(rest) {
            Ok(found) => found,
            Err(error) => return Err(Failure::of_seal(
                error,
                input.len().saturating_sub(rest.len()),
            )),
        };
        parts.push(part)?;
        rest = behind;
        if rest.is_empty() || !many {
            break;
        }
    }
    if rest.is_empty() {
        return Ok(parts);
    }
    let count = rest.len() as u64;
    Err(Failure::of_seal(OpenError::BytesLeftOver { count }, 0))
}

/// The one value of an input without a seal.
pub fn bare_part(alloc: Global, input: &[u8]) -> Result<Vec<Part<'_>>, Failure> {
    let part = Part {
        seal: None,
        bytes: input,
    };
    Ok(vec![in alloc; part]?)
}
