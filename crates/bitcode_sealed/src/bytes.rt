//! Sealing bytes, and taking sealed bytes off the front of an input.
ghost use Rattle.std.specs.Prelude.{◌≡◌, ◌++◌, IfOk, OnOk, IfErr, OnErr};
ghost use Rattle.bitcode_sealed.specs.Layout.{sealed, BeginsWithHead};
ghost use Rattle.bitcode_sealed.specs.Faults.{Admits, IsMismatch, HasValueBehind, IsValueFault, IsSealedFront, IsFault};

use crate::crc::crc_32;
use crate::error::OpenError;
use crate::head::{HEAD_BYTES, Head, read_head};
use crate::label::{Expected, Label};
use bitcode_memory::error::{Error, Reason};
use bitcode_memory::ints::Int;

// The bytes of a value's checksum.
const SUM_BYTES: usize = 4;

/// How many bytes sealing adds to a value's.
pub const SEALING_BYTES: u64 = (HEAD_BYTES + SUM_BYTES) as u64;

/// Appends sealed bytes to `out`.
///
/// The bytes may come from `encode`, from `serialize`, or from anywhere else.
///
/// Errors: `out of memory` if `out` cannot grow. Then `out` is unchanged.
///
/// ```text
/// let mut out = Vec::new(alloc);
/// seal_bytes(RECORDS, serialize(alloc, &shape, &value)?.as_slice(), &mut out)?;
/// ```
pub fn seal_bytes(label: Label, value: &[u8], out: &mut Vec<u8>) -> Result<(), Error>
    ensures written { OnOk result (out.new.items ≡ out.old.items ++ sealed label value.now) }
    ensures unchanged { OnErr result (out.new.items ≡ out.old.items) }
    ensures reason { IfErr result (λ e. e.reason ≡ Reason.OutOfMemory) }
{
    let head = Head {
        label,
        size: value.len() as u64,
    };
    let sum = crc_32(value).to_unaligned();
    out.reserve(HEAD_BYTES + value.len() + SUM_BYTES)?;
    out.extend_from_slice(&head.bytes()).unwrap();
    out.extend_from_slice(value).unwrap();
    out.extend_from_slice(&sum).unwrap();
    Ok(())
}

// Whether the program expects what the head says.
fn admit(expected: &Expected, head: Head) -> Result<(), OpenError>
    ensures admitted { OnOk result (Admits expected.now head) }
    ensures refused { IfErr result (λ e. IsMismatch expected.now head e) }
{
    if head.label.kind != expected.label.kind {
        return Err(OpenError::AnotherKind {
            found: head.label.kind,
            expected: expected.label.kind,
        });
    }
    if head.label.version != expected.label.version {
        return Err(OpenError::AnotherVersion {
            found: head.label.version,
            expected: expected.label.version,
        });
    }
    if expected.most_bytes < head.size {
        return Err(OpenError::TooLong {
            bytes: head.size,
            most: expected.most_bytes,
        });
    }
    Ok(())
}

// The value's bytes behind the head, if their checksum holds, and what stands behind that.
pub(crate) fn split_value<'a>(
    head: Head,
    input: &'a [u8],
) -> Result<(&'a [u8], &'a [u8]), OpenError>
    requires { BeginsWithHead head input.now }
    ensures found { IfOk result (λ parts. HasValueBehind head input.now parts.0.now parts.1.now) }
    ensures refused { IfErr result (λ e. IsValueFault head input.now e) }
{
    let wanted = head.size.saturating_add(SEALING_BYTES);
    if (input.len() as u64) < wanted {
        return Err(OpenError::CutOff {
            present: input.len() as u64,
            wanted,
        });
    }
    let (value, behind) = input[HEAD_BYTES..].split_at(head.size as usize);
    let (sum, rest) = behind.split_at(SUM_BYTES);
    let stored = u32::from_unaligned([sum[0], sum[1], sum[2], sum[3]]);
    let computed = crc_32(value);
    if stored != computed {
        return Err(OpenError::ValueDamaged { stored, computed });
    }
    Ok((value, rest))
}

/// The bytes of the value that is sealed at the front of the input, and the rest after the sealed bytes.
///
/// It does not decode the value. A reader of many sealed values can skip an unusable one with it.
///
/// Errors: each `OpenError` except `BytesLeftOver` and `Value`.
///
/// ```text
/// let (value, rest) = split_sealed(&EXPECTED, input)?;
/// ```
pub fn split_sealed<'a>(
    expected: &Expected,
    input: &'a [u8],
) -> Result<(&'a [u8], &'a [u8]), OpenError>
    ensures found { IfOk result
        (λ parts. IsSealedFront expected.now input.now parts.0.now parts.1.now) }
    ensures refused { IfErr result (λ e. IsFault expected.now input.now e) }
{
    let head = read_head(input)?;
    admit(expected, head)?;
    split_value(head, input)
}
