//! Nodes without parts, which the decoders of Rust types read.
ghost use Rattle.std.specs.Prelude.{Some, false, IfOk, IfErr};
ghost use Rattle.bitcode_shapes.specs.Checked.{nonzero_shape};
ghost use Rattle.bitcode_shapes.specs.Durations.{duration_shape};
ghost use Rattle.bitcode_shapes.specs.Ints.{int_shape};
ghost use Rattle.bitcode_shapes.specs.Shape.{text_shape, array_shape};
ghost use Rattle.bitcode_coder.specs.FirstFault.{IsFirstFault};
ghost use Rattle.bitcode_schema.specs.Leaves.{width_of, is_signed};
ghost use Rattle.bitcode_schema.specs.Reading.{ReadsData};

use crate::limits::exceed;
use crate::schema::IntKind;
use bitcode_coder::coder::{NewDecoder, View, both};
use bitcode_coder::length::LengthDecoder;
use bitcode_coder::str::StrDecoder;
use bitcode_ints::checked::CheckedIntDecoder;
use bitcode_ints::signed_coders::{I8Decoder, I16Decoder, I32Decoder, I64Decoder, I128Decoder};
use bitcode_ints::unsigned_coders::{U8Decoder, U16Decoder, U32Decoder, U64Decoder, U128Decoder};
use bitcode_memory::consume::mul_length;
use bitcode_memory::error::{Error, Reason};
use bitcode_memory::refuse::err;
use bitcode_shapes::nanosecond::Nanosecond;
use std::alloc::Global;
use std::num::{
    NonZeroI8, NonZeroI16, NonZeroI32, NonZeroI64, NonZeroI128, NonZeroU8, NonZeroU16, NonZeroU32,
    NonZeroU64, NonZeroU128,
};

/// Reads `k` data with the decoder of a Rust type.
pub(crate) fn read_leaf<'a, D: NewDecoder + View<'a> + Drop>(
    alloc: Global,
    input: &mut &'a [u8],
    k: usize,
    strict: bool,
) -> Result<bool, Error>
    ensures read { IfOk result
        (ReadsData D.shape k strict input.old.now input.new.now) }
    ensures exact { IfErr result
        (λ e. IsFirstFault D.shape e.reason k input.old.now) }
{
    let mut column = D::new(alloc);
    column.read(input, k, strict)
}

/// Reads `k` integers of a kind.
pub(crate) fn read_ints<'a>(
    alloc: Global,
    kind: IntKind,
    input: &mut &'a [u8],
    k: usize,
    strict: bool,
) -> Result<bool, Error>
    ensures read { IfOk result
        (ReadsData (int_shape (width_of kind) (is_signed kind)) k strict
        input.old.now input.new.now) }
    ensures exact { IfErr result
        (λ e. IsFirstFault (int_shape (width_of kind) (is_signed kind)) e.reason k
        input.old.now) }
{
    match kind {
        IntKind::U8 => read_leaf::<U8Decoder>(alloc, input, k, strict),
        IntKind::U16 => read_leaf::<U16Decoder>(alloc, input, k, strict),
        IntKind::U32 => read_leaf::<U32Decoder>(alloc, input, k, strict),
        IntKind::U64 => read_leaf::<U64Decoder>(alloc, input, k, strict),
        IntKind::U128 => read_leaf::<U128Decoder>(alloc, input, k, strict),
        IntKind::I8 => read_leaf::<I8Decoder>(alloc, input, k, strict),
        IntKind::I16 => read_leaf::<I16Decoder>(alloc, input, k, strict),
        IntKind::I32 => read_leaf::<I32Decoder>(alloc, input, k, strict),
        IntKind::I64 => read_leaf::<I64Decoder>(alloc, input, k, strict),
        IntKind::I128 => read_leaf::<I128Decoder>(alloc, input, k, strict),
    }
}

/// Reads `k` integers of a kind, none of them 0.
pub(crate) fn read_nonzeros<'a>(
    alloc: Global,
    kind: IntKind,
    input: &mut &'a [u8],
    k: usize,
    strict: bool,
) -> Result<bool, Error>
    ensures read { IfOk result
        (ReadsData (nonzero_shape (width_of kind) (is_signed kind)) k strict
        input.old.now input.new.now) }
    ensures exact { IfErr result
        (λ e. IsFirstFault (nonzero_shape (width_of kind) (is_signed kind)) e.reason k
        input.old.now) }
{
    match kind {
        IntKind::U8 => read_leaf::<CheckedIntDecoder<NonZeroU8, u8>>(alloc, input, k, strict),
        IntKind::U16 => read_leaf::<CheckedIntDecoder<NonZeroU16, u16>>(alloc, input, k, strict),
        IntKind::U32 => read_leaf::<CheckedIntDecoder<NonZeroU32, u32>>(alloc, input, k, strict),
        IntKind::U64 => read_leaf::<CheckedIntDecoder<NonZeroU64, u64>>(alloc, input, k, strict),
        IntKind::U128 => read_leaf::<CheckedIntDecoder<NonZeroU128, u128>>(alloc, input, k, strict),
        IntKind::I8 => read_leaf::<CheckedIntDecoder<NonZeroI8, i8>>(alloc, input, k, strict),
        IntKind::I16 => read_leaf::<CheckedIntDecoder<NonZeroI16, i16>>(alloc, input, k, strict),
        IntKind::I32 => read_leaf::<CheckedIntDecoder<NonZeroI32, i32>>(alloc, input, k, strict),
        IntKind::I64 => read_leaf::<CheckedIntDecoder<NonZeroI64, i64>>(alloc, input, k, strict),
        IntKind::I128 => read_leaf::<CheckedIntDecoder<NonZeroI128, i128>>(alloc, input, k, strict),
    }
}

/// Reads `k` arrays of 16 bytes.
pub(crate) fn read_uuids<'a>(
    alloc: Global,
    input: &mut &'a [u8],
    k: usize,
    strict: bool,
) -> Result<bool, Error>
    ensures read { IfOk result
        (ReadsData (array_shape 16 (int_shape 1 false)) k strict input.old.now input.new.now) }
    ensures exact { IfErr result
        (λ e. IsFirstFault (array_shape 16 (int_shape 1 false)) e.reason k input.old.now) }
{
    let count = mul_length(k, 16)?;
    read_leaf::<U8Decoder>(alloc, input, count, strict)
}

/// Reads `k` durations: the seconds, and then the nanoseconds.
pub(crate) fn read_durations<'a>(
    alloc: Global,
    input: &mut &'a [u8],
    k: usize,
    strict: bool,
) -> Result<bool, Error>
    ensures read { IfOk result
        (ReadsData duration_shape k strict input.old.now input.new.now) }
    ensures exact { IfErr result
        (λ e. IsFirstFault duration_shape e.reason k input.old.now) }
{
    let seconds = read_leaf::<U64Decoder>(alloc, input, k, strict)?;
    let nanos = read_leaf::<CheckedIntDecoder<Nanosecond, u32>>(alloc, input, k, strict)?;
    Ok(both(seconds, nanos))
}

// Reads `k` texts of at most so many bytes.
fn read_limited<'a>(
    alloc: Global,
    limit: usize,
    input: &mut &'a [u8],
    k: usize,
    strict: bool,
) -> Result<bool, Error>
    ensures read { IfOk result
        (ReadsData (text_shape (Some limit)) k strict input.old.now input.new.now) }
    ensures exact { IfErr result
        (λ e. IsFirstFault (text_shape (Some limit)) e.reason k input.old.now) }
{
    let mut bytes = *input;
    let mut lengths = LengthDecoder::new(alloc);
    lengths.populate(&mut bytes, k)?;
    let written = read_leaf::<StrDecoder>(alloc, input, k, strict)?;
    if exceed(&mut lengths, k, Some(limit)) {
        return err(Reason::InvalidArrayString);
    }
    Ok(written)
}

/// Reads `k` texts, of at most so many bytes if there is a capacity.
pub(crate) fn read_texts<'a>(
    alloc: Global,
    capacity: Option<usize>,
    input: &mut &'a [u8],
    k: usize,
    strict: bool,
) -> Result<bool, Error>
    ensures read { IfOk result
        (ReadsData (text_shape capacity) k strict input.old.now input.new.now) }
    ensures exact { IfErr result
        (λ e. IsFirstFault (text_shape capacity) e.reason k input.old.now) }
{
    match capacity {
        None => read_leaf::<StrDecoder>(alloc, input, k, strict),
        Some(limit) => read_limited(alloc, limit, input, k, strict),
    }
}
