//! Values of nodes without parts, which the decoders of Rust types read.
ghost use Rattle.std.specs.Prelude.{◌≡◌, ◌≤◌, length, sum, Option, Some, None, false, IfOk, IfErr};
ghost use Rattle.bitcode_columns.specs.Reading.{Reads};
ghost use Rattle.bitcode_memory.specs.declared.error.Reason.{Reason};
ghost use Rattle.bitcode_shapes.specs.Checked.{nonzero_shape};
ghost use Rattle.bitcode_shapes.specs.Datum.{Datum};
ghost use Rattle.bitcode_shapes.specs.Durations.{duration_shape};
ghost use Rattle.bitcode_shapes.specs.Ints.{int_shape};
ghost use Rattle.bitcode_shapes.specs.Shape.{unit_shape, never_shape, text_shape, array_shape};
ghost use Rattle.bitcode_coder.specs.Coder.{TakesEach};
ghost use Rattle.bitcode_coder.specs.Columns.{texts};
ghost use Rattle.bitcode_coder.specs.Length.{lengths_left, lengths_sum};
ghost use Rattle.bitcode_coder.specs.LengthColumn.{SpellsLengths};
ghost use Rattle.bitcode_untyped.specs.Leaves.{leaf_of};
ghost use Rattle.bitcode_untyped.specs.declared.value.Value.{Value};
ghost use Rattle.bitcode_schema.specs.Forms.{fields_content, leaf_content, list_content, span_contents};
ghost use Rattle.bitcode_schema.specs.Leaves.{width_of, is_signed, int_leaf};
ghost use Rattle.bitcode_schema.specs.Making.{MakesAs, MakesData, payload_unit};
ghost use Rattle.bitcode_schema.specs.declared.schema.IntKind.TheVariants as int;
ghost use Rattle.bitcode_schema.specs.Views.{under, elements_of, fields_of};

use crate::leaves::{read_leaf, read_nonzeros};
use crate::limits::exceed;
use crate::make::becomes::Becomes;
use crate::make::gather::{arrays, each, zipped};
use crate::make::turns::AsSpan;
use crate::schema::IntKind;
use bitcode_coder::coder::{Decoder, NewDecoder, View};
use bitcode_coder::length::LengthDecoder;
use bitcode_coder::str::StrDecoder;
use bitcode_derive::absent::AbsentDecoder;
use bitcode_ints::checked::CheckedIntDecoder;
use bitcode_ints::signed_coders::{I8Decoder, I16Decoder, I32Decoder, I64Decoder, I128Decoder};
use bitcode_ints::unsigned_coders::{U8Decoder, U16Decoder, U32Decoder, U64Decoder, U128Decoder};
use bitcode_memory::consume::mul_length;
use bitcode_memory::error::{Error, Reason};
use bitcode_memory::refuse::err;
use bitcode_parts::empty::EmptyCoder;
use bitcode_shapes::nanosecond::Nanosecond;
use bitcode_untyped::value::Value;
use std::alloc::Global;
use std::collections::VecDeque;

// Makes values of the next `k` data of a column.
fn values<T: Becomes, D: Decoder<T>>(
    alloc: Global,
    column: &mut D,
    k: usize,
) -> Result<VecDeque<Value>, Error>
    requires { k ≤ length (D.held column.old) }
    ensures made { IfOk result
        (λ values. TakesEach (MakesAs T.content) k values.items (D.held column.old)
        (D.held column.new)) }
    ensures refused { IfErr result (λ e. e.reason ≡ Reason.OutOfMemory) }
{
    let mut values = VecDeque::with_capacity(alloc, k)?;
    for _made in 0..k {
        values.push_back_reserved(column.decode()?.value());
    }
    Ok(values)
}

/// Reads `k` data with the decoder of a Rust type, and makes values of them.
pub(crate) fn make_leaf<'a, T: Becomes, D: NewDecoder + View<'a> + Decoder<T> + Drop>(
    alloc: Global,
    input: &mut &'a [u8],
    k: usize,
) -> Result<VecDeque<Value>, Error>
    ensures made { IfOk result
        (λ values. MakesData D.shape T.content k input.old.now input.new.now values.items) }
{
    let mut column = D::new(alloc);
    column.populate(input, k)?;
    values::<T, D>(alloc, &mut column, k)
}

/// Makes `k` units.
pub(crate) fn make_units<'a>(
    alloc: Global,
    input: &mut &'a [u8],
    k: usize,
) -> Result<VecDeque<Value>, Error>
    ensures made { IfOk result
        (λ values. MakesData unit_shape payload_unit k
        input.old.now input.new.now values.items) }
{
    make_leaf::<(), EmptyCoder>(alloc, input, k)
}

/// Makes `k` values of a node without values: none.
pub(crate) fn make_never<'a>(
    alloc: Global,
    input: &mut &'a [u8],
    k: usize,
) -> Result<VecDeque<Value>, Error>
    ensures made { IfOk result
        (λ values. (content : Value → Option Datum)
        → MakesData never_shape content k input.old.now input.new.now values.items) }
{
    read_leaf::<AbsentDecoder>(alloc, input, k, false)?;
    Ok(VecDeque::with_capacity(alloc, 0)?)
}

/// Makes `k` integers of a kind.
pub(crate) fn make_ints<'a>(
    alloc: Global,
    kind: IntKind,
    input: &mut &'a [u8],
    k: usize,
) -> Result<VecDeque<Value>, Error>
    ensures made { IfOk result
        (λ values. MakesData (int_shape (width_of kind) (is_signed kind))
        (leaf_content (Some (int_leaf kind))) k
        input.old.now input.new.now values.items) }
{
    match kind {
        IntKind::U8 => make_leaf::<u8, U8Decoder>(alloc, input, k),
        IntKind::U16 => make_leaf::<u16, U16Decoder>(alloc, input, k),
        IntKind::U32 => make_leaf::<u32, U32Decoder>(alloc, input, k),
        IntKind::U64 => make_leaf::<u64, U64Decoder>(alloc, input, k),
        IntKind::U128 => make_leaf::<u128, U128Decoder>(alloc, input, k),
        IntKind::I8 => make_leaf::<i8, I8Decoder>(alloc, input, k),
        IntKind::I16 => make_leaf::<i16, I16Decoder>(alloc, input, k),
        IntKind::I32 => make_leaf::<i32, I32Decoder>(alloc, input, k),
        IntKind::I64 => make_leaf::<i64, I64Decoder>(alloc, input, k),
        IntKind::I128 => make_leaf::<i128, I128Decoder>(alloc, input, k),
    }
}

/// Makes `k` integers of a kind, none of them 0.
pub(crate) fn make_nonzeros<'a>(
    alloc: Global,
    kind: IntKind,
    input: &mut &'a [u8],
    k: usize,
) -> Result<VecDeque<Value>, Error>
    ensures made { IfOk result
        (λ values. MakesData (nonzero_shape (width_of kind) (is_signed kind))
        (leaf_content (Some (int_leaf kind))) k
        input.old.now input.new.now values.items) }
{
    let mut bytes = *input;
    read_nonzeros(alloc, kind, &mut bytes, k, false)?;
    make_ints(alloc, kind, input, k)
}

// Makes `k` texts of at most so many bytes.
fn make_limited<'a>(
    alloc: Global,
    limit: usize,
    input: &mut &'a [u8],
    k: usize,
) -> Result<VecDeque<Value>, Error>
    ensures made { IfOk result
        (λ values. MakesData (text_shape (Some limit))
        (leaf_content (Some (leaf_of (texts None)))) k
        input.old.now input.new.now values.items) }
{
    let mut bytes = *input;
    let mut lengths = LengthDecoder::new(alloc);
    lengths.populate(&mut bytes, k)?;
    if exceed(&mut lengths, k, Some(limit)) {
        return err(Reason::InvalidArrayString);
    }
    make_leaf::<String, StrDecoder>(alloc, input, k)
}

/// Makes `k` texts, of at most so many bytes if there is a capacity.
pub(crate) fn make_texts<'a>(
    alloc: Global,
    capacity: Option<usize>,
    input: &mut &'a [u8],
    k: usize,
) -> Result<VecDeque<Value>, Error>
    ensures made { IfOk result
        (λ values. MakesData (text_shape capacity) (leaf_content (Some (leaf_of (texts None)))) k
        input.old.now input.new.now values.items) }
{
    match capacity {
        None => make_leaf::<String, StrDecoder>(alloc, input, k),
        Some(limit) => make_limited(alloc, limit, input, k),
    }
}

/// Makes `k` durations.
pub(crate) fn make_durations<'a>(
    alloc: Global,
    input: &mut &'a [u8],
    k: usize,
) -> Result<VecDeque<Value>, Error>
    ensures made { IfOk result
        (λ values. MakesData duration_shape
        (λ v. under (fields_of v) (fields_content span_contents)) k
        input.old.now input.new.now values.items) }
{
    let seconds = make_leaf::<u64, U64Decoder>(alloc, input, k)?;
    let nanos = make_leaf::<Nanosecond, CheckedIntDecoder<Nanosecond, u32>>(alloc, input, k)?;
    let spans = zipped(alloc, seconds, nanos)?;
    each::<(Value, Value), Value, AsSpan>(alloc, spans)
}

/// Makes `k` arrays of 16 bytes.
pub(crate) fn make_uuids<'a>(
    alloc: Global,
    input: &mut &'a [u8],
    k: usize,
) -> Result<VecDeque<Value>, Error>
    ensures made { IfOk result
        (λ values. MakesData (array_shape 16 (int_shape 1 false))
        (λ v. under (elements_of v) (list_content (leaf_content (Some (int_leaf int.U8))))) k
        input.old.now input.new.now values.items) }
{
    let count = mul_length(k, 16)?;
    let bytes = make_leaf::<u8, U8Decoder>(alloc, input, count)?;
    arrays(alloc, 16, k, bytes)
}

/// Reads `k` lengths, none of them over the capacity, if there is one.
pub(crate) fn capped_lengths<'a>(
    alloc: Global,
    capacity: Option<usize>,
    input: &mut &'a [u8],
    k: usize,
) -> Result<LengthDecoder<'a>, Error>
    ensures read { IfOk result
        (λ lengths. Reads (SpellsLengths capacity) k input.old.now (lengths_left lengths)
        input.new.now) }
    ensures sum { IfOk result (λ lengths. lengths_sum lengths ≡ sum (lengths_left lengths)) }
{
    let mut bytes = *input;
    let mut capped = LengthDecoder::new(alloc);
    capped.populate(&mut bytes, k)?;
    if exceed(&mut capped, k, capacity) {
        return err(Reason::InvalidArrayVec);
    }
    let mut lengths = LengthDecoder::new(alloc);
    lengths.populate(input, k)?;
    Ok(lengths)
}
