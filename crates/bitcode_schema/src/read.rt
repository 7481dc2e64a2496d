//! Reading the columns of a node.
ghost use Rattle.std.specs.Prelude.{◌≡◌, ◌<◌, ◌≤◌, true, length, IfOk, IfErr};
ghost use Rattle.bitcode_shapes.specs.Shape.{seq_shape, map_shape, array_shape, choice_shape};
ghost use Rattle.bitcode_coder.specs.FirstFault.{IsFirstFault};
ghost use Rattle.bitcode_enums.specs.ByNumber.{shape_at};
ghost use Rattle.bitcode_schema.specs.Depth.{has_few_variants};
ghost use Rattle.bitcode_schema.specs.Forms.{shape_of, shapes_of, enum_shape};
ghost use Rattle.bitcode_schema.specs.Reading.{ReadsData, fields_of, fields_between, shape_of_fields, variant_shapes};

use crate::choices::{read_variants, times};
use crate::leaves::{read_durations, read_ints, read_leaf, read_nonzeros, read_texts, read_uuids};
use crate::limits::exceed;
use crate::schema::SchemaNode;
use bitcode_coder::bool::BoolDecoder;
use bitcode_coder::coder::both;
use bitcode_coder::length::LengthDecoder;
use bitcode_derive::absent::AbsentDecoder;
use bitcode_floats::float32::F32Decoder;
use bitcode_floats::float64::F64Decoder;
use bitcode_ints::checked::CheckedIntDecoder;
use bitcode_memory::consume::mul_length;
use bitcode_memory::error::{Error, Reason};
use bitcode_memory::fast::CowSlice;
use bitcode_memory::refuse::err;
use bitcode_parts::empty::EmptyCoder;
use std::alloc::Global;

/// Reads `k` data of a node from the front of the input, and validates them completely. If `strict`, it returns whether
/// the bytes of each column are those that are written for its entries. Otherwise the bool has no meaning.
///
/// The error is the first fault.
#[cycle(read)]
pub(crate) fn read<'a>(
    alloc: Global,
    node: &SchemaNode,
    input: &mut &'a [u8],
    k: usize,
    strict: bool,
) -> Result<bool, Error>
    requires few { has_few_variants node.now ≡ true }
    ensures read { IfOk result
        (ReadsData (shape_of node.now) k strict input.old.now input.new.now) }
    ensures exact { IfErr result
        (λ e. IsFirstFault (shape_of node.now) e.reason k input.old.now) }
{
    match node {
        SchemaNode::Unit => read_leaf::<EmptyCoder>(alloc, input, k, strict),
        SchemaNode::Never => read_leaf::<AbsentDecoder>(alloc, input, k, strict),
        SchemaNode::Bool => read_leaf::<BoolDecoder>(alloc, input, k, strict),
        SchemaNode::Char => read_leaf::<CheckedIntDecoder<char, u32>>(alloc, input, k, strict),
        SchemaNode::Int(kind) => read_ints(alloc, *kind, input, k, strict),
        SchemaNode::NonZero(kind) => read_nonzeros(alloc, *kind, input, k, strict),
        SchemaNode::F32 => read_leaf::<F32Decoder>(alloc, input, k, strict),
        SchemaNode::F64 => read_leaf::<F64Decoder>(alloc, input, k, strict),
        SchemaNode::Str(capacity) => read_texts(alloc, *capacity, input, k, strict),
        SchemaNode::Duration => read_durations(alloc, input, k, strict),
        SchemaNode::Uuid => read_uuids(alloc, input, k, strict),
        SchemaNode::List(capacity, element) => {
            read_lists(alloc, *capacity, element, input, k, strict)
        }
        SchemaNode::Map(key, value) => read_maps(alloc, key, value, input, k, strict),
        SchemaNode::Array(size, element) => read_arrays(alloc, *size, element, input, k, strict),
        SchemaNode::Tuple(_fields) => read_tuples(alloc, node, input, k, strict),
        SchemaNode::Struct(_fields) => read_tuples(alloc, node, input, k, strict),
        SchemaNode::Option(_some) => read_choices(alloc, node, 2, input, k, strict),
        SchemaNode::Result(_ok, _err) => read_choices(alloc, node, 2, input, k, strict),
        SchemaNode::Enum(variants) => read_enum(alloc, node, variants.len(), input, k, strict),
    }
}

// Reads `k` lists, of at most so many elements if there is a capacity.
#[cycle(read)]
fn read_lists<'a>(
    alloc: Global,
    capacity: Option<usize>,
    element: &SchemaNode,
    input: &mut &'a [u8],
    k: usize,
    strict: bool,
) -> Result<bool, Error>
    requires few { has_few_variants element.now ≡ true }
    ensures read { IfOk result
        (ReadsData (seq_shape capacity (shape_of element.now)) k strict
        input.old.now input.new.now) }
    ensures exact { IfErr result
        (λ e. IsFirstFault (seq_shape capacity (shape_of element.now)) e.reason k
        input.old.now) }
{
    let mut lengths = LengthDecoder::new(alloc);
    let lengths_written = lengths.read(input, k, strict)?;
    let elements_written = read(alloc, element, input, lengths.length(), strict)?;
    if exceed(&mut lengths, k, capacity) {
        return err(Reason::InvalidArrayVec);
    }
    Ok(both(lengths_written, elements_written))
}

// Reads `k` maps.
#[cycle(read)]
fn read_maps<'a>(
    alloc: Global,
    key: &SchemaNode,
    value: &SchemaNode,
    input: &mut &'a [u8],
    k: usize,
    strict: bool,
) -> Result<bool, Error>
    requires few { (has_few_variants key.now ≡ true) × (has_few_variants value.now ≡ true) }
    ensures read { IfOk result
        (ReadsData (map_shape (shape_of key.now) (shape_of value.now)) k strict
        input.old.now input.new.now) }
    ensures exact { IfErr result
        (λ e. IsFirstFault (map_shape (shape_of key.now) (shape_of value.now)) e.reason k
        input.old.now) }
{
    let mut lengths = LengthDecoder::new(alloc);
    let lengths_written = lengths.read(input, k, strict)?;
    let keys_written = read(alloc, key, input, lengths.length(), strict)?;
    let values_written = read(alloc, value, input, lengths.length(), strict)?;
    Ok(both(lengths_written, both(keys_written, values_written)))
}

// Reads `k` arrays of a size.
#[cycle(read)]
fn read_arrays<'a>(
    alloc: Global,
    size: usize,
    element: &SchemaNode,
    input: &mut &'a [u8],
    k: usize,
    strict: bool,
) -> Result<bool, Error>
    requires few { has_few_variants element.now ≡ true }
    ensures read { IfOk result
        (ReadsData (array_shape size (shape_of element.now)) k strict
        input.old.now input.new.now) }
    ensures exact { IfErr result
        (λ e. IsFirstFault (array_shape size (shape_of element.now)) e.reason k
        input.old.now) }
{
    let count = mul_length(k, size)?;
    read(alloc, element, input, count, strict)
}

// Reads `k` tuples of the fields of a node.
#[cycle(read)]
fn read_tuples<'a>(
    alloc: Global,
    node: &SchemaNode,
    input: &mut &'a [u8],
    k: usize,
    strict: bool,
) -> Result<bool, Error>
    requires few { has_few_variants node.now ≡ true }
    ensures read { IfOk result
        (ReadsData (shape_of_fields (fields_of node.now)) k strict
        input.old.now input.new.now) }
    ensures exact { IfErr result
        (λ e. IsFirstFault (shape_of_fields (fields_of node.now)) e.reason k
        input.old.now) }
{
    let count = node.field_count();
    if count == 0 {
        return read_leaf::<EmptyCoder>(alloc, input, k, strict);
    }
    read_fields(alloc, node, 0, count, input, k, strict)
}

// Reads `k` tuples of the fields of a node from one to another.
#[cycle(read)]
fn read_fields<'a>(
    alloc: Global,
    node: &SchemaNode,
    from: usize,
    to: usize,
    input: &mut &'a [u8],
    k: usize,
    strict: bool,
) -> Result<bool, Error>
    requires few { has_few_variants node.now ≡ true }
    requires range { (from < to) × (to ≤ length (fields_of node.now)) }
    ensures read { IfOk result
        (ReadsData (shape_of_fields (fields_between from to node.now)) k strict
        input.old.now input.new.now) }
    ensures exact { IfErr result
        (λ e. IsFirstFault (shape_of_fields (fields_between from to node.now)) e.reason k
        input.old.now) }
{
    let count = to - from;
    if count > 1 {
        let middle = from + count / 2;
        let first_written = read_fields(alloc, node, from, middle, input, k, strict)?;
        let second_written = read_fields(alloc, node, middle, to, input, k, strict)?;
        return Ok(both(first_written, second_written));
    }
    match node.field(from) {
        Some(field) => read(alloc, field, input, k, strict),
        None => unreachable!(),
    }
}

// Reads `k` enums of so many variants.
#[cycle(read)]
fn read_enum<'a>(
    alloc: Global,
    node: &SchemaNode,
    count: usize,
    input: &mut &'a [u8],
    k: usize,
    strict: bool,
) -> Result<bool, Error>
    requires few { has_few_variants node.now ≡ true }
    requires most { count ≤ 256 }
    requires count { length (variant_shapes node.now) ≡ count }
    ensures read { IfOk result
        (ReadsData (enum_shape (variant_shapes node.now)) k strict
        input.old.now input.new.now) }
    ensures exact { IfErr result
        (λ e. IsFirstFault (enum_shape (variant_shapes node.now)) e.reason k
        input.old.now) }
{
    if count == 0 {
        return read_leaf::<AbsentDecoder>(alloc, input, k, strict);
    }
    if count == 1 {
        return read_payloads(alloc, node, 0, input, k, strict);
    }
    read_choices(alloc, node, count, input, k, strict)
}

// Reads `k` choices of a node among so many variants.
#[cycle(read)]
fn read_choices<'a>(
    alloc: Global,
    node: &SchemaNode,
    count: usize,
    input: &mut &'a [u8],
    k: usize,
    strict: bool,
) -> Result<bool, Error>
    requires few { has_few_variants node.now ≡ true }
    requires several { (2 ≤ count) × (count ≤ 256) }
    requires count { length (variant_shapes node.now) ≡ count }
    ensures read { IfOk result
        (ReadsData (choice_shape (shapes_of (variant_shapes node.now))) k strict
        input.old.now input.new.now) }
    ensures exact { IfErr result
        (λ e. IsFirstFault (choice_shape (shapes_of (variant_shapes node.now))) e.reason k
        input.old.now) }
{
    let mut variants = CowSlice::new(alloc);
    let mut written = read_variants(alloc, input, k, count, &mut variants, strict)?;
    for variant in 0..count {
        let number = times(variants.as_slice(), variant);
        let payloads_written = read_payloads(alloc, node, variant, input, number, strict)?;
        written = both(written, payloads_written);
    }
    Ok(written)
}

// Reads `k` payloads of a variant of a node.
#[cycle(read)]
fn read_payloads<'a>(
    alloc: Global,
    node: &SchemaNode,
    variant: usize,
    input: &mut &'a [u8],
    k: usize,
    strict: bool,
) -> Result<bool, Error>
    requires few { has_few_variants node.now ≡ true }
    requires variant { variant < length (variant_shapes node.now) }
    ensures read { IfOk result
        (ReadsData (shape_at variant (shapes_of (variant_shapes node.now))) k strict
        input.old.now input.new.now) }
    ensures exact { IfErr result
        (λ e. IsFirstFault (shape_at variant (shapes_of (variant_shapes node.now))) e.reason k
        input.old.now) }
{
    match node.payload(variant) {
        Some(payload) => read(alloc, payload, input, k, strict),
        None => read_leaf::<EmptyCoder>(alloc, input, k, strict),
    }
}
