//! Values of the data of a node.
ghost use Rattle.std.specs.Prelude.{◌≡◌, ◌<◌, ◌≤◌, true, length, IfOk};
ghost use Rattle.bitcode_shapes.specs.Shape.{seq_shape, map_shape, array_shape, choice_shape};
ghost use Rattle.bitcode_enums.specs.ByNumber.{shape_at};
ghost use Rattle.bitcode_schema.specs.Depth.{has_few_variants};
ghost use Rattle.bitcode_schema.specs.Forms.{content_under, shape_of, shapes_of, enum_shape, enum_content};
ghost use Rattle.bitcode_schema.specs.Forms.{list_content, pair_content, fields_content};
ghost use Rattle.bitcode_schema.specs.Making.{MakesData, MakesPayloads, variant_contents};
ghost use Rattle.bitcode_schema.specs.Parts.{choice_under, enum_under, contents_of};
ghost use Rattle.bitcode_schema.specs.Reading.{fields_of, fields_between, shape_of_fields, variant_shapes};
ghost use Rattle.bitcode_schema.specs.Views.{under, elements_of, pairs_of, enum_of, fields_of as row_of};

use crate::choices::{read_variants, times};
use crate::make::deal::deal;
use crate::make::gather::{AsMap, AsSeq, arrays, each, lists, zipped};
use crate::make::leaf_values::{
    capped_lengths, make_durations, make_ints, make_leaf, make_never, make_nonzeros, make_texts,
    make_units, make_uuids,
};
use crate::make::turns::{AsEnum, AsField, AsFirst, AsNoFields, AsOption, AsRow, AsTuple};
use crate::schema::SchemaNode;
use bitcode_coder::bool::BoolDecoder;
use bitcode_floats::float32::F32Decoder;
use bitcode_floats::float64::F64Decoder;
use bitcode_ints::checked::CheckedIntDecoder;
use bitcode_memory::consume::mul_length;
use bitcode_memory::error::Error;
use bitcode_memory::fast::CowSlice;
use bitcode_untyped::value::Value;
use std::alloc::Global;
use std::collections::VecDeque;

mod becomes;
pub(crate) mod count;
mod deal;
mod gather;
mod leaf_values;
mod turns;

/// Reads `k` data of a node from the front of the input, and makes values of them.
#[cycle(make)]
pub(crate) fn make<'a>(
    alloc: Global,
    node: &SchemaNode,
    input: &mut &'a [u8],
    k: usize,
) -> Result<VecDeque<Value>, Error>
    requires few { has_few_variants node.now ≡ true }
    ensures made { IfOk result
        (λ values. MakesData (shape_of node.now) (content_under node.now) k
        input.old.now input.new.now values.items) }
{
    match node {
        SchemaNode::Unit => make_units(alloc, input, k),
        SchemaNode::Never => make_never(alloc, input, k),
        SchemaNode::Bool => make_leaf::<bool, BoolDecoder>(alloc, input, k),
        SchemaNode::Char => { make_leaf::<char, CheckedIntDecoder<char, u32>>(alloc, input, k) }
        SchemaNode::Int(kind) => make_ints(alloc, *kind, input, k),
        SchemaNode::NonZero(kind) => make_nonzeros(alloc, *kind, input, k),
        SchemaNode::F32 => make_leaf::<f32, F32Decoder>(alloc, input, k),
        SchemaNode::F64 => make_leaf::<f64, F64Decoder>(alloc, input, k),
        SchemaNode::Str(capacity) => make_texts(alloc, *capacity, input, k),
        SchemaNode::Duration => make_durations(alloc, input, k),
        SchemaNode::Uuid => make_uuids(alloc, input, k),
        SchemaNode::List(capacity, element) => make_lists(alloc, *capacity, element, input, k),
        SchemaNode::Map(key, value) => make_maps(alloc, key, value, input, k),
        SchemaNode::Array(size, element) => make_arrays(alloc, *size, element, input, k),
        SchemaNode::Tuple(_fields) => make_tuples(alloc, node, input, k),
        SchemaNode::Struct(_fields) => make_tuples(alloc, node, input, k),
        SchemaNode::Option(_some) => {
            let choices = make_choices(alloc, node, 2, input, k)?;
            each::<(u8, Value), Value, AsOption>(alloc, choices)
        }
        SchemaNode::Result(_ok, _err) => {
            let choices = make_choices(alloc, node, 2, input, k)?;
            each::<(u8, Value), Value, AsEnum>(alloc, choices)
        }
        SchemaNode::Enum(variants) => make_enum(alloc, node, variants.len(), input, k),
    }
}

// Makes `k` lists, of at most so many elements if there is a capacity.
#[cycle(make)]
fn make_lists<'a>(
    alloc: Global,
    capacity: Option<usize>,
    element: &SchemaNode,
    input: &mut &'a [u8],
    k: usize,
) -> Result<VecDeque<Value>, Error>
    requires few { has_few_variants element.now ≡ true }
    ensures made { IfOk result
        (λ values. MakesData (seq_shape capacity (shape_of element.now))
        (λ v. under (elements_of v) (list_content (content_under element.now))) k
        input.old.now input.new.now values.items) }
{
    let mut lengths = capped_lengths(alloc, capacity, input, k)?;
    let elements = make(alloc, element, input, lengths.length())?;
    lists::<Value, AsSeq>(alloc, &mut lengths, k, elements)
}

// Makes `k` maps.
#[cycle(make)]
fn make_maps<'a>(
    alloc: Global,
    key: &SchemaNode,
    value: &SchemaNode,
    input: &mut &'a [u8],
    k: usize,
) -> Result<VecDeque<Value>, Error>
    requires few { (has_few_variants key.now ≡ true) × (has_few_variants value.now ≡ true) }
    ensures made { IfOk result
        (λ values. MakesData (map_shape (shape_of key.now) (shape_of value.now))
        (λ v. under (pairs_of v)
        (list_content (pair_content (content_under key.now) (content_under value.now)))) k
        input.old.now input.new.now values.items) }
{
    let mut lengths = capped_lengths(alloc, None, input, k)?;
    let keys = make(alloc, key, input, lengths.length())?;
    let values = make(alloc, value, input, lengths.length())?;
    let pairs = zipped(alloc, keys, values)?;
    lists::<(Value, Value), AsMap>(alloc, &mut lengths, k, pairs)
}

// Makes `k` arrays of a size.
#[cycle(make)]
fn make_arrays<'a>(
    alloc: Global,
    size: usize,
    element: &SchemaNode,
    input: &mut &'a [u8],
    k: usize,
) -> Result<VecDeque<Value>, Error>
    requires few { has_few_variants element.now ≡ true }
    ensures made { IfOk result
        (λ values. MakesData (array_shape size (shape_of element.now))
        (λ v. under (elements_of v) (list_content (content_under element.now))) k
        input.old.now input.new.now values.items) }
{
    let count = mul_length(k, size)?;
    let elements = make(alloc, element, input, count)?;
    arrays(alloc, size, k, elements)
}

// Makes `k` tuples of the fields of a node.
#[cycle(make)]
fn make_tuples<'a>(
    alloc: Global,
    node: &SchemaNode,
    input: &mut &'a [u8],
    k: usize,
) -> Result<VecDeque<Value>, Error>
    requires few { has_few_variants node.now ≡ true }
    ensures made { IfOk result
        (λ values. MakesData (shape_of_fields (fields_of node.now))
        (λ v. under (row_of v) (fields_content (contents_of (fields_of node.now)))) k
        input.old.now input.new.now values.items) }
{
    let count = node.field_count();
    if count == 0 {
        let units = make_units(alloc, input, k)?;
        return each::<Value, Value, AsNoFields>(alloc, units);
    }
    let rows = make_fields(alloc, node, 0, count, input, k)?;
    each::<Vec<Value>, Value, AsTuple>(alloc, rows)
}

// Makes `k` rows of the fields of a node from one to another.
#[cycle(make)]
fn make_fields<'a>(
    alloc: Global,
    node: &SchemaNode,
    from: usize,
    to: usize,
    input: &mut &'a [u8],
    k: usize,
) -> Result<VecDeque<Vec<Value>>, Error>
    requires few { has_few_variants node.now ≡ true }
    requires range { (from < to) × (to ≤ length (fields_of node.now)) }
    ensures made { IfOk result
        (λ rows. MakesData (shape_of_fields (fields_between from to node.now))
        (λ row. fields_content (contents_of (fields_between from to node.now)) row.items) k
        input.old.now input.new.now rows.items) }
{
    let count = to - from;
    if count > 1 {
        let middle = from + count / 2;
        let first = make_fields(alloc, node, from, middle, input, k)?;
        let second = make_fields(alloc, node, middle, to, input, k)?;
        let halves = zipped(alloc, first, second)?;
        return each::<(Vec<Value>, Vec<Value>), Vec<Value>, AsRow>(alloc, halves);
    }
    match node.field(from) {
        Some(field) => {
            let values = make(alloc, field, input, k)?;
            each::<Value, Vec<Value>, AsField>(alloc, values)
        }
        None => unreachable!(),
    }
}

// Makes `k` enums of so many variants.
#[cycle(make)]
fn make_enum<'a>(
    alloc: Global,
    node: &SchemaNode,
    count: usize,
    input: &mut &'a [u8],
    k: usize,
) -> Result<VecDeque<Value>, Error>
    requires few { has_few_variants node.now ≡ true }
    requires most { count ≤ 256 }
    requires count { length (variant_shapes node.now) ≡ count }
    ensures made { IfOk result
        (λ values. MakesData (enum_shape (variant_shapes node.now))
        (λ v. under (enum_of v) (enum_under (variant_contents node.now))) k
        input.old.now input.new.now values.items) }
{
    if count == 0 {
        return make_never(alloc, input, k);
    }
    if count == 1 {
        let payloads = make_payloads(alloc, node, 0, input, k)?;
        return each::<Value, Value, AsFirst>(alloc, payloads);
    }
    let choices = make_choices(alloc, node, count, input, k)?;
    each::<(u8, Value), Value, AsEnum>(alloc, choices)
}

// Makes `k` choices of a node among so many variants.
#[cycle(make)]
fn make_choices<'a>(
    alloc: Global,
    node: &SchemaNode,
    count: usize,
    input: &mut &'a [u8],
    k: usize,
) -> Result<VecDeque<(u8, Value)>, Error>
    requires few { has_few_variants node.now ≡ true }
    requires several { (2 ≤ count) × (count ≤ 256) }
    requires count { length (variant_shapes node.now) ≡ count }
    ensures made { IfOk result
        (λ choices. MakesData (choice_shape (shapes_of (variant_shapes node.now)))
        (choice_under (variant_contents node.now)) k
        input.old.now input.new.now choices.items) }
{
    let mut variants = CowSlice::new(alloc);
    read_variants(alloc, input, k, count, &mut variants, false)?;
    let mut payloads = Vec::with_capacity(alloc, count)?;
    for variant in 0..count {
        let number = times(variants.as_slice(), variant);
        payloads.push_reserved(make_payloads(alloc, node, variant, input, number)?);
    }
    deal(alloc, variants.as_slice(), payloads)
}

// Makes `k` payloads of a variant of a node.
#[cycle(make)]
fn make_payloads<'a>(
    alloc: Global,
    node: &SchemaNode,
    variant: usize,
    input: &mut &'a [u8],
    k: usize,
) -> Result<VecDeque<Value>, Error>
    requires few { has_few_variants node.now ≡ true }
    requires variant { variant < length (variant_shapes node.now) }
    ensures made { IfOk result
        (λ values. MakesPayloads node.now variant k
        input.old.now input.new.now values.items) }
{
    match node.payload(variant) {
        Some(payload) => make(alloc, payload, input, k),
        None => make_units(alloc, input, k),
    }
}
