//! Counting the nodes of the data of a node, before values are made of them.
ghost use Rattle.std.specs.Prelude.{◌≡◌, ◌<◌, ◌≤◌, true, length, IfOk};
ghost use Rattle.bitcode_shapes.specs.Datum.{Datum};
ghost use Rattle.bitcode_shapes.specs.Shape.{IsOf, seq_shape, map_shape, array_shape, choice_shape};
ghost use Rattle.bitcode_enums.specs.ByNumber.{shape_at};
ghost use Rattle.bitcode_untyped.specs.Nodes.{node_count};
ghost use Rattle.bitcode_schema.specs.Counting.{CountsNodes};
ghost use Rattle.bitcode_schema.specs.Depth.{has_few_variants};
ghost use Rattle.bitcode_schema.specs.Forms.{shape_of, shapes_of, enum_shape};
ghost use Rattle.bitcode_schema.specs.Reading.{fields_of, fields_between, shape_of_fields, variant_shapes};

use crate::choices::{read_variants, times};
use crate::leaves::read_leaf;
use crate::make::leaf_values::capped_lengths;
use crate::read::read;
use crate::schema::SchemaNode;
use bitcode_derive::absent::AbsentDecoder;
use bitcode_memory::consume::mul_length;
use bitcode_memory::error::Error;
use bitcode_memory::fast::CowSlice;
use bitcode_parts::empty::EmptyCoder;
use std::alloc::Global;

// The nodes of a duration: the pair, the seconds and the nanoseconds.
const DURATION_NODES: usize = 3;

// The nodes of an id: the list, and its bytes.
const ID_NODES: usize = 17;

/// Reads `k` data of a node from the front of the input, and counts their nodes.
#[cycle(count)]
pub(crate) fn count<'a>(
    alloc: Global,
    node: &SchemaNode,
    input: &mut &'a [u8],
    k: usize,
) -> Result<u128, Error>
    requires few { has_few_variants node.now ≡ true }
    ensures counted { IfOk result
        (λ nodes. CountsNodes (shape_of node.now) k input.old.now input.new.now nodes) }
{
    match node {
        SchemaNode::Duration => count_leaves(alloc, node, DURATION_NODES, input, k),
        SchemaNode::Uuid => count_leaves(alloc, node, ID_NODES, input, k),
        SchemaNode::List(capacity, element) => count_lists(alloc, *capacity, element, input, k),
        SchemaNode::Map(key, value) => count_maps(alloc, key, value, input, k),
        SchemaNode::Array(size, element) => count_arrays(alloc, *size, element, input, k),
        SchemaNode::Tuple(_fields) => count_tuples(alloc, node, input, k),
        SchemaNode::Struct(_fields) => count_tuples(alloc, node, input, k),
        SchemaNode::Option(_some) => count_choices(alloc, node, 2, input, k),
        SchemaNode::Result(_ok, _err) => count_choices(alloc, node, 2, input, k),
        SchemaNode::Enum(variants) => count_enum(alloc, node, variants.len(), input, k),
        _ => count_leaves(alloc, node, 1, input, k),
    }
}

// Reads `k` data of a node that have so many nodes each.
fn count_leaves<'a>(
    alloc: Global,
    node: &SchemaNode,
    nodes: usize,
    input: &mut &'a [u8],
    k: usize,
) -> Result<u128, Error>
    requires few { has_few_variants node.now ≡ true }
    ensures counted { ((d : Datum) → IsOf (shape_of node.now) d → node_count d ≡ nodes)
        → IfOk result
        (λ all. CountsNodes (shape_of node.now) k input.old.now input.new.now all) }
{
    read(alloc, node, input, k, false)?;
    Ok((k as u128).saturating_mul(nodes as u128))
}

// Counts the nodes of `k` lists: themselves, and those of their elements.
#[cycle(count)]
fn count_lists<'a>(
    alloc: Global,
    capacity: Option<usize>,
    element: &SchemaNode,
    input: &mut &'a [u8],
    k: usize,
) -> Result<u128, Error>
    requires few { has_few_variants element.now ≡ true }
    ensures counted { IfOk result
        (λ nodes. CountsNodes (seq_shape capacity (shape_of element.now)) k
        input.old.now input.new.now nodes) }
{
    let lengths = capped_lengths(alloc, capacity, input, k)?;
    let elements = count(alloc, element, input, lengths.length())?;
    Ok(elements.saturating_add(k as u128))
}

// Counts the nodes of `k` maps: themselves, the pairs, and those of their keys and values.
#[cycle(count)]
fn count_maps<'a>(
    alloc: Global,
    key: &SchemaNode,
    value: &SchemaNode,
    input: &mut &'a [u8],
    k: usize,
) -> Result<u128, Error>
    requires few { (has_few_variants key.now ≡ true) × (has_few_variants value.now ≡ true) }
    ensures counted { IfOk result
        (λ nodes. CountsNodes (map_shape (shape_of key.now) (shape_of value.now)) k
        input.old.now input.new.now nodes) }
{
    let lengths = capped_lengths(alloc, None, input, k)?;
    let pairs = lengths.length();
    let keys = count(alloc, key, input, pairs)?;
    let values = count(alloc, value, input, pairs)?;
    let inside = keys.saturating_add(values).saturating_add(pairs as u128);
    Ok(inside.saturating_add(k as u128))
}

// Counts the nodes of `k` arrays of a size.
#[cycle(count)]
fn count_arrays<'a>(
    alloc: Global,
    size: usize,
    element: &SchemaNode,
    input: &mut &'a [u8],
    k: usize,
) -> Result<u128, Error>
    requires few { has_few_variants element.now ≡ true }
    ensures counted { IfOk result
        (λ nodes. CountsNodes (array_shape size (shape_of element.now)) k
        input.old.now input.new.now nodes) }
{
    let number = mul_length(k, size)?;
    let elements = count(alloc, element, input, number)?;
    Ok(elements.saturating_add(k as u128))
}

// Counts the nodes of `k` tuples of the fields of a node.
#[cycle(count)]
fn count_tuples<'a>(
    alloc: Global,
    node: &SchemaNode,
    input: &mut &'a [u8],
    k: usize,
) -> Result<u128, Error>
    requires few { has_few_variants node.now ≡ true }
    ensures counted { IfOk result
        (λ nodes. CountsNodes (shape_of_fields (fields_of node.now)) k
        input.old.now input.new.now nodes) }
{
    let fields = node.field_count();
    if fields == 0 {
        read_leaf::<EmptyCoder>(alloc, input, k, false)?;
        return Ok(k as u128);
    }
    count_fields(alloc, node, 0, fields, input, k)
}

// Counts the nodes of `k` rows of the fields of a node from one to another. Two parts of a row are a pair.
#[cycle(count)]
fn count_fields<'a>(
    alloc: Global,
    node: &SchemaNode,
    from: usize,
    to: usize,
    input: &mut &'a [u8],
    k: usize,
) -> Result<u128, Error>
    requires few { has_few_variants node.now ≡ true }
    requires range { (from < to) × (to ≤ length (fields_of node.now)) }
    ensures counted { IfOk result
        (λ nodes. CountsNodes (shape_of_fields (fields_between from to node.now)) k
        input.old.now input.new.now nodes) }
{
    let fields = to - from;
    if fields > 1 {
        let middle = from + fields / 2;
        let first = count_fields(alloc, node, from, middle, input, k)?;
        let second = count_fields(alloc, node, middle, to, input, k)?;
        return Ok(first.saturating_add(second).saturating_add(k as u128));
    }
    match node.field(from) {
        Some(field) => count(alloc, field, input, k),
        None => unreachable!(),
    }
}

// Counts the nodes of `k` enums of so many variants.
#[cycle(count)]
fn count_enum<'a>(
    alloc: Global,
    node: &SchemaNode,
    variants: usize,
    input: &mut &'a [u8],
    k: usize,
) -> Result<u128, Error>
    requires few { has_few_variants node.now ≡ true }
    requires most { variants ≤ 256 }
    requires count { length (variant_shapes node.now) ≡ variants }
    ensures counted { IfOk result
        (λ nodes. CountsNodes (enum_shape (variant_shapes node.now)) k
        input.old.now input.new.now nodes) }
{
    if variants == 0 {
        read_leaf::<AbsentDecoder>(alloc, input, k, false)?;
        return Ok(0);
    }
    if variants == 1 {
        return count_payloads(alloc, node, 0, input, k);
    }
    count_choices(alloc, node, variants, input, k)
}

// Counts the nodes of `k` choices of a node among so many variants: themselves, and those of their payloads.
#[cycle(count)]
fn count_choices<'a>(
    alloc: Global,
    node: &SchemaNode,
    variants: usize,
    input: &mut &'a [u8],
    k: usize,
) -> Result<u128, Error>
    requires few { has_few_variants node.now ≡ true }
    requires several { (2 ≤ variants) × (variants ≤ 256) }
    requires count { length (variant_shapes node.now) ≡ variants }
    ensures counted { IfOk result
        (λ nodes. CountsNodes (choice_shape (shapes_of (variant_shapes node.now))) k
        input.old.now input.new.now nodes) }
{
    let mut entries = CowSlice::new(alloc);
    read_variants(alloc, input, k, variants, &mut entries, false)?;
    let mut nodes = k as u128;
    for variant in 0..variants {
        let number = times(entries.as_slice(), variant);
        let payloads = count_payloads(alloc, node, variant, input, number)?;
        nodes = nodes.saturating_add(payloads);
    }
    Ok(nodes)
}

// Counts the nodes of `k` payloads of a variant of a node.
#[cycle(count)]
fn count_payloads<'a>(
    alloc: Global,
    node: &SchemaNode,
    variant: usize,
    input: &mut &'a [u8],
    k: usize,
) -> Result<u128, Error>
    requires few { has_few_variants node.now ≡ true }
    requires variant { variant < length (variant_shapes node.now) }
    ensures counted { IfOk result
        (λ nodes. CountsNodes (shape_at variant (shapes_of (variant_shapes node.now))) k
        input.old.now input.new.now nodes) }
{
    match node.payload(variant) {
        Some(payload) => count(alloc, payload, input, k),
        None => {
            read_leaf::<EmptyCoder>(alloc, input, k, false)?;
            Ok(k as u128)
        }
    }
}
