//! Writing the columns of several values of one node.
ghost use Rattle.std.specs.Prelude.{◌≡◌, ◌+◌, ◌^◌, ◌<◌, ◌≤◌, Some, None, [], ◌∷◌, length, map, true, false, All};
ghost use Rattle.std.specs.Prelude.{OnOk, IfOk, IfErr};
ghost use Rattle.bitcode_coder.specs.Columns.{texts};
ghost use Rattle.bitcode_memory.specs.declared.error.Reason.TheVariants.{OutOfMemory};
ghost use Rattle.bitcode_shapes.specs.Checked.{nonzero_shape, nanosecond_shape};
ghost use Rattle.bitcode_shapes.specs.Ints.{int_shape};
ghost use Rattle.bitcode_shapes.specs.Shape.{array_shape, choice_shape, map_shape, never_shape, pair_shape, seq_shape};
ghost use Rattle.bitcode_shapes.specs.Shape.{text_shape, unit_shape, no_shapes, shape_and};
ghost use Rattle.bitcode_untyped.specs.Leaves.{leaf_of};
ghost use Rattle.bitcode_untyped.specs.declared.value.Value.{out-Value};
ghost use Rattle.bitcode_schema.specs.Choosing.{chosen, shapes_from};
ghost use Rattle.bitcode_schema.specs.Depth.{has_few_variants};
ghost use Rattle.bitcode_schema.specs.Forms.{content_under, enum_shape, fields_content};
ghost use Rattle.bitcode_schema.specs.Forms.{Content, fields_shape, leaf_content, list_content, pair_content};
ghost use Rattle.bitcode_schema.specs.Forms.{parts_of, span_contents};
ghost use Rattle.bitcode_schema.specs.Forms.{shape_of};
ghost use Rattle.bitcode_schema.specs.Leaves.{int_leaf, is_signed, width_of};
ghost use Rattle.bitcode_schema.specs.Parts.{choice_under, contents_of, enum_under, option_content, payloads_under};
ghost use Rattle.bitcode_schema.specs.Parts.{row_content, unit_content};
ghost use Rattle.bitcode_schema.specs.Views.{elements_of, enum_of, fields_of, option_of, pairs_of, under, variant_in};
ghost use Rattle.bitcode_schema.specs.Writing.{HasStranger, IsRefusal, Writes};
ghost use Rattle.bitcode_schema.specs.declared.schema.IntKind.TheVariants as int;

use crate::schema::{IntKind, SchemaNode};
use crate::write::allowed::{are_below_second, are_nonzero, are_short};
use crate::write::cases::{enums, lists, maps, options, tuples};
use crate::write::entries::{write_lengths, write_variants};
use crate::write::gather::{
    are_of_size, are_within, enum_variants, fields, flatten, option_variants, payloads, somes,
    split,
};
use crate::write::leaf::write_leaf;
use bitcode_coder::bool::BoolEncoder;
use bitcode_coder::str::StrEncoder;
use bitcode_floats::float32::F32Encoder;
use bitcode_floats::float64::F64Encoder;
use bitcode_ints::int::IntEncoder;
use bitcode_ints::signed_coders::{I8Encoder, I16Encoder, I32Encoder, I64Encoder, I128Encoder};
use bitcode_ints::unsigned_coders::{U8Encoder, U16Encoder, U32Encoder, U64Encoder, U128Encoder};
use bitcode_memory::error::{Error, Reason};
use bitcode_memory::refuse::err;
use bitcode_untyped::value::Value;
use std::alloc::Global;

mod allowed;
mod cases;
mod entries;
mod gather;
mod in_case;
mod leaf;

// The bytes of an id.
const ID_BYTES: usize = 16;

// Appends the column of integers of a kind.
fn write_ints(
    alloc: Global,
    kind: IntKind,
    values: &[&Value],
    out: &mut Vec<u8>,
) -> Result<(), Error>
    ensures written { OnOk result
        (Writes (leaf_content (Some (int_leaf kind))) (int_shape (width_of kind) (is_signed kind))
        (map (λ v. v.now) values.now) out.old.items out.new.items) }
    ensures refused { IfErr result
        (λ e. IsRefusal e.reason
        (HasStranger (leaf_content (Some (int_leaf kind)))
        (int_shape (width_of kind) (is_signed kind)) (map (λ v. v.now) values.now))) }
{
    match kind {
        IntKind::U8 => write_leaf::<u8, U8Encoder>(alloc, values, out),
        IntKind::U16 => write_leaf::<u16, U16Encoder>(alloc, values, out),
        IntKind::U32 => write_leaf::<u32, U32Encoder>(alloc, values, out),
        IntKind::U64 => write_leaf::<u64, U64Encoder>(alloc, values, out),
        IntKind::U128 => write_leaf::<u128, U128Encoder>(alloc, values, out),
        IntKind::I8 => write_leaf::<i8, I8Encoder>(alloc, values, out),
        IntKind::I16 => write_leaf::<i16, I16Encoder>(alloc, values, out),
        IntKind::I32 => write_leaf::<i32, I32Encoder>(alloc, values, out),
        IntKind::I64 => write_leaf::<i64, I64Encoder>(alloc, values, out),
        IntKind::I128 => write_leaf::<i128, I128Encoder>(alloc, values, out),
    }
}

// Appends the column of integers except 0.
fn write_nonzeros(
    alloc: Global,
    kind: IntKind,
    values: &[&Value],
    out: &mut Vec<u8>,
) -> Result<(), Error>
    ensures written { OnOk result
        (Writes (leaf_content (Some (int_leaf kind)))
        (nonzero_shape (width_of kind) (is_signed kind)) (map (λ v. v.now) values.now)
        out.old.items out.new.items) }
    ensures refused { IfErr result
        (λ e. IsRefusal e.reason
        (HasStranger (leaf_content (Some (int_leaf kind)))
        (nonzero_shape (width_of kind) (is_signed kind)) (map (λ v. v.now) values.now))) }
{
    if !are_nonzero(values) {
        return err(Reason::NotOfTheShape);
    }
    write_ints(alloc, kind, values, out)
}

// Appends the column of texts of at most so many bytes.
fn write_texts(
    alloc: Global,
    capacity: Option<usize>,
    values: &[&Value],
    out: &mut Vec<u8>,
) -> Result<(), Error>
    ensures written { OnOk result
        (Writes (leaf_content (Some (leaf_of (texts None)))) (text_shape capacity)
        (map (λ v. v.now) values.now) out.old.items out.new.items) }
    ensures refused { IfErr result
        (λ e. IsRefusal e.reason
        (HasStranger (leaf_content (Some (leaf_of (texts None)))) (text_shape capacity)
        (map (λ v. v.now) values.now))) }
{
    let Some(limit) = capacity else {
        return write_leaf::<String, StrEncoder>(alloc, values, out);
    };
    if !are_short(limit, values) {
        return err(Reason::NotOfTheShape);
    }
    write_leaf::<String, StrEncoder>(alloc, values, out)
}

// Appends the column of numbers of nanoseconds below a second.
fn write_nanoseconds(alloc: Global, values: &[&Value], out: &mut Vec<u8>) -> Result<(), Error>
    ensures written { OnOk result
        (Writes (leaf_content (Some (int_leaf int.U32))) nanosecond_shape
        (map (λ v. v.now) values.now) out.old.items out.new.items) }
    ensures refused { IfErr result
        (λ e. IsRefusal e.reason
        (HasStranger (leaf_content (Some (int_leaf int.U32))) nanosecond_shape
        (map (λ v. v.now) values.now))) }
{
    if !are_below_second(values) {
        return err(Reason::NotOfTheShape);
    }
    write_leaf::<u32, U32Encoder>(alloc, values, out)
}

// Appends the columns of the seconds and the nanoseconds of durations.
fn write_spans(alloc: Global, values: &[&Value], out: &mut Vec<u8>) -> Result<(), Error>
    ensures written { OnOk result
        (Writes (λ v. under (fields_of v) (fields_content span_contents))
        (pair_shape (int_shape 8 false) nanosecond_shape) (map (λ v. v.now) values.now)
        out.old.items out.new.items) }
    ensures refused { IfErr result
        (λ e. IsRefusal e.reason
        (HasStranger (λ v. under (fields_of v) (fields_content span_contents))
        (pair_shape (int_shape 8 false) nanosecond_shape) (map (λ v. v.now) values.now))) }
{
    let rows = tuples(alloc, values)?;
    if !are_of_size(2, &rows) {
        return err(Reason::NotOfTheShape);
    }
    let seconds = fields(alloc, &rows, 0)?;
    let nanoseconds = fields(alloc, &rows, 1)?;
    write_leaf::<u64, U64Encoder>(alloc, &seconds, out)?;
    write_nanoseconds(alloc, &nanoseconds, out)
}

// Appends the column of the bytes of ids.
fn write_ids(alloc: Global, values: &[&Value], out: &mut Vec<u8>) -> Result<(), Error>
    ensures written { OnOk result
        (Writes (λ v. under (elements_of v) (list_content (leaf_content (Some (int_leaf int.U8)))))
        (array_shape 16 (int_shape 1 false)) (map (λ v. v.now) values.now) out.old.items
        out.new.items) }
    ensures refused { IfErr result
        (λ e. IsRefusal e.reason
        (HasStranger
        (λ v. under (elements_of v) (list_content (leaf_content (Some (int_leaf int.U8)))))
        (array_shape 16 (int_shape 1 false)) (map (λ v. v.now) values.now))) }
{
    let held = lists(alloc, values)?;
    if !are_of_size(ID_BYTES, &held) {
        return err(Reason::NotOfTheShape);
    }
    let parts = flatten(alloc, &held)?;
    write_leaf::<u8, U8Encoder>(alloc, &parts, out)
}

// All values are units, which have no column.
fn write_units(values: &[&Value], _out: &mut Vec<u8>) -> Result<(), Error>
    ensures written { OnOk result
        (Writes (λ v. unit_content (out-Value v)) unit_shape (map (λ v. v.now) values.now)
        _out.old.items _out.new.items) }
    ensures refused { IfErr result
        (λ e. IsRefusal e.reason
        (HasStranger (λ v. unit_content (out-Value v)) unit_shape (map (λ v. v.now) values.now))) }
{
    for value in values {
        match value {
            Value::Unit => {}
            _ => return err(Reason::NotOfTheShape),
        }
    }
    Ok(())
}

// References to the nodes.
fn each_node<'a>(alloc: Global, nodes: &'a [SchemaNode]) -> Result<Vec<&'a SchemaNode>, Error>
    ensures same { IfOk result (λ parts. map (λ n. n.now) parts.items ≡ nodes.now) }
    ensures refused { IfErr result (λ e. e.reason ≡ OutOfMemory) }
{
    let mut parts = Vec::new(alloc);
    for node in nodes {
        parts.push(node)?;
    }
    Ok(parts)
}

// References to the nodes of named fields or variants.
fn named_nodes<'a>(
    alloc: Global,
    named: &'a [(String, SchemaNode)],
) -> Result<Vec<&'a SchemaNode>, Error>
    ensures same { IfOk result (λ parts. map (λ n. n.now) parts.items ≡ parts_of named.now) }
    ensures refused { IfErr result (λ e. e.reason ≡ OutOfMemory) }
{
    let mut parts = Vec::new(alloc);
    for part in named {
        parts.push(&part.1)?;
    }
    Ok(parts)
}

// Of a node without values there is none.
fn write_never(values: &[&Value], _out: &mut Vec<u8>) -> Result<(), Error>
    ensures written { (content : Content) → OnOk result
        (Writes content never_shape (map (λ v. v.now) values.now) _out.old.items _out.new.items) }
    ensures refused { (content : Content) → IfErr result
        (λ e. IsRefusal e.reason
        (HasStranger content never_shape (map (λ v. v.now) values.now))) }
{
    if values.is_empty() {
        return Ok(());
    }
    err(Reason::NotOfTheShape)
}

// Appends the columns of lists of at most so many elements.
#[cycle(write)]
fn write_lists(
    alloc: Global,
    capacity: Option<usize>,
    element: &SchemaNode,
    values: &[&Value],
    out: &mut Vec<u8>,
) -> Result<(), Error>
    requires few { has_few_variants element.now ≡ true }
    ensures written { OnOk result
        (Writes (λ v. under (elements_of v) (list_content (content_under element.now)))
        (seq_shape capacity (shape_of element.now)) (map (λ v. v.now) values.now) out.old.items
        out.new.items) }
    ensures refused { IfErr result
        (λ e. IsRefusal e.reason
        (HasStranger (λ v. under (elements_of v) (list_content (content_under element.now)))
        (seq_shape capacity (shape_of element.now)) (map (λ v. v.now) values.now))) }
{
    let held = lists(alloc, values)?;
    if !are_within(capacity, &held) {
        return err(Reason::NotOfTheShape);
    }
    write_lengths(alloc, &held, out)?;
    let parts = flatten(alloc, &held)?;
    write_each(alloc, element, &parts, out)
}

// Appends the columns of maps.
#[cycle(write)]
fn write_maps(
    alloc: Global,
    key: &SchemaNode,
    value: &SchemaNode,
    values: &[&Value],
    out: &mut Vec<u8>,
) -> Result<(), Error>
    requires keys { has_few_variants key.now ≡ true }
    requires values { has_few_variants value.now ≡ true }
    ensures written { OnOk result
        (Writes (λ v. under (pairs_of v)
        (list_content (pair_content (content_under key.now) (content_under value.now))))
        (map_shape (shape_of key.now) (shape_of value.now)) (map (λ v. v.now) values.now)
        out.old.items out.new.items) }
    ensures refused { IfErr result
        (λ e. IsRefusal e.reason
        (HasStranger (λ v. under (pairs_of v)
        (list_content (pair_content (content_under key.now) (content_under value.now))))
        (map_shape (shape_of key.now) (shape_of value.now)) (map (λ v. v.now) values.now))) }
{
    let held = maps(alloc, values)?;
    write_lengths(alloc, &held, out)?;
    let (keys, parts) = split(alloc, &held)?;
    write_each(alloc, key, &keys, out)?;
    write_each(alloc, value, &parts, out)
}

// Appends the columns of arrays of one size.
#[cycle(write)]
fn write_arrays(
    alloc: Global,
    size: usize,
    element: &SchemaNode,
    values: &[&Value],
    out: &mut Vec<u8>,
) -> Result<(), Error>
    requires few { has_few_variants element.now ≡ true }
    ensures written { OnOk result
        (Writes (λ v. under (elements_of v) (list_content (content_under element.now)))
        (array_shape size (shape_of element.now)) (map (λ v. v.now) values.now) out.old.items
        out.new.items) }
    ensures refused { IfErr result
        (λ e. IsRefusal e.reason
        (HasStranger (λ v. under (elements_of v) (list_content (content_under element.now)))
        (array_shape size (shape_of element.now)) (map (λ v. v.now) values.now))) }
{
    let held = lists(alloc, values)?;
    if !are_of_size(size, &held) {
        return err(Reason::NotOfTheShape);
    }
    let parts = flatten(alloc, &held)?;
    write_each(alloc, element, &parts, out)
}

// Appends the columns of some fields of rows, from one on.
#[cycle(write)]
fn write_fields(
    alloc: Global,
    nodes: &[&SchemaNode],
    at: usize,
    rows: &[&[Value]],
    out: &mut Vec<u8>,
) -> Result<(), Error>
    requires few { All (λ n. has_few_variants n ≡ true) (map (λ n. n.now) nodes.now) }
    requires some { 0 < length nodes.now }
    requires fits { at + length nodes.now < 2 ^ 64 }
    ensures written { OnOk result
        (Writes (row_content (contents_of (map (λ n. n.now) nodes.now)) at)
        (fields_shape (map shape_of (map (λ n. n.now) nodes.now))) (map (λ r. r.now) rows.now)
        out.old.items out.new.items) }
    ensures refused { IfErr result
        (λ e. IsRefusal e.reason
        (HasStranger (row_content (contents_of (map (λ n. n.now) nodes.now)) at)
        (fields_shape (map shape_of (map (λ n. n.now) nodes.now))) (map (λ r. r.now) rows.now))) }
{
    let count = nodes.len();
    if count > 1 {
        let (front, back) = nodes.split_at(count / 2);
        write_fields(alloc, front, at, rows, out)?;
        return write_fields(alloc, back, at + count / 2, rows, out);
    }
    let node = nodes[0];
    let parts = fields(alloc, rows, at)?;
    write_each(alloc, node, &parts, out)
}

// Appends the columns of the fields of tuples.
#[cycle(write)]
fn write_rows(
    alloc: Global,
    nodes: &[&SchemaNode],
    values: &[&Value],
    out: &mut Vec<u8>,
) -> Result<(), Error>
    requires few { All (λ n. has_few_variants n ≡ true) (map (λ n. n.now) nodes.now) }
    ensures written { OnOk result
        (Writes (λ v. under (fields_of v)
        (fields_content (contents_of (map (λ n. n.now) nodes.now))))
        (fields_shape (map shape_of (map (λ n. n.now) nodes.now))) (map (λ v. v.now) values.now)
        out.old.items out.new.items) }
    ensures refused { IfErr result
        (λ e. IsRefusal e.reason
        (HasStranger (λ v. under (fields_of v)
        (fields_content (contents_of (map (λ n. n.now) nodes.now))))
        (fields_shape (map shape_of (map (λ n. n.now) nodes.now)))
        (map (λ v. v.now) values.now))) }
{
    let rows = tuples(alloc, values)?;
    if !are_of_size(nodes.len(), &rows) {
        return err(Reason::NotOfTheShape);
    }
    if nodes.is_empty() {
        return Ok(());
    }
    write_fields(alloc, nodes, 0, &rows, out)
}

// Appends the columns of options.
#[cycle(write)]
fn write_options(
    alloc: Global,
    some: &SchemaNode,
    values: &[&Value],
    out: &mut Vec<u8>,
) -> Result<(), Error>
    requires few { has_few_variants some.now ≡ true }
    ensures written { OnOk result
        (Writes (λ v. under (option_of v) (option_content (content_under some.now)))
        (choice_shape (shape_and unit_shape (shape_and (shape_of some.now) no_shapes)))
        (map (λ v. v.now) values.now) out.old.items out.new.items) }
    ensures refused { IfErr result
        (λ e. IsRefusal e.reason
        (HasStranger (λ v. under (option_of v) (option_content (content_under some.now)))
        (choice_shape (shape_and unit_shape (shape_and (shape_of some.now) no_shapes)))
        (map (λ v. v.now) values.now))) }
{
    let held = options(alloc, values)?;
    let variants = option_variants(alloc, &held)?;
    write_variants(2, &variants, out)?;
    let parts = somes(alloc, &held)?;
    write_each(alloc, some, &parts, out)
}

// Appends the columns of enums of several variants.
#[cycle(write)]
fn write_choices(
    alloc: Global,
    nodes: &[&SchemaNode],
    held: &[(u32, &Value)],
    out: &mut Vec<u8>,
) -> Result<(), Error>
    requires few { All (λ n. has_few_variants n ≡ true) (map (λ n. n.now) nodes.now) }
    requires count { (2 ≤ length nodes.now) × (length nodes.now ≤ 256) }
    ensures written { OnOk result
        (Writes (chosen variant_in (payloads_under (map (λ n. n.now) nodes.now)))
        (choice_shape (shapes_from (payloads_under (map (λ n. n.now) nodes.now))))
        (map (λ h. (h.0, h.1.now)) held.now) out.old.items out.new.items) }
    ensures refused { IfErr result
        (λ e. IsRefusal e.reason
        (HasStranger (chosen variant_in (payloads_under (map (λ n. n.now) nodes.now)))
        (choice_shape (shapes_from (payloads_under (map (λ n. n.now) nodes.now))))
        (map (λ h. (h.0, h.1.now)) held.now))) }
{
    let variants = enum_variants(alloc, nodes.len(), held)?;
    write_variants(nodes.len(), &variants, out)?;
    for i in 0..nodes.len() {
        let node = nodes[i];
        let parts = payloads(alloc, i, held)?;
        write_each(alloc, node, &parts, out)?;
    }
    Ok(())
}

// Appends the columns of enums of one variant, which has no column.
#[cycle(write)]
fn write_single(
    alloc: Global,
    node: &SchemaNode,
    held: &[(u32, &Value)],
    out: &mut Vec<u8>,
) -> Result<(), Error>
    requires few { has_few_variants node.now ≡ true }
    ensures written { OnOk result
        (Writes (enum_under (content_under node.now ∷ [])) (shape_of node.now)
        (map (λ h. (h.0, h.1.now)) held.now) out.old.items out.new.items) }
    ensures refused { IfErr result
        (λ e. IsRefusal e.reason
        (HasStranger (enum_under (content_under node.now ∷ []))
        (shape_of node.now) (map (λ h. (h.0, h.1.now)) held.now))) }
{
    let _variants = enum_variants(alloc, 1, held)?;
    let parts = payloads(alloc, 0, held)?;
    write_each(alloc, node, &parts, out)
}

// Appends the columns of results.
#[cycle(write)]
fn write_results(
    alloc: Global,
    ok: &SchemaNode,
    other: &SchemaNode,
    values: &[&Value],
    out: &mut Vec<u8>,
) -> Result<(), Error>
    requires ok { has_few_variants ok.now ≡ true }
    requires other { has_few_variants other.now ≡ true }
    ensures written { OnOk result
        (Writes (λ v. under (enum_of v)
        (choice_under (content_under ok.now ∷ content_under other.now ∷ [])))
        (choice_shape (shape_and (shape_of ok.now) (shape_and (shape_of other.now) no_shapes)))
        (map (λ v. v.now) values.now) out.old.items out.new.items) }
    ensures refused { IfErr result
        (λ e. IsRefusal e.reason
        (HasStranger (λ v. under (enum_of v)
        (choice_under (content_under ok.now ∷ content_under other.now ∷ [])))
        (choice_shape (shape_and (shape_of ok.now) (shape_and (shape_of other.now) no_shapes)))
        (map (λ v. v.now) values.now))) }
{
    let held = enums(alloc, values)?;
    write_choices(alloc, &[ok, other], &held, out)
}

// Appends the columns of enums.
#[cycle(write)]
fn write_enums(
    alloc: Global,
    nodes: &[&SchemaNode],
    values: &[&Value],
    out: &mut Vec<u8>,
) -> Result<(), Error>
    requires few { All (λ n. has_few_variants n ≡ true) (map (λ n. n.now) nodes.now) }
    requires most { length nodes.now ≤ 256 }
    ensures written { OnOk result
        (Writes (λ v. under (enum_of v)
        (enum_under (contents_of (map (λ n. n.now) nodes.now))))
        (enum_shape (map shape_of (map (λ n. n.now) nodes.now))) (map (λ v. v.now) values.now)
        out.old.items out.new.items) }
    ensures refused { IfErr result
        (λ e. IsRefusal e.reason
        (HasStranger (λ v. under (enum_of v)
        (enum_under (contents_of (map (λ n. n.now) nodes.now))))
        (enum_shape (map shape_of (map (λ n. n.now) nodes.now))) (map (λ v. v.now) values.now))) }
{
    if nodes.is_empty() {
        return write_never(values, out);
    }
    let held = enums(alloc, values)?;
    if nodes.len() == 1 {
        return write_single(alloc, nodes[0], &held, out);
    }
    write_choices(alloc, nodes, &held, out)
}

/// Appends the columns of values of a node.
///
/// Errors: `value is not of the shape` if a value does not fit the node, and `out of memory`.
#[cycle(write)]
pub fn write_each(
    alloc: Global,
    node: &SchemaNode,
    values: &[&Value],
    out: &mut Vec<u8>,
) -> Result<(), Error>
    requires few { has_few_variants node.now ≡ true }
    ensures written { OnOk result
        (Writes (content_under node.now) (shape_of node.now) (map (λ v. v.now) values.now)
        out.old.items out.new.items) }
    ensures refused { IfErr result
        (λ e. IsRefusal e.reason
        (HasStranger (content_under node.now) (shape_of node.now)
        (map (λ v. v.now) values.now))) }
{
    match node {
        SchemaNode::Unit => write_units(values, out),
        SchemaNode::Never => write_never(values, out),
        SchemaNode::Bool => write_leaf::<bool, BoolEncoder>(alloc, values, out),
        SchemaNode::Char => write_leaf::<char, IntEncoder<u32>>(alloc, values, out),
        SchemaNode::Int(kind) => write_ints(alloc, *kind, values, out),
        SchemaNode::NonZero(kind) => write_nonzeros(alloc, *kind, values, out),
        SchemaNode::F32 => write_leaf::<f32, F32Encoder>(alloc, values, out),
        SchemaNode::F64 => write_leaf::<f64, F64Encoder>(alloc, values, out),
        SchemaNode::Str(capacity) => write_texts(alloc, *capacity, values, out),
        SchemaNode::Duration => write_spans(alloc, values, out),
        SchemaNode::Uuid => write_ids(alloc, values, out),
        SchemaNode::List(capacity, element) => write_lists(alloc, *capacity, element, values, out),
        SchemaNode::Map(key, value) => write_maps(alloc, key, value, values, out),
        SchemaNode::Array(size, element) => write_arrays(alloc, *size, element, values, out),
        SchemaNode::Tuple(nodes) => write_rows(alloc, &each_node(alloc, nodes)?, values, out),
        SchemaNode::Struct(named) => write_rows(alloc, &named_nodes(alloc, named)?, values, out),
        SchemaNode::Option(some) => write_options(alloc, some, values, out),
        SchemaNode::Result(ok, other) => write_results(alloc, ok, other, values, out),
        SchemaNode::Enum(named) => write_enums(alloc, &named_nodes(alloc, named)?, values, out),
    }
}
