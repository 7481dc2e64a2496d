//! The schemas of both formats.
ghost use Rattle.std.specs.Prelude.{◌<◌, IfOk};

use crate::fault::Fault;
use crate::node::{Member, Node, Types};
use bitcode_schema::schema::{IntKind, Schema, SchemaNode};
use bitcode_untyped::shape::{Shape, ShapeNode};
use std::alloc::Global;

// How deep the nodes of a schema may lie inside each other, and how many there may be, if each type is written out
// wherever it is named.
const MOST_DEEP: usize = 512;

const MOST_NODES: usize = 1 << 16;

const NOT_IN_SECOND: &str =
    "the second format has no NonZero type, no capacity, no `Duration` and no `Uuid`";

// What all calls need. `left` is how many nodes may still be made.
#[derive(Drop)]
struct Writing<'a> {
    alloc: Global,
    types: &'a Types,
    left: usize,
}

impl Writing<'_> {
    fn fault(&self, what: &str) -> Fault {
        Fault::new(self.alloc, what)
    }

    // Counts a node, and gives how deep the nodes inside may be.
    fn inside(&mut self, depth: usize) -> Result<usize, Fault>
        ensures { IfOk result (λ inside. inside < depth) }
    {
        let Some(inside) = depth.checked_sub(1) else {
            return Err(self.fault("the type is nested too deep, or recursive without an end"));
        };
        match self.left.checked_sub(1) {
            Some(left) => {
                self.left = left;
                Ok(inside)
            }
            None => Err(self.fault("the type has more than 65536 nodes")),
        }
    }
}

/// The schema of the first format, in which each named type is written out.
///
/// The error says that the types are recursive, or too many, or what `Schema::new` refuses.
pub fn first_format(alloc: Global, types: &Types) -> Result<Schema, Fault> {
    let mut writing = Writing {
        alloc,
        types,
        left: MOST_NODES,
    };
    let root = schema_node(&mut writing, &types.root, MOST_DEEP)?;
    match Schema::new(root) {
        Ok(schema) => Ok(schema),
        Err(error) => Err(Fault::new(alloc, error.reason())),
    }
}

// The node of a type without parameters.
fn schema_leaf(node: &Node) -> Option<SchemaNode> {
    match node {
        Node::Unit => Some(SchemaNode::Unit),
        Node::Bool => Some(SchemaNode::Bool),
        Node::Char => Some(SchemaNode::Char),
        Node::Int(kind) => Some(SchemaNode::Int(*kind)),
        Node::NonZero(kind) => Some(SchemaNode::NonZero(*kind)),
        Node::F32 => Some(SchemaNode::F32),
        Node::F64 => Some(SchemaNode::F64),
        Node::Text(limit) => Some(SchemaNode::Str(*limit)),
        Node::Duration => Some(SchemaNode::Duration),
        Node::Uuid => Some(SchemaNode::Uuid),
        _ => None,
    }
}

#[cycle(first)]
fn schema_node(to: &mut Writing<'_>, node: &Node, depth: usize) -> Result<SchemaNode, Fault> {
    let inside = to.inside(depth)?;
    let node = to.types.resolve(node);
    if let Some(leaf) = schema_leaf(node) {
        return Ok(leaf);
    }
    Ok(match node {
        Node::List(limit, element) => SchemaNode::List(*limit, schema_box(to, element, inside)?),
        Node::Array(element, count) => SchemaNode::Array(*count, schema_box(to, element, inside)?),
        Node::Map(key, part) => {
            let key = schema_box(to, key, inside)?;
            SchemaNode::Map(key, schema_box(to, part, inside)?)
        }
        Node::Option(inner) => SchemaNode::Option(schema_box(to, inner, inside)?),
        Node::Result(ok, err) => {
            let ok = schema_box(to, ok, inside)?;
            SchemaNode::Result(ok, schema_box(to, err, inside)?)
        }
        Node::Tuple(nodes) => SchemaNode::Tuple(schema_nodes(to, nodes, inside)?),
        Node::Struct(members) => SchemaNode::Struct(schema_members(to, members, inside)?),
        Node::Enum(variants) => {
            if variants.is_empty() {
                SchemaNode::Never
            } else {
                SchemaNode::Enum(schema_members(to, variants, inside)?)
            }
        }
        _ => return Err(to.fault("the type contains only itself")),
    })
}

#[cycle(first)]
fn schema_box(to: &mut Writing<'_>, node: &Node, depth: usize) -> Result<Box<SchemaNode>, Fault> {
    let node = schema_node(to, node, depth)?;
    Ok(Box::new(to.alloc, node)?)
}

#[cycle(first)]
fn schema_nodes(
    to: &mut Writing<'_>,
    nodes: &[Node],
    depth: usize,
) -> Result<Vec<SchemaNode>, Fault> {
    let mut found = Vec::new(to.alloc);
    for node in nodes {
        let node = schema_node(to, node, depth)?;
        found.push(node)?;
    }
    Ok(found)
}

#[cycle(first)]
fn schema_members(
    to: &mut Writing<'_>,
    members: &[Member],
    depth: usize,
) -> Result<Vec<(String, SchemaNode)>, Fault> {
    let mut found = Vec::new(to.alloc);
    for member in members {
        let node = schema_node(to, &member.node, depth)?;
        found.push((member.name.clone()?, node))?;
    }
    Ok(found)
}

/// The shape of the second format: a table of the named types, and the node of the whole value behind them.
///
/// The error says that the types are too many or recursive without an end, which part the second format does not have,
/// or what `Shape::new` refuses.
pub fn second_format(alloc: Global, types: &Types) -> Result<Shape, Fault> {
    let mut writing = Writing {
        alloc,
        types,
        left: MOST_NODES,
    };
    let mut table = Vec::new(alloc);
    for node in &types.nodes {
        table.push(shape_node(&mut writing, node, false, MOST_DEEP)?)?;
    }
    table.push(shape_node(&mut writing, &types.root, false, MOST_DEEP)?)?;
    match Shape::new(table, types.nodes.len()) {
        Ok(shape) => Ok(shape),
        Err(error) => Err(Fault::new(alloc, error.reason())),
    }
}

fn shape_int(kind: IntKind) -> ShapeNode {
    match kind {
        IntKind::U8 => ShapeNode::U8,
        IntKind::U16 => ShapeNode::U16,
        IntKind::U32 => ShapeNode::U32,
        IntKind::U64 => ShapeNode::U64,
        IntKind::U128 => ShapeNode::U128,
        IntKind::I8 => ShapeNode::I8,
        IntKind::I16 => ShapeNode::I16,
        IntKind::I32 => ShapeNode::I32,
        IntKind::I64 => ShapeNode::I64,
        IntKind::I128 => ShapeNode::I128,
    }
}

// The node of a type without parameters that the second format has.
fn shape_leaf(node: &Node) -> Option<ShapeNode> {
    match node {
        Node::Unit => Some(ShapeNode::Unit),
        Node::Bool => Some(ShapeNode::Bool),
        Node::Char => Some(ShapeNode::Char),
        Node::Int(kind) => Some(shape_int(*kind)),
        Node::F32 => Some(ShapeNode::F32),
        Node::F64 => Some(ShapeNode::F64),
        Node::Text(None) => Some(ShapeNode::Str),
        _ => None,
    }
}

// A node of the second format. `below` says that a reference may stand there.
#[cycle(second)]
fn shape_node(
    to: &mut Writing<'_>,
    node: &Node,
    below: bool,
    depth: usize,
) -> Result<ShapeNode, Fault> {
    let inside = to.inside(depth)?;
    if let Node::Named(index) = node
        && below
    {
        return Ok(ShapeNode::Ref(*index));
    }
    let node = to.types.resolve(node);
    if let Some(leaf) = shape_leaf(node) {
        return Ok(leaf);
    }
    Ok(match node {
        Node::List(None, element) => ShapeNode::Seq(shape_box(to, element, inside)?),
        Node::Map(key, part) => {
            let key = shape_box(to, key, inside)?;
            ShapeNode::Map(key, shape_box(to, part, inside)?)
        }
        Node::Option(inner) => ShapeNode::Option(shape_box(to, inner, inside)?),
        Node::Result(ok, err) => {
            let ok = shape_node(to, ok, true, inside)?;
            let err = shape_node(to, err, true, inside)?;
            ShapeNode::Enum(vec![in to.alloc; ok, err]?)
        }
        Node::Tuple(nodes) => ShapeNode::Tuple(shape_nodes(to, nodes, below, inside)?),
        Node::Struct(members) => ShapeNode::Tuple(shape_members(to, members, below, inside)?),
        Node::Enum(variants) => ShapeNode::Enum(shape_members(to, variants, true, inside)?),
        Node::Array(element, count) => {
            ShapeNode::Tuple(shape_elements(to, element, *count, below, inside)?)
        }
        Node::Named(_) => return Err(to.fault("the type contains only itself")),
        _ => return Err(to.fault(NOT_IN_SECOND)),
    })
}

#[cycle(second)]
fn shape_box(to: &mut Writing<'_>, node: &Node, depth: usize) -> Result<Box<ShapeNode>, Fault> {
    let node = shape_node(to, node, true, depth)?;
    Ok(Box::new(to.alloc, node)?)
}

#[cycle(second)]
fn shape_nodes(
    to: &mut Writing<'_>,
    nodes: &[Node],
    below: bool,
    depth: usize,
) -> Result<Vec<ShapeNode>, Fault> {
    let mut found = Vec::new(to.alloc);
    for node in nodes {
        let node = shape_node(to, node, below, depth)?;
        found.push(node)?;
    }
    Ok(found)
}

// The fields of a struct, or the payloads of an enum.
#[cycle(second)]
fn shape_members(
    to: &mut Writing<'_>,
    members: &[Member],
    below: bool,
    depth: usize,
) -> Result<Vec<ShapeNode>, Fault> {
    let mut found = Vec::new(to.alloc);
    for member in members {
        let node = shape_node(to, &member.node, below, depth)?;
        found.push(node)?;
    }
    Ok(found)
}

// The elements of an array.
#[cycle(second)]
fn shape_elements(
    to: &mut Writing<'_>,
    element: &Node,
    count: usize,
    below: bool,
    depth: usize,
) -> Result<Vec<ShapeNode>, Fault> {
    let mut found = Vec::new(to.alloc);
    for _ in 0..count {
        let node = shape_node(to, element, below, depth)?;
        found.push(node)?;
    }
    Ok(found)
}
