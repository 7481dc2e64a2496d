//! Making values from JSON.
use crate::fault::Fault;
use crate::from_leaf::read_leaf;
use crate::json_parts::{
    JsonMember, find, list_for, list_of_pairs, members_of_map, members_of_struct, pair_of,
    result_of, variant_of, wrapped,
};
use crate::json_text::expected;
use crate::maps::are_distinct;
use crate::node::{Member, Node, Types};
use crate::options::SOME;
use bitcode_untyped::value::Value;
use json::Value as Json;
use std::alloc::Global;

// How many nodes may lie inside each other: more than JSON may nest, and options between its levels.
const MOST_NODES: usize = 1024;

/// The value of the schema that the JSON is of.
///
/// With `second` it is one of the second format, where an array is a tuple. The error names the place in the JSON, and
/// what was expected there.
pub fn from_json(
    alloc: Global,
    types: &Types,
    json: &Json<'_>,
    second: bool,
) -> Result<Value, Fault> {
    let source = Source {
        alloc,
        types,
        second,
    };
    read(&source, json, &types.root, MOST_NODES)
}

// What all calls need.
#[derive(Drop)]
struct Source<'a> {
    alloc: Global,
    types: &'a Types,
    second: bool,
}

impl Source<'_> {
    fn expected(&self, what: &str, json: &Json<'_>) -> Fault {
        expected(self.alloc, what, json)
    }

    fn boxed(&self, value: Value) -> Result<Box<Value>, Fault> {
        Ok(Box::new(self.alloc, value)?)
    }

    // The value of a variant.
    fn variant(&self, index: usize, value: Value) -> Result<Value, Fault> {
        let Ok(index) = u32::try_from(index) else {
            return Err(Fault::new(self.alloc, "the type has too many variants"));
        };
        Ok(Value::Enum(index, self.boxed(value)?))
    }

    // The value of a field that is left out.
    fn missing(&self, node: &Node) -> Result<Value, Fault> {
        match self.types.resolve(node) {
            Node::Option(_) => Ok(Value::Option(None)),
            _ => Err(Fault::new(self.alloc, "the field is missing")),
        }
    }

    // The payload of a variant of which only the name is given.
    fn unit(&self, json: &Json<'_>, variant: &Member) -> Result<Value, Fault> {
        match self.types.resolve(&variant.node) {
            Node::Unit => Ok(Value::Unit),
            _ => Err(self.expected("an object with the variant and its fields", json)),
        }
    }

    // A key of a map.
    fn key(&self, name: &str, node: &Node) -> Result<Value, Fault> {
        read_leaf(self.alloc, &Json::String(name), self.types.resolve(node))
    }

    // The value of a list of JSON, for a node.
    fn list(&self, node: &Node, values: Vec<Value>) -> Value {
        match node {
            Node::Tuple(_) => Value::Tuple(values),
            Node::Array(_, _) if self.second => Value::Tuple(values),
            _ => Value::Seq(values),
        }
    }
}

// The value of the JSON. `left` is how many nodes may still be inside each other.
#[cycle(read)]
fn read(from: &Source<'_>, json: &Json<'_>, node: &Node, left: usize) -> Result<Value, Fault> {
    let Some(left) = left.checked_sub(1) else {
        return Err(Fault::new(from.alloc, "the type contains itself without end"));
    };
    let node = from.types.resolve(node);
    match node {
        Node::List(_, element) | Node::Array(element, _) => {
            read_items(from, json, node, &[], element, left)
        }
        Node::Map(key, part) => read_map(from, json, key, part, left),
        Node::Tuple(fields) => read_items(from, json, node, fields, node, left),
        Node::Struct(members) => {
            let given = members_of_struct(from.alloc, json, members)?;
            read_struct(from, given, members, left)
        }
        Node::Option(inner) => read_option(from, json, inner, left),
        Node::Result(ok, err) => read_result(from, json, ok, err, left),
        Node::Enum(variants) => read_variant(from, json, variants, left),
        leaf => read_leaf(from.alloc, json, leaf),
    }
}

// The value of a list: its first items are of the fields' nodes, and all others of the element's.
#[cycle(read)]
fn read_items(
    from: &Source<'_>,
    json: &Json<'_>,
    node: &Node,
    fields: &[Node],
    element: &Node,
    left: usize,
) -> Result<Value, Fault> {
    let items = list_for(from.alloc, json, node)?;
    let mut values = Vec::with_capacity(from.alloc, items.len())?;
    for index in 0..items.len() {
        match read(
            from,
            &items[index],
            fields.get(index).unwrap_or(element),
            left,
        ) {
            Ok(value) => values.push(value)?,
            Err(fault) => return Err(fault.in_item(from.alloc, index)),
        }
    }
    Ok(from.list(node, values))
}

// The fields of a struct. An option may be left out.
#[cycle(read)]
fn read_struct<'a>(
    from: &Source<'_>,
    given: &[JsonMember<'a>],
    members: &[Member],
    left: usize,
) -> Result<Value, Fault> {
    let mut values = Vec::with_capacity(from.alloc, members.len())?;
    for index in 0..members.len() {
        let member = &members[index];
        let value = match find(given, index, &member.name) {
            Some(part) => read(from, part, &member.node, left),
            None => from.missing(&member.node),
        };
        match value {
            Ok(value) => values.push(value)?,
            Err(fault) => return Err(fault.in_field(from.alloc, &member.name)),
        }
    }
    Ok(Value::Tuple(values))
}

#[cycle(read)]
fn read_map(
    from: &Source<'_>,
    json: &Json<'_>,
    key: &Node,
    part: &Node,
    left: usize,
) -> Result<Value, Fault> {
    if let Some(members) = members_of_map(from.types, json, key) {
        read_object(from, members, key, part, left)
    } else {
        read_pairs(from, list_of_pairs(from.alloc, json)?, key, part, left)
    }
}

// A map whose keys are texts, from an object.
#[cycle(read)]
fn read_object<'a>(
    from: &Source<'_>,
    members: &[JsonMember<'a>],
    key: &Node,
    part: &Node,
    left: usize,
) -> Result<Value, Fault> {
    let mut pairs = Vec::with_capacity(from.alloc, members.len())?;
    for member in members {
        match read(from, &member.1, part, left) {
            Ok(value) => pairs.push((from.key(member.0, key)?, value))?,
            Err(fault) => return Err(fault.in_field(from.alloc, member.0)),
        }
    }
    if !are_distinct(from.alloc, &pairs)? {
        let what = "a key comes twice: write a list of pairs";
        return Err(Fault::new(from.alloc, what));
    }
    Ok(Value::Map(pairs))
}

// Any map, from a list of pairs.
#[cycle(read)]
fn read_pairs(
    from: &Source<'_>,
    items: &[Json<'_>],
    key: &Node,
    part: &Node,
    left: usize,
) -> Result<Value, Fault> {
    let mut pairs = Vec::with_capacity(from.alloc, items.len())?;
    for index in 0..items.len() {
        let (first, second) = match pair_of(from.alloc, &items[index]) {
            Ok(pair) => pair,
            Err(fault) => return Err(fault.in_item(from.alloc, index)),
        };
        let first = match read(from, first, key, left) {
            Ok(first) => first,
            Err(fault) => return Err(fault.in_item(from.alloc, 0).in_item(from.alloc, index)),
        };
        match read(from, second, part, left) {
            Ok(second) => pairs.push((first, second))?,
            Err(fault) => return Err(fault.in_item(from.alloc, 1).in_item(from.alloc, index)),
        }
    }
    Ok(Value::Map(pairs))
}

#[cycle(read)]
fn read_option(
    from: &Source<'_>,
    json: &Json<'_>,
    inner: &Node,
    left: usize,
) -> Result<Value, Fault> {
    if json.is_null() {
        return Ok(Value::Option(None));
    }
    let value = match wrapped(from.types, json, inner) {
        Some(part) => read_payload(from, part, inner, SOME, left)?,
        None => read(from, json, inner, left)?,
    };
    Ok(Value::Option(Some(from.boxed(value)?)))
}

#[cycle(read)]
fn read_result(
    from: &Source<'_>,
    json: &Json<'_>,
    ok: &Node,
    err: &Node,
    left: usize,
) -> Result<Value, Fault> {
    let (index, part) = result_of(from.alloc, json)?;
    let value = if index == 0 {
        read_payload(from, part, ok, "Ok", left)?
    } else {
        read_payload(from, part, err, "Err", left)?
    };
    from.variant(index, value)
}

#[cycle(read)]
fn read_variant(
    from: &Source<'_>,
    json: &Json<'_>,
    variants: &[Member],
    left: usize,
) -> Result<Value, Fault> {
    let (index, part) = variant_of(from.alloc, json, variants)?;
    let Some(variant) = variants.get(index) else {
        return Err(from.expected("a variant", json));
    };
    let value = match part {
        Some(part) => read_payload(from, part, &variant.node, &variant.name, left)?,
        None => from.unit(json, variant)?,
    };
    from.variant(index, value)
}

// The value of a member.
#[cycle(read)]
fn read_payload(
    from: &Source<'_>,
    json: &Json<'_>,
    node: &Node,
    name: &str,
    left: usize,
) -> Result<Value, Fault> {
    match read(from, json, node, left) {
        Ok(value) => Ok(value),
        Err(fault) => Err(fault.in_field(from.alloc, name)),
    }
}
