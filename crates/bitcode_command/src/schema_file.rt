//! Reading schema files.
use crate::fault::Fault;
use crate::json_text::{expected, parse};
use crate::leaf::leaf;
use crate::node::{Member, Node, Types};
use json::{Scratch, Value};
use std::alloc::Global;
use std::collections::BTreeMap;

// How many nodes may be inside each other: as many as JSON may nest.
const MOST_DEEP: usize = 128;

// How many bytes the name of a field or a variant may have.
const MOST_IN_NAME: usize = 255;

// The indices of the declared types, by their names.
type Names<'a> = BTreeMap<&'a str, usize>;

/// The types of a schema file.
///
/// The error names the place in the file: the line of what is no JSON, or the path to a node.
pub fn read_schema(alloc: Global, text: &str) -> Result<Types, Fault> {
    let mut scratch = Scratch::new(alloc);
    let file = parse(alloc, text, &mut scratch)?;
    let Value::Object(members) = &file else {
        return Err(expected(alloc, "an object with `root` and `types`", &file));
    };
    check_members(alloc, members)?;
    let empty = Value::Object(Vec::new(alloc));
    read_file(alloc, &file, file.get("types").unwrap_or(&empty))
}

// A file has `root` and `types`, each once, and nothing else.
fn check_members<'a>(alloc: Global, members: &[(&'a str, Value<'a>)]) -> Result<(), Fault> {
    names_of(alloc, members)?;
    for member in members {
        if member.0 != "root" && member.0 != "types" {
            return Err(Fault::new(alloc, "a schema has only `root` and `types`").in_field(
                alloc, member.0,
            ));
        }
    }
    Ok(())
}

// The types that are declared in a file, and the node of the whole value.
fn read_file<'a>(alloc: Global, file: &Value<'a>, types: &Value<'a>) -> Result<Types, Fault> {
    let types = match members_of(alloc, types) {
        Ok(types) => types,
        Err(fault) => return Err(fault.in_field(alloc, "types")),
    };
    let names = match names_of(alloc, types) {
        Ok(names) => names,
        Err(fault) => return Err(fault.in_field(alloc, "types")),
    };
    let nodes = read_types(alloc, types, &names)?;
    let root = read_root(alloc, file, &names)?;
    Ok(Types { nodes, root })
}

// The node of the whole value.
fn read_root<'a>(alloc: Global, file: &Value<'a>, names: &Names<'a>) -> Result<Node, Fault> {
    let Some(part) = file.get("root") else {
        return Err(Fault::new(alloc, "expected `root`"));
    };
    match read_node(alloc, part, names, MOST_DEEP) {
        Ok(root) => Ok(root),
        Err(fault) => Err(fault.in_field(alloc, "root")),
    }
}

// The members of an object.
fn members_of<'v, 'a>(
    alloc: Global,
    value: &'v Value<'a>,
) -> Result<&'v Vec<(&'a str, Value<'a>)>, Fault> {
    match value {
        Value::Object(members) => Ok(members),
        _ => Err(expected(alloc, "an object", value)),
    }
}

// The items of a list.
fn items_of<'v, 'a>(alloc: Global, value: &'v Value<'a>) -> Result<&'v Vec<Value<'a>>, Fault> {
    match value {
        Value::Array(items) => Ok(items),
        _ => Err(expected(alloc, "a list", value)),
    }
}

// The indices of the members of an object, which have different names.
fn names_of<'a>(alloc: Global, members: &[(&'a str, Value<'a>)]) -> Result<Names<'a>, Fault> {
    let mut names = BTreeMap::new(alloc);
    for index in 0..members.len() {
        let name = members[index].0;
        if names.insert(name, index)?.is_some() {
            return Err(Fault::new(alloc, "declared twice").in_field(alloc, name));
        }
    }
    Ok(names)
}

// The nodes of the types.
fn read_types<'a>(
    alloc: Global,
    types: &[(&'a str, Value<'a>)],
    names: &Names<'a>,
) -> Result<Vec<Node>, Fault> {
    let mut nodes = Vec::new(alloc);
    for member in types {
        match read_type(alloc, member.0, &member.1, names) {
            Ok(node) => nodes.push(node)?,
            Err(fault) => return Err(fault.in_field(alloc, member.0).in_field(alloc, "types")),
        }
    }
    Ok(nodes)
}

// The node of a declared type, which may not have the name of a type of the format.
fn read_type<'a>(
    alloc: Global,
    name: &str,
    value: &Value<'a>,
    names: &Names<'a>,
) -> Result<Node, Fault> {
    match leaf(name) {
        Some(_) => Err(Fault::new(alloc, "the format has a type of this name")),
        None => read_node(alloc, value, names, MOST_DEEP),
    }
}

// A node: a name, or an object of one member.
#[cycle(schema)]
fn read_node<'a>(
    alloc: Global,
    value: &Value<'a>,
    names: &Names<'a>,
    left: usize,
) -> Result<Node, Fault> {
    let Some(left) = left.checked_sub(1) else {
        return Err(Fault::new(alloc, "nested too deep"));
    };
    match value {
        Value::String(name) => read_name(alloc, name, names),
        Value::Object(members) => match members.as_slice() {
            [member] => match read_composite(alloc, &member.1, member.0, names, left) {
                Ok(node) => Ok(node),
                Err(fault) => Err(fault.in_field(alloc, member.0)),
            },
            _ => Err(expected(alloc, "an object with one member", value)),
        },
        _ => Err(expected(alloc, "a type", value)),
    }
}

// The node of a type without parameters.
fn read_name<'a>(alloc: Global, name: &'a str, names: &Names<'a>) -> Result<Node, Fault> {
    if let Some(index) = names.get(&name) {
        return Ok(Node::Named(*index));
    }
    match leaf(name) {
        Some(node) => Ok(node),
        None => {
            let what = format!(in alloc;
                "`{name}` is neither a type of the format nor one of `types`"
            )?;
            Err(Fault::new(alloc, what.as_str()))
        }
    }
}

// The node of a type with parameters.
#[cycle(schema)]
fn read_composite<'a>(
    alloc: Global,
    value: &Value<'a>,
    name: &str,
    names: &Names<'a>,
    left: usize,
) -> Result<Node, Fault> {
    match name {
        "Vec" | "Option" => read_one(alloc, value, name, names, left),
        "ArrayString" => read_text(alloc, value),
        "ArrayVec" | "array" => read_counted(alloc, value, name, names, left),
        "BTreeMap" | "Result" => read_two(alloc, value, name, names, left),
        "tuple" => read_tuple(alloc, value, names, left),
        "struct" | "enum" => read_members(alloc, value, name, names, left),
        _ => Err(without_parameters(alloc, name)),
    }
}

// What is said of a name that has no parameters.
fn without_parameters(alloc: Global, name: &str) -> Fault {
    match format!(in alloc; "`{name}` is no type with parameters") {
        Ok(what) => Fault::new(alloc, what.as_str()),
        Err(_) => Fault::OutOfMemory,
    }
}

// A text of at most so many bytes.
fn read_text(alloc: Global, value: &Value<'_>) -> Result<Node, Fault> {
    Ok(Node::Text(Some(read_number(alloc, value)?)))
}

// A list or an option: the node inside.
#[cycle(schema)]
fn read_one<'a>(
    alloc: Global,
    value: &Value<'a>,
    name: &str,
    names: &Names<'a>,
    left: usize,
) -> Result<Node, Fault> {
    let inner = read_box(alloc, value, names, left)?;
    if name == "Vec" {
        Ok(Node::List(None, inner))
    } else {
        Ok(Node::Option(inner))
    }
}

#[cycle(schema)]
fn read_box<'a>(
    alloc: Global,
    value: &Value<'a>,
    names: &Names<'a>,
    left: usize,
) -> Result<Box<Node>, Fault> {
    let node = read_node(alloc, value, names, left)?;
    Ok(Box::new(alloc, node)?)
}

// A number of elements or bytes.
fn read_number(alloc: Global, value: &Value<'_>) -> Result<usize, Fault> {
    match value.as_u64() {
        Some(number) => Ok(number as usize),
        None => Err(expected(alloc, "a number below 2^64", value)),
    }
}

// An array or an `ArrayVec`: a list of the element's node and a number.
#[cycle(schema)]
fn read_counted<'a>(
    alloc: Global,
    value: &Value<'a>,
    name: &str,
    names: &Names<'a>,
    left: usize,
) -> Result<Node, Fault> {
    let [element, count] = items_of(alloc, value)?.as_slice() else {
        return Err(expected(alloc, "a list of a type and a number", value));
    };
    let element = match read_box(alloc, element, names, left) {
        Ok(element) => element,
        Err(fault) => return Err(fault.in_item(alloc, 0)),
    };
    match read_number(alloc, count) {
        Ok(count) if name == "array" => Ok(Node::Array(element, count)),
        Ok(count) => Ok(Node::List(Some(count), element)),
        Err(fault) => Err(fault.in_item(alloc, 1)),
    }
}

// A map or a result: a list of two nodes.
#[cycle(schema)]
fn read_two<'a>(
    alloc: Global,
    value: &Value<'a>,
    name: &str,
    names: &Names<'a>,
    left: usize,
) -> Result<Node, Fault> {
    let [first, second] = items_of(alloc, value)?.as_slice() else {
        return Err(expected(alloc, "a list of two types", value));
    };
    let first = match read_box(alloc, first, names, left) {
        Ok(first) => first,
        Err(fault) => return Err(fault.in_item(alloc, 0)),
    };
    let second = match read_box(alloc, second, names, left) {
        Ok(second) => second,
        Err(fault) => return Err(fault.in_item(alloc, 1)),
    };
    if name == "Result" {
        Ok(Node::Result(first, second))
    } else {
        Ok(Node::Map(first, second))
    }
}

// A tuple: a list of its nodes.
#[cycle(schema)]
fn read_tuple<'a>(
    alloc: Global,
    value: &Value<'a>,
    names: &Names<'a>,
    left: usize,
) -> Result<Node, Fault> {
    let items = items_of(alloc, value)?;
    let mut nodes = Vec::new(alloc);
    for index in 0..items.len() {
        match read_node(alloc, &items[index], names, left) {
            Ok(node) => nodes.push(node)?,
            Err(fault) => return Err(fault.in_item(alloc, index)),
        }
    }
    Ok(Node::Tuple(nodes))
}

// A struct or an enum: an object of the fields, or of the variants.
#[cycle(schema)]
fn read_members<'a>(
    alloc: Global,
    value: &Value<'a>,
    name: &str,
    names: &Names<'a>,
    left: usize,
) -> Result<Node, Fault> {
    let declared = members_of(alloc, value)?;
    names_of(alloc, declared)?;
    let mut members = Vec::new(alloc);
    for member in declared {
        match read_node(alloc, &member.1, names, left) {
            Ok(node) => push_member(alloc, &mut members, member.0, node)?,
            Err(fault) => return Err(fault.in_field(alloc, member.0)),
        }
    }
    if name == "struct" {
        Ok(Node::Struct(members))
    } else {
        Ok(Node::Enum(members))
    }
}

// Adds a field or a variant.
fn push_member(
    alloc: Global,
    members: &mut Vec<Member>,
    name: &str,
    node: Node,
) -> Result<(), Fault> {
    if name.len() > MOST_IN_NAME {
        return Err(Fault::new(alloc, "a name has more than 255 bytes"));
    }
    let name = String::from_str(alloc, name)?;
    members.push(Member { name, node })?;
    Ok(())
}
