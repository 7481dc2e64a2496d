//! Writing values as JSON.
ghost use Rattle.std.specs.Prelude.{◌≡◌, ◌<◌, IfOk};

use crate::fault::Fault;
use crate::json_leaf::write_leaf;
use crate::maps::{are_distinct, has_text_keys};
use crate::node::{Member, Node, Types};
use crate::options::{SOME, is_nullable, looks_wrapped};
use bitcode_untyped::value::Value;
use json::Writer;
use std::alloc::Global;

// How many lists and objects may be inside each other, and how many values: options between them count too.
const ROOM: Room = Room {
    depth: 127,
    left: 1024,
};

/// Puts the JSON of a value of the schema behind what `out` has.
///
/// The error names the place of what nests deeper than 127 lists and objects.
pub fn to_json(
    alloc: Global,
    types: &Types,
    value: &Value,
    out: Vec<u8>,
) -> Result<Vec<u8>, Fault> {
    let mut out = Writer::new(out);
    let target = Target { alloc, types };
    write(&target, value, &types.root, ROOM, &mut out)?;
    Ok(out.into_inner())
}

// How many lists and objects may still be inside, and how many values.
#[derive(Clone, Copy)]
struct Room {
    depth: usize,
    left: usize,
}

// What all calls need.
#[derive(Drop)]
struct Target<'a> {
    alloc: Global,
    types: &'a Types,
}

impl Target<'_> {
    fn fault(&self, what: &str) -> Fault {
        Fault::new(self.alloc, what)
    }

    // The room inside a value.
    fn below(&self, room: Room) -> Result<Room, Fault>
        ensures { IfOk result (λ below. below.left < room.left) }
    {
        match room.left.checked_sub(1) {
            Some(left) => Ok(Room {
                depth: room.depth,
                left,
            }),
            None => Err(self.fault("nested too deep")),
        }
    }

    // Begins a list, and gives the room inside.
    fn begin_array(&self, room: Room, out: &mut Writer) -> Result<Room, Fault>
        ensures { IfOk result (λ inside. inside.left ≡ room.left) }
    {
        let inside = self.inside(room)?;
        out.begin_array()?;
        Ok(inside)
    }

    // Begins an object, and gives the room inside.
    fn begin_object(&self, room: Room, out: &mut Writer) -> Result<Room, Fault>
        ensures { IfOk result (λ inside. inside.left ≡ room.left) }
    {
        let inside = self.inside(room)?;
        out.begin_object()?;
        Ok(inside)
    }

    // The room inside a list or an object.
    fn inside(&self, room: Room) -> Result<Room, Fault>
        ensures { IfOk result (λ inside. inside.left ≡ room.left) }
    {
        match room.depth.checked_sub(1) {
            Some(depth) => Ok(Room {
                depth,
                left: room.left,
            }),
            None => Err(self.fault("nested deeper than 127 lists and objects")),
        }
    }

    fn mismatch(&self) -> Fault {
        self.fault("the value is not of the schema")
    }

    // The elements of a list or an array.
    fn elements<'v>(&self, value: &'v Value) -> Result<&'v Vec<Value>, Fault> {
        match value {
            Value::Seq(values) => Ok(values),
            Value::Tuple(values) => Ok(values),
            _ => Err(self.mismatch()),
        }
    }

    // So many fields.
    fn fields<'v>(&self, value: &'v Value, count: usize) -> Result<&'v Vec<Value>, Fault> {
        match value {
            Value::Tuple(values) if values.len() == count => Ok(values),
            _ => Err(self.mismatch()),
        }
    }

    // The values of a list, an array or a tuple.
    fn items<'v>(&self, value: &'v Value, node: &Node) -> Result<&'v Vec<Value>, Fault> {
        match node {
            Node::Tuple(fields) => self.fields(value, fields.len()),
            _ => self.elements(value),
        }
    }

    // The keys and values of a map.
    fn pairs<'v>(&self, value: &'v Value) -> Result<&'v Vec<(Value, Value)>, Fault> {
        match value {
            Value::Map(pairs) => Ok(pairs),
            _ => Err(self.mismatch()),
        }
    }

    // The index of a variant, and its payload.
    fn variant<'v>(&self, value: &'v Value) -> Result<(usize, &'v Value), Fault> {
        match value {
            Value::Enum(index, payload) => Ok((*index as usize, payload)),
            _ => Err(self.mismatch()),
        }
    }
}

fn end_array(out: &mut Writer) -> Result<(), Fault> {
    Ok(out.end_array()?)
}

fn end_object(out: &mut Writer) -> Result<(), Fault> {
    Ok(out.end_object()?)
}

#[cycle(write)]
fn write(
    to: &Target<'_>,
    value: &Value,
    node: &Node,
    room: Room,
    out: &mut Writer,
) -> Result<(), Fault> {
    let room = to.below(room)?;
    let node = to.types.resolve(node);
    match node {
        Node::List(_, element) | Node::Array(element, _) => {
            write_items(to, value, node, &[], element, room, out)
        }
        Node::Map(key, part) => write_map(to, value, key, part, room, out),
        Node::Tuple(fields) => write_items(to, value, node, fields, node, room, out),
        Node::Struct(members) => write_struct(to, value, members, room, out),
        Node::Option(inner) => write_option(to, value, inner, room, out),
        Node::Result(ok, err) => write_result(to, value, ok, err, room, out),
        Node::Enum(variants) => write_variant(to, value, variants, room, out),
        leaf => write_leaf(to.alloc, value, leaf, out),
    }
}

// A list: its first values are of the fields' nodes, and all others of the element's.
#[cycle(write)]
fn write_items(
    to: &Target<'_>,
    value: &Value,
    node: &Node,
    fields: &[Node],
    element: &Node,
    room: Room,
    out: &mut Writer,
) -> Result<(), Fault> {
    let values = to.items(value, node)?;
    let inside = to.begin_array(room, out)?;
    for index in 0..values.len() {
        let node = fields.get(index).unwrap_or(element);
        if let Err(fault) = write(to, &values[index], node, inside, out) {
            return Err(fault.in_item(to.alloc, index));
        }
    }
    end_array(out)
}

#[cycle(write)]
fn write_struct(
    to: &Target<'_>,
    value: &Value,
    members: &[Member],
    room: Room,
    out: &mut Writer,
) -> Result<(), Fault> {
    let values = to.fields(value, members.len())?;
    let inside = to.begin_object(room, out)?;
    for (value, member) in values.iter().zip(members) {
        out.key(&member.name)?;
        if let Err(fault) = write(to, value, &member.node, inside, out) {
            return Err(fault.in_field(to.alloc, &member.name));
        }
    }
    end_object(out)
}

#[cycle(write)]
fn write_map(
    to: &Target<'_>,
    value: &Value,
    key: &Node,
    part: &Node,
    room: Room,
    out: &mut Writer,
) -> Result<(), Fault> {
    let pairs = to.pairs(value)?;
    if has_text_keys(to.types, key) && are_distinct(to.alloc, pairs)? {
        write_object(to, pairs, part, room, out)
    } else {
        write_pairs(to, pairs, key, part, room, out)
    }
}

// A map whose keys are different texts.
#[cycle(write)]
fn write_object(
    to: &Target<'_>,
    pairs: &[(Value, Value)],
    part: &Node,
    room: Room,
    out: &mut Writer,
) -> Result<(), Fault> {
    let inside = to.begin_object(room, out)?;
    for index in 0..pairs.len() {
        let pair = &pairs[index];
        let Value::Str(key) = &pair.0 else {
            return Err(to.mismatch());
        };
        out.key(key)?;
        if let Err(fault) = write(to, &pair.1, part, inside, out) {
            return Err(fault.in_field(to.alloc, key));
        }
    }
    end_object(out)
}

// Any other map: a list of pairs.
#[cycle(write)]
fn write_pairs(
    to: &Target<'_>,
    pairs: &[(Value, Value)],
    key: &Node,
    part: &Node,
    room: Room,
    out: &mut Writer,
) -> Result<(), Fault> {
    let inside = to.begin_array(room, out)?;
    for index in 0..pairs.len() {
        let pair = &pairs[index];
        let in_pair = to.begin_array(inside, out)?;
        if let Err(fault) = write(to, &pair.0, key, in_pair, out) {
            return Err(fault.in_item(to.alloc, 0).in_item(to.alloc, index));
        }
        if let Err(fault) = write(to, &pair.1, part, in_pair, out) {
            return Err(fault.in_item(to.alloc, 1).in_item(to.alloc, index));
        }
        end_array(out)?;
    }
    end_array(out)
}

#[cycle(write)]
fn write_option(
    to: &Target<'_>,
    value: &Value,
    inner: &Node,
    room: Room,
    out: &mut Writer,
) -> Result<(), Fault> {
    match value {
        Value::Option(None) => Ok(out.null()?),
        Value::Option(Some(some)) => {
            if is_nullable(to.types, inner) && looks_wrapped(to.types, some, inner) {
                write_payload(to, some, inner, SOME, room, out)
            } else {
                write(to, some, inner, room, out)
            }
        }
        _ => Err(to.mismatch()),
    }
}

#[cycle(write)]
fn write_result(
    to: &Target<'_>,
    value: &Value,
    ok: &Node,
    err: &Node,
    room: Room,
    out: &mut Writer,
) -> Result<(), Fault> {
    match to.variant(value)? {
        (0, payload) => write_payload(to, payload, ok, "Ok", room, out),
        (_, payload) => write_payload(to, payload, err, "Err", room, out),
    }
}

// A variant of an enum: its name, if its payload is a unit, or else an object.
#[cycle(write)]
fn write_variant(
    to: &Target<'_>,
    value: &Value,
    variants: &[Member],
    room: Room,
    out: &mut Writer,
) -> Result<(), Fault> {
    let (index, payload) = to.variant(value)?;
    let Some(variant) = variants.get(index) else {
        return Err(to.mismatch());
    };
    match to.types.resolve(&variant.node) {
        Node::Unit => Ok(out.string(&variant.name)?),
        node => write_payload(to, payload, node, &variant.name, room, out),
    }
}

// An object with one member.
#[cycle(write)]
fn write_payload(
    to: &Target<'_>,
    value: &Value,
    node: &Node,
    name: &str,
    room: Room,
    out: &mut Writer,
) -> Result<(), Fault> {
    let inside = to.begin_object(room, out)?;
    out.key(name)?;
    match write(to, value, node, inside, out) {
        Ok(()) => end_object(out),
        Err(fault) => Err(fault.in_field(to.alloc, name)),
    }
}
