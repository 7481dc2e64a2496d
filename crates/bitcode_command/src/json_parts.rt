//! The parts of a value of JSON, as a type expects them.
use crate::fault::Fault;
use crate::json_text::expected;
use crate::maps::has_text_keys;
use crate::node::{Member, Node, Types};
use crate::options::{SOME, is_nullable};
use json::Value;
use std::alloc::Global;

/// A member of an object: its name and its value.
pub type JsonMember<'a> = (&'a str, Value<'a>);

/// The items of the list that stands for a list, an array or a tuple.
pub fn list_for<'v, 'a>(
    alloc: Global,
    json: &'v Value<'a>,
    node: &Node,
) -> Result<&'v Vec<Value<'a>>, Fault> {
    match node {
        Node::Array(_, count) => list_of(alloc, json, *count, "elements"),
        Node::Tuple(fields) => list_of(alloc, json, fields.len(), "fields"),
        Node::List(limit, _) => list_within(alloc, json, *limit),
        _ => list_within(alloc, json, None),
    }
}

// The items of a list, of at most so many.
fn list_within<'v, 'a>(
    alloc: Global,
    json: &'v Value<'a>,
    limit: Option<usize>,
) -> Result<&'v Vec<Value<'a>>, Fault> {
    match json {
        Value::Array(items) => match limit {
            Some(limit) if items.len() > limit => {
                let what = format!(in alloc; "expected at most {limit} elements")?;
                Err(Fault::new(alloc, what.as_str()))
            }
            _ => Ok(items),
        },
        _ => Err(expected(alloc, "a list", json)),
    }
}

// The items of a list of so many.
fn list_of<'v, 'a>(
    alloc: Global,
    json: &'v Value<'a>,
    count: usize,
    parts: &str,
) -> Result<&'v Vec<Value<'a>>, Fault> {
    match json {
        Value::Array(items) if items.len() == count => Ok(items),
        _ => {
            let what = format!(in alloc; "a list of {count} {parts}")?;
            Err(expected(alloc, what.as_str(), json))
        }
    }
}

/// The items of a list that stands for a map.
pub fn list_of_pairs<'v, 'a>(
    alloc: Global,
    json: &'v Value<'a>,
) -> Result<&'v Vec<Value<'a>>, Fault> {
    match json {
        Value::Array(items) => Ok(items),
        _ => Err(expected(alloc, "a list of pairs", json)),
    }
}

/// The key and the value of a pair.
pub fn pair_of<'v, 'a>(
    alloc: Global,
    json: &'v Value<'a>,
) -> Result<(&'v Value<'a>, &'v Value<'a>), Fault> {
    match json {
        Value::Array(items) => match items.as_slice() {
            [first, second] => Ok((first, second)),
            _ => Err(expected(alloc, "a list of a key and a value", json)),
        },
        _ => Err(expected(alloc, "a list of a key and a value", json)),
    }
}

/// The members of an object that stands for a map of these keys.
pub fn members_of_map<'v, 'a>(
    types: &Types,
    json: &'v Value<'a>,
    key: &Node,
) -> Option<&'v Vec<JsonMember<'a>>> {
    match json {
        Value::Object(members) if has_text_keys(types, key) => Some(members),
        _ => None,
    }
}

/// The members of an object that are fields of a struct, each once.
pub fn members_of_struct<'v, 'a>(
    alloc: Global,
    json: &'v Value<'a>,
    fields: &[Member],
) -> Result<&'v Vec<JsonMember<'a>>, Fault> {
    let Value::Object(given) = json else {
        return Err(expected(alloc, "an object", json));
    };
    let mut found = 0usize;
    for index in 0..fields.len() {
        if find(given, index, &fields[index].name).is_some() {
            found = found.saturating_add(1);
        }
    }
    if given.len() == found {
        Ok(given)
    } else {
        Err(other_field(alloc, given, fields))
    }
}

// What is said of a member that is no field, or that comes twice.
fn other_field(alloc: Global, given: &[JsonMember<'_>], fields: &[Member]) -> Fault {
    for member in given {
        if !fields.iter().any(|field| field.name.as_str() == member.0) {
            return Fault::new(alloc, "the type has no such field").in_field(alloc, member.0);
        }
    }
    Fault::new(alloc, "a field comes twice")
}

/// The member of this name, which is sought at its index first.
pub fn find<'v, 'a>(
    given: &'v [JsonMember<'a>],
    index: usize,
    name: &str,
) -> Option<&'v Value<'a>> {
    match given.get(index) {
        Some(member) if member.0 == name => Some(&member.1),
        _ => find_anywhere(given, name),
    }
}

fn find_anywhere<'v, 'a>(given: &'v [JsonMember<'a>], name: &str) -> Option<&'v Value<'a>> {
    for member in given {
        if member.0 == name {
            return Some(&member.1);
        }
    }
    None
}

// The one member of an object.
fn only_member<'v, 'a>(json: &'v Value<'a>) -> Option<&'v JsonMember<'a>> {
    match json {
        Value::Object(members) => match members.as_slice() {
            [member] => Some(member),
            _ => None,
        },
        _ => None,
    }
}

/// What an object with the one member `Some` holds, where it stands for an option.
pub fn wrapped<'v, 'a>(types: &Types, json: &'v Value<'a>, inner: &Node) -> Option<&'v Value<'a>> {
    match only_member(json) {
        Some(member) if member.0 == SOME && is_nullable(types, inner) => Some(&member.1),
        _ => None,
    }
}

/// Which variant of a result it is, and what that holds.
pub fn result_of<'v, 'a>(
    alloc: Global,
    json: &'v Value<'a>,
) -> Result<(usize, &'v Value<'a>), Fault> {
    match only_member(json) {
        Some(member) if member.0 == "Ok" => Ok((0, &member.1)),
        Some(member) if member.0 == "Err" => Ok((1, &member.1)),
        _ => Err(expected(alloc, "an object with `Ok` or `Err`", json)),
    }
}

/// Which variant of an enum it is, and what that holds, unless only its name is given.
pub fn variant_of<'v, 'a>(
    alloc: Global,
    json: &'v Value<'a>,
    variants: &[Member],
) -> Result<(usize, Option<&'v Value<'a>>), Fault> {
    let (name, part) = match json {
        Value::String(name) => (*name, None),
        _ => match only_member(json) {
            Some(member) => (member.0, Some(&member.1)),
            None => return Err(expected(alloc, "a variant", json)),
        },
    };
    for index in 0..variants.len() {
        if variants[index].name.as_str() == name {
            return Ok((index, part));
        }
    }
    let what = format!(in alloc; "the type has no variant `{name}`")?;
    Err(Fault::new(alloc, what.as_str()))
}
