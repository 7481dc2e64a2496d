//! Schemas as their files give them: trees of nodes that may name types.
use bitcode_schema::schema::IntKind;

/// A field of a struct, or a variant of an enum with its payload.
#[cycle(node)]
#[derive(Drop)]
pub struct Member {
    pub name: String,
    pub node: Node,
}

/// The values at one place.
#[cycle(node)]
#[derive(Drop)]
pub enum Node {
    Unit,
    Bool,
    Char,
    Int(IntKind),
    /// An integer except 0.
    NonZero(IntKind),
    F32,
    F64,
    /// A text, of at most so many bytes if there is a capacity.
    Text(Option<usize>),
    Duration,
    Uuid,
    /// A list or a set, of at most so many elements if there is a capacity.
    List(Option<usize>, Box<Node>),
    Map(Box<Node>, Box<Node>),
    Array(Box<Node>, usize),
    Tuple(Vec<Node>),
    Struct(Vec<Member>),
    Option(Box<Node>),
    Result(Box<Node>, Box<Node>),
    Enum(Vec<Member>),
    /// The type at this index of the schema's types.
    Named(usize),
}

/// The types that a schema declares, and the node of the whole value.
#[derive(Drop)]
pub struct Types {
    pub nodes: Vec<Node>,
    pub root: Node,
}

impl Types {
    /// The node itself, or that of the type which it names. A type that only names itself stays a name.
    pub fn resolve<'a>(&'a self, node: &'a Node) -> &'a Node {
        let mut found = node;
        for _ in 0..self.nodes.len() {
            match found {
                Node::Named(i) if *i < self.nodes.len() => found = &self.nodes[*i],
                _ => return found,
            }
        }
        found
    }
}
