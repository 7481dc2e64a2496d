//! Shapes: tables of nodes that may refer to each other.
ghost use Rattle.std.specs.Prelude.{◌≡◌, ◌↔◌, IsTrue, IfOk, IfErr};
ghost use Rattle.std.specs.List.{list_all};
ghost use Rattle.bitcode_memory.specs.declared.error.Reason.TheVariants.{BadShape};
ghost use Rattle.bitcode_untyped.specs.References.{refers_soundly, IsSoundTable};

use bitcode_memory::error::{Error, Reason};

/// The values at one place: values of one type, or composite values whose parts have further nodes.
///
/// `Ref(i)` refers to entry `i` of the table, so a shape may contain itself.
///
/// ```
/// let entry = ShapeNode::Tuple(vec![in alloc; ShapeNode::Str, ShapeNode::U64]?);
/// let lists = ShapeNode::Seq(Box::new(alloc, entry)?);
/// ```
#[derive(Clone, Debug, Drop, PartialEq, Eq)]
pub enum ShapeNode {
    Unit,
    Bool,
    U8,
    U16,
    U32,
    U64,
    U128,
    I8,
    I16,
    I32,
    I64,
    I128,
    F32,
    F64,
    Char,
    Str,
    /// A list of `U8`, stored as bytes.
    Bytes,
    Option(Box<ShapeNode>),
    Seq(Box<ShapeNode>),
    /// Keys and values.
    Map(Box<ShapeNode>, Box<ShapeNode>),
    Tuple(Vec<ShapeNode>),
    /// A node for each variant.
    Enum(Vec<ShapeNode>),
    Ref(usize),
}

impl ShapeNode {
    // Each reference in the node is to one of so many entries, and has an option, list, map or enum above it.
    #[cycle(refers)]
    fn refers_soundly(&self, count: usize, below: bool) -> bool
        ensures { result ≡ refers_soundly count self.now below }
    {
        match self {
            ShapeNode::Option(node) => node.refers_soundly(count, true),
            ShapeNode::Seq(node) => node.refers_soundly(count, true),
            ShapeNode::Map(key, value) => key.refers_soundly(count, true)
                && value.refers_soundly(count, true),
            ShapeNode::Tuple(nodes) => all_refer_soundly(nodes, count, below),
            ShapeNode::Enum(nodes) => all_refer_soundly(nodes, count, true),
            ShapeNode::Ref(i) => below && *i < count,
            _ => true,
        }
    }
}

#[cycle(refers)]
fn all_refer_soundly(nodes: &[ShapeNode], count: usize, below: bool) -> bool
    ensures { result ≡ list_all (λ node. refers_soundly count node below) nodes.now }
{
    for node in nodes {
        if !node.refers_soundly(count, below) {
            return false;
        }
    }
    true
}

fn is_sound_table(table: &[ShapeNode], root: usize) -> bool
    ensures { IsTrue result ↔ IsSoundTable table.now root }
{
    root < table.len() && all_refer_soundly(table, table.len(), false)
}

/// A table of nodes, and the index of the entry for the whole value.
#[derive(Debug, Drop)]
pub struct Shape {
    table: Vec<ShapeNode>,
    root: usize,

    ghost sound: { IsSoundTable table.items root },
}

impl Shape {
    /// Creates the shape of the entry `root` of a table.
    ///
    /// The error is `bad shape` if `root` or a reference is not an index of the table, or if a reference has no
    /// `Option`, `Seq`, `Map` or `Enum` above it in its own entry. So every cycle passes a node at which a value may
    /// end. After an error the table is dropped.
    ///
    /// ```
    /// let lists = Shape::new(vec![in alloc; ShapeNode::Seq(Box::new(alloc, ShapeNode::Ref(0))?)]?, 0)?;
    /// ```
    pub fn new(table: Vec<ShapeNode>, root: usize) -> Result<Shape, Error>
        ensures kept { IfOk result
            (λ shape. IsSoundTable table.items root × (shape.table ≡ table) × (shape.root ≡ root)) }
        ensures refused { IfErr result
            (λ e. (e.reason ≡ BadShape) × (IsSoundTable table.items root → ⊥)) }
    {
        if !is_sound_table(&table, root) {
            return Err(Error {
                reason: Reason::BadShape,
            });
        }
        Ok(Shape { table, root })
    }

    /// The entries of the table. References are indices of it.
    pub fn table(&self) -> &[ShapeNode]
        ensures { result.now ≡ self.now.table.items }
    {
        &self.table
    }

    /// The index of the entry for the whole value.
    pub fn root(&self) -> usize
        ensures { result ≡ self.now.root }
    {
        self.root
    }
}
