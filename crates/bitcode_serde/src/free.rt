//! Nodes whose data have no column.
ghost use Rattle.std.specs.Prelude.{◌≡◌, ◌<◌, ◌≤◌, true, length, MatchBool};
ghost use Rattle.std.specs.List.{list_all};
ghost use Rattle.bitcode_untyped.specs.Bounds.{column_free, free_limit};
ghost use Rattle.bitcode_untyped.specs.View.{tree_of_node};
ghost use Rattle.bitcode_serde.specs.Free.{AreFreeBetween};

use bitcode_untyped::shape::ShapeNode;

/// The maximal number of elements or keys without a column in one list or map.
pub const ZST_LIMIT: usize = 65536;

/// Whether `count` data of a node exceed the limit for data without an entry in any column.
pub fn is_over_limit(table: &[ShapeNode], node: &ShapeNode, left: usize, count: usize) -> bool
    ensures { MatchBool result
        ((column_free (tree_of_node left table.now node.now) ≡ true) × (free_limit < count))
        (column_free (tree_of_node left table.now node.now) ≡ true → count ≤ free_limit) }
{
    if count <= ZST_LIMIT {
        return false;
    }
    if is_free(table, node, left) {
        return true;
    }
    false
}

/// What [`is_free`] answers, with a short way for most nodes.
#[inline(always)]
pub fn lacks_columns(table: &[ShapeNode], node: &ShapeNode, left: usize) -> bool
    ensures { result ≡ column_free (tree_of_node left table.now node.now) }
{
    match node {
        ShapeNode::Unit => true,
        ShapeNode::Tuple(_) => is_free(table, node, left),
        ShapeNode::Ref(_) => is_free(table, node, left),
        _ => false,
    }
}

/// The first index from `from` on of a node that has columns, or the number of nodes.
#[cold]
#[inline(never)]
pub fn skip_free(table: &[ShapeNode], nodes: &[ShapeNode], left: usize, from: usize) -> usize
    requires { from ≤ length nodes.now }
    ensures inside { (from ≤ result) × (result ≤ length nodes.now) }
    ensures free { AreFreeBetween (tree_of_node left table.now) nodes.now from result }
{
    for i in from..nodes.len() {
        if !lacks_columns(table, &nodes[i], left) {
            return i;
        }
    }
    nodes.len()
}

/// Whether the data of a node have no entry in any column, if so many references may be followed.
#[cycle(free)]
pub fn is_free(table: &[ShapeNode], node: &ShapeNode, left: usize) -> bool
    ensures { result ≡ column_free (tree_of_node left table.now node.now) }
{
    match node {
        ShapeNode::Unit => true,
        ShapeNode::Tuple(nodes) => are_free(table, nodes, left),
        ShapeNode::Ref(i) => {
            if left == 0 {
                return false;
            }
            match table.get(*i) {
                Some(entry) => is_free(table, entry, left - 1),
                None => false,
            }
        }
        _ => false,
    }
}

#[cycle(free)]
fn are_free(table: &[ShapeNode], nodes: &[ShapeNode], left: usize) -> bool
    ensures { result ≡ list_all (λ node. column_free (tree_of_node left table.now node)) nodes.now }
{
    for node in nodes {
        if !is_free(table, node, left) {
            return false;
        }
    }
    true
}
