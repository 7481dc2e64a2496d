//! `Node` in the second format. What is below the declarations was written by `scripts/second_format`.
ghost use Rattle.std.specs.Prelude.{◌≤◌, length, IfOk, IfErr, OnOk};
ghost use Rattle.bitcode_serde_types.specs.Written.{IsSteady, Continues, IsRefusalAt, ReadsAs};
ghost use Rattle.bitcode_recursive_types.specs.NodeShape.{node_tree, node_datum};

use bitcode_serde_types::written::{
    Budget, DeserializeAs, Error, HasShape, Reader, SerializeAs, Writer, enter_list, find_field,
    follow, read_field, read_some, write_tuple,
};
use std::alloc::Global;

/// A tree of named nodes.
#[derive(Drop)]
pub struct Node {
    pub name: String,
    pub weight: i32,
    pub children: Vec<Node>,
    pub labels: Vec<(u8, bool)>,
}

impl HasShape for Node {
    ghost use Rattle.bitcode_recursive_types.specs.NodeShape.{node_tree, node_datum, node_sound};

    ghost tree = { node_tree };

    ghost datum = { node_datum };

    ghost sound = { node_sound };
}

impl SerializeAs for Node {
    fn write(&self, writer: &mut Writer, left: usize, place: usize) -> Result<(), Error> {
        let below = follow(left)?;
        let fields = (
            &self.name,
            (&self.weight, (&self.children, (&self.labels, ()))),
        );
        write_tuple(&fields, 4, writer, below, place)
    }
}

impl<'a> DeserializeAs<'a> for Node {
    fn is_free() -> bool {
        false
    }

    fn read(
        alloc: Global,
        reader: &mut Reader<'a>,
        budget: &mut Budget,
        left: usize,
        place: usize,
    ) -> Result<Node, Error> {
        read_node(alloc, reader, budget, left, place)
    }
}

// Reads a value of `Node`.
#[cycle(node)]
fn read_node(
    alloc: Global,
    reader: &mut Reader<'_>,
    budget: &mut Budget,
    left: usize,
    place: usize,
) -> Result<Node, Error>
    requires place { place ≤ length reader.old.places.below.items }
    requires steady { IsSteady reader.old }
    ensures continues { OnOk result (Continues reader.old reader.new) }
    ensures read { IfOk result
        (λ t. ReadsAs node_datum (node_tree left) place reader.old budget.old t reader.new
        budget.new) }
    ensures refused { IfErr result (λ e. IsRefusalAt (node_tree left) place reader.old e.reason) }
{
    let below = follow(left)?;
    budget.take(1);
    let some0: (String, (i32, ())) = read_some(alloc, reader, budget, below, place, 0, 4)?;
    let (name, (weight, _end)) = some0;
    let place2 = find_field(reader, place, 2, 4)?;
    let found2 = enter_list(reader, budget, false, place2)?;
    let mut children = Vec::new(alloc);
    for _i in 0..found2.count {
        let item = read_node(alloc, reader, budget, below, found2.place)?;
        budget.keep(&mut children, item)?;
    }
    let labels: Vec<(u8, bool)> = read_field(alloc, reader, budget, below, place, 3, 4)?;
    Ok(Node {
        name,
        weight,
        children,
        labels,
    })
}
