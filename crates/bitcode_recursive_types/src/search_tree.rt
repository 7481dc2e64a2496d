//! `SearchTree` in the second format. What is below the declarations was written by `scripts/second_format`.
ghost use Rattle.std.specs.Prelude.{◌≤◌, length, IfOk, IfErr, OnOk};
ghost use Rattle.bitcode_serde_types.specs.Written.{option_tree, IsSteady, Continues, IsRefusalAt, option_datum};
ghost use Rattle.bitcode_serde_types.specs.Written.{ReadsAs};
ghost use Rattle.bitcode_recursive_types.specs.SearchTreeShape.{search_tree_tree, search_tree_datum};

use bitcode_serde_types::written::{
    Budget, DeserializeAs, Error, HasShape, Reader, Reason, SerializeAs, Writer, enter_variant,
    find_field, follow, read_field, write_tuple,
};
use std::alloc::Global;

/// A sorted tree.
#[derive(Drop)]
pub struct SearchTree {
    pub left: Option<Box<SearchTree>>,
    pub key: u32,
    pub right: Option<Box<SearchTree>>,
}

impl HasShape for SearchTree {
    ghost use Rattle.bitcode_recursive_types.specs.SearchTreeShape.{search_tree_tree, search_tree_datum};
    ghost use Rattle.bitcode_recursive_types.specs.SearchTreeShape.{search_tree_sound};

    ghost tree = { search_tree_tree };

    ghost datum = { search_tree_datum };

    ghost sound = { search_tree_sound };
}

impl SerializeAs for SearchTree {
    fn write(&self, writer: &mut Writer, left: usize, place: usize) -> Result<(), Error> {
        let below = follow(left)?;
        let fields = (&self.left, (&self.key, (&self.right, ())));
        write_tuple(&fields, 3, writer, below, place)
    }
}

impl<'a> DeserializeAs<'a> for SearchTree {
    fn is_free() -> bool {
        false
    }

    fn read(
        alloc: Global,
        reader: &mut Reader<'a>,
        budget: &mut Budget,
        left: usize,
        place: usize,
    ) -> Result<SearchTree, Error> {
        read_search_tree(alloc, reader, budget, left, place)
    }
}

// Reads a value of `SearchTree`.
#[cycle(search_tree)]
fn read_search_tree(
    alloc: Global,
    reader: &mut Reader<'_>,
    budget: &mut Budget,
    left: usize,
    place: usize,
) -> Result<SearchTree, Error>
    requires place { place ≤ length reader.old.places.below.items }
    requires steady { IsSteady reader.old }
    ensures continues { OnOk result (Continues reader.old reader.new) }
    ensures read { IfOk result
        (λ t. ReadsAs search_tree_datum (search_tree_tree left) place reader.old budget.old t
        reader.new budget.new) }
    ensures refused { IfErr result
        (λ e. IsRefusalAt (search_tree_tree left) place reader.old e.reason) }
{
    let below = follow(left)?;
    budget.take(1);
    let place0 = find_field(reader, place, 0, 3)?;
    let field0 = read_search_tree_option(alloc, reader, budget, below, place0)?;
    let field1: u32 = read_field(alloc, reader, budget, below, place, 1, 3)?;
    let place2 = find_field(reader, place, 2, 3)?;
    let right = read_search_tree_option(alloc, reader, budget, below, place2)?;
    Ok(SearchTree {
        left: field0,
        key: field1,
        right,
    })
}

// Reads a `SearchTree` that may be missing.
#[cycle(search_tree)]
fn read_search_tree_option(
    alloc: Global,
    reader: &mut Reader<'_>,
    budget: &mut Budget,
    left: usize,
    place: usize,
) -> Result<Option<Box<SearchTree>>, Error>
    requires place { place ≤ length reader.old.places.below.items }
    requires steady { IsSteady reader.old }
    ensures continues { OnOk result (Continues reader.old reader.new) }
    ensures read { IfOk result
        (λ t. ReadsAs (option_datum (λ b. search_tree_datum b.value))
        (option_tree (search_tree_tree left)) place reader.old budget.old t reader.new budget.new) }
    ensures refused { IfErr result
        (λ e. IsRefusalAt (option_tree (search_tree_tree left)) place reader.old e.reason) }
{
    let found = enter_variant(reader, budget, 2, Reason::InvalidOption, place)?;
    if found.index == 0 {
        budget.take(1);
        return Ok(None);
    }
    let value = read_search_tree(alloc, reader, budget, left, found.place)?;
    let held = Box::new(alloc, value)?;
    Ok(Some(held))
}
