//! The state of a writer.
#![tactic(auto)]

ghost use Rattle.std.specs.Prelude.{◌≤◌, length, map, All};
ghost use Rattle.std.proofs.Props.{props};
ghost use Rattle.bitcode_serde.specs.Links.{AreFiled};

use crate::column::WrittenColumn;
use crate::places::Places;
use std::alloc::Global;

/// A column, and the number of its place.
#[derive(Drop)]
pub struct PlacedWritten {
    pub(crate) place: usize,
    pub(crate) column: WrittenColumn,
}

/// The columns so far, and the places that were reached.
#[derive(Drop)]
pub struct Writer {
    pub(crate) alloc: Global,
    pub(crate) places: Places,
    pub(crate) columns: Vec<PlacedWritten>,

    ghost inside: { All (λ c. c.place ≤ length places.below.items) columns.items },
    ghost filed: { AreFiled places.links.items (map (λ c. c.place) columns.items) } by { Prim.hlevel
        props },
}
