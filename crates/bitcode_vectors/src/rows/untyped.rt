//! The stored rows of the second format: values under shapes. Each has one or more parts, and gives what the first
//! wrong part gave.
use bitcode_test_support::Got;
use std::alloc::Global;

pub mod enums;
pub mod leaves;
pub mod nodes;
pub mod references;
pub mod sequences;
pub mod shapes;
pub mod strict_values;

/// Lists of lists, and options in options as deep as references are followed.
pub fn recursion(alloc: Global) -> Result<(), Got> {
    references::lists_of_lists(alloc)?;
    references::options_in_options(alloc)
}

/// Only so many units are read, and only so many variants are written.
pub fn limits(alloc: Global) -> Result<(), Got> {
    sequences::most_units(alloc)?;
    enums::most_variants(alloc)
}

/// A map, a tuple of one, an enum without variants and one of two, and more units than are read.
pub fn composites(alloc: Global) -> Result<(), Got> {
    sequences::pairs(alloc)?;
    sequences::tuple_of_one(alloc)?;
    enums::no_variants(alloc)?;
    enums::index_without_a_variant(alloc)?;
    sequences::too_many_units(alloc)
}
