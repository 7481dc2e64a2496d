//! What code that `scripts/second_format` writes calls, in one module.

pub use crate::deserialize_as::DeserializeAs;
pub use crate::entering::{
    enter_list, enter_map, enter_variant, find_field, follow, read_at, read_field,
};
pub use crate::fields::write_tuple;
pub use crate::has_shape::HasShape;
pub use crate::maps::{hashed_map, ordered_map};
pub use crate::read_fields::{DeserializeFields, read_some, read_tuple};
pub use crate::serialize_as::SerializeAs;
pub use crate::variants::write_variant;
pub use bitcode_memory::error::{Error, Reason};
pub use bitcode_serde::budget::Budget;
pub use bitcode_serde::reader::Reader;
pub use bitcode_serde::writer::Writer;
