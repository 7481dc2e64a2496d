//! Writing the fields of structs and tuples.
#![tactic(auto)]

ghost use Rattle.std.specs.Prelude.{◌≡◌, ◌+◌, ◌≤◌, length};
ghost use Rattle.bitcode_shapes.specs.Datum.{tuple};
ghost use Rattle.bitcode_untyped.specs.ShapeTree.{tuple_tree};
ghost use Rattle.bitcode_serde.specs.Serializing.{Outcome};
ghost use Rattle.bitcode_serde_types.specs.DeepFaults.{deep_faults_of_fields};
ghost use Rattle.bitcode_serde_types.specs.FieldsWritten.{tree_count, FieldsOutcome};

use crate::has_shape::HasShapes;
use crate::serialize_as::SerializeAs;
use bitcode_memory::error::Error;
use bitcode_serde::walk::field_below;
use bitcode_serde::writer::Writer;

/// The fields of a struct or a tuple, from one of them on: `()`, or a field and those behind it.
pub trait SerializeFields: HasShapes {
    /// Writes the fields of a value with `fields` fields at a place, the first of which is field `i`.
    ///
    /// Errors: `nested too deep` only for one reference too many, and `out of memory`.
    fn write_fields(
        &self,
        writer: &mut Writer,
        left: usize,
        place: usize,
        i: usize,
        fields: usize,
    ) -> Result<(), Error>
        requires place { place ≤ length writer.old.places.below.items }
        requires within { i + tree_count (Self.trees left) ≤ fields }
        ensures { FieldsOutcome writer.old (Self.trees left) place i fields (Self.content self.now)
            (deep_faults_of_fields (Self.trees left) (Self.content self.now)) result writer.new };
}

impl SerializeFields for () {
    #[inline(always)]
    fn write_fields(
        &self,
        _writer: &mut Writer,
        _left: usize,
        _place: usize,
        _i: usize,
        _fields: usize,
    ) -> Result<(), Error> {
        Ok(())
    }
}

impl<A: SerializeAs, R: SerializeFields> SerializeFields for (A, R) {
    #[inline(always)]
    fn write_fields(
        &self,
        writer: &mut Writer,
        left: usize,
        place: usize,
        i: usize,
        fields: usize,
    ) -> Result<(), Error> {
        let inside = field_below(writer, place, i, fields)?;
        self.0.write(writer, left, inside)?;
        self.1.write_fields(writer, left, place, i + 1, fields)
    }
}

/// Writes a struct or a tuple with `count` fields.
#[inline(always)]
pub fn write_tuple<R: SerializeFields>(
    fields: &R,
    count: usize,
    writer: &mut Writer,
    left: usize,
    place: usize,
) -> Result<(), Error>
    requires place { place ≤ length writer.old.places.below.items }
    requires all { tree_count (R.trees left) ≡ count }
    ensures { Outcome writer.old (tuple_tree (R.trees left)) place (tuple (R.content fields.now))
        (deep_faults_of_fields (R.trees left) (R.content fields.now)) result writer.new }
{
    fields.write_fields(writer, left, place, 0, count)
}
