//! Writing variants of enums.
#![tactic(auto)]

ghost use Rattle.std.specs.Prelude.{◌≤◌, length};
ghost use Rattle.bitcode_shapes.specs.Datum.{choice};
ghost use Rattle.bitcode_untyped.specs.ShapeTree.{ShapeTrees, choice_tree};
ghost use Rattle.bitcode_serde.specs.Serializing.{Outcome, IsVariant};
ghost use Rattle.bitcode_serde_types.specs.DeepFaults.{deep_faults};

use crate::serialize_as::SerializeAs;
use bitcode_memory::error::Error;
use bitcode_serde::step::Step;
use bitcode_serde::write_column::Entry;
use bitcode_serde::writer::Writer;

/// Writes the index of a variant, and then what it holds.
pub fn write_variant<T: SerializeAs>(
    payload: &T,
    index: u8,
    writer: &mut Writer,
    left: usize,
    place: usize,
) -> Result<(), Error>
    requires { place ≤ length writer.old.places.below.items }
    ensures { (trees : ShapeTrees) → IsVariant trees index (T.tree left)
        → Outcome writer.old (choice_tree trees) place (choice index (T.datum payload.now))
        (deep_faults (T.tree left) (T.datum payload.now)) result writer.new }
{
    writer.put(place, Entry::Byte(index))?;
    let inside = writer.below(place, Step::Variant(index))?;
    payload.write(writer, left, inside)
}
