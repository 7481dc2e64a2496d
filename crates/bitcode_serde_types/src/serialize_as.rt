//! Encoding values of Rust types.
ghost use Rattle.std.specs.Prelude.{◌≡◌, ◌≤◌, [], length, IfOk, IfErr, OnOk};
ghost use Rattle.bitcode_untyped.specs.Bounds.{IsLimited};
ghost use Rattle.bitcode_untyped.specs.Laws.{LengthsBelowLimit};
ghost use Rattle.bitcode_untyped.specs.ShapeTree.{IsOf};
ghost use Rattle.bitcode_untyped.specs.Spelling.{SpellsDatum, datum_text};
ghost use Rattle.bitcode_serde.specs.Serializing.{Outcome};
ghost use Rattle.bitcode_serde.specs.Writing.{IsWriterReason};
ghost use Rattle.bitcode_serde_types.specs.DeepFaults.{deep_faults};

use crate::has_shape::HasShape;
use bitcode_memory::error::Error;
use bitcode_serde::writer::Writer;
use std::alloc::Global;

/// A type whose values are written at the places of its shape.
pub trait SerializeAs: HasShape {
    /// Writes the value at a place, below which so many references may be followed.
    ///
    /// Errors: `nested too deep` only for one reference too many, and `out of memory`.
    fn write(&self, writer: &mut Writer, left: usize, place: usize) -> Result<(), Error>
        requires { place ≤ length writer.old.places.below.items }
        ensures { Outcome writer.old (Self.tree left) place (Self.datum self.now)
            (deep_faults (Self.tree left) (Self.datum self.now)) result writer.new };
}

/// How many references a path may have, with the one to the type itself: the 512 of `serialize`, and that to its root.
pub const DEEPEST: usize = 513;

/// Encodes a value without making a `Value` of it. The bytes are those of `serialize` for the same content under the
/// type's shape.
///
/// Errors: `nested too deep` if and only if a path has more than 512 references, and `out of memory`.
pub fn serialize_as<T: SerializeAs>(alloc: Global, value: &T) -> Result<Vec<u8>, Error>
    ensures written { IfOk result
        (λ bytes. bytes.items ≡ datum_text (T.tree 513) (T.datum value.now)) }
    ensures of_type { OnOk result (IsOf (T.tree 513) (T.datum value.now)) }
    ensures whole { OnOk result (deep_faults (T.tree 513) (T.datum value.now) ≡ []) }
    ensures round_trip { IfOk result
        (λ bytes. IsLimited (T.tree 513) (T.datum value.now)
        → LengthsBelowLimit (T.tree 513) (T.datum value.now)
        → SpellsDatum (T.tree 513) bytes.items (T.datum value.now)) }
    ensures refused { IfErr result
        (λ e. IsWriterReason e.reason (deep_faults (T.tree 513) (T.datum value.now))) }
{
    let mut writer = Writer::new(alloc);
    value.write(&mut writer, DEEPEST, 0)?;
    writer.collect()
}
