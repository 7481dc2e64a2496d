//! Laws of untyped data and of the bytes that spell them. The functions do nothing: their contracts are the laws.
ghost use Rattle.std.specs.Prelude.{◌≡◌, ℕ, List};
ghost use Rattle.bitcode_shapes.specs.Datum.{Datum};
ghost use Rattle.bitcode_untyped.specs.Bounds.{IsLimited};
ghost use Rattle.bitcode_untyped.specs.ShapeTree.{ShapeTree, IsOf, IsSound};
ghost use Rattle.bitcode_untyped.specs.Spelling.{SpellsDatum, datum_text};
ghost use Rattle.bitcode_untyped.specs.Strict.{StrictlySpellsDatum};
ghost use Rattle.bitcode_untyped.specs.View.{tree_of};
ghost use Rattle.bitcode_untyped.specs.Cases.{FaultsTell};
ghost use Rattle.bitcode_untyped.specs.Content.{DatumDecides};
ghost use Rattle.bitcode_untyped.specs.declared.shape.Shape.{Shape};
ghost use Rattle.bitcode_untyped.specs.Laws.{ColumnsDecide, SpellsOnce, DatumTakesAnEighth, ElementsAreBounded};
ghost use Rattle.bitcode_untyped.specs.Laws.{LengthsBelowLimit, ReadsBackDatum};

/// The columns of a datum so far determine the place, kind and count of the next column, and all columns together
/// determine the datum. So a decoder always knows what to read next.
///
/// ```
/// columns_decide();
/// ```
pub fn columns_decide()
    ensures { (shape : ShapeTree) → ColumnsDecide shape }
{}

/// The bytes of a datum of any shape. The text of a datum spells it, an input spells at most one datum, its columns
/// have at most eight entries per byte, and it has at most 65537 elements and pairs per entry.
///
/// ```
/// spelled_data();
/// ```
pub fn spelled_data()
    ensures round_trip { (shape : ShapeTree) → IsSound shape → ReadsBackDatum shape }
    ensures unambiguous { (shape : ShapeTree) → SpellsOnce shape }
    ensures size_bound { (shape : ShapeTree) → IsSound shape → DatumTakesAnEighth shape }
    ensures bounded { (shape : ShapeTree) → IsSound shape → ElementsAreBounded shape }
{}

/// A datum of any shape has at most one strict spelling: the concatenated texts of its columns. So the bytes that
/// strictly spell it are those that are written for it, wherever these can be read back.
///
/// ```
/// strictly_spelled_data();
/// ```
pub fn strictly_spelled_data()
    ensures once { (shape : ShapeTree) (piece other : List ℕ) (d : Datum)
        → StrictlySpellsDatum shape piece d → StrictlySpellsDatum shape other d → piece ≡ other }
    ensures text { (shape : ShapeTree) (piece : List ℕ) (d : Datum)
        → StrictlySpellsDatum shape piece d → SpellsDatum shape piece d
        × (piece ≡ datum_text shape d) }
    ensures written { (shape : ShapeTree) → IsSound shape → (d : Datum) → IsOf shape d
        → IsLimited shape d → LengthsBelowLimit shape d
        → StrictlySpellsDatum shape (datum_text shape d) d }
{}

/// Every shape has only possible kinds of columns, so `spelled_data` holds for each shape.
///
/// ```
/// every_shape();
/// ```
pub fn every_shape()
    ensures { (shape : Shape) → IsSound (tree_of shape) }
{}

/// The datum determines a value of a shape: two values of one shape with the same datum have the same cases and
/// contents.
///
/// ```
/// one_value_of_a_datum();
/// ```
pub fn one_value_of_a_datum()
    ensures { (shape : Shape) → DatumDecides shape }
{}

/// A value has no fault under a shape exactly if its cases are those of the shape and its datum is of the shape. The
/// type's invariant is needed only for the datum of a value without faults. `serialize` states for each value that it
/// writes that its datum is of the shape.
///
/// ```
/// faults_tell();
/// ```
pub fn faults_tell()
    ensures { (shape : Shape) → FaultsTell shape }
{}
