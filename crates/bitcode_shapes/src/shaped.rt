//! Lawful types.
ghost use Rattle.std.specs.Prelude.{◌≡◌, IsTrue};
ghost use Rattle.bitcode_shapes.specs.DataOf.{DataOf};

/// A type whose values hold data of one shape.
///
/// What is known of the type, with its laws, is one record. `specs` has a builder for each kind of type: in
/// `LeafData.antt` for numbers and texts, in `DataKinds.antt` for pairs, sequences and choices, and in `SetData.antt`
/// for heaps, sets and maps. A struct corresponds to the tuple of its fields:
///
/// ```
/// pub struct Point {
///     pub x: u32,
///     pub y: u32,
/// }
///
/// impl Shaped for Point {
///     ghost data = { data_as (λ t. (t.x, t.y)) (λ p. (record { x = p.0; y = p.1 }, refl)) (λ t. refl)
///         ⟦<(u32, u32) as Shaped>⟧.data };
///
///     fn told(&self) {
///         self.x.told();
///         self.y.told();
///     }
/// }
/// ```
pub trait Shaped {
    // what is known of the type
    ghost data: { DataOf Self };

    /// Every value satisfies its type's invariant.
    fn told(&self)
        ensures { data.is_value self.now };
}

/// A type whose values can be made from data, as those of each lawful type can.
pub use crate::shaped::Shaped as Made;

/// Two values that are the same are equal in every respect, if the type's record says so: for numbers, and for tuples,
/// arrays, options, results, structs and enums of such types.
///
/// So decoding such a type gives exactly the value that was encoded.
///
/// ```
/// comes_back(&spot, &bytes, &again);
/// if let Ok(read) = &again {
///     told_exactly(&spot, read);
/// }
/// ```
pub fn told_exactly<T: Shaped>(t: &T, u: &T)
    ensures { IsTrue T.data.exact → T.data.same t.now u.now → t.now ≡ u.now }
{
    t.told();
    u.told();
}
