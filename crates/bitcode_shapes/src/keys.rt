//! Keys of sets and maps: all types of this crate with `==` and an order but `Duration`. Its `==` compares the stored
//! seconds and nanoseconds, and no contract says that the stored nanoseconds are below one second.
ghost use Rattle.std.specs.Prelude.{◌≡◌};

use crate::shaped::Shaped;
use std::cmp::Ord;

/// A type whose values can be elements of a set and keys of a map: its `==` and its order are those of its record. So
/// `==` calls values equal that are the same.
///
/// A user-defined type writes `refl` twice, if its record is written with its own `==` and order. A derive writes those
/// of a struct of two fields as a tuple's are written, so `data_as` serves. It takes the fields of a larger struct in
/// another order, which gives the same answers. `key_as` puts them into the record:
///
/// ```rust,from:crates/bitcode_own_types/src/seat.rt
/// impl Shaped for Seat {
///     ghost data = { key_as
///         (data_as (λ t. (t.level, t.row, t.place))
///         (λ p. (record { level = p.0; row = p.1; place = p.2 }, refl)) (λ t. refl)
///         ⟦<(u8, u16, u16) as Shaped>⟧.data) ⟦<Seat as PartialEq>⟧.eq ⟦<Seat as Ord>⟧.cmp
///         (λ s t. ands_in_order (⟦<u8 as PartialEq>⟧.eq s.level t.level)
///         ((⟦<u16 as PartialEq>⟧.eq s.row t.row) ∷ (⟦<u16 as PartialEq>⟧.eq s.place t.place) ∷ []))
///         (λ s t. thens_in_order (⟦<u8 as Ord>⟧.cmp s.level t.level)
///         ((⟦<u16 as Ord>⟧.cmp s.row t.row) ∷ (⟦<u16 as Ord>⟧.cmp s.place t.place) ∷ [])) };
///
///     fn told(&self) {
///         self.level.told();
///         self.row.told();
///         self.place.told();
///     }
/// }
/// // ..
/// impl Key for Seat {
///     ghost equal = { refl };
///
///     ghost ordered = { refl };
/// }
/// ```
///
/// The record of an enum without payloads is `bare_key` of its variants (`specs/BareKeys.antt`).
pub trait Key: Shaped + Ord {
    ghost equal: { Self.eq ≡ Self.data.eq };

    ghost ordered: { Self.cmp ≡ Self.data.cmp };
}
