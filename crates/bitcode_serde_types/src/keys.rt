//! Keys of maps.
#![tactic(auto)]

ghost use Rattle.std.specs.Prelude.{◌≡◌, ℕ, false, refl};
ghost use Rattle.std.specs.Ordering.{eq_by_cmp};
ghost use Rattle.bitcode_untyped.specs.Bounds.{column_free};
ghost use Rattle.bitcode_serde_types.specs.Keys.{TellsKeys};
ghost use Rattle.bitcode_serde_types.specs.Restates.{KeepsAll};
ghost use Rattle.bitcode_serde_types.specs.LawfulKeys.{array_string_keys, natural_keys, number_keys, text_keys};
ghost use Rattle.bitcode_serde_types.specs.LawfulKeys.{uuid_keys};

use crate::serialize_as::SerializeAs;
use arrayvec::ArrayString;
use std::cmp::Ord;
use uuid::Uuid;

/// A type whose values may be keys of a map.
pub trait KeyAs: SerializeAs + Ord {
    // Those are equal that have the same content.
    ghost told: { TellsKeys (eq_by_cmp Self.cmp) Self.datum };

    ghost has_column: { (left : ℕ) → column_free (Self.tree left) ≡ false };

    ghost keeps_all: { (left : ℕ) → KeepsAll (Self.tree left) };
}

impl KeyAs for u8 {
    ghost told = { natural_keys };

    ghost has_column = { λ left. refl };

    ghost keeps_all = { λ left. tt };
}

impl KeyAs for u16 {
    ghost told = { natural_keys };

    ghost has_column = { λ left. refl };

    ghost keeps_all = { λ left. tt };
}

impl KeyAs for u32 {
    ghost told = { natural_keys };

    ghost has_column = { λ left. refl };

    ghost keeps_all = { λ left. tt };
}

impl KeyAs for u64 {
    ghost told = { natural_keys };

    ghost has_column = { λ left. refl };

    ghost keeps_all = { λ left. tt };
}

impl KeyAs for u128 {
    ghost told = { natural_keys };

    ghost has_column = { λ left. refl };

    ghost keeps_all = { λ left. tt };
}

impl KeyAs for i8 {
    ghost told = { number_keys };

    ghost has_column = { λ left. refl };

    ghost keeps_all = { λ left. tt };
}

impl KeyAs for i16 {
    ghost told = { number_keys };

    ghost has_column = { λ left. refl };

    ghost keeps_all = { λ left. tt };
}

impl KeyAs for i32 {
    ghost told = { number_keys };

    ghost has_column = { λ left. refl };

    ghost keeps_all = { λ left. tt };
}

impl KeyAs for i64 {
    ghost told = { number_keys };

    ghost has_column = { λ left. refl };

    ghost keeps_all = { λ left. tt };
}

impl KeyAs for i128 {
    ghost told = { number_keys };

    ghost has_column = { λ left. refl };

    ghost keeps_all = { λ left. tt };
}

impl KeyAs for char {
    ghost told = { natural_keys };

    ghost has_column = { λ left. refl };

    ghost keeps_all = { λ left. tt };
}

impl KeyAs for String {
    ghost told = { text_keys };

    ghost has_column = { λ left. refl };

    ghost keeps_all = { λ left. tt };
}

impl<const N: usize> KeyAs for ArrayString<N> {
    ghost told = { array_string_keys };

    ghost has_column = { λ left. refl };

    ghost keeps_all = { λ left. tt };
}

impl KeyAs for Uuid {
    ghost told = { uuid_keys };

    ghost has_column = { λ left. refl };

    ghost keeps_all = { λ left. tt };
}
