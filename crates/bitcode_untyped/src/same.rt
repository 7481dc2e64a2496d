//! When two values are equal.
ghost use Rattle.std.specs.Prelude.{◌≡◌, ◌≢◌, ◌==◌, MatchBool, to_bits};
ghost use Rattle.std.specs.Float.{binary32, binary64};
ghost use Rattle.std.specs.Cmp.Lexicographic.{pointwise};
ghost use Rattle.bitcode_untyped.specs.Content.{content_of};
ghost use Rattle.bitcode_untyped.specs.Same.{same_values, same_pairs};
ghost use Rattle.bitcode_untyped.specs.SameLaws.{same_partial, same_equivalence};

use crate::value::Value;
use std::num::{f32_to_bits_with_nan, f64_to_bits_with_nan};

impl PartialEq for Value {
    ghost eq = { same_values };

    ghost laws = { same_partial };

    fn eq(&self, other: &Value) -> bool
        ensures answer { result ≡ same_values self.now other.now }
        ensures same { MatchBool result (content_of self.now ≡ content_of other.now)
            (content_of self.now ≢ content_of other.now) }
    {
        same(self, other)
    }
}

impl Eq for Value {
    ghost laws = { same_equivalence };
}

// Whether two floats have the same bits, where all NaNs have the same.
fn same_f32(one: f32, other: f32) -> bool
    ensures { result ≡ (to_bits binary32 one == to_bits binary32 other) }
{
    f32_to_bits_with_nan(one) == f32_to_bits_with_nan(other)
}

// The same for two `f64`s.
fn same_f64(one: f64, other: f64) -> bool
    ensures { result ≡ (to_bits binary64 one == to_bits binary64 other) }
{
    f64_to_bits_with_nan(one) == f64_to_bits_with_nan(other)
}

// The match of `same`: leaves are compared by `==`.
macro_rules! same {
    (($one:expr, $other:expr) $($leaf:ident,)*) => {
        match $one {
            $(Value::$leaf(a) => match $other {
                Value::$leaf(b) => *a == *b,
                _ => false,
            },)*
            Value::F32(a) => match $other {
                Value::F32(b) => same_f32(*a, *b),
                _ => false,
            },
            Value::F64(a) => match $other {
                Value::F64(b) => same_f64(*a, *b),
                _ => false,
            },
            Value::Unit => match $other {
                Value::Unit => true,
                _ => false,
            },
            Value::Bytes(a) => match $other {
                Value::Bytes(b) => a.as_slice() == b.as_slice(),
                _ => false,
            },
            Value::Option(a) => match $other {
                Value::Option(b) => match a {
                    None => b.is_none(),
                    Some(a) => match b {
                        Some(b) => same(a, b),
                        None => false,
                    },
                },
                _ => false,
            },
            Value::Seq(a) => match $other {
                Value::Seq(b) => all_same(a, b),
                _ => false,
            },
            Value::Map(a) => match $other {
                Value::Map(b) => all_pairs_same(a, b),
                _ => false,
            },
            Value::Tuple(a) => match $other {
                Value::Tuple(b) => all_same(a, b),
                _ => false,
            },
            Value::Enum(i, a) => match $other {
                Value::Enum(j, b) => *i == *j && same(a, b),
                _ => false,
            },
        }
    };
}

// Whether two values have the same content.
#[cycle(same)]
fn same(one: &Value, other: &Value) -> bool
    ensures { result ≡ same_values one.now other.now }
{
    same!(
        (one, other) Bool, U8, U16, U32, U64, U128, I8, I16, I32, I64, I128, Char, Str,
    )
}

#[cycle(same)]
fn all_same(values: &[Value], others: &[Value]) -> bool
    ensures { result ≡ pointwise same_values values.now others.now }
{
    if values.len() != others.len() {
        return false;
    }
    for i in 0..values.len() {
        if !same(&values[i], &others[i]) {
            return false;
        }
    }
    true
}

#[cycle(same)]
fn all_pairs_same(pairs: &[(Value, Value)], others: &[(Value, Value)]) -> bool
    ensures { result ≡ pointwise same_pairs pairs.now others.now }
{
    if pairs.len() != others.len() {
        return false;
    }
    for i in 0..pairs.len() {
        let pair = &pairs[i];
        let other = &others[i];
        if !same(&pair.0, &other.0) {
            return false;
        }
        if !same(&pair.1, &other.1) {
            return false;
        }
    }
    true
}
