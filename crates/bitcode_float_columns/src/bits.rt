//! The bits of floats. Every NaN has the same bits here.
ghost use Rattle.std.specs.Prelude.{◌≡◌, ◌==◌, length, map, to_bits, from_bits};
ghost use Rattle.std.specs.Float.{binary32, binary64};
ghost use Rattle.bitcode_float_columns.specs.FloatColumn.{canonical};

use std::num::{
    f32_from_bits_with_nan, f32_to_bits_with_nan, f64_from_bits_with_nan, f64_to_bits_with_nan,
};
use std::simd::prelude::*;

/// Whether an encoder writes these bits for the float with these bits. It does not for any NaN but one.
pub fn is_canonical_f32(bits: u32) -> bool
    ensures { result ≡ (canonical binary32 bits == bits) }
{
    f32_to_bits_with_nan(f32_from_bits_with_nan(bits)) == bits
}

/// The same for an `f64`.
pub fn is_canonical_f64(bits: u64) -> bool
    ensures { result ≡ (canonical binary64 bits == bits) }
{
    f64_to_bits_with_nan(f64_from_bits_with_nan(bits)) == bits
}

/// The bits of four floats. A float that is a NaN is replaced before its bits are taken.
#[inline(always)]
pub fn bits_of_f32s(floats: f32x4) -> u32x4
    requires { length floats ≡ 4 }
    ensures { result ≡ map (λ x. to_bits binary32 x) floats }
{
    let is_nan = floats.simd_ne(floats);
    let numbers = is_nan.select(f32x4::splat(0.0), floats);
    is_nan.select(u32x4::splat(0x7fc0_0000), numbers.to_bits())
}

/// The four floats with these bits.
#[inline(always)]
pub fn f32s_with_bits(bits: u32x4) -> f32x4
    requires { length bits ≡ 4 }
    ensures { result ≡ map (λ b. from_bits binary32 b) bits }
{
    let sizes = bits & u32x4::splat(0x7fff_ffff);
    let is_nan = sizes.simd_gt(u32x4::splat(0x7f80_0000));
    let numbers = is_nan.select(u32x4::splat(0), bits);
    is_nan.select(f32x4::splat(f32::NAN), f32x4::from_bits(numbers))
}

/// The bits of four floats.
#[inline(always)]
pub fn bits_of_f64s(floats: f64x4) -> u64x4
    requires { length floats ≡ 4 }
    ensures { result ≡ map (λ x. to_bits binary64 x) floats }
{
    let is_nan = floats.simd_ne(floats);
    if !is_nan.any() {
        return floats.to_bits();
    }
    let numbers = is_nan.select(f64x4::splat(0.0), floats);
    is_nan.select(u64x4::splat(0x7ff8_0000_0000_0000), numbers.to_bits())
}
