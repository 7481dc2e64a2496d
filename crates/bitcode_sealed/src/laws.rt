//! Laws that follow from the layout of sealed bytes. The functions do nothing: their contracts are the laws.
ghost use Rattle.std.specs.Prelude.{◌≡◌, ◌≤◌, ◌+◌, length, IfOk, IfErr};
ghost use Rattle.bitcode_derive.specs.Whole.{HasShortLengths};
ghost use Rattle.bitcode_sealed.specs.Damage.{DiffersWithinFour, BeginsDamaged, BeginsSealed};
ghost use Rattle.bitcode_sealed.specs.ErrorClasses.{IsOutOfMemory};
ghost use Rattle.bitcode_sealed.specs.Layout.{IsSealed};
ghost use Rattle.bitcode_sealed.specs.Opening.{IsOpeningOf, IsRefusal};
ghost use Rattle.bitcode_sealed.specs.Sealing.{IsSealingOf};

use crate::error::OpenError;
use crate::label::{Expected, Label};
use bitcode_coder::coder::{Decoder, NewDecoder, View};
use bitcode_derive::derive::HasDecoder;
use bitcode_shapes::shaped::Shaped;

/// If bytes differ from sealed bytes only within four consecutive bytes, they are not sealed: no call opens them.
///
/// The four bytes may be in the header, in the value, in a checksum, or across a boundary.
///
/// ```text
/// let bytes = seal(alloc, RECORDS, &t)?;
/// let damaged = flipped(&bytes, 17);
/// damage_is_seen(&bytes, &damaged);
/// let refused = open::<T>(alloc, &EXPECTED, &damaged); // Err
/// ```
pub fn damage_is_seen(bytes: &[u8], damaged: &[u8])
    ensures { IsSealed bytes.now → DiffersWithinFour bytes.now damaged.now → IsSealed damaged.now
        → ⊥ }
{}

/// If sealed bytes at the front of an input differ from those that were written only within four consecutive bytes, the
/// input does not begin with sealed bytes: no call opens or skips them. What follows them does not matter.
///
/// ```text
/// let mut input = bytes.to_vec(alloc)?;
/// input.extend_from_slice(&more)?;
/// input[17] ^= 1;
/// damage_in_front_is_seen(&bytes, &input);
/// let refused = open_front::<T>(alloc, &EXPECTED, &mut input.as_slice()); // Err
/// ```
pub fn damage_in_front_is_seen(bytes: &[u8], input: &[u8])
    ensures { IsSealed bytes.now → BeginsDamaged bytes.now input.now → BeginsSealed input.now → ⊥ }
{}

/// For the bytes that were sealed for a value, `open` returns an equal value, or `out of memory` if it expects their
/// label and at least their size. In each listing of the value, each column of lengths must sum to less than
/// 2251799813685247.
///
/// ```text
/// let bytes = seal(alloc, EXPECTED.label, &t)?;
/// let again: Result<T, OpenError> = open(alloc, &EXPECTED, &bytes);
/// comes_back(&t, EXPECTED.label, &EXPECTED, &bytes, &again);
/// ```
pub fn comes_back<'a, T: HasDecoder<'a> + Shaped + Drop>(
    t: &T,
    label: Label,
    expected: &Expected,
    bytes: &'a [u8],
    again: &Result<T, OpenError>,
)
where
    T::Decoder: NewDecoder + View<'a> + Decoder<T> + Drop,
    ensures equal { IsSealingOf T.data.lists T.data.shape label t.now bytes.now
        → HasShortLengths T.data.lists T.data.shape t.now
        → IfOk again.now (λ u. IsOpeningOf T.data.makes T.data.shape expected.now bytes.now u)
        → IfOk again.now (λ u. T.data.same t.now u) }
    ensures refused { IsSealingOf T.data.lists T.data.shape label t.now bytes.now
        → HasShortLengths T.data.lists T.data.shape t.now → expected.now.label ≡ label
        → length bytes.now ≤ expected.now.most_bytes + 24
        → IfErr again.now (λ e. IsRefusal T.Decoder.makes_free T.Decoder.shape
        T.data.shape expected.now bytes.now e)
        → IfErr again.now (λ e. IsOutOfMemory e) }
{
    t.told();
    if let Ok(u) = again {
        u.told();
    }
}
