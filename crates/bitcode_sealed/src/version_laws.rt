//! What was sealed as an earlier version is opened again. The functions only look at their values: their contracts are
//! the laws.
ghost use Rattle.std.specs.Prelude.{◌≡◌, ◌≤◌, ◌+◌, ℕ, Bool, true, List, length, IfOk, IfErr};
ghost use Rattle.bitcode_shapes.specs.Shape.{Shape};
ghost use Rattle.bitcode_derive.specs.Whole.{HasShortLengths};
ghost use Rattle.bitcode_sealed.specs.ErrorClasses.{IsOutOfMemory};
ghost use Rattle.bitcode_sealed.specs.Sealing.{IsSealingOf};
ghost use Rattle.bitcode_sealed.specs.declared.error.OpenError.{OpenError};
ghost use Rattle.bitcode_sealed.specs.declared.label.Expected.{Expected};
ghost use Rattle.bitcode_sealed.specs.Versions.{names_earlier, IsOpeningOfEarlier, IsRefusalOfVersion, IsOpeningOfAny};
ghost use Rattle.bitcode_sealed.specs.Versions.{IsRefusalOfAny};

use crate::error::OpenError;
use crate::label::{Expected, Label};
use crate::versions::{OneVersion, ReadsVersions, Versioned};
use bitcode_shapes::shaped::Shaped;

/// For the bytes that were sealed for a value of the earlier type, `open_any` returns a value with the fields of an
/// equal earlier value and with the defaults, or `out of memory` if it expects at least their size.
///
/// The label has the version `V`, which is one of `T::Versions`, and not the expected version. In each listing of the
/// earlier value, each column of lengths must sum to less than 2251799813685247.
///
/// ```text
/// let again: Result<Job, OpenError> = open_any(alloc, &EXPECTED, &bytes);
/// earlier_comes_back::<Version<1>, Job>(&before, OLD, &EXPECTED, &bytes, &again);
/// ```
pub fn earlier_comes_back<'a, V: OneVersion<T>, T: Versioned + Shaped>(
    before: &V::Before,
    label: Label,
    expected: &Expected,
    bytes: &'a [u8],
    again: &Result<T, OpenError>,
)
where
    V::Before: Shaped,
    T::Versions: ReadsVersions<'a, T>,
    requires opens { (e : Expected) (b : List ℕ) (t : T) → e.label.version ≡ V.version
        → T.Versions.opens e b t
        → IsOpeningOfEarlier V.is_upgrade V.Before.data.is_value V.Before.data.makes
        V.Before.data.shape V.version e b t }
    requires refuses { (e : Expected) (b : List ℕ) (fault : OpenError)
        → e.label.version ≡ V.version → T.Versions.refuses e b fault
        → IsRefusalOfVersion V.Before.data.shape V.version e b fault }
    ensures upgraded { label.version ≡ V.version
        → names_earlier T.Versions.includes expected.now.label label ≡ true
        → IsSealingOf V.Before.data.lists V.Before.data.shape label before.now bytes.now
        → HasShortLengths V.Before.data.lists V.Before.data.shape before.now
        → IfOk again.now (λ t. IsOpeningOfAny T.data.makes T.data.shape T.Versions.includes
        T.Versions.opens expected.now bytes.now t)
        → IfOk again.now
        (λ t. (b : V.Before) × (V.Before.data.same before.now b × V.is_upgrade b t)) }
    ensures refused { (free : Bool) (own : Shape) → label.version ≡ V.version
        → names_earlier T.Versions.includes expected.now.label label ≡ true
        → IsSealingOf V.Before.data.lists V.Before.data.shape label before.now bytes.now
        → HasShortLengths V.Before.data.lists V.Before.data.shape before.now
        → length bytes.now ≤ expected.now.most_bytes + 24
        → IfErr again.now (λ e. IsRefusalOfAny free own T.data.shape T.Versions.includes
        T.Versions.refuses expected.now bytes.now e)
        → IfErr again.now (λ e. IsOutOfMemory e) }
{
    before.told();
    let _kind = expected.label.kind;
    let _version = expected.label.version;
}
