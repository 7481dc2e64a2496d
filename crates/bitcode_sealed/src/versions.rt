//! Opening a value from the bytes of any version of its type that the program reads.
ghost use Rattle.std.specs.Prelude.{◌≡◌, ℕ, Bool, true, ◌||◌, ◌⊎◌, List, nat_eq, IfOk, IfErr};
ghost use Rattle.bitcode_sealed.specs.declared.error.OpenError.{OpenError};
ghost use Rattle.bitcode_sealed.specs.declared.label.Expected.{Expected};
ghost use Rattle.bitcode_sealed.specs.Versions.{IsOpeningOfEarlier, IsRefusalOfEarlier, IsOpeningOfAny, IsRefusalOfAny};
ghost use Rattle.bitcode_sealed.specs.Versions.{names_earlier};

use crate::earlier::Earlier;
use crate::error::OpenError;
use crate::front::read_label;
use crate::label::{Expected, Label};
use crate::values::open;
use bitcode_coder::coder::{Decoder, NewDecoder, View};
use bitcode_derive::derive::HasDecoder;
use bitcode_shapes::shaped::Shaped;
use std::alloc::Global;
use std::collections::{BTreeMap, HashMap};
use std::hash::Hash;

/// A type of which the program reads earlier versions too.
///
/// A container has the versions of its elements.
///
/// ```text
/// impl Versioned for Job {
///     type Versions = (JobVersion2, JobVersion1);
///
///     type Numbers = (Version<2>, Version<1>);
/// }
/// ```
pub trait Versioned {
    /// What opens the earlier versions: one, or a pair of them or of pairs.
    type Versions;

    /// The same for containers of the type: `Version<1>` for version 1.
    type Numbers;
}

impl<T: Versioned> Versioned for Box<T> {
    type Versions = T::Numbers;

    type Numbers = T::Numbers;
}

impl<T: Versioned> Versioned for Option<T> {
    type Versions = T::Numbers;

    type Numbers = T::Numbers;
}

impl<T: Versioned> Versioned for Vec<T> {
    type Versions = T::Numbers;

    type Numbers = T::Numbers;
}

impl<K: Eq + Hash, T: Versioned> Versioned for HashMap<K, T> {
    type Versions = T::Numbers;

    type Numbers = T::Numbers;
}

impl<K: Ord, T: Versioned> Versioned for BTreeMap<K, T> {
    type Versions = T::Numbers;

    type Numbers = T::Numbers;
}

/// The version `VERSION` of a label, as a type.
pub struct Version<const VERSION: u16> {}

/// One earlier version of `T`.
pub trait OneVersion<T> {
    /// The type as it was.
    type Before;

    // the number of the version
    ghost version: { ℕ };

    // how a value is made from an earlier one
    ghost is_upgrade: { Self.Before → T → Type 0 };
}

impl<const VERSION: u16, T: Earlier<VERSION>> OneVersion<T> for Version<VERSION> {
    type Before = T::Before;

    ghost version = { VERSION };

    ghost is_upgrade = { T.is_upgrade };
}

/// Versions whose bytes values of `T` are made from: one, or a pair of them or of pairs.
pub trait ReadsVersions<'a, T> {
    /// The earlier types and their decoders. It says nothing about the values: the toolchain accepts an impl only for
    /// types that it names.
    type Inside;

    ghost includes: { ℕ → Bool };

    // the value is made from one of an earlier version, under its label
    ghost opens: { Expected → List ℕ → T → Type 0 };

    // why none is
    ghost refuses: { Expected → List ℕ → OpenError → Type 0 };

    /// Whether this is one of the versions.
    fn includes(version: u16) -> bool
        ensures { result ≡ includes version };

    /// Opens bytes of the expected version, which must be one of these.
    ///
    /// Errors: those of `open`.
    fn open_earlier(alloc: Global, expected: &Expected, bytes: &'a [u8]) -> Result<T, OpenError>
        requires { includes expected.now.label.version ≡ true }
        ensures found { IfOk result (λ t. opens expected.now bytes.now t) }
        ensures refused { IfErr result (λ e. refuses expected.now bytes.now e) };
}

impl<'a, const VERSION: u16, T: Earlier<VERSION>> ReadsVersions<'a, T> for Version<VERSION>
where
    T::Before: HasDecoder<'a> + Shaped + Drop,
    <T::Before as HasDecoder<'a>>::Decoder: NewDecoder + View<'a> + Decoder<T::Before> + Drop,
{
    type Inside = (T::Before, <T::Before as HasDecoder<'a>>::Decoder);

    ghost includes = { λ version. nat_eq version VERSION };

    ghost opens = { IsOpeningOfEarlier T.is_upgrade T.Before.data.is_value T.Before.data.makes
        T.Before.data.shape VERSION };

    ghost refuses = { IsRefusalOfEarlier T.Before.Decoder.makes_free T.Before.Decoder.shape
        T.Before.data.shape VERSION };

    fn includes(version: u16) -> bool {
        version == VERSION
    }

    fn open_earlier(alloc: Global, expected: &Expected, bytes: &'a [u8]) -> Result<T, OpenError> {
        let before: T::Before = open(alloc, expected, bytes)?;
        before.told();
        match T::upgrade(alloc, before) {
            Ok(t) => Ok(t),
            Err(e) => Err(OpenError::Value(e)),
        }
    }
}

impl<'a, T, A: ReadsVersions<'a, T>, B: ReadsVersions<'a, T>> ReadsVersions<'a, T> for (A, B) {
    type Inside = (A::Inside, B::Inside);

    ghost includes = { λ version. A.includes version || B.includes version };

    ghost opens = { λ expected bytes t. A.opens expected bytes t ⊎ B.opens expected bytes t };

    ghost refuses = { λ expected bytes e. A.refuses expected bytes e ⊎ B.refuses expected bytes e };

    fn includes(version: u16) -> bool {
        A::includes(version) || B::includes(version)
    }

    fn open_earlier(alloc: Global, expected: &Expected, bytes: &'a [u8]) -> Result<T, OpenError> {
        if A::includes(expected.label.version) {
            A::open_earlier(alloc, expected, bytes)
        } else {
            B::open_earlier(alloc, expected, bytes)
        }
    }
}

/// Opens bytes of an earlier version, as `V` does. A generated type calls this, so that what opens a type names no
/// decoder of its earlier versions.
///
/// Errors: those of [`ReadsVersions::open_earlier`].
///
/// ```text
/// open_version::<Version<1>, Job>(alloc, expected, bytes)
/// ```
pub fn open_version<'a, V: ReadsVersions<'a, T>, T>(
    alloc: Global,
    expected: &Expected,
    bytes: &'a [u8],
) -> Result<T, OpenError>
    requires { V.includes expected.now.label.version ≡ true }
    ensures found { IfOk result (λ t. V.opens expected.now bytes.now t) }
    ensures refused { IfErr result (λ e. V.refuses expected.now bytes.now e) }
{
    V::open_earlier(alloc, expected, bytes)
}

// Whether the label has the expected kind, and another version, which is read.
fn names_earlier<'a, T, V: ReadsVersions<'a, T>>(expected: Label, label: Label) -> bool
    ensures { result ≡ names_earlier V.includes expected label }
{
    label.kind == expected.kind && label.version != expected.version && V::includes(label.version)
}

/// Opens sealed bytes of the expected version or of an earlier one that the type is still read from.
///
/// The value of an earlier version has the fields that were sealed, and the defaults for the others.
///
/// Errors: those of [`open`]. `AnotherVersion` if the version is neither the expected one nor one of
/// `T::Versions`, such as a newer one.
///
/// ```text
/// let job: Job = open_any(alloc, &EXPECTED, &bytes)?;
/// ```
pub fn open_any<'a, T: Versioned + HasDecoder<'a> + Shaped + Drop>(
    alloc: Global,
    expected: &Expected,
    bytes: &'a [u8],
) -> Result<T, OpenError>
where
    T::Decoder: NewDecoder + View<'a> + Decoder<T> + Drop,
    T::Versions: ReadsVersions<'a, T>,
    ensures found { IfOk result
        (λ t. IsOpeningOfAny T.data.makes T.data.shape T.Versions.includes T.Versions.opens
        expected.now bytes.now t) }
    ensures refused { IfErr result
        (λ e. IsRefusalOfAny T.Decoder.makes_free T.Decoder.shape T.data.shape T.Versions.includes
        T.Versions.refuses expected.now bytes.now e) }
{
    let label = read_label(bytes)?;
    let is_earlier = names_earlier::<T, T::Versions>(expected.label, label);
    if is_earlier {
        let earlier = Expected {
            label,
            most_bytes: expected.most_bytes,
        };
        return T::Versions::open_earlier(alloc, &earlier, bytes);
    }
    open(alloc, expected, bytes)
}
