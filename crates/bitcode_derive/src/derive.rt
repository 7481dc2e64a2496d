//! The types with encoders and decoders.
use bitcode_coder::coder::{Buffer, Decoder, EncodeMany, Encoder, NewDecoder, View};
use bitcode_shapes::shaped::Shaped;

/// Names the encoder of a type.
///
/// A user-defined type names the encoder of its fields, as a wrapper of a `u32` names that of `u32`. If that encoder
/// accepts its values, the type implements [`Encode`]:
///
/// ```rust,from:crates/bitcode_own_types/src/meters.rt
/// impl HasEncoder for Meters {
///     type Encoder = StructEncoder<<u32 as HasEncoder>::Encoder>;
/// }
/// ```
pub trait HasEncoder {
    /// The columns of the values.
    type Encoder;
}

/// A type that can be encoded: every lawful type whose encoder accepts its values.
///
/// It has no impls of its own. The calls that encode whole values drop the encoder.
pub trait Encode: HasEncoder<Encoder: Buffer + Encoder<Self> + EncodeMany<Self> + Drop> + Shaped {}

impl<T: HasEncoder + Shaped> Encode for T
where
    T::Encoder: Buffer + Encoder<T> + EncodeMany<T> + Drop,
{}

/// Names the decoder of a type, for an input that outlives `'a`.
///
/// If that decoder makes values of the type, the type implements [`Decode`]:
///
/// ```rust,from:crates/bitcode_own_types/src/meters.rt
/// impl<'a> HasDecoder<'a> for Meters {
///     type Decoder = DecoderOfFields<'a, u32>;
/// }
/// ```
pub trait HasDecoder<'a> {
    /// The data from which the values are made.
    type Decoder;
}

/// A type that can be decoded from an input that outlives `'a`: every lawful type whose decoder makes its values.
///
/// It has no impls of its own. The calls that decode whole values drop the value and the remaining data.
pub trait Decode<'a>: HasDecoder<'a, Decoder: NewDecoder + View<'a> + Decoder<Self> + Drop>
    + Shaped
    + Drop {}

impl<'a, T: HasDecoder<'a> + Shaped + Drop> Decode<'a> for T
where
    T::Decoder: NewDecoder + View<'a> + Decoder<T> + Drop,
{}

/// A type whose values borrow nothing from the input. Its `'static` bound excludes every type that borrows for less
/// than the whole run.
///
/// It has no functions: each type implements it. The compiler rejects it for a borrowing
/// struct `Foo<'a>`, and accepts only `Foo<'static>`, which borrows from an input that lives for the whole run.
///
/// ```rust,from:crates/bitcode_own_types/src/meters.rt
/// impl DecodeOwned for Meters {}
/// ```
pub trait DecodeOwned: 'static {}
