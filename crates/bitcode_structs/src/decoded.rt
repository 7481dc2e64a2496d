//! The decoder of structs with private fields: only decoding makes what such a struct is made from.
ghost use Rattle.std.specs.Prelude.{◌≡◌};
ghost use Rattle.std.proofs.Common.{◌∙◌, sym};
ghost use Rattle.bitcode_coder.specs.Coder.{MakesToo};

use bitcode_coder::coder::{Decoder, HoldsData, NewDecoder, View};
use bitcode_coder::column_free::ColumnFree;
use bitcode_memory::error::Error;
use bitcode_shapes::shaped::Shaped;
use std::alloc::Global;
use std::marker::PhantomData;

/// Fields that were decoded. No other code makes a `Decoded`, so no caller of [`FromDecoded::from_decoded`] chooses the
/// fields.
///
/// ```text
/// let (start, end) = decoded.into_fields();
/// ```
#[derive(Drop)]
pub struct Decoded<P> {
    fields: P,
}

impl<P> Decoded<P> {
    /// The fields.
    pub fn into_fields(self) -> P
        ensures { result ≡ self.fields }
    {
        self.fields
    }
}

/// A struct with private fields, made from the tuple `P` of its fields. Only decoding can call this.
///
/// ```text
/// impl FromDecoded<u8> for Percent {
///     fn from_decoded(decoded: Decoded<u8>) -> Self {
///         let value = decoded.into_fields();
///         Percent { value }
///     }
///
///     ghost same_shape = { refl };
/// }
/// ```
pub trait FromDecoded<P: Shaped>: Shaped {
    /// Makes the struct from its fields.
    fn from_decoded(decoded: Decoded<P>) -> Self
        ensures { MakesToo Self.data.makes P.data.makes result decoded.fields };

    ghost same_shape: { Self.data.shape ≡ P.data.shape };
}

/// The data of structs with private fields, with the decoder `D` of the tuple `P` of their fields.
///
/// It returns that decoder's errors, and allocates nothing itself.
///
/// ```text
/// impl<'a> HasDecoder<'a> for Percent {
///     type Decoder = PrivateDecoder<u8, <u8 as HasDecoder<'a>>::Decoder>;
/// }
/// ```
#[derive(Drop)]
pub struct PrivateDecoder<P, D> {
    fields: D,
    of: PhantomData<P>,
}

impl<P: Drop, D: HoldsData> HoldsData for PrivateDecoder<P, D> {
    ghost shape = { D.shape };

    ghost held = { λ d. D.held d.fields };

    ghost owned = { λ d. D.owned d.fields };

    ghost free_inside = { λ d. D.free_inside d.fields };
}

impl<P: Drop, D: NewDecoder> NewDecoder for PrivateDecoder<P, D> {
    fn new(alloc: Global) -> Self {
        PrivateDecoder {
            fields: D::new(alloc),
            of: PhantomData,
        }
    }

    fn column_free(&self) -> ColumnFree {
        self.fields.column_free()
    }
}

impl<'a, P: Drop, D: View<'a>> View<'a> for PrivateDecoder<P, D> {
    fn read(&mut self, input: &mut &'a [u8], k: usize, strict: bool) -> Result<bool, Error> {
        self.fields.read(input, k, strict)
    }
}

impl<P: Shaped + Drop, T: FromDecoded<P>, D: Decoder<P>> Decoder<T> for PrivateDecoder<P, D> {
    ghost makes_free = { D.makes_free };

    fn decode(&mut self) -> Result<T, Error> {
        let fields = self.fields.decode()?;
        Ok(T::from_decoded(Decoded { fields }))
    }

    const READS_ONE: bool = D::READS_ONE;

    #[inline(always)]
    fn read_one(alloc: Global, input: &mut &[u8]) -> Option<T> {
        let fields = D::read_one(alloc, input)?;
        Some(T::from_decoded(Decoded { fields }))
    }

    ghost same_shape = { D.same_shape ∙ sym T.same_shape };
}
