//! The encoder of enums without payloads.
#![tactic(auto, unfolding(crate::specs::Variants::written_variants, crate::specs::Variants::variants_left))]

ghost use Rattle.std.proofs.Common.{sym};
ghost use Rattle.std.specs.Prelude.{true, IfSome};
ghost use Rattle.bitcode_shapes.specs.BareVariants.{bare_shape};
ghost use Rattle.bitcode_coder.specs.Coder.{ReadsValue};
ghost use Rattle.bitcode_parts.specs.BareVariants.{bare_columns, bare_of_shape};
ghost use Rattle.bitcode_parts.specs.Variants.{written_variants, variant_room, variant_capacity};

use crate::choices::gathered::{SaysVariant, gather_variants};
use crate::choices::variant::{VariantDecoder, VariantEncoder, read_variant};
use bitcode_coder::coder::{
    Buffer, Decoder, EncodeMany, Encoder, HoldsColumns, MAX_VECTORED_CHUNK,
};
use bitcode_coder::part::Part;
use bitcode_memory::error::Error;
use bitcode_shapes::bare_variants::{BareShaped, BareVariants};
use std::alloc::Global;

/// The columns of an enum of `N` variants without payloads, 2 to 256 of them: only the column of the variants.
///
/// Its values are decoded by `VariantDecoder<'_, N, true>`.
///
/// ```
/// let mut lights: BareEncoder<3> = BareEncoder::new(alloc);
/// lights.reserve(2)?;
/// lights.encode(&Light::Green)?;
/// lights.encode(&Light::Amber)?;
/// lights.collect_into(&mut bytes)?; // [5]: the digits 2 and 1 in base 3
/// ```
#[derive(Drop)]
pub struct BareEncoder<const N: usize> {
    variants: VariantEncoder<N>,
}

impl<const N: usize> HoldsColumns for BareEncoder<N> {
    ghost columns = { λ e. bare_columns N (written_variants e.variants) };

    ghost room = { λ e. variant_room e.variants };

    ghost capacity = { λ e. variant_capacity e.variants };

    ghost surely_overflows = { λ e n. ⊥ };

    ghost overflows = { λ e n. ⊥ };

    ghost writes_free = { true };
}

impl<const N: usize> Buffer for BareEncoder<N> {
    fn new(alloc: Global) -> Self {
        BareEncoder {
            variants: VariantEncoder::new(alloc),
        }
    }

    fn reserve(&mut self, n: usize) -> Result<(), Error> {
        self.variants.reserve(n)
    }

    #[tactic(auto, using(crate::proofs::BareVariantLemmas::bare_bytes))]
    fn collect_into(&mut self, out: &mut Vec<u8>) -> Result<(), Error> {
        self.variants.collect_into(out)
    }

    fn clear(&mut self) {
        self.variants.clear();
    }
}

// Says which variant a value is of.
struct BareVariant<const N: usize> {}

impl<const N: usize, T: BareVariants<N>> SaysVariant<T> for BareVariant<N> {
    ghost count = { N };

    ghost variant = { λ t. T.variant t };

    fn variant(t: &T) -> u8 {
        t.index()
    }
}

impl<const N: usize, T: BareShaped<N>> Encoder<T> for BareEncoder<N> {
    fn encode(&mut self, t: &T) -> Result<(), Error> {
        self.variants.encode(t.index());
        Ok(())
    }

    ghost of_shape = { λ e. bare_of_shape N (written_variants e.variants) T.has_shape };

    ghost surely = { λ e n h. absurd h };
}

impl<const N: usize, T: BareShaped<N>> EncodeMany<T> for BareEncoder<N> {
    fn encode_part_of_each<S, W: Part<S, T>>(
        &mut self,
        items: &[S],
        which: &W,
        _first: &T,
    ) -> Result<(), Error> {
        let mut variants = [0; MAX_VECTORED_CHUNK];
        gather_variants::<S, T, W, BareVariant<N>>(items, which, &mut variants);
        self.variants.encode_vectored(&variants[..items.len()]);
        Ok(())
    }

    ghost of_shape = { λ e. bare_of_shape N (written_variants e.variants) T.has_shape };

    ghost surely = { λ e n h. absurd h };
}

impl<'a, const N: usize, const C_STYLE: bool, T: BareShaped<N>> Decoder<T>
    for VariantDecoder<'a, N, C_STYLE> {
    ghost makes_free = { true };

    fn decode(&mut self) -> Result<T, Error> {
        Ok(T::from_index(self.decode()))
    }

    // Written here, since the value's size depends on `N`, which the toolchain does not allow for the trait's own.
    const READS_ONE: bool = true;

    #[inline(always)]
    fn read_one(alloc: Global, input: &mut &[u8]) -> Option<T>
        ensures { IfSome result
            (λ t. ReadsValue T.data.makes (bare_shape N) input.old.now t input.new.now) }
    {
        Some(T::from_index(read_variant::<N>(alloc, input)?))
    }

    const READS_LISTS: bool = false;

    ghost same_shape = { sym T.has_shape };
}
