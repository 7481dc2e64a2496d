//! An enum of two variants, written by hand.
ghost use Rattle.std.specs.Prelude.{[], ◌∷◌, true, false, refl, ◌+◌};
ghost use Rattle.bitcode.specs.ByHand.{no_columns, two, choices_of, variant_room, variants_left, variants_owned};
ghost use Rattle.bitcode_test_support.specs.Two.{two_data};

use bitcode::coder::{
    Buffer, ColumnFree, EncodeMany, HoldsColumns, HoldsData, NewDecoder, Result, both, encode_parts,
};
use bitcode::own::{Part, encode_payload};
use bitcode::{
    DecodeOwned, Decoder, Encoder, HasDecoder, HasEncoder, IntDecoder, IntEncoder, ResultDecoder,
    Shaped, VariantDecoder, VariantEncoder, View,
};
use std::alloc::Global;

/// A byte without sign or one with a sign.
#[derive(Debug, Clone, Copy, PartialEq)]
pub enum Two {
    A(u8),
    B(i8),
}

impl Shaped for Two {
    ghost data = { two_data ⟦<u8 as Shaped>⟧.data ⟦<i8 as Shaped>⟧.data };

    fn told(&self) {
        match self {
            Two::A(a) => a.told(),
            Two::B(b) => b.told(),
        }
    }
}

#[derive(Drop)]
pub struct TwoEncoder {
    variants: VariantEncoder<2>,
    a: IntEncoder<u8>,
    b: IntEncoder<i8>,
}

impl HoldsColumns for TwoEncoder {
    ghost columns = { λ e. two (⟦<VariantEncoder<2> as HoldsColumns>⟧.columns e.variants)
        (two (⟦<IntEncoder<u8> as HoldsColumns>⟧.columns e.a)
        (two (⟦<IntEncoder<i8> as HoldsColumns>⟧.columns e.b) no_columns)) };

    ghost room = { λ e. variant_room e.variants };

    ghost capacity = { λ e. ⟦<VariantEncoder<2> as HoldsColumns>⟧.capacity e.variants
        + ⟦<IntEncoder<u8> as HoldsColumns>⟧.capacity e.a
        + ⟦<IntEncoder<i8> as HoldsColumns>⟧.capacity e.b };

    ghost surely_overflows = { λ e n. ⊥ };

    ghost overflows = { λ e n. ⊥ };

    ghost writes_free = { false };
}

impl Buffer for TwoEncoder {
    fn new(alloc: Global) -> Self {
        TwoEncoder {
            variants: Buffer::new(alloc),
            a: Buffer::new(alloc),
            b: Buffer::new(alloc),
        }
    }

    fn reserve(&mut self, n: usize) -> Result<()> {
        self.variants.reserve(n)
    }

    fn collect_into(&mut self, out: &mut Vec<u8>) -> Result<()> {
        self.variants.collect_into(out)?;
        self.a.collect_into(out)?;
        self.b.collect_into(out)
    }

    fn clear(&mut self) {
        self.variants.clear();
        self.a.clear();
        self.b.clear();
    }
}

impl Encoder<Two> for TwoEncoder {
    fn encode(&mut self, t: &Two) -> Result<()> {
        match t {
            Two::A(a) => {
                self.variants.encode(0);
                encode_payload(&mut self.a, a)
            }
            Two::B(b) => {
                self.variants.encode(1);
                encode_payload(&mut self.b, b)
            }
        }
    }

    ghost of_shape = { λ e. refl };

    ghost surely = { λ e n h. absurd h };
}

impl EncodeMany<Two> for TwoEncoder {
    fn encode_part_of_each<S, W: Part<S, Two>>(
        &mut self,
        items: &[S],
        which: &W,
        _first: &Two,
    ) -> Result<()> {
        encode_parts(self, items, which)
    }

    ghost of_shape = { λ e. refl };

    ghost surely = { λ e n h. absurd h };
}

#[derive(Drop)]
pub struct TwoDecoder<'a> {
    variants: VariantDecoder<'a, 2, false>,
    a: IntDecoder<'a, u8>,
    b: IntDecoder<'a, i8>,
}

type Variants<'a> = ResultDecoder<'a, IntDecoder<'a, u8>, IntDecoder<'a, i8>>;

impl<'a> HoldsData for TwoDecoder<'a> {
    ghost shape = { ⟦<Variants<'a> as HoldsData>⟧.shape };

    ghost held = { λ d. choices_of (variants_left d.variants)
        (⟦<IntDecoder<'a, u8> as HoldsData>⟧.held d.a ∷ ⟦<IntDecoder<'a, i8> as HoldsData>⟧.held d.b
        ∷ []) };

    ghost owned = { λ d. variants_owned d.variants + ⟦<IntDecoder<'a, u8> as HoldsData>⟧.owned d.a
        + ⟦<IntDecoder<'a, i8> as HoldsData>⟧.owned d.b };

    ghost free_inside = { λ d. ⟦<IntDecoder<'a, u8> as HoldsData>⟧.free_inside d.a
        + ⟦<IntDecoder<'a, i8> as HoldsData>⟧.free_inside d.b };
}

impl<'a> NewDecoder for TwoDecoder<'a> {
    fn new(alloc: Global) -> Self {
        TwoDecoder {
            variants: VariantDecoder::new(alloc),
            a: NewDecoder::new(alloc),
            b: NewDecoder::new(alloc),
        }
    }

    fn column_free(&self) -> ColumnFree {
        let b = self.b.column_free();
        ColumnFree {
            has_entry: true,
            inside: self.a.column_free().inside.saturating_add(b.inside),
        }
    }
}

impl<'a> View<'a> for TwoDecoder<'a> {
    fn read(&mut self, input: &mut &'a [u8], k: usize, strict: bool) -> Result<bool> {
        let variants = self.variants.read(input, k, strict)?;
        let a = self.a.read(input, self.variants.length(0), strict)?;
        let b = self.b.read(input, self.variants.length(1), strict)?;
        let first = both(variants, a);
        Ok(both(first, b))
    }
}

impl<'a> Decoder<Two> for TwoDecoder<'a> {
    ghost makes_free = { true };

    fn decode(&mut self) -> Result<Two> {
        if self.variants.decode() == 0 {
            Ok(Two::A(self.a.decode()?))
        } else {
            Ok(Two::B(self.b.decode()?))
        }
    }

    ghost same_shape = { refl };
}

impl HasEncoder for Two {
    type Encoder = TwoEncoder;
}

impl<'a> HasDecoder<'a> for Two {
    type Decoder = TwoDecoder<'a>;
}

impl DecodeOwned for Two {}
