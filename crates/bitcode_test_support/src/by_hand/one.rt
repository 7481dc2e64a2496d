//! An enum of one variant, written by hand: it has the shape of its field.
ghost use Rattle.std.specs.Prelude.{true, refl};
ghost use Rattle.bitcode.specs.ByHand.{data_as};
ghost use Rattle.bitcode_test_support.specs.One.{one_again, one_field, one_found};

use bitcode::coder::{
    Buffer, ColumnFree, EncodeMany, HoldsColumns, HoldsData, NewDecoder, Result, encode_parts,
};
use bitcode::own::Part;
use bitcode::{
    DecodeOwned, Decoder, Encoder, HasDecoder, HasEncoder, IntDecoder, IntEncoder, Shaped, View,
};
use std::alloc::Global;

/// A byte.
#[derive(Debug, Clone, Copy, PartialEq)]
pub enum One {
    A(u8),
}

impl Shaped for One {
    ghost data = { data_as one_field one_found one_again ⟦<u8 as Shaped>⟧.data };

    fn told(&self) {
        let One::A(a) = self;
        a.told();
    }
}

#[derive(Drop)]
pub struct OneEncoder {
    a: IntEncoder<u8>,
}

impl HoldsColumns for OneEncoder {
    ghost columns = { λ e. ⟦<IntEncoder<u8> as HoldsColumns>⟧.columns e.a };

    ghost room = { λ e. ⟦<IntEncoder<u8> as HoldsColumns>⟧.room e.a };

    ghost capacity = { λ e. ⟦<IntEncoder<u8> as HoldsColumns>⟧.capacity e.a };

    ghost surely_overflows = { λ e n. ⊥ };

    ghost overflows = { λ e n. ⊥ };

    ghost writes_free = { true };
}

impl Buffer for OneEncoder {
    fn new(alloc: Global) -> Self {
        OneEncoder {
            a: Buffer::new(alloc),
        }
    }

    fn reserve(&mut self, n: usize) -> Result<()> {
        self.a.reserve(n)
    }

    fn collect_into(&mut self, out: &mut Vec<u8>) -> Result<()> {
        self.a.collect_into(out)
    }

    fn clear(&mut self) {
        self.a.clear();
    }
}

impl Encoder<One> for OneEncoder {
    fn encode(&mut self, t: &One) -> Result<()> {
        let One::A(a) = t;
        self.a.encode(a)
    }

    ghost of_shape = { λ e. refl };

    ghost surely = { λ e n h. absurd h };
}

impl EncodeMany<One> for OneEncoder {
    fn encode_part_of_each<S, W: Part<S, One>>(
        &mut self,
        items: &[S],
        which: &W,
        _first: &One,
    ) -> Result<()> {
        encode_parts(self, items, which)
    }

    ghost of_shape = { λ e. refl };

    ghost surely = { λ e n h. absurd h };
}

#[derive(Drop)]
pub struct OneDecoder<'a> {
    a: IntDecoder<'a, u8>,
}

impl<'a> HoldsData for OneDecoder<'a> {
    ghost shape = { ⟦<u8 as Shaped>⟧.data.shape };

    ghost held = { λ d. ⟦<IntDecoder<'a, u8> as HoldsData>⟧.held d.a };

    ghost owned = { λ d. ⟦<IntDecoder<'a, u8> as HoldsData>⟧.owned d.a };

    ghost free_inside = { λ d. ⟦<IntDecoder<'a, u8> as HoldsData>⟧.free_inside d.a };
}

impl<'a> NewDecoder for OneDecoder<'a> {
    fn new(alloc: Global) -> Self {
        OneDecoder {
            a: NewDecoder::new(alloc),
        }
    }

    fn column_free(&self) -> ColumnFree {
        self.a.column_free()
    }
}

impl<'a> View<'a> for OneDecoder<'a> {
    fn read(&mut self, input: &mut &'a [u8], k: usize, strict: bool) -> Result<bool> {
        self.a.read(input, k, strict)
    }
}

impl<'a> Decoder<One> for OneDecoder<'a> {
    ghost makes_free = { true };

    fn decode(&mut self) -> Result<One> {
        let a = self.a.decode()?;
        Ok(One::A(a))
    }

    ghost same_shape = { refl };
}

impl HasEncoder for One {
    type Encoder = OneEncoder;
}

impl<'a> HasDecoder<'a> for One {
    type Decoder = OneDecoder<'a>;
}

impl DecodeOwned for One {}
