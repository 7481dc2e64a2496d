//! A struct of two fields, written by hand.
ghost use Rattle.std.specs.Prelude.{true, min, refl, false, ◌+◌};
ghost use Rattle.bitcode.specs.ByHand.{data_as, pairs_of, two};
ghost use Rattle.bitcode_test_support.specs.Foo.{foo_fields};

use bitcode::coder::{
    Buffer, ColumnFree, EncodeMany, HoldsColumns, HoldsData, NewDecoder, Result, both, encode_parts,
};
use bitcode::own::Part;
use bitcode::{
    Decoder, Encoder, HasDecoder, HasEncoder, IntDecoder, IntEncoder, Shaped, StrDecoder,
    StrEncoder, TupleDecoder, View,
};
use std::alloc::Global;

/// A number and a text.
#[derive(Debug, Clone, Copy, PartialEq)]
pub struct Foo<'a> {
    pub x: u32,
    pub y: &'a str,
}

impl<'a> Shaped for Foo<'a> {
    ghost data = { data_as foo_fields (λ p. (record { x = p.0; y = p.1 }, refl)) (λ t. refl)
        ⟦<(u32, &'a str) as Shaped>⟧.data };

    fn told(&self) {
        self.x.told();
        self.y.told();
    }
}

#[derive(Drop)]
pub struct FooEncoder {
    x: IntEncoder<u32>,
    y: StrEncoder,
}

impl HoldsColumns for FooEncoder {
    ghost columns = { λ e. two (⟦<IntEncoder<u32> as HoldsColumns>⟧.columns e.x)
        (⟦<StrEncoder as HoldsColumns>⟧.columns e.y) };

    ghost room = { λ e. min (⟦<IntEncoder<u32> as HoldsColumns>⟧.room e.x)
        (⟦<StrEncoder as HoldsColumns>⟧.room e.y) };

    ghost capacity = { λ e. ⟦<IntEncoder<u32> as HoldsColumns>⟧.capacity e.x
        + ⟦<StrEncoder as HoldsColumns>⟧.capacity e.y };

    ghost surely_overflows = { λ e n. ⊥ };

    ghost overflows = { λ e n. ⊥ };

    ghost writes_free = { false };
}

impl Buffer for FooEncoder {
    fn new(alloc: Global) -> Self {
        FooEncoder {
            x: Buffer::new(alloc),
            y: Buffer::new(alloc),
        }
    }

    fn reserve(&mut self, n: usize) -> Result<()> {
        self.x.reserve(n)?;
        self.y.reserve(n)
    }

    fn collect_into(&mut self, out: &mut Vec<u8>) -> Result<()> {
        self.x.collect_into(out)?;
        self.y.collect_into(out)
    }

    fn clear(&mut self) {
        self.x.clear();
        self.y.clear();
    }
}

impl<'a> Encoder<Foo<'a>> for FooEncoder {
    fn encode(&mut self, t: &Foo<'a>) -> Result<()> {
        self.x.encode(&t.x)?;
        self.y.encode(&t.y)
    }

    ghost of_shape = { λ e. refl };

    ghost surely = { λ e n h. absurd h };
}

impl<'a> EncodeMany<Foo<'a>> for FooEncoder {
    fn encode_part_of_each<S, W: Part<S, Foo<'a>>>(
        &mut self,
        items: &[S],
        which: &W,
        _first: &Foo<'a>,
    ) -> Result<()> {
        encode_parts(self, items, which)
    }

    ghost of_shape = { λ e. refl };

    ghost surely = { λ e n h. absurd h };
}

#[derive(Drop)]
pub struct FooDecoder<'a> {
    x: IntDecoder<'a, u32>,
    y: StrDecoder<'a>,
}

type Fields<'a> = TupleDecoder<IntDecoder<'a, u32>, StrDecoder<'a>>;

impl<'a> HoldsData for FooDecoder<'a> {
    ghost shape = { ⟦<Fields<'a> as HoldsData>⟧.shape };

    ghost held = { λ d. pairs_of (⟦<IntDecoder<'a, u32> as HoldsData>⟧.held d.x)
        (⟦<StrDecoder<'a> as HoldsData>⟧.held d.y) };

    ghost owned = { λ d. ⟦<IntDecoder<'a, u32> as HoldsData>⟧.owned d.x
        + ⟦<StrDecoder<'a> as HoldsData>⟧.owned d.y };

    ghost free_inside = { λ d. ⟦<IntDecoder<'a, u32> as HoldsData>⟧.free_inside d.x
        + ⟦<StrDecoder<'a> as HoldsData>⟧.free_inside d.y };
}

impl<'a> NewDecoder for FooDecoder<'a> {
    fn new(alloc: Global) -> Self {
        FooDecoder {
            x: NewDecoder::new(alloc),
            y: NewDecoder::new(alloc),
        }
    }

    fn column_free(&self) -> ColumnFree {
        let x = self.x.column_free();
        let y = self.y.column_free();
        ColumnFree {
            has_entry: x.has_entry || y.has_entry,
            inside: x.inside.saturating_add(y.inside),
        }
    }
}

impl<'a> View<'a> for FooDecoder<'a> {
    #[tactic(auto, using(bitcode_tuples::proofs::StructLemmas::struct_reading))]
    fn read(&mut self, input: &mut &'a [u8], k: usize, strict: bool) -> Result<bool> {
        let x = self.x.read(input, k, strict)?;
        let y = self.y.read(input, k, strict)?;
        Ok(both(x, y))
    }
}

impl<'a> Decoder<Foo<'a>> for FooDecoder<'a> {
    ghost makes_free = { true };

    fn decode(&mut self) -> Result<Foo<'a>> {
        let x = self.x.decode()?;
        let y = self.y.decode()?;
        Ok(Foo { x, y })
    }

    ghost same_shape = { refl };
}

impl<'a> HasEncoder for Foo<'a> {
    type Encoder = FooEncoder;
}

impl<'a> HasDecoder<'a> for Foo<'a> {
    type Decoder = FooDecoder<'a>;
}
