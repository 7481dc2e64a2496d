//! The coders of results.
ghost use Rattle.std.specs.Prelude.{◌+◌, [], ◌∷◌, false, ◌&&◌, IfSome};
ghost use Rattle.bitcode_coder.specs.Coder.{ReadsValue};
ghost use Rattle.bitcode_shapes.specs.Shape.{choice_shape, shape_and, no_shapes};
ghost use Rattle.bitcode_coder.specs.Columns.{no_columns, two};
ghost use Rattle.bitcode_parts.specs.Payloads.{choices_of};
ghost use Rattle.bitcode_parts.specs.TwoVariantLaws.{same_two_variants, two_variants_form};
ghost use Rattle.bitcode_parts.specs.Variants.{variant_room, variant_capacity, variants_left, variants_owned};

use crate::choices::variant::{VariantDecoder, VariantEncoder, encode_payload};
use bitcode_coder::coder::{
    Buffer, Decoder, EncodeMany, Encoder, HoldsColumns, HoldsData, NewDecoder, View, both,
    encode_parts,
};
use bitcode_coder::column_free::ColumnFree;
use bitcode_coder::part::Part;
use bitcode_memory::consume::consume_byte;
use bitcode_memory::error::Error;
use bitcode_shapes::shaped::Shaped;
use std::alloc::Global;

/// The encoder of results: which of them are errors, followed by the columns of the values, and then of the errors.
///
/// ```rust
/// let mut results: ResultEncoder<BoolEncoder, IntEncoder<u32>> = ResultEncoder::new(alloc);
/// results.reserve(2)?;
/// results.encode(&Err::<bool, u32>(1))?;
/// results.encode(&Ok::<bool, u32>(false))?;
/// assert_eq!(rt; results.collect(alloc)?.as_slice(), [1, 0, 4, 1].as_slice());
/// ```
#[derive(Drop)]
pub struct ResultEncoder<A, B> {
    variants: VariantEncoder<2>,
    ok: A,
    err: B,
}

impl<A: HoldsColumns, B: HoldsColumns> HoldsColumns for ResultEncoder<A, B> {
    ghost columns = { λ e. two (⟦<VariantEncoder<2> as HoldsColumns>⟧.columns e.variants)
        (two (A.columns e.ok) (two (B.columns e.err) no_columns)) };

    ghost room = { λ e. variant_room e.variants };

    ghost capacity = { λ e. variant_capacity e.variants + A.capacity e.ok + B.capacity e.err };

    ghost surely_overflows = { λ e n. ⊥ };

    ghost overflows = { λ e n. ⊥ };

    ghost writes_free = { false };
}

impl<A: Buffer, B: Buffer> Buffer for ResultEncoder<A, B> {
    fn new(alloc: Global) -> Self {
        ResultEncoder {
            variants: VariantEncoder::new(alloc),
            ok: A::new(alloc),
            err: B::new(alloc),
        }
    }

    fn reserve(&mut self, n: usize) -> Result<(), Error> {
        self.variants.reserve(n)
    }

    fn collect_into(&mut self, out: &mut Vec<u8>) -> Result<(), Error> {
        self.variants.collect_into(out)?;
        self.ok.collect_into(out)?;
        self.err.collect_into(out)
    }

    fn clear(&mut self) {
        self.variants.clear();
        self.ok.clear();
        self.err.clear();
    }
}

impl<T: Shaped, E: Shaped, A: Buffer + Encoder<T>, B: Buffer + Encoder<E>> Encoder<Result<T, E>>
    for ResultEncoder<A, B> {
    fn encode(&mut self, t: &Result<T, E>) -> Result<(), Error> {
        match t {
            Ok(value) => {
                self.variants.encode(0);
                encode_payload(&mut self.ok, value)
            }
            Err(error) => {
                self.variants.encode(1);
                encode_payload(&mut self.err, error)
            }
        }
    }

    ghost of_shape = { λ e. two_variants_form (A.of_shape e.ok) (B.of_shape e.err) };

    ghost surely = { λ e n h. absurd h };
}

impl<T: Shaped, E: Shaped, A: Buffer + Encoder<T>, B: Buffer + Encoder<E>> EncodeMany<Result<T, E>>
    for ResultEncoder<A, B> {
    fn encode_part_of_each<S, W: Part<S, Result<T, E>>>(
        &mut self,
        items: &[S],
        which: &W,
        _first: &Result<T, E>,
    ) -> Result<(), Error> {
        encode_parts(self, items, which)
    }

    ghost of_shape = { λ e. two_variants_form (A.of_shape e.ok) (B.of_shape e.err) };

    ghost surely = { λ e n h. absurd h };
}

/// The decoder of results. It reads which of them are errors, then all values, then all errors.
///
/// ```
/// let mut results: ResultDecoder<BoolDecoder, IntDecoder<u32>> = ResultDecoder::new(alloc);
/// results.populate(&mut input, 2)?; // of [1, 0, 4, 1]
/// let first: Result<bool, u32> = results.decode()?; // Err(1)
/// ```
#[derive(Drop)]
pub struct ResultDecoder<'a, A, B> {
    variants: VariantDecoder<'a, 2, false>,
    ok: A,
    err: B,
}

impl<'a, A: HoldsData, B: HoldsData> HoldsData for ResultDecoder<'a, A, B> {
    ghost shape = { choice_shape (shape_and A.shape (shape_and B.shape no_shapes)) };

    ghost held = { λ d. choices_of (variants_left d.variants) (A.held d.ok ∷ B.held d.err ∷ []) };

    ghost owned = { λ d. variants_owned d.variants + A.owned d.ok + B.owned d.err };

    ghost free_inside = { λ d. A.free_inside d.ok + B.free_inside d.err };
}

impl<'a, A: NewDecoder, B: NewDecoder> NewDecoder for ResultDecoder<'a, A, B> {
    fn new(alloc: Global) -> Self {
        ResultDecoder {
            variants: VariantDecoder::new(alloc),
            ok: A::new(alloc),
            err: B::new(alloc),
        }
    }

    fn column_free(&self) -> ColumnFree {
        let err = self.err.column_free();
        ColumnFree {
            has_entry: true,
            inside: self.ok.column_free().inside.saturating_add(err.inside),
        }
    }
}

impl<'a, A: View<'a>, B: View<'a>> View<'a> for ResultDecoder<'a, A, B> {
    fn read(&mut self, input: &mut &'a [u8], k: usize, strict: bool) -> Result<bool, Error> {
        let variants = self.variants.read(input, k, strict)?;
        let ok = self.ok.read(input, self.variants.length(0), strict)?;
        let err = self.err.read(input, self.variants.length(1), strict)?;
        Ok(both(both(variants, ok), err))
    }
}

impl<'a, T: Shaped, E: Shaped, A: Decoder<T>, B: Decoder<E>> Decoder<Result<T, E>>
    for ResultDecoder<'a, A, B> {
    ghost makes_free = { A.makes_free && B.makes_free };

    fn decode(&mut self) -> Result<Result<T, E>, Error> {
        if self.variants.decode() == 0 {
            Ok(Ok(self.ok.decode()?))
        } else {
            Ok(Err(self.err.decode()?))
        }
    }

    const READS_ONE: bool = A::READS_ONE && B::READS_ONE;

    #[inline(always)]
    fn read_one(alloc: Global, input: &mut &[u8]) -> Option<Result<T, E>>
        ensures { IfSome result
            (λ t. ReadsValue ⟦<Result<T, E> as Shaped>⟧.data.makes
            ⟦<ResultDecoder<'a, A, B> as HoldsData>⟧.shape input.old.now t input.new.now) }
    {
        let Ok(byte) = consume_byte(input) else {
            return None;
        };
        if byte % 2 == 0 {
            Some(Ok(A::read_one(alloc, input)?))
        } else {
            Some(Err(B::read_one(alloc, input)?))
        }
    }

    ghost same_shape = { same_two_variants A.same_shape B.same_shape };
}
