//! The decoder of pairs.
ghost use Rattle.std.specs.Prelude.{◌≡◌, ◌&&◌, ◌+◌};
ghost use Rattle.bitcode_shapes.specs.Shape.{pair_shape};
ghost use Rattle.bitcode_tuples.specs.Pairs.{pairs_of};
ghost use Rattle.bitcode_tuples.specs.PairLaws.{same_pair_shape};

use bitcode_coder::coder::{Decoder, HoldsData, NewDecoder, View, both};
use bitcode_coder::column_free::ColumnFree;
use bitcode_memory::error::Error;
use bitcode_shapes::shaped::Shaped;
use std::alloc::Global;

mod of_3_to_8;
mod of_9_to_16;

/// The decoder of pairs. It reads the first fields of all pairs, and then their second fields.
///
/// It makes a pair with the decoders of its fields, and returns their errors.
#[derive(Drop)]
pub struct TupleDecoder<A, B> {
    pub(crate) first: A,
    pub(crate) second: B,
}

impl<A: HoldsData, B: HoldsData> HoldsData for TupleDecoder<A, B> {
    ghost shape = { pair_shape A.shape B.shape };

    ghost held = { λ d. pairs_of (A.held d.first) (B.held d.second) };

    ghost owned = { λ d. A.owned d.first + B.owned d.second };

    ghost free_inside = { λ d. A.free_inside d.first + B.free_inside d.second };
}

impl<A: NewDecoder, B: NewDecoder> NewDecoder for TupleDecoder<A, B> {
    fn new(alloc: Global) -> Self {
        TupleDecoder {
            first: A::new(alloc),
            second: B::new(alloc),
        }
    }

    fn column_free(&self) -> ColumnFree {
        let first = self.first.column_free();
        let second = self.second.column_free();
        ColumnFree {
            has_entry: first.has_entry || second.has_entry,
            inside: first.inside.saturating_add(second.inside),
        }
    }
}

impl<'a, A: View<'a>, B: View<'a>> View<'a> for TupleDecoder<A, B> {
    fn read(&mut self, input: &mut &'a [u8], k: usize, strict: bool) -> Result<bool, Error> {
        let first = self.first.read(input, k, strict)?;
        let second = self.second.read(input, k, strict)?;
        Ok(both(first, second))
    }
}

impl<A, B> TupleDecoder<A, B> {
    /// The decoder of the first fields.
    ///
    /// ```rust
    /// let pairs: TupleDecoder<BoolDecoder, IntDecoder<u8>> = TupleDecoder::new(alloc);
    /// assert_eq!(rt; pairs.first().column_free().inside, 0);
    /// ```
    pub fn first(&self) -> &A
        ensures { result.now ≡ self.now.first }
    {
        &self.first
    }

    /// The decoder of the second fields.
    ///
    /// ```rust
    /// let pairs: TupleDecoder<BoolDecoder, IntDecoder<u8>> = TupleDecoder::new(alloc);
    /// assert_eq!(rt; pairs.second().column_free().inside, 0);
    /// ```
    pub fn second(&self) -> &B
        ensures { result.now ≡ self.now.second }
    {
        &self.second
    }
}

impl<P: Shaped + Drop, Q: Shaped, A: Decoder<P>, B: Decoder<Q>> Decoder<(P, Q)>
    for TupleDecoder<A, B> {
    ghost makes_free = { A.makes_free && B.makes_free };

    // Tuples and structs are decoded where they are needed: each field then goes to its place without a copy, and the
    // positions in all columns are kept in registers.
    #[inline(always)]
    fn decode(&mut self) -> Result<(P, Q), Error> {
        let first = self.first.decode()?;
        let second = self.second.decode()?;
        Ok((first, second))
    }

    const READS_ONE: bool = A::READS_ONE && B::READS_ONE;

    #[inline(always)]
    fn read_one(alloc: Global, input: &mut &[u8]) -> Option<(P, Q)> {
        let first = A::read_one(alloc, input)?;
        let second = B::read_one(alloc, input)?;
        Some((first, second))
    }

    ghost same_shape = { same_pair_shape A.same_shape B.same_shape };
}
