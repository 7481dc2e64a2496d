//! The encoder of pairs.
ghost use Rattle.std.specs.Prelude.{min, ◌+◌, ◌≤◌, ◌&&◌, ◌⊎◌};
ghost use Rattle.bitcode_coder.specs.Columns.{two};
ghost use Rattle.bitcode_tuples.specs.PairLaws.{both_of_shape, both_surely};

use crate::fields::FieldsEncoder;
use bitcode_coder::coder::{Buffer, EncodeMany, Encoder, HoldsColumns};
use bitcode_coder::part::{First, Part, Second, told_parts};
use bitcode_memory::error::Error;
use bitcode_shapes::shaped::Shaped;
use std::alloc::Global;

/// The encoder of pairs: the columns of the first fields, followed by those of the second.
///
/// It writes a pair with the encoders of its fields, and returns their errors.
#[derive(Drop)]
pub struct TupleEncoder<A, B> {
    /// Writes the first field of each pair.
    pub first: A,
    /// Writes the second field of each pair.
    pub second: B,
}

impl<A: HoldsColumns, B: HoldsColumns> HoldsColumns for TupleEncoder<A, B> {
    ghost columns = { λ e. two (A.columns e.first) (B.columns e.second) };

    ghost room = { λ e. min (A.room e.first) (B.room e.second) };

    ghost capacity = { λ e. A.capacity e.first + B.capacity e.second };

    ghost surely_overflows = { λ e n. A.surely_overflows e.first n
        ⊎ B.surely_overflows e.second n };

    ghost overflows = { λ e n. A.overflows e.first n
        ⊎ ((n ≤ A.room e.first) × B.overflows e.second n) };

    ghost writes_free = { A.writes_free && B.writes_free };
}

impl<A: Buffer, B: Buffer> Buffer for TupleEncoder<A, B> {
    fn new(alloc: Global) -> Self {
        TupleEncoder {
            first: A::new(alloc),
            second: B::new(alloc),
        }
    }

    fn reserve(&mut self, n: usize) -> Result<(), Error> {
        self.first.reserve(n)?;
        self.second.reserve(n)
    }

    fn collect_into(&mut self, out: &mut Vec<u8>) -> Result<(), Error> {
        self.first.collect_into(out)?;
        self.second.collect_into(out)
    }

    fn clear(&mut self) {
        self.first.clear();
        self.second.clear();
    }
}

impl<P: Shaped, Q: Shaped, A: Buffer + Encoder<P>, B: Buffer + Encoder<Q>> Encoder<(P, Q)>
    for TupleEncoder<A, B> {
    fn encode(&mut self, t: &(P, Q)) -> Result<(), Error> {
        self.encode_fields(&(&t.0, &t.1))
    }

    fn write_directly(&mut self, t: &(P, Q), out: &mut Vec<u8>) -> Result<bool, Error> {
        self.write_fields(&(&t.0, &t.1), out)?;
        Ok(true)
    }

    ghost of_shape = { both_of_shape A.of_shape B.of_shape };

    ghost surely = { both_surely A.surely B.surely };
}

impl<P: Shaped, Q: Shaped, A: EncodeMany<P>, B: EncodeMany<Q>> EncodeMany<(P, Q)>
    for TupleEncoder<A, B> {
    fn encode_part_of_each<S, W: Part<S, (P, Q)>>(
        &mut self,
        items: &[S],
        which: &W,
        first: &(P, Q),
    ) -> Result<(), Error> {
        let second = Second::of(which);
        told_parts(items, &second);
        self.first
            .encode_part_of_each(items, &First::of(which), &first.0)?;
        self.second.encode_part_of_each(items, &second, &first.1)
    }

    ghost of_shape = { both_of_shape A.of_shape B.of_shape };

    ghost surely = { both_surely A.surely B.surely };
}
