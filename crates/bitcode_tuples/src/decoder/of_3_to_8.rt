// Written by scripts/tables/tuples.
//! The decoders of tuples of three to eight fields: pairs of decoders, one for each half of the fields.
ghost use Rattle.std.specs.Prelude.{◌&&◌};
ghost use Rattle.bitcode_tuples.specs.PairLaws.{same_pair_shape};

use crate::decoder::TupleDecoder;
use bitcode_coder::coder::Decoder;
use bitcode_memory::error::Error;
use bitcode_shapes::shaped::Shaped;
use std::alloc::Global;

impl<T1: Shaped + Drop, T2: Shaped, T3: Shaped, A: Decoder<T1>, B: Decoder<(T2, T3)>> Decoder<
    (T1, T2, T3),
> for TupleDecoder<A, B> {
    ghost makes_free = { A.makes_free && B.makes_free };

    #[inline(always)]
    fn decode(&mut self) -> Result<(T1, T2, T3), Error> {
        let (t1, (t2, t3)) = Decoder::<(T1, (T2, T3))>::decode(self)?;
        Ok((t1, t2, t3))
    }

    const READS_ONE: bool = <Self as Decoder<(T1, (T2, T3))>>::READS_ONE;

    #[inline(always)]
    fn read_one(alloc: Global, input: &mut &[u8]) -> Option<(T1, T2, T3)> {
        let (t1, (t2, t3)) = <Self as Decoder<(T1, (T2, T3))>>::read_one(alloc, input)?;
        Some((t1, t2, t3))
    }

    ghost same_shape = { same_pair_shape A.same_shape B.same_shape };
}

impl<
    T1: Shaped + Drop,
    T2: Shaped + Drop,
    T3: Shaped,
    T4: Shaped,
    A: Decoder<(T1, T2)>,
    B: Decoder<(T3, T4)>,
> Decoder<(T1, T2, T3, T4)> for TupleDecoder<A, B> {
    ghost makes_free = { A.makes_free && B.makes_free };

    #[inline(always)]
    fn decode(&mut self) -> Result<(T1, T2, T3, T4), Error> {
        let ((t1, t2), (t3, t4)) = Decoder::<((T1, T2), (T3, T4))>::decode(self)?;
        Ok((t1, t2, t3, t4))
    }

    const READS_ONE: bool = <Self as Decoder<((T1, T2), (T3, T4))>>::READS_ONE;

    #[inline(always)]
    fn read_one(alloc: Global, input: &mut &[u8]) -> Option<(T1, T2, T3, T4)> {
        let ((t1, t2), (t3, t4)) = <Self as Decoder<((T1, T2), (T3, T4))>>::read_one(alloc, input)?;
        Some((t1, t2, t3, t4))
    }

    ghost same_shape = { same_pair_shape A.same_shape B.same_shape };
}

impl<
    T1: Shaped + Drop,
    T2: Shaped + Drop,
    T3: Shaped,
    T4: Shaped,
    T5: Shaped,
    A: Decoder<(T1, T2)>,
    B: Decoder<(T3, T4, T5)>,
> Decoder<(T1, T2, T3, T4, T5)> for TupleDecoder<A, B> {
    ghost makes_free = { A.makes_free && B.makes_free };

    #[inline(always)]
    fn decode(&mut self) -> Result<(T1, T2, T3, T4, T5), Error> {
        let ((t1, t2), (t3, t4, t5)) = Decoder::<((T1, T2), (T3, T4, T5))>::decode(self)?;
        Ok((t1, t2, t3, t4, t5))
    }

    const READS_ONE: bool = <Self as Decoder<((T1, T2), (T3, T4, T5))>>::READS_ONE;

    #[inline(always)]
    fn read_one(alloc: Global, input: &mut &[u8]) -> Option<(T1, T2, T3, T4, T5)> {
        let ((t1, t2), (t3, t4, t5)) = <Self as Decoder<((T1, T2), (T3, T4, T5))>>::read_one(
            alloc, input,
        )?;
        Some((t1, t2, t3, t4, t5))
    }

    ghost same_shape = { same_pair_shape A.same_shape B.same_shape };
}

impl<
    T1: Shaped + Drop,
    T2: Shaped + Drop,
    T3: Shaped + Drop,
    T4: Shaped,
    T5: Shaped,
    T6: Shaped,
    A: Decoder<(T1, T2, T3)>,
    B: Decoder<(T4, T5, T6)>,
> Decoder<(T1, T2, T3, T4, T5, T6)> for TupleDecoder<A, B> {
    ghost makes_free = { A.makes_free && B.makes_free };

    #[inline(always)]
    fn decode(&mut self) -> Result<(T1, T2, T3, T4, T5, T6), Error> {
        let ((t1, t2, t3), (t4, t5, t6)) = Decoder::<((T1, T2, T3), (T4, T5, T6))>::decode(self)?;
        Ok((t1, t2, t3, t4, t5, t6))
    }

    const READS_ONE: bool = <Self as Decoder<((T1, T2, T3), (T4, T5, T6))>>::READS_ONE;

    #[inline(always)]
    fn read_one(alloc: Global, input: &mut &[u8]) -> Option<(T1, T2, T3, T4, T5, T6)> {
        let ((t1, t2, t3), (t4, t5, t6)) = <Self as Decoder<
            ((T1, T2, T3), (T4, T5, T6)),
        >>::read_one(alloc, input)?;
        Some((t1, t2, t3, t4, t5, t6))
    }

    ghost same_shape = { same_pair_shape A.same_shape B.same_shape };
}

impl<
    T1: Shaped + Drop,
    T2: Shaped + Drop,
    T3: Shaped + Drop,
    T4: Shaped,
    T5: Shaped,
    T6: Shaped,
    T7: Shaped,
    A: Decoder<(T1, T2, T3)>,
    B: Decoder<(T4, T5, T6, T7)>,
> Decoder<(T1, T2, T3, T4, T5, T6, T7)> for TupleDecoder<A, B> {
    ghost makes_free = { A.makes_free && B.makes_free };

    #[inline(always)]
    fn decode(&mut self) -> Result<(T1, T2, T3, T4, T5, T6, T7), Error> {
        let ((t1, t2, t3), (t4, t5, t6, t7)) = Decoder::<((T1, T2, T3), (T4, T5, T6, T7))>::decode(
            self,
        )?;
        Ok((t1, t2, t3, t4, t5, t6, t7))
    }

    const READS_ONE: bool = <Self as Decoder<((T1, T2, T3), (T4, T5, T6, T7))>>::READS_ONE;

    #[inline(always)]
    fn read_one(alloc: Global, input: &mut &[u8]) -> Option<(T1, T2, T3, T4, T5, T6, T7)> {
        let ((t1, t2, t3), (t4, t5, t6, t7)) = <Self as Decoder<
            ((T1, T2, T3), (T4, T5, T6, T7)),
        >>::read_one(alloc, input)?;
        Some((t1, t2, t3, t4, t5, t6, t7))
    }

    ghost same_shape = { same_pair_shape A.same_shape B.same_shape };
}

impl<
    T1: Shaped + Drop,
    T2: Shaped + Drop,
    T3: Shaped + Drop,
    T4: Shaped + Drop,
    T5: Shaped,
    T6: Shaped,
    T7: Shaped,
    T8: Shaped,
    A: Decoder<(T1, T2, T3, T4)>,
    B: Decoder<(T5, T6, T7, T8)>,
> Decoder<(T1, T2, T3, T4, T5, T6, T7, T8)> for TupleDecoder<A, B> {
    ghost makes_free = { A.makes_free && B.makes_free };

    #[inline(always)]
    fn decode(&mut self) -> Result<(T1, T2, T3, T4, T5, T6, T7, T8), Error> {
        let ((t1, t2, t3, t4), (t5, t6, t7, t8)) = Decoder::<
            ((T1, T2, T3, T4), (T5, T6, T7, T8)),
        >::decode(self)?;
        Ok((t1, t2, t3, t4, t5, t6, t7, t8))
    }

    const READS_ONE: bool = <Self as Decoder<((T1, T2, T3, T4), (T5, T6, T7, T8))>>::READS_ONE;

    #[inline(always)]
    fn read_one(alloc: Global, input: &mut &[u8]) -> Option<(T1, T2, T3, T4, T5, T6, T7, T8)> {
        let ((t1, t2, t3, t4), (t5, t6, t7, t8)) = <Self as Decoder<
            ((T1, T2, T3, T4), (T5, T6, T7, T8)),
        >>::read_one(alloc, input)?;
        Some((t1, t2, t3, t4, t5, t6, t7, t8))
    }

    ghost same_shape = { same_pair_shape A.same_shape B.same_shape };
}
