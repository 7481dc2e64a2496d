// Written by scripts/tables/tuples.
//! The decoders of tuples of nine to sixteen fields: pairs of decoders, one for each half of the fields.
ghost use Rattle.std.specs.Prelude.{◌&&◌};
ghost use Rattle.bitcode_tuples.specs.PairLaws.{same_pair_shape};

use crate::decoder::TupleDecoder;
use bitcode_coder::coder::Decoder;
use bitcode_memory::error::Error;
use bitcode_shapes::shaped::Shaped;
use std::alloc::Global;

impl<
    T1: Shaped + Drop,
    T2: Shaped + Drop,
    T3: Shaped + Drop,
    T4: Shaped + Drop,
    T5: Shaped,
    T6: Shaped,
    T7: Shaped,
    T8: Shaped,
    T9: Shaped,
    A: Decoder<(T1, T2, T3, T4)>,
    B: Decoder<(T5, T6, T7, T8, T9)>,
> Decoder<(T1, T2, T3, T4, T5, T6, T7, T8, T9)> for TupleDecoder<A, B> {
    ghost makes_free = { A.makes_free && B.makes_free };

    #[inline(always)]
    fn decode(&mut self) -> Result<(T1, T2, T3, T4, T5, T6, T7, T8, T9), Error> {
        let ((t1, t2, t3, t4), (t5, t6, t7, t8, t9)) = Decoder::<
            ((T1, T2, T3, T4), (T5, T6, T7, T8, T9)),
        >::decode(self)?;
        Ok((t1, t2, t3, t4, t5, t6, t7, t8, t9))
    }

    const READS_ONE: bool = <Self as Decoder<((T1, T2, T3, T4), (T5, T6, T7, T8, T9))>>::READS_ONE;

    #[inline(always)]
    fn read_one(alloc: Global, input: &mut &[u8]) -> Option<(T1, T2, T3, T4, T5, T6, T7, T8, T9)> {
        let ((t1, t2, t3, t4), (t5, t6, t7, t8, t9)) = <Self as Decoder<
            ((T1, T2, T3, T4), (T5, T6, T7, T8, T9)),
        >>::read_one(alloc, input)?;
        Some((t1, t2, t3, t4, t5, t6, t7, t8, t9))
    }

    ghost same_shape = { same_pair_shape A.same_shape B.same_shape };
}

impl<
    T1: Shaped + Drop,
    T2: Shaped + Drop,
    T3: Shaped + Drop,
    T4: Shaped + Drop,
    T5: Shaped + Drop,
    T6: Shaped,
    T7: Shaped,
    T8: Shaped,
    T9: Shaped,
    T10: Shaped,
    A: Decoder<(T1, T2, T3, T4, T5)>,
    B: Decoder<(T6, T7, T8, T9, T10)>,
> Decoder<(T1, T2, T3, T4, T5, T6, T7, T8, T9, T10)> for TupleDecoder<A, B> {
    ghost makes_free = { A.makes_free && B.makes_free };

    #[inline(always)]
    fn decode(&mut self) -> Result<(T1, T2, T3, T4, T5, T6, T7, T8, T9, T10), Error> {
        let ((t1, t2, t3, t4, t5), (t6, t7, t8, t9, t10)) = Decoder::<
            ((T1, T2, T3, T4, T5), (T6, T7, T8, T9, T10)),
        >::decode(self)?;
        Ok((t1, t2, t3, t4, t5, t6, t7, t8, t9, t10))
    }

    const READS_ONE: bool = <Self as Decoder<
        ((T1, T2, T3, T4, T5), (T6, T7, T8, T9, T10)),
    >>::READS_ONE;

    #[inline(always)]
    fn read_one(
        alloc: Global,
        input: &mut &[u8],
    ) -> Option<(T1, T2, T3, T4, T5, T6, T7, T8, T9, T10)> {
        let ((t1, t2, t3, t4, t5), (t6, t7, t8, t9, t10)) = <Self as Decoder<
            ((T1, T2, T3, T4, T5), (T6, T7, T8, T9, T10)),
        >>::read_one(alloc, input)?;
        Some((t1, t2, t3, t4, t5, t6, t7, t8, t9, t10))
    }

    ghost same_shape = { same_pair_shape A.same_shape B.same_shape };
}

impl<
    T1: Shaped + Drop,
    T2: Shaped + Drop,
    T3: Shaped + Drop,
    T4: Shaped + Drop,
    T5: Shaped + Drop,
    T6: Shaped,
    T7: Shaped,
    T8: Shaped,
    T9: Shaped,
    T10: Shaped,
    T11: Shaped,
    A: Decoder<(T1, T2, T3, T4, T5)>,
    B: Decoder<(T6, T7, T8, T9, T10, T11)>,
> Decoder<(T1, T2, T3, T4, T5, T6, T7, T8, T9, T10, T11)> for TupleDecoder<A, B> {
    ghost makes_free = { A.makes_free && B.makes_free };

    #[inline(always)]
    fn decode(&mut self) -> Result<(T1, T2, T3, T4, T5, T6, T7, T8, T9, T10, T11), Error> {
        let ((t1, t2, t3, t4, t5), (t6, t7, t8, t9, t10, t11)) = Decoder::<
            ((T1, T2, T3, T4, T5), (T6, T7, T8, T9, T10, T11)),
        >::decode(self)?;
        Ok((t1, t2, t3, t4, t5, t6, t7, t8, t9, t10, t11))
    }

    const READS_ONE: bool = <Self as Decoder<
        ((T1, T2, T3, T4, T5), (T6, T7, T8, T9, T10, T11)),
    >>::READS_ONE;

    #[inline(always)]
    fn read_one(
        alloc: Global,
        input: &mut &[u8],
    ) -> Option<(T1, T2, T3, T4, T5, T6, T7, T8, T9, T10, T11)> {
        let ((t1, t2, t3, t4, t5), (t6, t7, t8, t9, t10, t11)) = <Self as Decoder<
            ((T1, T2, T3, T4, T5), (T6, T7, T8, T9, T10, T11)),
        >>::read_one(alloc, input)?;
        Some((t1, t2, t3, t4, t5, t6, t7, t8, t9, t10, t11))
    }

    ghost same_shape = { same_pair_shape A.same_shape B.same_shape };
}

impl<
    T1: Shaped + Drop,
    T2: Shaped + Drop,
    T3: Shaped + Drop,
    T4: Shaped + Drop,
    T5: Shaped + Drop,
    T6: Shaped + Drop,
    T7: Shaped,
    T8: Shaped,
    T9: Shaped,
    T10: Shaped,
    T11: Shaped,
    T12: Shaped,
    A: Decoder<(T1, T2, T3, T4, T5, T6)>,
    B: Decoder<(T7, T8, T9, T10, T11, T12)>,
> Decoder<(T1, T2, T3, T4, T5, T6, T7, T8, T9, T10, T11, T12)> for TupleDecoder<A, B> {
    ghost makes_free = { A.makes_free && B.makes_free };

    #[inline(always)]
    fn decode(&mut self) -> Result<(T1, T2, T3, T4, T5, T6, T7, T8, T9, T10, T11, T12), Error> {
        let ((t1, t2, t3, t4, t5, t6), (t7, t8, t9, t10, t11, t12)) = Decoder::<
            ((T1, T2, T3, T4, T5, T6), (T7, T8, T9, T10, T11, T12)),
        >::decode(self)?;
        Ok((t1, t2, t3, t4, t5, t6, t7, t8, t9, t10, t11, t12))
    }

    const READS_ONE: bool = <Self as Decoder<
        ((T1, T2, T3, T4, T5, T6), (T7, T8, T9, T10, T11, T12)),
    >>::READS_ONE;

    #[inline(always)]
    fn read_one(
        alloc: Global,
        input: &mut &[u8],
    ) -> Option<(T1, T2, T3, T4, T5, T6, T7, T8, T9, T10, T11, T12)> {
        let ((t1, t2, t3, t4, t5, t6), (t7, t8, t9, t10, t11, t12)) = <Self as Decoder<
            ((T1, T2, T3, T4, T5, T6), (T7, T8, T9, T10, T11, T12)),
        >>::read_one(alloc, input)?;
        Some((t1, t2, t3, t4, t5, t6, t7, t8, t9, t10, t11, t12))
    }

    ghost same_shape = { same_pair_shape A.same_shape B.same_shape };
}

impl<
    T1: Shaped + Drop,
    T2: Shaped + Drop,
    T3: Shaped + Drop,
    T4: Shaped + Drop,
    T5: Shaped + Drop,
    T6: Shaped + Drop,
    T7: Shaped,
    T8: Shaped,
    T9: Shaped,
    T10: Shaped,
    T11: Shaped,
    T12: Shaped,
    T13: Shaped,
    A: Decoder<(T1, T2, T3, T4, T5, T6)>,
    B: Decoder<(T7, T8, T9, T10, T11, T12, T13)>,
> Decoder<(T1, T2, T3, T4, T5, T6, T7, T8, T9, T10, T11, T12, T13)> for TupleDecoder<A, B> {
    ghost makes_free = { A.makes_free && B.makes_free };

    #[inline(always)]
    fn decode(
        &mut self,
    ) -> Result<(T1, T2, T3, T4, T5, T6, T7, T8, T9, T10, T11, T12, T13), Error> {
        let ((t1, t2, t3, t4, t5, t6), (t7, t8, t9, t10, t11, t12, t13)) = Decoder::<
            ((T1, T2, T3, T4, T5, T6), (T7, T8, T9, T10, T11, T12, T13)),
        >::decode(self)?;
        Ok((t1, t2, t3, t4, t5, t6, t7, t8, t9, t10, t11, t12, t13))
    }

    const READS_ONE: bool = <Self as Decoder<
        ((T1, T2, T3, T4, T5, T6), (T7, T8, T9, T10, T11, T12, T13)),
    >>::READS_ONE;

    #[inline(always)]
    fn read_one(
        alloc: Global,
        input: &mut &[u8],
    ) -> Option<(T1, T2, T3, T4, T5, T6, T7, T8, T9, T10, T11, T12, T13)> {
        let ((t1, t2, t3, t4, t5, t6), (t7, t8, t9, t10, t11, t12, t13)) = <Self as Decoder<
            ((T1, T2, T3, T4, T5, T6), (T7, T8, T9, T10, T11, T12, T13)),
        >>::read_one(alloc, input)?;
        Some((t1, t2, t3, t4, t5, t6, t7, t8, t9, t10, t11, t12, t13))
    }

    ghost same_shape = { same_pair_shape A.same_shape B.same_shape };
}

impl<
    T1: Shaped + Drop,
    T2: Shaped + Drop,
    T3: Shaped + Drop,
    T4: Shaped + Drop,
    T5: Shaped + Drop,
    T6: Shaped + Drop,
    T7: Shaped + Drop,
    T8: Shaped,
    T9: Shaped,
    T10: Shaped,
    T11: Shaped,
    T12: Shaped,
    T13: Shaped,
    T14: Shaped,
    A: Decoder<(T1, T2, T3, T4, T5, T6, T7)>,
    B: Decoder<(T8, T9, T10, T11, T12, T13, T14)>,
> Decoder<(T1, T2, T3, T4, T5, T6, T7, T8, T9, T10, T11, T12, T13, T14)> for TupleDecoder<A, B> {
    ghost makes_free = { A.makes_free && B.makes_free };

    #[inline(always)]
    fn decode(
        &mut self,
    ) -> Result<(T1, T2, T3, T4, T5, T6, T7, T8, T9, T10, T11, T12, T13, T14), Error> {
        let ((t1, t2, t3, t4, t5, t6, t7), (t8, t9, t10, t11, t12, t13, t14)) = Decoder::<
            (
                (T1, T2, T3, T4, T5, T6, T7),
                (T8, T9, T10, T11, T12, T13, T14),
            ),
        >::decode(self)?;
        Ok((t1, t2, t3, t4, t5, t6, t7, t8, t9, t10, t11, t12, t13, t14))
    }

    const READS_ONE: bool = <Self as Decoder<
        (
            (T1, T2, T3, T4, T5, T6, T7),
            (T8, T9, T10, T11, T12, T13, T14),
        ),
    >>::READS_ONE;

    #[inline(always)]
    fn read_one(
        alloc: Global,
        input: &mut &[u8],
    ) -> Option<(T1, T2, T3, T4, T5, T6, T7, T8, T9, T10, T11, T12, T13, T14)> {
        let ((t1, t2, t3, t4, t5, t6, t7), (t8, t9, t10, t11, t12, t13, t14)) = <Self as Decoder<
            (
                (T1, T2, T3, T4, T5, T6, T7),
                (T8, T9, T10, T11, T12, T13, T14),
            ),
        >>::read_one(alloc, input)?;
        Some((t1, t2, t3, t4, t5, t6, t7, t8, t9, t10, t11, t12, t13, t14))
    }

    ghost same_shape = { same_pair_shape A.same_shape B.same_shape };
}

impl<
    T1: Shaped + Drop,
    T2: Shaped + Drop,
    T3: Shaped + Drop,
    T4: Shaped + Drop,
    T5: Shaped + Drop,
    T6: Shaped + Drop,
    T7: Shaped + Drop,
    T8: Shaped,
    T9: Shaped,
    T10: Shaped,
    T11: Shaped,
    T12: Shaped,
    T13: Shaped,
    T14: Shaped,
    T15: Shaped,
    A: Decoder<(T1, T2, T3, T4, T5, T6, T7)>,
    B: Decoder<(T8, T9, T10, T11, T12, T13, T14, T15)>,
> Decoder<
    (
        T1,
        T2,
        T3,
        T4,
        T5,
        T6,
        T7,
        T8,
        T9,
        T10,
        T11,
        T12,
        T13,
        T14,
        T15,
    ),
> for TupleDecoder<A, B> {
    ghost makes_free = { A.makes_free && B.makes_free };

    #[inline(always)]
    fn decode(
        &mut self,
    ) -> Result<
        (
            T1,
            T2,
            T3,
            T4,
            T5,
            T6,
            T7,
            T8,
            T9,
            T10,
            T11,
            T12,
            T13,
            T14,
            T15,
        ),
        Error,
    > {
        let ((t1, t2, t3, t4, t5, t6, t7), (t8, t9, t10, t11, t12, t13, t14, t15)) = Decoder::<
            (
                (T1, T2, T3, T4, T5, T6, T7),
                (T8, T9, T10, T11, T12, T13, T14, T15),
            ),
        >::decode(self)?;
        Ok((
            t1, t2, t3, t4, t5, t6, t7, t8, t9, t10, t11, t12, t13, t14, t15,
        ))
    }

    const READS_ONE: bool = <Self as Decoder<
        (
            (T1, T2, T3, T4, T5, T6, T7),
            (T8, T9, T10, T11, T12, T13, T14, T15),
        ),
    >>::READS_ONE;

    #[inline(always)]
    fn read_one(
        alloc: Global,
        input: &mut &[u8],
    ) -> Option<
        (
            T1,
            T2,
            T3,
            T4,
            T5,
            T6,
            T7,
            T8,
            T9,
            T10,
            T11,
            T12,
            T13,
            T14,
            T15,
        ),
    > {
        let ((t1, t2, t3, t4, t5, t6, t7), (t8, t9, t10, t11, t12, t13, t14, t15)) =
            <Self as Decoder<
                (
                    (T1, T2, T3, T4, T5, T6, T7),
                    (T8, T9, T10, T11, T12, T13, T14, T15),
                ),
            >>::read_one(alloc, input)?;
        Some((
            t1, t2, t3, t4, t5, t6, t7, t8, t9, t10, t11, t12, t13, t14, t15,
        ))
    }

    ghost same_shape = { same_pair_shape A.same_shape B.same_shape };
}

impl<
    T1: Shaped + Drop,
    T2: Shaped + Drop,
    T3: Shaped + Drop,
    T4: Shaped + Drop,
    T5: Shaped + Drop,
    T6: Shaped + Drop,
    T7: Shaped + Drop,
    T8: Shaped + Drop,
    T9: Shaped,
    T10: Shaped,
    T11: Shaped,
    T12: Shaped,
    T13: Shaped,
    T14: Shaped,
    T15: Shaped,
    T16: Shaped,
    A: Decoder<(T1, T2, T3, T4, T5, T6, T7, T8)>,
    B: Decoder<(T9, T10, T11, T12, T13, T14, T15, T16)>,
> Decoder<
    (
        T1,
        T2,
        T3,
        T4,
        T5,
        T6,
        T7,
        T8,
        T9,
        T10,
        T11,
        T12,
        T13,
        T14,
        T15,
        T16,
    ),
> for TupleDecoder<A, B> {
    ghost makes_free = { A.makes_free && B.makes_free };

    #[inline(always)]
    fn decode(
        &mut self,
    ) -> Result<
        (
            T1,
            T2,
            T3,
            T4,
            T5,
            T6,
            T7,
            T8,
            T9,
            T10,
            T11,
            T12,
            T13,
            T14,
            T15,
            T16,
        ),
        Error,
    > {
        let ((t1, t2, t3, t4, t5, t6, t7, t8), (t9, t10, t11, t12, t13, t14, t15, t16)) = Decoder::<
            (
                (T1, T2, T3, T4, T5, T6, T7, T8),
                (T9, T10, T11, T12, T13, T14, T15, T16),
            ),
        >::decode(self)?;
        Ok((
            t1, t2, t3, t4, t5, t6, t7, t8, t9, t10, t11, t12, t13, t14, t15, t16,
        ))
    }

    const READS_ONE: bool = <Self as Decoder<
        (
            (T1, T2, T3, T4, T5, T6, T7, T8),
            (T9, T10, T11, T12, T13, T14, T15, T16),
        ),
    >>::READS_ONE;

    #[inline(always)]
    fn read_one(
        alloc: Global,
        input: &mut &[u8],
    ) -> Option<
        (
            T1,
            T2,
            T3,
            T4,
            T5,
            T6,
            T7,
            T8,
            T9,
            T10,
            T11,
            T12,
            T13,
            T14,
            T15,
            T16,
        ),
    > {
        let ((t1, t2, t3, t4, t5, t6, t7, t8), (t9, t10, t11, t12, t13, t14, t15, t16)) =
            <Self as Decoder<
                (
                    (T1, T2, T3, T4, T5, T6, T7, T8),
                    (T9, T10, T11, T12, T13, T14, T15, T16),
                ),
            >>::read_one(alloc, input)?;
        Some((
            t1, t2, t3, t4, t5, t6, t7, t8, t9, t10, t11, t12, t13, t14, t15, t16,
        ))
    }

    ghost same_shape = { same_pair_shape A.same_shape B.same_shape };
}
