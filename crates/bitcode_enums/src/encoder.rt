//! The encoder of enums: the variants, followed by the payloads of each variant.
ghost use Rattle.std.specs.Prelude.{◌+◌, ◌<◌, false};
ghost use Rattle.bitcode_parts.specs.Variants.{written_variants, variant_room, variant_capacity};
ghost use Rattle.bitcode_enums.specs.ByNumber.{all_columns};
ghost use Rattle.bitcode_enums.specs.ByNumberLaws.{each_has_payloads, whole_form};
ghost use Rattle.bitcode_enums.specs.Writing.{variant_columns};
ghost use Rattle.bitcode_enums.specs.WritingLaws.{enum_of_shape};

use crate::columns::{HoldsVariantColumns, VariantColumns};
use crate::enums::{Enum, EnumOf};
use crate::number::At;
use crate::payload_columns::PayloadColumns;
use crate::writes::WritesVariants;
use bitcode_coder::coder::{Buffer, EncodeMany, Encoder, HoldsColumns, MAX_VECTORED_CHUNK};
use bitcode_coder::part::{Part, told_parts};
use bitcode_memory::error::Error;
use bitcode_parts::choices::gathered::{SaysVariant, gather_variants};
use bitcode_parts::choices::variant::VariantEncoder;
use std::alloc::Global;

/// The columns of an enum of `N` variants, 2 to 256: the variants, followed by the columns of the payloads, which `C`
/// holds by variant.
///
/// ```
/// let mut shots: EnumEncoder<2, ShotColumns> = EnumEncoder::new(alloc);
/// shots.reserve(2)?;
/// shots.encode(&Shot::Hit(7))?;
/// shots.encode(&Shot::Missed)?;
/// shots.collect_into(&mut bytes)?; // [1, 7]
/// ```
#[derive(Drop)]
pub struct EnumEncoder<const N: usize, C> {
    variants: VariantEncoder<N>,
    payloads: PayloadColumns<C>,
}

impl<const N: usize, C: HoldsVariantColumns> HoldsColumns for EnumEncoder<N, C> {
    ghost columns = { λ e. variant_columns N (written_variants e.variants)
        (all_columns (C.columns.lists e.payloads.columns)) };

    ghost room = { λ e. variant_room e.variants };

    ghost capacity = { λ e. variant_capacity e.variants + C.columns.capacity e.payloads.columns };

    ghost surely_overflows = { λ e n. ⊥ };

    ghost overflows = { λ e n. ⊥ };

    ghost writes_free = { false };
}

impl<const N: usize, C: VariantColumns> Buffer for EnumEncoder<N, C> {
    fn new(alloc: Global) -> Self {
        EnumEncoder {
            variants: VariantEncoder::new(alloc),
            payloads: PayloadColumns::new(alloc),
        }
    }

    fn reserve(&mut self, n: usize) -> Result<(), Error> {
        self.variants.reserve(n)
    }

    fn collect_into(&mut self, out: &mut Vec<u8>) -> Result<(), Error> {
        self.variants.collect_into(out)?;
        self.payloads.collect_into(out)
    }

    fn clear(&mut self) {
        self.variants.clear();
        self.payloads.clear();
    }
}

// Says which variant a value is of.
struct EnumVariant<const N: usize> {}

impl<const N: usize, T: EnumOf<N>> SaysVariant<T> for EnumVariant<N> {
    ghost count = { N };

    ghost variant = { T.each.variants.index };

    fn variant(t: &T) -> u8 {
        Enum::variant(t)
    }
}

impl<
    const N: usize,
    C: HoldsVariantColumns,
    T: EnumOf<N> + WritesVariants<At<0>, At<N>, C>,
> Encoder<T> for EnumEncoder<N, C> {
    fn encode(&mut self, t: &T) -> Result<(), Error> {
        self.variants.encode(Enum::variant(t));
        self.payloads.encode_payload::<N, T>(t)
    }

    ghost of_shape = { λ e. enum_of_shape T.each.variants.shapes T.data.shape N
        (all_columns (C.columns.lists e.payloads.columns)) T.counted.0 T.counted.1
        (each_has_payloads T.each.variants.shapes (C.columns.lists e.payloads.columns)
        (whole_form T.each.variants.shapes N (C.columns.lists e.payloads.columns) T.counted.0
        (T.are_columns e.payloads.columns)) 0) };

    ghost surely = { λ e n h. absurd h };
}

impl<
    const N: usize,
    C: HoldsVariantColumns,
    T: EnumOf<N> + WritesVariants<At<0>, At<N>, C>,
> EncodeMany<T> for EnumEncoder<N, C> {
    fn is_primitive() -> bool {
        false
    }

    fn encode_part_of_each<I, W: Part<I, T>>(
        &mut self,
        items: &[I],
        which: &W,
        _first: &T,
    ) -> Result<(), Error> {
        told_parts(items, which);
        let mut variants = [0; MAX_VECTORED_CHUNK];
        gather_variants::<I, T, W, EnumVariant<N>>(items, which, &mut variants);
        self.variants.encode_vectored(&variants[..items.len()]);
        for item in items {
            self.payloads.encode_payload::<N, T>(which.part(item))?;
        }
        Ok(())
    }

    ghost of_shape = { λ e. enum_of_shape T.each.variants.shapes T.data.shape N
        (all_columns (C.columns.lists e.payloads.columns)) T.counted.0 T.counted.1
        (each_has_payloads T.each.variants.shapes (C.columns.lists e.payloads.columns)
        (whole_form T.each.variants.shapes N (C.columns.lists e.payloads.columns) T.counted.0
        (T.are_columns e.payloads.columns)) 0) };

    ghost surely = { λ e n h. absurd h };
}
