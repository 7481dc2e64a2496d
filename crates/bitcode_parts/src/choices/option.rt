//! The coders of options.
ghost use Rattle.std.specs.Prelude.{◌+◌, refl, false, [], ◌∷◌, IfSome};
ghost use Rattle.bitcode_shapes.specs.Shape.{choice_shape, shape_and, no_shapes, unit_shape};
ghost use Rattle.bitcode_coder.specs.Coder.{ReadsValue};
ghost use Rattle.bitcode_coder.specs.Columns.{no_columns, two};
ghost use Rattle.bitcode_parts.specs.Payloads.{choices_of};
ghost use Rattle.bitcode_parts.specs.TwoVariantLaws.{same_two_variants, two_variants_form};
ghost use Rattle.bitcode_parts.specs.Variants.{variant_room, variant_capacity, variants_left, variants_owned};

use crate::choices::gathered::gather_variants;
use crate::choices::option::gathered::{OptionVariant, encode_values};
use crate::choices::variant::{VariantDecoder, VariantEncoder, encode_payload};
use crate::empty::EmptyCoder;
use bitcode_coder::coder::{
    Buffer, Decoder, EncodeMany, Encoder, HoldsColumns, HoldsData, MAX_VECTORED_CHUNK, NewDecoder,
    View, both,
};
use bitcode_coder::column_free::ColumnFree;
use bitcode_coder::one::write_one;
use bitcode_coder::part::Part;
use bitcode_memory::consume::consume_byte;
use bitcode_memory::error::Error;
use bitcode_shapes::shaped::Shaped;
use std::alloc::Global;

mod gathered;

/// The encoder of options: which of them have a value, followed by the columns of the values.
///
/// ```rust
/// let mut options: OptionEncoder<IntEncoder<i16>> = OptionEncoder::new(alloc);
/// options.reserve(3)?;
/// options.encode(&None::<i16>)?;
/// options.encode(&Some(1i16))?;
/// options.encode(&None::<i16>)?;
/// assert_eq!(rt; options.collect(alloc)?.as_slice(), [2, 1, 0].as_slice());
/// ```
#[derive(Drop)]
pub struct OptionEncoder<E> {
    variants: VariantEncoder<2>,
    some: E,
}

impl<E: HoldsColumns> HoldsColumns for OptionEncoder<E> {
    ghost columns = { λ e. two (⟦<VariantEncoder<2> as HoldsColumns>⟧.columns e.variants)
        (two no_columns (two (E.columns e.some) no_columns)) };

    ghost room = { λ e. variant_room e.variants };

    ghost capacity = { λ e. variant_capacity e.variants + E.capacity e.some };

    ghost surely_overflows = { λ e n. ⊥ };

    ghost overflows = { λ e n. ⊥ };

    ghost writes_free = { false };
}

impl<E: Buffer> Buffer for OptionEncoder<E> {
    fn new(alloc: Global) -> Self {
        OptionEncoder {
            variants: VariantEncoder::new(alloc),
            some: E::new(alloc),
        }
    }

    fn reserve(&mut self, n: usize) -> Result<(), Error> {
        self.variants.reserve(n)
    }

    fn collect_into(&mut self, out: &mut Vec<u8>) -> Result<(), Error> {
        self.variants.collect_into(out)?;
        self.some.collect_into(out)
    }

    fn clear(&mut self) {
        self.variants.clear();
        self.some.clear();
    }
}

impl<T: Shaped, E: Buffer + Encoder<T>> Encoder<Option<T>> for OptionEncoder<E> {
    fn encode(&mut self, t: &Option<T>) -> Result<(), Error> {
        match t {
            None => {
                self.variants.encode(0);
                Ok(())
            }
            Some(value) => {
                self.variants.encode(1);
                encode_payload(&mut self.some, value)
            }
        }
    }

    fn write_directly(&mut self, t: &Option<T>, out: &mut Vec<u8>) -> Result<bool, Error> {
        match t {
            None => {
                out.push(0)?;
                self.some.collect_into(out)?;
                Ok(true)
            }
            Some(value) => {
                out.push(1)?;
                write_one(&mut self.some, value, out)?;
                Ok(true)
            }
        }
    }

    ghost of_shape = { λ e. two_variants_form refl (E.of_shape e.some) };

    ghost surely = { λ e n h. absurd h };
}

impl<T: Shaped, E: Buffer + EncodeMany<T>> EncodeMany<Option<T>> for OptionEncoder<E> {
    fn encode_part_of_each<S, W: Part<S, Option<T>>>(
        &mut self,
        items: &[S],
        which: &W,
        _first: &Option<T>,
    ) -> Result<(), Error> {
        let mut variants = [0; MAX_VECTORED_CHUNK];
        gather_variants::<S, Option<T>, W, OptionVariant>(items, which, &mut variants);
        self.variants.encode_vectored(&variants[..items.len()]);
        encode_values(&mut self.some, items, which)
    }

    ghost of_shape = { λ e. two_variants_form refl (E.of_shape e.some) };

    ghost surely = { λ e n h. absurd h };
}

/// The decoder of options. It reads which of them have a value, and then all values.
///
/// ```
/// let mut options: OptionDecoder<IntDecoder<i16>> = OptionDecoder::new(alloc);
/// options.populate(&mut input, 3)?; // of [2, 1, 0]
/// let first: Option<i16> = options.decode()?; // None
/// ```
#[derive(Drop)]
pub struct OptionDecoder<'a, D> {
    variants: VariantDecoder<'a, 2, false>,
    none: EmptyCoder,
    some: D,
}

impl<'a, D: HoldsData> HoldsData for OptionDecoder<'a, D> {
    ghost shape = { choice_shape (shape_and unit_shape (shape_and D.shape no_shapes)) };

    ghost held = { λ d. choices_of (variants_left d.variants)
        (⟦<EmptyCoder as HoldsData>⟧.held d.none ∷ D.held d.some ∷ []) };

    ghost owned = { λ d. variants_owned d.variants + D.owned d.some };

    ghost free_inside = { λ d. D.free_inside d.some };
}

impl<'a, D: NewDecoder> NewDecoder for OptionDecoder<'a, D> {
    fn new(alloc: Global) -> Self {
        OptionDecoder {
            variants: VariantDecoder::new(alloc),
            none: NewDecoder::new(alloc),
            some: D::new(alloc),
        }
    }

    fn column_free(&self) -> ColumnFree {
        ColumnFree {
            has_entry: true,
            inside: self.some.column_free().inside,
        }
    }
}

impl<'a, D: View<'a>> View<'a> for OptionDecoder<'a, D> {
    fn read(&mut self, input: &mut &'a [u8], k: usize, strict: bool) -> Result<bool, Error> {
        let variants = self.variants.read(input, k, strict)?;
        let none = self.none.read(input, self.variants.length(0), strict)?;
        let some = self.some.read(input, self.variants.length(1), strict)?;
        Ok(both(both(variants, none), some))
    }
}

impl<'a, T: Shaped, D: Decoder<T>> Decoder<Option<T>> for OptionDecoder<'a, D> {
    ghost makes_free = { D.makes_free };

    fn decode(&mut self) -> Result<Option<T>, Error> {
        if self.variants.decode() == 0 {
            Decoder::<()>::decode(&mut self.none)?;
            Ok(None)
        } else {
            Ok(Some(self.some.decode()?))
        }
    }

    const READS_ONE: bool = D::READS_ONE;

    #[inline(always)]
    fn read_one(alloc: Global, input: &mut &[u8]) -> Option<Option<T>>
        ensures { IfSome result
            (λ t. ReadsValue ⟦<Option<T> as Shaped>⟧.data.makes
            ⟦<OptionDecoder<'a, D> as HoldsData>⟧.shape input.old.now t input.new.now) }
    {
        let Ok(byte) = consume_byte(input) else {
            return None;
        };
        if byte % 2 == 0 {
            Some(None)
        } else {
            Some(Some(D::read_one(alloc, input)?))
        }
    }

    ghost same_shape = { same_two_variants refl D.same_shape };
}
