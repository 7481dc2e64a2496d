//! The decoder of enums: it reads all variants, and then the payloads of each variant.
ghost use Rattle.std.proofs.Common.{sym};
ghost use Rattle.std.specs.Prelude.{◌≡◌, ◌+◌, IfSome};
ghost use Rattle.bitcode_shapes.specs.Shape.{choice_shape};
ghost use Rattle.bitcode_coder.specs.Coder.{ReadsValue, ReadsValues};
ghost use Rattle.bitcode_coder.specs.ColumnFree.{saturated};
ghost use Rattle.bitcode_parts.specs.Payloads.{choices_of};
ghost use Rattle.bitcode_parts.specs.Variants.{variants_left, variants_owned};

use crate::enums::{Enum, EnumOf};
use crate::number::At;
use crate::payloads::{HoldsPayloads, NewPayloads, PayloadsDecoder, PayloadsView};
use bitcode_coder::coder::{Decoder, HoldsData, NewDecoder, View, both};
use bitcode_coder::column_free::ColumnFree;
use bitcode_memory::error::Error;
use bitcode_parts::choices::variant::VariantDecoder;
use std::alloc::Global;
use std::marker::PhantomData;

/// The decoder of an enum of `N` variants, 2 to 256. It reads the variants, and then the payloads of each variant.
///
/// ```
/// let mut shots: EnumDecoder<2, Shot, ShotPayloads> = EnumDecoder::new(alloc);
/// shots.populate(&mut input, 1)?; // of [1, 7]
/// let first: Shot = shots.decode()?; // Shot::Hit(7)
/// ```
#[derive(Drop)]
pub struct EnumDecoder<'a, const N: usize, T, D> {
    variants: VariantDecoder<'a, N, false>,
    payloads: D,
    // how many elements without columns are inside the payloads that were read
    free: u128,
    of: PhantomData<T>,
}

// The count itself: as an argument it is known to be below 2^128.
fn in_range(count: u128) -> u128
    ensures { result ≡ saturated count }
{
    count
}

impl<'a, const N: usize, T: EnumOf<N>, D: HoldsPayloads> HoldsData for EnumDecoder<'a, N, T, D> {
    ghost shape = { choice_shape T.each.variants.shapes };

    ghost held = { λ d. choices_of (variants_left d.variants) (D.held.lists d.payloads) };

    ghost owned = { λ d. variants_owned d.variants + D.held.owned d.payloads };

    ghost free_inside = { λ d. d.free };
}

impl<'a, const N: usize, T: EnumOf<N>, D: NewPayloads> NewDecoder for EnumDecoder<'a, N, T, D> {
    fn new(alloc: Global) -> Self {
        EnumDecoder {
            variants: VariantDecoder::new(alloc),
            payloads: D::new(alloc),
            free: 0,
            of: PhantomData,
        }
    }

    fn column_free(&self) -> ColumnFree {
        ColumnFree {
            has_entry: true,
            inside: in_range(self.free),
        }
    }
}

impl<
    'a,
    const N: usize,
    T: EnumOf<N>,
    D: PayloadsView<'a, At<0>, At<N>, T> + PayloadsDecoder<At<0>, At<N>, T>,
> View<'a> for EnumDecoder<'a, N, T, D> {
    fn read(&mut self, input: &mut &'a [u8], k: usize, strict: bool) -> Result<bool, Error> {
        let mut written = self.variants.read(input, k, strict)?;
        let mut free = 0;
        for number in 0..N {
            let count = self.variants.length(number);
            let payloads = self
                .payloads
                .read_at(number, input, count, strict, &mut free)?;
            written = both(written, payloads);
        }
        self.free = free;
        Ok(written)
    }
}

impl<'a, const N: usize, T: EnumOf<N>, D: PayloadsDecoder<At<0>, At<N>, T>> Decoder<T>
    for EnumDecoder<'a, N, T, D> {
    ghost makes_free = { D.makes_free };

    fn decode(&mut self) -> Result<T, Error> {
        let variant = self.variants.decode();
        self.payloads.decode_at(variant as usize)
    }

    // They are written here: the toolchain does not allow the trait's own where a size depends on `N`.
    const READS_ONE: bool = false;

    fn read_one(_alloc: Global, _input: &mut &[u8]) -> Option<T>
        ensures { IfSome result (λ t. ReadsValue T.data.makes (choice_shape T.each.variants.shapes)
            _input.old.now t _input.new.now) }
    {
        None
    }

    const READS_LISTS: bool = false;

    fn read_list(_alloc: Global, _input: &mut &[u8], _count: usize) -> Option<Vec<T>>
        ensures { IfSome result
            (λ items. ReadsValues T.data.makes (choice_shape T.each.variants.shapes) _count
            _input.old.now items.items _input.new.now) }
    {
        None
    }

    ghost same_shape = { sym T.counted.1 };
}
