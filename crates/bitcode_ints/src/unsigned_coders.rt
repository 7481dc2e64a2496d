// Written by scripts/tables/integers.
//! The coders of unsigned integers, each a struct without parameters.
ghost use Rattle.std.specs.Prelude.{refl, IfSome};
ghost use Rattle.bitcode_coder.specs.Coder.{ReadsValue, ReadsValues};

use crate::int::{IntDecoder, IntEncoder};
use bitcode_coder::coder::{
    Buffer, Decoder, EncodeMany, Encoder, HoldsColumns, HoldsData, NewDecoder, View,
};
use bitcode_coder::column_free::ColumnFree;
use bitcode_coder::direct::{list_by_decoder, one_by_decoder};
use bitcode_coder::part::Part;
use bitcode_memory::error::Error;
use bitcode_shapes::shaped::Shaped;
use std::alloc::Global;

/// The column that values of `u8` are written to, as to `IntEncoder<u8>`.
///
/// ```
/// let mut column = U8Encoder::new(alloc);
/// column.reserve(1)?;
/// column.encode(&7)?;
/// column.collect_into(&mut bytes)?;
/// ```
#[derive(Drop)]
pub struct U8Encoder {
    column: IntEncoder<u8>,
}

impl HoldsColumns for U8Encoder {
    ghost columns = { λ e. ⟦<IntEncoder<u8> as HoldsColumns>⟧.columns e.column };

    ghost room = { λ e. ⟦<IntEncoder<u8> as HoldsColumns>⟧.room e.column };

    ghost capacity = { λ e. ⟦<IntEncoder<u8> as HoldsColumns>⟧.capacity e.column };

    ghost surely_overflows = { λ e n. ⊥ };

    ghost overflows = { λ e n. ⟦<IntEncoder<u8> as HoldsColumns>⟧.overflows e.column n };

    ghost writes_free = { ⟦<IntEncoder<u8> as HoldsColumns>⟧.writes_free };
}

impl Buffer for U8Encoder {
    fn new(alloc: Global) -> Self {
        U8Encoder {
            column: IntEncoder::new(alloc),
        }
    }

    fn reserve(&mut self, n: usize) -> Result<(), Error> {
        self.column.reserve(n)
    }

    fn collect_into(&mut self, out: &mut Vec<u8>) -> Result<(), Error> {
        self.column.collect_into(out)
    }

    fn clear(&mut self) {
        self.column.clear();
    }
}

impl Encoder<u8> for U8Encoder {
    fn encode(&mut self, t: &u8) -> Result<(), Error> {
        self.column.encode(t)
    }

    fn write_directly(&mut self, t: &u8, out: &mut Vec<u8>) -> Result<bool, Error> {
        self.column.write_directly(t, out)
    }

    ghost of_shape = { λ e. refl };

    ghost surely = { λ e n never. absurd never };
}

impl EncodeMany<u8> for U8Encoder {
    fn is_primitive() -> bool {
        <IntEncoder<u8> as EncodeMany<u8>>::is_primitive()
    }

    fn encode_slice(&mut self, items: &[u8]) -> Result<(), Error> {
        self.column.encode_slice(items)
    }

    fn write_slice_directly(&self, items: &[u8], out: &mut Vec<u8>) -> Result<bool, Error> {
        self.column.write_slice_directly(items, out)
    }

    fn encode_part_of_each<S, W: Part<S, u8>>(
        &mut self,
        items: &[S],
        which: &W,
        first: &u8,
    ) -> Result<(), Error> {
        self.column.encode_part_of_each(items, which, first)
    }

    ghost of_shape = { λ e. refl };

    ghost surely = { λ e n never. absurd never };
}

/// The column that values of `u8` are read from, as from `IntDecoder<u8>`.
///
/// ```
/// let mut column = U8Decoder::new(alloc);
/// column.populate(&mut input, 1)?;
/// let first = column.decode()?;
/// ```
#[derive(Drop)]
pub struct U8Decoder<'a> {
    column: IntDecoder<'a, u8>,
}

impl<'a> HoldsData for U8Decoder<'a> {
    ghost shape = { ⟦<IntDecoder<'a, u8> as HoldsData>⟧.shape };

    ghost held = { λ d. ⟦<IntDecoder<'a, u8> as HoldsData>⟧.held d.column };

    ghost owned = { λ d. ⟦<IntDecoder<'a, u8> as HoldsData>⟧.owned d.column };

    ghost free_inside = { λ d. 0 };
}

impl<'a> NewDecoder for U8Decoder<'a> {
    fn new(alloc: Global) -> Self {
        U8Decoder {
            column: NewDecoder::new(alloc),
        }
    }

    fn column_free(&self) -> ColumnFree {
        ColumnFree::entries()
    }
}

impl<'a> View<'a> for U8Decoder<'a> {
    fn read(&mut self, input: &mut &'a [u8], k: usize, strict: bool) -> Result<bool, Error> {
        self.column.read(input, k, strict)
    }
}

impl<'a> Decoder<u8> for U8Decoder<'a> {
    ghost makes_free = { ⟦<IntDecoder<'a, u8> as Decoder<u8>>⟧.makes_free };

    fn decode(&mut self) -> Result<u8, Error> {
        self.column.decode()
    }

    fn decode_many(&mut self, alloc: Global, count: usize) -> Result<Vec<u8>, Error> {
        self.column.decode_many(alloc, count)
    }

    const READS_ONE: bool = true;

    #[inline(always)]
    fn read_one(alloc: Global, input: &mut &[u8]) -> Option<u8>
        ensures { IfSome result (λ t. ReadsValue ⟦<u8 as Shaped>⟧.data.makes
            ⟦<IntDecoder<'a, u8> as HoldsData>⟧.shape input.old.now t input.new.now) }
    {
        one_by_decoder::<u8, IntDecoder<'_, u8>>(alloc, input)
    }

    const READS_LISTS: bool = true;

    fn read_list(alloc: Global, input: &mut &[u8], count: usize) -> Option<Vec<u8>>
        ensures { IfSome result (λ items. ReadsValues ⟦<u8 as Shaped>⟧.data.makes
            ⟦<IntDecoder<'a, u8> as HoldsData>⟧.shape count input.old.now items.items
            input.new.now) }
    {
        list_by_decoder::<u8, IntDecoder<'_, u8>>(alloc, input, count)
    }

    ghost same_shape = { refl };
}

/// The column that values of `u16` are written to, as to `IntEncoder<u16>`.
///
/// ```
/// let mut column = U16Encoder::new(alloc);
/// column.reserve(1)?;
/// column.encode(&7)?;
/// column.collect_into(&mut bytes)?;
/// ```
#[derive(Drop)]
pub struct U16Encoder {
    column: IntEncoder<u16>,
}

impl HoldsColumns for U16Encoder {
    ghost columns = { λ e. ⟦<IntEncoder<u16> as HoldsColumns>⟧.columns e.column };

    ghost room = { λ e. ⟦<IntEncoder<u16> as HoldsColumns>⟧.room e.column };

    ghost capacity = { λ e. ⟦<IntEncoder<u16> as HoldsColumns>⟧.capacity e.column };

    ghost surely_overflows = { λ e n. ⊥ };

    ghost overflows = { λ e n. ⟦<IntEncoder<u16> as HoldsColumns>⟧.overflows e.column n };

    ghost writes_free = { ⟦<IntEncoder<u16> as HoldsColumns>⟧.writes_free };
}

impl Buffer for U16Encoder {
    fn new(alloc: Global) -> Self {
        U16Encoder {
            column: IntEncoder::new(alloc),
        }
    }

    fn reserve(&mut self, n: usize) -> Result<(), Error> {
        self.column.reserve(n)
    }

    fn collect_into(&mut self, out: &mut Vec<u8>) -> Result<(), Error> {
        self.column.collect_into(out)
    }

    fn clear(&mut self) {
        self.column.clear();
    }
}

impl Encoder<u16> for U16Encoder {
    fn encode(&mut self, t: &u16) -> Result<(), Error> {
        self.column.encode(t)
    }

    fn write_directly(&mut self, t: &u16, out: &mut Vec<u8>) -> Result<bool, Error> {
        self.column.write_directly(t, out)
    }

    ghost of_shape = { λ e. refl };

    ghost surely = { λ e n never. absurd never };
}

impl EncodeMany<u16> for U16Encoder {
    fn is_primitive() -> bool {
        <IntEncoder<u16> as EncodeMany<u16>>::is_primitive()
    }

    fn encode_slice(&mut self, items: &[u16]) -> Result<(), Error> {
        self.column.encode_slice(items)
    }

    fn write_slice_directly(&self, items: &[u16], out: &mut Vec<u8>) -> Result<bool, Error> {
        self.column.write_slice_directly(items, out)
    }

    fn encode_part_of_each<S, W: Part<S, u16>>(
        &mut self,
        items: &[S],
        which: &W,
        first: &u16,
    ) -> Result<(), Error> {
        self.column.encode_part_of_each(items, which, first)
    }

    ghost of_shape = { λ e. refl };

    ghost surely = { λ e n never. absurd never };
}

/// The column that values of `u16` are read from, as from `IntDecoder<u16>`.
///
/// ```
/// let mut column = U16Decoder::new(alloc);
/// column.populate(&mut input, 1)?;
/// let first = column.decode()?;
/// ```
#[derive(Drop)]
pub struct U16Decoder<'a> {
    column: IntDecoder<'a, u16>,
}

impl<'a> HoldsData for U16Decoder<'a> {
    ghost shape = { ⟦<IntDecoder<'a, u16> as HoldsData>⟧.shape };

    ghost held = { λ d. ⟦<IntDecoder<'a, u16> as HoldsData>⟧.held d.column };

    ghost owned = { λ d. ⟦<IntDecoder<'a, u16> as HoldsData>⟧.owned d.column };

    ghost free_inside = { λ d. 0 };
}

impl<'a> NewDecoder for U16Decoder<'a> {
    fn new(alloc: Global) -> Self {
        U16Decoder {
            column: NewDecoder::new(alloc),
        }
    }

    fn column_free(&self) -> ColumnFree {
        ColumnFree::entries()
    }
}

impl<'a> View<'a> for U16Decoder<'a> {
    fn read(&mut self, input: &mut &'a [u8], k: usize, strict: bool) -> Result<bool, Error> {
        self.column.read(input, k, strict)
    }
}

impl<'a> Decoder<u16> for U16Decoder<'a> {
    ghost makes_free = { ⟦<IntDecoder<'a, u16> as Decoder<u16>>⟧.makes_free };

    fn decode(&mut self) -> Result<u16, Error> {
        self.column.decode()
    }

    fn decode_many(&mut self, alloc: Global, count: usize) -> Result<Vec<u16>, Error> {
        self.column.decode_many(alloc, count)
    }

    const READS_ONE: bool = true;

    #[inline(always)]
    fn read_one(alloc: Global, input: &mut &[u8]) -> Option<u16>
        ensures { IfSome result (λ t. ReadsValue ⟦<u16 as Shaped>⟧.data.makes
            ⟦<IntDecoder<'a, u16> as HoldsData>⟧.shape input.old.now t input.new.now) }
    {
        one_by_decoder::<u16, IntDecoder<'_, u16>>(alloc, input)
    }

    const READS_LISTS: bool = true;

    fn read_list(alloc: Global, input: &mut &[u8], count: usize) -> Option<Vec<u16>>
        ensures { IfSome result (λ items. ReadsValues ⟦<u16 as Shaped>⟧.data.makes
            ⟦<IntDecoder<'a, u16> as HoldsData>⟧.shape count input.old.now items.items
            input.new.now) }
    {
        list_by_decoder::<u16, IntDecoder<'_, u16>>(alloc, input, count)
    }

    ghost same_shape = { refl };
}

/// The column that values of `u32` are written to, as to `IntEncoder<u32>`.
///
/// ```
/// let mut column = U32Encoder::new(alloc);
/// column.reserve(1)?;
/// column.encode(&7)?;
/// column.collect_into(&mut bytes)?;
/// ```
#[derive(Drop)]
pub struct U32Encoder {
    column: IntEncoder<u32>,
}

impl HoldsColumns for U32Encoder {
    ghost columns = { λ e. ⟦<IntEncoder<u32> as HoldsColumns>⟧.columns e.column };

    ghost room = { λ e. ⟦<IntEncoder<u32> as HoldsColumns>⟧.room e.column };

    ghost capacity = { λ e. ⟦<IntEncoder<u32> as HoldsColumns>⟧.capacity e.column };

    ghost surely_overflows = { λ e n. ⊥ };

    ghost overflows = { λ e n. ⟦<IntEncoder<u32> as HoldsColumns>⟧.overflows e.column n };

    ghost writes_free = { ⟦<IntEncoder<u32> as HoldsColumns>⟧.writes_free };
}

impl Buffer for U32Encoder {
    fn new(alloc: Global) -> Self {
        U32Encoder {
            column: IntEncoder::new(alloc),
        }
    }

    fn reserve(&mut self, n: usize) -> Result<(), Error> {
        self.column.reserve(n)
    }

    fn collect_into(&mut self, out: &mut Vec<u8>) -> Result<(), Error> {
        self.column.collect_into(out)
    }

    fn clear(&mut self) {
        self.column.clear();
    }
}

impl Encoder<u32> for U32Encoder {
    fn encode(&mut self, t: &u32) -> Result<(), Error> {
        self.column.encode(t)
    }

    fn write_directly(&mut self, t: &u32, out: &mut Vec<u8>) -> Result<bool, Error> {
        self.column.write_directly(t, out)
    }

    ghost of_shape = { λ e. refl };

    ghost surely = { λ e n never. absurd never };
}

impl EncodeMany<u32> for U32Encoder {
    fn is_primitive() -> bool {
        <IntEncoder<u32> as EncodeMany<u32>>::is_primitive()
    }

    fn encode_slice(&mut self, items: &[u32]) -> Result<(), Error> {
        self.column.encode_slice(items)
    }

    fn write_slice_directly(&self, items: &[u32], out: &mut Vec<u8>) -> Result<bool, Error> {
        self.column.write_slice_directly(items, out)
    }

    fn encode_part_of_each<S, W: Part<S, u32>>(
        &mut self,
        items: &[S],
        which: &W,
        first: &u32,
    ) -> Result<(), Error> {
        self.column.encode_part_of_each(items, which, first)
    }

    ghost of_shape = { λ e. refl };

    ghost surely = { λ e n never. absurd never };
}

/// The column that values of `u32` are read from, as from `IntDecoder<u32>`.
///
/// ```
/// let mut column = U32Decoder::new(alloc);
/// column.populate(&mut input, 1)?;
/// let first = column.decode()?;
/// ```
#[derive(Drop)]
pub struct U32Decoder<'a> {
    column: IntDecoder<'a, u32>,
}

impl<'a> HoldsData for U32Decoder<'a> {
    ghost shape = { ⟦<IntDecoder<'a, u32> as HoldsData>⟧.shape };

    ghost held = { λ d. ⟦<IntDecoder<'a, u32> as HoldsData>⟧.held d.column };

    ghost owned = { λ d. ⟦<IntDecoder<'a, u32> as HoldsData>⟧.owned d.column };

    ghost free_inside = { λ d. 0 };
}

impl<'a> NewDecoder for U32Decoder<'a> {
    fn new(alloc: Global) -> Self {
        U32Decoder {
            column: NewDecoder::new(alloc),
        }
    }

    fn column_free(&self) -> ColumnFree {
        ColumnFree::entries()
    }
}

impl<'a> View<'a> for U32Decoder<'a> {
    fn read(&mut self, input: &mut &'a [u8], k: usize, strict: bool) -> Result<bool, Error> {
        self.column.read(input, k, strict)
    }
}

impl<'a> Decoder<u32> for U32Decoder<'a> {
    ghost makes_free = { ⟦<IntDecoder<'a, u32> as Decoder<u32>>⟧.makes_free };

    fn decode(&mut self) -> Result<u32, Error> {
        self.column.decode()
    }

    fn decode_many(&mut self, alloc: Global, count: usize) -> Result<Vec<u32>, Error> {
        self.column.decode_many(alloc, count)
    }

    const READS_ONE: bool = true;

    #[inline(always)]
    fn read_one(alloc: Global, input: &mut &[u8]) -> Option<u32>
        ensures { IfSome result (λ t. ReadsValue ⟦<u32 as Shaped>⟧.data.makes
            ⟦<IntDecoder<'a, u32> as HoldsData>⟧.shape input.old.now t input.new.now) }
    {
        one_by_decoder::<u32, IntDecoder<'_, u32>>(alloc, input)
    }

    const READS_LISTS: bool = true;

    fn read_list(alloc: Global, input: &mut &[u8], count: usize) -> Option<Vec<u32>>
        ensures { IfSome result (λ items. ReadsValues ⟦<u32 as Shaped>⟧.data.makes
            ⟦<IntDecoder<'a, u32> as HoldsData>⟧.shape count input.old.now items.items
            input.new.now) }
    {
        list_by_decoder::<u32, IntDecoder<'_, u32>>(alloc, input, count)
    }

    ghost same_shape = { refl };
}

/// The column that values of `u64` are written to, as to `IntEncoder<u64>`.
///
/// ```
/// let mut column = U64Encoder::new(alloc);
/// column.reserve(1)?;
/// column.encode(&7)?;
/// column.collect_into(&mut bytes)?;
/// ```
#[derive(Drop)]
pub struct U64Encoder {
    column: IntEncoder<u64>,
}

impl HoldsColumns for U64Encoder {
    ghost columns = { λ e. ⟦<IntEncoder<u64> as HoldsColumns>⟧.columns e.column };

    ghost room = { λ e. ⟦<IntEncoder<u64> as HoldsColumns>⟧.room e.column };

    ghost capacity = { λ e. ⟦<IntEncoder<u64> as HoldsColumns>⟧.capacity e.column };

    ghost surely_overflows = { λ e n. ⊥ };

    ghost overflows = { λ e n. ⟦<IntEncoder<u64> as HoldsColumns>⟧.overflows e.column n };

    ghost writes_free = { ⟦<IntEncoder<u64> as HoldsColumns>⟧.writes_free };
}

impl Buffer for U64Encoder {
    fn new(alloc: Global) -> Self {
        U64Encoder {
            column: IntEncoder::new(alloc),
        }
    }

    fn reserve(&mut self, n: usize) -> Result<(), Error> {
        self.column.reserve(n)
    }

    fn collect_into(&mut self, out: &mut Vec<u8>) -> Result<(), Error> {
        self.column.collect_into(out)
    }

    fn clear(&mut self) {
        self.column.clear();
    }
}

impl Encoder<u64> for U64Encoder {
    fn encode(&mut self, t: &u64) -> Result<(), Error> {
        self.column.encode(t)
    }

    fn write_directly(&mut self, t: &u64, out: &mut Vec<u8>) -> Result<bool, Error> {
        self.column.write_directly(t, out)
    }

    ghost of_shape = { λ e. refl };

    ghost surely = { λ e n never. absurd never };
}

impl EncodeMany<u64> for U64Encoder {
    fn is_primitive() -> bool {
        <IntEncoder<u64> as EncodeMany<u64>>::is_primitive()
    }

    fn encode_slice(&mut self, items: &[u64]) -> Result<(), Error> {
        self.column.encode_slice(items)
    }

    fn write_slice_directly(&self, items: &[u64], out: &mut Vec<u8>) -> Result<bool, Error> {
        self.column.write_slice_directly(items, out)
    }

    fn encode_part_of_each<S, W: Part<S, u64>>(
        &mut self,
        items: &[S],
        which: &W,
        first: &u64,
    ) -> Result<(), Error> {
        self.column.encode_part_of_each(items, which, first)
    }

    ghost of_shape = { λ e. refl };

    ghost surely = { λ e n never. absurd never };
}

/// The column that values of `u64` are read from, as from `IntDecoder<u64>`.
///
/// ```
/// let mut column = U64Decoder::new(alloc);
/// column.populate(&mut input, 1)?;
/// let first = column.decode()?;
/// ```
#[derive(Drop)]
pub struct U64Decoder<'a> {
    column: IntDecoder<'a, u64>,
}

impl<'a> HoldsData for U64Decoder<'a> {
    ghost shape = { ⟦<IntDecoder<'a, u64> as HoldsData>⟧.shape };

    ghost held = { λ d. ⟦<IntDecoder<'a, u64> as HoldsData>⟧.held d.column };

    ghost owned = { λ d. ⟦<IntDecoder<'a, u64> as HoldsData>⟧.owned d.column };

    ghost free_inside = { λ d. 0 };
}

impl<'a> NewDecoder for U64Decoder<'a> {
    fn new(alloc: Global) -> Self {
        U64Decoder {
            column: NewDecoder::new(alloc),
        }
    }

    fn column_free(&self) -> ColumnFree {
        ColumnFree::entries()
    }
}

impl<'a> View<'a> for U64Decoder<'a> {
    fn read(&mut self, input: &mut &'a [u8], k: usize, strict: bool) -> Result<bool, Error> {
        self.column.read(input, k, strict)
    }
}

impl<'a> Decoder<u64> for U64Decoder<'a> {
    ghost makes_free = { ⟦<IntDecoder<'a, u64> as Decoder<u64>>⟧.makes_free };

    fn decode(&mut self) -> Result<u64, Error> {
        self.column.decode()
    }

    fn decode_many(&mut self, alloc: Global, count: usize) -> Result<Vec<u64>, Error> {
        self.column.decode_many(alloc, count)
    }

    const READS_ONE: bool = true;

    #[inline(always)]
    fn read_one(alloc: Global, input: &mut &[u8]) -> Option<u64>
        ensures { IfSome result (λ t. ReadsValue ⟦<u64 as Shaped>⟧.data.makes
            ⟦<IntDecoder<'a, u64> as HoldsData>⟧.shape input.old.now t input.new.now) }
    {
        one_by_decoder::<u64, IntDecoder<'_, u64>>(alloc, input)
    }

    const READS_LISTS: bool = true;

    fn read_list(alloc: Global, input: &mut &[u8], count: usize) -> Option<Vec<u64>>
        ensures { IfSome result (λ items. ReadsValues ⟦<u64 as Shaped>⟧.data.makes
            ⟦<IntDecoder<'a, u64> as HoldsData>⟧.shape count input.old.now items.items
            input.new.now) }
    {
        list_by_decoder::<u64, IntDecoder<'_, u64>>(alloc, input, count)
    }

    ghost same_shape = { refl };
}

/// The column that values of `u128` are written to, as to `IntEncoder<u128>`.
///
/// ```
/// let mut column = U128Encoder::new(alloc);
/// column.reserve(1)?;
/// column.encode(&7)?;
/// column.collect_into(&mut bytes)?;
/// ```
#[derive(Drop)]
pub struct U128Encoder {
    column: IntEncoder<u128>,
}

impl HoldsColumns for U128Encoder {
    ghost columns = { λ e. ⟦<IntEncoder<u128> as HoldsColumns>⟧.columns e.column };

    ghost room = { λ e. ⟦<IntEncoder<u128> as HoldsColumns>⟧.room e.column };

    ghost capacity = { λ e. ⟦<IntEncoder<u128> as HoldsColumns>⟧.capacity e.column };

    ghost surely_overflows = { λ e n. ⊥ };

    ghost overflows = { λ e n. ⟦<IntEncoder<u128> as HoldsColumns>⟧.overflows e.column n };

    ghost writes_free = { ⟦<IntEncoder<u128> as HoldsColumns>⟧.writes_free };
}

impl Buffer for U128Encoder {
    fn new(alloc: Global) -> Self {
        U128Encoder {
            column: IntEncoder::new(alloc),
        }
    }

    fn reserve(&mut self, n: usize) -> Result<(), Error> {
        self.column.reserve(n)
    }

    fn collect_into(&mut self, out: &mut Vec<u8>) -> Result<(), Error> {
        self.column.collect_into(out)
    }

    fn clear(&mut self) {
        self.column.clear();
    }
}

impl Encoder<u128> for U128Encoder {
    fn encode(&mut self, t: &u128) -> Result<(), Error> {
        self.column.encode(t)
    }

    fn write_directly(&mut self, t: &u128, out: &mut Vec<u8>) -> Result<bool, Error> {
        self.column.write_directly(t, out)
    }

    ghost of_shape = { λ e. refl };

    ghost surely = { λ e n never. absurd never };
}

impl EncodeMany<u128> for U128Encoder {
    fn is_primitive() -> bool {
        <IntEncoder<u128> as EncodeMany<u128>>::is_primitive()
    }

    fn encode_slice(&mut self, items: &[u128]) -> Result<(), Error> {
        self.column.encode_slice(items)
    }

    fn write_slice_directly(&self, items: &[u128], out: &mut Vec<u8>) -> Result<bool, Error> {
        self.column.write_slice_directly(items, out)
    }

    fn encode_part_of_each<S, W: Part<S, u128>>(
        &mut self,
        items: &[S],
        which: &W,
        first: &u128,
    ) -> Result<(), Error> {
        self.column.encode_part_of_each(items, which, first)
    }

    ghost of_shape = { λ e. refl };

    ghost surely = { λ e n never. absurd never };
}

/// The column that values of `u128` are read from, as from `IntDecoder<u128>`.
///
/// ```
/// let mut column = U128Decoder::new(alloc);
/// column.populate(&mut input, 1)?;
/// let first = column.decode()?;
/// ```
#[derive(Drop)]
pub struct U128Decoder<'a> {
    column: IntDecoder<'a, u128>,
}

impl<'a> HoldsData for U128Decoder<'a> {
    ghost shape = { ⟦<IntDecoder<'a, u128> as HoldsData>⟧.shape };

    ghost held = { λ d. ⟦<IntDecoder<'a, u128> as HoldsData>⟧.held d.column };

    ghost owned = { λ d. ⟦<IntDecoder<'a, u128> as HoldsData>⟧.owned d.column };

    ghost free_inside = { λ d. 0 };
}

impl<'a> NewDecoder for U128Decoder<'a> {
    fn new(alloc: Global) -> Self {
        U128Decoder {
            column: NewDecoder::new(alloc),
        }
    }

    fn column_free(&self) -> ColumnFree {
        ColumnFree::entries()
    }
}

impl<'a> View<'a> for U128Decoder<'a> {
    fn read(&mut self, input: &mut &'a [u8], k: usize, strict: bool) -> Result<bool, Error> {
        self.column.read(input, k, strict)
    }
}

impl<'a> Decoder<u128> for U128Decoder<'a> {
    ghost makes_free = { ⟦<IntDecoder<'a, u128> as Decoder<u128>>⟧.makes_free };

    fn decode(&mut self) -> Result<u128, Error> {
        self.column.decode()
    }

    fn decode_many(&mut self, alloc: Global, count: usize) -> Result<Vec<u128>, Error> {
        self.column.decode_many(alloc, count)
    }

    const READS_ONE: bool = true;

    #[inline(always)]
    fn read_one(alloc: Global, input: &mut &[u8]) -> Option<u128>
        ensures { IfSome result (λ t. ReadsValue ⟦<u128 as Shaped>⟧.data.makes
            ⟦<IntDecoder<'a, u128> as HoldsData>⟧.shape input.old.now t input.new.now) }
    {
        one_by_decoder::<u128, IntDecoder<'_, u128>>(alloc, input)
    }

    const READS_LISTS: bool = true;

    fn read_list(alloc: Global, input: &mut &[u8], count: usize) -> Option<Vec<u128>>
        ensures { IfSome result (λ items. ReadsValues ⟦<u128 as Shaped>⟧.data.makes
            ⟦<IntDecoder<'a, u128> as HoldsData>⟧.shape count input.old.now items.items
            input.new.now) }
    {
        list_by_decoder::<u128, IntDecoder<'_, u128>>(alloc, input, count)
    }

    ghost same_shape = { refl };
}

/// The column that values of `usize` are written to, as to `IntEncoder<usize>`.
///
/// ```
/// let mut column = UsizeEncoder::new(alloc);
/// column.reserve(1)?;
/// column.encode(&7)?;
/// column.collect_into(&mut bytes)?;
/// ```
#[derive(Drop)]
pub struct UsizeEncoder {
    column: IntEncoder<usize>,
}

impl HoldsColumns for UsizeEncoder {
    ghost columns = { λ e. ⟦<IntEncoder<usize> as HoldsColumns>⟧.columns e.column };

    ghost room = { λ e. ⟦<IntEncoder<usize> as HoldsColumns>⟧.room e.column };

    ghost capacity = { λ e. ⟦<IntEncoder<usize> as HoldsColumns>⟧.capacity e.column };

    ghost surely_overflows = { λ e n. ⊥ };

    ghost overflows = { λ e n. ⟦<IntEncoder<usize> as HoldsColumns>⟧.overflows e.column n };

    ghost writes_free = { ⟦<IntEncoder<usize> as HoldsColumns>⟧.writes_free };
}

impl Buffer for UsizeEncoder {
    fn new(alloc: Global) -> Self {
        UsizeEncoder {
            column: IntEncoder::new(alloc),
        }
    }

    fn reserve(&mut self, n: usize) -> Result<(), Error> {
        self.column.reserve(n)
    }

    fn collect_into(&mut self, out: &mut Vec<u8>) -> Result<(), Error> {
        self.column.collect_into(out)
    }

    fn clear(&mut self) {
        self.column.clear();
    }
}

impl Encoder<usize> for UsizeEncoder {
    fn encode(&mut self, t: &usize) -> Result<(), Error> {
        self.column.encode(t)
    }

    fn write_directly(&mut self, t: &usize, out: &mut Vec<u8>) -> Result<bool, Error> {
        self.column.write_directly(t, out)
    }

    ghost of_shape = { λ e. refl };

    ghost surely = { λ e n never. absurd never };
}

impl EncodeMany<usize> for UsizeEncoder {
    fn is_primitive() -> bool {
        <IntEncoder<usize> as EncodeMany<usize>>::is_primitive()
    }

    fn encode_slice(&mut self, items: &[usize]) -> Result<(), Error> {
        self.column.encode_slice(items)
    }

    fn write_slice_directly(&self, items: &[usize], out: &mut Vec<u8>) -> Result<bool, Error> {
        self.column.write_slice_directly(items, out)
    }

    fn encode_part_of_each<S, W: Part<S, usize>>(
        &mut self,
        items: &[S],
        which: &W,
        first: &usize,
    ) -> Result<(), Error> {
        self.column.encode_part_of_each(items, which, first)
    }

    ghost of_shape = { λ e. refl };

    ghost surely = { λ e n never. absurd never };
}

/// The column that values of `usize` are read from, as from `IntDecoder<usize>`.
///
/// ```
/// let mut column = UsizeDecoder::new(alloc);
/// column.populate(&mut input, 1)?;
/// let first = column.decode()?;
/// ```
#[derive(Drop)]
pub struct UsizeDecoder<'a> {
    column: IntDecoder<'a, usize>,
}

impl<'a> HoldsData for UsizeDecoder<'a> {
    ghost shape = { ⟦<IntDecoder<'a, usize> as HoldsData>⟧.shape };

    ghost held = { λ d. ⟦<IntDecoder<'a, usize> as HoldsData>⟧.held d.column };

    ghost owned = { λ d. ⟦<IntDecoder<'a, usize> as HoldsData>⟧.owned d.column };

    ghost free_inside = { λ d. 0 };
}

impl<'a> NewDecoder for UsizeDecoder<'a> {
    fn new(alloc: Global) -> Self {
        UsizeDecoder {
            column: NewDecoder::new(alloc),
        }
    }

    fn column_free(&self) -> ColumnFree {
        ColumnFree::entries()
    }
}

impl<'a> View<'a> for UsizeDecoder<'a> {
    fn read(&mut self, input: &mut &'a [u8], k: usize, strict: bool) -> Result<bool, Error> {
        self.column.read(input, k, strict)
    }
}

impl<'a> Decoder<usize> for UsizeDecoder<'a> {
    ghost makes_free = { ⟦<IntDecoder<'a, usize> as Decoder<usize>>⟧.makes_free };

    fn decode(&mut self) -> Result<usize, Error> {
        self.column.decode()
    }

    fn decode_many(&mut self, alloc: Global, count: usize) -> Result<Vec<usize>, Error> {
        self.column.decode_many(alloc, count)
    }

    const READS_ONE: bool = true;

    #[inline(always)]
    fn read_one(alloc: Global, input: &mut &[u8]) -> Option<usize>
        ensures { IfSome result (λ t. ReadsValue ⟦<usize as Shaped>⟧.data.makes
            ⟦<IntDecoder<'a, usize> as HoldsData>⟧.shape input.old.now t input.new.now) }
    {
        one_by_decoder::<usize, IntDecoder<'_, usize>>(alloc, input)
    }

    const READS_LISTS: bool = true;

    fn read_list(alloc: Global, input: &mut &[u8], count: usize) -> Option<Vec<usize>>
        ensures { IfSome result (λ items. ReadsValues ⟦<usize as Shaped>⟧.data.makes
            ⟦<IntDecoder<'a, usize> as HoldsData>⟧.shape count input.old.now items.items
            input.new.now) }
    {
        list_by_decoder::<usize, IntDecoder<'_, usize>>(alloc, input, count)
    }

    ghost same_shape = { refl };
}
