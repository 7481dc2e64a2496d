// Written by scripts/tables/integers.
//! The coders of signed integers, each a struct without parameters.
ghost use Rattle.std.specs.Prelude.{refl, IfSome};
ghost use Rattle.bitcode_coder.specs.Coder.{ReadsValue, ReadsValues};

use crate::int::{IntDecoder, IntEncoder};
use bitcode_coder::coder::{
    Buffer, Decoder, EncodeMany, Encoder, HoldsColumns, HoldsData, NewDecoder, View,
};
use bitcode_coder::column_free::ColumnFree;
use bitcode_coder::direct::{list_by_decoder, one_by_decoder};
use bitcode_coder::part::Part;
use bitcode_memory::error::Error;
use bitcode_shapes::shaped::Shaped;
use std::alloc::Global;

/// The column that values of `i8` are written to, as to `IntEncoder<i8>`.
///
/// ```
/// let mut column = I8Encoder::new(alloc);
/// column.reserve(1)?;
/// column.encode(&7)?;
/// column.collect_into(&mut bytes)?;
/// ```
#[derive(Drop)]
pub struct I8Encoder {
    column: IntEncoder<i8>,
}

impl HoldsColumns for I8Encoder {
    ghost columns = { λ e. ⟦<IntEncoder<i8> as HoldsColumns>⟧.columns e.column };

    ghost room = { λ e. ⟦<IntEncoder<i8> as HoldsColumns>⟧.room e.column };

    ghost capacity = { λ e. ⟦<IntEncoder<i8> as HoldsColumns>⟧.capacity e.column };

    ghost surely_overflows = { λ e n. ⊥ };

    ghost overflows = { λ e n. ⟦<IntEncoder<i8> as HoldsColumns>⟧.overflows e.column n };

    ghost writes_free = { ⟦<IntEncoder<i8> as HoldsColumns>⟧.writes_free };
}

impl Buffer for I8Encoder {
    fn new(alloc: Global) -> Self {
        I8Encoder {
            column: IntEncoder::new(alloc),
        }
    }

    fn reserve(&mut self, n: usize) -> Result<(), Error> {
        self.column.reserve(n)
    }

    fn collect_into(&mut self, out: &mut Vec<u8>) -> Result<(), Error> {
        self.column.collect_into(out)
    }

    fn clear(&mut self) {
        self.column.clear();
    }
}

impl Encoder<i8> for I8Encoder {
    fn encode(&mut self, t: &i8) -> Result<(), Error> {
        self.column.encode(t)
    }

    fn write_directly(&mut self, t: &i8, out: &mut Vec<u8>) -> Result<bool, Error> {
        self.column.write_directly(t, out)
    }

    ghost of_shape = { λ e. refl };

    ghost surely = { λ e n never. absurd never };
}

impl EncodeMany<i8> for I8Encoder {
    fn is_primitive() -> bool {
        <IntEncoder<i8> as EncodeMany<i8>>::is_primitive()
    }

    fn encode_slice(&mut self, items: &[i8]) -> Result<(), Error> {
        self.column.encode_slice(items)
    }

    fn write_slice_directly(&self, items: &[i8], out: &mut Vec<u8>) -> Result<bool, Error> {
        self.column.write_slice_directly(items, out)
    }

    fn encode_part_of_each<S, W: Part<S, i8>>(
        &mut self,
        items: &[S],
        which: &W,
        first: &i8,
    ) -> Result<(), Error> {
        self.column.encode_part_of_each(items, which, first)
    }

    ghost of_shape = { λ e. refl };

    ghost surely = { λ e n never. absurd never };
}

/// The column that values of `i8` are read from, as from `IntDecoder<i8>`.
///
/// ```
/// let mut column = I8Decoder::new(alloc);
/// column.populate(&mut input, 1)?;
/// let first = column.decode()?;
/// ```
#[derive(Drop)]
pub struct I8Decoder<'a> {
    column: IntDecoder<'a, i8>,
}

impl<'a> HoldsData for I8Decoder<'a> {
    ghost shape = { ⟦<IntDecoder<'a, i8> as HoldsData>⟧.shape };

    ghost held = { λ d. ⟦<IntDecoder<'a, i8> as HoldsData>⟧.held d.column };

    ghost owned = { λ d. ⟦<IntDecoder<'a, i8> as HoldsData>⟧.owned d.column };

    ghost free_inside = { λ d. 0 };
}

impl<'a> NewDecoder for I8Decoder<'a> {
    fn new(alloc: Global) -> Self {
        I8Decoder {
            column: NewDecoder::new(alloc),
        }
    }

    fn column_free(&self) -> ColumnFree {
        ColumnFree::entries()
    }
}

impl<'a> View<'a> for I8Decoder<'a> {
    fn read(&mut self, input: &mut &'a [u8], k: usize, strict: bool) -> Result<bool, Error> {
        self.column.read(input, k, strict)
    }
}

impl<'a> Decoder<i8> for I8Decoder<'a> {
    ghost makes_free = { ⟦<IntDecoder<'a, i8> as Decoder<i8>>⟧.makes_free };

    fn decode(&mut self) -> Result<i8, Error> {
        self.column.decode()
    }

    fn decode_many(&mut self, alloc: Global, count: usize) -> Result<Vec<i8>, Error> {
        self.column.decode_many(alloc, count)
    }

    const READS_ONE: bool = true;

    #[inline(always)]
    fn read_one(alloc: Global, input: &mut &[u8]) -> Option<i8>
        ensures { IfSome result (λ t. ReadsValue ⟦<i8 as Shaped>⟧.data.makes
            ⟦<IntDecoder<'a, i8> as HoldsData>⟧.shape input.old.now t input.new.now) }
    {
        one_by_decoder::<i8, IntDecoder<'_, i8>>(alloc, input)
    }

    const READS_LISTS: bool = true;

    fn read_list(alloc: Global, input: &mut &[u8], count: usize) -> Option<Vec<i8>>
        ensures { IfSome result (λ items. ReadsValues ⟦<i8 as Shaped>⟧.data.makes
            ⟦<IntDecoder<'a, i8> as HoldsData>⟧.shape count input.old.now items.items
            input.new.now) }
    {
        list_by_decoder::<i8, IntDecoder<'_, i8>>(alloc, input, count)
    }

    ghost same_shape = { refl };
}

/// The column that values of `i16` are written to, as to `IntEncoder<i16>`.
///
/// ```
/// let mut column = I16Encoder::new(alloc);
/// column.reserve(1)?;
/// column.encode(&7)?;
/// column.collect_into(&mut bytes)?;
/// ```
#[derive(Drop)]
pub struct I16Encoder {
    column: IntEncoder<i16>,
}

impl HoldsColumns for I16Encoder {
    ghost columns = { λ e. ⟦<IntEncoder<i16> as HoldsColumns>⟧.columns e.column };

    ghost room = { λ e. ⟦<IntEncoder<i16> as HoldsColumns>⟧.room e.column };

    ghost capacity = { λ e. ⟦<IntEncoder<i16> as HoldsColumns>⟧.capacity e.column };

    ghost surely_overflows = { λ e n. ⊥ };

    ghost overflows = { λ e n. ⟦<IntEncoder<i16> as HoldsColumns>⟧.overflows e.column n };

    ghost writes_free = { ⟦<IntEncoder<i16> as HoldsColumns>⟧.writes_free };
}

impl Buffer for I16Encoder {
    fn new(alloc: Global) -> Self {
        I16Encoder {
            column: IntEncoder::new(alloc),
        }
    }

    fn reserve(&mut self, n: usize) -> Result<(), Error> {
        self.column.reserve(n)
    }

    fn collect_into(&mut self, out: &mut Vec<u8>) -> Result<(), Error> {
        self.column.collect_into(out)
    }

    fn clear(&mut self) {
        self.column.clear();
    }
}

impl Encoder<i16> for I16Encoder {
    fn encode(&mut self, t: &i16) -> Result<(), Error> {
        self.column.encode(t)
    }

    fn write_directly(&mut self, t: &i16, out: &mut Vec<u8>) -> Result<bool, Error> {
        self.column.write_directly(t, out)
    }

    ghost of_shape = { λ e. refl };

    ghost surely = { λ e n never. absurd never };
}

impl EncodeMany<i16> for I16Encoder {
    fn is_primitive() -> bool {
        <IntEncoder<i16> as EncodeMany<i16>>::is_primitive()
    }

    fn encode_slice(&mut self, items: &[i16]) -> Result<(), Error> {
        self.column.encode_slice(items)
    }

    fn write_slice_directly(&self, items: &[i16], out: &mut Vec<u8>) -> Result<bool, Error> {
        self.column.write_slice_directly(items, out)
    }

    fn encode_part_of_each<S, W: Part<S, i16>>(
        &mut self,
        items: &[S],
        which: &W,
        first: &i16,
    ) -> Result<(), Error> {
        self.column.encode_part_of_each(items, which, first)
    }

    ghost of_shape = { λ e. refl };

    ghost surely = { λ e n never. absurd never };
}

/// The column that values of `i16` are read from, as from `IntDecoder<i16>`.
///
/// ```
/// let mut column = I16Decoder::new(alloc);
/// column.populate(&mut input, 1)?;
/// let first = column.decode()?;
/// ```
#[derive(Drop)]
pub struct I16Decoder<'a> {
    column: IntDecoder<'a, i16>,
}

impl<'a> HoldsData for I16Decoder<'a> {
    ghost shape = { ⟦<IntDecoder<'a, i16> as HoldsData>⟧.shape };

    ghost held = { λ d. ⟦<IntDecoder<'a, i16> as HoldsData>⟧.held d.column };

    ghost owned = { λ d. ⟦<IntDecoder<'a, i16> as HoldsData>⟧.owned d.column };

    ghost free_inside = { λ d. 0 };
}

impl<'a> NewDecoder for I16Decoder<'a> {
    fn new(alloc: Global) -> Self {
        I16Decoder {
            column: NewDecoder::new(alloc),
        }
    }

    fn column_free(&self) -> ColumnFree {
        ColumnFree::entries()
    }
}

impl<'a> View<'a> for I16Decoder<'a> {
    fn read(&mut self, input: &mut &'a [u8], k: usize, strict: bool) -> Result<bool, Error> {
        self.column.read(input, k, strict)
    }
}

impl<'a> Decoder<i16> for I16Decoder<'a> {
    ghost makes_free = { ⟦<IntDecoder<'a, i16> as Decoder<i16>>⟧.makes_free };

    fn decode(&mut self) -> Result<i16, Error> {
        self.column.decode()
    }

    fn decode_many(&mut self, alloc: Global, count: usize) -> Result<Vec<i16>, Error> {
        self.column.decode_many(alloc, count)
    }

    const READS_ONE: bool = true;

    #[inline(always)]
    fn read_one(alloc: Global, input: &mut &[u8]) -> Option<i16>
        ensures { IfSome result (λ t. ReadsValue ⟦<i16 as Shaped>⟧.data.makes
            ⟦<IntDecoder<'a, i16> as HoldsData>⟧.shape input.old.now t input.new.now) }
    {
        one_by_decoder::<i16, IntDecoder<'_, i16>>(alloc, input)
    }

    const READS_LISTS: bool = true;

    fn read_list(alloc: Global, input: &mut &[u8], count: usize) -> Option<Vec<i16>>
        ensures { IfSome result (λ items. ReadsValues ⟦<i16 as Shaped>⟧.data.makes
            ⟦<IntDecoder<'a, i16> as HoldsData>⟧.shape count input.old.now items.items
            input.new.now) }
    {
        list_by_decoder::<i16, IntDecoder<'_, i16>>(alloc, input, count)
    }

    ghost same_shape = { refl };
}

/// The column that values of `i32` are written to, as to `IntEncoder<i32>`.
///
/// ```
/// let mut column = I32Encoder::new(alloc);
/// column.reserve(1)?;
/// column.encode(&7)?;
/// column.collect_into(&mut bytes)?;
/// ```
#[derive(Drop)]
pub struct I32Encoder {
    column: IntEncoder<i32>,
}

impl HoldsColumns for I32Encoder {
    ghost columns = { λ e. ⟦<IntEncoder<i32> as HoldsColumns>⟧.columns e.column };

    ghost room = { λ e. ⟦<IntEncoder<i32> as HoldsColumns>⟧.room e.column };

    ghost capacity = { λ e. ⟦<IntEncoder<i32> as HoldsColumns>⟧.capacity e.column };

    ghost surely_overflows = { λ e n. ⊥ };

    ghost overflows = { λ e n. ⟦<IntEncoder<i32> as HoldsColumns>⟧.overflows e.column n };

    ghost writes_free = { ⟦<IntEncoder<i32> as HoldsColumns>⟧.writes_free };
}

impl Buffer for I32Encoder {
    fn new(alloc: Global) -> Self {
        I32Encoder {
            column: IntEncoder::new(alloc),
        }
    }

    fn reserve(&mut self, n: usize) -> Result<(), Error> {
        self.column.reserve(n)
    }

    fn collect_into(&mut self, out: &mut Vec<u8>) -> Result<(), Error> {
        self.column.collect_into(out)
    }

    fn clear(&mut self) {
        self.column.clear();
    }
}

impl Encoder<i32> for I32Encoder {
    fn encode(&mut self, t: &i32) -> Result<(), Error> {
        self.column.encode(t)
    }

    fn write_directly(&mut self, t: &i32, out: &mut Vec<u8>) -> Result<bool, Error> {
        self.column.write_directly(t, out)
    }

    ghost of_shape = { λ e. refl };

    ghost surely = { λ e n never. absurd never };
}

impl EncodeMany<i32> for I32Encoder {
    fn is_primitive() -> bool {
        <IntEncoder<i32> as EncodeMany<i32>>::is_primitive()
    }

    fn encode_slice(&mut self, items: &[i32]) -> Result<(), Error> {
        self.column.encode_slice(items)
    }

    fn write_slice_directly(&self, items: &[i32], out: &mut Vec<u8>) -> Result<bool, Error> {
        self.column.write_slice_directly(items, out)
    }

    fn encode_part_of_each<S, W: Part<S, i32>>(
        &mut self,
        items: &[S],
        which: &W,
        first: &i32,
    ) -> Result<(), Error> {
        self.column.encode_part_of_each(items, which, first)
    }

    ghost of_shape = { λ e. refl };

    ghost surely = { λ e n never. absurd never };
}

/// The column that values of `i32` are read from, as from `IntDecoder<i32>`.
///
/// ```
/// let mut column = I32Decoder::new(alloc);
/// column.populate(&mut input, 1)?;
/// let first = column.decode()?;
/// ```
#[derive(Drop)]
pub struct I32Decoder<'a> {
    column: IntDecoder<'a, i32>,
}

impl<'a> HoldsData for I32Decoder<'a> {
    ghost shape = { ⟦<IntDecoder<'a, i32> as HoldsData>⟧.shape };

    ghost held = { λ d. ⟦<IntDecoder<'a, i32> as HoldsData>⟧.held d.column };

    ghost owned = { λ d. ⟦<IntDecoder<'a, i32> as HoldsData>⟧.owned d.column };

    ghost free_inside = { λ d. 0 };
}

impl<'a> NewDecoder for I32Decoder<'a> {
    fn new(alloc: Global) -> Self {
        I32Decoder {
            column: NewDecoder::new(alloc),
        }
    }

    fn column_free(&self) -> ColumnFree {
        ColumnFree::entries()
    }
}

impl<'a> View<'a> for I32Decoder<'a> {
    fn read(&mut self, input: &mut &'a [u8], k: usize, strict: bool) -> Result<bool, Error> {
        self.column.read(input, k, strict)
    }
}

impl<'a> Decoder<i32> for I32Decoder<'a> {
    ghost makes_free = { ⟦<IntDecoder<'a, i32> as Decoder<i32>>⟧.makes_free };

    fn decode(&mut self) -> Result<i32, Error> {
        self.column.decode()
    }

    fn decode_many(&mut self, alloc: Global, count: usize) -> Result<Vec<i32>, Error> {
        self.column.decode_many(alloc, count)
    }

    const READS_ONE: bool = true;

    #[inline(always)]
    fn read_one(alloc: Global, input: &mut &[u8]) -> Option<i32>
        ensures { IfSome result (λ t. ReadsValue ⟦<i32 as Shaped>⟧.data.makes
            ⟦<IntDecoder<'a, i32> as HoldsData>⟧.shape input.old.now t input.new.now) }
    {
        one_by_decoder::<i32, IntDecoder<'_, i32>>(alloc, input)
    }

    const READS_LISTS: bool = true;

    fn read_list(alloc: Global, input: &mut &[u8], count: usize) -> Option<Vec<i32>>
        ensures { IfSome result (λ items. ReadsValues ⟦<i32 as Shaped>⟧.data.makes
            ⟦<IntDecoder<'a, i32> as HoldsData>⟧.shape count input.old.now items.items
            input.new.now) }
    {
        list_by_decoder::<i32, IntDecoder<'_, i32>>(alloc, input, count)
    }

    ghost same_shape = { refl };
}

/// The column that values of `i64` are written to, as to `IntEncoder<i64>`.
///
/// ```
/// let mut column = I64Encoder::new(alloc);
/// column.reserve(1)?;
/// column.encode(&7)?;
/// column.collect_into(&mut bytes)?;
/// ```
#[derive(Drop)]
pub struct I64Encoder {
    column: IntEncoder<i64>,
}

impl HoldsColumns for I64Encoder {
    ghost columns = { λ e. ⟦<IntEncoder<i64> as HoldsColumns>⟧.columns e.column };

    ghost room = { λ e. ⟦<IntEncoder<i64> as HoldsColumns>⟧.room e.column };

    ghost capacity = { λ e. ⟦<IntEncoder<i64> as HoldsColumns>⟧.capacity e.column };

    ghost surely_overflows = { λ e n. ⊥ };

    ghost overflows = { λ e n. ⟦<IntEncoder<i64> as HoldsColumns>⟧.overflows e.column n };

    ghost writes_free = { ⟦<IntEncoder<i64> as HoldsColumns>⟧.writes_free };
}

impl Buffer for I64Encoder {
    fn new(alloc: Global) -> Self {
        I64Encoder {
            column: IntEncoder::new(alloc),
        }
    }

    fn reserve(&mut self, n: usize) -> Result<(), Error> {
        self.column.reserve(n)
    }

    fn collect_into(&mut self, out: &mut Vec<u8>) -> Result<(), Error> {
        self.column.collect_into(out)
    }

    fn clear(&mut self) {
        self.column.clear();
    }
}

impl Encoder<i64> for I64Encoder {
    fn encode(&mut self, t: &i64) -> Result<(), Error> {
        self.column.encode(t)
    }

    fn write_directly(&mut self, t: &i64, out: &mut Vec<u8>) -> Result<bool, Error> {
        self.column.write_directly(t, out)
    }

    ghost of_shape = { λ e. refl };

    ghost surely = { λ e n never. absurd never };
}

impl EncodeMany<i64> for I64Encoder {
    fn is_primitive() -> bool {
        <IntEncoder<i64> as EncodeMany<i64>>::is_primitive()
    }

    fn encode_slice(&mut self, items: &[i64]) -> Result<(), Error> {
        self.column.encode_slice(items)
    }

    fn write_slice_directly(&self, items: &[i64], out: &mut Vec<u8>) -> Result<bool, Error> {
        self.column.write_slice_directly(items, out)
    }

    fn encode_part_of_each<S, W: Part<S, i64>>(
        &mut self,
        items: &[S],
        which: &W,
        first: &i64,
    ) -> Result<(), Error> {
        self.column.encode_part_of_each(items, which, first)
    }

    ghost of_shape = { λ e. refl };

    ghost surely = { λ e n never. absurd never };
}

/// The column that values of `i64` are read from, as from `IntDecoder<i64>`.
///
/// ```
/// let mut column = I64Decoder::new(alloc);
/// column.populate(&mut input, 1)?;
/// let first = column.decode()?;
/// ```
#[derive(Drop)]
pub struct I64Decoder<'a> {
    column: IntDecoder<'a, i64>,
}

impl<'a> HoldsData for I64Decoder<'a> {
    ghost shape = { ⟦<IntDecoder<'a, i64> as HoldsData>⟧.shape };

    ghost held = { λ d. ⟦<IntDecoder<'a, i64> as HoldsData>⟧.held d.column };

    ghost owned = { λ d. ⟦<IntDecoder<'a, i64> as HoldsData>⟧.owned d.column };

    ghost free_inside = { λ d. 0 };
}

impl<'a> NewDecoder for I64Decoder<'a> {
    fn new(alloc: Global) -> Self {
        I64Decoder {
            column: NewDecoder::new(alloc),
        }
    }

    fn column_free(&self) -> ColumnFree {
        ColumnFree::entries()
    }
}

impl<'a> View<'a> for I64Decoder<'a> {
    fn read(&mut self, input: &mut &'a [u8], k: usize, strict: bool) -> Result<bool, Error> {
        self.column.read(input, k, strict)
    }
}

impl<'a> Decoder<i64> for I64Decoder<'a> {
    ghost makes_free = { ⟦<IntDecoder<'a, i64> as Decoder<i64>>⟧.makes_free };

    fn decode(&mut self) -> Result<i64, Error> {
        self.column.decode()
    }

    fn decode_many(&mut self, alloc: Global, count: usize) -> Result<Vec<i64>, Error> {
        self.column.decode_many(alloc, count)
    }

    const READS_ONE: bool = true;

    #[inline(always)]
    fn read_one(alloc: Global, input: &mut &[u8]) -> Option<i64>
        ensures { IfSome result (λ t. ReadsValue ⟦<i64 as Shaped>⟧.data.makes
            ⟦<IntDecoder<'a, i64> as HoldsData>⟧.shape input.old.now t input.new.now) }
    {
        one_by_decoder::<i64, IntDecoder<'_, i64>>(alloc, input)
    }

    const READS_LISTS: bool = true;

    fn read_list(alloc: Global, input: &mut &[u8], count: usize) -> Option<Vec<i64>>
        ensures { IfSome result (λ items. ReadsValues ⟦<i64 as Shaped>⟧.data.makes
            ⟦<IntDecoder<'a, i64> as HoldsData>⟧.shape count input.old.now items.items
            input.new.now) }
    {
        list_by_decoder::<i64, IntDecoder<'_, i64>>(alloc, input, count)
    }

    ghost same_shape = { refl };
}

/// The column that values of `i128` are written to, as to `IntEncoder<i128>`.
///
/// ```
/// let mut column = I128Encoder::new(alloc);
/// column.reserve(1)?;
/// column.encode(&7)?;
/// column.collect_into(&mut bytes)?;
/// ```
#[derive(Drop)]
pub struct I128Encoder {
    column: IntEncoder<i128>,
}

impl HoldsColumns for I128Encoder {
    ghost columns = { λ e. ⟦<IntEncoder<i128> as HoldsColumns>⟧.columns e.column };

    ghost room = { λ e. ⟦<IntEncoder<i128> as HoldsColumns>⟧.room e.column };

    ghost capacity = { λ e. ⟦<IntEncoder<i128> as HoldsColumns>⟧.capacity e.column };

    ghost surely_overflows = { λ e n. ⊥ };

    ghost overflows = { λ e n. ⟦<IntEncoder<i128> as HoldsColumns>⟧.overflows e.column n };

    ghost writes_free = { ⟦<IntEncoder<i128> as HoldsColumns>⟧.writes_free };
}

impl Buffer for I128Encoder {
    fn new(alloc: Global) -> Self {
        I128Encoder {
            column: IntEncoder::new(alloc),
        }
    }

    fn reserve(&mut self, n: usize) -> Result<(), Error> {
        self.column.reserve(n)
    }

    fn collect_into(&mut self, out: &mut Vec<u8>) -> Result<(), Error> {
        self.column.collect_into(out)
    }

    fn clear(&mut self) {
        self.column.clear();
    }
}

impl Encoder<i128> for I128Encoder {
    fn encode(&mut self, t: &i128) -> Result<(), Error> {
        self.column.encode(t)
    }

    fn write_directly(&mut self, t: &i128, out: &mut Vec<u8>) -> Result<bool, Error> {
        self.column.write_directly(t, out)
    }

    ghost of_shape = { λ e. refl };

    ghost surely = { λ e n never. absurd never };
}

impl EncodeMany<i128> for I128Encoder {
    fn is_primitive() -> bool {
        <IntEncoder<i128> as EncodeMany<i128>>::is_primitive()
    }

    fn encode_slice(&mut self, items: &[i128]) -> Result<(), Error> {
        self.column.encode_slice(items)
    }

    fn write_slice_directly(&self, items: &[i128], out: &mut Vec<u8>) -> Result<bool, Error> {
        self.column.write_slice_directly(items, out)
    }

    fn encode_part_of_each<S, W: Part<S, i128>>(
        &mut self,
        items: &[S],
        which: &W,
        first: &i128,
    ) -> Result<(), Error> {
        self.column.encode_part_of_each(items, which, first)
    }

    ghost of_shape = { λ e. refl };

    ghost surely = { λ e n never. absurd never };
}

/// The column that values of `i128` are read from, as from `IntDecoder<i128>`.
///
/// ```
/// let mut column = I128Decoder::new(alloc);
/// column.populate(&mut input, 1)?;
/// let first = column.decode()?;
/// ```
#[derive(Drop)]
pub struct I128Decoder<'a> {
    column: IntDecoder<'a, i128>,
}

impl<'a> HoldsData for I128Decoder<'a> {
    ghost shape = { ⟦<IntDecoder<'a, i128> as HoldsData>⟧.shape };

    ghost held = { λ d. ⟦<IntDecoder<'a, i128> as HoldsData>⟧.held d.column };

    ghost owned = { λ d. ⟦<IntDecoder<'a, i128> as HoldsData>⟧.owned d.column };

    ghost free_inside = { λ d. 0 };
}

impl<'a> NewDecoder for I128Decoder<'a> {
    fn new(alloc: Global) -> Self {
        I128Decoder {
            column: NewDecoder::new(alloc),
        }
    }

    fn column_free(&self) -> ColumnFree {
        ColumnFree::entries()
    }
}

impl<'a> View<'a> for I128Decoder<'a> {
    fn read(&mut self, input: &mut &'a [u8], k: usize, strict: bool) -> Result<bool, Error> {
        self.column.read(input, k, strict)
    }
}

impl<'a> Decoder<i128> for I128Decoder<'a> {
    ghost makes_free = { ⟦<IntDecoder<'a, i128> as Decoder<i128>>⟧.makes_free };

    fn decode(&mut self) -> Result<i128, Error> {
        self.column.decode()
    }

    fn decode_many(&mut self, alloc: Global, count: usize) -> Result<Vec<i128>, Error> {
        self.column.decode_many(alloc, count)
    }

    const READS_ONE: bool = true;

    #[inline(always)]
    fn read_one(alloc: Global, input: &mut &[u8]) -> Option<i128>
        ensures { IfSome result (λ t. ReadsValue ⟦<i128 as Shaped>⟧.data.makes
            ⟦<IntDecoder<'a, i128> as HoldsData>⟧.shape input.old.now t input.new.now) }
    {
        one_by_decoder::<i128, IntDecoder<'_, i128>>(alloc, input)
    }

    const READS_LISTS: bool = true;

    fn read_list(alloc: Global, input: &mut &[u8], count: usize) -> Option<Vec<i128>>
        ensures { IfSome result (λ items. ReadsValues ⟦<i128 as Shaped>⟧.data.makes
            ⟦<IntDecoder<'a, i128> as HoldsData>⟧.shape count input.old.now items.items
            input.new.now) }
    {
        list_by_decoder::<i128, IntDecoder<'_, i128>>(alloc, input, count)
    }

    ghost same_shape = { refl };
}

/// The column that values of `isize` are written to, as to `IntEncoder<isize>`.
///
/// ```
/// let mut column = IsizeEncoder::new(alloc);
/// column.reserve(1)?;
/// column.encode(&7)?;
/// column.collect_into(&mut bytes)?;
/// ```
#[derive(Drop)]
pub struct IsizeEncoder {
    column: IntEncoder<isize>,
}

impl HoldsColumns for IsizeEncoder {
    ghost columns = { λ e. ⟦<IntEncoder<isize> as HoldsColumns>⟧.columns e.column };

    ghost room = { λ e. ⟦<IntEncoder<isize> as HoldsColumns>⟧.room e.column };

    ghost capacity = { λ e. ⟦<IntEncoder<isize> as HoldsColumns>⟧.capacity e.column };

    ghost surely_overflows = { λ e n. ⊥ };

    ghost overflows = { λ e n. ⟦<IntEncoder<isize> as HoldsColumns>⟧.overflows e.column n };

    ghost writes_free = { ⟦<IntEncoder<isize> as HoldsColumns>⟧.writes_free };
}

impl Buffer for IsizeEncoder {
    fn new(alloc: Global) -> Self {
        IsizeEncoder {
            column: IntEncoder::new(alloc),
        }
    }

    fn reserve(&mut self, n: usize) -> Result<(), Error> {
        self.column.reserve(n)
    }

    fn collect_into(&mut self, out: &mut Vec<u8>) -> Result<(), Error> {
        self.column.collect_into(out)
    }

    fn clear(&mut self) {
        self.column.clear();
    }
}

impl Encoder<isize> for IsizeEncoder {
    fn encode(&mut self, t: &isize) -> Result<(), Error> {
        self.column.encode(t)
    }

    fn write_directly(&mut self, t: &isize, out: &mut Vec<u8>) -> Result<bool, Error> {
        self.column.write_directly(t, out)
    }

    ghost of_shape = { λ e. refl };

    ghost surely = { λ e n never. absurd never };
}

impl EncodeMany<isize> for IsizeEncoder {
    fn is_primitive() -> bool {
        <IntEncoder<isize> as EncodeMany<isize>>::is_primitive()
    }

    fn encode_slice(&mut self, items: &[isize]) -> Result<(), Error> {
        self.column.encode_slice(items)
    }

    fn write_slice_directly(&self, items: &[isize], out: &mut Vec<u8>) -> Result<bool, Error> {
        self.column.write_slice_directly(items, out)
    }

    fn encode_part_of_each<S, W: Part<S, isize>>(
        &mut self,
        items: &[S],
        which: &W,
        first: &isize,
    ) -> Result<(), Error> {
        self.column.encode_part_of_each(items, which, first)
    }

    ghost of_shape = { λ e. refl };

    ghost surely = { λ e n never. absurd never };
}

/// The column that values of `isize` are read from, as from `IntDecoder<isize>`.
///
/// ```
/// let mut column = IsizeDecoder::new(alloc);
/// column.populate(&mut input, 1)?;
/// let first = column.decode()?;
/// ```
#[derive(Drop)]
pub struct IsizeDecoder<'a> {
    column: IntDecoder<'a, isize>,
}

impl<'a> HoldsData for IsizeDecoder<'a> {
    ghost shape = { ⟦<IntDecoder<'a, isize> as HoldsData>⟧.shape };

    ghost held = { λ d. ⟦<IntDecoder<'a, isize> as HoldsData>⟧.held d.column };

    ghost owned = { λ d. ⟦<IntDecoder<'a, isize> as HoldsData>⟧.owned d.column };

    ghost free_inside = { λ d. 0 };
}

impl<'a> NewDecoder for IsizeDecoder<'a> {
    fn new(alloc: Global) -> Self {
        IsizeDecoder {
            column: NewDecoder::new(alloc),
        }
    }

    fn column_free(&self) -> ColumnFree {
        ColumnFree::entries()
    }
}

impl<'a> View<'a> for IsizeDecoder<'a> {
    fn read(&mut self, input: &mut &'a [u8], k: usize, strict: bool) -> Result<bool, Error> {
        self.column.read(input, k, strict)
    }
}

impl<'a> Decoder<isize> for IsizeDecoder<'a> {
    ghost makes_free = { ⟦<IntDecoder<'a, isize> as Decoder<isize>>⟧.makes_free };

    fn decode(&mut self) -> Result<isize, Error> {
        self.column.decode()
    }

    fn decode_many(&mut self, alloc: Global, count: usize) -> Result<Vec<isize>, Error> {
        self.column.decode_many(alloc, count)
    }

    const READS_ONE: bool = true;

    #[inline(always)]
    fn read_one(alloc: Global, input: &mut &[u8]) -> Option<isize>
        ensures { IfSome result (λ t. ReadsValue ⟦<isize as Shaped>⟧.data.makes
            ⟦<IntDecoder<'a, isize> as HoldsData>⟧.shape input.old.now t input.new.now) }
    {
        one_by_decoder::<isize, IntDecoder<'_, isize>>(alloc, input)
    }

    const READS_LISTS: bool = true;

    fn read_list(alloc: Global, input: &mut &[u8], count: usize) -> Option<Vec<isize>>
        ensures { IfSome result (λ items. ReadsValues ⟦<isize as Shaped>⟧.data.makes
            ⟦<IntDecoder<'a, isize> as HoldsData>⟧.shape count input.old.now items.items
            input.new.now) }
    {
        list_by_decoder::<isize, IntDecoder<'_, isize>>(alloc, input, count)
    }

    ghost same_shape = { refl };
}
