//! The coders of durations, each a struct without parameters: code that names them is checked faster.
ghost use Rattle.std.specs.Prelude.{refl, IfSome};
ghost use Rattle.bitcode_coder.specs.Coder.{ReadsValue};

use bitcode_coder::coder::{
    Buffer, Decoder, EncodeMany, Encoder, HoldsColumns, HoldsData, NewDecoder, View, encode_parts,
};
use bitcode_coder::column_free::ColumnFree;
use bitcode_coder::part::Part;
use bitcode_ints::checked::CheckedIntDecoder;
use bitcode_ints::unsigned_coders::{U32Encoder, U64Decoder, U64Encoder};
use bitcode_memory::error::Error;
use bitcode_parts::convert::{ConvertFromDecoder, ConvertIntoEncoder};
use bitcode_parts::durations::{DurationDecode, DurationEncode};
use bitcode_shapes::nanosecond::Nanosecond;
use bitcode_shapes::shaped::Shaped;
use bitcode_tuples::decoder::TupleDecoder;
use bitcode_tuples::encoder::TupleEncoder;
use std::alloc::Global;
use std::time::Duration;

type Columns = ConvertIntoEncoder<DurationEncode, TupleEncoder<U64Encoder, U32Encoder>>;

/// The columns that durations are written to: their seconds, and their nanoseconds below one second.
///
/// ```rust
/// use std::time::Duration;
///
/// let mut times = DurationEncoder::new(alloc);
/// times.reserve(1)?;
/// times.encode(&Duration::new(7, 9))?;
/// assert_eq!(rt; times.collect(alloc)?.as_slice(), [6, 7, 4, 9].as_slice());
/// ```
#[derive(Drop)]
pub struct DurationEncoder {
    columns: Columns,
}

impl HoldsColumns for DurationEncoder {
    ghost columns = { λ e. ⟦<Columns as HoldsColumns>⟧.columns e.columns };

    ghost room = { λ e. ⟦<Columns as HoldsColumns>⟧.room e.columns };

    ghost capacity = { λ e. ⟦<Columns as HoldsColumns>⟧.capacity e.columns };

    ghost surely_overflows = { λ e n. ⊥ };

    ghost overflows = { λ e n. ⟦<Columns as HoldsColumns>⟧.overflows e.columns n };

    ghost writes_free = { ⟦<Columns as HoldsColumns>⟧.writes_free };
}

impl Buffer for DurationEncoder {
    fn new(alloc: Global) -> Self {
        DurationEncoder {
            columns: Buffer::new(alloc),
        }
    }

    fn reserve(&mut self, n: usize) -> Result<(), Error> {
        self.columns.reserve(n)
    }

    fn collect_into(&mut self, out: &mut Vec<u8>) -> Result<(), Error> {
        self.columns.collect_into(out)
    }

    fn clear(&mut self) {
        self.columns.clear();
    }
}

impl Encoder<Duration> for DurationEncoder {
    fn encode(&mut self, t: &Duration) -> Result<(), Error> {
        self.columns.encode(t)
    }

    ghost of_shape = { λ e. refl };

    ghost surely = { λ e n never. absurd never };
}

impl EncodeMany<Duration> for DurationEncoder {
    fn encode_part_of_each<S, W: Part<S, Duration>>(
        &mut self,
        items: &[S],
        which: &W,
        _first: &Duration,
    ) -> Result<(), Error> {
        encode_parts(self, items, which)
    }

    ghost of_shape = { λ e. refl };

    ghost surely = { λ e n never. absurd never };
}

type Data<'a> = ConvertFromDecoder<
    DurationDecode,
    TupleDecoder<U64Decoder<'a>, CheckedIntDecoder<'a, Nanosecond, u32>>,
>;

/// The data that durations are made from: their seconds, and their nanoseconds below one second.
///
/// ```rust
/// use std::time::Duration;
///
/// let mut input: &[u8] = &[6, 7, 4, 9];
/// let mut times = DurationDecoder::new(alloc);
/// times.populate(&mut input, 1)?;
/// let first: Duration = times.decode()?;
/// assert_eq!(rt; first, Duration::new(7, 9));
/// ```
#[derive(Drop)]
pub struct DurationDecoder<'a> {
    data: Data<'a>,
}

impl<'a> HoldsData for DurationDecoder<'a> {
    ghost shape = { ⟦<Data<'a> as HoldsData>⟧.shape };

    ghost held = { λ d. ⟦<Data<'a> as HoldsData>⟧.held d.data };

    ghost owned = { λ d. ⟦<Data<'a> as HoldsData>⟧.owned d.data };

    ghost free_inside = { λ d. ⟦<Data<'a> as HoldsData>⟧.free_inside d.data };
}

impl<'a> NewDecoder for DurationDecoder<'a> {
    fn new(alloc: Global) -> Self {
        DurationDecoder {
            data: NewDecoder::new(alloc),
        }
    }

    fn column_free(&self) -> ColumnFree {
        self.data.column_free()
    }
}

impl<'a> View<'a> for DurationDecoder<'a> {
    fn read(&mut self, input: &mut &'a [u8], k: usize, strict: bool) -> Result<bool, Error> {
        self.data.read(input, k, strict)
    }
}

impl<'a> Decoder<Duration> for DurationDecoder<'a> {
    ghost makes_free = { ⟦<Data<'a> as Decoder<Duration>>⟧.makes_free };

    fn decode(&mut self) -> Result<Duration, Error> {
        self.data.decode()
    }

    const READS_ONE: bool = true;

    #[inline(always)]
    fn read_one(alloc: Global, input: &mut &[u8]) -> Option<Duration>
        ensures { IfSome result
            (λ t. ReadsValue ⟦<Duration as Shaped>⟧.data.makes ⟦<Data<'a> as HoldsData>⟧.shape
            input.old.now t input.new.now) }
    {
        <Data<'a> as Decoder<Duration>>::read_one(alloc, input)
    }

    ghost same_shape = { refl };
}
