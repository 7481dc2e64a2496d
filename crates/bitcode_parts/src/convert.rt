//! The coders of types whose values are written, or read, as values of another type.
ghost use Rattle.std.specs.Prelude.{◌≡◌, [], Bool, true, IsTrue, IsOk, IfOk, IfErr, ◌&&◌};
ghost use Rattle.std.proofs.Common.{sym, ◌∙◌};
ghost use Rattle.bitcode_coder.specs.Coder.{ListsAsToo, MakesToo};
ghost use Rattle.bitcode_parts.specs.Convert.{IsWrittenAs, surely_as};

use bitcode_coder::coder::{
    Buffer, Decoder, EncodeMany, Encoder, HoldsColumns, HoldsData, NewDecoder, View, encode_parts,
};
use bitcode_coder::column_free::ColumnFree;
use bitcode_coder::part::Part;
use bitcode_memory::error::{Error, Reason};
use bitcode_shapes::shaped::Shaped;
use std::alloc::Global;
use std::marker::PhantomData;

/// A type whose values are written as values of `T`, such as a `Duration` as its seconds and nanoseconds.
///
/// ```rust,from:crates/bitcode_parts/src/durations.rt
/// impl ConvertInto<DurationEncode> for Duration {
///     fn convert_into(&self) -> DurationEncode {
///         (self.as_secs(), self.subsec_nanos())
///     }
///
///     ghost written_as = { duration_written_as };
/// }
/// ```
pub trait ConvertInto<T: Shaped>: Shaped {
    /// The value that is written.
    fn convert_into(&self) -> T
        ensures { ListsAsToo Self.data.lists T.data.lists self.now result };

    ghost written_as: { IsWrittenAs Self.data.shape T.data.shape };
}

/// A type whose values are made from values of `T`: a `Duration` from its seconds and nanoseconds, a `Box<T>` from its
/// target, a struct from the tuple of its fields. It may allocate for that.
///
/// ```rust,from:crates/bitcode_parts/src/durations.rt
/// impl ConvertFrom<DurationDecode> for Duration {
///     fn convert_from(_alloc: Global, value: DurationDecode) -> Result<Self, Error> {
///         Ok(Duration::new(value.0, value.1.into_inner()))
///     }
///
///     ghost same_shape = { refl };
/// }
/// ```
pub trait ConvertFrom<T: Shaped>: Shaped {
    // making it takes no memory
    ghost is_free: { Bool } = { true };

    /// Makes the value from the one that was read.
    ///
    /// The only error is `out of memory`.
    fn convert_from(alloc: Global, value: T) -> Result<Self, Error>
        ensures made { IfOk result (λ t. MakesToo Self.data.makes T.data.makes t value) }
        ensures refused { IfErr result (λ e. e.reason ≡ Reason.OutOfMemory) }
        ensures free { IsTrue is_free → IsOk result };

    ghost same_shape: { Self.data.shape ≡ T.data.shape };
}

/// The columns of values that are written as values of `T`, with the encoder `E` of `T`.
///
/// ```rust
/// use bitcode_parts::durations::{DurationDecode, DurationEncode};
/// use std::time::Duration;
///
/// let mut times: ConvertIntoEncoder<DurationEncode, TupleEncoder<IntEncoder<u64>, IntEncoder<u32>>> =
///     ConvertIntoEncoder::new(alloc);
/// times.reserve(1)?;
/// times.encode(&Duration::new(7, 9))?;
/// assert_eq!(rt; times.collect(alloc)?.as_slice(), [6, 7, 4, 9].as_slice());
/// ```
#[derive(Drop)]
pub struct ConvertIntoEncoder<T, E> {
    inner: E,
    of: PhantomData<T>,
}

impl<T: Drop, E: HoldsColumns> HoldsColumns for ConvertIntoEncoder<T, E> {
    ghost columns = { λ e. E.columns e.inner };

    ghost room = { λ e. E.room e.inner };

    ghost capacity = { λ e. E.capacity e.inner };

    ghost surely_overflows = { λ e n. E.surely_overflows e.inner n };

    ghost overflows = { λ e n. E.overflows e.inner n };

    ghost writes_free = { E.writes_free };
}

impl<T: Drop, E: Buffer> Buffer for ConvertIntoEncoder<T, E> {
    fn new(alloc: Global) -> Self {
        ConvertIntoEncoder {
            inner: E::new(alloc),
            of: PhantomData,
        }
    }

    fn reserve(&mut self, n: usize) -> Result<(), Error> {
        self.inner.reserve(n)
    }

    fn collect_into(&mut self, out: &mut Vec<u8>) -> Result<(), Error> {
        self.inner.collect_into(out)
    }

    fn clear(&mut self) {
        self.inner.clear();
    }
}

impl<T: Shaped + Drop, D: ConvertInto<T>, E: Encoder<T>> Encoder<D> for ConvertIntoEncoder<T, E> {
    fn encode(&mut self, t: &D) -> Result<(), Error> {
        self.inner.encode(&t.convert_into())
    }

    ghost of_shape = { λ e. E.of_shape e.inner ∙ sym (D.written_as.columns []) };

    ghost surely = { λ e n h. surely_as D.data.shape T.data.shape D.written_as (E.columns e.inner) n
        (E.surely e.inner n h) };
}

impl<T: Shaped + Drop, D: ConvertInto<T>, E: Encoder<T>> EncodeMany<D>
    for ConvertIntoEncoder<T, E> {
    fn encode_part_of_each<S, W: Part<S, D>>(
        &mut self,
        items: &[S],
        which: &W,
        _first: &D,
    ) -> Result<(), Error> {
        encode_parts(self, items, which)
    }

    ghost of_shape = { λ e. E.of_shape e.inner ∙ sym (D.written_as.columns []) };

    ghost surely = { λ e n h. surely_as D.data.shape T.data.shape D.written_as (E.columns e.inner) n
        (E.surely e.inner n h) };
}

/// The data of values that are made from values of `T`, with the decoder `D` of `T`.
///
/// It returns that decoder's errors, and `out of memory` if the allocation for a value fails.
///
/// ```rust
/// use bitcode_parts::durations::{DurationDecode, DurationEncode};
/// use std::time::Duration;
///
/// let mut input: &[u8] = &[6, 7, 4, 9];
/// let mut times: ConvertFromDecoder<DurationDecode, TupleDecoder<IntDecoder<u64>, CheckedIntDecoder<Nanosecond, u32>>> =
///     ConvertFromDecoder::new(alloc);
/// times.populate(&mut input, 1)?;
/// let first: Duration = times.decode()?;
/// assert_eq!(rt; first, Duration::new(7, 9));
/// ```
#[derive(Drop)]
pub struct ConvertFromDecoder<T, D> {
    alloc: Global,
    inner: D,
    of: PhantomData<T>,
}

/// The decoder of pointers, which the Rust crate calls so.
pub type FromDecoder<T, D> = ConvertFromDecoder<T, D>;

impl<T: Drop, D: HoldsData> HoldsData for ConvertFromDecoder<T, D> {
    ghost shape = { D.shape };

    ghost held = { λ d. D.held d.inner };

    ghost owned = { λ d. D.owned d.inner };

    ghost free_inside = { λ d. D.free_inside d.inner };
}

impl<T: Drop, D: NewDecoder> NewDecoder for ConvertFromDecoder<T, D> {
    fn new(alloc: Global) -> Self {
        ConvertFromDecoder {
            alloc,
            inner: D::new(alloc),
            of: PhantomData,
        }
    }

    fn column_free(&self) -> ColumnFree {
        self.inner.column_free()
    }
}

impl<'a, T: Drop, D: View<'a>> View<'a> for ConvertFromDecoder<T, D> {
    fn read(&mut self, input: &mut &'a [u8], k: usize, strict: bool) -> Result<bool, Error> {
        self.inner.read(input, k, strict)
    }
}

impl<T: Shaped + Drop, F: ConvertFrom<T>, D: Decoder<T>> Decoder<F> for ConvertFromDecoder<T, D> {
    ghost makes_free = { D.makes_free && F.is_free };

    // As for tuples.
    #[inline(always)]
    fn decode(&mut self) -> Result<F, Error> {
        let value = self.inner.decode()?;
        F::convert_from(self.alloc, value)
    }

    const READS_ONE: bool = D::READS_ONE;

    #[inline(always)]
    fn read_one(alloc: Global, input: &mut &[u8]) -> Option<F> {
        let value = D::read_one(alloc, input)?;
        F::convert_from(alloc, value).ok()
    }

    ghost same_shape = { D.same_shape ∙ sym F.same_shape };
}
