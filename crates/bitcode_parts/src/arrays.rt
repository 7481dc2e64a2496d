//! The coders of arrays.
ghost use Rattle.std.specs.Prelude.{◌≡◌, ◌+◌, ◌*◌, ◌^◌, ◌<◌, ◌≤◌, ◌==◌, ◌||◌, IsTrue, IsOk, IfOk, OnOk, IfErr};
ghost use Rattle.std.specs.Prelude.{◌↔◌, OnErr, IsErrOf, IfSome};
ghost use Rattle.bitcode_columns.specs.Reading.{Reads, IsEndOf};
ghost use Rattle.bitcode_shapes.specs.Shape.{array_shape};
ghost use Rattle.bitcode_coder.specs.Coder.{IsWritingRefusal, IsReadingRefusal, ReadsValue};
ghost use Rattle.bitcode_coder.specs.FirstFault.{IsFirstFault};
ghost use Rattle.bitcode_coder.specs.ColumnFree.{has_entry, count_if_free, free_count, saturated};
ghost use Rattle.bitcode_coder.specs.Spelling.{Spells};
ghost use Rattle.bitcode_coder.specs.Strict.{JudgesData, StrictlySpells};
ghost use Rattle.bitcode_coder.specs.Transposition.{array_columns};
ghost use Rattle.bitcode_parts.specs.Arrays.{array_room, ArraysOverflow, arrays_of};
ghost use Rattle.bitcode_parts.specs.ArrayLaws.{arrays_of_shape, arrays_overflow, same_array_shape};

use crate::lists::sequence::{decode_each, encode_each};
use bitcode_coder::coder::{
    Buffer, Decoder, EncodeMany, Encoder, HoldsColumns, HoldsData, NewDecoder, View, encode_parts,
};
use bitcode_coder::column_free::ColumnFree;
use bitcode_coder::part::Part;
use bitcode_memory::consume::mul_length;
use bitcode_memory::error::{Error, Reason};
use bitcode_memory::refuse::err;
use bitcode_shapes::shaped::Shaped;
use std::alloc::Global;

/// The encoder of arrays of `N` elements: the columns of all elements of all arrays.
///
/// It writes each array with the encoder of its elements, and returns that encoder's errors. The number of arrays is
/// not written, since the decoder knows it. If that number times `N` does not fit in a `usize`, `reserve` returns
/// `length overflow`.
///
/// ```
/// let mut encoder: ArrayEncoder<IntEncoder<u8>, 3> = ArrayEncoder::new(alloc);
/// encoder.reserve(1)?;
/// encoder.encode(&[0, 1, 2])?;
/// encoder.collect_into(&mut bytes)?; // [8, 21]
/// ```
#[derive(Drop)]
pub struct ArrayEncoder<E, const N: usize> {
    elements: E,
    // how many arrays there are; of arrays of no elements there can be any number, and none is counted
    count: usize,
    ghost fits: { count * N < 2 ^ 64 },
    ghost uncounted: { N ≡ 0 → count ≡ 0 },
}

impl<E: HoldsColumns, const N: usize> HoldsColumns for ArrayEncoder<E, N> {
    ghost columns = { λ e. array_columns N e.count (E.columns e.elements) };

    ghost room = { λ e. array_room N e.count (E.room e.elements) };

    ghost capacity = { λ e. E.capacity e.elements };

    ghost surely_overflows = { λ e n. ArraysOverflow N E.surely_overflows e.elements e.count n };

    ghost overflows = { λ e n. ArraysOverflow N E.overflows e.elements e.count n };

    ghost writes_free = { E.writes_free || N == 0 };
}

impl<E: Buffer, const N: usize> Buffer for ArrayEncoder<E, N> {
    fn new(alloc: Global) -> Self {
        ArrayEncoder {
            elements: E::new(alloc),
            count: 0,
        }
    }

    fn reserve(&mut self, n: usize) -> Result<(), Error>
        ensures columns { array_columns N self.new.count (E.columns self.new.elements)
            ≡ array_columns N self.old.count (E.columns self.old.elements) }
        ensures ok { OnOk result (n ≤ array_room N self.new.count (E.room self.new.elements)) }
        ensures grows { array_room N self.old.count (E.room self.old.elements) ≤ array_room N
            self.new.count (E.room self.new.elements) }
        ensures succeeds { n ≤ array_room N self.old.count (E.room self.old.elements)
            → IsOk result }
        ensures refused { IfErr result
            (λ e. IsWritingRefusal e.reason
            (ArraysOverflow N E.surely_overflows self.old.elements self.old.count n)) }
        ensures overflow { ArraysOverflow N E.overflows self.old.elements self.old.count n
            → IsErrOf result (record { reason = Reason.LengthOverflow }) }
    {
        let Some(count) = self.count.checked_add(n) else {
            return err(Reason::LengthOverflow);
        };
        let _elements = mul_length(count, N)?;
        self.elements.reserve(n * N)
    }

    fn collect_into(&mut self, out: &mut Vec<u8>) -> Result<(), Error> {
        self.elements.collect_into(out)?;
        self.count = 0;
        Ok(())
    }

    fn clear(&mut self) {
        self.elements.clear();
        self.count = 0;
    }
}

impl<T: Shaped, E: EncodeMany<T>, const N: usize> Encoder<[T; N]> for ArrayEncoder<E, N> {
    fn encode(&mut self, t: &[T; N]) -> Result<(), Error> {
        encode_each(&mut self.elements, t.as_slice())?;
        if N > 0 {
            self.count += 1;
        }
        Ok(())
    }

    ghost of_shape = { λ e. arrays_of_shape N e.count T.data.shape (E.columns e.elements)
        (E.of_shape e.elements) };

    ghost surely = { λ e n. arrays_overflow T.data.shape (E.columns e.elements) n N e.count
        (E.surely e.elements (n * N)) };
}

impl<T: Shaped, E: EncodeMany<T>, const N: usize> EncodeMany<[T; N]> for ArrayEncoder<E, N> {
    fn is_primitive() -> bool {
        false
    }

    fn encode_part_of_each<S, W: Part<S, [T; N]>>(
        &mut self,
        items: &[S],
        which: &W,
        _first: &[T; N],
    ) -> Result<(), Error> {
        encode_parts(self, items, which)
    }

    ghost of_shape = { λ e. arrays_of_shape N e.count T.data.shape (E.columns e.elements)
        (E.of_shape e.elements) };

    ghost surely = { λ e n. arrays_overflow T.data.shape (E.columns e.elements) n N e.count
        (E.surely e.elements (n * N)) };
}

/// The decoder of arrays of `N` elements. It reads the elements of all arrays.
///
/// It makes each array with the decoder of its elements, one element after another. If the number of arrays times `N`
/// exceeds 18446744073709551615, reading returns `length overflow` and leaves the input unchanged.
///
/// ```
/// let mut decoder: ArrayDecoder<IntDecoder<u8>, 3> = ArrayDecoder::new(alloc);
/// decoder.populate(&mut input, 1)?; // [8, 21]
/// let first: [u8; 3] = decoder.decode()?; // [0, 1, 2]
/// ```
#[derive(Drop)]
pub struct ArrayDecoder<D, const N: usize> {
    alloc: Global,
    elements: D,
    // how many arrays are left
    left: usize,
}

impl<D: HoldsData, const N: usize> HoldsData for ArrayDecoder<D, N> {
    ghost shape = { array_shape N D.shape };

    ghost held = { λ d. arrays_of N d.left (D.held d.elements) };

    ghost owned = { λ d. D.owned d.elements };

    ghost free_inside = { λ d. count_if_free (has_entry D.shape) (d.left * N)
        + D.free_inside d.elements };
}

impl<D: NewDecoder, const N: usize> NewDecoder for ArrayDecoder<D, N> {
    fn new(alloc: Global) -> Self {
        ArrayDecoder {
            alloc,
            elements: D::new(alloc),
            left: 0,
        }
    }

    fn column_free(&self) -> ColumnFree {
        let elements = self.elements.column_free();
        ColumnFree {
            has_entry: N > 0 && elements.has_entry,
            inside: elements.in_arrays(self.left, N),
        }
    }
}

impl<'a, D: View<'a>, const N: usize> View<'a> for ArrayDecoder<D, N> {
    fn read(&mut self, input: &mut &'a [u8], k: usize, strict: bool) -> Result<bool, Error>
        ensures read { OnOk result
            (Reads (Spells (array_shape N D.shape)) k input.old.now
            (arrays_of N self.new.left (D.held self.new.elements)) input.new.now) }
        ensures counted { OnOk result
            (saturated (count_if_free (has_entry D.shape) (self.new.left * N)
            + D.free_inside self.new.elements) ≡ saturated (free_count (array_shape N D.shape)
            (arrays_of N self.new.left (D.held self.new.elements)))) }
        ensures judged { IsTrue strict → IfOk result
            (λ written. JudgesData (array_shape N D.shape)
            (arrays_of N self.new.left (D.held self.new.elements)) written input.old.now
            input.new.now) }
        ensures refused { IfErr result
            (λ e. IsReadingRefusal (array_shape N D.shape) e.reason k input.old.now) }
        ensures exact { IfErr result
            (λ e. IsFirstFault (array_shape N D.shape) e.reason k input.old.now) }
        ensures rest { OnErr result (IsEndOf input.old.now input.new.now) }
        ensures unread { 2 ^ 64 ≤ k * N → input.new.now ≡ input.old.now }
    {
        let count = mul_length(k, N)?;
        let written = self.elements.read(input, count, strict)?;
        self.left = k;
        Ok(written)
    }
}

impl<D, const N: usize> ArrayDecoder<D, N> {
    /// Reads `k` arrays as [`View::populate`] does. If their elements are too many for a length, it leaves the input
    /// unchanged.
    ///
    /// ```rust
    /// let mut input: &[u8] = &[1, 2, 3];
    /// let mut decoder: ArrayDecoder<IntDecoder<u8>, 3> = ArrayDecoder::new(alloc);
    /// assert!(rt; decoder.populate(&mut input, usize::MAX).is_err());
    /// assert_eq!(rt; input.len(), 3);
    /// ```
    pub fn populate<'a>(&mut self, input: &mut &'a [u8], k: usize) -> Result<(), Error>
    where
        D: View<'a>,
        ensures read { OnOk result
            (Reads (Spells (array_shape N D.shape)) k input.old.now
            (arrays_of N self.new.left (D.held self.new.elements)) input.new.now) }
        ensures refused { IfErr result
            (λ e. IsReadingRefusal (array_shape N D.shape) e.reason k input.old.now) }
        ensures exact { IfErr result
            (λ e. IsFirstFault (array_shape N D.shape) e.reason k input.old.now) }
        ensures rest { OnErr result (IsEndOf input.old.now input.new.now) }
        ensures unread { 2 ^ 64 ≤ k * N → input.new.now ≡ input.old.now }
    {
        self.read(input, k, false)?;
        Ok(())
    }

    /// Reads `k` arrays as [`View::populate_strict`] does. If their elements are too many for a length, it leaves the
    /// input unchanged.
    ///
    /// ```rust
    /// let mut input: &[u8] = &[1, 2, 3];
    /// let mut decoder: ArrayDecoder<IntDecoder<u8>, 3> = ArrayDecoder::new(alloc);
    /// assert!(rt; decoder.populate_strict(&mut input, usize::MAX).is_err());
    /// assert_eq!(rt; input.len(), 3);
    /// ```
    pub fn populate_strict<'a>(&mut self, input: &mut &'a [u8], k: usize) -> Result<bool, Error>
    where
        D: View<'a>,
        ensures read { OnOk result
            (Reads (Spells (array_shape N D.shape)) k input.old.now
            (arrays_of N self.new.left (D.held self.new.elements)) input.new.now) }
        ensures strict { IfOk result
            (λ written. IsTrue written
            ↔ Reads (StrictlySpells (array_shape N D.shape)) k input.old.now
            (arrays_of N self.new.left (D.held self.new.elements)) input.new.now) }
        ensures refused { IfErr result
            (λ e. IsReadingRefusal (array_shape N D.shape) e.reason k input.old.now) }
        ensures exact { IfErr result
            (λ e. IsFirstFault (array_shape N D.shape) e.reason k input.old.now) }
        ensures rest { OnErr result (IsEndOf input.old.now input.new.now) }
        ensures unread { 2 ^ 64 ≤ k * N → input.new.now ≡ input.old.now }
    {
        self.read(input, k, true)
    }
}

impl<T: Shaped + Drop, D: Decoder<T>, const N: usize> Decoder<[T; N]> for ArrayDecoder<D, N> {
    ghost makes_free = { N == 0 };

    fn decode(&mut self) -> Result<[T; N], Error> {
        let items = decode_each(self.alloc, &mut self.elements, N)?;
        self.left -= 1;
        match <[T; N]>::try_from(items) {
            Ok(array) => Ok(array),
            Err(_items) => unreachable!(),
        }
    }

    // All four are written here: the toolchain does not allow the trait's own where a size depends on `N`.
    const READS_ONE: bool = D::READS_LISTS;

    #[inline(always)]
    fn read_one(alloc: Global, input: &mut &[u8]) -> Option<[T; N]>
        ensures { IfSome result
            (λ t. ReadsValue ⟦<[T; N] as Shaped>⟧.data.makes (array_shape N D.shape) input.old.now t
            input.new.now) }
    {
        let items = D::read_list(alloc, input, N)?;
        match <[T; N]>::try_from(items) {
            Ok(array) => Some(array),
            Err(_items) => None,
        }
    }

    const READS_LISTS: bool = false;

    fn read_list(_alloc: Global, _input: &mut &[u8], _count: usize) -> Option<Vec<[T; N]>> {
        None
    }

    ghost same_shape = { same_array_shape N D.same_shape };
}
