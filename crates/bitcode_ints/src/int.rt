//! The coders of a column of integers.
#![tactic(auto)]

ghost use Rattle.std.specs.Prelude.{◌≡◌, ◌+◌, ◌≤◌, ◌++◌, List, [], ◌∷◌, length, map, take, drop, pos, true};
ghost use Rattle.std.specs.Prelude.{false, IsTrue, IsFalse, IsOk, IfOk, OnOk, IfErr, OnErr, IfSome};
ghost use Rattle.std.proofs.Common.{sym};
ghost use Rattle.bitcode_memory.specs.Fast.{fast_items, fast_room, cow_rest, fast_capacity, cow_owned};
ghost use Rattle.bitcode_memory.specs.Ints.{number_of};
ghost use Rattle.bitcode_memory.specs.LittleEndian.{little_endian};
ghost use Rattle.bitcode_columns.specs.Reading.{Reads, IsEndOf};
ghost use Rattle.bitcode_shapes.specs.Datum.{Datum, number};
ghost use Rattle.bitcode_shapes.specs.Ints.{ListsNumber, int_shape};
ghost use Rattle.bitcode_coder.specs.Columns.{ints, one};
ghost use Rattle.bitcode_coder.specs.Spelling.{Spells};
ghost use Rattle.bitcode_coder.specs.Coder.{IsReadingRefusal, written_columns};
ghost use Rattle.bitcode_coder.specs.FirstFault.{IsFirstFault};
ghost use Rattle.bitcode_coder.specs.ColumnFree.{free_count, saturated};
ghost use Rattle.bitcode_coder.specs.Strict.{JudgesData};
ghost use Rattle.bitcode_ints.specs.Int.{int_data, bytes_data, PushesInts, WritesInts, ReadsInt};

use bitcode_coder::coder::{
    Buffer, Decoder, EncodeMany, Encoder, HoldsColumns, HoldsData, NewDecoder, View,
};
use bitcode_coder::column_free::ColumnFree;
use bitcode_coder::part::Part;
use bitcode_int_columns::column_int::ColumnInt;
use bitcode_memory::error::{Error, Reason};
use bitcode_memory::fast::{CowSlice, FastVec, PushUnchecked};
use bitcode_shapes::shaped::Shaped;
use std::alloc::Global;
use std::mem::replace;

mod checked_types;
mod types;

/// A type whose values are written as integers `I`, such as `char` as `u32`.
pub trait AsInt<I: ColumnInt>: Shaped {
    /// The integer that is written for the value.
    fn to_int(&self) -> I
        ensures { Self.data.lists self.now (number (I.number result)) };

    /// Pushes the integers for the values of a slice. The caller must have reserved the room.
    fn push_ints(values: &[Self], ints: &mut FastVec<I>)
        requires { length values.now ≤ fast_room ints.old }
        ensures written { PushesInts Self.data.lists I.number values.now (fast_items ints.old)
            (fast_items ints.new) }
        ensures room { fast_room ints.old ≤ fast_room ints.new + length values.now }
    {
        for value in values {
            ints.push_unchecked(value.to_int());
        }
    }

    /// Appends the column of the integers for the values of a slice, if that needs no copy of the values. Returns
    /// whether it did. If not, `out` is unchanged.
    ///
    /// The only error is `out of memory`. `out` is then unchanged.
    fn write_ints(_alloc: Global, _values: &[Self], _out: &mut Vec<u8>) -> Result<bool, Error>
        ensures written { IfOk result
            (λ done. IsTrue done → WritesInts Self.data.lists I.width I.number _values.now
            _out.old.items
            _out.new.items) }
        ensures not_done { IfOk result (λ done. IsFalse done → _out.new.items ≡ _out.old.items) }
        ensures unchanged { OnErr result (_out.new.items ≡ _out.old.items) }
        ensures refused { IfErr result (λ e. e.reason ≡ Reason.OutOfMemory) }
    {
        Ok(false)
    }

    ghost as_int_columns: { (ds : List Datum)
        → written_columns Self.data.shape ds ≡ one (ints I.width I.signed) ds };
}

// Pushes integers that are written unchanged, by one copy. The caller must have reserved the room.
fn push_themselves<I: ColumnInt>(values: &[I], ints: &mut FastVec<I>)
    requires { length values.now ≤ fast_room ints.old }
    ensures written { PushesInts (ListsNumber I.number) I.number values.now (fast_items ints.old)
        (fast_items ints.new) }
    ensures room { fast_room ints.old ≤ fast_room ints.new + length values.now }
{
    ints.extend_unchecked(values);
}

// Appends the column of integers that are written unchanged, if that needs no copy of them. Returns whether it did.
fn write_themselves<I: ColumnInt>(
    alloc: Global,
    values: &[I],
    out: &mut Vec<u8>,
) -> Result<bool, Error>
    ensures written { IfOk result
        (λ done. IsTrue done → WritesInts (ListsNumber I.number) I.width I.number values.now
        out.old.items out.new.items) }
    ensures not_done { IfOk result (λ done. IsFalse done → out.new.items ≡ out.old.items) }
    ensures unchanged { OnErr result (out.new.items ≡ out.old.items) }
    ensures refused { IfErr result (λ e. e.reason ≡ Reason.OutOfMemory) }
{
    I::pack_slice(alloc, values, out)
}

// Pushes the integers for a part of each item. The caller must have reserved the room. The list is passed by value and
// returned: through a reference, each push would load and store its length.
fn push_parts<S, P: AsInt<I>, I: ColumnInt, W: Part<S, P>>(
    items: &[S],
    which: &W,
    mut ints: FastVec<I>,
) -> FastVec<I>
    requires { length items.now ≤ fast_room ints }
    ensures written { PushesInts P.data.lists I.number (map (W.of which.now) items.now)
        (fast_items ints)
        (fast_items result) }
    ensures room { fast_room ints ≤ fast_room result + length items.now }
{
    for item in items {
        ints.push_unchecked(which.part(item).to_int());
    }
    ints
}

/// An integer type whose values are read unchanged.
pub trait Integer: ColumnInt + Shaped {
    /// Takes the next `n` integers.
    ///
    /// If an allocation fails, the error is `out of memory`.
    fn list_unchecked<'a>(
        alloc: Global,
        bytes: &mut CowSlice<'a, Self::Une>,
        n: usize,
    ) -> Result<Vec<Self>, Error>
        requires { n ≤ length (cow_rest bytes.old) }
        ensures numbers { IfOk result
            (λ ints. map Self.number ints.items ≡ map
            (λ u. number_of Self.width Self.signed (little_endian (Self.une_bytes u)))
            (take n (cow_rest bytes.old))) }
        ensures rest { cow_rest bytes.new ≡ drop n (cow_rest bytes.old) }
        ensures refused { IfErr result (λ e. e.reason ≡ Reason.OutOfMemory) }
        ensures none { n ≡ 0 → IsOk result }
    {
        ints_of(alloc, bytes.chunk_unchecked(n))
    }

    /// Reads a column of one integer from the front of the input.
    ///
    /// The contract promises nothing of `None`: it is returned if the read or an allocation fails.
    fn read_int(alloc: Global, input: &mut &[u8]) -> Option<Self>
        ensures { IfSome result
            (λ t. ReadsInt Self.width Self.signed (Self.number t) input.old.now input.new.now) };

    ghost integer_shape: { Self.data.shape ≡ int_shape Self.width Self.signed };

    ghost integer_makes: { (t : Self) → Self.data.makes (number (Self.number t)) t };
}

/// The column that integers are written to.
///
/// ```
/// let mut column: IntEncoder<u16> = IntEncoder::new(alloc);
/// column.reserve(1)?;
/// column.encode(&7)?;
/// column.collect_into(&mut bytes)?;   // [7, 0]
/// ```
#[derive(Drop)]
pub struct IntEncoder<T: ColumnInt> {
    alloc: Global,
    values: FastVec<T>,
}

impl<T: ColumnInt> HoldsColumns for IntEncoder<T> {
    ghost columns = { λ e. one (ints T.width T.signed) (int_data T.number (fast_items e.values)) };

    ghost room = { λ e. fast_room e.values };

    ghost capacity = { λ e. fast_capacity e.values };

    ghost surely_overflows = { λ e n. ⊥ };

    ghost overflows = { λ e n. ⊥ };

    ghost writes_free = { true };
}

impl<T: ColumnInt> Buffer for IntEncoder<T> {
    fn new(alloc: Global) -> Self {
        IntEncoder {
            alloc,
            values: FastVec::new(alloc),
        }
    }

    fn reserve(&mut self, n: usize) -> Result<(), Error> {
        self.values.reserve(n)
    }

    fn collect_into(&mut self, out: &mut Vec<u8>) -> Result<(), Error> {
        T::pack(self.alloc, self.values.as_mut_slice(), out)?;
        self.values.clear();
        Ok(())
    }

    fn clear(&mut self) {
        self.values.clear();
    }
}

impl<T: ColumnInt> IntEncoder<T> {
    /// Adds integers to the column, by one copy. The caller must have reserved the room.
    ///
    /// ```
    /// let mut column: IntEncoder<u8> = IntEncoder::new(alloc);
    /// column.reserve(2)?;
    /// column.extend(&[7, 8]);
    /// column.collect_into(&mut bytes)?;   // [7, 8]
    /// ```
    pub fn extend(&mut self, ints: &[T])
        requires { length ints.now ≤ fast_room self.old.values }
        ensures written { fast_items self.new.values ≡ fast_items self.old.values ++ ints.now }
        ensures room { fast_room self.old.values ≤ fast_room self.new.values + length ints.now }
    {
        self.values.extend_unchecked(ints);
    }
}

impl<I: ColumnInt, P: AsInt<I>> Encoder<P> for IntEncoder<I> {
    fn encode(&mut self, t: &P) -> Result<(), Error> {
        self.values.push_unchecked(t.to_int());
        Ok(())
    }

    fn write_directly(&mut self, t: &P, out: &mut Vec<u8>) -> Result<bool, Error> {
        I::pack_one(self.alloc, t.to_int(), out)?;
        Ok(true)
    }

    ghost of_shape = { λ e. sym (P.as_int_columns []) };

    ghost surely = { λ e n never. absurd never };
}

impl<I: ColumnInt, P: AsInt<I>> EncodeMany<P> for IntEncoder<I> {
    fn is_primitive() -> bool {
        true
    }

    fn encode_slice(&mut self, items: &[P]) -> Result<(), Error> {
        P::push_ints(items, &mut self.values);
        Ok(())
    }

    fn write_slice_directly(&self, items: &[P], out: &mut Vec<u8>) -> Result<bool, Error> {
        P::write_ints(self.alloc, items, out)
    }

    fn encode_part_of_each<S, W: Part<S, P>>(
        &mut self,
        items: &[S],
        which: &W,
        _first: &P,
    ) -> Result<(), Error> {
        let ints = replace(&mut self.values, FastVec::new(self.alloc));
        self.values = push_parts(items, which, ints);
        Ok(())
    }

    ghost of_shape = { λ e. sym (P.as_int_columns []) };

    ghost surely = { λ e n never. absurd never };
}

// The integers of these bytes.
fn ints_of<T: ColumnInt>(alloc: Global, unaligned: &[T::Une]) -> Result<Vec<T>, Error>
    ensures numbers { IfOk result
        (λ ints. map T.number ints.items ≡ map
        (λ u. number_of T.width T.signed (little_endian (T.une_bytes u))) unaligned.now) }
    ensures refused { IfErr result (λ e. e.reason ≡ Reason.OutOfMemory) }
    ensures none { length unaligned.now ≡ 0 → IsOk result }
{
    let mut ints = Vec::with_capacity(alloc, unaligned.len())?;
    for bytes in unaligned {
        ints.push_reserved(T::from_unaligned(*bytes));
    }
    Ok(ints)
}

// Reads a column of one integer from the front of the input.
#[inline(always)]
fn one_int<'a, T: ColumnInt + 'a>(alloc: Global, input: &mut &'a [u8]) -> Option<T>
    ensures { IfSome result
        (λ t. ReadsInt T.width T.signed (T.number t) input.old.now input.new.now) }
{
    let mut values = CowSlice::new(alloc);
    let Ok(_) = T::unpack(alloc, input, 1, &mut values, false) else {
        return None;
    };
    Some(T::from_unaligned(values.next_unchecked()))
}

// Takes the next `n` bytes as integers of one byte each.
fn list_of_bytes<'a>(
    alloc: Global,
    bytes: &mut CowSlice<'a, u8>,
    n: usize,
) -> Result<Vec<u8>, Error>
    requires { n ≤ length (cow_rest bytes.old) }
    ensures numbers { IfOk result
        (λ ints. map pos ints.items ≡ map (λ byte. number_of 1 false (little_endian (byte ∷ [])))
        (take n (cow_rest bytes.old))) }
    ensures rest { cow_rest bytes.new ≡ drop n (cow_rest bytes.old) }
    ensures refused { IfErr result (λ e. e.reason ≡ Reason.OutOfMemory) }
    ensures none { n ≡ 0 → IsOk result }
{
    bytes.list_unchecked(alloc, n)
}

/// The column that integers are read from.
///
/// ```
/// let mut column: IntDecoder<u16> = IntDecoder::new(alloc);
/// column.populate(&mut input, 1)?;
/// let first: u16 = column.decode()?;
/// ```
#[derive(Drop)]
pub struct IntDecoder<'a, T: ColumnInt> {
    alloc: Global,
    values: CowSlice<'a, T::Une>,
}

impl<'a, T: ColumnInt> HoldsData for IntDecoder<'a, T> {
    ghost shape = { int_shape T.width T.signed };

    ghost held = { λ d. bytes_data T.width T.signed T.une_bytes (cow_rest d.values) };

    ghost owned = { λ d. cow_owned d.values };

    ghost free_inside = { λ d. 0 };
}

impl<'a, T: ColumnInt> NewDecoder for IntDecoder<'a, T> {
    fn new(alloc: Global) -> Self {
        IntDecoder {
            alloc,
            values: CowSlice::new(alloc),
        }
    }

    fn column_free(&self) -> ColumnFree {
        ColumnFree::entries()
    }
}

impl<'a, T: ColumnInt> View<'a> for IntDecoder<'a, T> {
    // Inlined, with all that it calls to read a column, so that nothing is left of the cases that one integer lacks.
    #[inline(always)]
    fn read(&mut self, input: &mut &'a [u8], k: usize, strict: bool) -> Result<bool, Error>
        ensures read { OnOk result
            (Reads (Spells (int_shape T.width T.signed)) k input.old.now
            (bytes_data T.width T.signed T.une_bytes (cow_rest self.new.values)) input.new.now) }
        ensures counted { OnOk result
            (saturated 0 ≡ saturated (free_count (int_shape T.width T.signed)
            (bytes_data T.width T.signed T.une_bytes (cow_rest self.new.values)))) }
        ensures judged { IsTrue strict → IfOk result
            (λ written. JudgesData (int_shape T.width T.signed)
            (bytes_data T.width T.signed T.une_bytes (cow_rest self.new.values)) written
            input.old.now input.new.now) }
        ensures refused { IfErr result
            (λ e. IsReadingRefusal (int_shape T.width T.signed) e.reason k input.old.now) }
        ensures rest { OnErr result (IsEndOf input.old.now input.new.now) }
        ensures exact { IfErr result
            (λ e. IsFirstFault (int_shape T.width T.signed) e.reason k input.old.now) }
    {
        T::unpack(self.alloc, input, k, &mut self.values, strict)
    }
}

impl<'a, T: Integer> Decoder<T> for IntDecoder<'a, T> {
    ghost makes_free = { true };

    fn decode(&mut self) -> Result<T, Error> {
        Ok(T::from_unaligned(self.values.next_unchecked()))
    }

    fn decode_many(&mut self, alloc: Global, count: usize) -> Result<Vec<T>, Error> {
        T::list_unchecked(alloc, &mut self.values, count)
    }

    ghost same_shape = { sym T.integer_shape };
}
