//! The traits that encoders and decoders implement, for single columns and for types.
ghost use Rattle.std.specs.Prelude.{◌≡◌, ◌≢◌, ℕ, ◌+◌, ◌<◌, ◌≤◌, Bool, List, [], ◌++◌, length, map, IsTrue, IfSome};
ghost use Rattle.std.specs.Prelude.{IsFalse, ◌↔◌, ◌&&◌, IsOk, IfOk, OnOk, IfErr, OnErr, IsErrOf};
ghost use Rattle.bitcode_memory.specs.declared.error.Reason.{Reason};
ghost use Rattle.bitcode_columns.specs.Reading.{Reads, IsEndOf};
ghost use Rattle.bitcode_shapes.specs.Datum.{Datum};
ghost use Rattle.bitcode_shapes.specs.Shape.{Shape};
ghost use Rattle.bitcode_coder.specs.Columns.{Columns, emptied};
ghost use Rattle.bitcode_coder.specs.Spelling.{Spells, columns_bytes};
ghost use Rattle.bitcode_coder.specs.FirstFault.{IsFirstFault};
ghost use Rattle.bitcode_coder.specs.Strict.{StrictlySpells, JudgesData};
ghost use Rattle.bitcode_coder.specs.ColumnFree.{has_entry, free_count, saturated};
ghost use Rattle.bitcode_coder.specs.Coder.{written_columns, BeginsWith, JoinsListing, WritesListing, WritesEach};
ghost use Rattle.bitcode_coder.specs.Coder.{OverflowsWithListing, JoinsEach, OverflowsWithEach, SurelyOverflows};
ghost use Rattle.bitcode_coder.specs.Coder.{IsWritingRefusal, IsReadingRefusal, TakesDatum, TakesEach};
ghost use Rattle.bitcode_coder.specs.Coder.{ReadsValue, ReadsValues};

use crate::column_free::ColumnFree;
use crate::part::{Behind, Itself, Part, told_parts};
use bitcode_memory::error::{Error, Reason};
use bitcode_shapes::lists::told_each;
use bitcode_shapes::shaped::Shaped;
use std::alloc::Global;

/// The maximal number of references that [`Encoder::encode_vectored`] accepts.
pub const MAX_VECTORED_CHUNK: usize = 64;

/// The columns of an encoder, in terms of which the contracts of [`Buffer`], [`Encoder`] and [`EncodeMany`] are stated.
///
/// It has no functions, since each function of a supertrait makes the checker take longer for each call through the
/// traits below it.
pub trait HoldsColumns {
    // the columns so far
    ghost columns: { Self → Columns };

    // how many more values surely have their place
    ghost room: { Self → ℕ };

    // how many entries its lists have memory for, those that they hold included
    ghost capacity: { Self → ℕ };

    // so many more values make a number of arrays pass, whatever they are
    ghost surely_overflows: { Self → ℕ → Type 0 };

    // that so many more values make a number of arrays pass is found before memory is asked for
    ghost overflows: { Self → ℕ → Type 0 };

    // writing a value takes no memory, where room for it was reserved
    ghost writes_free: { Bool };
}

/// Columns to which values are added one by one.
///
/// After an error only [`Buffer::clear`] may follow, which empties the columns.
pub trait Buffer: HoldsColumns {
    /// Creates empty columns without allocating.
    fn new(alloc: Global) -> Self
        ensures empty { Self.columns result ≡ emptied (Self.columns result) }
        ensures capacity { Self.capacity result ≡ 0 };

    /// Reserves room for `n` more values.
    ///
    /// If an allocation fails, the error is `out of memory`. The error `length overflow` means that no `n` values can
    /// follow. A call that detects this before it allocates always returns `length overflow`.
    fn reserve(&mut self, n: usize) -> Result<(), Error>
        ensures columns { Self.columns self.new ≡ Self.columns self.old }
        ensures ok { OnOk result (n ≤ Self.room self.new) }
        ensures grows { Self.room self.old ≤ Self.room self.new }
        ensures succeeds { n ≤ Self.room self.old → IsOk result }
        ensures refused { IfErr result
            (λ e. IsWritingRefusal e.reason (Self.surely_overflows self.old n)) }
        ensures overflow { Self.overflows self.old n
            → IsErrOf result (record { reason = Reason.LengthOverflow }) };

    /// Appends the columns to `out`, and empties them.
    ///
    /// If an allocation fails, the error is `out of memory`, and `out` still begins with what it held before.
    fn collect_into(&mut self, out: &mut Vec<u8>) -> Result<(), Error>
        ensures written { OnOk result
            (out.new.items ≡ out.old.items ++ columns_bytes (Self.columns self.old)) }
        ensures empty { OnOk result (Self.columns self.new ≡ emptied (Self.columns self.old)) }
        ensures begins { BeginsWith out.old.items out.new.items }
        ensures form { emptied (Self.columns self.new) ≡ emptied (Self.columns self.old) }
        ensures refused { IfErr result (λ e. e.reason ≡ Reason.OutOfMemory) };

    /// Drops all entries without allocating. The caller must reserve room again.
    fn clear(&mut self)
        ensures empty { Self.columns self.new ≡ emptied (Self.columns self.old) }
        ensures capacity { Self.capacity self.new ≤ Self.capacity self.old };

    /// Returns the columns as new bytes, and empties them.
    ///
    /// If an allocation fails, the error is `out of memory`.
    final fn collect(&mut self, alloc: Global) -> Result<Vec<u8>, Error>
        ensures written { IfOk result
            (λ bytes. bytes.items ≡ columns_bytes (Self.columns self.old)) }
        ensures empty { OnOk result (Self.columns self.new ≡ emptied (Self.columns self.old)) }
        ensures form { emptied (Self.columns self.new) ≡ emptied (Self.columns self.old) }
        ensures refused { IfErr result (λ e. e.reason ≡ Reason.OutOfMemory) }
    {
        let mut bytes = Vec::new(alloc);
        self.collect_into(&mut bytes)?;
        Ok(bytes)
    }
}

/// Columns that values of `T` can be added to.
pub trait Encoder<T: Shaped>: HoldsColumns {
    /// Adds a value to the columns. The caller must have reserved room for it.
    ///
    /// If an allocation for a part of the value fails, the error is `out of memory`. The error `length overflow` means
    /// that a number of arrays times their size exceeds 18446744073709551615.
    fn encode(&mut self, t: &T) -> Result<(), Error>
        requires { 0 < Self.room self.old }
        ensures joined { OnOk result
            (JoinsListing T.data.lists T.data.shape t.now (Self.columns self.old)
            (Self.columns self.new)) }
        ensures room { OnOk result (Self.room self.old ≤ Self.room self.new + 1) }
        ensures form { emptied (Self.columns self.new) ≡ emptied (Self.columns self.old) }
        ensures refused { IfErr result
            (λ e. IsWritingRefusal e.reason
            (OverflowsWithListing T.data.lists T.data.shape t.now (Self.columns self.old))) }
        ensures free { IsTrue Self.writes_free
            → IfErr result (λ e. e.reason ≢ Reason.OutOfMemory) };

    /// Appends the columns of one value to `out` and keeps none of them, if the encoder can do so without a list for
    /// each column. The columns must be empty. Returns whether it did. If not, `out` is unchanged.
    ///
    /// Errors: those of [`Encoder::encode`]. `out` then begins with its old bytes. Call
    /// [`write_one`](crate::one::write_one), which tries this first.
    fn write_directly(&mut self, _t: &T, _out: &mut Vec<u8>) -> Result<bool, Error>
        requires { Self.columns self.old ≡ emptied (Self.columns self.old) }
        ensures written { IfOk result
            (λ done. IsTrue done → WritesListing T.data.lists T.data.shape _t.now
            (Self.columns self.old)
            _out.old.items _out.new.items) }
        ensures unchanged { IfOk result (λ done. IsFalse done → _out.new.items ≡ _out.old.items) }
        ensures empty { OnOk result (Self.columns self.new ≡ emptied (Self.columns self.old)) }
        ensures begins { BeginsWith _out.old.items _out.new.items }
        ensures form { emptied (Self.columns self.new) ≡ emptied (Self.columns self.old) }
        ensures refused { IfErr result
            (λ e. IsWritingRefusal e.reason
            (OverflowsWithListing T.data.lists T.data.shape _t.now (Self.columns self.old))) }
    {
        Ok(false)
    }

    /// Adds 1 to [`MAX_VECTORED_CHUNK`] values to the columns, as calls of [`Encoder::encode`] would. The caller must
    /// have reserved room for them.
    ///
    /// Errors: those of `encode`. Some of the first values may have been added by then.
    final fn encode_vectored(&mut self, values: &[&T]) -> Result<(), Error>
        requires chunk { (0 < length values.now) × (length values.now ≤ MAX_VECTORED_CHUNK) }
        requires room { length values.now ≤ Self.room self.old }
        ensures joined { OnOk result
            (JoinsEach T.data.lists T.data.shape (map (λ value. value.now) values.now)
            (Self.columns self.old)
            (Self.columns self.new)) }
        ensures room { OnOk result (Self.room self.old ≤ Self.room self.new + length values.now) }
        ensures form { emptied (Self.columns self.new) ≡ emptied (Self.columns self.old) }
        ensures refused { IfErr result
            (λ e. IsWritingRefusal e.reason
            (OverflowsWithEach T.data.lists T.data.shape (map (λ value. value.now) values.now)
            (Self.columns self.old))) }
        ensures free { IsTrue Self.writes_free → IfErr result (λ e. e.reason ≢ Reason.OutOfMemory) }
    {
        told_parts(values, &Behind);
        for value in values {
            self.encode(value)?;
        }
        Ok(())
    }

    // the columns are those of the type's shape
    ghost of_shape: { (e : Self) → emptied (Self.columns e) ≡ written_columns T.data.shape [] };

    ghost surely: { (e : Self) (n : ℕ) → Self.surely_overflows e n
        → SurelyOverflows T.data.shape (Self.columns e) n };
}

/// Columns that many values of `T` can be added to at once, for the encoders of lists and of what is inside them.
///
/// It is no subtrait of [`Encoder`]: the checker would pass both of an element for both of its list, and so twice as
/// much for each list inside a list.
pub trait EncodeMany<T: Shaped>: HoldsColumns {
    /// Whether the values are written unchanged, as bools, integers and the bytes of texts are.
    /// [`EncodeMany::encode_slice`] then writes many of them at once.
    ///
    /// Such a value does not allocate.
    fn is_primitive() -> bool
        ensures { IsTrue result → IsTrue Self.writes_free }
    {
        false
    }

    /// Adds the values of a slice to the columns, as calls of [`Encoder::encode`] would. The caller must have reserved
    /// room for them.
    ///
    /// Errors: those of `encode`. Some of the first values may have been added by then.
    fn encode_slice(&mut self, items: &[T]) -> Result<(), Error>
        requires { length items.now ≤ Self.room self.old }
        ensures joined { OnOk result
            (JoinsEach T.data.lists T.data.shape items.now (Self.columns self.old)
            (Self.columns self.new)) }
        ensures room { OnOk result (Self.room self.old ≤ Self.room self.new + length items.now) }
        ensures form { emptied (Self.columns self.new) ≡ emptied (Self.columns self.old) }
        ensures refused { IfErr result
            (λ e. IsWritingRefusal e.reason
            (OverflowsWithEach T.data.lists T.data.shape items.now (Self.columns self.old))) }
        ensures free { IsTrue Self.writes_free → IfErr result (λ e. e.reason ≢ Reason.OutOfMemory) }
        ensures none { length items.now ≡ 0 → IsOk result }
    {
        told_each(items);
        let mut rest = items;
        while !rest.is_empty() {
            let (front, behind) = rest.split_at(rest.len().min(MAX_VECTORED_CHUNK));
            self.encode_part_of_each(front, &Itself, &front[0])?;
            rest = behind;
        }
        Ok(())
    }

    /// Appends the columns of the values of a slice to `out`, if the encoder can do so without a copy of the values.
    /// The columns must be empty. Returns whether it did. If not, `out` is unchanged.
    ///
    /// The only error is `out of memory`. `out` then begins with its old bytes.
    fn write_slice_directly(&self, _items: &[T], _out: &mut Vec<u8>) -> Result<bool, Error>
        requires { Self.columns self.now ≡ emptied (Self.columns self.now) }
        ensures written { IfOk result
            (λ done. IsTrue done → WritesEach T.data.lists T.data.shape _items.now
            (Self.columns self.now)
            _out.old.items _out.new.items) }
        ensures unchanged { IfOk result (λ done. IsFalse done → _out.new.items ≡ _out.old.items) }
        ensures begins { BeginsWith _out.old.items _out.new.items }
        ensures refused { IfErr result (λ e. e.reason ≡ Reason.OutOfMemory) }
    {
        Ok(false)
    }

    /// Adds a part of each of 1 to [`MAX_VECTORED_CHUNK`] items to the columns, as calls of [`Encoder::encode`] would.
    /// The caller must have reserved room for them.
    ///
    /// Errors: those of `encode`. Some of the first parts may have been added by then. `first` is the first part or any
    /// other value of `T`. It is there only because the toolchain needs an argument of the type to know its layout.
    fn encode_part_of_each<S, W: Part<S, T>>(
        &mut self,
        items: &[S],
        which: &W,
        first: &T,
    ) -> Result<(), Error>
        requires chunk { (0 < length items.now) × (length items.now ≤ MAX_VECTORED_CHUNK) }
        requires room { length items.now ≤ Self.room self.old }
        ensures joined { OnOk result
            (JoinsEach T.data.lists T.data.shape (map (W.of which.now) items.now)
            (Self.columns self.old)
            (Self.columns self.new)) }
        ensures room { OnOk result (Self.room self.old ≤ Self.room self.new + length items.now) }
        ensures form { emptied (Self.columns self.new) ≡ emptied (Self.columns self.old) }
        ensures refused { IfErr result
            (λ e. IsWritingRefusal e.reason
            (OverflowsWithEach T.data.lists T.data.shape (map (W.of which.now) items.now)
            (Self.columns self.old))) }
        ensures free { IsTrue Self.writes_free
            → IfErr result (λ e. e.reason ≢ Reason.OutOfMemory) };

    // the columns are those of the type's shape
    ghost of_shape: { (e : Self) → emptied (Self.columns e) ≡ written_columns T.data.shape [] };

    ghost surely: { (e : Self) (n : ℕ) → Self.surely_overflows e n
        → SurelyOverflows T.data.shape (Self.columns e) n };
}

/// Adds a part of each of some items to the columns, one by one. The caller must have reserved room for them. It is the
/// body of [`EncodeMany::encode_part_of_each`] for encoders that cannot write many values at once.
///
/// Errors: those of [`Encoder::encode`]. Some of the first parts may have been added by then.
pub fn encode_parts<S, T: Shaped, W: Part<S, T>, E: Encoder<T>>(
    encoder: &mut E,
    items: &[S],
    which: &W,
) -> Result<(), Error>
    requires { length items.now ≤ E.room encoder.old }
    ensures joined { OnOk result
        (JoinsEach T.data.lists T.data.shape (map (W.of which.now) items.now)
        (E.columns encoder.old) (E.columns encoder.new)) }
    ensures room { OnOk result (E.room encoder.old ≤ E.room encoder.new + length items.now) }
    ensures form { emptied (E.columns encoder.new) ≡ emptied (E.columns encoder.old) }
    ensures refused { IfErr result
        (λ e. IsWritingRefusal e.reason
        (OverflowsWithEach T.data.lists T.data.shape (map (W.of which.now) items.now)
        (E.columns encoder.old))) }
    ensures free { IsTrue E.writes_free → IfErr result (λ e. e.reason ≢ Reason.OutOfMemory) }
{
    told_parts(items, which);
    for item in items {
        encoder.encode(which.part(item))?;
    }
    Ok(())
}

/// The data of a decoder, in terms of which the contracts of [`NewDecoder`], [`View`] and [`Decoder`] are stated.
///
/// It has no functions, since each function of a supertrait makes the checker take longer for each call through the
/// traits below it.
pub trait HoldsData {
    ghost shape: { Shape };

    // the data that are left to take
    ghost held: { Self → List Datum };

    // how many entries it has memory of its own for
    ghost owned: { Self → ℕ };

    // how many elements without columns are inside the data that were read
    ghost free_inside: { Self → ℕ };
}

/// A decoder that is made without an input. These functions are not in [`View`], since the checker takes several times
/// as long for a call through a trait with a lifetime.
pub trait NewDecoder: HoldsData {
    /// Creates an empty decoder without allocating.
    fn new(alloc: Global) -> Self
        ensures held { Self.held result ≡ [] }
        ensures owned { Self.owned result ≡ 0 };

    /// Tells how many elements without columns are inside the data that were read. It makes no value.
    fn column_free(&self) -> ColumnFree
        ensures has_entry { result.has_entry ≡ has_entry Self.shape }
        ensures inside { result.inside ≡ saturated (Self.free_inside self.now) };
}

/// Combines the answers of two parts that were read one after the other.
pub fn both(first: bool, second: bool) -> bool
    ensures { result ≡ (first && second) }
{
    first && second
}

/// Data that are read from an input.
///
/// After an error, only another read may follow.
pub trait View<'a>: HoldsData {
    /// Reads `k` data from the front of the input and validates them completely. If `strict`, it returns whether the
    /// bytes of each column are those that `encode` writes. Otherwise the returned bool has no meaning.
    ///
    /// The error is the first fault. It is `out of memory` only for a column that allocates.
    fn read(&mut self, input: &mut &'a [u8], k: usize, strict: bool) -> Result<bool, Error>
        ensures read { OnOk result
            (Reads (Spells Self.shape) k input.old.now (Self.held self.new) input.new.now) }
        ensures counted { OnOk result
            (saturated (Self.free_inside self.new) ≡ saturated (free_count Self.shape
            (Self.held self.new))) }
        ensures judged { IsTrue strict → IfOk result
            (λ written. JudgesData Self.shape (Self.held self.new) written input.old.now
            input.new.now) }
        ensures refused { IfErr result (λ e. IsReadingRefusal Self.shape e.reason k input.old.now) }
        ensures exact { IfErr result (λ e. IsFirstFault Self.shape e.reason k input.old.now) }
        ensures rest { OnErr result (IsEndOf input.old.now input.new.now) };

    /// Reads `k` data from the front of the input and validates them completely.
    ///
    /// The error is the first fault. It is `out of memory` only for a column that allocates.
    final fn populate(&mut self, input: &mut &'a [u8], k: usize) -> Result<(), Error>
        ensures read { OnOk result
            (Reads (Spells Self.shape) k input.old.now (Self.held self.new) input.new.now) }
        ensures counted { OnOk result
            (saturated (Self.free_inside self.new) ≡ saturated (free_count Self.shape
            (Self.held self.new))) }
        ensures refused { IfErr result (λ e. IsReadingRefusal Self.shape e.reason k input.old.now) }
        ensures exact { IfErr result (λ e. IsFirstFault Self.shape e.reason k input.old.now) }
        ensures rest { OnErr result (IsEndOf input.old.now input.new.now) }
    {
        self.read(input, k, false)?;
        Ok(())
    }

    /// Reads `k` data as [`View::populate`] does, and returns whether the bytes of each column are those that `encode`
    /// writes.
    final fn populate_strict(&mut self, input: &mut &'a [u8], k: usize) -> Result<bool, Error>
        ensures read { OnOk result
            (Reads (Spells Self.shape) k input.old.now (Self.held self.new) input.new.now) }
        ensures counted { OnOk result
            (saturated (Self.free_inside self.new) ≡ saturated (free_count Self.shape
            (Self.held self.new))) }
        ensures strict { IfOk result
            (λ written. IsTrue written ↔ Reads (StrictlySpells Self.shape) k input.old.now
            (Self.held self.new) input.new.now) }
        ensures refused { IfErr result (λ e. IsReadingRefusal Self.shape e.reason k input.old.now) }
        ensures exact { IfErr result (λ e. IsFirstFault Self.shape e.reason k input.old.now) }
        ensures rest { OnErr result (IsEndOf input.old.now input.new.now) }
    {
        self.read(input, k, true)
    }
}

/// Data from which values of `T` can be made.
pub trait Decoder<T: Shaped>: HoldsData {
    // making a value takes no memory
    ghost makes_free: { Bool };

    /// Makes a value from the next datum. At least one must be left.
    ///
    /// The only error is `out of memory`.
    fn decode(&mut self) -> Result<T, Error>
        requires { 0 < length (Self.held self.old) }
        ensures made { IfOk result
            (λ t. TakesDatum T.data.makes t (Self.held self.old) (Self.held self.new)) }
        ensures refused { IfErr result (λ e. e.reason ≡ Reason.OutOfMemory) }
        ensures free { IsTrue makes_free → IsOk result };

    /// Makes values from the next `count` data, as calls of [`Decoder::decode`] would. At least as many must be left.
    ///
    /// The only error is `out of memory`. It never occurs for a `count` of 0.
    fn decode_many(&mut self, alloc: Global, count: usize) -> Result<Vec<T>, Error>
    where
        T: Drop,
        requires { count ≤ length (Self.held self.old) }
        ensures made { IfOk result
            (λ items. TakesEach T.data.makes count items.items (Self.held self.old)
            (Self.held self.new)) }
        ensures refused { IfErr result (λ e. e.reason ≡ Reason.OutOfMemory) }
        ensures none { count ≡ 0 → IsOk result }
    {
        let mut items = Vec::with_capacity(alloc, count)?;
        for _made in 0..count {
            items.push_reserved(self.decode()?);
        }
        Ok(items)
    }

    /// Whether `decode` is to try [`Decoder::read_one`].
    const READS_ONE: bool = false;

    /// Reads one value straight from the front of the input, without a decoder. For a record, it takes two thirds of
    /// the time.
    ///
    /// `None` says nothing of the input, which may then begin anywhere: [`View::populate`] tells what is wrong with
    /// it.
    fn read_one(_alloc: Global, _input: &mut &[u8]) -> Option<T>
        ensures { IfSome result
            (λ t. ReadsValue T.data.makes Self.shape _input.old.now t _input.new.now) }
    {
        None
    }

    /// Whether lists of such values are to be read by [`Decoder::read_list`].
    const READS_LISTS: bool = false;

    /// Reads `count` values straight from the front of the input, as [`Decoder::read_one`] reads one.
    fn read_list(_alloc: Global, _input: &mut &[u8], _count: usize) -> Option<Vec<T>>
        ensures { IfSome result
            (λ items. ReadsValues T.data.makes Self.shape _count _input.old.now items.items
            _input.new.now) }
    {
        None
    }

    ghost same_shape: { Self.shape ≡ T.data.shape };
}
