//! Encoders of fields of a value, which borrow them from it.
ghost use Rattle.std.specs.Prelude.{◌≡◌, ◌≢◌, ℕ, ◌+◌, ◌<◌, ◌≤◌, Bool, [], length, map, min, ◌&&◌, ◌⊎◌, IsTrue, OnOk};
ghost use Rattle.std.specs.Prelude.{IfErr};
ghost use Rattle.bitcode_shapes.specs.Datum.{Datum};
ghost use Rattle.bitcode_shapes.specs.Shape.{Shape, pair_shape};
ghost use Rattle.bitcode_shapes.specs.Pairs.{ListsPair};
ghost use Rattle.bitcode_coder.specs.Columns.{Columns, emptied, two};
ghost use Rattle.bitcode_coder.specs.Coder.{written_columns, BeginsWith, JoinsListing, WritesListing};
ghost use Rattle.bitcode_coder.specs.Coder.{OverflowsWithListing, JoinsEach, OverflowsWithEach, SurelyOverflows};
ghost use Rattle.bitcode_coder.specs.Coder.{IsWritingRefusal};
ghost use Rattle.bitcode_tuples.specs.Pairs.{EachListed};
ghost use Rattle.bitcode_tuples.specs.PairLaws.{both_of_shape, both_surely};

use crate::encoder::TupleEncoder;
use crate::has_field::{FieldIn, HasField, Nothing, Nth};
use bitcode_coder::coder::{Buffer, EncodeMany, Encoder, HoldsColumns, MAX_VECTORED_CHUNK};
use bitcode_coder::one::write_one;
use bitcode_coder::part::Part;
use bitcode_memory::error::{Error, Reason};
use bitcode_shapes::shaped::Shaped;
use std::marker::PhantomData;

/// Some fields of each `T`, by their numbers: [`Nth`] names one field, a pair the fields of both, and `()` none.
///
/// It has no functions.
pub trait PartOf<T> {
    // the shape of these fields, in nested pairs
    ghost shape: { Shape };

    // their listings
    ghost lists: { T → Datum → Type 0 };
}

impl<const I: usize, T: HasField<I>> PartOf<T> for Nth<I> {
    ghost shape = { T.Field.data.shape };

    ghost lists = { λ t d. T.Field.data.lists (T.field t) d };
}

impl<T, K: PartOf<T>, L: PartOf<T>> PartOf<T> for (K, L) {
    ghost shape = { pair_shape K.shape L.shape };

    ghost lists = { λ t d. ListsPair K.lists L.lists (t, t) d };
}

impl<T> PartOf<T> for () {
    ghost shape = { ⟦<() as Shaped>⟧.data.shape };

    ghost lists = { λ t d. ⟦<() as Shaped>⟧.data.lists tt d };
}

/// Like `Encoder`, for the fields of each `T` that `K` names, which it borrows from the `T`. [`Nth`] has the encoder of
/// the field's type, and a pair the encoders of both parts.
pub trait PartEncoder<T, K: PartOf<T>>: HoldsColumns {
    /// Adds the part of `whole` to the columns, as `Encoder::encode` does. The part must have a listing, and the caller
    /// must have reserved room for it.
    ///
    /// Errors: those of `encode`.
    fn encode_part(&mut self, whole: &T) -> Result<(), Error>
        requires room { 0 < Self.room self.old }
        requires listed { (d : Datum) × K.lists whole.now d }
        ensures joined { OnOk result
            (JoinsListing K.lists K.shape whole.now (Self.columns self.old)
            (Self.columns self.new)) }
        ensures room { OnOk result (Self.room self.old ≤ Self.room self.new + 1) }
        ensures form { emptied (Self.columns self.new) ≡ emptied (Self.columns self.old) }
        ensures refused { IfErr result
            (λ e. IsWritingRefusal e.reason
            (OverflowsWithListing K.lists K.shape whole.now (Self.columns self.old))) }
        ensures free { IsTrue Self.writes_free
            → IfErr result (λ e. e.reason ≢ Reason.OutOfMemory) };

    /// Appends the columns of the part of `whole` to `out`, like `write_one`. The part must have a listing, and the
    /// encoder has no entries before and after.
    ///
    /// Errors: those of `encode`. `out` then begins with what it held.
    fn write_part(&mut self, whole: &T, out: &mut Vec<u8>) -> Result<(), Error>
        requires none { Self.columns self.old ≡ emptied (Self.columns self.old) }
        requires listed { (d : Datum) × K.lists whole.now d }
        ensures written { OnOk result
            (WritesListing K.lists K.shape whole.now (Self.columns self.old) out.old.items
            out.new.items) }
        ensures empty { OnOk result (Self.columns self.new ≡ emptied (Self.columns self.old)) }
        ensures begins { BeginsWith out.old.items out.new.items }
        ensures form { emptied (Self.columns self.new) ≡ emptied (Self.columns self.old) }
        ensures refused { IfErr result
            (λ e. IsWritingRefusal e.reason
            (OverflowsWithListing K.lists K.shape whole.now (Self.columns self.old))) };

    ghost of_shape: { (e : Self) → emptied (Self.columns e) ≡ written_columns K.shape [] };

    ghost surely: { (e : Self) (n : ℕ) → Self.surely_overflows e n
        → SurelyOverflows K.shape (Self.columns e) n };
}

/// Like `EncodeMany`, for the fields of each `T` that `K` names.
pub trait PartsEncoder<T, K: PartOf<T>>: HoldsColumns {
    /// Like `EncodeMany::encode_part_of_each`, for parts that have listings.
    ///
    /// Errors: those of `encode`. Some of the first parts may have been added by then.
    fn encode_part_in_each<S, W: Part<S, T>>(&mut self, items: &[S], which: &W) -> Result<(), Error>
        requires chunk { (0 < length items.now) × (length items.now ≤ MAX_VECTORED_CHUNK) }
        requires room { length items.now ≤ Self.room self.old }
        requires listed { EachListed K.lists (map (W.of which.now) items.now) }
        ensures joined { OnOk result
            (JoinsEach K.lists K.shape (map (W.of which.now) items.now) (Self.columns self.old)
            (Self.columns self.new)) }
        ensures room { OnOk result (Self.room self.old ≤ Self.room self.new + length items.now) }
        ensures form { emptied (Self.columns self.new) ≡ emptied (Self.columns self.old) }
        ensures refused { IfErr result
            (λ e. IsWritingRefusal e.reason
            (OverflowsWithEach K.lists K.shape (map (W.of which.now) items.now)
            (Self.columns self.old))) }
        ensures free { IsTrue Self.writes_free
            → IfErr result (λ e. e.reason ≢ Reason.OutOfMemory) };

    ghost of_shape: { (e : Self) → emptied (Self.columns e) ≡ written_columns K.shape [] };

    ghost surely: { (e : Self) (n : ℕ) → Self.surely_overflows e n
        → SurelyOverflows K.shape (Self.columns e) n };
}

impl<const I: usize, T: HasField<I>, E: Buffer + Encoder<T::Field>> PartEncoder<T, Nth<I>> for E {
    fn encode_part(&mut self, whole: &T) -> Result<(), Error> {
        self.encode(whole.field())
    }

    fn write_part(&mut self, whole: &T, out: &mut Vec<u8>) -> Result<(), Error> {
        write_one(self, whole.field(), out)
    }

    ghost of_shape = { E.of_shape };

    ghost surely = { E.surely };
}

impl<const I: usize, T: HasField<I>, E: EncodeMany<T::Field>> PartsEncoder<T, Nth<I>> for E {
    fn encode_part_in_each<S, W: Part<S, T>>(
        &mut self,
        items: &[S],
        which: &W,
    ) -> Result<(), Error> {
        let field = FieldIn::<I, W, T> {
            of: which,
            whose: PhantomData,
        };
        self.encode_part_of_each(items, &field, field.part(&items[0]))
    }

    ghost of_shape = { E.of_shape };

    ghost surely = { E.surely };
}

impl<T, K: PartOf<T>, L: PartOf<T>, A: PartEncoder<T, K>, B: PartEncoder<T, L>> PartEncoder<
    T,
    (K, L),
> for TupleEncoder<A, B> {
    fn encode_part(&mut self, whole: &T) -> Result<(), Error> {
        self.first.encode_part(whole)?;
        self.second.encode_part(whole)
    }

    fn write_part(&mut self, whole: &T, out: &mut Vec<u8>) -> Result<(), Error> {
        self.first.write_part(whole, out)?;
        self.second.write_part(whole, out)
    }

    ghost of_shape = { both_of_shape A.of_shape B.of_shape };

    ghost surely = { both_surely A.surely B.surely };
}

impl<T, K: PartOf<T>, L: PartOf<T>, A: PartsEncoder<T, K>, B: PartsEncoder<T, L>> PartsEncoder<
    T,
    (K, L),
> for TupleEncoder<A, B> {
    fn encode_part_in_each<S, W: Part<S, T>>(
        &mut self,
        items: &[S],
        which: &W,
    ) -> Result<(), Error> {
        self.first.encode_part_in_each(items, which)?;
        self.second.encode_part_in_each(items, which)
    }

    ghost of_shape = { both_of_shape A.of_shape B.of_shape };

    ghost surely = { both_surely A.surely B.surely };
}

impl<T, E: Buffer + Encoder<()>> PartEncoder<T, ()> for E {
    fn encode_part(&mut self, _whole: &T) -> Result<(), Error> {
        self.encode(&())
    }

    fn write_part(&mut self, _whole: &T, out: &mut Vec<u8>) -> Result<(), Error> {
        write_one(self, &(), out)
    }

    ghost of_shape = { E.of_shape };

    ghost surely = { E.surely };
}

impl<T, E: EncodeMany<()>> PartsEncoder<T, ()> for E {
    fn encode_part_in_each<S, W: Part<S, T>>(
        &mut self,
        items: &[S],
        _which: &W,
    ) -> Result<(), Error> {
        self.encode_part_of_each(items, &Nothing, &())
    }

    ghost of_shape = { E.of_shape };

    ghost surely = { E.surely };
}
