//! The encoder of structs, and of tuples of three and more fields.
ghost use Rattle.std.specs.Prelude.{◌≡◌, map};
ghost use Rattle.bitcode_shapes.specs.Datum.{Datum};
ghost use Rattle.bitcode_shapes.specs.Shape.{IsOf};
ghost use Rattle.bitcode_coder.specs.Coder.{written_columns};
ghost use Rattle.bitcode_tuples.specs.FieldLaws.{SameListings, struct_of_shape, struct_surely};
ghost use Rattle.bitcode_tuples.specs.Pairs.{EachListed};

use crate::part_encoder::{PartEncoder, PartOf, PartsEncoder};
use bitcode_coder::coder::{Buffer, EncodeMany, Encoder, HoldsColumns};
use bitcode_coder::part::{Part, told_parts};
use bitcode_memory::error::Error;
use bitcode_shapes::shaped::Shaped;
use std::alloc::Global;

/// A value that is encoded field by field, with the fields in nested pairs.
///
/// It has no functions.
pub trait InFields: Shaped {
    /// The numbers of the fields, in nested pairs: `((Nth<0>, Nth<1>), (Nth<2>, (Nth<3>, Nth<4>)))`.
    type Numbers: PartOf<Self>;

    /// The tuple of the fields' types. It says nothing about the values: the toolchain accepts an impl for a type that
    /// owns memory only if it names the types of the fields.
    type Inside;

    // the columns are those of the fields
    ghost same_columns: { written_columns Self.Numbers.shape ≡ written_columns Self.data.shape };

    // and the data are data of the fields
    ghost of_fields: { (d : Datum) → IsOf Self.data.shape d → IsOf Self.Numbers.shape d };

    // the listings are those of the fields
    ghost same_listings: { (t : Self) → SameListings (Self.data.lists t) (Self.Numbers.lists t) };
}

/// The columns of structs, and of tuples of three and more fields, with the encoder `E` of their fields in nested
/// pairs.
///
/// It returns that encoder's errors, and allocates nothing itself.
#[derive(Drop)]
pub struct StructEncoder<E> {
    fields: E,
}

impl<E: HoldsColumns> HoldsColumns for StructEncoder<E> {
    ghost columns = { λ e. E.columns e.fields };

    ghost room = { λ e. E.room e.fields };

    ghost capacity = { λ e. E.capacity e.fields };

    ghost surely_overflows = { λ e n. E.surely_overflows e.fields n };

    ghost overflows = { λ e n. E.overflows e.fields n };

    ghost writes_free = { E.writes_free };
}

impl<E: Buffer> Buffer for StructEncoder<E> {
    fn new(alloc: Global) -> Self {
        StructEncoder {
            fields: E::new(alloc),
        }
    }

    fn reserve(&mut self, n: usize) -> Result<(), Error> {
        self.fields.reserve(n)
    }

    fn collect_into(&mut self, out: &mut Vec<u8>) -> Result<(), Error> {
        self.fields.collect_into(out)
    }

    fn clear(&mut self) {
        self.fields.clear();
    }
}

impl<T: InFields, E: PartEncoder<T, T::Numbers>> Encoder<T> for StructEncoder<E> {
    fn encode(&mut self, t: &T) -> Result<(), Error> {
        t.told();
        self.fields.encode_part(t)
    }

    fn write_directly(&mut self, t: &T, out: &mut Vec<u8>) -> Result<bool, Error> {
        t.told();
        self.fields.write_part(t, out)?;
        Ok(true)
    }

    ghost of_shape = { λ e. struct_of_shape T.Numbers.shape T.data.shape T.same_columns
        (E.columns e.fields) (E.of_shape e.fields) };

    ghost surely = { λ e n h. struct_surely T.Numbers.shape T.data.shape T.same_columns
        (E.columns e.fields) T.of_fields n (E.surely e.fields n h) };
}

impl<T: InFields, E: PartsEncoder<T, T::Numbers>> EncodeMany<T> for StructEncoder<E> {
    fn encode_part_of_each<S, W: Part<S, T>>(
        &mut self,
        items: &[S],
        which: &W,
        _first: &T,
    ) -> Result<(), Error> {
        listed_fields::<T, S, W>(items, which);
        self.fields.encode_part_in_each(items, which)
    }

    ghost of_shape = { λ e. struct_of_shape T.Numbers.shape T.data.shape T.same_columns
        (E.columns e.fields) (E.of_shape e.fields) };

    ghost surely = { λ e n h. struct_surely T.Numbers.shape T.data.shape T.same_columns
        (E.columns e.fields) T.of_fields n (E.surely e.fields n h) };
}

/// The fields of each item have a listing.
fn listed_fields<T: InFields, S, W: Part<S, T>>(items: &[S], which: &W)
    ensures { EachListed T.Numbers.lists (map (W.of which.now) items.now) }
{
    told_parts(items, which);
}
