//! The decoder of structs whose constructor checks their fields.
ghost use Rattle.std.specs.Prelude.{◌≡◌, Bool, true, false, length, All, IsTrue, MatchBool, MatchOption};
ghost use Rattle.std.proofs.Common.{◌∙◌, ap, sym};
ghost use Rattle.bitcode_shapes.specs.Datum.{Datum};
ghost use Rattle.bitcode_shapes.specs.Shape.{admitted_shape};
ghost use Rattle.bitcode_structs.specs.CheckedFields.{admitted_front};

use bitcode_coder::coder::{Decoder, HoldsData, NewDecoder, View};
use bitcode_coder::column_free::ColumnFree;
use bitcode_memory::error::{Error, Reason};
use bitcode_memory::refuse::err;
use bitcode_shapes::shaped::Shaped;
use std::alloc::Global;
use std::marker::PhantomData;

/// A struct whose constructor takes the tuple `P` of its fields, or refuses them. `D` is the decoder of the fields.
///
/// What the constructor refuses is no datum of the struct, so bytes that spell it are refused.
///
/// ```text
/// impl<'a> FromChecked<u8, <u8 as HasDecoder<'a>>::Decoder> for Percent {
///     ghost parts = { λ t. t.hundredths };
///
///     ghost takes = { λ n. leb n 100 };
///
///     ghost admits = { admits natural_back (λ n. leb n 100) };
///
///     fn from_checked(fields: u8) -> Option<Self> {
///         Percent::new(fields)
///     }
///     ..
/// }
/// ```
pub trait FromChecked<P: Shaped, D: Decoder<P>>: Shaped {
    // the fields of a value
    ghost parts: { Self → P };

    // whether the constructor takes fields
    ghost takes: { P → Bool };

    // the same of the datum of fields
    ghost admits: { Datum → Bool };

    /// Makes the struct from its fields, if its constructor takes them.
    fn from_checked(fields: P) -> Option<Self>
        ensures { MatchOption result (takes fields ≡ false)
            (λ t. (takes fields ≡ true) × (Self.parts t ≡ fields)) };

    ghost same_shape: { Self.data.shape ≡ admitted_shape admits P.data.shape };

    ghost made: { (t : Self) (d : Datum) → P.data.makes d (Self.parts t) → Self.data.makes d t };

    ghost admitted: { (p : P) (d : Datum) → P.data.is_value p → P.data.makes d p
        → Self.admits d ≡ Self.takes p };

    // asking the constructor takes no memory
    ghost free: { IsTrue D.makes_free };
}

/// The data of structs whose constructor checks their fields, with the decoder `D` of the tuple `P` of the fields.
///
/// It reads the fields twice: once to keep them, and once to ask the constructor about each value. If it refuses one,
/// the error is `invalid bit pattern`. Other errors are those of the decoder of the fields.
///
/// ```text
/// impl<'a> HasDecoder<'a> for Percent {
///     type Decoder = CheckedDecoder<Percent, u8, <u8 as HasDecoder<'a>>::Decoder>;
/// }
/// ```
#[derive(Drop)]
pub struct CheckedDecoder<T, P, D> {
    alloc: Global,
    fields: D,
    of: PhantomData<P>,
    makes: PhantomData<T>,
}

// Whether the constructor takes the fields of each datum, all of which it decodes.
fn are_taken<T: FromChecked<P, D> + Drop, P: Shaped + Drop, D: Decoder<P>>(
    decoder: &mut D,
    count: usize,
) -> bool
    requires { length (D.held decoder.old) ≡ count }
    ensures { MatchBool result (All (λ d. T.admits d ≡ true) (D.held decoder.old))
        (All (λ d. T.admits d ≡ true) (D.held decoder.old) → ⊥) }
{
    for _i in 0..count {
        let fields = decoder.decode().unwrap();
        fields.told();
        if T::from_checked(fields).is_none() {
            return false;
        }
    }
    true
}

impl<T: FromChecked<P, D> + Drop, P: Shaped + Drop, D: Decoder<P>> HoldsData
    for CheckedDecoder<T, P, D> {
    ghost shape = { admitted_shape T.admits D.shape };

    ghost held = { λ d. admitted_front T.admits (D.held d.fields) };

    ghost owned = { λ d. D.owned d.fields };

    ghost free_inside = { λ d. D.free_inside d.fields };
}

impl<T: FromChecked<P, D> + Drop, P: Shaped + Drop, D: NewDecoder + Decoder<P>> NewDecoder
    for CheckedDecoder<T, P, D> {
    fn new(alloc: Global) -> Self {
        CheckedDecoder {
            alloc,
            fields: D::new(alloc),
            of: PhantomData,
            makes: PhantomData,
        }
    }

    fn column_free(&self) -> ColumnFree {
        self.fields.column_free()
    }
}

impl<
    'a,
    T: FromChecked<P, D> + Drop,
    P: Shaped + Drop,
    D: NewDecoder + View<'a> + Decoder<P> + Drop,
> View<'a> for CheckedDecoder<T, P, D> {
    fn read(&mut self, input: &mut &'a [u8], k: usize, strict: bool) -> Result<bool, Error> {
        let mut start = *input;
        let written = self.fields.read(input, k, strict)?;
        let mut again = D::new(self.alloc);
        again.read(&mut start, k, false)?;
        if !are_taken::<T, P, D>(&mut again, k) {
            return err(Reason::InvalidBitPattern);
        }
        Ok(written)
    }
}

impl<T: FromChecked<P, D> + Drop, P: Shaped + Drop, D: Decoder<P>> Decoder<T>
    for CheckedDecoder<T, P, D> {
    ghost makes_free = { D.makes_free };

    fn decode(&mut self) -> Result<T, Error> {
        let fields = self.fields.decode()?;
        fields.told();
        Ok(T::from_checked(fields).unwrap())
    }

    ghost same_shape = { ap (admitted_shape T.admits) D.same_shape ∙ sym T.same_shape };
}
