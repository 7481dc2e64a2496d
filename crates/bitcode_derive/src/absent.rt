//! The coders of types without values, such as enums without variants: no columns.
ghost use Rattle.std.specs.Prelude.{◌<◌, true, false, refl, replicate};
ghost use Rattle.bitcode_shapes.specs.Datum.{unit};
ghost use Rattle.bitcode_shapes.specs.Shape.{never_shape};
ghost use Rattle.bitcode_coder.specs.Columns.{no_columns};
ghost use Rattle.bitcode_coder.specs.Coder.{endless_room};

use crate::derive::{DecodeOwned, HasDecoder, HasEncoder};
use bitcode_coder::coder::{
    Buffer, Decoder, EncodeMany, Encoder, HoldsColumns, HoldsData, NewDecoder, View, encode_parts,
};
use bitcode_coder::column_free::ColumnFree;
use bitcode_coder::part::Part;
use bitcode_memory::error::{Error, Reason};
use bitcode_memory::refuse::err;
use bitcode_shapes::no_variants::{Absent, NoVariants};
use std::alloc::Global;

/// The columns of a type without values: none. Nothing is ever written.
///
/// ```rust
/// let mut nothing: AbsentEncoder = AbsentEncoder::new(alloc);
/// assert!(rt; nothing.collect(alloc)?.is_empty());
/// ```
#[derive(Drop)]
pub struct AbsentEncoder {}

impl HoldsColumns for AbsentEncoder {
    ghost columns = { λ e. no_columns };

    ghost room = { λ e. endless_room };

    ghost capacity = { λ e. 0 };

    ghost surely_overflows = { λ e n. ⊥ };

    ghost overflows = { λ e n. ⊥ };

    ghost writes_free = { true };
}

impl Buffer for AbsentEncoder {
    fn new(_alloc: Global) -> Self {
        AbsentEncoder {}
    }

    fn reserve(&mut self, _n: usize) -> Result<(), Error> {
        Ok(())
    }

    fn collect_into(&mut self, _out: &mut Vec<u8>) -> Result<(), Error> {
        Ok(())
    }

    fn clear(&mut self) {}
}

impl<T: NoVariants> Encoder<Absent<T>> for AbsentEncoder {
    fn encode(&mut self, _t: &Absent<T>) -> Result<(), Error> {
        Ok(())
    }

    ghost of_shape = { λ e. refl };

    ghost surely = { λ e n h. absurd h };
}

impl<T: NoVariants> EncodeMany<Absent<T>> for AbsentEncoder {
    fn encode_part_of_each<S, W: Part<S, Absent<T>>>(
        &mut self,
        items: &[S],
        which: &W,
        _first: &Absent<T>,
    ) -> Result<(), Error> {
        encode_parts(self, items, which)
    }

    ghost of_shape = { λ e. refl };

    ghost surely = { λ e n h. absurd h };
}

/// The decoder of a type without values. Reading one or more values is the error `invalid enum variant`.
///
/// ```rust
/// let mut input: &[u8] = &[];
/// let mut nothing: AbsentDecoder = AbsentDecoder::new(alloc);
/// assert_eq!(rt; nothing.populate(&mut input, 1), err(Reason::InvalidEnumVariant));
/// ```
#[derive(Drop)]
pub struct AbsentDecoder {
    left: usize,
}

impl HoldsData for AbsentDecoder {
    ghost shape = { never_shape };

    ghost held = { λ d. replicate d.left unit };

    ghost owned = { λ d. 0 };

    ghost free_inside = { λ d. 0 };
}

impl NewDecoder for AbsentDecoder {
    fn new(_alloc: Global) -> Self {
        AbsentDecoder { left: 0 }
    }

    fn column_free(&self) -> ColumnFree {
        ColumnFree::entries()
    }
}

impl<'a> View<'a> for AbsentDecoder {
    fn read(&mut self, _input: &mut &'a [u8], k: usize, _strict: bool) -> Result<bool, Error> {
        self.left = k;
        if k > 0 {
            return err(Reason::InvalidEnumVariant);
        }
        Ok(true)
    }
}

impl<T: NoVariants> Decoder<Absent<T>> for AbsentDecoder {
    ghost makes_free = { false };

    // No reading leaves a value to make.
    fn decode(&mut self) -> Result<Absent<T>, Error> {
        err(Reason::OutOfMemory)
    }

    ghost same_shape = { refl };
}

impl<T> HasEncoder for Absent<T> {
    type Encoder = AbsentEncoder;
}

impl<'a, T> HasDecoder<'a> for Absent<T> {
    type Decoder = AbsentDecoder;
}

impl<T: 'static> DecodeOwned for Absent<T> {}
