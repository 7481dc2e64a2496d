//! The decoder of texts with a fixed capacity.
ghost use Rattle.std.specs.Prelude.{◌≤◌, Some, true, refl, length, map, All};
ghost use Rattle.std.proofs.Props.{props};
ghost use Rattle.bitcode_memory.specs.Fast.{slice_rest};
ghost use Rattle.bitcode_shapes.specs.Datum.{text};
ghost use Rattle.bitcode_shapes.specs.Shape.{text_shape};
ghost use Rattle.bitcode_coder.specs.Cutting.{cut};
ghost use Rattle.bitcode_coder.specs.Length.{lengths_left, lengths_owned};

use crate::coder::{Decoder, HoldsData, NewDecoder, View};
use crate::column_free::ColumnFree;
use crate::str::StrDecoder;
use arrayvec::ArrayString;
use bitcode_memory::error::{Error, Reason};
use bitcode_memory::refuse::err;
use std::alloc::Global;

/// The column that texts of at most `N` bytes each are read from. Making a value does not allocate.
///
/// [`View::populate`] returns the errors of [`StrDecoder`], and `invalid ArrayString` for a valid column with a text
/// over `N` bytes. For `N` below 255 it looks at the bytes of the length column, so that a byte 255 there exceeds `N`,
/// whatever length it announces.
///
/// ```
/// let mut column: ArrayStringDecoder<2> = ArrayStringDecoder::new(alloc);
/// column.populate(&mut input, 2)?; // [2, 1, 97, 98, 99]
/// let first: ArrayString<2> = column.decode()?; // "ab"
/// let second: ArrayString<2> = column.decode()?; // "c"
/// ```
#[derive(Drop)]
pub struct ArrayStringDecoder<'a, const N: usize> {
    alloc: Global,
    column: StrDecoder<'a>,
    ghost within: { All (λ t. length t ≤ N)
        (cut (lengths_left column.lengths) (slice_rest column.bytes)) } by { Prim.hlevel props },
}

impl<'a, const N: usize> HoldsData for ArrayStringDecoder<'a, N> {
    ghost shape = { text_shape (Some N) };

    ghost held = { λ d. map text
        (cut (lengths_left d.column.lengths) (slice_rest d.column.bytes)) };

    ghost owned = { λ d. lengths_owned d.column.lengths };

    ghost free_inside = { λ d. 0 };
}

impl<'a, const N: usize> NewDecoder for ArrayStringDecoder<'a, N> {
    fn new(alloc: Global) -> Self {
        ArrayStringDecoder {
            alloc,
            column: StrDecoder::new(alloc),
        }
    }

    fn column_free(&self) -> ColumnFree {
        ColumnFree::entries()
    }
}

impl<'a, const N: usize> View<'a> for ArrayStringDecoder<'a, N> {
    fn read(&mut self, input: &mut &'a [u8], k: usize, strict: bool) -> Result<bool, Error> {
        let mut column = StrDecoder::new(self.alloc);
        let written = column.read_column(input, k, strict)?;
        if column.lengths.any_greater_than::<N>() {
            return err(Reason::InvalidArrayString);
        }
        self.column = column;
        Ok(written)
    }
}

impl<'a, const N: usize> Decoder<ArrayString<N>> for ArrayStringDecoder<'a, N> {
    ghost makes_free = { true };

    fn decode(&mut self) -> Result<ArrayString<N>, Error> {
        match ArrayString::from(self.column.take_text()) {
            Ok(text) => Ok(text),
            Err(_) => unreachable!(),
        }
    }

    // Written here, since the value's size depends on `N`, which the toolchain does not allow for the trait's own.
    const READS_ONE: bool = false;

    const READS_LISTS: bool = false;

    ghost same_shape = { refl };
}
