//! The coder of types without columns.
ghost use Rattle.std.specs.Prelude.{refl, true, replicate};
ghost use Rattle.bitcode_shapes.specs.Datum.{unit};
ghost use Rattle.bitcode_shapes.specs.Shape.{unit_shape};
ghost use Rattle.bitcode_coder.specs.Columns.{no_columns};
ghost use Rattle.bitcode_coder.specs.Coder.{endless_room};

use bitcode_coder::coder::{
    Buffer, Decoder, EncodeMany, Encoder, HoldsColumns, HoldsData, NewDecoder, View, encode_parts,
};
use bitcode_coder::column_free::ColumnFree;
use bitcode_coder::part::Part;
use bitcode_memory::error::Error;
use std::alloc::Global;

/// The encoder and decoder of types without data, such as `()`.
///
/// Their values have no bytes. So the encoder keeps nothing, and the decoder counts the remaining values. Neither
/// allocates.
#[derive(Drop)]
pub struct EmptyCoder {
    left: usize,
}

impl HoldsColumns for EmptyCoder {
    ghost columns = { λ e. no_columns };

    ghost room = { λ e. endless_room };

    ghost capacity = { λ e. 0 };

    ghost surely_overflows = { λ e n. ⊥ };

    ghost overflows = { λ e n. ⊥ };

    ghost writes_free = { true };
}

impl Buffer for EmptyCoder {
    fn new(alloc: Global) -> Self {
        NewDecoder::new(alloc)
    }

    fn reserve(&mut self, _n: usize) -> Result<(), Error> {
        Ok(())
    }

    fn collect_into(&mut self, _out: &mut Vec<u8>) -> Result<(), Error> {
        Ok(())
    }

    fn clear(&mut self) {}
}

impl Encoder<()> for EmptyCoder {
    fn encode(&mut self, _t: &()) -> Result<(), Error> {
        Ok(())
    }

    ghost of_shape = { λ e. refl };

    ghost surely = { λ e n h. absurd h };
}

impl EncodeMany<()> for EmptyCoder {
    fn encode_part_of_each<S, W: Part<S, ()>>(
        &mut self,
        items: &[S],
        which: &W,
        _first: &(),
    ) -> Result<(), Error> {
        encode_parts(self, items, which)
    }

    ghost of_shape = { λ e. refl };

    ghost surely = { λ e n h. absurd h };
}

impl HoldsData for EmptyCoder {
    ghost shape = { unit_shape };

    ghost held = { λ d. replicate d.left unit };

    ghost owned = { λ d. 0 };

    ghost free_inside = { λ d. 0 };
}

impl NewDecoder for EmptyCoder {
    fn new(_alloc: Global) -> Self {
        EmptyCoder { left: 0 }
    }

    fn column_free(&self) -> ColumnFree {
        ColumnFree {
            has_entry: false,
            inside: 0,
        }
    }
}

impl<'a> View<'a> for EmptyCoder {
    fn read(&mut self, _input: &mut &'a [u8], k: usize, _strict: bool) -> Result<bool, Error> {
        self.left = k;
        Ok(true)
    }
}

impl Decoder<()> for EmptyCoder {
    ghost makes_free = { true };

    fn decode(&mut self) -> Result<(), Error> {
        self.left -= 1;
        Ok(())
    }

    ghost same_shape = { refl };
}
