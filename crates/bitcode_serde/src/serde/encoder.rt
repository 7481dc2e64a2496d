//! The encoder of variant indices.
#![tactic(auto, unfolding(crate::specs::Indices::written_indices, crate::specs::Indices::index_room, crate::specs::Indices::index_capacity))]

ghost use Rattle.std.specs.Prelude.{false, true, map, refl};
ghost use Rattle.bitcode_coder.specs.Columns.{ints, one};
ghost use Rattle.bitcode_coder.specs.Spelling.{natural};

use bitcode_coder::coder::{Buffer, EncodeMany, Encoder, HoldsColumns, encode_parts};
use bitcode_coder::part::Part;
use bitcode_int_columns::column_int::ColumnInt;
use bitcode_memory::error::Error;
use bitcode_memory::fast::{FastVec, PushUnchecked};
use std::alloc::Global;

/// The column to which variant indices are written, for any number of variants: a column of bytes.
///
/// ```rust
/// use bitcode::serde::VariantEncoder;
///
/// let mut indices = VariantEncoder::new(alloc);
/// indices.reserve(3)?;
/// indices.encode(&2)?;
/// indices.encode(&0)?;
/// indices.encode(&2)?;
/// assert_eq!(rt; indices.collect(alloc)?.as_slice(), [8, 20].as_slice()); // the tag of base 3, and the digits 2, 0 and 2
/// ```
#[derive(Drop)]
pub struct VariantEncoder {
    alloc: Global,
    indices: FastVec<u8>,
}

impl HoldsColumns for VariantEncoder {
    ghost use Rattle.bitcode_serde.specs.Indices.{written_indices, index_room, index_capacity};

    ghost columns = { λ e. one (ints 1 false) (map natural (written_indices e)) };

    ghost room = { index_room };

    ghost capacity = { index_capacity };

    ghost surely_overflows = { λ e n. ⊥ };

    ghost overflows = { λ e n. ⊥ };

    ghost writes_free = { true };
}

impl Buffer for VariantEncoder {
    fn new(alloc: Global) -> Self {
        VariantEncoder {
            alloc,
            indices: FastVec::new(alloc),
        }
    }

    fn reserve(&mut self, n: usize) -> Result<(), Error> {
        self.indices.reserve(n)
    }

    fn collect_into(&mut self, out: &mut Vec<u8>) -> Result<(), Error> {
        u8::pack(self.alloc, self.indices.as_mut_slice(), out)?;
        self.indices.clear();
        Ok(())
    }

    fn clear(&mut self) {
        self.indices.clear();
    }
}

impl Encoder<u8> for VariantEncoder {
    fn encode(&mut self, t: &u8) -> Result<(), Error> {
        self.indices.push_unchecked(*t);
        Ok(())
    }

    ghost of_shape = { λ e. refl };

    ghost surely = { λ e n never. absurd never };
}

impl EncodeMany<u8> for VariantEncoder {
    fn encode_part_of_each<S, W: Part<S, u8>>(
        &mut self,
        items: &[S],
        which: &W,
        _first: &u8,
    ) -> Result<(), Error> {
        encode_parts(self, items, which)
    }

    ghost of_shape = { λ e. refl };

    ghost surely = { λ e n never. absurd never };
}
