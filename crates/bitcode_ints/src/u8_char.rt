//! Bytes of texts, and their encoder.
ghost use Rattle.std.specs.Prelude.{◌≡◌, ◌+◌, ◌≤◌, ◌++◌, length, map, true, refl};
ghost use Rattle.bitcode_memory.specs.Fast.{fast_items, fast_room, fast_capacity};
ghost use Rattle.bitcode_coder.specs.Columns.{raws, one};
ghost use Rattle.bitcode_ints.specs.U8Char.{raw_data};
ghost use Rattle.bitcode_coder.specs.Spelling.{natural};

use bitcode_coder::coder::{Buffer, EncodeMany, Encoder, HoldsColumns};
use bitcode_coder::part::{Itself, Part};
use bitcode_memory::error::Error;
use bitcode_memory::fast::{FastVec, PushUnchecked};
use bitcode_shapes::shaped::Shaped;
use std::alloc::Global;
use std::mem::replace;

/// A byte of a text.
///
/// It can only be encoded: its column is the unchanged bytes, which need not be UTF-8. A `Vec` of the bytes of a text
/// is encoded as the text would be.
#[derive(Clone, Copy)]
pub struct U8Char(pub u8);

impl Shaped for U8Char {
    ghost data = { raw_data (λ t. t.0) (λ n below. (record { 0 = n }, refl)) };

    fn told(&self) {
        let _byte = self.0;
    }
}

// Pushes the byte of a part of each item. The caller must have reserved the room. The list is passed by value and
// returned: through a reference, each push would load and store its length.
fn push_parts<S, W: Part<S, U8Char>>(items: &[S], which: &W, mut bytes: FastVec<u8>) -> FastVec<u8>
    requires { length items.now ≤ fast_room bytes }
    ensures written { fast_items result ≡ fast_items bytes ++ map (λ item. (W.of which.now item).0)
        items.now }
    ensures room { fast_room bytes ≤ fast_room result + length items.now }
{
    for item in items {
        bytes.push_unchecked(which.part(item).0);
    }
    bytes
}

/// The column that bytes of texts are written to.
///
/// ```
/// let mut column = U8CharEncoder::new(alloc);
/// column.reserve(1)?;
/// column.encode(&U8Char(255))?;
/// column.collect_into(&mut bytes)?; // [255]
/// ```
#[derive(Drop)]
pub struct U8CharEncoder {
    alloc: Global,
    bytes: FastVec<u8>,
}

impl HoldsColumns for U8CharEncoder {
    ghost columns = { λ e. one raws (map natural (fast_items e.bytes)) };

    ghost room = { λ e. fast_room e.bytes };

    ghost capacity = { λ e. fast_capacity e.bytes };

    ghost surely_overflows = { λ e n. ⊥ };

    ghost overflows = { λ e n. ⊥ };

    ghost writes_free = { true };
}

impl Buffer for U8CharEncoder {
    fn new(alloc: Global) -> Self {
        U8CharEncoder {
            alloc,
            bytes: FastVec::new(alloc),
        }
    }

    fn reserve(&mut self, n: usize) -> Result<(), Error> {
        self.bytes.reserve(n)
    }

    fn collect_into(&mut self, out: &mut Vec<u8>) -> Result<(), Error> {
        out.extend_from_slice(self.bytes.as_slice())?;
        self.bytes.clear();
        Ok(())
    }

    fn clear(&mut self) {
        self.bytes.clear();
    }
}

impl Encoder<U8Char> for U8CharEncoder {
    fn encode(&mut self, t: &U8Char) -> Result<(), Error> {
        self.bytes.push_unchecked(t.0);
        Ok(())
    }

    ghost of_shape = { λ e. refl };

    ghost surely = { λ e n never. absurd never };
}

impl EncodeMany<U8Char> for U8CharEncoder {
    fn is_primitive() -> bool {
        true
    }

    fn encode_slice(&mut self, items: &[U8Char]) -> Result<(), Error> {
        let bytes = replace(&mut self.bytes, FastVec::new(self.alloc));
        self.bytes = push_parts(items, &Itself, bytes);
        Ok(())
    }

    fn encode_part_of_each<S, W: Part<S, U8Char>>(
        &mut self,
        items: &[S],
        which: &W,
        _first: &U8Char,
    ) -> Result<(), Error> {
        let bytes = replace(&mut self.bytes, FastVec::new(self.alloc));
        self.bytes = push_parts(items, which, bytes);
        Ok(())
    }

    ghost of_shape = { λ e. refl };

    ghost surely = { λ e n never. absurd never };
}
