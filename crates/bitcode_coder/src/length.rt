//! Lengths as the entries of a column.
ghost use Rattle.std.specs.Prelude.{◌≡◌, ℕ, length};

pub use crate::length::decoder::LengthDecoder;
pub use crate::length::encoder::LengthEncoder;
pub use crate::length::width::ChunkWidth;

mod decoder;
mod encoder;
mod width;

// The byte that announces a length of 255 or more.
pub(crate) const ESCAPE: u8 = 255;

/// A value with a length.
pub trait Len {
    ghost size: { Self → ℕ };

    /// The number of elements.
    fn len(&self) -> usize
        ensures { result ≡ size self.now };
}

impl<T> Len for &[T] {
    ghost size = { λ slice. length slice.now };

    fn len(&self) -> usize {
        <[T]>::len(*self)
    }
}

impl<T> Len for Vec<T> {
    ghost size = { λ vec. length vec.items };

    fn len(&self) -> usize {
        self.as_slice().len()
    }
}
