//! The maximal length of the slices in a chunk, which an encoder adapts from chunk to chunk.
ghost use Rattle.std.specs.Prelude.{◌≡◌, ◌≤◌, ◌<◌, IfSome};
ghost use Rattle.bitcode_coder.specs.ChunkWidth.{doubled_elements, elements_of, first_elements, widenings_left};

/// The maximal number of elements of a slice, for chunks whose lengths are written at once.
///
/// It starts at 8 bytes of elements. A chunk with a longer slice doubles it, up to 64 bytes. After a chunk with an even
/// longer slice, every length is written separately. Encoders keep it from call to call. It never changes the bytes.
#[derive(Clone, Copy)]
pub enum ChunkWidth {
    One,
    Two,
    Four,
    Eight,
    Sixteen,
    ThirtyTwo,
    SixtyFour,
    Fallback,
}

impl ChunkWidth {
    /// The width before the first slice, for elements of `size` bytes.
    ///
    /// ```
    /// let width = ChunkWidth::first(4); // of `u32`: two elements
    /// ```
    pub fn first(size: usize) -> ChunkWidth
        ensures { elements_of result ≡ first_elements size }
    {
        match size {
            0..2 => ChunkWidth::Eight,
            2 => ChunkWidth::Four,
            3..5 => ChunkWidth::Two,
            _ => ChunkWidth::One,
        }
    }

    /// The maximal number of elements of a slice, if there is one.
    pub fn elements(self) -> Option<usize>
        ensures exact { result ≡ elements_of self }
        ensures bounded { IfSome result (λ elements. elements ≤ 64) }
        ensures more { IfSome result (λ elements. 0 < widenings_left self) }
    {
        match self {
            ChunkWidth::One => Some(1),
            ChunkWidth::Two => Some(2),
            ChunkWidth::Four => Some(4),
            ChunkWidth::Eight => Some(8),
            ChunkWidth::Sixteen => Some(16),
            ChunkWidth::ThirtyTwo => Some(32),
            ChunkWidth::SixtyFour => Some(64),
            ChunkWidth::Fallback => None,
        }
    }

    /// Twice the width if its elements, of `size` bytes each, have at most 64 bytes together. Otherwise the fallback.
    pub fn doubled(self, size: usize) -> ChunkWidth
        ensures exact { elements_of result ≡ doubled_elements size (elements_of self) }
        ensures ends { 0 < widenings_left self → widenings_left result < widenings_left self }
    {
        match self {
            ChunkWidth::One if size <= 32 => ChunkWidth::Two,
            ChunkWidth::Two if size <= 16 => ChunkWidth::Four,
            ChunkWidth::Four if size <= 8 => ChunkWidth::Eight,
            ChunkWidth::Eight if size <= 4 => ChunkWidth::Sixteen,
            ChunkWidth::Sixteen if size <= 2 => ChunkWidth::ThirtyTwo,
            ChunkWidth::ThirtyTwo if size <= 1 => ChunkWidth::SixtyFour,
            _ => ChunkWidth::Fallback,
        }
    }
}
