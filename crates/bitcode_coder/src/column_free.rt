//! Elements without columns, which occupy no bytes.
ghost use Rattle.std.specs.Prelude.{◌≡◌, ◌+◌, ◌*◌, true};
ghost use Rattle.bitcode_coder.specs.ColumnFree.{count_if_free, saturated};

/// What a decoder tells about elements without columns. They occupy no bytes, so the size of an input does not bound
/// their number.
#[derive(Clone, Copy, Debug, PartialEq, Eq)]
pub struct ColumnFree {
    /// Whether each of the decoder's data has an entry in some column. Otherwise none has.
    pub has_entry: bool,
    /// How many elements of lists, sets and arrays, and keys of maps, inside the data have no columns. If there are
    /// more than 2^128 - 1, it is 2^128 - 1.
    pub inside: u128,
}

impl ColumnFree {
    /// Of data that are entries of a column.
    ///
    /// ```rust
    /// use bitcode_coder::column_free::ColumnFree;
    ///
    /// let told = ColumnFree::entries(); // a `BoolDecoder` tells this
    /// assert!(rt; told.has_entry);
    /// ```
    pub fn entries() -> ColumnFree
        ensures { result ≡ record { has_entry = true; inside = 0 } }
    {
        ColumnFree {
            has_entry: true,
            inside: 0,
        }
    }

    /// How many elements without columns there are inside lists, if this is told of their elements, `total` in all.
    ///
    /// ```rust
    /// use bitcode_coder::column_free::ColumnFree;
    ///
    /// let units = ColumnFree { has_entry: false, inside: 0 };
    /// assert_eq!(rt; units.in_lists(7), 7);
    /// ```
    pub fn in_lists(self, total: usize) -> u128
        ensures { result ≡ saturated (count_if_free self.has_entry total + self.inside) }
    {
        let own = if self.has_entry { 0 } else { total as u128 };
        own.saturating_add(self.inside)
    }

    /// How many elements without columns there are inside `count` arrays of this `size`, if this is told of their
    /// elements.
    ///
    /// ```rust
    /// use bitcode_coder::column_free::ColumnFree;
    ///
    /// let units = ColumnFree { has_entry: false, inside: 0 };
    /// assert_eq!(rt; units.in_arrays(2, 3), 6);
    /// ```
    pub fn in_arrays(self, count: usize, size: usize) -> u128
        ensures { result ≡ saturated (count_if_free self.has_entry (count * size) + self.inside) }
    {
        let own = if self.has_entry {
            0
        } else {
            count as u128 * size as u128
        };
        own.saturating_add(self.inside)
    }
}
