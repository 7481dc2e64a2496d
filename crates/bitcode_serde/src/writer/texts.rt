//! Writing texts without a `Value`.
#![tactic(auto)]

ghost use Rattle.std.specs.Prelude.{◌≡◌, ◌≢◌, ◌≤◌, [], None, length, All, OnOk, IfErr};
ghost use Rattle.bitcode_coder.specs.Columns.{texts};
ghost use Rattle.bitcode_shapes.specs.Datum.{text};
ghost use Rattle.bitcode_untyped.specs.Growing.{put};
ghost use Rattle.bitcode_untyped.specs.PlaceKinds.{HasKindFrom};
ghost use Rattle.bitcode_untyped.specs.ShapeTree.{ShapeTree};
ghost use Rattle.bitcode_untyped.specs.Walk.{use_at};
ghost use Rattle.bitcode_serde.specs.Writing.{written, place_in, AreOfShape};

use crate::column::{ColumnKind, WrittenColumn};
use crate::writer::state::Writer;
use bitcode_memory::error::{Error, Reason};

impl Writer {
    /// Writes a text to the column of a place.
    ///
    /// If an allocation fails, the error is `out of memory`. If the column has other entries, it is
    /// `value is not of the shape`.
    #[inline(always)]
    pub fn put_text(&mut self, place: usize, words: &str) -> Result<(), Error>
        requires { place ≤ length self.old.places.below.items }
        ensures below { OnOk result (self.new.places.below ≡ self.old.places.below) }
        ensures written { OnOk result
            (written self.new ≡ put
            (use_at (place_in self.old place) (texts None) (text words.now)) (written self.old)) }
        ensures refused { IfErr result (λ e. (root : ShapeTree) → AreOfShape root (written self.old)
            → HasKindFrom root [] (place_in self.old place) (texts None)
            → e.reason ≡ Reason.OutOfMemory) }
    {
        match self.column(place) {
            Some(i) => self.columns[i].column.push_text(words),
            None => self.put_first_text(place, words),
        }
    }

    // Writes a text to the column of a place that has none.
    #[cold]
    #[inline(never)]
    fn put_first_text(&mut self, place: usize, words: &str) -> Result<(), Error>
        requires place { place ≤ length self.old.places.below.items }
        requires fresh { All (λ c. c.place ≢ place) self.old.columns.items }
        ensures below { OnOk result (self.new.places.below ≡ self.old.places.below) }
        ensures written { OnOk result
            (written self.new ≡ put
            (use_at (place_in self.old place) (texts None) (text words.now)) (written self.old)) }
        ensures refused { IfErr result (λ e. e.reason ≡ Reason.OutOfMemory) }
    {
        let mut column = WrittenColumn::of(ColumnKind::Texts, self.alloc);
        column.push_text(words)?;
        self.add(place, column)
    }
}
