//! Reading texts without a `Value`.
#![tactic(auto)]

ghost use Rattle.std.specs.Prelude.{◌≡◌, ◌≢◌, ◌≤◌, None, length, IfOk, OnOk, IfErr};
ghost use Rattle.bitcode_coder.specs.Columns.{texts};
ghost use Rattle.bitcode_shapes.specs.Datum.{text};
ghost use Rattle.bitcode_untyped.specs.Machine.{State};
ghost use Rattle.bitcode_serde.specs.Places.{places, place_at};
ghost use Rattle.bitcode_serde.specs.ReadColumns.{IsColumnReason};

use crate::column::ColumnKind;
use crate::reader::Reader;
use bitcode_memory::error::{Error, Reason};

impl<'a> Reader<'a> {
    ghost use Rattle.bitcode_serde.specs.Reading.{AreSized, IsAskedAs, Stands, NothingAt, Leads};

    /// Takes the next text of a place, borrowed from the input.
    ///
    /// Errors: those of [`Reader::take`].
    #[inline(always)]
    pub fn take_text(&mut self, place: usize) -> Result<&'a str, Error>
        requires place { place ≤ length self.old.places.below.items }
        requires sized { AreSized self.old.columns.items }
        ensures sized { OnOk result (AreSized self.new.columns.items) }
        ensures leads { IfOk result
            (λ words. Leads self.old (place_at (places self.old.places.below.items) place)
            (texts None) (text words.now) self.new) }
        ensures below { self.new.places.below ≡ self.old.places.below }
        ensures asked { IsAskedAs self.old self.new }
        ensures refused { IfErr result
            (λ e. IsColumnReason e.reason
            × (e.reason ≢ Reason.OutOfMemory → (a : State) → Stands self.old a
            → NothingAt a (place_at (places self.old.places.below.items) place) (texts None))) }
    {
        let i = self.ready(place, ColumnKind::Texts)?;
        let open = &mut self.columns[i];
        open.left -= 1;
        let words = open.column.take_text();
        Ok(words)
    }
}
