//! Columns in the order of their first entries, each at its place.
#![tactic(auto)]

ghost use Rattle.std.specs.Prelude.{◌≡◌, ◌≢◌, ◌≤◌, ◌<◌, ◌⊎◌, [], ◌∷◌, ◌++◌, false, take, map, length, All, slice_get};
ghost use Rattle.std.specs.Prelude.{IfOk, OnOk, IfErr, IfSome, IfNone, IsSomeAnd};
ghost use Rattle.std.specs.List.{AllByRecursion};
ghost use Rattle.bitcode_coder.specs.Columns.{ints};
ghost use Rattle.bitcode_coder.specs.Spelling.{natural, texts_of};
ghost use Rattle.bitcode_untyped.specs.Growing.{put, put_all};
ghost use Rattle.bitcode_untyped.specs.PlaceKinds.{HasKindFrom};
ghost use Rattle.bitcode_untyped.specs.PlacedColumns.{unplaced};
ghost use Rattle.bitcode_untyped.specs.ShapeTree.{ShapeTree};
ghost use Rattle.bitcode_untyped.specs.Walk.{use_at};
ghost use Rattle.bitcode_untyped.specs.View.{datum_of};
ghost use Rattle.bitcode_serde.specs.Leaves.{IsEntryIn, HasOther};
ghost use Rattle.bitcode_serde.specs.ReadColumns.{kind_of};
ghost use Rattle.bitcode_serde.specs.Places.{step_of, places};
ghost use Rattle.bitcode_serde.specs.WrittenColumns.{kind_of_entry, datum_of_entry};
ghost use Rattle.bitcode_serde.specs.Writing.{written, place_in, column_of, Grows, AreOfShape};

use crate::column::{ColumnKind, WrittenColumn};
use crate::places::Places;
use crate::step::Step;
use crate::write_column::Entry;
pub use crate::writer::state::{PlacedWritten, Writer};
use bitcode_memory::error::{Error, Reason};
use bitcode_untyped::value::Value;
use std::alloc::Global;
use std::slice::from_ref;

mod state;
mod texts;

// Writes columns behind `out`. They are scratch afterwards.
fn collect_columns(columns: &mut [PlacedWritten], out: &mut Vec<u8>) -> Result<(), Error>
    ensures written { OnOk result
        (out.new.items ≡ out.old.items ++ texts_of (map column_of columns.old)) }
    ensures refused { IfErr result (λ e. e.reason ≡ Reason.OutOfMemory) }
{
    for placed in columns.iter_mut() {
        placed.column.collect_into(out)?;
    }
    Ok(())
}

impl Writer {
    /// Starts at the root with nothing written, without allocating.
    pub fn new(alloc: Global) -> Self
        ensures empty { written result ≡ [] }
    {
        Writer {
            alloc,
            places: Places::new(alloc),
            columns: Vec::new(alloc),
        }
    }

    /// The number of the place one step below another.
    ///
    /// If an allocation fails, the error is `out of memory`.
    #[inline(always)]
    pub fn below(&mut self, place: usize, step: Step) -> Result<usize, Error>
        requires { place ≤ length self.old.places.below.items }
        ensures inside { IfOk result (λ n. n ≤ length self.new.places.below.items) }
        ensures place { IfOk result
            (λ n. place_in self.new n ≡ step_of step ∷ place_in self.old place) }
        ensures grows { OnOk result (Grows self.old self.new) }
        ensures written { OnOk result (written self.new ≡ written self.old) }
        ensures refused { IfErr result (λ e. e.reason ≡ Reason.OutOfMemory) }
    {
        self.places.below(place, step)
    }

    /// The number of the place one step below another, if just so many places were met between the two.
    #[inline(always)]
    pub fn near(&self, place: usize, step: Step, between: usize) -> Option<usize>
        ensures inside { IfSome result (λ n. n ≤ length self.now.places.below.items) }
        ensures place { IfSome result
            (λ n. place_in self.now n ≡ step_of step ∷ place_in self.now place) }
    {
        self.places.near(place, step, between)
    }

    // The column of a place, if it has one.
    #[inline(always)]
    fn column(&self, place: usize) -> Option<usize>
        ensures none { IfNone result (All (λ c. c.place ≢ place) self.now.columns.items) }
        ensures some { IfSome result
            (λ i. IsSomeAnd (slice_get self.now.columns.items i) (λ c. c.place ≡ place)) }
        ensures first { IfSome result
            (λ i. All (λ c. c.place ≢ place) (take i self.now.columns.items)) }
    {
        self.places.column(place)
    }

    // Adds the column of a place that has none.
    #[cold]
    #[inline(never)]
    fn add(&mut self, place: usize, column: WrittenColumn) -> Result<(), Error>
        requires place { place ≤ length self.old.places.below.items }
        requires fresh { All (λ c. c.place ≢ place) self.old.columns.items }
        ensures below { self.new.places.below ≡ self.old.places.below }
        ensures columns { OnOk result
            (self.new.columns.items ≡ self.old.columns.items ++ record
            { place = place; column = column } ∷ []) }
        ensures refused { IfErr result (λ e. e.reason ≡ Reason.OutOfMemory) }
    {
        self.places.make_room(place)?;
        self.columns.push(PlacedWritten { place, column })?;
        let last = self.columns.len() - 1;
        self.places.set_column(place, last);
        Ok(())
    }

    /// Writes an entry to the column of a place.
    ///
    /// If an allocation fails, the error is `out of memory`. If the column has other entries, it is
    /// `value is not of the shape`.
    #[inline(always)]
    pub fn put(&mut self, place: usize, next: Entry) -> Result<(), Error>
        requires { place ≤ length self.old.places.below.items }
        ensures below { OnOk result (self.new.places.below ≡ self.old.places.below) }
        ensures written { OnOk result
            (written self.new ≡ put
            (use_at (place_in self.old place) (kind_of_entry next)
            (datum_of_entry next)) (written self.old)) }
        ensures refused { IfErr result (λ e. (root : ShapeTree) → AreOfShape root (written self.old)
            → HasKindFrom root [] (place_in self.old place) (kind_of_entry next)
            → e.reason ≡ Reason.OutOfMemory) }
    {
        match self.column(place) {
            Some(i) => self.columns[i].column.push(next),
            None => self.put_first(place, next),
        }
    }

    // Writes an entry to the column of a place that has none.
    #[cold]
    #[inline(never)]
    fn put_first(&mut self, place: usize, next: Entry) -> Result<(), Error>
        requires place { place ≤ length self.old.places.below.items }
        requires fresh { All (λ c. c.place ≢ place) self.old.columns.items }
        ensures below { OnOk result (self.new.places.below ≡ self.old.places.below) }
        ensures written { OnOk result
            (written self.new ≡ put
            (use_at (place_in self.old place) (kind_of_entry next)
            (datum_of_entry next)) (written self.old)) }
        ensures refused { IfErr result (λ e. e.reason ≡ Reason.OutOfMemory) }
    {
        let mut column = WrittenColumn::of(next.kind(), self.alloc);
        column.push(next)?;
        self.add(place, column)
    }

    /// Writes a value of one case to the column of a place.
    ///
    /// Errors: those of [`Writer::put_each`].
    #[inline(always)]
    pub fn put_one(&mut self, place: usize, kind: ColumnKind, value: &Value) -> Result<(), Error>
        requires place { place ≤ length self.old.places.below.items }
        requires values { kind ≢ ColumnKind.Lengths }
        ensures below { OnOk result (self.new.places.below ≡ self.old.places.below) }
        ensures written { OnOk result
            (written self.new ≡ put_all
            (map (use_at (place_in self.old place) (kind_of kind)) (map datum_of (value.now ∷ [])))
            (written self.old)) }
        ensures entries { OnOk result (AllByRecursion (IsEntryIn kind) (value.now ∷ [])) }
        ensures refused { IfErr result (λ e. (root : ShapeTree) → AreOfShape root (written self.old)
            → HasKindFrom root [] (place_in self.old place) (kind_of kind)
            → (e.reason ≡ Reason.OutOfMemory)
            ⊎ ((e.reason ≡ Reason.NotOfTheShape) × HasOther kind (value.now ∷ []))) }
    {
        match self.column(place) {
            Some(i) => self.columns[i].column.push_one(kind, value),
            None => self.put_each(place, kind, from_ref(value)),
        }
    }

    /// Writes values of one case to the column of a place, one after another.
    ///
    /// Without values it starts no column. If an allocation fails, the error is `out of memory`. If a value has another
    /// case or the column has other entries, it is `value is not of the shape`.
    pub fn put_each(
        &mut self,
        place: usize,
        kind: ColumnKind,
        values: &[Value],
    ) -> Result<(), Error>
        requires place { place ≤ length self.old.places.below.items }
        requires values { kind ≢ ColumnKind.Lengths }
        ensures below { OnOk result (self.new.places.below ≡ self.old.places.below) }
        ensures written { OnOk result
            (written self.new ≡ put_all
            (map (use_at (place_in self.old place) (kind_of kind)) (map datum_of values.now))
            (written self.old)) }
        ensures entries { OnOk result (AllByRecursion (IsEntryIn kind) values.now) }
        ensures refused { IfErr result (λ e. (root : ShapeTree) → AreOfShape root (written self.old)
            → HasKindFrom root [] (place_in self.old place) (kind_of kind)
            → (e.reason ≡ Reason.OutOfMemory)
            ⊎ ((e.reason ≡ Reason.NotOfTheShape) × HasOther kind values.now)) }
    {
        match self.column(place) {
            Some(i) => self.columns[i].column.push_each(kind, values),
            None => self.put_first_each(place, kind, values),
        }
    }

    // Writes values of one case to the column of a place that has none. Without values it starts no column.
    #[cold]
    #[inline(never)]
    fn put_first_each(
        &mut self,
        place: usize,
        kind: ColumnKind,
        values: &[Value],
    ) -> Result<(), Error>
        requires place { place ≤ length self.old.places.below.items }
        requires values { kind ≢ ColumnKind.Lengths }
        requires fresh { All (λ c. c.place ≢ place) self.old.columns.items }
        ensures below { OnOk result (self.new.places.below ≡ self.old.places.below) }
        ensures written { OnOk result
            (written self.new ≡ put_all
            (map (use_at (place_in self.old place) (kind_of kind)) (map datum_of values.now))
            (written self.old)) }
        ensures entries { OnOk result (AllByRecursion (IsEntryIn kind) values.now) }
        ensures refused { IfErr result
            (λ e. (e.reason ≡ Reason.OutOfMemory)
            ⊎ ((e.reason ≡ Reason.NotOfTheShape) × HasOther kind values.now)) }
    {
        if values.is_empty() {
            return Ok(());
        }
        let mut column = WrittenColumn::of(kind, self.alloc);
        column.push_each(kind, values)?;
        self.add(place, column)
    }

    /// Writes bytes to the column of a place, by one copy.
    ///
    /// Without bytes it starts no column. If an allocation fails, the error is `out of memory`. If the column has other
    /// entries, it is `value is not of the shape`.
    pub fn put_bytes(&mut self, place: usize, bytes: &[u8]) -> Result<(), Error>
        requires { place ≤ length self.old.places.below.items }
        ensures below { OnOk result (self.new.places.below ≡ self.old.places.below) }
        ensures written { OnOk result
            (written self.new ≡ put_all
            (map (use_at (place_in self.old place) (ints 1 false)) (map natural bytes.now))
            (written self.old)) }
        ensures refused { IfErr result (λ e. (root : ShapeTree) → AreOfShape root (written self.old)
            → HasKindFrom root [] (place_in self.old place) (ints 1 false)
            → e.reason ≡ Reason.OutOfMemory) }
    {
        match self.column(place) {
            Some(i) => self.columns[i].column.extend_bytes(bytes),
            None => {
                if bytes.is_empty() {
                    return Ok(());
                }
                let mut column = WrittenColumn::of(ColumnKind::Bytes, self.alloc);
                column.extend_bytes(bytes)?;
                self.add(place, column)
            }
        }
    }

    /// Returns the bytes of all columns, in the order of their first entries.
    ///
    /// If an allocation fails, the error is `out of memory`.
    pub fn collect(self) -> Result<Vec<u8>, Error>
        ensures text { IfOk result (λ bytes. bytes.items ≡ texts_of (unplaced (written self))) }
        ensures refused { IfErr result (λ e. e.reason ≡ Reason.OutOfMemory) }
    {
        let mut bytes = Vec::new(self.alloc);
        let mut columns = self.columns;
        collect_columns(&mut columns, &mut bytes)?;
        Ok(bytes)
    }
}
