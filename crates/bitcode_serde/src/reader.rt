//! Columns in the order in which they are first reached, each at its place.
ghost use Rattle.std.specs.Prelude.{◌≡◌, ◌≢◌, ◌<◌, ◌≤◌, ℕ, [], ◌∷◌, false, take, length, map, All, slice_get, get_or};
ghost use Rattle.std.specs.Prelude.{IfOk, OnOk, IfErr, IfSome, IfNone, IsSomeAnd, MatchBool};
ghost use Rattle.std.specs.List.{AllByRecursion};
ghost use Rattle.bitcode_coder.specs.Spelling.{natural};
ghost use Rattle.bitcode_coder.specs.Columns.{ints};
ghost use Rattle.bitcode_untyped.specs.Population.{total, count_of};
ghost use Rattle.bitcode_untyped.specs.Machine.{State, start, whole};
ghost use Rattle.bitcode_untyped.specs.View.{datum_of};
ghost use Rattle.bitcode_untyped.specs.Walk.{Place, length_kind, index_kind};
ghost use Rattle.bitcode_serde.specs.ReadColumns.{kind_of, IsCaseOf, IsColumnReason};
ghost use Rattle.std.proofs.Props.{props};
ghost use Rattle.bitcode_serde.specs.Links.{AreFiled};
ghost use Rattle.bitcode_serde.specs.Places.{step_of, IsPlace, places, place_at};

use crate::column::{Column, ColumnKind};
use crate::places::Places;
use crate::step::Step;
use bitcode_coder::coder::both;
use bitcode_memory::error::{Error, Reason};
use bitcode_memory::refuse::err;
use bitcode_untyped::value::Value;
use std::alloc::Global;

mod texts;

/// An open column, the number of its place, and the number of its remaining entries.
#[derive(Drop)]
pub struct OpenColumn<'a> {
    place: usize,
    left: usize,
    column: Column<'a>,
}

/// Whether to compare the bytes of the columns with those that would be written, and the result so far.
#[derive(Clone, Copy)]
pub struct Verdict<'a> {
    // all of the input
    bytes: &'a [u8],
    // whether it is asked if each column stands in the bytes that are written for its entries
    strict: bool,
    // whether each one so far does
    written: bool,
}

/// The columns so far, the bytes after them, the places that were reached, and the number of data below the root at
/// each place.
#[derive(Drop)]
pub struct Reader<'a> {
    alloc: Global,
    input: &'a [u8],
    places: Places,
    counts: Vec<usize>,
    columns: Vec<OpenColumn<'a>>,
    verdict: Verdict<'a>,

    ghost counted: { length places.below.items ≤ length counts.items },
    ghost filed: { AreFiled places.links.items (map (λ c. c.place) columns.items) } by { Prim.hlevel
        props },
}

/// A length that was taken, and the sum of all lengths in its column.
#[derive(Clone, Copy)]
pub struct Length {
    pub length: usize,
    pub total: usize,
}

/// An index that was taken, and the number of equal indices in its column.
#[derive(Clone, Copy)]
pub struct Index {
    pub index: u8,
    pub count: usize,
}

// Makes room for the count of one more place than so many.
fn make_room(counts: &mut Vec<usize>, places: usize) -> Result<(), Error>
    requires { places ≤ length counts.old.items }
    ensures same { (i : ℕ) → i < length counts.old.items
        → get_or counts.new.items i 0 ≡ get_or counts.old.items i 0 }
    ensures longer { length counts.old.items ≤ length counts.new.items }
    ensures room { OnOk result (places < length counts.new.items) }
    ensures refused { IfErr result (λ e. e.reason ≡ Reason.OutOfMemory) }
{
    if counts.len() == places {
        counts.push(0)?;
    }
    Ok(())
}

impl<'a> Reader<'a> {
    ghost use Rattle.bitcode_serde.specs.Reading.{Hosts, counts, AreSized, IsAskedAs, Stands, IsReady, Prepares};
    ghost use Rattle.bitcode_serde.specs.Reading.{NothingAt, NotSoMany, Leads, LeadsEach, LeadsTelling, AddsLed};
    ghost use Rattle.bitcode_serde.specs.ReadingValues.{IsSteady, Continues, field_at};

    /// Starts before the bytes, without open columns and without allocating. If `strict`, the reader determines whether
    /// the columns have the bytes that would be written for their entries.
    pub fn new(alloc: Global, bytes: &'a [u8], strict: bool) -> Self
        ensures stands { Stands result (start bytes.now) }
        ensures strict { result.verdict.strict ≡ strict }
        ensures bytes { result.verdict.bytes.now ≡ bytes.now }
        ensures sized { AreSized result.columns.items }
    {
        Reader {
            alloc,
            input: bytes,
            places: Places::new(alloc),
            counts: Vec::new(alloc),
            columns: Vec::new(alloc),
            verdict: Verdict {
                bytes,
                strict,
                written: true,
            },
        }
    }

    /// Whether each column so far has the bytes that would be written for its entries, if the reader is strict.
    pub fn is_written(&self) -> bool
        ensures { result ≡ self.now.verdict.written }
    {
        self.verdict.written
    }

    /// Whether no byte is left after the columns that were opened.
    pub fn is_at_end(&self) -> bool
        ensures { MatchBool result ((a : State) → Stands self.now a → a.rest ≡ [])
            ((a : State) → Stands self.now a → a.rest ≢ []) }
    {
        self.input.is_empty()
    }

    // The column of a place, if it is open.
    #[inline(always)]
    fn column(&self, place: usize) -> Option<usize>
        ensures none { IfNone result (All (λ c. c.place ≢ place) self.now.columns.items) }
        ensures some { IfSome result
            (λ i. IsSomeAnd (slice_get self.now.columns.items i) (λ c. c.place ≡ place)) }
        ensures first { IfSome result
            (λ i. All (λ c. c.place ≢ place) (take i self.now.columns.items)) }
    {
        self.places.column(place)
    }

    // How many data stand at a place.
    #[inline(always)]
    fn count_at(&self, place: usize) -> usize
        requires { place ≤ length self.now.places.below.items }
        ensures { result ≡ get_or (counts self.now) place 0 }
    {
        if place == 0 {
            1
        } else {
            self.counts[place - 1]
        }
    }

    // Opens the column of a place, unless it is open, and finds it. An entry is left.
    #[inline(always)]
    fn ready(&mut self, place: usize, kind: ColumnKind) -> Result<usize, Error>
        requires place { place ≤ length self.old.places.below.items }
        requires sized { AreSized self.old.columns.items }
        ensures sized { OnOk result (AreSized self.new.columns.items) }
        ensures found { IfOk result (λ i. IsReady self.new.columns.items place (kind_of kind) i) }
        ensures below { self.new.places.below ≡ self.old.places.below }
        ensures asked { IsAskedAs self.old self.new }
        ensures prepared { OnOk result
            ((a : State) → Stands self.old a → (m : State) × Stands self.new m
            × Prepares a (place_at (places self.old.places.below.items) place) (kind_of kind) m) }
        ensures refused { IfErr result
            (λ e. IsColumnReason e.reason
            × (e.reason ≢ Reason.OutOfMemory → (a : State) → Stands self.old a
            → NothingAt a (place_at (places self.old.places.below.items) place) (kind_of kind))) }
    {
        match self.column(place) {
            Some(i) => {
                let open = &self.columns[i];
                if !open.column.kind().is(kind) {
                    return err(Reason::Eof);
                }
                if open.left == 0 {
                    return err(Reason::Eof);
                }
                Ok(i)
            }
            None => self.open(place, kind),
        }
    }

    // Opens the column of a place that has none.
    #[cold]
    #[inline(never)]
    fn open(&mut self, place: usize, kind: ColumnKind) -> Result<usize, Error>
        requires place { place ≤ length self.old.places.below.items }
        requires closed { All (λ c. c.place ≢ place) self.old.columns.items }
        requires sized { AreSized self.old.columns.items }
        ensures sized { OnOk result (AreSized self.new.columns.items) }
        ensures found { IfOk result (λ i. IsReady self.new.columns.items place (kind_of kind) i) }
        ensures below { self.new.places.below ≡ self.old.places.below }
        ensures asked { IsAskedAs self.old self.new }
        ensures prepared { OnOk result
            ((a : State) → Stands self.old a → (m : State) × Stands self.new m
            × Prepares a (place_at (places self.old.places.below.items) place) (kind_of kind) m) }
        ensures refused { IfErr result
            (λ e. IsColumnReason e.reason
            × (e.reason ≢ Reason.OutOfMemory → (a : State) → Stands self.old a
            → NothingAt a (place_at (places self.old.places.below.items) place) (kind_of kind))) }
    {
        let count = self.count_at(place);
        if count == 0 {
            return err(Reason::Eof);
        }
        self.places.make_room(place)?;
        let strict = self.verdict.strict;
        let read = Column::open(kind, self.alloc, &mut self.input, count, strict)?;
        self.columns.push(OpenColumn {
            place,
            left: count,
            column: read.0,
        })?;
        self.verdict.written = both(self.verdict.written, read.1);
        let last = self.columns.len() - 1;
        self.places.set_column(place, last);
        Ok(last)
    }

    /// The number of the place one step below another, with the number of data at it.
    ///
    /// If an allocation fails, the error is `out of memory`.
    #[inline(always)]
    pub fn step(&mut self, above: usize, step: Step, count: usize) -> Result<usize, Error>
        requires { above ≤ length self.old.places.below.items }
        ensures found { IfOk result
            (λ i. IsPlace self.new.places.below.items i
            (step_of step ∷ place_at (places self.old.places.below.items) above)) }
        ensures kept { OnOk result
            ((i : ℕ) (p : Place) → IsPlace self.old.places.below.items i p
            → IsPlace self.new.places.below.items i p) }
        ensures stands { OnOk result
            ((a : State) → Stands self.old a
            → Hosts (map whole a.opened)
            (step_of step ∷ place_at (places self.old.places.below.items) above) count
            → Stands self.new a) }
        ensures columns { self.new.columns ≡ self.old.columns }
        ensures asked { IsAskedAs self.old self.new }
        ensures refused { IfErr result (λ e. e.reason ≡ Reason.OutOfMemory) }
    {
        if let Some(place) = self.places.near(above, step, 0) {
            return Ok(place);
        }
        match self.places.met(above, step, step.position()) {
            Some(place) => Ok(place),
            None => self.meet(above, step, count),
        }
    }

    // The number of the place one step below another, which may be a new one, and at which so many data stand.
    #[cold]
    #[inline(never)]
    fn meet(&mut self, above: usize, step: Step, count: usize) -> Result<usize, Error>
        requires { above ≤ length self.old.places.below.items }
        ensures found { IfOk result
            (λ i. IsPlace self.new.places.below.items i
            (step_of step ∷ place_at (places self.old.places.below.items) above)) }
        ensures kept { OnOk result
            ((i : ℕ) (p : Place) → IsPlace self.old.places.below.items i p
            → IsPlace self.new.places.below.items i p) }
        ensures stands { OnOk result
            ((a : State) → Stands self.old a
            → Hosts (map whole a.opened)
            (step_of step ∷ place_at (places self.old.places.below.items) above) count
            → Stands self.new a) }
        ensures columns { self.new.columns ≡ self.old.columns }
        ensures asked { IsAskedAs self.old self.new }
        ensures refused { IfErr result (λ e. e.reason ≡ Reason.OutOfMemory) }
    {
        make_room(&mut self.counts, self.places.len())?;
        let place = self.places.below(above, step)?;
        self.counts[place - 1] = count;
        Ok(place)
    }

    /// The number of the place of field `i` of a tuple with `fields` fields. The field of a one-field tuple has the
    /// tuple's place. Others are looked for at a position among the tuple's fields that were met.
    ///
    /// If an allocation fails, the error is `out of memory`.
    #[inline(always)]
    pub fn field(
        &mut self,
        place: usize,
        i: usize,
        fields: usize,
        position: usize,
    ) -> Result<usize, Error>
        requires place { place ≤ length self.old.places.below.items }
        requires steady { IsSteady self.old }
        ensures continues { OnOk result (Continues self.old self.new) }
        ensures found { IfOk result
            (λ inside. (p : Place) → IsPlace self.old.places.below.items place p
            → IsPlace self.new.places.below.items inside (field_at fields p i)) }
        ensures stands { OnOk result ((a : State) → Stands self.old a → Stands self.new a) }
        ensures refused { IfErr result (λ e. e.reason ≡ Reason.OutOfMemory) }
    {
        if fields == 1 {
            return Ok(place);
        }
        if let Some(inside) = self.places.near(place, Step::Field(i), i) {
            return Ok(inside);
        }
        match self.places.met(place, Step::Field(i), position) {
            Some(inside) => Ok(inside),
            None => self.meet_field(place, i),
        }
    }

    // The number of the place of field `i` of a tuple with several fields, which may be a new one.
    #[cold]
    #[inline(never)]
    fn meet_field(&mut self, place: usize, i: usize) -> Result<usize, Error>
        requires place { place ≤ length self.old.places.below.items }
        requires steady { IsSteady self.old }
        ensures continues { OnOk result (Continues self.old self.new) }
        ensures found { IfOk result (λ inside. IsPlace self.new.places.below.items inside
            (step_of (Step.Field i) ∷ place_at (places self.old.places.below.items) place)) }
        ensures stands { OnOk result ((a : State) → Stands self.old a → Stands self.new a) }
        ensures refused { IfErr result (λ e. e.reason ≡ Reason.OutOfMemory) }
    {
        let count = self.count_at(place);
        let inside = self.meet(place, Step::Field(i), count)?;
        Ok(inside)
    }

    /// Takes the next entry of the column of a place, which it opens when it first reaches the place.
    ///
    /// Errors: those of the column's decoder, and `EOF` if no entry is left.
    #[inline(always)]
    pub fn take(&mut self, place: usize, kind: ColumnKind) -> Result<Value, Error>
        requires place { place ≤ length self.old.places.below.items }
        requires sized { AreSized self.old.columns.items }
        ensures sized { OnOk result (AreSized self.new.columns.items) }
        ensures leads { IfOk result
            (λ value. Leads self.old (place_at (places self.old.places.below.items) place)
            (kind_of kind) (datum_of value) self.new) }
        ensures of_case { IfOk result (λ value. IsCaseOf kind value) }
        ensures below { self.new.places.below ≡ self.old.places.below }
        ensures asked { IsAskedAs self.old self.new }
        ensures refused { IfErr result
            (λ e. IsColumnReason e.reason
            × (e.reason ≢ Reason.OutOfMemory → (a : State) → Stands self.old a
            → NothingAt a (place_at (places self.old.places.below.items) place) (kind_of kind))) }
    {
        let i = self.ready(place, kind)?;
        let open = &mut self.columns[i];
        open.left -= 1;
        let value = open.column.take()?;
        Ok(value)
    }

    /// Takes the next entry of the column of a place, and puts its value behind others.
    ///
    /// Errors: those of [`Reader::take`].
    #[inline(always)]
    pub fn take_behind(
        &mut self,
        place: usize,
        kind: ColumnKind,
        values: &mut Vec<Value>,
    ) -> Result<(), Error>
        requires place { place ≤ length self.old.places.below.items }
        requires sized { AreSized self.old.columns.items }
        ensures sized { OnOk result (AreSized self.new.columns.items) }
        ensures leads { OnOk result
            (AddsLed self.old (place_at (places self.old.places.below.items) place) kind self.new
            values.old.items values.new.items) }
        ensures below { self.new.places.below ≡ self.old.places.below }
        ensures asked { IsAskedAs self.old self.new }
        ensures refused { IfErr result
            (λ e. IsColumnReason e.reason × (e.reason ≢ Reason.OutOfMemory
            → (a : State) → Stands self.old a
            → NothingAt a (place_at (places self.old.places.below.items) place)
            (kind_of kind))) }
    {
        let at = self.ready(place, kind)?;
        let open = &mut self.columns[at];
        open.left -= 1;
        open.column.take_behind(values)?;
        Ok(())
    }

    /// Takes the next `count` entries of the column of a place, one after another.
    ///
    /// Errors: those of [`Reader::take`].
    pub fn take_each(
        &mut self,
        place: usize,
        kind: ColumnKind,
        count: usize,
    ) -> Result<Vec<Value>, Error>
        requires place { place ≤ length self.old.places.below.items }
        requires sized { AreSized self.old.columns.items }
        ensures sized { OnOk result (AreSized self.new.columns.items) }
        ensures leads { IfOk result
            (λ values. LeadsEach self.old (place_at (places self.old.places.below.items) place)
            (kind_of kind) (map datum_of values.items) self.new) }
        ensures size { IfOk result (λ values. length values.items ≡ count) }
        ensures of_case { IfOk result (λ values. AllByRecursion (IsCaseOf kind) values.items) }
        ensures below { self.new.places.below ≡ self.old.places.below }
        ensures asked { IsAskedAs self.old self.new }
        ensures refused { IfErr result
            (λ e. IsColumnReason e.reason
            × (e.reason ≢ Reason.OutOfMemory → (a : State) → Stands self.old a
            → NotSoMany a (place_at (places self.old.places.below.items) place) (kind_of kind)
            count)) }
    {
        if count == 0 {
            return Ok(Vec::new(self.alloc));
        }
        let found = self.ready(place, kind)?;
        if self.columns[found].left < count {
            return err(Reason::Eof);
        }
        let open = &mut self.columns[found];
        open.left -= count;
        let values = open.column.take_each(self.alloc, count)?;
        Ok(values)
    }

    /// Takes the next length of a place, and returns the sum of all its lengths too.
    ///
    /// Errors: those of [`Reader::take`].
    #[inline(always)]
    pub fn take_length(&mut self, place: usize) -> Result<Length, Error>
        requires place { place ≤ length self.old.places.below.items }
        requires sized { AreSized self.old.columns.items }
        ensures sized { OnOk result (AreSized self.new.columns.items) }
        ensures leads { IfOk result
            (λ taken. LeadsTelling self.old (place_at (places self.old.places.below.items) place)
            length_kind (natural taken.length) self.new
            (λ entries. taken.total ≡ total entries)) }
        ensures below { self.new.places.below ≡ self.old.places.below }
        ensures asked { IsAskedAs self.old self.new }
        ensures refused { IfErr result
            (λ e. IsColumnReason e.reason
            × (e.reason ≢ Reason.OutOfMemory → (a : State) → Stands self.old a
            → NothingAt a (place_at (places self.old.places.below.items) place) length_kind)) }
    {
        let i = self.ready(place, ColumnKind::Lengths)?;
        let open = &mut self.columns[i];
        open.left -= 1;
        let length = open.column.take_length();
        let total = open.column.total();
        Ok(Length { length, total })
    }

    /// Takes the next index of a place, and returns the number of its equal indices too.
    ///
    /// Errors: those of [`Reader::take`].
    #[inline(always)]
    pub fn take_index(&mut self, place: usize) -> Result<Index, Error>
        requires place { place ≤ length self.old.places.below.items }
        requires sized { AreSized self.old.columns.items }
        ensures sized { OnOk result (AreSized self.new.columns.items) }
        ensures leads { IfOk result
            (λ taken. LeadsTelling self.old (place_at (places self.old.places.below.items) place)
            index_kind (natural taken.index) self.new
            (λ entries. taken.count ≡ count_of taken.index entries)) }
        ensures below { self.new.places.below ≡ self.old.places.below }
        ensures asked { IsAskedAs self.old self.new }
        ensures refused { IfErr result
            (λ e. IsColumnReason e.reason
            × (e.reason ≢ Reason.OutOfMemory → (a : State) → Stands self.old a
            → NothingAt a (place_at (places self.old.places.below.items) place) index_kind)) }
    {
        let i = self.ready(place, ColumnKind::Bytes)?;
        let open = &mut self.columns[i];
        open.left -= 1;
        let index = open.column.take_index();
        let count = open.column.count(index);
        Ok(Index { index, count })
    }

    /// Takes the next `count` numbers of one byte of a place, all at once.
    ///
    /// Errors: those of [`Reader::take`].
    pub fn take_bytes(&mut self, place: usize, count: usize) -> Result<Vec<u8>, Error>
        requires place { place ≤ length self.old.places.below.items }
        requires sized { AreSized self.old.columns.items }
        ensures sized { OnOk result (AreSized self.new.columns.items) }
        ensures leads { IfOk result
            (λ bytes. LeadsEach self.old (place_at (places self.old.places.below.items) place)
            index_kind (map natural bytes.items) self.new) }
        ensures size { IfOk result (λ bytes. length bytes.items ≡ count) }
        ensures below { self.new.places.below ≡ self.old.places.below }
        ensures asked { IsAskedAs self.old self.new }
        ensures refused { IfErr result
            (λ e. IsColumnReason e.reason
            × (e.reason ≢ Reason.OutOfMemory → (a : State) → Stands self.old a
            → NotSoMany a (place_at (places self.old.places.below.items) place) index_kind count)) }
    {
        if count == 0 {
            return Ok(Vec::new(self.alloc));
        }
        let i = self.ready(place, ColumnKind::Bytes)?;
        if self.columns[i].left < count {
            return err(Reason::Eof);
        }
        let open = &mut self.columns[i];
        open.left -= count;
        let bytes = open.column.take_bytes(count)?;
        Ok(bytes)
    }

    /// Takes the next number of four bytes of a place.
    ///
    /// Errors: those of [`Reader::take`].
    pub fn take_code(&mut self, place: usize) -> Result<u32, Error>
        requires place { place ≤ length self.old.places.below.items }
        requires sized { AreSized self.old.columns.items }
        ensures sized { OnOk result (AreSized self.new.columns.items) }
        ensures leads { IfOk result
            (λ code. Leads self.old (place_at (places self.old.places.below.items) place)
            (ints 4 false) (natural code) self.new) }
        ensures below { self.new.places.below ≡ self.old.places.below }
        ensures asked { IsAskedAs self.old self.new }
        ensures refused { IfErr result
            (λ e. IsColumnReason e.reason
            × (e.reason ≢ Reason.OutOfMemory → (a : State) → Stands self.old a
            → NothingAt a (place_at (places self.old.places.below.items) place) (ints 4 false))) }
    {
        let i = self.ready(place, ColumnKind::U32)?;
        let open = &mut self.columns[i];
        open.left -= 1;
        let code = open.column.take_code();
        Ok(code)
    }
}
