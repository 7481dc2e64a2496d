//! Reading the columns of an input one after another, and noting where each is.
ghost use Rattle.std.specs.Prelude.{◌≡◌, ◌≤◌, ◌+◌, ◌++◌, ◌∷◌, [], length, true, All};
ghost use Rattle.std.specs.Prelude.{IfOk, OnOk, IfSome, IsTrue, IsFalse};
ghost use Rattle.std.specs.List.{slice_range};
ghost use Rattle.std.proofs.Props.{props};
ghost use Rattle.bitcode_command.specs.Columns.{SpellsItsEntries, SpellsMany, shape_of_kind};
ghost use Rattle.bitcode_command.specs.Placing.{stand_from};

use crate::column::{Column, ColumnFault, ColumnKind, Extent};
use crate::entries::{check_entries, check_values, enum_of_units, lists_of_units};
use crate::failure::Failure;
use crate::packing::{Digits, digits_of_variants, extent_of, extent_of_lengths};
use crate::place::{Place, Step};
use bitcode_coder::length::LengthDecoder;
use bitcode_memory::error::Reason;
use bitcode_schema::schema::SchemaNode;
use std::alloc::Global;

/// How often each variant of an enum stands in a column.
pub type Counts = [usize; 256];

/// The rest of an input, and the columns before it.
#[derive(Drop)]
pub struct Survey<'a> {
    alloc: Global,
    strict: bool,
    whole: &'a [u8],
    // Where the rest begins.
    at: usize,
    place: Place<'a>,
    columns: Vec<Column>,
    ghost within: { at ≤ length whole.now },
    ghost stand: { stand_from 0 columns.items at ≡ true },
    ghost spelled: { All (SpellsItsEntries whole.now) columns.items } by { Prim.hlevel props },
}

impl<'a> Survey<'a> {
    /// The survey of an input of which nothing was read.
    pub fn new(alloc: Global, input: &'a [u8], strict: bool) -> Self
        ensures { result.whole.now ≡ input.now }
    {
        Survey {
            alloc,
            strict,
            whole: input,
            at: 0,
            place: Place::new(alloc),
            columns: Vec::new(alloc),
        }
    }

    /// The allocator.
    pub fn alloc(&self) -> Global {
        self.alloc
    }

    /// The columns, if nothing is left of the input.
    pub fn finish(self) -> Result<Vec<Column>, Failure>
        ensures stand { IfOk result
            (λ columns. stand_from 0 columns.items (length self.entry.whole.now) ≡ true) }
        ensures spelled { IfOk result
            (λ columns. All (SpellsItsEntries self.entry.whole.now) columns.items) }
    {
        if self.at < self.whole.len() {
            return Err(self.fault(self.at, Reason::ExpectedEof));
        }
        let Survey { columns, .. } = self;
        Ok(columns)
    }

    /// Goes to a part of the values.
    pub fn enter(&mut self, step: Step<'a>) -> Result<(), Failure>
        ensures { self.new.whole.now ≡ self.old.whole.now }
    {
        self.place.enter(step)
    }

    /// Goes back from the part.
    pub fn leave(&mut self)
        ensures { self.new.whole.now ≡ self.old.whole.now }
    {
        self.place.leave();
    }

    /// Where the bytes that are left begin.
    pub fn at(&self) -> usize {
        self.at
    }

    // The bytes that are left.
    fn rest(&self) -> &'a [u8] {
        self.whole.get(self.at..).unwrap_or(&[])
    }

    /// The bytes from a place up to the rest.
    pub fn since(&self, from: usize) -> &'a [u8] {
        self.whole.get(from..self.at).unwrap_or(&[])
    }

    /// The fault of a column here, which begins at this place.
    pub fn fault(&self, at: usize, reason: Reason) -> Failure {
        match self.place.text() {
            Ok(path) if reason != Reason::OutOfMemory => Failure::Column(ColumnFault {
                path,
                offset: at,
                reason,
            }),
            _ => Failure::OutOfMemory,
        }
    }

    // Where the next bytes end, if there are so many.
    fn end_of(&self, size: usize) -> Option<usize>
        ensures { IfSome result
            (λ end. (self.now.at + size ≡ end) × (end ≤ length self.now.whole.now)) }
    {
        match self.at.checked_add(size) {
            Some(end) if end <= self.whole.len() => Some(end),
            _ => None,
        }
    }

    // Refuses bytes from one place to another that are not so many entries of a kind.
    fn check(&self, kind: ColumnKind, entries: usize, from: usize, to: usize) -> Result<(), Failure>
        requires { (from ≤ to) × (to ≤ length self.now.whole.now) }
        ensures { OnOk result
            (SpellsMany (shape_of_kind kind) entries (slice_range self.now.whole.now from to)) }
    {
        match check_entries(self.alloc, kind, entries, &self.whole[from..to]) {
            Ok(()) => Ok(()),
            Err(error) => Err(self.fault(from, error.reason)),
        }
    }

    // Notes the column at the front of the rest.
    fn note(&mut self, kind: ColumnKind, entries: usize, extent: Extent) -> Result<(), Failure>
        ensures { self.new.whole.now ≡ self.old.whole.now }
    {
        let offset = self.at;
        let Some(end) = self.end_of(extent.size) else {
            return Err(self.fault(offset, Reason::Eof));
        };
        self.check(kind, entries, offset, end)?;
        let path = self.place.noted()?;
        let column = Column {
            path,
            kind,
            entries,
            offset,
            extent,
        };
        if !add(&mut self.columns, column) {
            return Err(Failure::OutOfMemory);
        }
        self.at = end;
        Ok(())
    }

    /// Takes a column of entries of a kind.
    pub fn column(&mut self, kind: ColumnKind, entries: usize) -> Result<(), Failure>
        ensures { self.new.whole.now ≡ self.old.whole.now }
    {
        let from = self.at;
        match extent_of(kind, entries, self.rest()) {
            Ok(extent) => self.note(kind, entries, extent),
            Err(reason) => Err(self.fault(from, reason)),
        }
    }

    /// Refuses bytes that are not the columns of so many values of the node. The fault is that of a column at this
    /// place.
    pub fn verify(
        &self,
        bytes: &[u8],
        at: usize,
        node: SchemaNode,
        count: usize,
    ) -> Result<(), Failure> {
        match check_values(self.alloc, node, count, bytes, self.strict) {
            Ok(()) => Ok(()),
            Err(error) => Err(self.fault(at, error.reason)),
        }
    }

    /// Takes a column of lengths, and tells their sum.
    pub fn lengths(&mut self, count: usize) -> Result<usize, Failure>
        ensures { self.new.whole.now ≡ self.old.whole.now }
    {
        let from = self.at;
        let bytes = self.rest();
        let mut input = bytes;
        let mut lengths = LengthDecoder::new(self.alloc);
        if let Err(error) = lengths.populate(&mut input, count) {
            return Err(self.fault(from, error.reason));
        }
        let size = bytes.len().saturating_sub(input.len());
        self.note(
            ColumnKind::Lengths,
            count,
            extent_of_lengths(count, size, bytes),
        )?;
        if self.strict {
            let units = lists_of_units(self.alloc, None)?;
            self.verify(self.since(from), from, units, count)?;
        }
        Ok(lengths.length())
    }

    /// Takes a column of variants, of so many there are, and counts each.
    pub fn variants(&mut self, count: usize, variants: usize) -> Result<Counts, Failure>
        ensures { self.new.whole.now ≡ self.old.whole.now }
    {
        let from = self.at;
        self.column(ColumnKind::Variants(variants), count)?;
        if self.strict {
            let units = enum_of_units(self.alloc, variants)?;
            self.verify(self.since(from), from, units, count)?;
        }
        match counts_of(self.since(from), count, variants) {
            Some(counts) => Ok(counts),
            None => Err(self.fault(from, Reason::InvalidPacking)),
        }
    }
}

// Adds a column, if memory allows it.
fn add(columns: &mut Vec<Column>, column: Column) -> bool
    ensures added { IsTrue result → columns.new.items ≡ columns.old.items ++ column ∷ [] }
    ensures kept { IsFalse result → columns.new.items ≡ columns.old.items }
{
    match columns.push(column) {
        Ok(()) => true,
        Err(_) => false,
    }
}

// How often each variant stands among so many, if all are below the number of variants.
fn counts_of(bytes: &[u8], count: usize, variants: usize) -> Option<Counts> {
    let digits = digits_of_variants(variants);
    let mut counts = [0; 256];
    let mut left = count;
    for byte in bytes {
        let taken = left.min(digits.in_byte);
        count_digits(*byte, taken, digits, &mut counts);
        left -= taken;
    }
    let behind = counts.get(variants..).unwrap_or(&[]);
    if behind.iter().all(|count| *count == 0) {
        Some(counts)
    } else {
        None
    }
}

// Counts the first digits of a byte.
fn count_digits(byte: u8, count: usize, digits: Digits, counts: &mut Counts) {
    let mut rest = u16::from(byte);
    for _ in 0..count {
        let digit = rest.checked_rem(digits.base).unwrap_or(0);
        if let Some(times) = counts.get_mut(usize::from(digit)) {
            *times = times.saturating_add(1);
        }
        rest = rest.checked_div(digits.base).unwrap_or(0);
    }
}
