//! Reading columns, and taking their entries.
#![tactic(auto)]

ghost use Rattle.std.specs.Prelude.{◌≡◌, ℕ, ◌<◌, ◌≤◌, List, ◌∷◌, ◌++◌, None, false, length, map, sum, IsTrue};
ghost use Rattle.std.specs.Prelude.{vec_len, vec_capacity, IfOk, OnOk, IfErr};
ghost use Rattle.std.specs.List.{AllByRecursion};
ghost use Rattle.bitcode_shapes.specs.Datum.{Datum};
ghost use Rattle.bitcode_coder.specs.Coder.{TakesDatum};
ghost use Rattle.bitcode_coder.specs.Columns.{ints, lengths};
ghost use Rattle.bitcode_coder.specs.Spelling.{natural};
ghost use Rattle.bitcode_coder.specs.Strict.{JudgesColumn};
ghost use Rattle.bitcode_untyped.specs.Population.{total, count_of};
ghost use Rattle.bitcode_untyped.specs.View.{datum_of};
ghost use Rattle.bitcode_coder.specs.Length.{lengths_left, lengths_sum};
ghost use Rattle.bitcode_serde.specs.Indices.{indices_left, index_count};
ghost use Rattle.bitcode_serde.specs.ReadColumns.{kind_of, kind_in_code, kind_of_column, left, Tallies, IsCaseOf};
ghost use Rattle.bitcode_serde.specs.ReadColumns.{AddsTaken, ReadsColumn, IsColumnRefusal};

use crate::case::Case;
use crate::column::{Column, ColumnKind, for_leaves};
use crate::serde::VariantDecoder;
use bitcode_coder::coder::{Decoder, NewDecoder, View};
use bitcode_coder::length::LengthDecoder;
use bitcode_memory::error::{Error, Reason};
use bitcode_shapes::shaped::Shaped;
use bitcode_untyped::value::Value;
use std::alloc::Global;

// Reads a column of so many entries of a leaf. Where `strict`, the answer is whether its bytes are its text.
fn read_leaf<'a, T: Case, D: NewDecoder + View<'a> + Decoder<T> + Drop>(
    alloc: Global,
    input: &mut &'a [u8],
    count: usize,
    strict: bool,
) -> Result<(D, bool), Error>
    ensures read { IfOk result
        (λ d. ReadsColumn (kind_of T.kind) count input.old.now (D.held d.0) input.new.now) }
    ensures judged { IsTrue strict → IfOk result
        (λ d. JudgesColumn d.1 (kind_of T.kind) (D.held d.0) input.old.now input.new.now) }
    ensures refused { IfErr result
        (λ e. IsColumnRefusal (kind_of T.kind) e.reason count input.old.now) }
{
    let mut column = D::new(alloc);
    let written = column.read(input, count, strict)?;
    Ok((column, written))
}

// Reads a column of so many bytes, and counts them. The answer is as that of `read_leaf`.
fn read_bytes<'a>(
    alloc: Global,
    input: &mut &'a [u8],
    count: usize,
    strict: bool,
) -> Result<(VariantDecoder<'a>, bool), Error>
    ensures read { IfOk result
        (λ d. ReadsColumn (ints 1 false) count input.old.now (indices_left d.0) input.new.now) }
    ensures judged { IsTrue strict → IfOk result
        (λ d. JudgesColumn d.1 (ints 1 false) (indices_left d.0) input.old.now input.new.now) }
    ensures counts { IfOk result
        (λ d. (index : ℕ) → index < 256
        → index_count d.0 index ≡ count_of index (indices_left d.0)) }
    ensures refused { IfErr result
        (λ e. IsColumnRefusal (ints 1 false) e.reason count input.old.now) }
{
    let mut column = VariantDecoder::new(alloc);
    let written = column.read(input, count, strict)?;
    Ok((column, written))
}

// Reads a column of so many lengths. The answer is as that of `read_leaf`.
fn read_lengths<'a>(
    alloc: Global,
    input: &mut &'a [u8],
    count: usize,
    strict: bool,
) -> Result<(LengthDecoder<'a>, bool), Error>
    ensures read { IfOk result
        (λ d. ReadsColumn (lengths None) count input.old.now (map natural (lengths_left d.0))
        input.new.now) }
    ensures judged { IsTrue strict → IfOk result
        (λ d. JudgesColumn d.1 (lengths None) (map natural (lengths_left d.0)) input.old.now
        input.new.now) }
    ensures sum { IfOk result (λ d. lengths_sum d.0 ≡ sum (lengths_left d.0)) }
    ensures refused { IfErr result
        (λ e. IsColumnRefusal (lengths None) e.reason count input.old.now) }
{
    let mut column = LengthDecoder::new(alloc);
    let written = column.read(input, count, strict)?;
    Ok((column, written))
}

// Takes the next entry, where that takes no memory.
pub(crate) fn next<T: Shaped, D: Decoder<T>>(column: &mut D) -> T
    requires some { 0 < length (D.held column.old) }
    requires free { IsTrue D.makes_free }
    ensures { TakesDatum T.data.makes result (D.held column.old) (D.held column.new) }
{
    column.decode().unwrap()
}

// Takes the next entry as a value.
#[inline(always)]
fn take_value<T: Case, D: Decoder<T>>(column: &mut D) -> Result<Value, Error>
    requires { 0 < length (D.held column.old) }
    ensures taken { IfOk result
        (λ value. D.held column.old ≡ datum_of value ∷ D.held column.new) }
    ensures of_case { IfOk result (λ value. IsCaseOf T.kind value) }
    ensures refused { IfErr result (λ e. e.reason ≡ Reason.OutOfMemory) }
{
    let item: T = column.decode()?;
    Ok(item.into_value())
}

// Takes the next number of one byte as a value.
#[inline(always)]
fn next_byte(column: &mut VariantDecoder<'_>) -> Value
    requires { 0 < length (indices_left column.old) }
    ensures taken { indices_left column.old ≡ datum_of result ∷ indices_left column.new }
    ensures of_case { IsCaseOf ColumnKind.Bytes result }
    ensures counts { (index : ℕ) → index_count column.new index ≡ index_count column.old index }
{
    Value::U8(column.decode().unwrap())
}

// Takes the next length as a value.
#[inline(always)]
fn next_length(column: &mut LengthDecoder<'_>) -> Value
    requires { 0 < length (lengths_left column.old) }
    ensures taken { map natural (lengths_left column.old) ≡ datum_of result ∷ map natural
        (lengths_left column.new) }
    ensures of_case { IsCaseOf ColumnKind.Lengths result }
    ensures sum { lengths_sum column.new ≡ lengths_sum column.old }
{
    Value::U64(column.decode() as u64)
}

// Takes the next entry, and puts its value behind others. Room for it was reserved.
#[inline(always)]
fn push_value<T: Case, D: Decoder<T>>(column: &mut D, values: &mut Vec<Value>) -> Result<(), Error>
    requires room { vec_len values.old < vec_capacity values.old }
    requires some { 0 < length (D.held column.old) }
    ensures taken { OnOk result
        (AddsTaken T.kind (D.held column.old) (D.held column.new) values.old.items
        values.new.items) }
    ensures refused { IfErr result (λ e. e.reason ≡ Reason.OutOfMemory) }
{
    let value = take_value::<T, D>(column)?;
    values.push_reserved(value);
    Ok(())
}

// The same for the next number of one byte.
#[inline(always)]
fn push_byte(column: &mut VariantDecoder<'_>, values: &mut Vec<Value>)
    requires room { vec_len values.old < vec_capacity values.old }
    requires some { 0 < length (indices_left column.old) }
    ensures taken { AddsTaken ColumnKind.Bytes (indices_left column.old) (indices_left column.new)
        values.old.items values.new.items }
    ensures counts { (index : ℕ) → index_count column.new index ≡ index_count column.old index }
{
    let value = next_byte(column);
    values.push_reserved(value);
}

// The same for the next length.
#[inline(always)]
fn push_length(column: &mut LengthDecoder<'_>, values: &mut Vec<Value>)
    requires room { vec_len values.old < vec_capacity values.old }
    requires some { 0 < length (lengths_left column.old) }
    ensures taken { AddsTaken ColumnKind.Lengths (map natural (lengths_left column.old))
        (map natural (lengths_left column.new)) values.old.items values.new.items }
    ensures sum { lengths_sum column.new ≡ lengths_sum column.old }
{
    let value = next_length(column);
    values.push_reserved(value);
}

// Takes so many of the next entries as values. So many are left.
fn take_values<T: Case, D: Decoder<T>>(
    column: &mut D,
    alloc: Global,
    count: usize,
) -> Result<Vec<Value>, Error>
    requires { count ≤ length (D.held column.old) }
    ensures taken { IfOk result
        (λ values. D.held column.old ≡ map datum_of values.items ++ D.held column.new) }
    ensures size { IfOk result (λ values. length values.items ≡ count) }
    ensures of_case { IfOk result (λ values. AllByRecursion (IsCaseOf T.kind) values.items) }
    ensures refused { IfErr result (λ e. e.reason ≡ Reason.OutOfMemory) }
{
    let mut values = Vec::with_capacity(alloc, count)?;
    for _taken in 0..count {
        values.push_reserved(take_value::<T, D>(column)?);
    }
    Ok(values)
}

// Takes so many of the next numbers of one byte as values. So many are left.
fn take_bytes(
    column: &mut VariantDecoder<'_>,
    alloc: Global,
    count: usize,
) -> Result<Vec<Value>, Error>
    requires { count ≤ length (indices_left column.old) }
    ensures taken { IfOk result
        (λ values. indices_left column.old ≡ map datum_of values.items ++ indices_left column.new) }
    ensures size { IfOk result (λ values. length values.items ≡ count) }
    ensures of_case { IfOk result
        (λ values. AllByRecursion (IsCaseOf ColumnKind.Bytes) values.items) }
    ensures counts { (index : ℕ) → index_count column.new index ≡ index_count column.old index }
    ensures refused { IfErr result (λ e. e.reason ≡ Reason.OutOfMemory) }
{
    let mut values = Vec::with_capacity(alloc, count)?;
    for _taken in 0..count {
        values.push_reserved(next_byte(column));
    }
    Ok(values)
}

// The match of `Column::open`.
macro_rules! open {
    (($kind:expr, $alloc:expr, $input:expr, $count:expr, $strict:expr) $($leaf:ident: $t:ty,)*) => {
        match $kind {
            $(ColumnKind::$leaf => match read_leaf::<$t, _>($alloc, $input, $count, $strict) {
                Ok(read) => Ok((Column::$leaf(read.0), read.1)),
                Err(e) => Err(e),
            },)*
            ColumnKind::Bytes => match read_bytes($alloc, $input, $count, $strict) {
                Ok(read) => Ok((Column::Bytes(read.0), read.1)),
                Err(e) => Err(e),
            },
            ColumnKind::Lengths => match read_lengths($alloc, $input, $count, $strict) {
                Ok(read) => Ok((Column::Lengths(read.0), read.1)),
                Err(e) => Err(e),
            },
        }
    };
}

// The match of `Column::kind`.
macro_rules! kind {
    (($column:expr) $($leaf:ident: $t:ty,)*) => {
        match $column {
            $(Column::$leaf(_) => ColumnKind::$leaf,)*
            Column::Bytes(_) => ColumnKind::Bytes,
            Column::Lengths(_) => ColumnKind::Lengths,
        }
    };
}

// The match of `Column::take`.
macro_rules! take {
    (($column:expr) $($leaf:ident: $t:ty,)*) => {
        match $column {
            $(Column::$leaf(column) => take_value::<$t, _>(column),)*
            Column::Bytes(column) => Ok(next_byte(column)),
            Column::Lengths(column) => Ok(next_length(column)),
        }
    };
}

// The match of `Column::push_next`.
macro_rules! push_next {
    (($column:expr, $values:expr) $($leaf:ident: $t:ty,)*) => {
        match $column {
            $(Column::$leaf(column) => push_value::<$t, _>(column, $values),)*
            Column::Bytes(column) => {
                push_byte(column, $values);
                Ok(())
            }
            Column::Lengths(column) => {
                push_length(column, $values);
                Ok(())
            }
        }
    };
}

// The match of `Column::take_each`.
macro_rules! take_each {
    (($column:expr, $alloc:expr, $count:expr) $($leaf:ident: $t:ty,)*) => {
        match $column {
            $(Column::$leaf(column) => take_values::<$t, _>(column, $alloc, $count),)*
            Column::Bytes(column) => take_bytes(column, $alloc, $count),
            Column::Lengths(_) => $column.take_in_turn($alloc, $count),
        }
    };
}

impl<'a> Column<'a> {
    /// Reads a column of `count` entries from the front of the input. If `strict`, it returns whether the bytes are
    /// those that would be written for them. Otherwise the returned bool has no meaning.
    ///
    /// Errors: those of the column's decoder.
    pub fn open(
        kind: ColumnKind,
        alloc: Global,
        input: &mut &'a [u8],
        count: usize,
        strict: bool,
    ) -> Result<(Column<'a>, bool), Error>
        ensures read { IfOk result
            (λ column. ReadsColumn (kind_of kind) count input.old.now (left column.0)
            input.new.now) }
        ensures judged { IsTrue strict → IfOk result
            (λ column. JudgesColumn column.1 (kind_of kind) (left column.0) input.old.now
            input.new.now) }
        ensures kind { IfOk result (λ column. kind_of_column column.0 ≡ kind_of kind) }
        ensures tallies { IfOk result (λ column. Tallies column.0 (left column.0)) }
        ensures refused { IfErr result
            (λ e. IsColumnRefusal (kind_of kind) e.reason count input.old.now) }
    {
        for_leaves!(open(kind, alloc, input, count, strict))
    }

    /// What the column contains.
    pub fn kind(&self) -> ColumnKind
        ensures { kind_of result ≡ kind_of_column self.now }
    {
        for_leaves!(kind(self))
    }

    /// Takes the next entry. At least one must be left.
    ///
    /// The only error is `out of memory`, because a text is copied.
    #[inline(always)]
    pub fn take(&mut self) -> Result<Value, Error>
        requires { 0 < length (left self.old) }
        ensures taken { IfOk result (λ value. left self.old ≡ datum_of value ∷ left self.new) }
        ensures of_case { IfOk result (λ value. IsCaseOf (kind_in_code self.old) value) }
        ensures kind { kind_of_column self.new ≡ kind_of_column self.old }
        ensures tallies { (entries : List Datum) → Tallies self.old entries
            → Tallies self.new entries }
        ensures refused { IfErr result (λ e. e.reason ≡ Reason.OutOfMemory) }
    {
        for_leaves!(take(self))
    }

    /// Takes the next entry, and puts its value behind others. At least one must be left.
    ///
    /// The only error is `out of memory`.
    pub fn take_behind(&mut self, values: &mut Vec<Value>) -> Result<(), Error>
        requires { 0 < length (left self.old) }
        ensures taken { OnOk result
            (AddsTaken (kind_in_code self.old) (left self.old) (left self.new) values.old.items
            values.new.items) }
        ensures kind { kind_of_column self.new ≡ kind_of_column self.old }
        ensures tallies { (entries : List Datum) → Tallies self.old entries
            → Tallies self.new entries }
        ensures refused { IfErr result (λ e. e.reason ≡ Reason.OutOfMemory) }
    {
        values.reserve(1)?;
        self.push_next(values)
    }

    // Takes the next entry, and puts its value behind others. Room for it was reserved.
    #[inline(always)]
    fn push_next(&mut self, values: &mut Vec<Value>) -> Result<(), Error>
        requires room { vec_len values.old < vec_capacity values.old }
        requires some { 0 < length (left self.old) }
        ensures taken { OnOk result
            (AddsTaken (kind_in_code self.old) (left self.old) (left self.new) values.old.items
            values.new.items) }
        ensures kind { kind_of_column self.new ≡ kind_of_column self.old }
        ensures tallies { (entries : List Datum) → Tallies self.old entries
            → Tallies self.new entries }
        ensures refused { IfErr result (λ e. e.reason ≡ Reason.OutOfMemory) }
    {
        for_leaves!(push_next(self, values))
    }

    // Takes so many of the next entries, one after another. So many are left.
    fn take_in_turn(&mut self, alloc: Global, count: usize) -> Result<Vec<Value>, Error>
        requires { count ≤ length (left self.old) }
        ensures taken { IfOk result
            (λ values. left self.old ≡ map datum_of values.items ++ left self.new) }
        ensures size { IfOk result (λ values. length values.items ≡ count) }
        ensures of_case { IfOk result
            (λ values. AllByRecursion (IsCaseOf (kind_in_code self.old)) values.items) }
        ensures kind { kind_of_column self.new ≡ kind_of_column self.old }
        ensures tallies { (entries : List Datum) → Tallies self.old entries
            → Tallies self.new entries }
        ensures refused { IfErr result (λ e. e.reason ≡ Reason.OutOfMemory) }
    {
        let mut values = Vec::with_capacity(alloc, count)?;
        for _i in 0..count {
            let value = self.take()?;
            values.push(value)?;
        }
        Ok(values)
    }

    /// Takes the next `count` entries at once. At least as many must be left.
    ///
    /// The only error is `out of memory`.
    pub fn take_each(&mut self, alloc: Global, count: usize) -> Result<Vec<Value>, Error>
        requires { count ≤ length (left self.old) }
        ensures taken { IfOk result
            (λ values. left self.old ≡ map datum_of values.items ++ left self.new) }
        ensures size { IfOk result (λ values. length values.items ≡ count) }
        ensures of_case { IfOk result
            (λ values. AllByRecursion (IsCaseOf (kind_in_code self.old)) values.items) }
        ensures kind { kind_of_column self.new ≡ kind_of_column self.old }
        ensures tallies { (entries : List Datum) → Tallies self.old entries
            → Tallies self.new entries }
        ensures refused { IfErr result (λ e. e.reason ≡ Reason.OutOfMemory) }
    {
        for_leaves!(take_each(self, alloc, count))
    }

    /// Takes the next length. At least one must be left.
    pub fn take_length(&mut self) -> usize
        requires lengths { kind_of_column self.old ≡ lengths None }
        requires some { 0 < length (left self.old) }
        ensures taken { left self.old ≡ natural result ∷ left self.new }
        ensures kind { kind_of_column self.new ≡ kind_of_column self.old }
        ensures tallies { (entries : List Datum) → Tallies self.old entries
            → Tallies self.new entries }
    {
        match self {
            Column::Lengths(column) => column.decode(),
            _ => unreachable!(),
        }
    }

    /// Takes the next index. At least one must be left.
    pub fn take_index(&mut self) -> u8
        requires bytes { kind_of_column self.old ≡ ints 1 false }
        requires some { 0 < length (left self.old) }
        ensures taken { left self.old ≡ natural result ∷ left self.new }
        ensures kind { kind_of_column self.new ≡ kind_of_column self.old }
        ensures tallies { (entries : List Datum) → Tallies self.old entries
            → Tallies self.new entries }
    {
        match self {
            Column::Bytes(column) => column.decode().unwrap(),
            _ => unreachable!(),
        }
    }

    /// Takes the next `count` numbers of one byte. At least as many must be left.
    ///
    /// If an allocation fails, the error is `out of memory`.
    pub fn take_bytes(&mut self, count: usize) -> Result<Vec<u8>, Error>
        requires bytes { kind_of_column self.old ≡ ints 1 false }
        requires some { count ≤ length (left self.old) }
        ensures taken { IfOk result
            (λ bytes. left self.old ≡ map natural bytes.items ++ left self.new) }
        ensures size { IfOk result (λ bytes. length bytes.items ≡ count) }
        ensures kind { kind_of_column self.new ≡ kind_of_column self.old }
        ensures tallies { (entries : List Datum) → Tallies self.old entries
            → Tallies self.new entries }
        ensures refused { IfErr result (λ e. e.reason ≡ Reason.OutOfMemory) }
    {
        match self {
            Column::Bytes(column) => column.take(count),
            _ => unreachable!(),
        }
    }

    /// Takes the next number of four bytes. At least one must be left.
    pub fn take_code(&mut self) -> u32
        requires codes { kind_of_column self.old ≡ ints 4 false }
        requires some { 0 < length (left self.old) }
        ensures taken { left self.old ≡ natural result ∷ left self.new }
        ensures kind { kind_of_column self.new ≡ kind_of_column self.old }
        ensures tallies { (entries : List Datum) → Tallies self.old entries
            → Tallies self.new entries }
    {
        match self {
            Column::U32(column) => next(column),
            _ => unreachable!(),
        }
    }

    /// The sum of all lengths that were read, including those already taken.
    pub fn total(&self) -> usize
        requires { kind_of_column self.now ≡ lengths None }
        ensures { (entries : List Datum) → Tallies self.now entries → result ≡ total entries }
    {
        match self {
            Column::Lengths(column) => column.length(),
            _ => unreachable!(),
        }
    }

    /// How often this index was read, including entries that were already taken.
    pub fn count(&self, index: u8) -> usize
        requires { kind_of_column self.now ≡ ints 1 false }
        ensures { (entries : List Datum) → Tallies self.now entries
            → result ≡ count_of index entries }
    {
        match self {
            Column::Bytes(column) => column.length(index),
            _ => unreachable!(),
        }
    }
}
