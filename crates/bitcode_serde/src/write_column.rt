//! Writing columns: values and other entries are added to them.
#![tactic(auto)]

ghost use Rattle.std.specs.Prelude.{◌≡◌, ◌≢◌, ℕ, ◌⊎◌, ◌+◌, ◌<◌, ◌≤◌, [], ◌∷◌, ◌++◌, length, map, take, None, false};
ghost use Rattle.std.specs.Prelude.{MatchBool, OnOk, IfErr};
ghost use Rattle.std.specs.List.{AllByRecursion};
ghost use Rattle.bitcode_coder.specs.Coder.{JoinsListing, OverflowsWithListing};
ghost use Rattle.bitcode_coder.specs.Columns.{ints, lengths, one, beside};
ghost use Rattle.bitcode_coder.specs.Spelling.{natural, column_bytes};
ghost use Rattle.bitcode_untyped.specs.View.{datum_of};
ghost use Rattle.bitcode_serde.specs.Leaves.{IsEntryIn, HasOther};
ghost use Rattle.bitcode_serde.specs.ReadColumns.{kind_of};
ghost use Rattle.bitcode_serde.specs.Leaves.{entries_in};
ghost use Rattle.bitcode_serde.specs.WrittenColumns.{kind_of_entry, datum_of_entry, kind_in_written, kind_of_written};
ghost use Rattle.bitcode_serde.specs.WrittenColumns.{entries_of};

use crate::case::Case;
use crate::column::{ColumnKind, WrittenColumn, for_leaves};
use bitcode_coder::coder::{Buffer, EncodeMany, Encoder, MAX_VECTORED_CHUNK};
use bitcode_coder::part::{Behind, told_parts};
use bitcode_memory::error::{Error, Reason};
use bitcode_memory::refuse::err;
use bitcode_shapes::shaped::Shaped;
use bitcode_untyped::value::Value;
use std::alloc::Global;

/// One entry of a column that is no value of its own: an index, a length, or the code of a char.
#[derive(Clone, Copy)]
pub enum Entry {
    /// The index of a variant, in a column of bytes.
    Byte(u8),
    /// The code of a char, in a column of numbers of four bytes.
    Code(u32),
    Length(usize),
}

impl Entry {
    /// The kind of the columns with such entries.
    #[inline(always)]
    pub fn kind(&self) -> ColumnKind
        ensures { kind_of result ≡ kind_of_entry self.now }
    {
        match self {
            Entry::Byte(_) => ColumnKind::Bytes,
            Entry::Code(_) => ColumnKind::U32,
            Entry::Length(_) => ColumnKind::Lengths,
        }
    }
}

// Fewer values than these are written one by one: to gather them would take longer.
const FEW: usize = 16;

// Makes room for an entry, and writes it.
#[inline(always)]
fn join<T: Shaped, E: Buffer + Encoder<T>>(column: &mut E, entry: &T) -> Result<(), Error>
    ensures joined { OnOk result
        (JoinsListing T.data.lists T.data.shape entry.now (E.columns column.old)
        (E.columns column.new)) }
    ensures refused { IfErr result
        (λ e. (e.reason ≡ Reason.OutOfMemory) ⊎ E.surely_overflows column.old 1
        ⊎ OverflowsWithListing T.data.lists T.data.shape entry.now (E.columns column.old)) }
{
    column.reserve(1)?;
    column.encode(entry)
}

// Puts what each of several values holds into the first places of `held`. The answer is whether all are of the case.
fn gather<'b, T: Case>(values: &'b [Value], held: &mut [&'b T; MAX_VECTORED_CHUNK]) -> bool
    requires { length values.now ≤ MAX_VECTORED_CHUNK }
    ensures size { length held.new ≡ MAX_VECTORED_CHUNK }
    ensures gathered { MatchBool result
        (map (λ t. T.holder t.now) (take (length values.now) held.new) ≡ values.now)
        (HasOther T.kind values.now) }
{
    for i in 0..values.len() {
        match T::held(&values[i]) {
            Some(t) => held[i] = t,
            None => return false,
        }
    }
    true
}

// Writes 1 to 64 values of one case; the first one holds `first`. Room for them was reserved.
fn join_held<'b, T: Case, E: EncodeMany<T>>(
    column: &mut E,
    values: &'b [Value],
    first: &'b T,
) -> Result<(), Error>
    requires chunk { (0 < length values.now) × (length values.now ≤ MAX_VECTORED_CHUNK) }
    requires room { length values.now ≤ E.room column.old }
    ensures joined { OnOk result
        (E.columns column.new ≡ beside (E.columns column.old)
        (one (kind_of T.kind) (map datum_of values.now))) }
    ensures entries { OnOk result (AllByRecursion (IsEntryIn T.kind) values.now) }
    ensures room { OnOk result (E.room column.old ≤ E.room column.new + length values.now) }
    ensures refused { IfErr result
        (λ e. (e.reason ≡ Reason.OutOfMemory)
        ⊎ ((e.reason ≡ Reason.NotOfTheShape) × HasOther T.kind values.now)) }
{
    let mut held = [first; MAX_VECTORED_CHUNK];
    if !gather(values, &mut held) {
        return err(Reason::NotOfTheShape);
    }
    let held = &held[..values.len()];
    told_parts(held, &Behind);
    column.encode_part_of_each(held, &Behind, first)
}

// Writes a value of one case. Room for it was reserved.
#[inline(always)]
fn join_next<T: Case, E: Encoder<T>>(column: &mut E, value: &Value) -> Result<(), Error>
    requires { 0 < E.room column.old }
    ensures joined { OnOk result
        (E.columns column.new ≡ beside (E.columns column.old)
        (one (kind_of T.kind) (map datum_of (value.now ∷ [])))) }
    ensures entries { OnOk result (AllByRecursion (IsEntryIn T.kind) (value.now ∷ [])) }
    ensures room { OnOk result (E.room column.old ≤ E.room column.new + 1) }
    ensures refused { IfErr result
        (λ e. (e.reason ≡ Reason.OutOfMemory)
        ⊎ ((e.reason ≡ Reason.NotOfTheShape) × HasOther T.kind (value.now ∷ []))) }
{
    match T::held(value) {
        Some(t) => {
            t.told();
            column.encode(t)
        }
        None => err(Reason::NotOfTheShape),
    }
}

// Writes values of one case, one after another. Room for them was reserved.
fn join_in_turn<T: Case, E: Encoder<T>>(column: &mut E, values: &[Value]) -> Result<(), Error>
    requires { length values.now ≤ E.room column.old }
    ensures joined { OnOk result
        (E.columns column.new ≡ beside (E.columns column.old)
        (one (kind_of T.kind) (map datum_of values.now))) }
    ensures entries { OnOk result (AllByRecursion (IsEntryIn T.kind) values.now) }
    ensures refused { IfErr result
        (λ e. (e.reason ≡ Reason.OutOfMemory)
        ⊎ ((e.reason ≡ Reason.NotOfTheShape) × HasOther T.kind values.now)) }
{
    for value in values {
        join_next::<T, E>(column, value)?;
    }
    Ok(())
}

// Writes 1 to 64 values of one case. Room for them was reserved.
#[inline(never)]
fn join_chunk<T: Case, E: EncodeMany<T>>(column: &mut E, values: &[Value]) -> Result<(), Error>
    requires chunk { (0 < length values.now) × (length values.now ≤ MAX_VECTORED_CHUNK) }
    requires room { length values.now ≤ E.room column.old }
    ensures joined { OnOk result
        (E.columns column.new ≡ beside (E.columns column.old)
        (one (kind_of T.kind) (map datum_of values.now))) }
    ensures entries { OnOk result (AllByRecursion (IsEntryIn T.kind) values.now) }
    ensures room { OnOk result (E.room column.old ≤ E.room column.new + length values.now) }
    ensures refused { IfErr result
        (λ e. (e.reason ≡ Reason.OutOfMemory)
        ⊎ ((e.reason ≡ Reason.NotOfTheShape) × HasOther T.kind values.now)) }
{
    match T::held(&values[0]) {
        Some(first) => join_held(column, values, first),
        None => err(Reason::NotOfTheShape),
    }
}

// Makes room for a value of one case, and writes it.
#[inline(always)]
fn join_one<T: Case, E: Buffer + Encoder<T>>(column: &mut E, value: &Value) -> Result<(), Error>
    requires { (e : E) (n : ℕ) → E.surely_overflows e n → ⊥ }
    ensures joined { OnOk result
        (E.columns column.new ≡ beside (E.columns column.old)
        (one (kind_of T.kind) (map datum_of (value.now ∷ [])))) }
    ensures written { OnOk result
        (entries_in (E.columns column.new) ≡ entries_in (E.columns column.old) ++ map datum_of
        (value.now ∷ [])) }
    ensures entries { OnOk result (AllByRecursion (IsEntryIn T.kind) (value.now ∷ [])) }
    ensures refused { IfErr result
        (λ e. (e.reason ≡ Reason.OutOfMemory)
        ⊎ ((e.reason ≡ Reason.NotOfTheShape) × HasOther T.kind (value.now ∷ []))) }
{
    match T::held(value) {
        Some(t) => {
            t.told();
            join(column, t)
        }
        None => err(Reason::NotOfTheShape),
    }
}

// Makes room for values of one case, and writes them.
fn join_each<T: Case, E: Buffer + Encoder<T> + EncodeMany<T>>(
    column: &mut E,
    values: &[Value],
) -> Result<(), Error>
    requires { (e : E) (n : ℕ) → E.surely_overflows e n → ⊥ }
    ensures joined { OnOk result
        (E.columns column.new ≡ beside (E.columns column.old)
        (one (kind_of T.kind) (map datum_of values.now))) }
    ensures written { OnOk result
        (entries_in (E.columns column.new) ≡ entries_in (E.columns column.old) ++ map datum_of
        values.now) }
    ensures entries { OnOk result (AllByRecursion (IsEntryIn T.kind) values.now) }
    ensures refused { IfErr result
        (λ e. (e.reason ≡ Reason.OutOfMemory)
        ⊎ ((e.reason ≡ Reason.NotOfTheShape) × HasOther T.kind values.now)) }
{
    column.reserve(values.len())?;
    if values.len() < FEW {
        return join_in_turn::<T, E>(column, values);
    }
    let mut rest = values;
    while !rest.is_empty() {
        let (front, behind) = rest.split_at(rest.len().min(MAX_VECTORED_CHUNK));
        join_chunk::<T, E>(column, front)?;
        rest = behind;
    }
    Ok(())
}

// The match of `WrittenColumn::of`.
macro_rules! of {
    (($kind:expr, $alloc:expr) $($leaf:ident: $t:ty,)*) => {
        match $kind {
            $(ColumnKind::$leaf => WrittenColumn::$leaf(Buffer::new($alloc)),)*
            ColumnKind::Bytes => WrittenColumn::Bytes(Buffer::new($alloc)),
            ColumnKind::Lengths => WrittenColumn::Lengths(Buffer::new($alloc)),
        }
    };
}

// The match of `WrittenColumn::kind`.
macro_rules! kind {
    (($column:expr) $($leaf:ident: $t:ty,)*) => {
        match $column {
            $(WrittenColumn::$leaf(_) => ColumnKind::$leaf,)*
            WrittenColumn::Bytes(_) => ColumnKind::Bytes,
            WrittenColumn::Lengths(_) => ColumnKind::Lengths,
        }
    };
}

// The match of `WrittenColumn::join_values`.
macro_rules! join_values {
    (($column:expr, $values:expr) $($leaf:ident: $t:ty,)*) => {
        match $column {
            $(WrittenColumn::$leaf(column) => join_each::<$t, _>(column, $values),)*
            WrittenColumn::Bytes(column) => join_each::<u8, _>(column, $values),
            WrittenColumn::Lengths(_) => unreachable!(),
        }
    };
}

// The match of `WrittenColumn::join_value`.
macro_rules! join_value {
    (($column:expr, $value:expr) $($leaf:ident: $t:ty,)*) => {
        match $column {
            $(WrittenColumn::$leaf(column) => join_one::<$t, _>(column, $value),)*
            WrittenColumn::Bytes(column) => join_one::<u8, _>(column, $value),
            WrittenColumn::Lengths(_) => unreachable!(),
        }
    };
}

// The match of `WrittenColumn::collect_into`.
macro_rules! collect_into {
    (($column:expr, $out:expr) $($leaf:ident: $t:ty,)*) => {
        match $column {
            $(WrittenColumn::$leaf(column) => column.collect_into($out),)*
            WrittenColumn::Bytes(column) => column.collect_into($out),
            WrittenColumn::Lengths(column) => column.collect_into($out),
        }
    };
}

impl WrittenColumn {
    /// Creates an empty column of a kind, without allocating.
    #[cold]
    #[inline(never)]
    pub fn of(kind: ColumnKind, alloc: Global) -> Self
        ensures kind { kind_in_written result ≡ kind }
        ensures empty { entries_of result ≡ [] }
    {
        for_leaves!(of(kind, alloc))
    }

    /// What the column contains.
    pub fn kind(&self) -> ColumnKind
        ensures { result ≡ kind_in_written self.now }
    {
        for_leaves!(kind(self))
    }

    // Writes values behind the others, each of the case of the column's entries. No value is a length.
    fn join_values(&mut self, values: &[Value]) -> Result<(), Error>
        requires { kind_in_written self.old ≢ ColumnKind.Lengths }
        ensures kind { OnOk result (kind_in_written self.new ≡ kind_in_written self.old) }
        ensures written { OnOk result
            (entries_of self.new ≡ entries_of self.old ++ map datum_of values.now) }
        ensures entries { OnOk result
            (AllByRecursion (IsEntryIn (kind_in_written self.old)) values.now) }
        ensures refused { IfErr result
            (λ e. (e.reason ≡ Reason.OutOfMemory)
            ⊎ ((e.reason ≡ Reason.NotOfTheShape)
            × HasOther (kind_in_written self.old) values.now)) }
    {
        for_leaves!(join_values(self, values))
    }

    // Appends a value, which must be of the case of the column's entries. No value is a length.
    #[inline(always)]
    fn join_value(&mut self, value: &Value) -> Result<(), Error>
        requires { kind_in_written self.old ≢ ColumnKind.Lengths }
        ensures kind { OnOk result (kind_in_written self.new ≡ kind_in_written self.old) }
        ensures written { OnOk result
            (entries_of self.new ≡ entries_of self.old ++ map datum_of (value.now ∷ [])) }
        ensures entries { OnOk result
            (AllByRecursion (IsEntryIn (kind_in_written self.old)) (value.now ∷ [])) }
        ensures refused { IfErr result
            (λ e. (e.reason ≡ Reason.OutOfMemory)
            ⊎ ((e.reason ≡ Reason.NotOfTheShape)
            × HasOther (kind_in_written self.old) (value.now ∷ []))) }
    {
        for_leaves!(join_value(self, value))
    }

    /// Appends a value of the kind's case to the column.
    ///
    /// Errors: those of [`WrittenColumn::push_each`].
    #[inline(always)]
    pub fn push_one(&mut self, kind: ColumnKind, value: &Value) -> Result<(), Error>
        requires { kind ≢ ColumnKind.Lengths }
        ensures kind { OnOk result
            ((kind_of_written self.new ≡ kind_of_written self.old)
            × (kind_of kind ≡ kind_of_written self.old)) }
        ensures written { OnOk result
            (entries_of self.new ≡ entries_of self.old ++ map datum_of (value.now ∷ [])) }
        ensures entries { OnOk result (AllByRecursion (IsEntryIn kind) (value.now ∷ [])) }
        ensures refused { IfErr result
            (λ e. (e.reason ≡ Reason.OutOfMemory)
            ⊎ ((e.reason ≡ Reason.NotOfTheShape) × HasOther kind (value.now ∷ []))
            ⊎ (kind_of kind ≢ kind_of_written self.old)) }
    {
        if !self.kind().is(kind) {
            return err(Reason::NotOfTheShape);
        }
        self.join_value(value)
    }

    /// Appends values of the kind's case to the column.
    ///
    /// If an allocation fails, the error is `out of memory`. If a value has another case or the column has other
    /// entries, it is `value is not of the shape`.
    pub fn push_each(&mut self, kind: ColumnKind, values: &[Value]) -> Result<(), Error>
        requires { kind ≢ ColumnKind.Lengths }
        ensures kind { OnOk result
            ((kind_of_written self.new ≡ kind_of_written self.old)
            × (kind_of kind ≡ kind_of_written self.old)) }
        ensures written { OnOk result
            (entries_of self.new ≡ entries_of self.old ++ map datum_of values.now) }
        ensures entries { OnOk result (AllByRecursion (IsEntryIn kind) values.now) }
        ensures refused { IfErr result
            (λ e. (e.reason ≡ Reason.OutOfMemory)
            ⊎ ((e.reason ≡ Reason.NotOfTheShape) × HasOther kind values.now)
            ⊎ (kind_of kind ≢ kind_of_written self.old)) }
    {
        if !self.kind().is(kind) {
            return err(Reason::NotOfTheShape);
        }
        self.join_values(values)
    }

    // Appends a number of one byte to a column of such numbers.
    #[inline(always)]
    fn push_byte(&mut self, n: u8) -> Result<(), Error>
        ensures kind { OnOk result
            ((kind_of_written self.new ≡ kind_of_written self.old)
            × (ints 1 false ≡ kind_of_written self.old)) }
        ensures written { OnOk result
            (entries_of self.new ≡ entries_of self.old ++ natural n ∷ []) }
        ensures refused { IfErr result
            (λ e. (e.reason ≡ Reason.OutOfMemory) ⊎ (ints 1 false ≢ kind_of_written self.old)) }
    {
        match self {
            WrittenColumn::Bytes(column) => {
                column.reserve(1)?;
                column.encode(&n)
            }
            _ => err(Reason::NotOfTheShape),
        }
    }

    // Appends a number of four bytes to a column of such numbers.
    #[inline(always)]
    fn push_code(&mut self, n: u32) -> Result<(), Error>
        ensures kind { OnOk result
            ((kind_of_written self.new ≡ kind_of_written self.old)
            × (ints 4 false ≡ kind_of_written self.old)) }
        ensures written { OnOk result
            (entries_of self.new ≡ entries_of self.old ++ natural n ∷ []) }
        ensures refused { IfErr result
            (λ e. (e.reason ≡ Reason.OutOfMemory) ⊎ (ints 4 false ≢ kind_of_written self.old)) }
    {
        match self {
            WrittenColumn::U32(column) => {
                column.reserve(1)?;
                column.encode(&n)
            }
            _ => err(Reason::NotOfTheShape),
        }
    }

    // Appends a length to a column of lengths.
    #[inline(always)]
    fn push_length(&mut self, n: usize) -> Result<(), Error>
        ensures kind { OnOk result
            ((kind_of_written self.new ≡ kind_of_written self.old)
            × (lengths None ≡ kind_of_written self.old)) }
        ensures written { OnOk result
            (entries_of self.new ≡ entries_of self.old ++ natural n ∷ []) }
        ensures refused { IfErr result
            (λ e. (e.reason ≡ Reason.OutOfMemory) ⊎ (lengths None ≢ kind_of_written self.old)) }
    {
        match self {
            WrittenColumn::Lengths(column) => {
                column.reserve(1)?;
                column.encode(n)
            }
            _ => err(Reason::NotOfTheShape),
        }
    }

    /// Appends an entry to the column.
    ///
    /// If an allocation fails, the error is `out of memory`. If the column has other entries, it is
    /// `value is not of the shape`.
    #[inline(always)]
    pub fn push(&mut self, next: Entry) -> Result<(), Error>
        ensures kind { OnOk result
            ((kind_of_written self.new ≡ kind_of_written self.old)
            × (kind_of_entry next ≡ kind_of_written self.old)) }
        ensures written { OnOk result
            (entries_of self.new ≡ entries_of self.old ++ datum_of_entry next ∷ []) }
        ensures refused { IfErr result
            (λ e. (e.reason ≡ Reason.OutOfMemory)
            ⊎ (kind_of_entry next ≢ kind_of_written self.old)) }
    {
        match next {
            Entry::Byte(n) => self.push_byte(n),
            Entry::Code(n) => self.push_code(n),
            Entry::Length(n) => self.push_length(n),
        }
    }

    /// Appends bytes to the column, by one copy.
    ///
    /// If an allocation fails, the error is `out of memory`. If the column has other entries, it is
    /// `value is not of the shape`.
    pub fn extend_bytes(&mut self, bytes: &[u8]) -> Result<(), Error>
        ensures kind { OnOk result
            ((kind_of_written self.new ≡ kind_of_written self.old)
            × (ints 1 false ≡ kind_of_written self.old)) }
        ensures written { OnOk result
            (entries_of self.new ≡ entries_of self.old ++ map natural bytes.now) }
        ensures refused { IfErr result
            (λ e. (e.reason ≡ Reason.OutOfMemory) ⊎ (ints 1 false ≢ kind_of_written self.old)) }
    {
        match self {
            WrittenColumn::Bytes(column) => {
                column.reserve(bytes.len())?;
                column.extend(bytes);
                Ok(())
            }
            _ => err(Reason::NotOfTheShape),
        }
    }

    /// Appends the text of the column to `out`. The column is scratch afterwards.
    ///
    /// If an allocation fails, the error is `out of memory`.
    pub fn collect_into(&mut self, out: &mut Vec<u8>) -> Result<(), Error>
        ensures written { OnOk result
            (out.new.items ≡ out.old.items ++ column_bytes (kind_of_written self.old)
            (entries_of self.old)) }
        ensures refused { IfErr result (λ e. e.reason ≡ Reason.OutOfMemory) }
    {
        for_leaves!(collect_into(self, out))
    }
}
