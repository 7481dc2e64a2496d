//! Steps into lists, maps, variants and fields.
ghost use Rattle.std.specs.Prelude.{◌≡◌, ◌≤◌, ◌<◌, suc, true, length, IfOk, IfErr, OnOk};
ghost use Rattle.bitcode_coder.specs.Spelling.{natural};
ghost use Rattle.bitcode_untyped.specs.Bounds.{column_free, free_limit};
ghost use Rattle.bitcode_untyped.specs.ShapeTree.{ShapeTree, ShapeTrees, seq_tree, map_tree, choice_tree};
ghost use Rattle.bitcode_untyped.specs.Walk.{variant, index_kind};
ghost use Rattle.bitcode_serde.specs.Budget.{spend};
ghost use Rattle.bitcode_serde.specs.ReadingValues.{IsSteady, Continues, IsValueReason};
ghost use Rattle.bitcode_serde.specs.ReadingValues.{Enters, EntersList};
ghost use Rattle.bitcode_serde.proofs.ValueLemmas.{EntersMap};
ghost use Rattle.bitcode_serde_types.specs.FieldsWritten.{tree_count};
ghost use Rattle.bitcode_serde_types.specs.ReadingAs.{ReadsAs, ReadsFieldAs, FieldFound};
ghost use Rattle.bitcode_serde_types.specs.Refusals.{IsRefusalAt, IsFieldRefusalAt};

use crate::deserialize_as::DeserializeAs;
use bitcode_memory::error::{Error, Reason};
use bitcode_memory::refuse::err;
use bitcode_serde::budget::Budget;
use bitcode_serde::free::ZST_LIMIT;
use bitcode_serde::reader::Reader;
use bitcode_serde::step::Step;
use std::alloc::Global;

/// The place of the elements of a list, and how many they are.
#[derive(Clone, Copy)]
pub struct Elements {
    pub place: usize,
    pub count: usize,
}

/// The places of the keys and of the values of a map, and how many pairs there are.
#[derive(Clone, Copy)]
pub struct Pairs {
    pub keys: usize,
    pub values: usize,
    pub count: usize,
}

/// The index of a variant, and the place of what it holds.
#[derive(Clone, Copy)]
pub struct Variant {
    pub index: u8,
    pub place: usize,
}

/// Follows a reference: how many may be followed below it.
///
/// Errors: `nested too deep` if it is one too many.
#[inline(always)]
pub fn follow(left: usize) -> Result<usize, Error>
    ensures followed { IfOk result (λ below. left ≡ suc below) }
    ensures fewer { IfOk result (λ below. below < left) }
    ensures refused { IfErr result (λ e. (left ≡ 0) × (e.reason ≡ Reason.NestedTooDeep)) }
{
    if left == 0 {
        return err(Reason::NestedTooDeep);
    }
    Ok(left - 1)
}

/// Finds the place of field `i` of a struct or a tuple with `fields` fields.
///
/// Errors: `out of memory`.
#[inline(always)]
pub fn find_field(
    reader: &mut Reader<'_>,
    place: usize,
    i: usize,
    fields: usize,
) -> Result<usize, Error>
    requires place { place ≤ length reader.old.places.below.items }
    requires steady { IsSteady reader.old }
    ensures continues { OnOk result (Continues reader.old reader.new) }
    ensures inside { IfOk result (λ inside. inside ≤ length reader.new.places.below.items) }
    ensures found { IfOk result
        (λ inside. FieldFound reader.old place i fields reader.new inside) }
    ensures refused { IfErr result (λ e. e.reason ≡ Reason.OutOfMemory) }
{
    let found = reader.field(place, i, fields, i)?;
    Ok(found)
}

/// Reads the length of a list, and finds the place of its elements. `is_free` says whether these have no column.
///
/// Errors: those of the column of lengths, and `too many zero sized types` if there are more than 65536 elements
/// without a column.
#[inline(always)]
pub fn enter_list(
    reader: &mut Reader<'_>,
    budget: &mut Budget,
    is_free: bool,
    place: usize,
) -> Result<Elements, Error>
    requires place { place ≤ length reader.old.places.below.items }
    requires steady { IsSteady reader.old }
    ensures taken { budget.new ≡ spend 1 budget.old }
    ensures continues { OnOk result (Continues reader.old reader.new) }
    ensures inside { IfOk result (λ list. list.place ≤ length reader.new.places.below.items) }
    ensures enters { IfOk result
        (λ list. EntersList reader.old reader.new place list.place list.count) }
    ensures few { IfOk result (λ list. is_free ≡ true → list.count ≤ free_limit) }
    ensures refused { IfErr result
        (λ e. (s : ShapeTree) → is_free ≡ column_free s
        → IsRefusalAt (seq_tree s) place reader.old e.reason) }
{
    budget.take(1);
    let taken = reader.take_length(place)?;
    if is_free && taken.length > ZST_LIMIT {
        return err(Reason::TooManyZeroSizedTypes);
    }
    let elements = reader.step(place, Step::Element, taken.total)?;
    Ok(Elements {
        place: elements,
        count: taken.length,
    })
}

/// Reads how many pairs a map has, and finds the places of its keys and of its values.
///
/// Errors: those of the column of lengths.
pub fn enter_map(reader: &mut Reader<'_>, budget: &mut Budget, place: usize) -> Result<Pairs, Error>
    requires place { place ≤ length reader.old.places.below.items }
    requires steady { IsSteady reader.old }
    ensures taken { budget.new ≡ spend 1 budget.old }
    ensures continues { OnOk result (Continues reader.old reader.new) }
    ensures inside { IfOk result
        (λ found. (found.keys ≤ length reader.new.places.below.items)
        × (found.values ≤ length reader.new.places.below.items)) }
    ensures enters { IfOk result
        (λ found. EntersMap reader.old reader.new place found.keys found.values found.count) }
    ensures refused { IfErr result
        (λ e. (k v : ShapeTree) → IsRefusalAt (map_tree k v) place reader.old e.reason) }
{
    budget.take(1);
    let taken = reader.take_length(place)?;
    let keys = reader.step(place, Step::Key, taken.total)?;
    let values = reader.step(place, Step::Value, taken.total)?;
    Ok(Pairs {
        keys,
        values,
        count: taken.length,
    })
}

/// Reads the index of a variant, and finds the place of what it holds. There are `variants` of them, and `unknown` is
/// the reason for which another index is rejected.
///
/// Errors: those of the column of indices, and `unknown`.
#[inline(always)]
pub fn enter_variant(
    reader: &mut Reader<'_>,
    budget: &mut Budget,
    variants: usize,
    unknown: Reason,
    place: usize,
) -> Result<Variant, Error>
    requires place { place ≤ length reader.old.places.below.items }
    requires steady { IsSteady reader.old }
    requires unknown { IsValueReason unknown }
    ensures taken { budget.new ≡ spend 1 budget.old }
    ensures continues { OnOk result (Continues reader.old reader.new) }
    ensures inside { IfOk result (λ found. found.place ≤ length reader.new.places.below.items) }
    ensures known { IfOk result (λ found. found.index < variants) }
    ensures enters { IfOk result
        (λ found. Enters (variant found.index) index_kind (natural found.index) reader.old
        reader.new place found.place) }
    ensures refused { IfErr result
        (λ e. (trees : ShapeTrees) → tree_count trees ≡ variants
        → IsRefusalAt (choice_tree trees) place reader.old e.reason) }
{
    budget.take(1);
    let taken = reader.take_index(place)?;
    let index = taken.index;
    if index as usize >= variants {
        return err(unknown);
    }
    let inside = reader.step(place, Step::Variant(index), taken.count)?;
    Ok(Variant {
        index,
        place: inside,
    })
}

/// Reads what a variant holds, at its place.
pub fn read_at<'a, T: DeserializeAs<'a>>(
    alloc: Global,
    reader: &mut Reader<'a>,
    budget: &mut Budget,
    left: usize,
    place: usize,
) -> Result<T, Error>
    requires place { place ≤ length reader.old.places.below.items }
    requires steady { IsSteady reader.old }
    ensures continues { OnOk result (Continues reader.old reader.new) }
    ensures read { IfOk result
        (λ t. ReadsAs T.datum (T.tree left) place reader.old budget.old t reader.new budget.new) }
    ensures refused { IfErr result (λ e. IsRefusalAt (T.tree left) place reader.old e.reason) }
{
    T::read(alloc, reader, budget, left, place)
}

/// Reads field `i` of a struct or a tuple with `fields` fields.
#[inline(always)]
pub fn read_field<'a, T: DeserializeAs<'a>>(
    alloc: Global,
    reader: &mut Reader<'a>,
    budget: &mut Budget,
    left: usize,
    place: usize,
    i: usize,
    fields: usize,
) -> Result<T, Error>
    requires place { place ≤ length reader.old.places.below.items }
    requires steady { IsSteady reader.old }
    ensures continues { OnOk result (Continues reader.old reader.new) }
    ensures there { OnOk result (place ≤ length reader.new.places.below.items) }
    ensures steady { OnOk result (IsSteady reader.new) }
    ensures read { IfOk result
        (λ t. ReadsFieldAs T.datum (T.tree left) place i fields reader.old budget.old t reader.new
        budget.new) }
    ensures refused { IfErr result
        (λ e. IsFieldRefusalAt (T.tree left) place i fields reader.old e.reason) }
{
    let inside = reader.field(place, i, fields, i)?;
    let value: T = T::read(alloc, reader, budget, left, inside)?;
    Ok(value)
}
