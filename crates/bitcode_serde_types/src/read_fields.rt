//! Reading the fields of structs and tuples.
#![tactic(auto)]

ghost use Rattle.std.specs.Prelude.{◌≡◌, ℕ, ◌+◌, ◌≤◌, length, IfOk, IfErr, OnOk};
ghost use Rattle.bitcode_shapes.specs.Datum.{tuple};
ghost use Rattle.bitcode_untyped.specs.Bounds.{all_free};
ghost use Rattle.bitcode_untyped.specs.ShapeTree.{tuple_tree};
ghost use Rattle.bitcode_serde.specs.ReadingValues.{IsSteady, Continues};
ghost use Rattle.bitcode_serde_types.specs.FieldsWritten.{tree_count};
ghost use Rattle.bitcode_serde_types.specs.ReadingAs.{ReadsAs, ReadsFieldsAs};
ghost use Rattle.bitcode_serde_types.specs.Refusals.{IsRefusalAt, IsFieldsRefusalAt};

use crate::deserialize_as::DeserializeAs;
use crate::entering::read_field;
use crate::has_shape::HasShapes;
use bitcode_memory::error::Error;
use bitcode_serde::budget::Budget;
use bitcode_serde::reader::Reader;
use std::alloc::Global;

/// The fields of a struct or a tuple, from one of them on, that are read from the places of their shapes.
pub trait DeserializeFields<'a>: HasShapes {
    /// Whether none of the fields has an entry in any column.
    fn are_free() -> bool
        ensures { (left : ℕ) → result ≡ all_free (Self.trees left) };

    /// Reads the fields of a value with `fields` fields at a place, the first of which is field `i`.
    ///
    /// Errors: those of [`DeserializeAs::read`].
    fn read_fields(
        alloc: Global,
        reader: &mut Reader<'a>,
        budget: &mut Budget,
        left: usize,
        place: usize,
        i: usize,
        fields: usize,
    ) -> Result<Self, Error>
        requires place { place ≤ length reader.old.places.below.items }
        requires steady { IsSteady reader.old }
        requires within { i + tree_count (Self.trees left) ≤ fields }
        ensures continues { OnOk result (Continues reader.old reader.new) }
        ensures read { IfOk result
            (λ t. ReadsFieldsAs Self.content (Self.trees left) place i fields reader.old
            budget.old t reader.new budget.new) }
        ensures refused { IfErr result
            (λ e. IsFieldsRefusalAt (Self.trees left) place i fields reader.old e.reason) };
}

impl<'a> DeserializeFields<'a> for () {
    fn are_free() -> bool {
        true
    }

    #[inline(always)]
    fn read_fields(
        _alloc: Global,
        _reader: &mut Reader<'a>,
        _budget: &mut Budget,
        _left: usize,
        _place: usize,
        _i: usize,
        _fields: usize,
    ) -> Result<(), Error> {
        Ok(())
    }
}

impl<'a, A: DeserializeAs<'a>, R: DeserializeFields<'a>> DeserializeFields<'a> for (A, R) {
    fn are_free() -> bool {
        A::is_free() && R::are_free()
    }

    #[inline(always)]
    fn read_fields(
        alloc: Global,
        reader: &mut Reader<'a>,
        budget: &mut Budget,
        left: usize,
        place: usize,
        i: usize,
        fields: usize,
    ) -> Result<(A, R), Error> {
        let first: A = read_field(alloc, reader, budget, left, place, i, fields)?;
        let rest: R = R::read_fields(alloc, reader, budget, left, place, i + 1, fields)?;
        Ok((first, rest))
    }
}

/// Reads some fields of a struct or a tuple with `fields` fields, the first of which is field `i`.
///
/// Errors: those of [`DeserializeAs::read`].
#[inline(always)]
pub fn read_some<'a, R: DeserializeFields<'a>>(
    alloc: Global,
    reader: &mut Reader<'a>,
    budget: &mut Budget,
    left: usize,
    place: usize,
    i: usize,
    fields: usize,
) -> Result<R, Error>
    requires place { place ≤ length reader.old.places.below.items }
    requires steady { IsSteady reader.old }
    requires within { i + tree_count (R.trees left) ≤ fields }
    ensures continues { OnOk result (Continues reader.old reader.new) }
    ensures there { OnOk result (place ≤ length reader.new.places.below.items) }
    ensures steady { OnOk result (IsSteady reader.new) }
    ensures read { IfOk result
        (λ t. ReadsFieldsAs R.content (R.trees left) place i fields reader.old budget.old t
        reader.new budget.new) }
    ensures refused { IfErr result
        (λ e. IsFieldsRefusalAt (R.trees left) place i fields reader.old e.reason) }
{
    let some: R = R::read_fields(alloc, reader, budget, left, place, i, fields)?;
    Ok(some)
}

/// Reads a struct or a tuple with `count` fields.
///
/// Errors: those of [`DeserializeAs::read`].
#[inline(always)]
pub fn read_tuple<'a, R: DeserializeFields<'a>>(
    alloc: Global,
    reader: &mut Reader<'a>,
    budget: &mut Budget,
    left: usize,
    place: usize,
    count: usize,
) -> Result<R, Error>
    requires place { place ≤ length reader.old.places.below.items }
    requires steady { IsSteady reader.old }
    requires all { tree_count (R.trees left) ≡ count }
    ensures continues { OnOk result (Continues reader.old reader.new) }
    ensures read { IfOk result
        (λ t. ReadsAs (λ r. tuple (R.content r)) (tuple_tree (R.trees left)) place reader.old
        budget.old t reader.new budget.new) }
    ensures refused { IfErr result
        (λ e. IsRefusalAt (tuple_tree (R.trees left)) place reader.old e.reason) }
{
    budget.take(1);
    let fields: R = R::read_fields(alloc, reader, budget, left, place, 0, count)?;
    Ok(fields)
}
