//! Tuples in two parts: the first fields, and the others. The checker proves no more than eight references at once.
#![tactic(auto)]

ghost use Rattle.std.specs.Prelude.{◌≡◌, ℕ, ◌+◌, ◌≤◌, length, IfOk, IfErr, OnOk};
ghost use Rattle.bitcode_shapes.specs.Datum.{tuple};
ghost use Rattle.bitcode_untyped.specs.Bounds.{all_free};
ghost use Rattle.bitcode_untyped.specs.ShapeTree.{tuple_tree};
ghost use Rattle.bitcode_serde.specs.ReadingValues.{IsSteady, Continues};
ghost use Rattle.bitcode_serde.specs.Serializing.{Outcome};
ghost use Rattle.bitcode_serde_types.specs.DeepFaults.{deep_faults_of_fields};
ghost use Rattle.bitcode_serde_types.specs.FieldsWritten.{tree_count};
ghost use Rattle.bitcode_serde_types.specs.Joined.{joined, joined_data, data_count};
ghost use Rattle.bitcode_serde_types.specs.ReadingAs.{ReadsAs};
ghost use Rattle.bitcode_serde_types.specs.Refusals.{IsRefusalAt};

use crate::fields::SerializeFields;
use crate::read_fields::DeserializeFields;
use bitcode_memory::error::Error;
use bitcode_serde::budget::Budget;
use bitcode_serde::reader::Reader;
use bitcode_serde::writer::Writer;
use std::alloc::Global;

/// Writes a tuple with `count` fields, the first `split` of which are in `first`.
#[inline(always)]
pub(crate) fn write_in_parts<P: SerializeFields, R: SerializeFields>(
    first: &P,
    rest: &R,
    split: usize,
    count: usize,
    writer: &mut Writer,
    left: usize,
    place: usize,
) -> Result<(), Error>
    requires place { place ≤ length writer.old.places.below.items }
    requires first { tree_count (P.trees left) ≡ split }
    requires all { split + tree_count (R.trees left) ≡ count }
    requires as_many { data_count (P.content first.now) ≡ tree_count (P.trees left) }
    ensures { Outcome writer.old (tuple_tree (joined (P.trees left) (R.trees left))) place
        (tuple (joined_data (P.content first.now) (R.content rest.now)))
        (deep_faults_of_fields (joined (P.trees left) (R.trees left))
        (joined_data (P.content first.now) (R.content rest.now))) result writer.new }
{
    first.write_fields(writer, left, place, 0, count)?;
    rest.write_fields(writer, left, place, split, count)
}

/// Whether none of the fields of either part has an entry in any column.
pub(crate) fn are_free_in_parts<'a, P: DeserializeFields<'a>, R: DeserializeFields<'a>>() -> bool
    ensures { (left : ℕ) → result ≡ all_free (joined (P.trees left) (R.trees left)) }
{
    P::are_free() && R::are_free()
}

/// Reads a tuple with `count` fields, the first `split` of which are the first part.
///
/// Errors: those of [`crate::deserialize_as::DeserializeAs::read`].
#[inline(always)]
pub(crate) fn read_in_parts<'a, P: DeserializeFields<'a> + Drop, R: DeserializeFields<'a>>(
    alloc: Global,
    reader: &mut Reader<'a>,
    budget: &mut Budget,
    left: usize,
    place: usize,
    split: usize,
    count: usize,
) -> Result<(P, R), Error>
    requires place { place ≤ length reader.old.places.below.items }
    requires steady { IsSteady reader.old }
    requires first { tree_count (P.trees left) ≡ split }
    requires all { split + tree_count (R.trees left) ≡ count }
    ensures continues { OnOk result (Continues reader.old reader.new) }
    ensures read { IfOk result
        (λ t. ReadsAs (λ r. tuple (joined_data (P.content r.0) (R.content r.1)))
        (tuple_tree (joined (P.trees left) (R.trees left))) place reader.old budget.old t reader.new
        budget.new) }
    ensures refused { IfErr result
        (λ e. IsRefusalAt (tuple_tree (joined (P.trees left) (R.trees left))) place reader.old
        e.reason) }
{
    budget.take(1);
    let first: P = P::read_fields(alloc, reader, budget, left, place, 0, count)?;
    let rest: R = R::read_fields(alloc, reader, budget, left, place, split, count)?;
    Ok((first, rest))
}
