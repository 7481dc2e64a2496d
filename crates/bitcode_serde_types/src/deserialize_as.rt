//! Decoding values of Rust types.
ghost use Rattle.std.specs.Prelude.{◌≡◌, ◌≤◌, ◌*◌, ℕ, length, IfOk, IfErr, OnOk};
ghost use Rattle.bitcode_shapes.specs.Datum.{Datum};
ghost use Rattle.bitcode_untyped.specs.Bounds.{column_free, element_count};
ghost use Rattle.bitcode_untyped.specs.Nodes.{node_count};
ghost use Rattle.bitcode_untyped.specs.PlacedColumns.{columns_of, entry_count};
ghost use Rattle.bitcode_untyped.specs.Spelling.{SpellsDatum};
ghost use Rattle.bitcode_serde.specs.ReadingValues.{IsSteady, Continues};
ghost use Rattle.bitcode_serde_types.specs.ReadingAs.{KeepsAs, ReadsAs, SpellsAs};
ghost use Rattle.bitcode_serde_types.specs.Refusals.{IsRefusalAt, IsRefusalWithin, IsWholeRefusal};
ghost use Rattle.bitcode_serde_types.specs.Restates.{Restates, KeepsAll};

use crate::has_shape::HasShape;
use crate::serialize_as::DEEPEST;
use bitcode_memory::error::{Error, Reason};
use bitcode_memory::refuse::err;
use bitcode_serde::budget::Budget;
use bitcode_serde::reader::Reader;
use std::alloc::Global;

/// A type whose values are read from the places of its shape. They may borrow texts from the input.
pub trait DeserializeAs<'a>: HasShape + Drop {
    /// Whether values of the type have no entry in any column, as `()` has none.
    fn is_free() -> bool
        ensures { (left : ℕ) → result ≡ column_free (Self.tree left) };

    /// Reads a value at a place, below which so many references may be followed.
    ///
    /// It takes the nodes of the value from the budget. Once the budget is spent, it reads the rest only for faults,
    /// and the value must not be used.
    fn read(
        alloc: Global,
        reader: &mut Reader<'a>,
        budget: &mut Budget,
        left: usize,
        place: usize,
    ) -> Result<Self, Error>
        requires place { place ≤ length reader.old.places.below.items }
        requires steady { IsSteady reader.old }
        ensures continues { OnOk result (Continues reader.old reader.new) }
        ensures read { IfOk result
            (λ t. ReadsAs Self.datum (Self.tree left) place reader.old budget.old t reader.new
            budget.new) }
        ensures refused { IfErr result
            (λ e. IsRefusalAt (Self.tree left) place reader.old e.reason) };
}

// Reads a value from the whole input, as far as a budget of nodes keeps it.
fn read_whole<'a, T: DeserializeAs<'a>>(
    alloc: Global,
    bytes: &'a [u8],
    budget: &mut Budget,
) -> Result<T, Error>
    ensures read { IfOk result
        (λ t. KeepsAs (Restates (T.tree 513)) T.datum (SpellsDatum (T.tree 513) bytes.now)
        budget.old t budget.new) }
    ensures refused { IfErr result
        (λ e. IsWholeRefusal (T.tree 513) (SpellsDatum (T.tree 513) bytes.now) e.reason) }
{
    let mut reader = Reader::new(alloc, bytes, false);
    let value: T = T::read(alloc, &mut reader, budget, DEEPEST, 0)?;
    if !reader.is_at_end() {
        return err(Reason::ExpectedEof);
    }
    Ok(value)
}

/// Decodes the bytes, which must spell exactly one value of the type's shape, without making a `Value` of it.
///
/// Errors: `EOF`, `Expected EOF`, `invalid packing`, `length overflow`, `huge length`, `invalid utf8`,
/// `invalid enum variant`, `invalid option`, `invalid char`, `too many zero sized types`, `nested too deep`, and of
/// types that reject data `invalid bit pattern`, `invalid ArrayVec` and `invalid ArrayString`, each only if the input
/// spells no value of the shape, and `out of memory`.
///
/// A byte may spell up to 524296 elements, and each is allocated: decode untrusted input with
/// [`deserialize_as_within`].
pub fn deserialize_as<'a, T: DeserializeAs<'a>>(alloc: Global, bytes: &'a [u8]) -> Result<T, Error>
    ensures read { IfOk result (λ t. SpellsAs (T.tree 513) bytes.now (T.datum t)) }
    ensures exact { KeepsAll (T.tree 513) → IfOk result
        (λ t. SpellsDatum (T.tree 513) bytes.now (T.datum t)) }
    ensures refused { IfErr result
        (λ e. IsWholeRefusal (T.tree 513) (SpellsDatum (T.tree 513) bytes.now) e.reason) }
    ensures unambiguous { (d e : Datum) → SpellsDatum (T.tree 513) bytes.now d
        → SpellsDatum (T.tree 513) bytes.now e → d ≡ e }
    ensures size_bound { (d : Datum) → SpellsDatum (T.tree 513) bytes.now d
        → entry_count (columns_of (T.tree 513) d) ≤ 8 * length bytes.now }
    ensures bounded { (d : Datum) → SpellsDatum (T.tree 513) bytes.now d
        → element_count d ≤ 524296 * length bytes.now }
{
    let mut budget = Budget::Endless;
    let value: T = read_whole(alloc, bytes, &mut budget)?;
    Ok(value)
}

/// Decodes the bytes as [`deserialize_as`] does, if the value has at most `limit` nodes.
///
/// Each unit, number, text, list, tuple and variant in the value is a node, and so is the value itself. A few bytes may
/// spell millions of nodes. So use this call for untrusted input, and limit the input's size too. Once more than
/// `limit` nodes were read, the lists so far do not grow, and the rest of the input is only validated.
///
/// Errors: those of [`deserialize_as`], and `too many nodes` if the input spells a value of the shape with more than
/// `limit` nodes.
pub fn deserialize_as_within<'a, T: DeserializeAs<'a>>(
    alloc: Global,
    bytes: &'a [u8],
    limit: usize,
) -> Result<T, Error>
    ensures read { IfOk result (λ t. SpellsAs (T.tree 513) bytes.now (T.datum t)) }
    ensures exact { KeepsAll (T.tree 513) → IfOk result
        (λ t. SpellsDatum (T.tree 513) bytes.now (T.datum t)) }
    ensures within { (d : Datum) → SpellsDatum (T.tree 513) bytes.now d
        → OnOk result (node_count d ≤ limit) }
    ensures refused { IfErr result
        (λ e. IsRefusalWithin (T.tree 513) limit (SpellsDatum (T.tree 513) bytes.now)
        e.reason) }
    ensures unambiguous { (d e : Datum) → SpellsDatum (T.tree 513) bytes.now d
        → SpellsDatum (T.tree 513) bytes.now e → d ≡ e }
    ensures size_bound { (d : Datum) → SpellsDatum (T.tree 513) bytes.now d
        → entry_count (columns_of (T.tree 513) d) ≤ 8 * length bytes.now }
    ensures bounded { (d : Datum) → SpellsDatum (T.tree 513) bytes.now d
        → element_count d ≤ 524296 * length bytes.now }
{
    let mut budget = Budget::Nodes(limit);
    let value: T = read_whole(alloc, bytes, &mut budget)?;
    if budget.is_spent() {
        return err(Reason::TooManyNodes);
    }
    Ok(value)
}
