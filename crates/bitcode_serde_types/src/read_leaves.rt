//! Reading leaves: values that are entries of one column.
#![tactic(auto)]

ghost use Rattle.std.specs.Prelude.{◌≡◌, ◌≤◌, ℕ, length, IfOk, IfErr, OnOk};
ghost use Rattle.bitcode_shapes.specs.Datum.{text};
ghost use Rattle.bitcode_shapes.specs.Shape.{any_number};
ghost use Rattle.bitcode_untyped.specs.Bounds.{column_free};
ghost use Rattle.bitcode_untyped.specs.ShapeTree.{leaf_tree, text_tree};
ghost use Rattle.bitcode_untyped.specs.View.{datum_of};
ghost use Rattle.bitcode_serde.specs.Budget.{spend};
ghost use Rattle.bitcode_serde.specs.ReadColumns.{kind_of};
ghost use Rattle.bitcode_serde.specs.ReadingValues.{IsSteady, Continues, ReadsAt};
ghost use Rattle.bitcode_serde_types.specs.ReadingAs.{ReadsAs};
ghost use Rattle.bitcode_serde_types.specs.Refusals.{IsRefusalAt};

use crate::deserialize_as::DeserializeAs;
use bitcode_memory::error::{Error, Reason};
use bitcode_memory::refuse::err;
use bitcode_serde::budget::Budget;
use bitcode_serde::case::Case;
use bitcode_serde::read_leaf::read_leaf;
use bitcode_serde::reader::Reader;
use std::alloc::Global;

/// Reads a number or a bool: an entry of the column of its case.
#[inline(always)]
pub(crate) fn read_number<T: Case + Copy>(
    reader: &mut Reader<'_>,
    budget: &mut Budget,
    place: usize,
) -> Result<T, Error>
    requires place { place ≤ length reader.old.places.below.items }
    requires steady { IsSteady reader.old }
    ensures continues { OnOk result (Continues reader.old reader.new) }
    ensures read { IfOk result
        (λ t. ReadsAs (λ t. datum_of (T.holder t)) (leaf_tree (kind_of T.kind) any_number) place
        reader.old budget.old t reader.new budget.new) }
    ensures taken { budget.new ≡ spend 1 budget.old }
    ensures entry { IfOk result
        (λ t. ReadsAt (leaf_tree (kind_of T.kind) any_number) place reader.old
        (datum_of (T.holder t)) reader.new) }
    ensures refused { IfErr result
        (λ e. IsRefusalAt (leaf_tree (kind_of T.kind) any_number) place reader.old e.reason) }
{
    budget.take(1);
    let value = read_leaf(reader, place, T::column())?;
    match T::held(&value) {
        Some(held) => Ok(*held),
        None => unreachable!(),
    }
}

/// Reads a text.
#[inline(always)]
pub(crate) fn read_text<'a>(
    reader: &mut Reader<'a>,
    budget: &mut Budget,
    place: usize,
) -> Result<&'a str, Error>
    requires place { place ≤ length reader.old.places.below.items }
    requires steady { IsSteady reader.old }
    ensures continues { OnOk result (Continues reader.old reader.new) }
    ensures read { IfOk result
        (λ words. ReadsAs (λ s. text s.now) text_tree place reader.old budget.old words reader.new
        budget.new) }
    ensures taken { budget.new ≡ spend 1 budget.old }
    ensures entry { IfOk result
        (λ words. ReadsAt text_tree place reader.old (text words.now) reader.new) }
    ensures refused { IfErr result (λ e. IsRefusalAt text_tree place reader.old e.reason) }
{
    budget.take(1);
    let words = reader.take_text(place)?;
    Ok(words)
}

impl<'a> DeserializeAs<'a> for bool {
    fn is_free() -> bool {
        false
    }

    #[inline(always)]
    fn read(
        _alloc: Global,
        reader: &mut Reader<'a>,
        budget: &mut Budget,
        _left: usize,
        place: usize,
    ) -> Result<bool, Error> {
        read_number(reader, budget, place)
    }
}

impl<'a> DeserializeAs<'a> for u8 {
    fn is_free() -> bool {
        false
    }

    #[inline(always)]
    fn read(
        _alloc: Global,
        reader: &mut Reader<'a>,
        budget: &mut Budget,
        _left: usize,
        place: usize,
    ) -> Result<u8, Error> {
        read_number(reader, budget, place)
    }
}

impl<'a> DeserializeAs<'a> for u16 {
    fn is_free() -> bool {
        false
    }

    #[inline(always)]
    fn read(
        _alloc: Global,
        reader: &mut Reader<'a>,
        budget: &mut Budget,
        _left: usize,
        place: usize,
    ) -> Result<u16, Error> {
        read_number(reader, budget, place)
    }
}

impl<'a> DeserializeAs<'a> for u32 {
    fn is_free() -> bool {
        false
    }

    #[inline(always)]
    fn read(
        _alloc: Global,
        reader: &mut Reader<'a>,
        budget: &mut Budget,
        _left: usize,
        place: usize,
    ) -> Result<u32, Error> {
        read_number(reader, budget, place)
    }
}

impl<'a> DeserializeAs<'a> for u64 {
    fn is_free() -> bool {
        false
    }

    #[inline(always)]
    fn read(
        _alloc: Global,
        reader: &mut Reader<'a>,
        budget: &mut Budget,
        _left: usize,
        place: usize,
    ) -> Result<u64, Error> {
        read_number(reader, budget, place)
    }
}

impl<'a> DeserializeAs<'a> for u128 {
    fn is_free() -> bool {
        false
    }

    #[inline(always)]
    fn read(
        _alloc: Global,
        reader: &mut Reader<'a>,
        budget: &mut Budget,
        _left: usize,
        place: usize,
    ) -> Result<u128, Error> {
        read_number(reader, budget, place)
    }
}

impl<'a> DeserializeAs<'a> for i8 {
    fn is_free() -> bool {
        false
    }

    #[inline(always)]
    fn read(
        _alloc: Global,
        reader: &mut Reader<'a>,
        budget: &mut Budget,
        _left: usize,
        place: usize,
    ) -> Result<i8, Error> {
        read_number(reader, budget, place)
    }
}

impl<'a> DeserializeAs<'a> for i16 {
    fn is_free() -> bool {
        false
    }

    #[inline(always)]
    fn read(
        _alloc: Global,
        reader: &mut Reader<'a>,
        budget: &mut Budget,
        _left: usize,
        place: usize,
    ) -> Result<i16, Error> {
        read_number(reader, budget, place)
    }
}

impl<'a> DeserializeAs<'a> for i32 {
    fn is_free() -> bool {
        false
    }

    #[inline(always)]
    fn read(
        _alloc: Global,
        reader: &mut Reader<'a>,
        budget: &mut Budget,
        _left: usize,
        place: usize,
    ) -> Result<i32, Error> {
        read_number(reader, budget, place)
    }
}

impl<'a> DeserializeAs<'a> for i64 {
    fn is_free() -> bool {
        false
    }

    #[inline(always)]
    fn read(
        _alloc: Global,
        reader: &mut Reader<'a>,
        budget: &mut Budget,
        _left: usize,
        place: usize,
    ) -> Result<i64, Error> {
        read_number(reader, budget, place)
    }
}

impl<'a> DeserializeAs<'a> for i128 {
    fn is_free() -> bool {
        false
    }

    #[inline(always)]
    fn read(
        _alloc: Global,
        reader: &mut Reader<'a>,
        budget: &mut Budget,
        _left: usize,
        place: usize,
    ) -> Result<i128, Error> {
        read_number(reader, budget, place)
    }
}

impl<'a> DeserializeAs<'a> for usize {
    fn is_free() -> bool {
        false
    }

    #[inline(always)]
    fn read(
        alloc: Global,
        reader: &mut Reader<'a>,
        budget: &mut Budget,
        left: usize,
        place: usize,
    ) -> Result<usize, Error> {
        let n: u64 = u64::read(alloc, reader, budget, left, place)?;
        Ok(n as usize)
    }
}

impl<'a> DeserializeAs<'a> for isize {
    fn is_free() -> bool {
        false
    }

    #[inline(always)]
    fn read(
        alloc: Global,
        reader: &mut Reader<'a>,
        budget: &mut Budget,
        left: usize,
        place: usize,
    ) -> Result<isize, Error> {
        let n: i64 = i64::read(alloc, reader, budget, left, place)?;
        Ok(n as isize)
    }
}

impl<'a> DeserializeAs<'a> for f32 {
    fn is_free() -> bool {
        false
    }

    #[inline(always)]
    fn read(
        _alloc: Global,
        reader: &mut Reader<'a>,
        budget: &mut Budget,
        _left: usize,
        place: usize,
    ) -> Result<f32, Error> {
        read_number(reader, budget, place)
    }
}

impl<'a> DeserializeAs<'a> for f64 {
    fn is_free() -> bool {
        false
    }

    #[inline(always)]
    fn read(
        _alloc: Global,
        reader: &mut Reader<'a>,
        budget: &mut Budget,
        _left: usize,
        place: usize,
    ) -> Result<f64, Error> {
        read_number(reader, budget, place)
    }
}

impl<'a> DeserializeAs<'a> for char {
    fn is_free() -> bool {
        false
    }

    #[inline(always)]
    fn read(
        _alloc: Global,
        reader: &mut Reader<'a>,
        budget: &mut Budget,
        _left: usize,
        place: usize,
    ) -> Result<char, Error> {
        budget.take(1);
        let code = reader.take_code(place)?;
        match char::from_u32(code) {
            Some(c) => Ok(c),
            None => err(Reason::InvalidChar),
        }
    }
}

impl<'a> DeserializeAs<'a> for &'a str {
    fn is_free() -> bool
        ensures { (left : ℕ) → result ≡ column_free text_tree }
    {
        false
    }

    #[inline(always)]
    fn read(
        _alloc: Global,
        reader: &mut Reader<'a>,
        budget: &mut Budget,
        _left: usize,
        place: usize,
    ) -> Result<&'a str, Error>
        requires place { place ≤ length reader.old.places.below.items }
        requires steady { IsSteady reader.old }
        ensures continues { OnOk result (Continues reader.old reader.new) }
        ensures read { IfOk result
            (λ t. ReadsAs (λ s. text s.now) text_tree place reader.old budget.old t reader.new
            budget.new) }
        ensures refused { IfErr result (λ e. IsRefusalAt text_tree place reader.old e.reason) }
    {
        read_text(reader, budget, place)
    }
}

impl<'a> DeserializeAs<'a> for String {
    fn is_free() -> bool {
        false
    }

    fn read(
        alloc: Global,
        reader: &mut Reader<'a>,
        budget: &mut Budget,
        _left: usize,
        place: usize,
    ) -> Result<String, Error> {
        let words = read_text(reader, budget, place)?;
        Ok(String::from_str(alloc, words)?)
    }
}
