//! Texts that are owned, shared, or maybe borrowed.
#![tactic(auto)]

ghost use Rattle.std.specs.Prelude.{◌≡◌, ◌≤◌, ℕ, length, IfOk, IfErr, OnOk};
ghost use Rattle.std.specs.Arc.{arc_str_bytes};
ghost use Rattle.std.specs.Box.{boxed_str_bytes};
ghost use Rattle.std.specs.Cow.{cow_str_bytes};
ghost use Rattle.std.specs.Rc.{rc_str_bytes};
ghost use Rattle.bitcode_shapes.specs.Datum.{text};
ghost use Rattle.bitcode_untyped.specs.Bounds.{column_free};
ghost use Rattle.bitcode_untyped.specs.ShapeTree.{text_tree};
ghost use Rattle.bitcode_serde.specs.ReadingValues.{IsSteady, Continues};
ghost use Rattle.bitcode_serde_types.specs.ReadingAs.{ReadsAs};
ghost use Rattle.bitcode_serde_types.specs.Refusals.{IsRefusalAt};

use crate::deserialize_as::DeserializeAs;
use crate::has_shape::HasShape;
use crate::leaves::write_text;
use crate::read_leaves::read_text;
use crate::serialize_as::SerializeAs;
use bitcode_memory::error::Error;
use bitcode_serde::budget::Budget;
use bitcode_serde::reader::Reader;
use bitcode_serde::writer::Writer;
use std::alloc::Global;
use std::borrow::CowStr;
use std::boxed::BoxedStr;
use std::rc::RcStr;
use std::sync::ArcStr;

impl HasShape for BoxedStr {
    ghost tree = { λ left. text_tree };

    ghost datum = { λ s. text (boxed_str_bytes s) };

    ghost sound = { λ left. tt };
}

impl SerializeAs for BoxedStr {
    fn write(&self, writer: &mut Writer, _left: usize, place: usize) -> Result<(), Error> {
        write_text(self.as_str(), writer, place)
    }
}

impl<'a> DeserializeAs<'a> for BoxedStr {
    fn is_free() -> bool {
        false
    }

    fn read(
        alloc: Global,
        reader: &mut Reader<'a>,
        budget: &mut Budget,
        _left: usize,
        place: usize,
    ) -> Result<BoxedStr, Error> {
        let words = read_text(reader, budget, place)?;
        Ok(BoxedStr::from_str(alloc, words)?)
    }
}

impl HasShape for RcStr {
    ghost tree = { λ left. text_tree };

    ghost datum = { λ s. text (rc_str_bytes s) };

    ghost sound = { λ left. tt };
}

impl SerializeAs for RcStr {
    fn write(&self, writer: &mut Writer, _left: usize, place: usize) -> Result<(), Error> {
        write_text(self.as_str(), writer, place)
    }
}

impl<'a> DeserializeAs<'a> for RcStr {
    fn is_free() -> bool {
        false
    }

    fn read(
        alloc: Global,
        reader: &mut Reader<'a>,
        budget: &mut Budget,
        _left: usize,
        place: usize,
    ) -> Result<RcStr, Error> {
        let words = read_text(reader, budget, place)?;
        Ok(RcStr::from_str(alloc, words)?)
    }
}

impl HasShape for ArcStr {
    ghost tree = { λ left. text_tree };

    ghost datum = { λ s. text (arc_str_bytes s) };

    ghost sound = { λ left. tt };
}

impl SerializeAs for ArcStr {
    fn write(&self, writer: &mut Writer, _left: usize, place: usize) -> Result<(), Error> {
        write_text(self.as_str(), writer, place)
    }
}

impl<'a> DeserializeAs<'a> for ArcStr {
    fn is_free() -> bool {
        false
    }

    fn read(
        alloc: Global,
        reader: &mut Reader<'a>,
        budget: &mut Budget,
        _left: usize,
        place: usize,
    ) -> Result<ArcStr, Error> {
        let words = read_text(reader, budget, place)?;
        Ok(ArcStr::from_str(alloc, words)?)
    }
}

impl<'a> HasShape for CowStr<'a> {
    ghost tree = { λ left. text_tree };

    ghost datum = { λ s. text (cow_str_bytes s) };

    ghost sound = { λ left. tt };
}

impl<'a> SerializeAs for CowStr<'a> {
    fn write(&self, writer: &mut Writer, _left: usize, place: usize) -> Result<(), Error> {
        write_text(self.as_str(), writer, place)
    }
}

impl<'a> DeserializeAs<'a> for CowStr<'a> {
    fn is_free() -> bool
        ensures { (left : ℕ) → result ≡ column_free text_tree }
    {
        false
    }

    fn read(
        _alloc: Global,
        reader: &mut Reader<'a>,
        budget: &mut Budget,
        _left: usize,
        place: usize,
    ) -> Result<CowStr<'a>, Error>
        requires place { place ≤ length reader.old.places.below.items }
        requires steady { IsSteady reader.old }
        ensures continues { OnOk result (Continues reader.old reader.new) }
        ensures read { IfOk result
            (λ t. ReadsAs (λ s. text (cow_str_bytes s)) text_tree place reader.old budget.old t
            reader.new budget.new) }
        ensures refused { IfErr result (λ e. IsRefusalAt text_tree place reader.old e.reason) }
    {
        let words = read_text(reader, budget, place)?;
        Ok(CowStr::Borrowed(words))
    }
}
