//! Leaves: values that are entries of one column.
#![tactic(auto)]

ghost use Rattle.std.specs.Prelude.{◌≤◌, [], length, string_bytes};
ghost use Rattle.std.specs.Float.{binary32, binary64};
ghost use Rattle.bitcode_shapes.specs.Datum.{number, text};
ghost use Rattle.bitcode_shapes.specs.Floats.{float_number};
ghost use Rattle.bitcode_shapes.specs.LawfulInts.{width_1, width_2, width_4, width_8, width_16};
ghost use Rattle.bitcode_shapes.specs.Shape.{any_number};
ghost use Rattle.bitcode_coder.specs.Spelling.{natural, truth};
ghost use Rattle.bitcode_untyped.specs.ShapeTree.{leaf_tree, bool_tree, natural_tree, integer_tree};
ghost use Rattle.bitcode_untyped.specs.ShapeTree.{float_tree, char_tree, text_tree};
ghost use Rattle.bitcode_untyped.specs.View.{datum_of};
ghost use Rattle.bitcode_serde.specs.ReadColumns.{kind_of};
ghost use Rattle.bitcode_serde.specs.Serializing.{Outcome};

use crate::has_shape::HasShape;
use crate::serialize_as::SerializeAs;
use bitcode_memory::error::Error;
use bitcode_serde::case::Case;
use bitcode_serde::write_column::Entry;
use bitcode_serde::writer::Writer;
use std::mem::forget;

// Writes a number or a bool: an entry of the column of its case.
#[inline(always)]
fn write_leaf<T: Case + Copy>(leaf: &T, writer: &mut Writer, place: usize) -> Result<(), Error>
    requires { place ≤ length writer.old.places.below.items }
    ensures { Outcome writer.old (leaf_tree (kind_of T.kind) any_number) place
        (datum_of (T.holder leaf.now)) [] result writer.new }
{
    let value = (*leaf).into_value();
    let put = writer.put_one(place, T::column(), &value);
    // It owns no memory, so nothing needs to be dropped.
    forget(value);
    put
}

/// Writes a text.
#[inline(always)]
pub(crate) fn write_text(words: &str, writer: &mut Writer, place: usize) -> Result<(), Error>
    requires { place ≤ length writer.old.places.below.items }
    ensures { Outcome writer.old text_tree place (text words.now) [] result writer.new }
{
    writer.put_text(place, words)
}

impl HasShape for bool {
    ghost tree = { λ left. bool_tree };

    ghost datum = { truth };

    ghost sound = { λ left. tt };
}

impl SerializeAs for bool {
    #[inline(always)]
    fn write(&self, writer: &mut Writer, _left: usize, place: usize) -> Result<(), Error> {
        write_leaf(self, writer, place)
    }
}

impl HasShape for u8 {
    ghost tree = { λ left. natural_tree 1 };

    ghost datum = { natural };

    ghost sound = { λ left. width_1 };
}

impl SerializeAs for u8 {
    #[inline(always)]
    fn write(&self, writer: &mut Writer, _left: usize, place: usize) -> Result<(), Error> {
        write_leaf(self, writer, place)
    }
}

impl HasShape for u16 {
    ghost tree = { λ left. natural_tree 2 };

    ghost datum = { natural };

    ghost sound = { λ left. width_2 };
}

impl SerializeAs for u16 {
    #[inline(always)]
    fn write(&self, writer: &mut Writer, _left: usize, place: usize) -> Result<(), Error> {
        write_leaf(self, writer, place)
    }
}

impl HasShape for u32 {
    ghost tree = { λ left. natural_tree 4 };

    ghost datum = { natural };

    ghost sound = { λ left. width_4 };
}

impl SerializeAs for u32 {
    #[inline(always)]
    fn write(&self, writer: &mut Writer, _left: usize, place: usize) -> Result<(), Error> {
        write_leaf(self, writer, place)
    }
}

impl HasShape for u64 {
    ghost tree = { λ left. natural_tree 8 };

    ghost datum = { natural };

    ghost sound = { λ left. width_8 };
}

impl SerializeAs for u64 {
    #[inline(always)]
    fn write(&self, writer: &mut Writer, _left: usize, place: usize) -> Result<(), Error> {
        write_leaf(self, writer, place)
    }
}

impl HasShape for u128 {
    ghost tree = { λ left. natural_tree 16 };

    ghost datum = { natural };

    ghost sound = { λ left. width_16 };
}

impl SerializeAs for u128 {
    #[inline(always)]
    fn write(&self, writer: &mut Writer, _left: usize, place: usize) -> Result<(), Error> {
        write_leaf(self, writer, place)
    }
}

impl HasShape for i8 {
    ghost tree = { λ left. integer_tree 1 };

    ghost datum = { number };

    ghost sound = { λ left. width_1 };
}

impl SerializeAs for i8 {
    #[inline(always)]
    fn write(&self, writer: &mut Writer, _left: usize, place: usize) -> Result<(), Error> {
        write_leaf(self, writer, place)
    }
}

impl HasShape for i16 {
    ghost tree = { λ left. integer_tree 2 };

    ghost datum = { number };

    ghost sound = { λ left. width_2 };
}

impl SerializeAs for i16 {
    #[inline(always)]
    fn write(&self, writer: &mut Writer, _left: usize, place: usize) -> Result<(), Error> {
        write_leaf(self, writer, place)
    }
}

impl HasShape for i32 {
    ghost tree = { λ left. integer_tree 4 };

    ghost datum = { number };

    ghost sound = { λ left. width_4 };
}

impl SerializeAs for i32 {
    #[inline(always)]
    fn write(&self, writer: &mut Writer, _left: usize, place: usize) -> Result<(), Error> {
        write_leaf(self, writer, place)
    }
}

impl HasShape for i64 {
    ghost tree = { λ left. integer_tree 8 };

    ghost datum = { number };

    ghost sound = { λ left. width_8 };
}

impl SerializeAs for i64 {
    #[inline(always)]
    fn write(&self, writer: &mut Writer, _left: usize, place: usize) -> Result<(), Error> {
        write_leaf(self, writer, place)
    }
}

impl HasShape for i128 {
    ghost tree = { λ left. integer_tree 16 };

    ghost datum = { number };

    ghost sound = { λ left. width_16 };
}

impl SerializeAs for i128 {
    #[inline(always)]
    fn write(&self, writer: &mut Writer, _left: usize, place: usize) -> Result<(), Error> {
        write_leaf(self, writer, place)
    }
}

impl HasShape for usize {
    ghost tree = { ⟦<u64 as HasShape>⟧.tree };

    ghost datum = { natural };

    ghost sound = { ⟦<u64 as HasShape>⟧.sound };
}

impl SerializeAs for usize {
    #[inline(always)]
    fn write(&self, writer: &mut Writer, left: usize, place: usize) -> Result<(), Error> {
        (*self as u64).write(writer, left, place)
    }
}

impl HasShape for isize {
    ghost tree = { ⟦<i64 as HasShape>⟧.tree };

    ghost datum = { number };

    ghost sound = { ⟦<i64 as HasShape>⟧.sound };
}

impl SerializeAs for isize {
    #[inline(always)]
    fn write(&self, writer: &mut Writer, left: usize, place: usize) -> Result<(), Error> {
        (*self as i64).write(writer, left, place)
    }
}

impl HasShape for f32 {
    ghost tree = { λ left. float_tree binary32 };

    ghost datum = { λ x. number (float_number binary32 x) };

    ghost sound = { λ left. tt };
}

impl SerializeAs for f32 {
    #[inline(always)]
    fn write(&self, writer: &mut Writer, _left: usize, place: usize) -> Result<(), Error> {
        write_leaf(self, writer, place)
    }
}

impl HasShape for f64 {
    ghost tree = { λ left. float_tree binary64 };

    ghost datum = { λ x. number (float_number binary64 x) };

    ghost sound = { λ left. tt };
}

impl SerializeAs for f64 {
    #[inline(always)]
    fn write(&self, writer: &mut Writer, _left: usize, place: usize) -> Result<(), Error> {
        write_leaf(self, writer, place)
    }
}

impl HasShape for char {
    ghost tree = { λ left. char_tree };

    ghost datum = { natural };

    ghost sound = { λ left. width_4 };
}

impl SerializeAs for char {
    #[inline(always)]
    fn write(&self, writer: &mut Writer, _left: usize, place: usize) -> Result<(), Error> {
        let code = *self;
        writer.put(place, Entry::Code(code as u32))
    }
}

impl HasShape for String {
    ghost tree = { λ left. text_tree };

    ghost datum = { λ s. text (string_bytes s) };

    ghost sound = { λ left. tt };
}

impl SerializeAs for String {
    #[inline(always)]
    fn write(&self, writer: &mut Writer, _left: usize, place: usize) -> Result<(), Error> {
        write_text(self.as_str(), writer, place)
    }
}

impl<'a> HasShape for &'a str {
    ghost tree = { λ left. text_tree };

    ghost datum = { λ s. text s.now };

    ghost sound = { λ left. tt };
}

impl<'a> SerializeAs for &'a str {
    #[inline(always)]
    fn write(&self, writer: &mut Writer, _left: usize, place: usize) -> Result<(), Error> {
        write_text(*self, writer, place)
    }
}
