//! Vectors and texts of a fixed capacity: lists and texts of any length, of which those are taken that fit.
#![tactic(auto)]

ghost use Rattle.std.specs.Prelude.{◌≡◌, ◌≤◌, length, refl};
ghost use Rattle.bitcode_serde_types.specs.Limited.{array_string_datum, array_string_tree, array_vec_tree};
ghost use Rattle.bitcode_serde_types.specs.Lists.{list_datum};

use crate::deserialize_as::DeserializeAs;
use crate::has_shape::HasShape;
use crate::leaves::write_text;
use crate::lists::write_lent;
use crate::read_leaves::read_text;
use crate::sequences::{Limits, read_limited};
use crate::serialize_as::SerializeAs;
use arrayvec::{ArrayString, ArrayVec};
use bitcode_memory::error::{Error, Reason};
use bitcode_memory::refuse::err;
use bitcode_serde::budget::Budget;
use bitcode_serde::reader::Reader;
use bitcode_serde::writer::Writer;
use std::alloc::Global;
use std::default::Default;

impl<const N: usize> HasShape for ArrayString<N> {
    ghost tree = { λ left. array_string_tree N };

    ghost datum = { array_string_datum };

    ghost sound = { λ left. (tt, refl) };
}

impl<const N: usize> SerializeAs for ArrayString<N> {
    fn write(&self, writer: &mut Writer, _left: usize, place: usize) -> Result<(), Error> {
        write_text(self.as_str(), writer, place)
    }
}

impl<'a, const N: usize> DeserializeAs<'a> for ArrayString<N> {
    fn is_free() -> bool {
        false
    }

    fn read(
        _alloc: Global,
        reader: &mut Reader<'a>,
        budget: &mut Budget,
        _left: usize,
        place: usize,
    ) -> Result<ArrayString<N>, Error> {
        let words = read_text(reader, budget, place)?;
        match ArrayString::from(words) {
            Ok(string) => Ok(string),
            Err(_longer) => err(Reason::InvalidArrayString),
        }
    }
}

impl<T: HasShape, const N: usize> HasShape for ArrayVec<T, N> {
    ghost tree = { λ left. array_vec_tree N (T.tree left) };

    ghost datum = { λ v. list_datum T.datum v.items };

    ghost sound = { λ left. (T.sound left, refl) };
}

impl<T: SerializeAs, const N: usize> SerializeAs for ArrayVec<T, N> {
    fn write(&self, writer: &mut Writer, left: usize, place: usize) -> Result<(), Error> {
        write_lent(self.as_slice().iter(), self.len(), writer, left, place)
    }
}

// A vector of the values if they fit, and else an empty one.
fn if_they_fit<T: Default + Drop, const N: usize>(values: Vec<T>) -> ArrayVec<T, N>
    ensures { length values.items ≤ N → result.items ≡ values.items }
{
    let mut vec = ArrayVec::new();
    if values.len() > N {
        return vec;
    }
    for value in values {
        vec.push(value);
    }
    vec
}

impl<'a, T: DeserializeAs<'a> + Default, const N: usize> DeserializeAs<'a> for ArrayVec<T, N> {
    fn is_free() -> bool {
        false
    }

    fn read(
        alloc: Global,
        reader: &mut Reader<'a>,
        budget: &mut Budget,
        left: usize,
        place: usize,
    ) -> Result<ArrayVec<T, N>, Error> {
        let limits = Limits {
            least: 0,
            most: N,
            otherwise: Reason::InvalidArrayVec,
        };
        let values: Vec<T> = read_limited(alloc, reader, budget, left, place, limits)?;
        Ok(if_they_fit(values))
    }
}
