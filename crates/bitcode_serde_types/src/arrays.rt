//! Arrays: tuples whose fields have one type.
#![tactic(auto)]

ghost use Rattle.std.specs.Prelude.{◌≡◌, ◌≤◌, length, IfOk, IfErr, OnOk};
ghost use Rattle.bitcode_serde.specs.ReadingValues.{IsSteady, Continues};
ghost use Rattle.bitcode_serde.specs.Serializing.{Outcome};
ghost use Rattle.bitcode_serde_types.specs.Arrays.{array_datum, array_tree, repeated_sound};
ghost use Rattle.bitcode_serde_types.specs.DeepFaults.{deep_faults};
ghost use Rattle.bitcode_serde_types.specs.ReadingAs.{ReadsAs};
ghost use Rattle.bitcode_serde_types.specs.Refusals.{IsRefusalAt};

use crate::deserialize_as::DeserializeAs;
use crate::entering::read_field;
use crate::fields::SerializeFields;
use crate::has_shape::HasShape;
use crate::serialize_as::SerializeAs;
use bitcode_memory::error::Error;
use bitcode_serde::budget::Budget;
use bitcode_serde::reader::Reader;
use bitcode_serde::writer::Writer;
use std::alloc::Global;

// Writes the elements of an array.
fn write_alike<T: SerializeAs>(
    items: &[T],
    writer: &mut Writer,
    left: usize,
    place: usize,
) -> Result<(), Error>
    requires { place ≤ length writer.old.places.below.items }
    ensures { Outcome writer.old (array_tree (length items.now) (T.tree left)) place
        (array_datum T.datum items.now)
        (deep_faults (array_tree (length items.now) (T.tree left)) (array_datum T.datum items.now))
        result writer.new }
{
    for i in 0..items.len() {
        (&items[i], ()).write_fields(writer, left, place, i, items.len())?;
    }
    Ok(())
}

impl<T: HasShape, const N: usize> HasShape for [T; N] {
    ghost tree = { λ left. array_tree N (T.tree left) };

    ghost datum = { array_datum T.datum };

    ghost sound = { λ left. repeated_sound N (T.tree left) (T.sound left) };
}

impl<T: SerializeAs, const N: usize> SerializeAs for [T; N] {
    fn write(&self, writer: &mut Writer, left: usize, place: usize) -> Result<(), Error> {
        write_alike(self.as_slice(), writer, left, place)
    }
}

// Reads the elements of an array, all of them: they have room in the type.
fn read_alike<'a, T: DeserializeAs<'a>>(
    alloc: Global,
    reader: &mut Reader<'a>,
    budget: &mut Budget,
    left: usize,
    place: usize,
    count: usize,
) -> Result<Vec<T>, Error>
    requires place { place ≤ length reader.old.places.below.items }
    requires steady { IsSteady reader.old }
    ensures continues { OnOk result (Continues reader.old reader.new) }
    ensures size { IfOk result (λ v. length v.items ≡ count) }
    ensures read { IfOk result
        (λ v. ReadsAs (λ v. array_datum T.datum v.items) (array_tree count (T.tree left)) place
        reader.old budget.old v reader.new budget.new) }
    ensures refused { IfErr result
        (λ e. IsRefusalAt (array_tree count (T.tree left)) place reader.old e.reason) }
{
    budget.take(1);
    let mut items = Vec::new(alloc);
    for i in 0..count {
        let item: T = read_field(alloc, reader, budget, left, place, i, count)?;
        items.push(item)?;
    }
    Ok(items)
}

impl<'a, T: DeserializeAs<'a>, const N: usize> DeserializeAs<'a> for [T; N] {
    fn is_free() -> bool {
        if N == 0 {
            return true;
        }
        T::is_free()
    }

    fn read(
        alloc: Global,
        reader: &mut Reader<'a>,
        budget: &mut Budget,
        left: usize,
        place: usize,
    ) -> Result<[T; N], Error> {
        let items: Vec<T> = read_alike(alloc, reader, budget, left, place, N)?;
        match <[T; N]>::try_from(items) {
            Ok(array) => Ok(array),
            Err(_items) => unreachable!(),
        }
    }
}
