//! `Polygon`, `Corner`, `Fill` in the second format. What is below the declarations was written by
//! `scripts/second_format`.

use bitcode_serde_types::written::{
    Budget, DeserializeAs, DeserializeFields, Error, HasShape, Reader, Reason, SerializeAs, Writer,
    enter_variant, read_at, read_tuple, write_tuple, write_variant,
};
use std::alloc::Global;
use std::boxed::BoxedStr;

/// A polygon.
#[derive(Drop)]
pub struct Polygon {
    pub corners: Vec<Corner>,
    pub fill: Fill,
    pub label: Option<BoxedStr>,
}

/// A corner of a polygon.
#[derive(Drop)]
pub struct Corner {
    pub x: i32,
    pub y: i32,
}

/// How a polygon is filled.
#[derive(Drop)]
pub enum Fill {
    Nothing,
    Colour(u32),
    Pattern(String, i64),
}

impl HasShape for Polygon {
    ghost use Rattle.bitcode_recursive_types.specs.PolygonShape.{polygon_tree, polygon_datum, polygon_sound};

    ghost tree = { polygon_tree };

    ghost datum = { polygon_datum };

    ghost sound = { polygon_sound };
}

impl SerializeAs for Polygon {
    fn write(&self, writer: &mut Writer, left: usize, place: usize) -> Result<(), Error> {
        let fields = (&self.corners, (&self.fill, (&self.label, ())));
        write_tuple(&fields, 3, writer, left, place)
    }
}

impl<'a> DeserializeAs<'a> for Polygon {
    fn is_free() -> bool {
        <(Vec<Corner>, (Fill, (Option<BoxedStr>, ()))) as DeserializeFields<'a>>::are_free()
    }

    fn read(
        alloc: Global,
        reader: &mut Reader<'a>,
        budget: &mut Budget,
        left: usize,
        place: usize,
    ) -> Result<Polygon, Error> {
        let fields: (Vec<Corner>, (Fill, (Option<BoxedStr>, ()))) = read_tuple(
            alloc, reader, budget, left, place, 3,
        )?;
        let (corners, (fill, (label, _end))) = fields;
        Ok(Polygon {
            corners,
            fill,
            label,
        })
    }
}

impl HasShape for Corner {
    ghost use Rattle.bitcode_recursive_types.specs.PolygonShape.{corner_tree, corner_datum, corner_sound};

    ghost tree = { corner_tree };

    ghost datum = { corner_datum };

    ghost sound = { corner_sound };
}

impl SerializeAs for Corner {
    fn write(&self, writer: &mut Writer, left: usize, place: usize) -> Result<(), Error> {
        write_tuple(&(&self.x, (&self.y, ())), 2, writer, left, place)
    }
}

impl<'a> DeserializeAs<'a> for Corner {
    fn is_free() -> bool {
        <(i32, (i32, ())) as DeserializeFields<'a>>::are_free()
    }

    fn read(
        alloc: Global,
        reader: &mut Reader<'a>,
        budget: &mut Budget,
        left: usize,
        place: usize,
    ) -> Result<Corner, Error> {
        let fields: (i32, (i32, ())) = read_tuple(alloc, reader, budget, left, place, 2)?;
        let (x, (y, _end)) = fields;
        Ok(Corner { x, y })
    }
}

impl HasShape for Fill {
    ghost use Rattle.bitcode_recursive_types.specs.PolygonShape.{fill_tree, fill_datum, fill_sound};

    ghost tree = { fill_tree };

    ghost datum = { fill_datum };

    ghost sound = { fill_sound };
}

impl SerializeAs for Fill {
    fn write(&self, writer: &mut Writer, left: usize, place: usize) -> Result<(), Error> {
        match self {
            Fill::Nothing => { write_variant(&(), 0, writer, left, place) }
            Fill::Colour(x0) => { write_variant(x0, 1, writer, left, place) }
            Fill::Pattern(x0, x1) => { write_variant(&(x0, x1), 2, writer, left, place) }
        }
    }
}

impl<'a> DeserializeAs<'a> for Fill {
    fn is_free() -> bool {
        false
    }

    fn read(
        alloc: Global,
        reader: &mut Reader<'a>,
        budget: &mut Budget,
        left: usize,
        place: usize,
    ) -> Result<Fill, Error> {
        let found = enter_variant(reader, budget, 3, Reason::InvalidEnumVariant, place)?;
        match found.index {
            0 => {
                budget.take(1);
                Ok(Fill::Nothing)
            }
            1 => {
                let held: u32 = read_at(alloc, reader, budget, left, found.place)?;
                Ok(Fill::Colour(held))
            }
            _ => {
                let held: (String, i64) = read_at(alloc, reader, budget, left, found.place)?;
                Ok(Fill::Pattern(held.0, held.1))
            }
        }
    }
}
