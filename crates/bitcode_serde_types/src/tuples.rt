// Written by scripts/tables/serde_tuples.
//! Tuples, and values without content.
#![tactic(auto)]

ghost use Rattle.bitcode_shapes.specs.Datum.{unit, tuple};
ghost use Rattle.bitcode_untyped.specs.ShapeTree.{unit_tree, tuple_tree};
ghost use Rattle.bitcode_serde_types.specs.Joined.{joined, joined_data};
ghost use Rattle.bitcode_serde_types.specs.LawfulJoined.{joined_sound};

use crate::deserialize_as::DeserializeAs;
use crate::fields::write_tuple;
use crate::has_shape::{HasShape, HasShapes};
use crate::parts::{are_free_in_parts, read_in_parts, write_in_parts};
use crate::read_fields::{DeserializeFields, read_tuple};
use crate::serialize_as::SerializeAs;
use bitcode_memory::error::Error;
use bitcode_serde::budget::Budget;
use bitcode_serde::reader::Reader;
use bitcode_serde::writer::Writer;
use std::alloc::Global;

impl HasShape for () {
    ghost tree = { λ left. unit_tree };

    ghost datum = { λ u. unit };

    ghost sound = { λ left. tt };
}

impl SerializeAs for () {
    fn write(&self, _writer: &mut Writer, _left: usize, _place: usize) -> Result<(), Error> {
        Ok(())
    }
}

impl<'a> DeserializeAs<'a> for () {
    fn is_free() -> bool {
        true
    }

    fn read(
        _alloc: Global,
        _reader: &mut Reader<'a>,
        budget: &mut Budget,
        _left: usize,
        _place: usize,
    ) -> Result<(), Error> {
        budget.take(1);
        Ok(())
    }
}

impl<A: HasShape> HasShape for (A,) {
    ghost tree = { λ left. tuple_tree (⟦<(A, ()) as HasShapes>⟧.trees left) };

    ghost datum = { λ t. tuple (⟦<(A, ()) as HasShapes>⟧.content (t.0, tt)) };

    ghost sound = { ⟦<(A, ()) as HasShapes>⟧.sound };
}

impl<A: SerializeAs> SerializeAs for (A,) {
    fn write(&self, writer: &mut Writer, left: usize, place: usize) -> Result<(), Error> {
        write_tuple(&(&self.0, ()), 1, writer, left, place)
    }
}

impl<'a, A: DeserializeAs<'a>> DeserializeAs<'a> for (A,) {
    fn is_free() -> bool {
        <(A, ()) as DeserializeFields<'a>>::are_free()
    }

    fn read(
        alloc: Global,
        reader: &mut Reader<'a>,
        budget: &mut Budget,
        left: usize,
        place: usize,
    ) -> Result<(A,), Error> {
        let fields: (A, ()) = read_tuple(alloc, reader, budget, left, place, 1)?;
        let (a, _end) = fields;
        Ok((a,))
    }
}

impl<A: HasShape, B: HasShape> HasShape for (A, B) {
    ghost tree = { λ left. tuple_tree (⟦<(A, (B, ())) as HasShapes>⟧.trees left) };

    ghost datum = { λ t. tuple (⟦<(A, (B, ())) as HasShapes>⟧.content (t.0, (t.1, tt))) };

    ghost sound = { ⟦<(A, (B, ())) as HasShapes>⟧.sound };
}

impl<A: SerializeAs, B: SerializeAs> SerializeAs for (A, B) {
    fn write(&self, writer: &mut Writer, left: usize, place: usize) -> Result<(), Error> {
        write_tuple(&(&self.0, (&self.1, ())), 2, writer, left, place)
    }
}

impl<'a, A: DeserializeAs<'a>, B: DeserializeAs<'a>> DeserializeAs<'a> for (A, B) {
    fn is_free() -> bool {
        <(A, (B, ())) as DeserializeFields<'a>>::are_free()
    }

    fn read(
        alloc: Global,
        reader: &mut Reader<'a>,
        budget: &mut Budget,
        left: usize,
        place: usize,
    ) -> Result<(A, B), Error> {
        let fields: (A, (B, ())) = read_tuple(alloc, reader, budget, left, place, 2)?;
        let (a, (b, _end)) = fields;
        Ok((a, b))
    }
}

impl<A: HasShape, B: HasShape, C: HasShape> HasShape for (A, B, C) {
    ghost tree = { λ left. tuple_tree (⟦<(A, (B, (C, ()))) as HasShapes>⟧.trees left) };

    ghost datum = { λ t. tuple
        (⟦<(A, (B, (C, ()))) as HasShapes>⟧.content (t.0, (t.1, (t.2, tt)))) };

    ghost sound = { ⟦<(A, (B, (C, ()))) as HasShapes>⟧.sound };
}

impl<A: SerializeAs, B: SerializeAs, C: SerializeAs> SerializeAs for (A, B, C) {
    fn write(&self, writer: &mut Writer, left: usize, place: usize) -> Result<(), Error> {
        write_tuple(&(&self.0, (&self.1, (&self.2, ()))), 3, writer, left, place)
    }
}

impl<'a, A: DeserializeAs<'a>, B: DeserializeAs<'a>, C: DeserializeAs<'a>> DeserializeAs<'a>
    for (A, B, C) {
    fn is_free() -> bool {
        <(A, (B, (C, ()))) as DeserializeFields<'a>>::are_free()
    }

    fn read(
        alloc: Global,
        reader: &mut Reader<'a>,
        budget: &mut Budget,
        left: usize,
        place: usize,
    ) -> Result<(A, B, C), Error> {
        let fields: (A, (B, (C, ()))) = read_tuple(alloc, reader, budget, left, place, 3)?;
        let (a, (b, (c, _end))) = fields;
        Ok((a, b, c))
    }
}

impl<A: HasShape, B: HasShape, C: HasShape, D: HasShape> HasShape for (A, B, C, D) {
    ghost tree = { λ left. tuple_tree (⟦<(A, (B, (C, (D, ())))) as HasShapes>⟧.trees left) };

    ghost datum = { λ t. tuple
        (⟦<(A, (B, (C, (D, ())))) as HasShapes>⟧.content (t.0, (t.1, (t.2, (t.3, tt))))) };

    ghost sound = { ⟦<(A, (B, (C, (D, ())))) as HasShapes>⟧.sound };
}

impl<A: SerializeAs, B: SerializeAs, C: SerializeAs, D: SerializeAs> SerializeAs for (A, B, C, D) {
    fn write(&self, writer: &mut Writer, left: usize, place: usize) -> Result<(), Error> {
        write_tuple(
            &(&self.0, (&self.1, (&self.2, (&self.3, ())))),
            4,
            writer,
            left,
            place,
        )
    }
}

impl<
    'a,
    A: DeserializeAs<'a>,
    B: DeserializeAs<'a>,
    C: DeserializeAs<'a>,
    D: DeserializeAs<'a>,
> DeserializeAs<'a> for (A, B, C, D) {
    fn is_free() -> bool {
        <(A, (B, (C, (D, ())))) as DeserializeFields<'a>>::are_free()
    }

    fn read(
        alloc: Global,
        reader: &mut Reader<'a>,
        budget: &mut Budget,
        left: usize,
        place: usize,
    ) -> Result<(A, B, C, D), Error> {
        let fields: (A, (B, (C, (D, ())))) = read_tuple(alloc, reader, budget, left, place, 4)?;
        let (a, (b, (c, (d, _end)))) = fields;
        Ok((a, b, c, d))
    }
}

impl<A: HasShape, B: HasShape, C: HasShape, D: HasShape, E: HasShape> HasShape for (A, B, C, D, E) {
    ghost tree = { λ left. tuple_tree (⟦<(A, (B, (C, (D, (E, ()))))) as HasShapes>⟧.trees left) };

    ghost datum = { λ t. tuple
        (⟦<(A, (B, (C, (D, (E, ()))))) as HasShapes>⟧.content
        (t.0, (t.1, (t.2, (t.3, (t.4, tt)))))) };

    ghost sound = { ⟦<(A, (B, (C, (D, (E, ()))))) as HasShapes>⟧.sound };
}

impl<A: SerializeAs, B: SerializeAs, C: SerializeAs, D: SerializeAs, E: SerializeAs> SerializeAs
    for (A, B, C, D, E) {
    fn write(&self, writer: &mut Writer, left: usize, place: usize) -> Result<(), Error> {
        write_tuple(
            &(&self.0, (&self.1, (&self.2, (&self.3, (&self.4, ()))))),
            5,
            writer,
            left,
            place,
        )
    }
}

impl<
    'a,
    A: DeserializeAs<'a>,
    B: DeserializeAs<'a>,
    C: DeserializeAs<'a>,
    D: DeserializeAs<'a>,
    E: DeserializeAs<'a>,
> DeserializeAs<'a> for (A, B, C, D, E) {
    fn is_free() -> bool {
        <(A, (B, (C, (D, (E, ()))))) as DeserializeFields<'a>>::are_free()
    }

    fn read(
        alloc: Global,
        reader: &mut Reader<'a>,
        budget: &mut Budget,
        left: usize,
        place: usize,
    ) -> Result<(A, B, C, D, E), Error> {
        let fields: (A, (B, (C, (D, (E, ()))))) = read_tuple(
            alloc, reader, budget, left, place, 5,
        )?;
        let (a, (b, (c, (d, (e, _end))))) = fields;
        Ok((a, b, c, d, e))
    }
}

impl<A: HasShape, B: HasShape, C: HasShape, D: HasShape, E: HasShape, F: HasShape> HasShape
    for (A, B, C, D, E, F) {
    ghost tree = { λ left. tuple_tree
        (⟦<(A, (B, (C, (D, (E, (F, ())))))) as HasShapes>⟧.trees left) };

    ghost datum = { λ t. tuple
        (⟦<(A, (B, (C, (D, (E, (F, ())))))) as HasShapes>⟧.content
        (t.0, (t.1, (t.2, (t.3, (t.4, (t.5, tt))))))) };

    ghost sound = { ⟦<(A, (B, (C, (D, (E, (F, ())))))) as HasShapes>⟧.sound };
}

impl<
    A: SerializeAs,
    B: SerializeAs,
    C: SerializeAs,
    D: SerializeAs,
    E: SerializeAs,
    F: SerializeAs,
> SerializeAs for (A, B, C, D, E, F) {
    fn write(&self, writer: &mut Writer, left: usize, place: usize) -> Result<(), Error> {
        write_tuple(
            &(
                &self.0,
                (&self.1, (&self.2, (&self.3, (&self.4, (&self.5, ()))))),
            ),
            6,
            writer,
            left,
            place,
        )
    }
}

impl<
    'a,
    A: DeserializeAs<'a>,
    B: DeserializeAs<'a>,
    C: DeserializeAs<'a>,
    D: DeserializeAs<'a>,
    E: DeserializeAs<'a>,
    F: DeserializeAs<'a>,
> DeserializeAs<'a> for (A, B, C, D, E, F) {
    fn is_free() -> bool {
        <(A, (B, (C, (D, (E, (F, ())))))) as DeserializeFields<'a>>::are_free()
    }

    fn read(
        alloc: Global,
        reader: &mut Reader<'a>,
        budget: &mut Budget,
        left: usize,
        place: usize,
    ) -> Result<(A, B, C, D, E, F), Error> {
        let fields: (A, (B, (C, (D, (E, (F, ())))))) = read_tuple(
            alloc, reader, budget, left, place, 6,
        )?;
        let (a, (b, (c, (d, (e, (f, _end)))))) = fields;
        Ok((a, b, c, d, e, f))
    }
}

impl<
    A: HasShape,
    B: HasShape,
    C: HasShape,
    D: HasShape,
    E: HasShape,
    F: HasShape,
    G: HasShape,
> HasShape for (A, B, C, D, E, F, G) {
    ghost tree = { λ left. tuple_tree
        (⟦<(A, (B, (C, (D, (E, (F, (G, ()))))))) as HasShapes>⟧.trees left) };

    ghost datum = { λ t. tuple
        (⟦<(A, (B, (C, (D, (E, (F, (G, ()))))))) as HasShapes>⟧.content
        (t.0, (t.1, (t.2, (t.3, (t.4, (t.5, (t.6, tt)))))))) };

    ghost sound = { ⟦<(A, (B, (C, (D, (E, (F, (G, ()))))))) as HasShapes>⟧.sound };
}

impl<
    A: SerializeAs,
    B: SerializeAs,
    C: SerializeAs,
    D: SerializeAs,
    E: SerializeAs,
    F: SerializeAs,
    G: SerializeAs,
> SerializeAs for (A, B, C, D, E, F, G) {
    fn write(&self, writer: &mut Writer, left: usize, place: usize) -> Result<(), Error> {
        write_tuple(
            &(
                &self.0,
                (
                    &self.1,
                    (&self.2, (&self.3, (&self.4, (&self.5, (&self.6, ()))))),
                ),
            ),
            7,
            writer,
            left,
            place,
        )
    }
}

impl<
    'a,
    A: DeserializeAs<'a>,
    B: DeserializeAs<'a>,
    C: DeserializeAs<'a>,
    D: DeserializeAs<'a>,
    E: DeserializeAs<'a>,
    F: DeserializeAs<'a>,
    G: DeserializeAs<'a>,
> DeserializeAs<'a> for (A, B, C, D, E, F, G) {
    fn is_free() -> bool {
        <(A, (B, (C, (D, (E, (F, (G, ()))))))) as DeserializeFields<'a>>::are_free()
    }

    fn read(
        alloc: Global,
        reader: &mut Reader<'a>,
        budget: &mut Budget,
        left: usize,
        place: usize,
    ) -> Result<(A, B, C, D, E, F, G), Error> {
        let fields: (A, (B, (C, (D, (E, (F, (G, ()))))))) = read_tuple(
            alloc, reader, budget, left, place, 7,
        )?;
        let (a, (b, (c, (d, (e, (f, (g, _end))))))) = fields;
        Ok((a, b, c, d, e, f, g))
    }
}

impl<
    A: HasShape,
    B: HasShape,
    C: HasShape,
    D: HasShape,
    E: HasShape,
    F: HasShape,
    G: HasShape,
    H: HasShape,
> HasShape for (A, B, C, D, E, F, G, H) {
    ghost tree = { λ left. tuple_tree
        (⟦<(A, (B, (C, (D, (E, (F, (G, (H, ())))))))) as HasShapes>⟧.trees left) };

    ghost datum = { λ t. tuple
        (⟦<(A, (B, (C, (D, (E, (F, (G, (H, ())))))))) as HasShapes>⟧.content
        (t.0, (t.1, (t.2, (t.3, (t.4, (t.5, (t.6, (t.7, tt))))))))) };

    ghost sound = { ⟦<(A, (B, (C, (D, (E, (F, (G, (H, ())))))))) as HasShapes>⟧.sound };
}

impl<
    A: SerializeAs,
    B: SerializeAs,
    C: SerializeAs,
    D: SerializeAs,
    E: SerializeAs,
    F: SerializeAs,
    G: SerializeAs,
    H: SerializeAs,
> SerializeAs for (A, B, C, D, E, F, G, H) {
    fn write(&self, writer: &mut Writer, left: usize, place: usize) -> Result<(), Error> {
        write_tuple(
            &(
                &self.0,
                (
                    &self.1,
                    (
                        &self.2,
                        (&self.3, (&self.4, (&self.5, (&self.6, (&self.7, ()))))),
                    ),
                ),
            ),
            8,
            writer,
            left,
            place,
        )
    }
}

impl<
    'a,
    A: DeserializeAs<'a>,
    B: DeserializeAs<'a>,
    C: DeserializeAs<'a>,
    D: DeserializeAs<'a>,
    E: DeserializeAs<'a>,
    F: DeserializeAs<'a>,
    G: DeserializeAs<'a>,
    H: DeserializeAs<'a>,
> DeserializeAs<'a> for (A, B, C, D, E, F, G, H) {
    fn is_free() -> bool {
        <(A, (B, (C, (D, (E, (F, (G, (H, ())))))))) as DeserializeFields<'a>>::are_free()
    }

    fn read(
        alloc: Global,
        reader: &mut Reader<'a>,
        budget: &mut Budget,
        left: usize,
        place: usize,
    ) -> Result<(A, B, C, D, E, F, G, H), Error> {
        let fields: (A, (B, (C, (D, (E, (F, (G, (H, ())))))))) = read_tuple(
            alloc, reader, budget, left, place, 8,
        )?;
        let (a, (b, (c, (d, (e, (f, (g, (h, _end)))))))) = fields;
        Ok((a, b, c, d, e, f, g, h))
    }
}

impl<
    A: HasShape,
    B: HasShape,
    C: HasShape,
    D: HasShape,
    E: HasShape,
    F: HasShape,
    G: HasShape,
    H: HasShape,
    I: HasShape,
> HasShape for (A, B, C, D, E, F, G, H, I) {
    ghost tree = { λ left. tuple_tree
        (joined (⟦<(A, (B, (C, (D, (E, (F, (G, (H, ())))))))) as HasShapes>⟧.trees left)
        (⟦<(I, ()) as HasShapes>⟧.trees left)) };

    ghost datum = { λ t. tuple
        (joined_data
        (⟦<(A, (B, (C, (D, (E, (F, (G, (H, ())))))))) as HasShapes>⟧.content
        (t.0, (t.1, (t.2, (t.3, (t.4, (t.5, (t.6, (t.7, tt)))))))))
        (⟦<(I, ()) as HasShapes>⟧.content (t.8, tt))) };

    ghost sound = { λ left. joined_sound
        (⟦<(A, (B, (C, (D, (E, (F, (G, (H, ())))))))) as HasShapes>⟧.trees left)
        (⟦<(I, ()) as HasShapes>⟧.trees left)
        (⟦<(A, (B, (C, (D, (E, (F, (G, (H, ())))))))) as HasShapes>⟧.sound left)
        (⟦<(I, ()) as HasShapes>⟧.sound left) };
}

impl<
    A: SerializeAs,
    B: SerializeAs,
    C: SerializeAs,
    D: SerializeAs,
    E: SerializeAs,
    F: SerializeAs,
    G: SerializeAs,
    H: SerializeAs,
    I: SerializeAs,
> SerializeAs for (A, B, C, D, E, F, G, H, I) {
    fn write(&self, writer: &mut Writer, left: usize, place: usize) -> Result<(), Error> {
        write_in_parts(
            &(
                &self.0,
                (
                    &self.1,
                    (
                        &self.2,
                        (&self.3, (&self.4, (&self.5, (&self.6, (&self.7, ()))))),
                    ),
                ),
            ),
            &(&self.8, ()),
            8,
            9,
            writer,
            left,
            place,
        )
    }
}

impl<
    'a,
    A: DeserializeAs<'a>,
    B: DeserializeAs<'a>,
    C: DeserializeAs<'a>,
    D: DeserializeAs<'a>,
    E: DeserializeAs<'a>,
    F: DeserializeAs<'a>,
    G: DeserializeAs<'a>,
    H: DeserializeAs<'a>,
    I: DeserializeAs<'a>,
> DeserializeAs<'a> for (A, B, C, D, E, F, G, H, I) {
    fn is_free() -> bool {
        are_free_in_parts::<(A, (B, (C, (D, (E, (F, (G, (H, ())))))))), (I, ())>()
    }

    fn read(
        alloc: Global,
        reader: &mut Reader<'a>,
        budget: &mut Budget,
        left: usize,
        place: usize,
    ) -> Result<(A, B, C, D, E, F, G, H, I), Error> {
        let fields: ((A, (B, (C, (D, (E, (F, (G, (H, ())))))))), (I, ())) = read_in_parts(
            alloc, reader, budget, left, place, 8, 9,
        )?;
        let ((a, (b, (c, (d, (e, (f, (g, (h, _first_end)))))))), (i, _rest_end)) = fields;
        Ok((a, b, c, d, e, f, g, h, i))
    }
}

impl<
    A: HasShape,
    B: HasShape,
    C: HasShape,
    D: HasShape,
    E: HasShape,
    F: HasShape,
    G: HasShape,
    H: HasShape,
    I: HasShape,
    J: HasShape,
> HasShape for (A, B, C, D, E, F, G, H, I, J) {
    ghost tree = { λ left. tuple_tree
        (joined (⟦<(A, (B, (C, (D, (E, (F, (G, (H, ())))))))) as HasShapes>⟧.trees left)
        (⟦<(I, (J, ())) as HasShapes>⟧.trees left)) };

    ghost datum = { λ t. tuple
        (joined_data
        (⟦<(A, (B, (C, (D, (E, (F, (G, (H, ())))))))) as HasShapes>⟧.content
        (t.0, (t.1, (t.2, (t.3, (t.4, (t.5, (t.6, (t.7, tt)))))))))
        (⟦<(I, (J, ())) as HasShapes>⟧.content (t.8, (t.9, tt)))) };

    ghost sound = { λ left. joined_sound
        (⟦<(A, (B, (C, (D, (E, (F, (G, (H, ())))))))) as HasShapes>⟧.trees left)
        (⟦<(I, (J, ())) as HasShapes>⟧.trees left)
        (⟦<(A, (B, (C, (D, (E, (F, (G, (H, ())))))))) as HasShapes>⟧.sound left)
        (⟦<(I, (J, ())) as HasShapes>⟧.sound left) };
}

impl<
    A: SerializeAs,
    B: SerializeAs,
    C: SerializeAs,
    D: SerializeAs,
    E: SerializeAs,
    F: SerializeAs,
    G: SerializeAs,
    H: SerializeAs,
    I: SerializeAs,
    J: SerializeAs,
> SerializeAs for (A, B, C, D, E, F, G, H, I, J) {
    fn write(&self, writer: &mut Writer, left: usize, place: usize) -> Result<(), Error> {
        write_in_parts(
            &(
                &self.0,
                (
                    &self.1,
                    (
                        &self.2,
                        (&self.3, (&self.4, (&self.5, (&self.6, (&self.7, ()))))),
                    ),
                ),
            ),
            &(&self.8, (&self.9, ())),
            8,
            10,
            writer,
            left,
            place,
        )
    }
}

impl<
    'a,
    A: DeserializeAs<'a>,
    B: DeserializeAs<'a>,
    C: DeserializeAs<'a>,
    D: DeserializeAs<'a>,
    E: DeserializeAs<'a>,
    F: DeserializeAs<'a>,
    G: DeserializeAs<'a>,
    H: DeserializeAs<'a>,
    I: DeserializeAs<'a>,
    J: DeserializeAs<'a>,
> DeserializeAs<'a> for (A, B, C, D, E, F, G, H, I, J) {
    fn is_free() -> bool {
        are_free_in_parts::<(A, (B, (C, (D, (E, (F, (G, (H, ())))))))), (I, (J, ()))>()
    }

    fn read(
        alloc: Global,
        reader: &mut Reader<'a>,
        budget: &mut Budget,
        left: usize,
        place: usize,
    ) -> Result<(A, B, C, D, E, F, G, H, I, J), Error> {
        let fields: ((A, (B, (C, (D, (E, (F, (G, (H, ())))))))), (I, (J, ()))) = read_in_parts(
            alloc, reader, budget, left, place, 8, 10,
        )?;
        let ((a, (b, (c, (d, (e, (f, (g, (h, _first_end)))))))), (i, (j, _rest_end))) = fields;
        Ok((a, b, c, d, e, f, g, h, i, j))
    }
}

impl<
    A: HasShape,
    B: HasShape,
    C: HasShape,
    D: HasShape,
    E: HasShape,
    F: HasShape,
    G: HasShape,
    H: HasShape,
    I: HasShape,
    J: HasShape,
    K: HasShape,
> HasShape for (A, B, C, D, E, F, G, H, I, J, K) {
    ghost tree = { λ left. tuple_tree
        (joined (⟦<(A, (B, (C, (D, (E, (F, (G, (H, ())))))))) as HasShapes>⟧.trees left)
        (⟦<(I, (J, (K, ()))) as HasShapes>⟧.trees left)) };

    ghost datum = { λ t. tuple
        (joined_data
        (⟦<(A, (B, (C, (D, (E, (F, (G, (H, ())))))))) as HasShapes>⟧.content
        (t.0, (t.1, (t.2, (t.3, (t.4, (t.5, (t.6, (t.7, tt)))))))))
        (⟦<(I, (J, (K, ()))) as HasShapes>⟧.content (t.8, (t.9, (t.10, tt))))) };

    ghost sound = { λ left. joined_sound
        (⟦<(A, (B, (C, (D, (E, (F, (G, (H, ())))))))) as HasShapes>⟧.trees left)
        (⟦<(I, (J, (K, ()))) as HasShapes>⟧.trees left)
        (⟦<(A, (B, (C, (D, (E, (F, (G, (H, ())))))))) as HasShapes>⟧.sound left)
        (⟦<(I, (J, (K, ()))) as HasShapes>⟧.sound left) };
}

impl<
    A: SerializeAs,
    B: SerializeAs,
    C: SerializeAs,
    D: SerializeAs,
    E: SerializeAs,
    F: SerializeAs,
    G: SerializeAs,
    H: SerializeAs,
    I: SerializeAs,
    J: SerializeAs,
    K: SerializeAs,
> SerializeAs for (A, B, C, D, E, F, G, H, I, J, K) {
    fn write(&self, writer: &mut Writer, left: usize, place: usize) -> Result<(), Error> {
        write_in_parts(
            &(
                &self.0,
                (
                    &self.1,
                    (
                        &self.2,
                        (&self.3, (&self.4, (&self.5, (&self.6, (&self.7, ()))))),
                    ),
                ),
            ),
            &(&self.8, (&self.9, (&self.10, ()))),
            8,
            11,
            writer,
            left,
            place,
        )
    }
}

impl<
    'a,
    A: DeserializeAs<'a>,
    B: DeserializeAs<'a>,
    C: DeserializeAs<'a>,
    D: DeserializeAs<'a>,
    E: DeserializeAs<'a>,
    F: DeserializeAs<'a>,
    G: DeserializeAs<'a>,
    H: DeserializeAs<'a>,
    I: DeserializeAs<'a>,
    J: DeserializeAs<'a>,
    K: DeserializeAs<'a>,
> DeserializeAs<'a> for (A, B, C, D, E, F, G, H, I, J, K) {
    fn is_free() -> bool {
        are_free_in_parts::<(A, (B, (C, (D, (E, (F, (G, (H, ())))))))), (I, (J, (K, ())))>()
    }

    fn read(
        alloc: Global,
        reader: &mut Reader<'a>,
        budget: &mut Budget,
        left: usize,
        place: usize,
    ) -> Result<(A, B, C, D, E, F, G, H, I, J, K), Error> {
        let fields: (
            (A, (B, (C, (D, (E, (F, (G, (H, ())))))))),
            (I, (J, (K, ()))),
        ) = read_in_parts(alloc, reader, budget, left, place, 8, 11)?;
        let ((a, (b, (c, (d, (e, (f, (g, (h, _first_end)))))))), (i, (j, (k, _rest_end)))) = fields;
        Ok((a, b, c, d, e, f, g, h, i, j, k))
    }
}

impl<
    A: HasShape,
    B: HasShape,
    C: HasShape,
    D: HasShape,
    E: HasShape,
    F: HasShape,
    G: HasShape,
    H: HasShape,
    I: HasShape,
    J: HasShape,
    K: HasShape,
    L: HasShape,
> HasShape for (A, B, C, D, E, F, G, H, I, J, K, L) {
    ghost tree = { λ left. tuple_tree
        (joined (⟦<(A, (B, (C, (D, (E, (F, (G, (H, ())))))))) as HasShapes>⟧.trees left)
        (⟦<(I, (J, (K, (L, ())))) as HasShapes>⟧.trees left)) };

    ghost datum = { λ t. tuple
        (joined_data
        (⟦<(A, (B, (C, (D, (E, (F, (G, (H, ())))))))) as HasShapes>⟧.content
        (t.0, (t.1, (t.2, (t.3, (t.4, (t.5, (t.6, (t.7, tt)))))))))
        (⟦<(I, (J, (K, (L, ())))) as HasShapes>⟧.content (t.8, (t.9, (t.10, (t.11, tt)))))) };

    ghost sound = { λ left. joined_sound
        (⟦<(A, (B, (C, (D, (E, (F, (G, (H, ())))))))) as HasShapes>⟧.trees left)
        (⟦<(I, (J, (K, (L, ())))) as HasShapes>⟧.trees left)
        (⟦<(A, (B, (C, (D, (E, (F, (G, (H, ())))))))) as HasShapes>⟧.sound left)
        (⟦<(I, (J, (K, (L, ())))) as HasShapes>⟧.sound left) };
}

impl<
    A: SerializeAs,
    B: SerializeAs,
    C: SerializeAs,
    D: SerializeAs,
    E: SerializeAs,
    F: SerializeAs,
    G: SerializeAs,
    H: SerializeAs,
    I: SerializeAs,
    J: SerializeAs,
    K: SerializeAs,
    L: SerializeAs,
> SerializeAs for (A, B, C, D, E, F, G, H, I, J, K, L) {
    fn write(&self, writer: &mut Writer, left: usize, place: usize) -> Result<(), Error> {
        write_in_parts(
            &(
                &self.0,
                (
                    &self.1,
                    (
                        &self.2,
                        (&self.3, (&self.4, (&self.5, (&self.6, (&self.7, ()))))),
                    ),
                ),
            ),
            &(&self.8, (&self.9, (&self.10, (&self.11, ())))),
            8,
            12,
            writer,
            left,
            place,
        )
    }
}

impl<
    'a,
    A: DeserializeAs<'a>,
    B: DeserializeAs<'a>,
    C: DeserializeAs<'a>,
    D: DeserializeAs<'a>,
    E: DeserializeAs<'a>,
    F: DeserializeAs<'a>,
    G: DeserializeAs<'a>,
    H: DeserializeAs<'a>,
    I: DeserializeAs<'a>,
    J: DeserializeAs<'a>,
    K: DeserializeAs<'a>,
    L: DeserializeAs<'a>,
> DeserializeAs<'a> for (A, B, C, D, E, F, G, H, I, J, K, L) {
    fn is_free() -> bool {
        are_free_in_parts::<(A, (B, (C, (D, (E, (F, (G, (H, ())))))))), (I, (J, (K, (L, ()))))>()
    }

    fn read(
        alloc: Global,
        reader: &mut Reader<'a>,
        budget: &mut Budget,
        left: usize,
        place: usize,
    ) -> Result<(A, B, C, D, E, F, G, H, I, J, K, L), Error> {
        let fields: (
            (A, (B, (C, (D, (E, (F, (G, (H, ())))))))),
            (I, (J, (K, (L, ())))),
        ) = read_in_parts(alloc, reader, budget, left, place, 8, 12)?;
        let ((a, (b, (c, (d, (e, (f, (g, (h, _first_end)))))))), (i, (j, (k, (l, _rest_end))))) =
            fields;
        Ok((a, b, c, d, e, f, g, h, i, j, k, l))
    }
}

impl<
    A: HasShape,
    B: HasShape,
    C: HasShape,
    D: HasShape,
    E: HasShape,
    F: HasShape,
    G: HasShape,
    H: HasShape,
    I: HasShape,
    J: HasShape,
    K: HasShape,
    L: HasShape,
    M: HasShape,
> HasShape for (A, B, C, D, E, F, G, H, I, J, K, L, M) {
    ghost tree = { λ left. tuple_tree
        (joined (⟦<(A, (B, (C, (D, (E, (F, (G, (H, ())))))))) as HasShapes>⟧.trees left)
        (⟦<(I, (J, (K, (L, (M, ()))))) as HasShapes>⟧.trees left)) };

    ghost datum = { λ t. tuple
        (joined_data
        (⟦<(A, (B, (C, (D, (E, (F, (G, (H, ())))))))) as HasShapes>⟧.content (
          t.0,
          (
            t.1.0,
            (
              t.1.1.0,
              (
                t.1.1.1.0,
                (t.1.1.1.1.0, (t.1.1.1.1.1.0, (t.1.1.1.1.1.1.0, (t.1.1.1.1.1.1.1.0, tt)))),
              ),
            ),
          ),
        ))
        (⟦<(I, (J, (K, (L, (M, ()))))) as HasShapes>⟧.content (
          t.1.1.1.1.1.1.1.1.0,
          (
            t.1.1.1.1.1.1.1.1.1.0,
            (
              t.1.1.1.1.1.1.1.1.1.1.0,
              (t.1.1.1.1.1.1.1.1.1.1.1.0, (t.1.1.1.1.1.1.1.1.1.1.1.1.0, tt)),
            ),
          ),
        ))) };

    ghost sound = { λ left. joined_sound
        (⟦<(A, (B, (C, (D, (E, (F, (G, (H, ())))))))) as HasShapes>⟧.trees left)
        (⟦<(I, (J, (K, (L, (M, ()))))) as HasShapes>⟧.trees left)
        (⟦<(A, (B, (C, (D, (E, (F, (G, (H, ())))))))) as HasShapes>⟧.sound left)
        (⟦<(I, (J, (K, (L, (M, ()))))) as HasShapes>⟧.sound left) };
}

impl<
    A: SerializeAs,
    B: SerializeAs,
    C: SerializeAs,
    D: SerializeAs,
    E: SerializeAs,
    F: SerializeAs,
    G: SerializeAs,
    H: SerializeAs,
    I: SerializeAs,
    J: SerializeAs,
    K: SerializeAs,
    L: SerializeAs,
    M: SerializeAs,
> SerializeAs for (A, B, C, D, E, F, G, H, I, J, K, L, M) {
    fn write(&self, writer: &mut Writer, left: usize, place: usize) -> Result<(), Error> {
        write_in_parts(
            &(
                &self.0,
                (
                    &self.1,
                    (
                        &self.2,
                        (&self.3, (&self.4, (&self.5, (&self.6, (&self.7, ()))))),
                    ),
                ),
            ),
            &(&self.8, (&self.9, (&self.10, (&self.11, (&self.12, ()))))),
            8,
            13,
            writer,
            left,
            place,
        )
    }
}

impl<
    'a,
    A: DeserializeAs<'a>,
    B: DeserializeAs<'a>,
    C: DeserializeAs<'a>,
    D: DeserializeAs<'a>,
    E: DeserializeAs<'a>,
    F: DeserializeAs<'a>,
    G: DeserializeAs<'a>,
    H: DeserializeAs<'a>,
    I: DeserializeAs<'a>,
    J: DeserializeAs<'a>,
    K: DeserializeAs<'a>,
    L: DeserializeAs<'a>,
    M: DeserializeAs<'a>,
> DeserializeAs<'a> for (A, B, C, D, E, F, G, H, I, J, K, L, M) {
    fn is_free() -> bool {
        are_free_in_parts::<
            (A, (B, (C, (D, (E, (F, (G, (H, ())))))))),
            (I, (J, (K, (L, (M, ()))))),
        >()
    }

    fn read(
        alloc: Global,
        reader: &mut Reader<'a>,
        budget: &mut Budget,
        left: usize,
        place: usize,
    ) -> Result<(A, B, C, D, E, F, G, H, I, J, K, L, M), Error> {
        let fields: (
            (A, (B, (C, (D, (E, (F, (G, (H, ())))))))),
            (I, (J, (K, (L, (M, ()))))),
        ) = read_in_parts(alloc, reader, budget, left, place, 8, 13)?;
        let (
            (a, (b, (c, (d, (e, (f, (g, (h, _first_end)))))))),
            (i, (j, (k, (l, (m, _rest_end))))),
        ) = fields;
        Ok((a, b, c, d, e, f, g, h, i, j, k, l, m))
    }
}

impl<
    A: HasShape,
    B: HasShape,
    C: HasShape,
    D: HasShape,
    E: HasShape,
    F: HasShape,
    G: HasShape,
    H: HasShape,
    I: HasShape,
    J: HasShape,
    K: HasShape,
    L: HasShape,
    M: HasShape,
    N: HasShape,
> HasShape for (A, B, C, D, E, F, G, H, I, J, K, L, M, N) {
    ghost tree = { λ left. tuple_tree
        (joined (⟦<(A, (B, (C, (D, (E, (F, (G, (H, ())))))))) as HasShapes>⟧.trees left)
        (⟦<(I, (J, (K, (L, (M, (N, ())))))) as HasShapes>⟧.trees left)) };

    ghost datum = { λ t. tuple
        (joined_data
        (⟦<(A, (B, (C, (D, (E, (F, (G, (H, ())))))))) as HasShapes>⟧.content (
          t.0,
          (
            t.1.0,
            (
              t.1.1.0,
              (
                t.1.1.1.0,
                (t.1.1.1.1.0, (t.1.1.1.1.1.0, (t.1.1.1.1.1.1.0, (t.1.1.1.1.1.1.1.0, tt)))),
              ),
            ),
          ),
        ))
        (⟦<(I, (J, (K, (L, (M, (N, ())))))) as HasShapes>⟧.content (
          t.1.1.1.1.1.1.1.1.0,
          (
            t.1.1.1.1.1.1.1.1.1.0,
            (
              t.1.1.1.1.1.1.1.1.1.1.0,
              (
                t.1.1.1.1.1.1.1.1.1.1.1.0,
                (t.1.1.1.1.1.1.1.1.1.1.1.1.0, (t.1.1.1.1.1.1.1.1.1.1.1.1.1.0, tt)),
              ),
            ),
          ),
        ))) };

    ghost sound = { λ left. joined_sound
        (⟦<(A, (B, (C, (D, (E, (F, (G, (H, ())))))))) as HasShapes>⟧.trees left)
        (⟦<(I, (J, (K, (L, (M, (N, ())))))) as HasShapes>⟧.trees left)
        (⟦<(A, (B, (C, (D, (E, (F, (G, (H, ())))))))) as HasShapes>⟧.sound left)
        (⟦<(I, (J, (K, (L, (M, (N, ())))))) as HasShapes>⟧.sound left) };
}

impl<
    A: SerializeAs,
    B: SerializeAs,
    C: SerializeAs,
    D: SerializeAs,
    E: SerializeAs,
    F: SerializeAs,
    G: SerializeAs,
    H: SerializeAs,
    I: SerializeAs,
    J: SerializeAs,
    K: SerializeAs,
    L: SerializeAs,
    M: SerializeAs,
    N: SerializeAs,
> SerializeAs for (A, B, C, D, E, F, G, H, I, J, K, L, M, N) {
    fn write(&self, writer: &mut Writer, left: usize, place: usize) -> Result<(), Error> {
        write_in_parts(
            &(
                &self.0,
                (
                    &self.1,
                    (
                        &self.2,
                        (&self.3, (&self.4, (&self.5, (&self.6, (&self.7, ()))))),
                    ),
                ),
            ),
            &(
                &self.8,
                (&self.9, (&self.10, (&self.11, (&self.12, (&self.13, ()))))),
            ),
            8,
            14,
            writer,
            left,
            place,
        )
    }
}

impl<
    'a,
    A: DeserializeAs<'a>,
    B: DeserializeAs<'a>,
    C: DeserializeAs<'a>,
    D: DeserializeAs<'a>,
    E: DeserializeAs<'a>,
    F: DeserializeAs<'a>,
    G: DeserializeAs<'a>,
    H: DeserializeAs<'a>,
    I: DeserializeAs<'a>,
    J: DeserializeAs<'a>,
    K: DeserializeAs<'a>,
    L: DeserializeAs<'a>,
    M: DeserializeAs<'a>,
    N: DeserializeAs<'a>,
> DeserializeAs<'a> for (A, B, C, D, E, F, G, H, I, J, K, L, M, N) {
    fn is_free() -> bool {
        are_free_in_parts::<
            (A, (B, (C, (D, (E, (F, (G, (H, ())))))))),
            (I, (J, (K, (L, (M, (N, ())))))),
        >()
    }

    fn read(
        alloc: Global,
        reader: &mut Reader<'a>,
        budget: &mut Budget,
        left: usize,
        place: usize,
    ) -> Result<(A, B, C, D, E, F, G, H, I, J, K, L, M, N), Error> {
        let fields: (
            (A, (B, (C, (D, (E, (F, (G, (H, ())))))))),
            (I, (J, (K, (L, (M, (N, ())))))),
        ) = read_in_parts(alloc, reader, budget, left, place, 8, 14)?;
        let (
            (a, (b, (c, (d, (e, (f, (g, (h, _first_end)))))))),
            (i, (j, (k, (l, (m, (n, _rest_end)))))),
        ) = fields;
        Ok((a, b, c, d, e, f, g, h, i, j, k, l, m, n))
    }
}

impl<
    A: HasShape,
    B: HasShape,
    C: HasShape,
    D: HasShape,
    E: HasShape,
    F: HasShape,
    G: HasShape,
    H: HasShape,
    I: HasShape,
    J: HasShape,
    K: HasShape,
    L: HasShape,
    M: HasShape,
    N: HasShape,
    O: HasShape,
> HasShape for (A, B, C, D, E, F, G, H, I, J, K, L, M, N, O) {
    ghost tree = { λ left. tuple_tree
        (joined (⟦<(A, (B, (C, (D, (E, (F, (G, (H, ())))))))) as HasShapes>⟧.trees left)
        (⟦<(I, (J, (K, (L, (M, (N, (O, ()))))))) as HasShapes>⟧.trees left)) };

    ghost datum = { λ t. tuple
        (joined_data
        (⟦<(A, (B, (C, (D, (E, (F, (G, (H, ())))))))) as HasShapes>⟧.content (
          t.0,
          (
            t.1.0,
            (
              t.1.1.0,
              (
                t.1.1.1.0,
                (t.1.1.1.1.0, (t.1.1.1.1.1.0, (t.1.1.1.1.1.1.0, (t.1.1.1.1.1.1.1.0, tt)))),
              ),
            ),
          ),
        ))
        (⟦<(I, (J, (K, (L, (M, (N, (O, ()))))))) as HasShapes>⟧.content (
          t.1.1.1.1.1.1.1.1.0,
          (
            t.1.1.1.1.1.1.1.1.1.0,
            (
              t.1.1.1.1.1.1.1.1.1.1.0,
              (
                t.1.1.1.1.1.1.1.1.1.1.1.0,
                (
                  t.1.1.1.1.1.1.1.1.1.1.1.1.0,
                  (t.1.1.1.1.1.1.1.1.1.1.1.1.1.0, (t.1.1.1.1.1.1.1.1.1.1.1.1.1.1.0, tt)),
                ),
              ),
            ),
          ),
        ))) };

    ghost sound = { λ left. joined_sound
        (⟦<(A, (B, (C, (D, (E, (F, (G, (H, ())))))))) as HasShapes>⟧.trees left)
        (⟦<(I, (J, (K, (L, (M, (N, (O, ()))))))) as HasShapes>⟧.trees left)
        (⟦<(A, (B, (C, (D, (E, (F, (G, (H, ())))))))) as HasShapes>⟧.sound left)
        (⟦<(I, (J, (K, (L, (M, (N, (O, ()))))))) as HasShapes>⟧.sound left) };
}

impl<
    A: SerializeAs,
    B: SerializeAs,
    C: SerializeAs,
    D: SerializeAs,
    E: SerializeAs,
    F: SerializeAs,
    G: SerializeAs,
    H: SerializeAs,
    I: SerializeAs,
    J: SerializeAs,
    K: SerializeAs,
    L: SerializeAs,
    M: SerializeAs,
    N: SerializeAs,
    O: SerializeAs,
> SerializeAs for (A, B, C, D, E, F, G, H, I, J, K, L, M, N, O) {
    fn write(&self, writer: &mut Writer, left: usize, place: usize) -> Result<(), Error> {
        write_in_parts(
            &(
                &self.0,
                (
                    &self.1,
                    (
                        &self.2,
                        (&self.3, (&self.4, (&self.5, (&self.6, (&self.7, ()))))),
                    ),
                ),
            ),
            &(
                &self.8,
                (
                    &self.9,
                    (&self.10, (&self.11, (&self.12, (&self.13, (&self.14, ()))))),
                ),
            ),
            8,
            15,
            writer,
            left,
            place,
        )
    }
}

impl<
    'a,
    A: DeserializeAs<'a>,
    B: DeserializeAs<'a>,
    C: DeserializeAs<'a>,
    D: DeserializeAs<'a>,
    E: DeserializeAs<'a>,
    F: DeserializeAs<'a>,
    G: DeserializeAs<'a>,
    H: DeserializeAs<'a>,
    I: DeserializeAs<'a>,
    J: DeserializeAs<'a>,
    K: DeserializeAs<'a>,
    L: DeserializeAs<'a>,
    M: DeserializeAs<'a>,
    N: DeserializeAs<'a>,
    O: DeserializeAs<'a>,
> DeserializeAs<'a> for (A, B, C, D, E, F, G, H, I, J, K, L, M, N, O) {
    fn is_free() -> bool {
        are_free_in_parts::<
            (A, (B, (C, (D, (E, (F, (G, (H, ())))))))),
            (I, (J, (K, (L, (M, (N, (O, ()))))))),
        >()
    }

    fn read(
        alloc: Global,
        reader: &mut Reader<'a>,
        budget: &mut Budget,
        left: usize,
        place: usize,
    ) -> Result<(A, B, C, D, E, F, G, H, I, J, K, L, M, N, O), Error> {
        let fields: (
            (A, (B, (C, (D, (E, (F, (G, (H, ())))))))),
            (I, (J, (K, (L, (M, (N, (O, ()))))))),
        ) = read_in_parts(alloc, reader, budget, left, place, 8, 15)?;
        let (
            (a, (b, (c, (d, (e, (f, (g, (h, _first_end)))))))),
            (i, (j, (k, (l, (m, (n, (o, _rest_end))))))),
        ) = fields;
        Ok((a, b, c, d, e, f, g, h, i, j, k, l, m, n, o))
    }
}

impl<
    A: HasShape,
    B: HasShape,
    C: HasShape,
    D: HasShape,
    E: HasShape,
    F: HasShape,
    G: HasShape,
    H: HasShape,
    I: HasShape,
    J: HasShape,
    K: HasShape,
    L: HasShape,
    M: HasShape,
    N: HasShape,
    O: HasShape,
    P: HasShape,
> HasShape for (A, B, C, D, E, F, G, H, I, J, K, L, M, N, O, P) {
    ghost tree = { λ left. tuple_tree
        (joined (⟦<(A, (B, (C, (D, (E, (F, (G, (H, ())))))))) as HasShapes>⟧.trees left)
        (⟦<(I, (J, (K, (L, (M, (N, (O, (P, ())))))))) as HasShapes>⟧.trees left)) };

    ghost datum = { λ t. tuple
        (joined_data
        (⟦<(A, (B, (C, (D, (E, (F, (G, (H, ())))))))) as HasShapes>⟧.content (
          t.0,
          (
            t.1.0,
            (
              t.1.1.0,
              (
                t.1.1.1.0,
                (t.1.1.1.1.0, (t.1.1.1.1.1.0, (t.1.1.1.1.1.1.0, (t.1.1.1.1.1.1.1.0, tt)))),
              ),
            ),
          ),
        ))
        (⟦<(I, (J, (K, (L, (M, (N, (O, (P, ())))))))) as HasShapes>⟧.content (
          t.1.1.1.1.1.1.1.1.0,
          (
            t.1.1.1.1.1.1.1.1.1.0,
            (
              t.1.1.1.1.1.1.1.1.1.1.0,
              (
                t.1.1.1.1.1.1.1.1.1.1.1.0,
                (
                  t.1.1.1.1.1.1.1.1.1.1.1.1.0,
                  (
                    t.1.1.1.1.1.1.1.1.1.1.1.1.1.0,
                    (t.1.1.1.1.1.1.1.1.1.1.1.1.1.1.0, (t.1.1.1.1.1.1.1.1.1.1.1.1.1.1.1.0, tt)),
                  ),
                ),
              ),
            ),
          ),
        ))) };

    ghost sound = { λ left. joined_sound
        (⟦<(A, (B, (C, (D, (E, (F, (G, (H, ())))))))) as HasShapes>⟧.trees left)
        (⟦<(I, (J, (K, (L, (M, (N, (O, (P, ())))))))) as HasShapes>⟧.trees left)
        (⟦<(A, (B, (C, (D, (E, (F, (G, (H, ())))))))) as HasShapes>⟧.sound left)
        (⟦<(I, (J, (K, (L, (M, (N, (O, (P, ())))))))) as HasShapes>⟧.sound left) };
}

impl<
    A: SerializeAs,
    B: SerializeAs,
    C: SerializeAs,
    D: SerializeAs,
    E: SerializeAs,
    F: SerializeAs,
    G: SerializeAs,
    H: SerializeAs,
    I: SerializeAs,
    J: SerializeAs,
    K: SerializeAs,
    L: SerializeAs,
    M: SerializeAs,
    N: SerializeAs,
    O: SerializeAs,
    P: SerializeAs,
> SerializeAs for (A, B, C, D, E, F, G, H, I, J, K, L, M, N, O, P) {
    fn write(&self, writer: &mut Writer, left: usize, place: usize) -> Result<(), Error> {
        write_in_parts(
            &(
                &self.0,
                (
                    &self.1,
                    (
                        &self.2,
                        (&self.3, (&self.4, (&self.5, (&self.6, (&self.7, ()))))),
                    ),
                ),
            ),
            &(
                &self.8,
                (
                    &self.9,
                    (
                        &self.10,
                        (&self.11, (&self.12, (&self.13, (&self.14, (&self.15, ()))))),
                    ),
                ),
            ),
            8,
            16,
            writer,
            left,
            place,
        )
    }
}

impl<
    'a,
    A: DeserializeAs<'a>,
    B: DeserializeAs<'a>,
    C: DeserializeAs<'a>,
    D: DeserializeAs<'a>,
    E: DeserializeAs<'a>,
    F: DeserializeAs<'a>,
    G: DeserializeAs<'a>,
    H: DeserializeAs<'a>,
    I: DeserializeAs<'a>,
    J: DeserializeAs<'a>,
    K: DeserializeAs<'a>,
    L: DeserializeAs<'a>,
    M: DeserializeAs<'a>,
    N: DeserializeAs<'a>,
    O: DeserializeAs<'a>,
    P: DeserializeAs<'a>,
> DeserializeAs<'a> for (A, B, C, D, E, F, G, H, I, J, K, L, M, N, O, P) {
    fn is_free() -> bool {
        are_free_in_parts::<
            (A, (B, (C, (D, (E, (F, (G, (H, ())))))))),
            (I, (J, (K, (L, (M, (N, (O, (P, ())))))))),
        >()
    }

    fn read(
        alloc: Global,
        reader: &mut Reader<'a>,
        budget: &mut Budget,
        left: usize,
        place: usize,
    ) -> Result<(A, B, C, D, E, F, G, H, I, J, K, L, M, N, O, P), Error> {
        let fields: (
            (A, (B, (C, (D, (E, (F, (G, (H, ())))))))),
            (I, (J, (K, (L, (M, (N, (O, (P, ())))))))),
        ) = read_in_parts(alloc, reader, budget, left, place, 8, 16)?;
        let (
            (a, (b, (c, (d, (e, (f, (g, (h, _first_end)))))))),
            (i, (j, (k, (l, (m, (n, (o, (p, _rest_end)))))))),
        ) = fields;
        Ok((a, b, c, d, e, f, g, h, i, j, k, l, m, n, o, p))
    }
}
