//! The shapes of types, and the content of their values.
#![tactic(auto)]

ghost use Rattle.std.specs.Prelude.{ℕ};
ghost use Rattle.bitcode_shapes.specs.Datum.{Datum, Data, no_data, datum_and};
ghost use Rattle.bitcode_untyped.specs.ShapeTree.{ShapeTree, ShapeTrees, no_trees, tree_and};
ghost use Rattle.bitcode_untyped.specs.ShapeTree.{IsSound, AreSound};

/// A type whose values have a shape of the second format.
///
/// `tree left` is the type's shape, in which so many references may be followed on one path. A recursive type follows
/// one to itself: `tree 0` is the shape of no value, and `tree (left + 1)` has `tree left` in the place of the type.
///
/// It has no functions: a call through a bound with a lifetime takes the checker several times as long for each
/// function of a supertrait.
pub trait HasShape {
    // the shape, by how many references may be followed
    ghost tree: { ℕ → ShapeTree };

    // the content of a value
    ghost datum: { Self → Datum };

    // Its columns are such as there are.
    ghost sound: { (left : ℕ) → IsSound (tree left) };
}

/// The fields of a struct or a tuple, from one of them on: `()`, or a field and those behind it.
///
/// It has no functions.
pub trait HasShapes {
    // the shape of each field, by how many references may be followed
    ghost trees: { ℕ → ShapeTrees };

    // the content of each field
    ghost content: { Self → Data };

    // Their columns are such as there are.
    ghost sound: { (left : ℕ) → AreSound (trees left) };
}

impl HasShapes for () {
    ghost trees = { λ left. no_trees };

    ghost content = { λ u. no_data };

    ghost sound = { λ left. tt };
}

impl<A: HasShape, R: HasShapes> HasShapes for (A, R) {
    ghost trees = { λ left. tree_and (A.tree left) (R.trees left) };

    ghost content = { λ t. datum_and (A.datum t.0) (R.content t.1) };

    ghost sound = { λ left. (A.sound left, R.sound left) };
}
