//! Laws of the columns of data, for all data. The functions do nothing: their contracts are the laws.
ghost use Rattle.std.specs.Prelude.{◌≡◌, ℕ, List, All};
ghost use Rattle.bitcode_columns.specs.Laws.{IsReadOnce};
ghost use Rattle.bitcode_shapes.specs.Datum.{Datum};
ghost use Rattle.bitcode_shapes.specs.Shape.{Shape, IsSound, IsOf};
ghost use Rattle.bitcode_coder.specs.Columns.{Kind, IsSoundKind, CountsFit};
ghost use Rattle.bitcode_coder.specs.Spelling.{Spells, SpellsColumn, texts_of, LengthsBelowLimit};
ghost use Rattle.bitcode_coder.specs.Transposition.{columns_of, spread};
ghost use Rattle.bitcode_coder.specs.Strict.{StrictlySpells};
ghost use Rattle.bitcode_coder.specs.JoinedTexts.{AreUtf8AsJoined};
ghost use Rattle.bitcode_coder.specs.Laws.{ReadsBackColumn, ColumnTakesAnEighth, ReadsBackData, DataTakeAnEighth};
ghost use Rattle.bitcode_coder.specs.Laws.{JoinsColumnByColumn, TreeIsList};

/// A column of any kind. What is written is read back, whatever follows. An input is read in at most one way. An empty
/// column has no bytes, and there are at most eight times as many entries as bytes.
///
/// ```
/// one_column();
/// ```
pub fn one_column()
    ensures round_trip { (kind : Kind) → IsSoundKind kind → ReadsBackColumn kind }
    ensures unambiguous { (kind : Kind) → IsReadOnce (SpellsColumn kind) }
    ensures size_bound { (kind : Kind) → IsSoundKind kind → ColumnTakesAnEighth kind }
{}

/// The same for all columns of data of any shape.
///
/// ```
/// all_columns();
/// ```
pub fn all_columns()
    ensures round_trip { (shape : Shape) → IsSound shape → ReadsBackData shape }
    ensures unambiguous { (shape : Shape) → IsReadOnce (Spells shape) }
    ensures size_bound { (shape : Shape) → IsSound shape → DataTakeAnEighth shape }
{}

/// The columns of two concatenated lists of data are the columns of the lists, joined column by column.
///
/// ```
/// joined_data();
/// ```
pub fn joined_data()
    ensures { (shape : Shape) → JoinsColumnByColumn shape }
{}

/// The columns of data form a tree that follows the shape, and the same columns form a list. Proofs follow the tree,
/// and the bytes follow the list.
///
/// ```
/// tree_and_list();
/// ```
pub fn tree_and_list()
    ensures { (shape : Shape) (ds : List Datum) → TreeIsList shape ds }
{}

/// Texts are all UTF-8 exactly if their concatenation is, and if each text except the last ends where a character
/// begins. So a reader validates the concatenation once.
///
/// ```
/// joined_texts();
/// ```
pub fn joined_texts()
    ensures { (texts : List (List ℕ)) → AreUtf8AsJoined texts }
{}

/// Data of any shape have at most one strict encoding: the concatenated texts of their columns. So a strict encoding
/// consists of the bytes that are written, wherever these can be read back.
///
/// ```
/// strict_data();
/// ```
pub fn strict_data()
    ensures once { (shape : Shape) (piece other : List ℕ) (ds : List Datum)
        → StrictlySpells shape piece ds → StrictlySpells shape other ds → piece ≡ other }
    ensures text { (shape : Shape) (piece : List ℕ) (ds : List Datum)
        → StrictlySpells shape piece ds → Spells shape piece ds
        × (piece ≡ texts_of (spread shape ds)) }
    ensures written { (shape : Shape) → IsSound shape → (ds : List Datum) → All (IsOf shape) ds
        → CountsFit (columns_of shape ds) → LengthsBelowLimit (columns_of shape ds)
        → StrictlySpells shape (texts_of (spread shape ds)) ds }
{}
