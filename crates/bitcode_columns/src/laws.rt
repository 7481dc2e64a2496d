//! Laws of columns, for all entries. The functions do nothing: their contracts are the laws.
ghost use Rattle.std.specs.Prelude.{ℕ, ◌<◌, ◌≤◌, Bool, List, ◌++◌, length, All};
ghost use Rattle.bitcode_columns.specs.BoolColumn.{SpellsBools, bool_text};
ghost use Rattle.bitcode_columns.specs.ByteColumn.{SpellsBytes, byte_text};
ghost use Rattle.bitcode_memory.specs.IntWidths.{IsWidth};
ghost use Rattle.bitcode_columns.specs.IntColumn.{SpellsInts, int_text};
ghost use Rattle.bitcode_columns.specs.Laws.{IsReadOnce, TakesAnEighth, IsFaultOf, TakesAtMostOneMore, ReadsBack};
ghost use Rattle.bitcode_columns.specs.Laws.{NumbersAreFound};
ghost use Rattle.bitcode_columns.specs.Reading.{Reads, bools_fault, bytes_fault, variants_fault, ints_fault};
ghost use Rattle.bitcode_columns.specs.VariantColumn.{SpellsVariants, variant_text};

/// Bool columns. What is written is read back, whatever follows. An input is read in at most one way. An empty column
/// has no bytes, and `k` entries have at least `k / 8`. A fault is reported only where nothing can be read.
pub fn bool_columns()
    ensures round_trip { (entries : List Bool) (rest : List ℕ)
        → Reads SpellsBools (length entries) (bool_text entries ++ rest) entries rest }
    ensures unambiguous { IsReadOnce SpellsBools }
    ensures size_bound { TakesAnEighth SpellsBools }
    ensures refused { IsFaultOf bools_fault SpellsBools }
{}

/// Byte columns: the same, and the text has at most one byte more than the raw bytes.
pub fn byte_columns()
    ensures round_trip { ReadsBack 1 SpellsBytes byte_text }
    ensures unambiguous { IsReadOnce SpellsBytes }
    ensures size_bound { TakesAnEighth SpellsBytes }
    ensures refused { IsFaultOf bytes_fault SpellsBytes }
    ensures at_most { TakesAtMostOneMore 1 byte_text }
{}

/// Columns of 2 to 256 variants: the same as bool columns.
pub fn variant_columns()
    ensures round_trip { (variants : ℕ) (entries rest : List ℕ) → 2 ≤ variants → variants ≤ 256
        → All (λ entry. entry < variants) entries
        → Reads (SpellsVariants variants) (length entries) (variant_text variants entries ++ rest)
        entries rest }
    ensures unambiguous { (variants : ℕ) → IsReadOnce (SpellsVariants variants) }
    ensures size_bound { (variants : ℕ) → TakesAnEighth (SpellsVariants variants) }
    ensures refused { (variants : ℕ) → IsFaultOf (variants_fault variants)
        (SpellsVariants variants) }
{}

/// Integer columns of 1, 2, 4, 8 and 16 bytes: the same as byte columns, and an entry's residue determines its number.
pub fn int_columns()
    ensures round_trip { (width : ℕ) → IsWidth width
        → ReadsBack width (SpellsInts width) (int_text width) }
    ensures unambiguous { (width : ℕ) → IsReadOnce (SpellsInts width) }
    ensures size_bound { (width : ℕ) → IsWidth width → TakesAnEighth (SpellsInts width) }
    ensures refused { (width : ℕ) → IsFaultOf (ints_fault width) (SpellsInts width) }
    ensures at_most { (width : ℕ) → IsWidth width → TakesAtMostOneMore width (int_text width) }
    ensures numbers { NumbersAreFound }
{}
