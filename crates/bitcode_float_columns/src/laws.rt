//! Laws of columns of floats, for all entries. The function does nothing: its contract is the laws.
ghost use Rattle.std.specs.Prelude.{ℕ, ◌*◌, ◌^◌, ◌<◌, List, ◌++◌, length, All};
ghost use Rattle.bitcode_columns.specs.Laws.{IsReadOnce, TakesAnEighth, IsFaultOf};
ghost use Rattle.bitcode_columns.specs.Reading.{Reads, missing};
ghost use Rattle.bitcode_float_columns.specs.FloatColumn.{SpellsSplit, split_text};

/// Columns of the bits of 4-byte floats. What is written is read back, whatever follows. An input is read in at most
/// one way. An empty column has no bytes. A fault is reported only where nothing can be read.
pub fn split_columns()
    ensures round_trip { (bits rest : List ℕ) → All (λ b. b < 256 ^ 4) bits
        → Reads SpellsSplit (length bits) (split_text bits ++ rest) bits rest }
    ensures unambiguous { IsReadOnce SpellsSplit }
    ensures size_bound { TakesAnEighth SpellsSplit }
    ensures refused { IsFaultOf (λ count input. missing (count * 4) input) SpellsSplit }
{}
