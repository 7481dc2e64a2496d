//! Texts in columns that are written and read without a `Value`.
#![tactic(auto)]

ghost use Rattle.std.specs.Prelude.{◌≡◌, ◌≢◌, ◌⊎◌, ◌<◌, List, [], ◌∷◌, ◌++◌, None, length, OnOk, IfErr};
ghost use Rattle.bitcode_coder.specs.Columns.{texts};
ghost use Rattle.bitcode_shapes.specs.Datum.{Datum, text};
ghost use Rattle.bitcode_serde.specs.ReadColumns.{kind_of_column, left, Tallies};
ghost use Rattle.bitcode_serde.specs.WrittenColumns.{kind_of_written, entries_of};

use crate::column::{Column, WrittenColumn};
use crate::read_column::next;
use bitcode_coder::coder::{Buffer, Encoder};
use bitcode_memory::error::{Error, Reason};
use bitcode_memory::refuse::err;

impl WrittenColumn {
    /// Appends a text to a column of texts.
    ///
    /// If an allocation fails, the error is `out of memory`. If the column has other entries, it is
    /// `value is not of the shape`.
    #[inline(always)]
    pub fn push_text(&mut self, words: &str) -> Result<(), Error>
        ensures kind { OnOk result
            ((kind_of_written self.new ≡ kind_of_written self.old)
            × (texts None ≡ kind_of_written self.old)) }
        ensures written { OnOk result
            (entries_of self.new ≡ entries_of self.old ++ text words.now ∷ []) }
        ensures refused { IfErr result
            (λ e. (e.reason ≡ Reason.OutOfMemory) ⊎ (texts None ≢ kind_of_written self.old)) }
    {
        match self {
            WrittenColumn::Texts(column) => {
                column.reserve(1)?;
                column.encode(&words)
            }
            _ => err(Reason::NotOfTheShape),
        }
    }
}

impl<'a> Column<'a> {
    /// Takes the next text, borrowed from the input. At least one must be left.
    #[inline(always)]
    pub fn take_text(&mut self) -> &'a str
        requires texts { kind_of_column self.old ≡ texts None }
        requires some { 0 < length (left self.old) }
        ensures taken { left self.old ≡ text result.now ∷ left self.new }
        ensures kind { kind_of_column self.new ≡ kind_of_column self.old }
        ensures tallies { (entries : List Datum) → Tallies self.old entries
            → Tallies self.new entries }
    {
        match self {
            Column::Texts(column) => next(column),
            _ => unreachable!(),
        }
    }
}
