//! One column of a table, without its rows.
ghost use Rattle.std.specs.Prelude.{◌≡◌, ℕ, List, length, IfOk};
ghost use Rattle.bitcode.specs.ByHand.{Datum};
ghost use Rattle.column_report.specs.Table.{HasLastColumn, total_of};

use bitcode::coder::{HoldsData, NewDecoder};
use bitcode::{Decoder, Error, IntDecoder, LengthDecoder, StrDecoder, View, expect_eof};
use std::alloc::Global;

/// The amounts of a table, in cents, and how many there are. The other columns are checked and left out.
///
/// The columns come in the order of the fields of `Sale`, behind the number of the rows.
pub fn cents<'a>(alloc: Global, table: &'a [u8]) -> Result<(usize, IntDecoder<'a, u32>), Error>
    ensures found { IfOk result (λ found. HasLastColumn ⟦<StrDecoder<'a> as HoldsData>⟧.shape
        ⟦<IntDecoder<'a, u16> as HoldsData>⟧.shape ⟦<IntDecoder<'a, u32> as HoldsData>⟧.shape
        table.now found.0 (⟦<IntDecoder<'a, u32> as HoldsData>⟧.held found.1)) }
{
    let mut input = table;
    let mut lengths = LengthDecoder::new(alloc);
    lengths.populate(&mut input, 1)?;
    let count = lengths.length();
    let mut products = StrDecoder::new(alloc);
    products.populate(&mut input, count)?;
    let mut regions: IntDecoder<'a, u16> = IntDecoder::new(alloc);
    regions.populate(&mut input, count)?;
    let mut cents: IntDecoder<'a, u32> = IntDecoder::new(alloc);
    cents.populate(&mut input, count)?;
    expect_eof(input)?;
    Ok((count, cents))
}

/// The sum of a column.
pub fn sum<D: Decoder<u32>>(column: &mut D, count: usize) -> Result<u128, Error>
    requires { count ≡ length (D.held column.old) }
    ensures total { IfOk result (λ total. total ≡ total_of (D.held column.old)) }
{
    let mut total: u128 = 0;
    for _row in 0..count {
        let entry: u32 = column.decode()?;
        total += u128::from(entry);
    }
    Ok(total)
}

/// The sum of the amounts of a table, in cents. No row of it is made.
pub fn total<'a>(alloc: Global, table: &'a [u8]) -> Result<u128, Error>
    ensures found { IfOk result (λ total. (count : ℕ) × (entries : List Datum)
        × HasLastColumn ⟦<StrDecoder<'a> as HoldsData>⟧.shape
        ⟦<IntDecoder<'a, u16> as HoldsData>⟧.shape ⟦<IntDecoder<'a, u32> as HoldsData>⟧.shape
        table.now count entries
        × (total ≡ total_of entries)) }
{
    let (count, mut column) = cents(alloc, table)?;
    sum(&mut column, count)
}
