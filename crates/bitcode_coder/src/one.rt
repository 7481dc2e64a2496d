//! Writing one value, without a list for each column if its encoder can.
#![tactic(auto)]

ghost use Rattle.std.specs.Prelude.{◌≡◌, ◌++◌, [], ◌∷◌, OnOk, IfErr};
ghost use Rattle.bitcode_coder.specs.Columns.{emptied};
ghost use Rattle.bitcode_coder.specs.Coder.{BeginsWith, WritesListing, OverflowsWithListing, IsWritingRefusal};
ghost use Rattle.bitcode_coder.specs.LengthColumn.{length_bytes};

use crate::coder::{Buffer, Encoder};
use crate::length::ESCAPE;
use bitcode_int_columns::pack_ints::pack_ints;
use bitcode_memory::error::{Error, Reason};
use bitcode_shapes::shaped::Shaped;
use std::alloc::Global;

/// Appends the columns of one value to `out` and keeps none of them. The columns must be empty.
///
/// Errors: those of `Encoder::encode`. `out` then begins with its old bytes.
///
/// ```
/// let mut column = BoolEncoder::new(alloc);
/// write_one(&mut column, &true, &mut bytes)?; // [1]
/// ```
pub fn write_one<T: Shaped, E: Buffer + Encoder<T>>(
    encoder: &mut E,
    t: &T,
    out: &mut Vec<u8>,
) -> Result<(), Error>
    requires { E.columns encoder.old ≡ emptied (E.columns encoder.old) }
    ensures written { OnOk result
        (WritesListing T.data.lists T.data.shape t.now (E.columns encoder.old) out.old.items
        out.new.items) }
    ensures empty { OnOk result (E.columns encoder.new ≡ emptied (E.columns encoder.old)) }
    ensures begins { BeginsWith out.old.items out.new.items }
    ensures form { emptied (E.columns encoder.new) ≡ emptied (E.columns encoder.old) }
    ensures refused { IfErr result
        (λ e. IsWritingRefusal e.reason
        (OverflowsWithListing T.data.lists T.data.shape t.now (E.columns encoder.old))) }
{
    if encoder.write_directly(t, out)? {
        return Ok(());
    }
    t.told();
    encoder.reserve(1)?;
    encoder.encode(t)?;
    encoder.collect_into(out)
}

/// Appends the column of one length to `out`.
///
/// Errors: `out of memory`. `out` then begins with its old bytes.
///
/// ```
/// write_length(alloc, 3, &mut bytes)?; // [3]
/// ```
pub fn write_length(alloc: Global, length: usize, out: &mut Vec<u8>) -> Result<(), Error>
    ensures written { OnOk result (out.new.items ≡ out.old.items ++ length_bytes (length ∷ [])) }
    ensures begins { BeginsWith out.old.items out.new.items }
    ensures refused { IfErr result (λ e. e.reason ≡ Reason.OutOfMemory) }
{
    if length < ESCAPE as usize {
        out.push(length as u8)?;
        return Ok(());
    }
    out.push(ESCAPE)?;
    pack_ints(alloc, &mut [length as u64], out)
}
