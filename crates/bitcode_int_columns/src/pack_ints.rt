//! Packing integers.
ghost use Rattle.std.specs.Prelude.{◌≡◌, ◌+◌, ◌*◌, ◌≤◌, ◌++◌, length, map, vec_len, vec_capacity, IsOk, OnOk, IfErr};
ghost use Rattle.std.specs.Prelude.{OnErr};
ghost use Rattle.bitcode_columns.specs.IntColumn.{int_text};
ghost use Rattle.bitcode_int_columns.specs.Narrowing.{TakesNoScratch};

use crate::pack_ints::append::append_ints;
pub use crate::pack_ints::read::unpack_ints;
use bitcode_memory::error::{Error, Reason};
use bitcode_memory::ints::Int;
use std::alloc::Global;

mod append;
mod read;
pub(crate) mod single;
pub(crate) mod width;
mod write;

/// Appends the column of the integers. Do not rely on the integers in the slice afterwards.
///
/// The single `u32` 255 becomes `[4, 255]`: a tag, which says that numbers of one byte follow, and the number. Before
/// it appends anything, it reserves room for the longest possible text: the raw bytes and one more. If an allocation
/// fails, the error is `out of memory` and `out` is unchanged. If `out` has that room, only numbers of one byte
/// need more memory, because they are packed once more.
pub fn pack_ints<T: Int>(alloc: Global, ints: &mut [T], out: &mut Vec<u8>) -> Result<(), Error>
    ensures written { OnOk result
        (out.new.items ≡ out.old.items ++ int_text T.width (map T.number ints.old)) }
    ensures unchanged { OnErr result (out.new.items ≡ out.old.items) }
    ensures reason { IfErr result (λ e. e.reason ≡ Reason.OutOfMemory) }
    ensures succeeds { TakesNoScratch T.width (map T.number ints.old)
        → vec_len out.old + (1 + length ints.old * T.width) ≤ vec_capacity out.old → IsOk result }
{
    pack_int_slice(alloc, ints, out)
}

/// Appends the column of the integers, as [`pack_ints`] does, and leaves the slice unchanged.
///
/// If an allocation fails, the error is `out of memory` and `out` is unchanged.
pub fn pack_int_slice<T: Int>(alloc: Global, ints: &[T], out: &mut Vec<u8>) -> Result<(), Error>
    ensures written { OnOk result
        (out.new.items ≡ out.old.items ++ int_text T.width (map T.number ints.now)) }
    ensures unchanged { OnErr result (out.new.items ≡ out.old.items) }
    ensures reason { IfErr result (λ e. e.reason ≡ Reason.OutOfMemory) }
    ensures succeeds { TakesNoScratch T.width (map T.number ints.now)
        → vec_len out.old + (1 + length ints.now * T.width) ≤ vec_capacity out.old → IsOk result }
{
    let start = out.len();
    out.reserve(ints.len().saturating_mul(T::width()).saturating_add(1))?;
    let packed = append_ints(alloc, ints, out);
    if packed.is_err() {
        out.truncate(start);
    }
    packed
}
