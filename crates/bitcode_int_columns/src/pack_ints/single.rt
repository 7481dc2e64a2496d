//! Packing one integer.
ghost use Rattle.std.specs.Prelude.{◌≡◌, ◌+◌, ◌%◌, ◌^◌, ◌≤◌, [], ◌∷◌, ◌++◌, vec_len, vec_capacity, OnOk, IfErr};
ghost use Rattle.std.specs.Prelude.{OnErr};
ghost use Rattle.bitcode_columns.specs.IntColumn.{int_text, narrow_text};
ghost use Rattle.bitcode_memory.specs.IntWidths.{IsWidth};

use crate::pack_ints::width::{plain_width, tag_for};
use bitcode_memory::error::{Error, Reason};
use bitcode_memory::ints::{Int, SizedUInt};

// Appends a number at a narrow width. The caller must have reserved the room.
#[inline(always)]
fn push_narrow(number: u128, width: usize, out: &mut Vec<u8>)
    requires width { IsWidth width }
    requires room { vec_len out.old + width ≤ vec_capacity out.old }
    ensures { out.new.items ≡ out.old.items ++ narrow_text width (number % 256 ^ width ∷ []) }
{
    match width {
        1 => u8::from_wide(number).push(out),
        2 => u16::from_wide(number).push(out),
        4 => u32::from_wide(number).push(out),
        8 => u64::from_wide(number).push(out),
        _ => u128::from_wide(number).push(out),
    }
}

/// Appends the column of one integer of four bytes or more. Unlike `pack_ints`, it needs no scratch memory.
///
/// If an allocation fails, the error is `out of memory` and `out` is unchanged.
pub(crate) fn pack_int<T: Int>(int: T, out: &mut Vec<u8>) -> Result<(), Error>
    requires { 4 ≤ T.width }
    ensures written { OnOk result
        (out.new.items ≡ out.old.items ++ int_text T.width (T.number int ∷ [])) }
    ensures unchanged { OnErr result (out.new.items ≡ out.old.items) }
    ensures reason { IfErr result (λ e. e.reason ≡ Reason.OutOfMemory) }
{
    let width = plain_width(int, int);
    out.reserve(1 + width)?;
    out.push_reserved(tag_for(T::width(), width));
    push_narrow(int.to_unsigned().to_wide(), width, out);
    Ok(())
}
