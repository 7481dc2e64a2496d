//! Writing single columns: lengths and variants.
ghost use Rattle.std.specs.Prelude.{◌≡◌, ◌++◌, ◌<◌, ◌≤◌, All, length, map, OnOk, IfErr};
ghost use Rattle.bitcode_memory.specs.declared.error.Reason.TheVariants.{OutOfMemory};
ghost use Rattle.bitcode_coder.specs.LengthColumn.{length_bytes};
ghost use Rattle.bitcode_columns.specs.VariantColumn.{variant_text};

use bitcode_coder::coder::Buffer;
use bitcode_coder::length::LengthEncoder;
use bitcode_columns::pack::pack_bytes_less_than;
use bitcode_memory::error::Error;
use std::alloc::Global;

/// Appends the column of the lengths of lists.
pub fn write_lengths<T>(alloc: Global, lists: &[&[T]], out: &mut Vec<u8>) -> Result<(), Error>
    ensures written { OnOk result
        (out.new.items ≡ out.old.items ++ length_bytes
        (map (λ l. length l) (map (λ l. l.now) lists.now))) }
    ensures refused { IfErr result (λ e. e.reason ≡ OutOfMemory) }
{
    let mut column = LengthEncoder::new(alloc);
    column.reserve(lists.len())?;
    for list in lists {
        column.encode(list.len())?;
    }
    column.collect_into(out)
}

/// Appends the column of variants, each one of so many.
pub fn write_variants(count: usize, variants: &[u8], out: &mut Vec<u8>) -> Result<(), Error>
    requires count { (2 ≤ count) × (count ≤ 256) }
    requires below { All (λ variant. variant < count) variants.now }
    ensures written { OnOk result
        (out.new.items ≡ out.old.items ++ variant_text count variants.now) }
    ensures refused { IfErr result (λ e. e.reason ≡ OutOfMemory) }
{
    if count <= 2 {
        pack_bytes_less_than::<2>(variants, out)
    } else if count <= 3 {
        pack_bytes_less_than::<3>(variants, out)
    } else if count <= 4 {
        pack_bytes_less_than::<4>(variants, out)
    } else if count <= 6 {
        pack_bytes_less_than::<6>(variants, out)
    } else if count <= 16 {
        pack_bytes_less_than::<16>(variants, out)
    } else {
        pack_bytes_less_than::<256>(variants, out)
    }
}
