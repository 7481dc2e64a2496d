//! Writing the numbers of a column at a width.
ghost use Rattle.std.specs.Prelude.{◌≡◌, ◌≢◌, ◌+◌, ◌*◌, ◌%◌, ◌^◌, ◌<◌, ◌≤◌, ◌++◌, length, map, All, vec_len};
ghost use Rattle.std.specs.Prelude.{vec_capacity, IsOk, IfOk, OnOk, IfErr};
ghost use Rattle.bitcode_columns.specs.ByteColumn.{byte_text};
ghost use Rattle.bitcode_memory.specs.IntWidths.{IsWidth};
ghost use Rattle.bitcode_columns.specs.IntColumn.{narrow_text};
ghost use Rattle.bitcode_memory.specs.LittleEndian.{raw_text};
ghost use Rattle.bitcode_int_columns.specs.Narrowing.{above, IsFrontOf};
ghost use Rattle.bitcode_memory.specs.Ints.{IsNumber, number_of};

use bitcode_columns::byte::Byte;
use bitcode_columns::pack::pack_bytes;
use bitcode_memory::error::{Error, Reason};
use bitcode_memory::ints::{Int, SizedUInt, push_bytes};
use bitcode_memory::refuse::err;
use std::alloc::Global;
use std::mem::replace;

// This many bytes form a block.
const BLOCK: usize = 1024;

// So many entries are there sooner one by one than in a block, which is a call for its zeros.
const MOST_ONE_BY_ONE: usize = 2;

// Writes how far each entry lies above a base over as many bytes as they take at a narrow type.
#[inline(always)]
fn put_numbers<T: Int, N: SizedUInt>(entries: &[T], base: T::Unsigned, bytes: &mut [u8])
    requires { length bytes.old ≡ length entries.now * N.width }
    ensures written { bytes.new ≡ raw_text N.width
        (map (λ e. above T.width (T.Unsigned.value base) (T.number e) % 256 ^ N.width)
        entries.now) }
    ensures in_range { All (λ e. IsNumber T.width T.signed (T.number e)) entries.now }
{
    let size = N::size();
    for place in 0..entries.len() {
        let distance = entries[place].to_unsigned().wrapping_sub(base);
        let start = place * size;
        N::from_wide(distance.to_wide()).put(&mut bytes[start..start + size]);
    }
}

// Appends entries of fewer bytes than a block, each as how far it lies above a base, in room that is there.
fn push_rest<T: Int, N: SizedUInt>(entries: &[T], base: T::Unsigned, out: &mut Vec<u8>)
    requires { vec_len out.old + length entries.now * N.width ≤ vec_capacity out.old }
    ensures written { out.new.items ≡ out.old.items ++ raw_text N.width
        (map (λ e. above T.width (T.Unsigned.value base) (T.number e) % 256 ^ N.width)
        entries.now) }
    ensures in_range { All (λ e. IsNumber T.width T.signed (T.number e)) entries.now }
    ensures len { vec_len out.new ≡ vec_len out.old + length entries.now * N.width }
    ensures capacity { vec_capacity out.old ≤ vec_capacity out.new }
{
    let start = out.len();
    out.resize(start + entries.len() * N::size(), 0).unwrap();
    put_numbers::<T, N>(entries, base, &mut out.as_mut_slice()[start..]);
}

// Appends a block of entries, each as how far it lies above a base, in room that is there.
//
// The block is written to an array first. If each entry keeps all its bytes, the compiler then sees that the array is a
// copy of the entries, and makes one copy of both.
#[inline(always)]
fn push_block<T: Int, N: SizedUInt>(entries: &[T], base: T::Unsigned, mut out: Vec<u8>) -> Vec<u8>
    requires size { length entries.now * N.width ≡ 1024 }
    requires room { vec_len out + length entries.now * N.width ≤ vec_capacity out }
    ensures written { result.items ≡ out.items ++ raw_text N.width
        (map (λ e. above T.width (T.Unsigned.value base) (T.number e) % 256 ^ N.width)
        entries.now) }
    ensures in_range { All (λ e. IsNumber T.width T.signed (T.number e)) entries.now }
    ensures len { vec_len result ≡ vec_len out + length entries.now * N.width }
    ensures capacity { vec_capacity result ≡ vec_capacity out }
{
    let mut block = [0u8; BLOCK];
    put_numbers::<T, N>(entries, base, &mut block);
    push_bytes(&block, &mut out);
    out
}

// Appends how far each entry of whole blocks of so many lies above a base, in room that is there. The list is handed
// over and given back, so that its length is kept in a register.
#[inline(always)]
fn push_blocks<T: Int, N: SizedUInt>(
    entries: &[T],
    in_block: usize,
    base: T::Unsigned,
    mut out: Vec<u8>,
) -> Vec<u8>
    requires some { 0 < in_block }
    requires size { in_block * N.width ≡ 1024 }
    requires whole { length entries.now % in_block ≡ 0 }
    requires room { vec_len out + length entries.now * N.width ≤ vec_capacity out }
    ensures written { result.items ≡ out.items ++ raw_text N.width
        (map (λ e. above T.width (T.Unsigned.value base) (T.number e) % 256 ^ N.width)
        entries.now) }
    ensures in_range { All (λ e. IsNumber T.width T.signed (T.number e)) entries.now }
    ensures len { vec_len result ≡ vec_len out + length entries.now * N.width }
    ensures capacity { vec_capacity result ≡ vec_capacity out }
{
    let mut rest = entries;
    for _block in 0..entries.len() / in_block {
        let (block, behind) = rest.split_at(in_block);
        out = push_block::<T, N>(block, base, out);
        rest = behind;
    }
    out
}

// How many entries are written block by block.
fn in_blocks(count: usize, in_block: usize) -> usize
    requires { 0 < in_block }
    ensures within { result ≤ count }
    ensures whole { result % in_block ≡ 0 }
{
    let blocks = count / in_block;
    blocks * in_block
}

// Appends how far each entry lies above a base, one by one, in room that is there.
fn push_each<T: Int, N: SizedUInt>(entries: &[T], base: T::Unsigned, out: &mut Vec<u8>)
    requires { vec_len out.old + length entries.now * N.width ≤ vec_capacity out.old }
    ensures written { out.new.items ≡ out.old.items ++ raw_text N.width
        (map (λ e. above T.width (T.Unsigned.value base) (T.number e) % 256 ^ N.width)
        entries.now) }
    ensures in_range { All (λ e. IsNumber T.width T.signed (T.number e)) entries.now }
{
    for entry in entries {
        let distance = entry.to_unsigned().wrapping_sub(base);
        N::from_wide(distance.to_wide()).push(out);
    }
}

// Appends the distance of each entry from a base, in the bytes of a narrow type. The caller must have reserved the
// room. It writes a few one by one, and more as blocks and a rest.
#[inline(always)]
fn push_numbers<T: Int, N: SizedUInt>(entries: &[T], base: T::Unsigned, out: &mut Vec<u8>)
    requires { vec_len out.old + length entries.now * N.width ≤ vec_capacity out.old }
    ensures written { out.new.items ≡ out.old.items ++ raw_text N.width
        (map (λ e. above T.width (T.Unsigned.value base) (T.number e) % 256 ^ N.width)
        entries.now) }
    ensures in_range { All (λ e. IsNumber T.width T.signed (T.number e)) entries.now }
{
    if entries.len() <= MOST_ONE_BY_ONE {
        push_each::<T, N>(entries, base, out);
        return;
    }
    let in_block = BLOCK / N::size();
    let (blocks, rest) = entries.split_at(in_blocks(entries.len(), in_block));
    let alloc = *out.allocator();
    let held = replace(out, Vec::new(alloc));
    *out = push_blocks::<T, N>(blocks, in_block, base, held);
    push_rest::<T, N>(rest, base, out);
}

// Appends how far each entry lies above a base, in the bytes of a narrow type.
//
// A refused growth leaves `out` as it is.
#[inline(always)]
fn write_numbers<T: Int, N: SizedUInt>(
    entries: &[T],
    base: T::Unsigned,
    out: &mut Vec<u8>,
) -> Result<(), Error>
    ensures written { OnOk result
        (out.new.items ≡ out.old.items ++ raw_text N.width
        (map (λ e. above T.width (T.Unsigned.value base) (T.number e) % 256 ^ N.width)
        entries.now)) }
    ensures in_range { OnOk result (All (λ e. IsNumber T.width T.signed (T.number e)) entries.now) }
    ensures kept { IsFrontOf out.old.items out.new.items }
    ensures reason { IfErr result (λ e. e.reason ≡ Reason.OutOfMemory) }
    ensures succeeds { vec_len out.old + length entries.now * N.width ≤ vec_capacity out.old
        → IsOk result }
{
    let Some(size) = entries.len().checked_mul(N::size()) else {
        return err(Reason::OutOfMemory);
    };
    out.reserve(size)?;
    push_numbers::<T, N>(entries, base, out);
    Ok(())
}

// Appends the entries in all their bytes.
//
// A refused growth leaves `out` as it is.
pub(crate) fn write_whole<T: Int>(entries: &[T], out: &mut Vec<u8>) -> Result<(), Error>
    ensures written { OnOk result
        (out.new.items ≡ out.old.items ++ raw_text T.width
        (map (λ e. above T.width 0 (T.number e) % 256 ^ T.width) entries.now)) }
    ensures in_range { OnOk result (All (λ e. IsNumber T.width T.signed (T.number e)) entries.now) }
    ensures kept { IsFrontOf out.old.items out.new.items }
    ensures reason { IfErr result (λ e. e.reason ≡ Reason.OutOfMemory) }
    ensures succeeds { vec_len out.old + length entries.now * T.width ≤ vec_capacity out.old
        → IsOk result }
{
    write_numbers::<T, T::Unsigned>(entries, T::Unsigned::from_wide(0), out)
}

// How far each entry lies above a base, as numbers of one byte.
fn narrow_bytes<T: Int, B: Byte>(
    alloc: Global,
    entries: &[T],
    base: T::Unsigned,
) -> Result<Vec<B>, Error>
    ensures numbers { IfOk result
        (λ bytes. map B.number bytes.items ≡ map
        (λ e. number_of 1 B.signed (above T.width (T.Unsigned.value base) (T.number e) % 256))
        entries.now) }
    ensures in_range { OnOk result (All (λ e. IsNumber T.width T.signed (T.number e)) entries.now) }
    ensures reason { IfErr result (λ e. e.reason ≡ Reason.OutOfMemory) }
    ensures none { length entries.now ≡ 0 → IsOk result }
{
    let mut bytes = Vec::with_capacity(alloc, entries.len())?;
    for entry in entries {
        let distance = entry.to_unsigned().wrapping_sub(base).to_wide();
        bytes.push_reserved(B::from_byte((distance % 0x100) as u8));
    }
    Ok(bytes)
}

// Appends how far each entry lies above a base, as a byte column.
pub(crate) fn write_bytes<T: Int, B: Byte>(
    alloc: Global,
    entries: &[T],
    base: T::Unsigned,
    out: &mut Vec<u8>,
) -> Result<(), Error>
    ensures written { OnOk result
        (out.new.items ≡ out.old.items ++ byte_text
        (map (λ e. number_of 1 B.signed (above T.width (T.Unsigned.value base) (T.number e) % 256))
        entries.now)) }
    ensures in_range { OnOk result (All (λ e. IsNumber T.width T.signed (T.number e)) entries.now) }
    ensures kept { IsFrontOf out.old.items out.new.items }
    ensures reason { IfErr result (λ e. e.reason ≡ Reason.OutOfMemory) }
    ensures none { length entries.now ≡ 0 → vec_len out.old ≤ vec_capacity out.old → IsOk result }
{
    let mut bytes = narrow_bytes::<T, B>(alloc, entries, base)?;
    pack_bytes(&mut bytes, out)
}

// Appends how far each entry lies above a base, at a narrow width.
pub(crate) fn write_narrow<T: Int>(
    alloc: Global,
    entries: &[T],
    base: T::Unsigned,
    width: usize,
    out: &mut Vec<u8>,
) -> Result<(), Error>
    requires { IsWidth width }
    ensures written { OnOk result
        (out.new.items ≡ out.old.items ++ narrow_text width
        (map (λ e. above T.width (T.Unsigned.value base) (T.number e) % 256 ^ width) entries.now)) }
    ensures kept { IsFrontOf out.old.items out.new.items }
    ensures reason { IfErr result (λ e. e.reason ≡ Reason.OutOfMemory) }
    ensures succeeds { width ≢ 1 → vec_len out.old + length entries.now * width ≤ vec_capacity
        out.old → IsOk result }
{
    match width {
        1 => write_bytes::<T, u8>(alloc, entries, base, out),
        2 => write_numbers::<T, u16>(entries, base, out),
        4 => write_numbers::<T, u32>(entries, base, out),
        8 => write_numbers::<T, u64>(entries, base, out),
        _ => write_numbers::<T, u128>(entries, base, out),
    }
}

// Appends the column of entries that are bytes.
pub(crate) fn write_column<T: Int>(
    alloc: Global,
    entries: &[T],
    out: &mut Vec<u8>,
) -> Result<(), Error>
    requires { T.width ≡ 1 }
    ensures written { OnOk result
        (out.new.items ≡ out.old.items ++ byte_text (map T.number entries.now)) }
    ensures kept { IsFrontOf out.old.items out.new.items }
    ensures reason { IfErr result (λ e. e.reason ≡ Reason.OutOfMemory) }
    ensures none { length entries.now ≡ 0 → vec_len out.old ≤ vec_capacity out.old → IsOk result }
{
    let base = T::Unsigned::from_wide(0);
    if T::is_signed() {
        write_bytes::<T, i8>(alloc, entries, base, out)
    } else {
        write_bytes::<T, u8>(alloc, entries, base, out)
    }
}
