//! Appending the column of a list of integers.
ghost use Rattle.std.specs.Prelude.{◌≡◌, ◌≢◌, ◌+◌, ◌-◌, ◌*◌, ◌%◌, ◌^◌, ◌<◌, ◌≤◌, ◌∷◌, ◌++◌, true, false, length, map};
ghost use Rattle.std.specs.Prelude.{All, vec_len, vec_capacity, IsTrue, IsOk, OnOk, IfErr};
ghost use Rattle.bitcode_memory.specs.LittleEndian.{number_bytes};
ghost use Rattle.bitcode_memory.specs.Ints.{IsNumber, residue, least, greatest};
ghost use Rattle.bitcode_int_columns.specs.Narrowing.{above, plain_width, shifted_width, narrow_width, TakesNoScratch};
ghost use Rattle.bitcode_int_columns.specs.Narrowing.{IsFrontOf};
ghost use Rattle.bitcode_memory.specs.IntWidths.{IsWidth};
ghost use Rattle.bitcode_columns.specs.IntColumn.{halvings, narrow_text, int_level_for, text_at_int_level, int_text};
ghost use Rattle.bitcode_columns.specs.Tagged.{tag_of, tagged_text};

use crate::pack_ints::width::{is_bare, is_shifted, plain_width, shifted_width, tag_for};
use crate::pack_ints::write::{write_column, write_narrow, write_whole};
use bitcode_memory::error::{Error, Reason};
use bitcode_memory::ints::{Int, SizedUInt};
use bitcode_memory::minmax::bounds;
use std::alloc::Global;

// So many entries are looked at before all are.
const SAMPLE: usize = 16;

// Appends the entries, each less the least one, at a narrow width, behind a tag and the least one.
fn append_shifted<T: Int>(
    alloc: Global,
    entries: &[T],
    least: T,
    narrow: usize,
    out: &mut Vec<u8>,
) -> Result<(), Error>
    requires { IsWidth narrow }
    ensures written { OnOk result
        (out.new.items ≡ out.old.items ++ tag_of (halvings T.width - halvings narrow) true
        ∷ (number_bytes T.width (residue T.width (T.number least)) ++ narrow_text narrow
        (map (λ e. above T.width (residue T.width (T.number least)) (T.number e) % 256 ^ narrow)
        entries.now))) }
    ensures kept { IsFrontOf out.old.items out.new.items }
    ensures reason { IfErr result (λ e. e.reason ≡ Reason.OutOfMemory) }
    ensures succeeds { narrow ≢ 1 → vec_len out.old + (1 + T.width + length entries.now * narrow)
        ≤ vec_capacity out.old → IsOk result }
{
    let base = least.to_unsigned();
    out.push(tag_for(T::width(), narrow).saturating_sub(1))?;
    base.write(out)?;
    write_narrow(alloc, entries, base, narrow, out)
}

// Appends the entries at a narrow width, behind a tag.
fn append_plain<T: Int>(
    alloc: Global,
    entries: &[T],
    narrow: usize,
    out: &mut Vec<u8>,
) -> Result<(), Error>
    requires { IsWidth narrow }
    ensures written { OnOk result
        (out.new.items ≡ out.old.items ++ tag_of (halvings T.width - halvings narrow) false
        ∷ narrow_text narrow (map (λ e. above T.width 0 (T.number e) % 256 ^ narrow) entries.now)) }
    ensures kept { IsFrontOf out.old.items out.new.items }
    ensures reason { IfErr result (λ e. e.reason ≡ Reason.OutOfMemory) }
    ensures succeeds { narrow ≢ 1 → vec_len out.old + (1 + length entries.now * narrow)
        ≤ vec_capacity out.old → IsOk result }
{
    out.push(tag_for(T::width(), narrow))?;
    if narrow == T::width() && narrow != 1 {
        return write_whole(entries, out);
    }
    write_narrow(alloc, entries, T::Unsigned::from_wide(0), narrow, out)
}

// Each entry is a number of its type.
fn known_numbers<T: Int>(entries: &[T])
    ensures { All (λ e. IsNumber T.width T.signed (T.number e)) entries.now }
{
    for entry in entries {
        let _in_range = entry.to_unsigned();
    }
}

// Whether the first entries are so far apart that all need the whole width, with and without the least one. Then there
// is no need to look at the others.
fn take_whole_width<T: Int>(entries: &[T]) -> bool
    requires { 0 < length entries.now }
    ensures plain { IsTrue result → plain_width T.width (least (map T.number entries.now))
        (greatest (map T.number entries.now)) ≡ T.width }
    ensures shifted { IsTrue result → shifted_width (least (map T.number entries.now))
        (greatest (map T.number entries.now)) ≡ T.width }
    ensures in_range { All (λ e. IsNumber T.width T.signed (T.number e)) entries.now }
{
    known_numbers(entries);
    let (sample, _) = entries.split_at(entries.len().min(SAMPLE));
    let (least, greatest) = bounds(sample).unwrap();
    shifted_width(least, greatest) == T::width()
}

// Appends the entries behind a tag, in the form that takes the narrower numbers.
fn append_tagged<T: Int>(alloc: Global, entries: &[T], out: &mut Vec<u8>) -> Result<(), Error>
    requires { 0 < length entries.now }
    ensures written { OnOk result
        (out.new.items ≡ out.old.items ++ tagged_text T.width (int_level_for T.width)
        (text_at_int_level T.width) (map T.number entries.now)) }
    ensures kept { IsFrontOf out.old.items out.new.items }
    ensures reason { IfErr result (λ e. e.reason ≡ Reason.OutOfMemory) }
    ensures succeeds { let low = least (map T.number entries.now)
        in let high = greatest (map T.number entries.now) in
        narrow_width (length entries.now) (plain_width T.width low high) (shifted_width low high)
        ≢ 1
        → vec_len out.old + (1 + length entries.now * T.width) ≤ vec_capacity out.old
        → IsOk result }
{
    if take_whole_width(entries) {
        return append_plain(alloc, entries, T::width(), out);
    }
    let (least, greatest) = bounds(entries).unwrap();
    let plain = plain_width(least, greatest);
    let shifted = shifted_width(least, greatest);
    if is_shifted(entries.len(), plain, shifted) {
        append_shifted(alloc, entries, least, shifted, out)
    } else {
        append_plain(alloc, entries, plain, out)
    }
}

// Appends the column of the entries.
//
// What was appended before a refusal stays.
pub(crate) fn append_ints<T: Int>(
    alloc: Global,
    entries: &[T],
    out: &mut Vec<u8>,
) -> Result<(), Error>
    ensures written { OnOk result
        (out.new.items ≡ out.old.items ++ int_text T.width (map T.number entries.now)) }
    ensures kept { IsFrontOf out.old.items out.new.items }
    ensures reason { IfErr result (λ e. e.reason ≡ Reason.OutOfMemory) }
    ensures succeeds { TakesNoScratch T.width (map T.number entries.now)
        → vec_len out.old + (1 + length entries.now * T.width) ≤ vec_capacity out.old
        → IsOk result }
{
    if T::width() == 1 {
        return write_column(alloc, entries, out);
    }
    if is_bare(T::width(), entries.len()) {
        return write_whole(entries, out);
    }
    append_tagged(alloc, entries, out)
}
