//! Integers, as the coders of their columns see them.
ghost use Rattle.std.specs.Prelude.{◌≡◌, ◌≢◌, ℕ, ◌^◌, ◌<◌, ◌++◌, ℤ, Bool, List, [], ◌∷◌, map, All, IsTrue, IsFalse};
ghost use Rattle.std.specs.Prelude.{◌↔◌, IfOk, OnOk, IfErr, OnErr};
ghost use Rattle.bitcode_memory.specs.Fast.{cow_rest};
ghost use Rattle.bitcode_memory.specs.IntWidths.{IsWidth};
ghost use Rattle.bitcode_columns.specs.IntColumn.{SpellsInts, int_text};
ghost use Rattle.bitcode_memory.specs.LittleEndian.{little_endian};
ghost use Rattle.bitcode_memory.specs.Ints.{number_of};
ghost use Rattle.bitcode_columns.specs.Reading.{Reads, IsEndOf, Names, ints_fault, ints_stand_raw};

use bitcode_columns::byte::Byte;
use bitcode_columns::pack::pack_bytes;
use bitcode_columns::strict::read_bytes;
use bitcode_memory::error::{Error, Reason};
use bitcode_memory::fast::CowSlice;
use bitcode_memory::ints::known_bytes;
use std::alloc::Global;

mod signed;
mod unsigned;

// Appends the column of integers of one byte, which is a byte column: `pack_ints` would copy them first.
#[tactic(auto, unfolding(bitcode_columns::specs::IntColumn::int_text))]
fn pack_each_byte<T: Byte>(ints: &mut [T], out: &mut Vec<u8>) -> Result<(), Error>
    ensures written { OnOk result
        (out.new.items ≡ out.old.items ++ int_text 1 (map T.number ints.old)) }
    ensures unchanged { OnErr result (out.new.items ≡ out.old.items) }
    ensures reason { IfErr result (λ e. e.reason ≡ Reason.OutOfMemory) }
{
    pack_bytes(ints, out)
}

// So many bytes are copied to the stack, and packed there.
const FEW_BYTES: usize = 64;

// Reads the column of integers of one byte, which is a byte column: `read_ints` would copy what it unpacked.
fn unpack_each_byte<'a, T: Byte>(
    alloc: Global,
    input: &mut &'a [u8],
    count: usize,
    out: &mut CowSlice<'a, u8>,
    strict: bool,
) -> Result<bool, Error>
    ensures read { OnOk result
        (Reads (SpellsInts 1) count input.old.now
        (map (λ byte. little_endian (byte ∷ [])) (cow_rest out.new)) input.new.now) }
    ensures in_width { OnOk result
        (All (λ n. n < 256 ^ 1) (map (λ byte. little_endian (byte ∷ [])) (cow_rest out.new))) }
    ensures judged { IsTrue strict → IfOk result
        (λ written. IsTrue written
        ↔ (input.old.now ≡ int_text 1
        (map (λ byte. number_of 1 T.signed (little_endian (byte ∷ []))) (cow_rest out.new))
        ++ input.new.now)) }
    ensures refused { IfErr result (λ e. Names e.reason (ints_fault 1 count input.old.now)) }
    ensures rest { OnErr result (IsEndOf input.old.now input.new.now) }
    ensures raw { IsTrue (ints_stand_raw 1 count input.old.now)
        → IfErr result (λ e. e.reason ≢ Reason.OutOfMemory) }
{
    known_bytes(input);
    read_bytes::<T>(alloc, input, count, out, strict)
}

/// An integer type with a column, as its coders need it.
///
/// It has no more members than the coders use, so that code with a coder in a type is checked quickly: an
/// [`Int`](bitcode_memory::ints::Int) would add all its arithmetic.
pub trait ColumnInt: Copy {
    /// The number's bytes, the lowest first.
    type Une: Copy;

    // in bytes
    ghost width: { ℕ };

    ghost signed: { Bool };

    ghost number: { Self → ℤ };

    ghost une_bytes: { Self.Une → List ℕ };

    /// Appends the column of the integers, as [`pack_ints`](crate::pack_ints::pack_ints) does. The slice is
    /// scratch afterwards.
    ///
    /// If an allocation fails, the error is `out of memory` and `out` is unchanged.
    fn pack(alloc: Global, ints: &mut [Self], out: &mut Vec<u8>) -> Result<(), Error>
        ensures written { OnOk result
            (out.new.items ≡ out.old.items ++ int_text width (map number ints.old)) }
        ensures unchanged { OnErr result (out.new.items ≡ out.old.items) }
        ensures reason { IfErr result (λ e. e.reason ≡ Reason.OutOfMemory) };

    /// Appends the column of the integers, as [`ColumnInt::pack`] does, but leaves them unchanged. Returns whether it
    /// did: many integers of one byte return false. Then `out` is unchanged.
    ///
    /// If an allocation fails, the error is `out of memory` and `out` is unchanged.
    fn pack_slice(_alloc: Global, _ints: &[Self], _out: &mut Vec<u8>) -> Result<bool, Error>
        ensures written { IfOk result
            (λ done. IsTrue done → _out.new.items ≡ _out.old.items ++ int_text width
            (map number _ints.now)) }
        ensures not_done { IfOk result (λ done. IsFalse done → _out.new.items ≡ _out.old.items) }
        ensures unchanged { OnErr result (_out.new.items ≡ _out.old.items) }
        ensures reason { IfErr result (λ e. e.reason ≡ Reason.OutOfMemory) }
    {
        Ok(false)
    }

    /// Appends the column of one integer, as [`ColumnInt::pack`] does for several.
    fn pack_one(alloc: Global, int: Self, out: &mut Vec<u8>) -> Result<(), Error>
        ensures written { OnOk result
            (out.new.items ≡ out.old.items ++ int_text width (number int ∷ [])) }
        ensures unchanged { OnErr result (out.new.items ≡ out.old.items) }
        ensures reason { IfErr result (λ e. e.reason ≡ Reason.OutOfMemory) };

    /// Reads a column of `count` integers from the front of the input into `out`, as
    /// [`unpack_ints`](crate::pack_ints::unpack_ints) does. If `strict`, it returns whether the bytes are
    /// those that would be written for the integers. Otherwise the returned bool has no meaning.
    ///
    /// If bytes are missing, the error is `EOF`; for an unknown tag `invalid packing`; if an allocation fails,
    /// `out of memory`.
    fn unpack<'a>(
        alloc: Global,
        input: &mut &'a [u8],
        count: usize,
        out: &mut CowSlice<'a, Self::Une>,
        strict: bool,
    ) -> Result<bool, Error>
        ensures read { OnOk result
            (Reads (SpellsInts width) count input.old.now
            (map (λ u. little_endian (une_bytes u)) (cow_rest out.new)) input.new.now) }
        ensures judged { IsTrue strict → IfOk result
            (λ written. IsTrue written
            ↔ (input.old.now ≡ int_text width
            (map (λ u. number_of width signed (little_endian (une_bytes u))) (cow_rest out.new))
            ++ input.new.now)) }
        ensures in_width { OnOk result
            (All (λ n. n < 256 ^ width)
            (map (λ u. little_endian (une_bytes u)) (cow_rest out.new))) }
        ensures refused { IfErr result
            (λ e. Names e.reason (ints_fault width count input.old.now)) }
        ensures rest { OnErr result (IsEndOf input.old.now input.new.now) }
        ensures raw { IsTrue (ints_stand_raw width count input.old.now)
            → IfErr result (λ e. e.reason ≢ Reason.OutOfMemory) };

    /// The number with these bytes.
    fn from_unaligned(unaligned: Self::Une) -> Self
        ensures { number result ≡ number_of width signed (little_endian (une_bytes unaligned)) };

    ghost width_law: { IsWidth width };
}
