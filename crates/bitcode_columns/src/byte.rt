//! Integers of one byte.
ghost use Rattle.std.specs.Prelude.{◌≡◌, ◌+◌, ◌≤◌, ◌++◌, length, map, vec_len, vec_capacity, refl};
ghost use Rattle.bitcode_memory.specs.Ints.{IsNumber, residue, number_of};

use bitcode_memory::ints::SizedInt;
use std::mem::replace;

/// A [`SizedInt`] of one byte: `u8` or `i8`.
pub trait Byte: SizedInt {
    /// Converts the number to its byte.
    fn to_byte(self) -> u8
        ensures value { result ≡ residue 1 (Self.number self) }
        ensures in_range { IsNumber 1 Self.signed (Self.number self) };

    /// Converts the byte to its number.
    fn from_byte(byte: u8) -> Self
        ensures { Self.number result ≡ number_of 1 Self.signed byte };

    /// Appends the bytes of the numbers. The caller must have reserved the room.
    fn push_bytes(numbers: &[Self], out: &mut Vec<u8>)
        requires { vec_len out.old + length numbers.now ≤ vec_capacity out.old }
        ensures { out.new.items ≡ out.old.items ++ map (λ n. residue 1 (Self.number n))
            numbers.now };

    ghost byte_law: { Self.width ≡ 1 };
}

impl Byte for u8 {
    fn to_byte(self) -> u8 {
        self
    }

    fn from_byte(byte: u8) -> u8 {
        byte
    }

    fn push_bytes(numbers: &[u8], out: &mut Vec<u8>) {
        out.extend_from_slice(numbers).unwrap();
    }

    ghost byte_law = { refl };
}

impl Byte for i8 {
    fn to_byte(self) -> u8 {
        self.cast_unsigned()
    }

    fn from_byte(byte: u8) -> i8 {
        byte.cast_signed()
    }

    fn push_bytes(numbers: &[i8], out: &mut Vec<u8>) {
        push_signed(numbers, out);
    }

    ghost byte_law = { refl };
}

// Appends the bytes of the numbers. The caller must have reserved the room. The list is passed by value and returned,
// so that its length stays in a register.
fn with_signed(numbers: &[i8], mut out: Vec<u8>) -> Vec<u8>
    requires { vec_len out + length numbers.now ≤ vec_capacity out }
    ensures { result.items ≡ out.items ++ map (residue 1) numbers.now }
{
    for number in numbers {
        out.push_reserved(number.cast_unsigned());
    }
    out
}

// Appends the bytes of the numbers in room that is there.
fn push_signed(numbers: &[i8], out: &mut Vec<u8>)
    requires { vec_len out.old + length numbers.now ≤ vec_capacity out.old }
    ensures { out.new.items ≡ out.old.items ++ map (residue 1) numbers.now }
{
    let alloc = *out.allocator();
    let held = replace(out, Vec::new(alloc));
    *out = with_signed(numbers, held);
}
