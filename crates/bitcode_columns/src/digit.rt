//! Entries that can be digits of a byte.
ghost use Rattle.std.specs.Prelude.{◌≡◌, ℕ, ◌+◌, ◌<◌, ◌≤◌, ◌++◌, length, map, vec_len, vec_capacity};
ghost use Rattle.std.specs.List.{range_with_len};
ghost use Rattle.bitcode_columns.specs.Digits.{digit};
ghost use Rattle.bitcode_memory.specs.Ints.{residue, bool_digit};

use crate::byte::Byte;

/// An entry that can be a digit of a byte.
pub trait Digit: Copy {
    // The entry as a number.
    ghost digit_of: { Self → ℕ };

    // What these numbers are below.
    ghost limit: { ℕ };

    /// The number of the entry.
    fn to_digit(self) -> u8
        ensures { result ≡ digit_of self };

    /// The entry with this number.
    fn from_digit(digit: u8) -> Self
        requires { digit < limit }
        ensures { digit_of result ≡ digit };

    /// Overwrites eight entries with the eight base-2 digits of a byte, the lowest first.
    fn put_bits(byte: u8, entries: &mut [Self])
        requires size { length entries.old ≡ 8 }
        requires in_limit { 2 ≤ limit }
        ensures { map digit_of entries.new ≡ map (digit 2 byte) (range_with_len 0 8) };

    /// Appends each entry as a byte of its own. The caller must have reserved the room.
    fn push_whole(entries: &[Self], out: &mut Vec<u8>)
        requires { vec_len out.old + length entries.now ≤ vec_capacity out.old }
        ensures { out.new.items ≡ out.old.items ++ map digit_of entries.now };
}

impl<T: Byte> Digit for T {
    ghost digit_of = { λ entry. residue 1 (T.number entry) };

    ghost limit = { 256 };

    fn to_digit(self) -> u8 {
        self.to_byte()
    }

    fn from_digit(digit: u8) -> T {
        T::from_byte(digit)
    }

    fn put_bits(byte: u8, entries: &mut [T]) {
        entries.copy_from_slice(&[
            T::from_byte(byte % 2),
            T::from_byte(byte / 2 % 2),
            T::from_byte(byte / 4 % 2),
            T::from_byte(byte / 8 % 2),
            T::from_byte(byte / 16 % 2),
            T::from_byte(byte / 32 % 2),
            T::from_byte(byte / 64 % 2),
            T::from_byte(byte / 128),
        ]);
    }

    fn push_whole(entries: &[T], out: &mut Vec<u8>) {
        T::push_bytes(entries, out);
    }
}

// The bits of a number, the lowest first.
macro_rules! bits {
    ($number:expr) => {
        [
            $number % 2 == 1,
            $number / 2 % 2 == 1,
            $number / 4 % 2 == 1,
            $number / 8 % 2 == 1,
            $number / 16 % 2 == 1,
            $number / 32 % 2 == 1,
            $number / 64 % 2 == 1,
            $number / 128 % 2 == 1,
        ]
    };
}

// The bits of each number from the given ones to 15 above them.
macro_rules! bits_from {
    ($($first:expr),*) => {
        [$(
            bits!($first),
            bits!($first + 1),
            bits!($first + 2),
            bits!($first + 3),
            bits!($first + 4),
            bits!($first + 5),
            bits!($first + 6),
            bits!($first + 7),
            bits!($first + 8),
            bits!($first + 9),
            bits!($first + 10),
            bits!($first + 11),
            bits!($first + 12),
            bits!($first + 13),
            bits!($first + 14),
            bits!($first + 15),
        )*]
    };
}

// The bits of each byte, the lowest first.
static BITS: [[bool; 8]; 256] = bits_from![
    0, 16, 32, 48, 64, 80, 96, 112, 128, 144, 160, 176, 192, 208, 224, 240
];

// The bits of a byte, the lowest first. It is a copy, so that the compiler knows that it does not overlap the output.
fn bits_of(byte: u8) -> [bool; 8]
    ensures { map bool_digit result ≡ map (digit 2 byte) (range_with_len 0 8) }
{
    BITS[byte as usize]
}

impl Digit for bool {
    ghost digit_of = { bool_digit };

    ghost limit = { 2 };

    fn to_digit(self) -> u8 {
        u8::from(self)
    }

    fn from_digit(digit: u8) -> bool {
        digit == 1
    }

    fn put_bits(byte: u8, entries: &mut [bool]) {
        let bits = bits_of(byte);
        entries.copy_from_slice(&bits);
    }

    fn push_whole(entries: &[bool], out: &mut Vec<u8>) {
        for entry in entries {
            out.push_reserved(u8::from(*entry));
        }
    }
}
