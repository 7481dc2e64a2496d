//! The entry of a column of one digit, as a slice that takes no memory.
ghost use Rattle.std.specs.Prelude.{◌≡◌, ◌≢◌, ◌<◌, [], ◌∷◌, length, map};
ghost use Rattle.bitcode_memory.specs.Ints.{bool_digit};
ghost use Rattle.bitcode_columns.specs.Digits.{SpellsDigits, digit, radix};

use crate::pack::Base;

// The numbers below 16, each alone.
static NUMBERS: [[u8; 1]; 16] = [
    [0],
    [1],
    [2],
    [3],
    [4],
    [5],
    [6],
    [7],
    [8],
    [9],
    [10],
    [11],
    [12],
    [13],
    [14],
    [15],
];

static FALSE: [bool; 1] = [false];

static TRUE: [bool; 1] = [true];

/// The bool of a column of this byte.
pub(crate) fn single_bool(byte: u8) -> &'static [bool]
    ensures spelled { SpellsDigits Base.Two (byte ∷ []) (map bool_digit result.now) }
    ensures len { length result.now ≡ 1 }
{
    if byte % 2 == 1 { &TRUE } else { &FALSE }
}

// The lowest digit of a byte.
fn lowest_digit(base: Base, byte: u8) -> u8
    ensures { result ≡ digit (radix base) byte 0 }
{
    (u16::from(byte) % base.radix()) as u8
}

// A number below 16, as a slice.
fn single_number(number: u8) -> &'static [u8]
    requires { number < 16 }
    ensures { result.now ≡ number ∷ [] }
{
    &NUMBERS[number as usize]
}

/// The digit of a column of this byte, whose base is below 256.
pub(crate) fn single_digit(base: Base, byte: u8) -> &'static [u8]
    requires { base ≢ Base.Whole }
    ensures spelled { SpellsDigits base (byte ∷ []) result.now }
    ensures len { length result.now ≡ 1 }
{
    single_number(lowest_digit(base, byte))
}
