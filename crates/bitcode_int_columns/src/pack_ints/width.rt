//! The widths of narrow numbers, and their tags.
ghost use Rattle.std.specs.Prelude.{◌≡◌, ◌-◌, ◌*◌, ◌≤◌, ◌≤ℤ◌, ◌==◌, ◌||◌, ◌&&◌, nat_lt};
ghost use Rattle.bitcode_columns.specs.IntColumn.{halvings, width_for};
ghost use Rattle.bitcode_int_columns.specs.Narrowing.{plain_width, shifted_width};

use bitcode_memory::ints::{Int, SizedUInt};

// The least width, in bytes, that holds a number.
pub(crate) fn width_for(number: u128) -> usize
    ensures { result ≡ width_for number }
{
    match number {
        0..0x100 => 1,
        0x100..0x1_0000 => 2,
        0x1_0000..0x1_0000_0000 => 4,
        0x1_0000_0000..0x1_0000_0000_0000_0000 => 8,
        _ => 16,
    }
}

// How often a width can be halved.
pub(crate) fn halvings(width: usize) -> u8
    ensures value { result ≡ halvings width }
    ensures few { result ≤ 4 }
{
    match width {
        0..2 => 0,
        2..4 => 1,
        4..8 => 2,
        8..16 => 3,
        _ => 4,
    }
}

// The tag of a column of one width whose narrow numbers have another.
pub(crate) fn tag_for(width: usize, narrow: usize) -> u8
    ensures { result ≡ 2 * (halvings width - halvings narrow) }
{
    2 * halvings(width).saturating_sub(halvings(narrow))
}

// The width of the unshifted entries: negative ones need the whole width.
pub(crate) fn plain_width<T: Int>(least: T, greatest: T) -> usize
    requires { T.number least ≤ℤ T.number greatest }
    ensures { result ≡ plain_width T.width (T.number least) (T.number greatest) }
{
    let zero = T::from_unsigned(T::Unsigned::from_wide(0));
    if least.is_less(zero) {
        return T::width();
    }
    width_for(greatest.to_unsigned().to_wide())
}

// The width of the entries without the least one.
pub(crate) fn shifted_width<T: Int>(least: T, greatest: T) -> usize
    requires { T.number least ≤ℤ T.number greatest }
    ensures { result ≡ shifted_width (T.number least) (T.number greatest) }
{
    let low = least.to_unsigned();
    let high = greatest.to_unsigned();
    width_for(high.wrapping_sub(low).to_wide())
}

// Whether entries of a width stand without a tag.
pub(crate) fn is_bare(width: usize, count: usize) -> bool
    ensures { result ≡ (count == 0 || (width == 2 && count == 1)) }
{
    count == 0 || width == 2 && count == 1
}

// Whether so many entries are written without the least one.
pub(crate) fn is_shifted(count: usize, plain: usize, shifted: usize) -> bool
    ensures { result ≡ (nat_lt 5 count && nat_lt shifted plain) }
{
    count > 5 && shifted < plain
}
