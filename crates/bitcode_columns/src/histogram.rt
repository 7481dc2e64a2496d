//! Counting how often each byte occurs.
ghost use Rattle.std.specs.Prelude.{◌≡◌, ℕ, ◌+◌, ◌^◌, ◌<◌, length, slice_index};
ghost use Rattle.bitcode_columns.specs.Histogram.{AreCounts, count_of, counted};

/// Up to this many bytes are counted in one table, more in four.
pub(crate) const MOST_IN_ONE_TABLE: usize = 99;

/// Four tables of 256 counts, one after another.
type Tables = [usize; 1024];

/// Counts the bytes that are 0, that are 1, and so on up to 255.
///
/// ```rust
/// let counts = histogram(&[3, 7, 3]);
/// assert_eq!(rt; counts[3], 2);
/// assert_eq!(rt; counts[4], 0);
/// ```
pub fn histogram(bytes: &[u8]) -> [usize; 256]
    ensures { AreCounts 256 bytes.now result }
{
    if bytes.len() <= MOST_IN_ONE_TABLE {
        counts_below(bytes)
    } else {
        count_in_tables(bytes)
    }
}

/// Counts the bytes that are each number below `N`. It ignores all other bytes.
pub(crate) fn counts_below<const N: usize>(bytes: &[u8]) -> [usize; N]
    ensures { AreCounts N bytes.now result }
{
    let mut counts = [0; N];
    for byte in bytes {
        let value = *byte as usize;
        if value < N {
            counts[value] += 1;
        }
    }
    counts
}

/// Counts the bytes, sixteen at a time.
fn count_in_tables(bytes: &[u8]) -> [usize; 256]
    ensures { AreCounts 256 bytes.now result }
{
    let mut tables = [0; 1024];
    let (blocks, rest) = bytes.as_chunks::<16>();
    for block in blocks {
        count_each(block, &mut tables);
    }
    count_each(rest, &mut tables);
    sums_of(&tables)
}

/// Counts each byte in the table of its place, so that equal neighbors do not wait for each other's count. It is
/// inlined so that the compiler knows the number of bytes.
#[inline(always)]
fn count_each(bytes: &[u8], tables: &mut Tables)
    requires { (value : ℕ) → value < 256 → counted tables.old value + length bytes.now < 2 ^ 64 }
    ensures { (value : ℕ) → value < 256
        → counted tables.new value ≡ counted tables.old value + count_of value bytes.now }
{
    for place in 0..bytes.len() {
        let byte = bytes[place] as usize;
        tables[place % 4 * 256 + byte] += 1;
    }
}

/// Adds the four tables up.
fn sums_of(tables: &Tables) -> [usize; 256]
    requires { (value : ℕ) → value < 256 → counted tables.now value < 2 ^ 64 }
    ensures { (value : ℕ) → value < 256 → slice_index result value ≡ counted tables.now value }
{
    let mut sums = [0; 256];
    for value in 0..256 {
        sums[value] = tables[value]
            + tables[256 + value]
            + tables[512 + value]
            + tables[768 + value];
    }
    sums
}
