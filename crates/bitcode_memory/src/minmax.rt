//! The least and the greatest of a list of integers.
ghost use Rattle.std.specs.Prelude.{◌≡◌, ◌<◌, ◌↔◌, length, map, All, IsSome, IfSome, []};
ghost use Rattle.bitcode_memory.specs.Ints.{IsNumber, least, greatest};

use crate::ints::{Int, SizedInt};

/// The least and the greatest of the entries, or `None` if there are none.
pub fn bounds<T: Int>(entries: &[T]) -> Option<(T, T)>
    ensures variant { IsSome result ↔ (0 < length entries.now) }
    ensures least { IfSome result (λ pair. T.number pair.0 ≡ least (map T.number entries.now)) }
    ensures greatest { IfSome result
        (λ pair. T.number pair.1 ≡ greatest (map T.number entries.now)) }
    ensures in_range { All (λ e. IsNumber T.width T.signed (T.number e)) entries.now }
{
    let (first, rest) = entries.split_first()?;
    let _in_range = first.to_unsigned();
    let mut least = *first;
    let mut greatest = *first;
    for entry in rest {
        let _in_range = entry.to_unsigned();
        if entry.is_less(least) {
            least = *entry;
        }
        if greatest.is_less(*entry) {
            greatest = *entry;
        }
    }
    Some((least, greatest))
}

/// The least and the greatest of the values. For an empty slice, the greatest and the least of the type.
///
/// Of `[3, -1, 2]` they are `(-1, 3)`. It does not allocate.
pub fn minmax<T: SizedInt>(values: &[T]) -> (T, T)
    ensures none { values.now ≡ [] → result ≡ (T.MAX, T.MIN) }
    ensures least { 0 < length values.now → T.number result.0 ≡ least (map T.number values.now) }
    ensures greatest { 0 < length values.now
        → T.number result.1 ≡ greatest (map T.number values.now) }
{
    match bounds(values) {
        Some(bounds) => bounds,
        None => (T::MAX, T::MIN),
    }
}
