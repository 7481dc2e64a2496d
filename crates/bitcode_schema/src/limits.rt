//! Limits on lengths that are known only at run time.
#![tactic(auto, unfolding(bitcode_coder::specs::Length::short_left, bitcode_coder::specs::Length::lengths_left))]

ghost use Rattle.std.specs.Prelude.{◌≡◌, ◌≤◌, Some, length, All, MatchBool};
ghost use Rattle.bitcode_coder.specs.Length.{short_left, lengths_left};
ghost use Rattle.bitcode_coder.specs.LengthColumn.{KeepsCap};

use bitcode_coder::length::LengthDecoder;

// The byte of a length column that announces a large length.
const ESCAPE: usize = 255;

// Whether one of the `k` lengths is over the limit.
fn is_any_over(lengths: &mut LengthDecoder<'_>, k: usize, limit: usize) -> bool
    requires { length (lengths_left lengths.old) ≡ k }
    ensures { MatchBool result (All (λ n. n ≤ limit) (lengths_left lengths.old) → ⊥)
        (All (λ n. n ≤ limit) (lengths_left lengths.old)) }
{
    for _ in 0..k {
        if lengths.decode() > limit {
            return true;
        }
    }
    false
}

// The same of a limit below 255, which every large length exceeds.
fn exceed_short(lengths: &mut LengthDecoder<'_>, k: usize, limit: usize) -> bool
    requires { length (lengths_left lengths.old) ≡ k }
    ensures { MatchBool result
        (KeepsCap (Some 254) (short_left lengths.old) (lengths_left lengths.old)
        × All (λ n. n ≤ limit) (lengths_left lengths.old) → ⊥)
        (KeepsCap (Some 254) (short_left lengths.old) (lengths_left lengths.old)
        × All (λ n. n ≤ limit) (lengths_left lengths.old)) }
{
    if lengths.any_greater_than::<254>() {
        return true;
    }
    is_any_over(lengths, k, limit)
}

// The same of any limit. One below 255 applies to the short bytes, so that every large length exceeds it.
fn exceed_limit(lengths: &mut LengthDecoder<'_>, k: usize, limit: usize) -> bool
    requires { length (lengths_left lengths.old) ≡ k }
    ensures { MatchBool result
        (KeepsCap (Some limit) (short_left lengths.old) (lengths_left lengths.old) → ⊥)
        (KeepsCap (Some limit) (short_left lengths.old) (lengths_left lengths.old)) }
{
    if limit < ESCAPE {
        return exceed_short(lengths, k, limit);
    }
    is_any_over(lengths, k, limit)
}

/// Whether one of the `k` lengths that were read exceeds the capacity, if there is one.
pub(crate) fn exceed(lengths: &mut LengthDecoder<'_>, k: usize, capacity: Option<usize>) -> bool
    requires { length (lengths_left lengths.old) ≡ k }
    ensures { MatchBool result
        (KeepsCap capacity (short_left lengths.old) (lengths_left lengths.old) → ⊥)
        (KeepsCap capacity (short_left lengths.old) (lengths_left lengths.old)) }
{
    match capacity {
        None => false,
        Some(limit) => exceed_limit(lengths, k, limit),
    }
}
