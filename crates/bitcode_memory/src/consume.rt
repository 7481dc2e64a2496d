//! Taking bytes off the front of the input.
ghost use Rattle.std.specs.Prelude.{◌≡◌, ◌*◌, ◌^◌, ◌<◌, ◌≤◌, ◌↔◌, ◌∷◌, ◌++◌, length, take, drop, IsErr, IfOk, OnOk};
ghost use Rattle.std.specs.Prelude.{IfErr, OnErr};
ghost use Rattle.std.specs.List.{concat};
ghost use Rattle.std.specs.Simd.{first_chunks};

use crate::error::{Error, Reason};
use crate::refuse::err;

/// Takes the first `n` bytes off the front of the input.
///
/// From `[1, 2, 3]`, `consume_bytes` with `n` 2 takes `[1, 2]` and leaves `[3]`. If fewer than `n` bytes are left, the
/// error is `EOF` and the input is unchanged.
pub fn consume_bytes<'a>(input: &mut &'a [u8], n: usize) -> Result<&'a [u8], Error>
    ensures refused { IsErr result ↔ (length input.old.now < n) }
    ensures reason { IfErr result (λ e. e.reason ≡ Reason.Eof) }
    ensures unchanged { OnErr result (input.new.now ≡ input.old.now) }
    ensures taken { IfOk result (λ bytes. bytes.now ≡ take n input.old.now) }
    ensures size { IfOk result (λ bytes. length bytes.now ≡ n) }
    ensures rest { OnOk result (input.new.now ≡ drop n input.old.now) }
    ensures whole { IfOk result (λ bytes. input.old.now ≡ bytes.now ++ input.new.now) }
{
    let bytes = *input;
    if bytes.len() < n {
        return err(Reason::Eof);
    }
    let (front, rest) = bytes.split_at(n);
    *input = rest;
    Ok(front)
}

/// Takes the first byte off the front of the input.
///
/// If the input is empty, the error is `EOF` and the input is unchanged.
pub fn consume_byte(input: &mut &[u8]) -> Result<u8, Error>
    ensures refused { IsErr result ↔ (length input.old.now ≡ 0) }
    ensures reason { IfErr result (λ e. e.reason ≡ Reason.Eof) }
    ensures unchanged { OnErr result (input.new.now ≡ input.old.now) }
    ensures taken { IfOk result (λ byte. input.old.now ≡ byte ∷ input.new.now) }
{
    let bytes = *input;
    let Some((first, rest)) = bytes.split_first() else {
        return err(Reason::Eof);
    };
    *input = rest;
    Ok(*first)
}

/// Takes `k` arrays of `N` bytes each off the front of the input.
///
/// From `[1, 0, 2, 0, 3]`, two arrays of two bytes are `[[1, 0], [2, 0]]`, and `[3]` is left. If fewer than `k * N`
/// bytes are left, the error is `EOF` and the input is unchanged.
pub fn consume_byte_arrays<'a, const N: usize>(
    input: &mut &'a [u8],
    k: usize,
) -> Result<&'a [[u8; N]], Error>
    requires { 0 < N }
    ensures refused { IsErr result ↔ (length input.old.now < k * N) }
    ensures reason { IfErr result (λ e. e.reason ≡ Reason.Eof) }
    ensures unchanged { OnErr result (input.new.now ≡ input.old.now) }
    ensures taken { IfOk result (λ arrays. arrays.now ≡ first_chunks N k input.old.now) }
    ensures size { IfOk result (λ arrays. length arrays.now ≡ k) }
    ensures joined { IfOk result (λ arrays. concat arrays.now ≡ take (k * N) input.old.now) }
    ensures rest { OnOk result (input.new.now ≡ drop (k * N) input.old.now) }
    ensures whole { IfOk result (λ arrays. input.old.now ≡ concat arrays.now ++ input.new.now) }
{
    let bytes = *input;
    let (arrays, _) = bytes.as_chunks::<N>();
    if arrays.len() < k {
        return err(Reason::Eof);
    }
    *input = &bytes[k * N..];
    Ok(&arrays[..k])
}

/// Returns `Ok` at the end of the input, and the error `Expected EOF` if a byte is left.
pub fn expect_eof(input: &[u8]) -> Result<(), Error>
    ensures refused { IsErr result ↔ (0 < length input.now) }
    ensures reason { IfErr result (λ e. e.reason ≡ Reason.ExpectedEof) }
{
    if !input.is_empty() {
        return err(Reason::ExpectedEof);
    }
    Ok(())
}

/// Multiplies two lengths.
///
/// If the product exceeds 18446744073709551615, the error is `length overflow`.
pub fn mul_length(a: usize, b: usize) -> Result<usize, Error>
    ensures refused { IsErr result ↔ (2 ^ 64 ≤ a * b) }
    ensures reason { IfErr result (λ e. e.reason ≡ Reason.LengthOverflow) }
    ensures product { IfOk result (λ length. length ≡ a * b) }
{
    match a.checked_mul(b) {
        Some(product) => Ok(product),
        None => err(Reason::LengthOverflow),
    }
}
