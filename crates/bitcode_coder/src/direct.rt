//! Reading from the front of an input with a decoder of its own, for decoders that hold another one.
ghost use Rattle.std.specs.Prelude.{IfSome};
ghost use Rattle.bitcode_coder.specs.Coder.{ReadsValue, ReadsValues};

use crate::coder::{Decoder, NewDecoder, View};
use bitcode_shapes::shaped::Shaped;
use std::alloc::Global;

/// Reads one value from the front of the input with a new decoder, as [`Decoder::read_one`] does.
///
/// The contract promises nothing of `None`: it is returned if the read or an allocation fails.
///
/// ```rust
/// let mut input: &[u8] = &[7, 9];
/// let first: Option<u8> = one_by_decoder::<u8, U8Decoder>(alloc, &mut input);
/// assert!(rt; first == Some(7) && input.len() == 1);
/// ```
#[inline(always)]
pub fn one_by_decoder<'a, T: Shaped, D: NewDecoder + View<'a> + Decoder<T> + Drop>(
    alloc: Global,
    input: &mut &'a [u8],
) -> Option<T>
    ensures { IfSome result
        (λ t. ReadsValue T.data.makes D.shape input.old.now t input.new.now) }
{
    let mut decoder = D::new(alloc);
    let Ok(_) = decoder.read(input, 1, false) else {
        return None;
    };
    let Ok(first) = decoder.decode() else {
        return None;
    };
    Some(first)
}

/// Reads `count` values from the front of the input with a new decoder, as [`Decoder::read_list`] does.
///
/// The contract promises nothing of `None`: it is returned if the read or an allocation fails.
///
/// ```rust
/// let mut input: &[u8] = &[7, 9];
/// let both: Option<Vec<u8>> = list_by_decoder::<u8, U8Decoder>(alloc, &mut input, 2);
/// assert!(rt; both.is_some() && input.is_empty());
/// ```
pub fn list_by_decoder<'a, T: Shaped + Drop, D: NewDecoder + View<'a> + Decoder<T> + Drop>(
    alloc: Global,
    input: &mut &'a [u8],
    count: usize,
) -> Option<Vec<T>>
    ensures { IfSome result
        (λ items. ReadsValues T.data.makes D.shape count input.old.now items.items input.new.now) }
{
    let mut decoder = D::new(alloc);
    let Ok(_) = decoder.read(input, count, false) else {
        return None;
    };
    // Nothing else refers to the moved decoder, so its positions can stay in registers.
    let mut unshared = decoder;
    let Ok(items) = unshared.decode_many(alloc, count) else {
        return None;
    };
    Some(items)
}
