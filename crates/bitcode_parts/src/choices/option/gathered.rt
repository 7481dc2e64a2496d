//! Collecting the variants of several options, and their values.
ghost use Rattle.std.specs.Prelude.{◌≡◌, ◌<◌, ◌≤◌, [], length, map, take, IfNone, OnSome, OnOk, IfErr};
ghost use Rattle.bitcode_coder.specs.Columns.{emptied};
ghost use Rattle.bitcode_coder.specs.Coder.{JoinsEach, OverflowsWithEach, IsWritingRefusal};
ghost use Rattle.bitcode_parts.specs.Options.{option_index, values_in};

use crate::choices::gathered::SaysVariant;
use crate::choices::variant::encode_payloads;
use bitcode_coder::coder::{Buffer, EncodeMany, MAX_VECTORED_CHUNK};
use bitcode_coder::part::Part;
use bitcode_memory::error::Error;
use bitcode_shapes::shaped::Shaped;

// Says which variant an option is of: 0 for none, 1 for a value.
pub(super) struct OptionVariant {}

impl<T> SaysVariant<Option<T>> for OptionVariant {
    ghost count = { 2 };

    ghost variant = { option_index };

    fn variant(option: &Option<T>) -> u8 {
        match option {
            None => 0,
            Some(_) => 1,
        }
    }
}

// The first value among a part of each item.
fn first_value<'a, S, T, W: Part<S, Option<T>>>(items: &'a [S], which: &'a W) -> Option<&'a T>
    ensures some { OnSome result (0 < length (values_in (map (W.of which.now) items.now))) }
    ensures none { IfNone result (values_in (map (W.of which.now) items.now) ≡ []) }
{
    for item in items {
        if let Some(value) = which.part(item) {
            return Some(value);
        }
    }
    None
}

// References to the values among a part of each item, and how many they are.
fn gather_values<'a, S, T, W: Part<S, Option<T>>>(
    items: &'a [S],
    which: &'a W,
    values: &mut [&'a T; MAX_VECTORED_CHUNK],
) -> usize
    requires { length items.now ≤ MAX_VECTORED_CHUNK }
    ensures count { result ≤ MAX_VECTORED_CHUNK }
    ensures long { length values.new ≡ MAX_VECTORED_CHUNK }
    ensures values { map (λ value. value.now) (take result values.new) ≡ values_in
        (map (W.of which.now) items.now) }
{
    let mut count = 0;
    for item in items {
        if let Some(value) = which.part(item) {
            values[count] = value;
            count += 1;
        }
    }
    count
}

// Reserves room for exactly the values among a part of each item, and adds them to the columns. The array of references
// to them is not allocated: it is first filled with one of them.
fn encode_from<'a, S, T: Shaped, W: Part<S, Option<T>>, E: Buffer + EncodeMany<T>>(
    encoder: &mut E,
    first: &'a T,
    items: &'a [S],
    which: &'a W,
) -> Result<(), Error>
    requires chunk { length items.now ≤ MAX_VECTORED_CHUNK }
    requires any { 0 < length (values_in (map (W.of which.now) items.now)) }
    ensures joined { OnOk result
        (JoinsEach T.data.lists T.data.shape (values_in (map (W.of which.now) items.now))
        (E.columns encoder.old) (E.columns encoder.new)) }
    ensures form { emptied (E.columns encoder.new) ≡ emptied (E.columns encoder.old) }
    ensures refused { IfErr result
        (λ e. IsWritingRefusal e.reason
        (OverflowsWithEach T.data.lists T.data.shape (values_in (map (W.of which.now) items.now))
        (E.columns encoder.old))) }
{
    let mut values = [first; MAX_VECTORED_CHUNK];
    let count = gather_values(items, which, &mut values);
    encode_payloads(encoder, &values[..count])
}

// Makes room for the values among a part of each item, if there are any.
pub(super) fn encode_values<'a, S, T: Shaped, W: Part<S, Option<T>>, E: Buffer + EncodeMany<T>>(
    encoder: &mut E,
    items: &'a [S],
    which: &'a W,
) -> Result<(), Error>
    requires { length items.now ≤ MAX_VECTORED_CHUNK }
    ensures joined { OnOk result
        (JoinsEach T.data.lists T.data.shape (values_in (map (W.of which.now) items.now))
        (E.columns encoder.old) (E.columns encoder.new)) }
    ensures form { emptied (E.columns encoder.new) ≡ emptied (E.columns encoder.old) }
    ensures refused { IfErr result
        (λ e. IsWritingRefusal e.reason
        (OverflowsWithEach T.data.lists T.data.shape (values_in (map (W.of which.now) items.now))
        (E.columns encoder.old))) }
{
    match first_value(items, which) {
        None => Ok(()),
        Some(first) => encode_from(encoder, first, items, which),
    }
}
