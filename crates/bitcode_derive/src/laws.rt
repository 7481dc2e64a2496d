//! Laws that follow from the contracts of the calls for whole values. The functions only look at their values: their
//! contracts are the laws.
ghost use Rattle.std.specs.Prelude.{◌≡◌, ◌≢◌, ℕ, ◌<◌, ◌^◌, Bool, List, [], ◌∷◌, length, slice_index};
ghost use Rattle.std.specs.Prelude.{IsTrue, IfOk, IfErr};
ghost use Rattle.bitcode_memory.specs.declared.error.Reason.{Reason};
ghost use Rattle.bitcode_shapes.specs.Datum.{Datum};
ghost use Rattle.bitcode_shapes.specs.Shape.{Shape};
ghost use Rattle.bitcode_coder.specs.Coder.{IsReadingReason, IsReadingRefusal};
ghost use Rattle.bitcode_coder.specs.Columns.{CountsFit};
ghost use Rattle.bitcode_coder.specs.FirstFault.{IsFirstFault};
ghost use Rattle.bitcode_coder.specs.Spelling.{LengthsBelowLimit};
ghost use Rattle.bitcode_derive.specs.BorrowedTexts.{TextsStandIn, IsBorrowedFrom};
ghost use Rattle.bitcode_derive.specs.Front.{NamesFrontFault};
ghost use Rattle.bitcode_derive.specs.OneFault.{NamesAtMostOne};
ghost use Rattle.bitcode_derive.specs.ShortLengths.{elements_have_entries, has_no_lengths};
ghost use Rattle.bitcode_derive.specs.Strict.{IsStrictDecodingOf, IsStrictRefusal};
ghost use Rattle.bitcode_derive.specs.Whole.{columns_of_one, IsEncodingOf, HasLongListing, HasShortLengths};
ghost use Rattle.bitcode_derive.specs.Whole.{IsDecodingOf, NamesWholeFault, SpellsDatum};

use crate::whole;
use bitcode_memory::error::{Error, Reason};
use bitcode_shapes::keys::Key;
use bitcode_shapes::shaped::Shaped;
use std::alloc::Global;

/// The bytes that were written for a value decode to an equal value, if each column of lengths sums to less than
/// 2251799813685247.
///
/// The bytes spell the listing that was written. So `decode` fails only if an allocation fails, and its result is equal
/// to the value.
///
/// ```rust
/// let t = (true, 7u16);
/// let bytes = encode(alloc, &t)?;
/// let u: (bool, u16) = decode(alloc, &bytes)?;
/// round_trip(&t, &bytes, &u);
/// ```
pub fn round_trip<'a, T: Shaped>(t: &T, bytes: &'a [u8], u: &T)
    ensures spelled { (written : IsEncodingOf T.data.lists T.data.shape t.now bytes.now)
        → LengthsBelowLimit (columns_of_one T.data.shape written.datum)
        → SpellsDatum T.data.shape bytes.now written.datum }
    ensures equal { (written : IsEncodingOf T.data.lists T.data.shape t.now bytes.now)
        → LengthsBelowLimit (columns_of_one T.data.shape written.datum)
        → IsDecodingOf T.data.makes T.data.shape bytes.now u.now → T.data.same t.now u.now }
{
    t.told();
    u.told();
}

/// For the bytes that were written for a value, `decode` returns an equal value or `out of memory`, if in each listing
/// of the value each column of lengths sums to less than 2251799813685247.
///
/// ```rust
/// let t = (true, 7u16);
/// let bytes = encode(alloc, &t)?;
/// let again: Result<(bool, u16), Error> = decode(alloc, &bytes);
/// comes_back(&t, &bytes, &again);
/// ```
pub fn comes_back<'a, T: Shaped>(t: &T, bytes: &'a [u8], again: &Result<T, Error>)
    ensures equal { IsEncodingOf T.data.lists T.data.shape t.now bytes.now
        → HasShortLengths T.data.lists T.data.shape t.now
        → IfOk again.now (λ u. IsDecodingOf T.data.makes T.data.shape bytes.now u)
        → IfOk again.now (λ u. T.data.same t.now u) }
    ensures refused { IsEncodingOf T.data.lists T.data.shape t.now bytes.now
        → HasShortLengths T.data.lists T.data.shape t.now
        → IfErr again.now
        (λ e. e.reason ≢ Reason.OutOfMemory → (d : Datum) → SpellsDatum T.data.shape bytes.now d
        → ⊥)
        → IfErr again.now (λ e. e.reason ≡ Reason.OutOfMemory) }
{
    t.told();
    if let Ok(u) = again {
        u.told();
    }
}

/// For the bytes that were written for a value, `decode` returns an equal value or `out of memory`, if there are fewer
/// than 281474976710656 of them, and each element of a list, set or map gives some column an entry.
///
/// The program can count the bytes, and for a type `refl` proves that its elements have entries. An element without
/// entries is one like `()`, of which no bytes tell how many there are.
///
/// ```rust
/// let t = (true, 7u16);
/// let bytes = encode(alloc, &t)?;
/// let again: Result<(bool, u16), Error> = decode(alloc, &bytes);
/// comes_back_in_bytes(&t, &bytes, &again);
/// ```
pub fn comes_back_in_bytes<'a, T: Shaped>(t: &T, bytes: &'a [u8], again: &Result<T, Error>)
    ensures equal { IsTrue (elements_have_entries T.data.shape)
        → IsEncodingOf T.data.lists T.data.shape t.now bytes.now → length bytes.now < 2 ^ 48
        → IfOk again.now (λ u. IsDecodingOf T.data.makes T.data.shape bytes.now u)
        → IfOk again.now (λ u. T.data.same t.now u) }
    ensures refused { IsTrue (elements_have_entries T.data.shape)
        → IsEncodingOf T.data.lists T.data.shape t.now bytes.now → length bytes.now < 2 ^ 48
        → IfErr again.now
        (λ e. e.reason ≢ Reason.OutOfMemory → (d : Datum) → SpellsDatum T.data.shape bytes.now d
        → ⊥)
        → IfErr again.now (λ e. e.reason ≡ Reason.OutOfMemory) }
{
    t.told();
    if let Ok(read) = again {
        read.told();
    }
}

/// A value has short lengths if its type has none: no text, list, set or map inside.
///
/// ```rust
/// no_lengths(&(true, 7u16));
/// ```
pub fn no_lengths<T: Shaped>(t: &T)
    ensures { IsTrue (has_no_lengths T.data.shape)
        → HasShortLengths T.data.lists T.data.shape t.now }
{}

/// `decode_strict` returns a value for the bytes that `encode` writes for it, and for no other bytes, if its type has
/// no set, map or heap inside. The lengths of each column must be short enough to be read back.
///
/// ```rust
/// let t = (true, 7u16);
/// strictly_written(&t, &encode(alloc, &t)?);
/// ```
pub fn strictly_written<'a, T: Shaped>(t: &T, bytes: &'a [u8])
    ensures written { IsTrue T.data.determined
        → IsStrictDecodingOf T.data.makes T.data.shape bytes.now t.now
        → IsEncodingOf T.data.lists T.data.shape t.now bytes.now }
    ensures read { IsTrue T.data.determined → HasShortLengths T.data.lists T.data.shape t.now
        → IsEncodingOf T.data.lists T.data.shape t.now bytes.now
        → IsStrictDecodingOf T.data.makes T.data.shape bytes.now t.now }
{
    t.told();
}

/// For the bytes that were written for a value of any type, `decode_strict` returns an equal value or `out of memory`.
/// The lengths are as for [`comes_back`].
///
/// ```rust
/// let t = (true, 7u16);
/// let bytes = encode(alloc, &t)?;
/// let again: Result<(bool, u16), Error> = decode_strict(alloc, &bytes);
/// comes_back_strictly(&t, &bytes, &again);
/// ```
pub fn comes_back_strictly<'a, T: Shaped>(t: &T, bytes: &'a [u8], again: &Result<T, Error>)
    ensures equal { IsEncodingOf T.data.lists T.data.shape t.now bytes.now
        → HasShortLengths T.data.lists T.data.shape t.now
        → IfOk again.now (λ u. IsStrictDecodingOf T.data.makes T.data.shape bytes.now u)
        → IfOk again.now (λ u. T.data.same t.now u) }
    ensures refused { IsEncodingOf T.data.lists T.data.shape t.now bytes.now
        → HasShortLengths T.data.lists T.data.shape t.now
        → IfErr again.now (λ e. IsStrictRefusal T.data.shape e.reason bytes.now)
        → IfErr again.now (λ e. e.reason ≡ Reason.OutOfMemory) }
{
    t.told();
    if let Ok(found) = again {
        found.told();
    }
}

/// For the bytes that were written for a value, `decode` returns a value that is `==` to it, or `out of memory`. The
/// type must be a [`Key`]: its `==` decides whether two values are the same. The lengths are as for [`comes_back`].
///
/// ```
/// let bytes = encode(alloc, &t)?;
/// let again = decode(alloc, &bytes);
/// comes_back_equal(&t, &bytes, &again);
/// again // Ok(u) with u == t
/// ```
pub fn comes_back_equal<'a, T: Shaped + Key>(t: &T, bytes: &'a [u8], again: &Result<T, Error>)
    ensures { IsEncodingOf T.data.lists T.data.shape t.now bytes.now
        → HasShortLengths T.data.lists T.data.shape t.now
        → IfOk again.now (λ u. IsDecodingOf T.data.makes T.data.shape bytes.now u)
        → IfOk again.now (λ u. IsTrue (T.eq t.now u)) }
{
    t.told();
    if let Ok(u) = again {
        u.told();
    }
}

/// A value without an internal order, such as a hashed container or a heap has, is encoded to the same bytes each time.
///
/// ```rust
/// let t = (true, 7u16);
/// let bytes = encode(alloc, &t)?;
/// let again = encode(alloc, &t)?;
/// one_text(&t, &bytes, &again);
/// ```
pub fn one_text<T: Shaped>(t: &T, bytes: &[u8], again: &[u8])
    ensures { IsTrue T.data.in_order → IsEncodingOf T.data.lists T.data.shape t.now bytes.now
        → IsEncodingOf T.data.lists T.data.shape t.now again.now → bytes.now ≡ again.now }
{
    t.told();
}

/// Two values that are the same are encoded to the same bytes, if their type has no set, map or heap inside.
///
/// Two sets that are the same may keep different ones of equal keys, and a heap has an order of its own.
///
/// ```rust
/// let t = (true, 7u16);
/// let u = (true, 7u16);
/// same_bytes(&t, &encode(alloc, &t)?, &u, &encode(alloc, &u)?);
/// ```
pub fn same_bytes<T: Shaped>(t: &T, bytes: &[u8], u: &T, others: &[u8])
    ensures { IsTrue T.data.determined → T.data.same t.now u.now
        → IsEncodingOf T.data.lists T.data.shape t.now bytes.now
        → IsEncodingOf T.data.lists T.data.shape u.now others.now → bytes.now ≡ others.now }
{
    t.told();
    u.told();
}

/// Two values that are decoded from the same bytes are equal.
///
/// ```rust
/// let bytes: &[u8] = &[1, 7, 0];
/// let t: (bool, u16) = decode(alloc, bytes)?;
/// let u: (bool, u16) = decode(alloc, bytes)?;
/// one_value(bytes, &t, &u);
/// ```
pub fn one_value<'a, T: Shaped>(bytes: &'a [u8], t: &T, u: &T)
    ensures { IsDecodingOf T.data.makes T.data.shape bytes.now t.now
        → IsDecodingOf T.data.makes T.data.shape bytes.now u.now → T.data.same t.now u.now }
{
    t.told();
    u.told();
}

/// Unless an allocation fails, `encode` returns `length overflow` exactly if in some listing of the value, and so in
/// each, a number of arrays times their size exceeds 18446744073709551615.
///
/// All listings of a value hold the same numbers of arrays. So if bytes are written, no listing has such an overflow,
/// and if `length overflow` is returned, each listing has one.
///
/// ```rust
/// let t = (true, 7u16);
/// let bytes = encode(alloc, &t)?;
/// overflows_exactly(&t, &bytes);
/// ```
pub fn overflows_exactly<T: Shaped>(t: &T, bytes: &[u8])
    ensures written { IsEncodingOf T.data.lists T.data.shape t.now bytes.now → (d : Datum)
        → T.data.lists t.now d
        → CountsFit (columns_of_one T.data.shape d) }
    ensures refused { HasLongListing T.data.lists T.data.shape t.now → (d : Datum)
        → T.data.lists t.now d
        → CountsFit (columns_of_one T.data.shape d) → ⊥ }
{
    t.told();
}

/// A text that was decoded is the rest of the bytes after its length.
///
/// So a `&str` that `decode` returns is a slice of the input, for as long as the input lives.
///
/// ```rust
/// let bytes: &[u8] = &[2, 97, 98];
/// let text: &str = decode(alloc, bytes)?;
/// borrowed_text(bytes, &text); // the bytes from 1 to 3
/// ```
pub fn borrowed_text<'a>(bytes: &'a [u8], text: &&'a str)
    ensures { IsDecodingOf ⟦<&'a str as Shaped>⟧.data.makes ⟦<&'a str as Shaped>⟧.data.shape
        bytes.now text.now
        → IsBorrowedFrom bytes.now text.now.now }
{}

/// The texts of a decoded value are slices of the input. Each begins where the columns before its own, the lengths of
/// its column and the texts before it in its column end.
///
/// ```rust
/// let bytes: &[u8] = &[7, 2, 97, 98];
/// let pair: (u8, &str) = decode(alloc, bytes)?;
/// borrowed_texts(bytes, &pair); // "ab" is the bytes from 2 to 4
/// ```
pub fn borrowed_texts<'a, T: Shaped>(bytes: &'a [u8], t: &T)
    ensures { (found : IsDecodingOf T.data.makes T.data.shape bytes.now t.now)
        → TextsStandIn T.data.shape bytes.now (found.datum ∷ []) }
{}

/// The first fault of data of any shape. It means that no prefix of the input spells the data. An input has at most one
/// first fault, apart from `out of memory`: so `decode` and `decode_front` fail with at most one other reason.
///
/// ```
/// one_fault();
/// ```
pub fn one_fault()
    ensures refused { (shape : Shape) (reason : Reason) (k : ℕ) (input : List ℕ)
        → IsFirstFault shape reason k input → IsReadingRefusal shape reason k input }
    ensures once { (shape : Shape) (k : ℕ) (input : List ℕ)
        → NamesAtMostOne (λ reason. IsFirstFault shape reason k input) }
    ensures whole { (free : Bool) (shape : Shape) (bytes : List ℕ)
        → NamesAtMostOne (λ reason. NamesWholeFault free shape reason bytes) }
    ensures front { (free : Bool) (shape : Shape) (input : List ℕ)
        → NamesAtMostOne (λ reason. NamesFrontFault free shape reason input) }
{}

/// Decodes a text whose first byte is below 255, as `decode` does, without allocating.
///
/// Errors: the first fault of the input, and never `out of memory`.
///
/// ```rust
/// let text = short_text(alloc, &[2, 97, 98])?;
/// assert_eq!(rt; text, "ab");
/// ```
pub fn short_text<'a>(alloc: Global, bytes: &'a [u8]) -> Result<&'a str, Error>
    requires { slice_index bytes.now 0 < 255 }
    ensures found { IfOk result
        (λ text. IsDecodingOf ⟦<&'a str as Shaped>⟧.data.makes ⟦<&'a str as Shaped>⟧.data.shape
        bytes.now
        text) }
    ensures reasons { IfErr result (λ e. IsReadingReason e.reason) }
    ensures refused { IfErr result
        (λ e. e.reason ≢ Reason.OutOfMemory → (d : Datum)
        → SpellsDatum ⟦<&'a str as Shaped>⟧.data.shape bytes.now d → ⊥) }
    ensures free { IfErr result (λ e. e.reason ≢ Reason.OutOfMemory) }
{
    whole::decode(alloc, bytes)
}
