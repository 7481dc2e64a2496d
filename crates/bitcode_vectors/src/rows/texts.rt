//! The stored rows of texts, chars, checked integers and durations.
use crate::rows::untyped;
use bitcode::{Reason, U8Char, decode};
use bitcode_test_support::by_hand::foo::Foo;
use bitcode_test_support::{Got, decodes, encodes, refuses};
use std::alloc::Global;
use std::num::NonZeroU32;
use std::time::Duration;

/// A number and a text are the number's column and then the text's, in a pair as in a struct.
pub fn number_and_text(alloc: Global) -> Result<(), Got> {
    encodes(alloc, &(10u32, "abc"), &[4, 10, 3, 97, 98, 99])?;
    let foo = Foo { x: 10, y: "abc" };
    encodes(alloc, &foo, &[4, 10, 3, 97, 98, 99])
}

/// Nanoseconds are below one second.
pub fn durations(alloc: Global) -> Result<(), Got> {
    let longest = [
        0, 255, 255, 255, 255, 255, 255, 255, 255, 0, 255, 201, 154, 59,
    ];
    decodes(alloc, &longest, Duration::new(u64::MAX, 999_999_999))?;
    let longer = [
        0, 255, 255, 255, 255, 255, 255, 255, 255, 0, 0, 202, 154, 59,
    ];
    refuses::<Duration>(alloc, &longer, Reason::InvalidBitPattern)
}

/// 0 is no `NonZeroU32`, and a number that is no scalar value is no `char`.
pub fn checked_numbers(alloc: Global) -> Result<(), Got> {
    refuses::<NonZeroU32>(alloc, &[4, 0], Reason::InvalidBitPattern)?;
    decodes(alloc, &[4, 1], NonZeroU32::MIN)?;
    refuses::<char>(alloc, &[0, 255, 255, 255, 255], Reason::InvalidBitPattern)?;
    refuses::<char>(alloc, &[2, 0, 216], Reason::InvalidBitPattern)?;
    decodes(alloc, &[4, 97], 'a')?;
    untyped::leaves::surrogate(alloc)
}

/// Each text for itself is UTF-8, and is a slice of the input.
pub fn texts_read(alloc: Global) -> Result<(), Got> {
    refuses::<Vec<&str>>(alloc, &[2, 1, 2, 226, 152, 186], Reason::InvalidUtf8)?;
    let bytes = [2, 3, 3, 226, 152, 186, 226, 152, 186];
    let texts: Vec<&str> = decode(alloc, &bytes)?;
    match texts.as_slice() {
        [first, second] if first.as_bytes() == &bytes[3..6] && second.as_bytes() == &bytes[6..9] =>
            { Ok(()) }
        _ => Err(Got::AnotherValue),
    }
}

/// The lengths of texts come before their bytes, and bytes of texts stand as they are.
pub fn texts_written(alloc: Global) -> Result<(), Got> {
    let texts: Vec<&str> = vec![in alloc; "a", "", "b"]?;
    encodes(alloc, &texts, &[3, 10, 5, 97, 98])?;
    let chars: Vec<U8Char> = vec![in alloc; U8Char(255)]?;
    encodes(alloc, &chars, &[1, 255])?;
    refuses::<&str>(alloc, &[1, 255], Reason::InvalidUtf8)?;
    let mut letters = String::new(alloc);
    let mut bytes: Vec<u8> = vec![in alloc; 255, 6, 255]?;
    for _ in 0..255 {
        letters.push('a')?;
        bytes.push(97)?;
    }
    encodes(alloc, &letters.as_str(), bytes.as_slice())
}

/// A long text is looked at to its last byte: one byte there is no letter, and two are.
pub fn long_texts(alloc: Global) -> Result<(), Got> {
    let mut bytes: Vec<u8> = vec![in alloc; 129]?;
    let mut letters = String::new(alloc);
    for _ in 0..127 {
        bytes.push(97)?;
        letters.push('a')?;
    }
    letters.push('é')?;
    let mut text = Vec::from_slice(alloc, bytes.as_slice())?;
    text.extend_from_slice(&[195, 169])?;
    decodes(alloc, text.as_slice(), letters.as_str())?;
    bytes.extend_from_slice(&[97, 255])?;
    refuses::<&str>(alloc, bytes.as_slice(), Reason::InvalidUtf8)
}
