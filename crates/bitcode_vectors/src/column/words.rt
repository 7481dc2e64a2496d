//! Numbers as the command `column` takes them: decimal digits, in words.
use bitcode::Error;
use std::alloc::Global;

/// The most digits of a count, and those of a byte.
const COUNT_DIGITS: usize = 20;

const BYTE_DIGITS: usize = 3;

/// The number that so many digits at most spell; nothing where another byte is among them, or the number is over 2^64 -
/// 1.
fn number(word: &[u8], most_digits: usize) -> Option<usize> {
    if word.is_empty() || word.len() > most_digits {
        return None;
    }
    let mut number: usize = 0;
    for digit in word {
        if !digit.is_ascii_digit() {
            return None;
        }
        number = number
            .checked_mul(10)?
            .checked_add((*digit - b'0') as usize)?;
    }
    Some(number)
}

/// The count that a word spells: 1 to 20 digits, and at most 18446744073709551615.
pub fn count_of(word: &[u8]) -> Option<usize> {
    number(word, COUNT_DIGITS)
}

/// The byte that a word spells: 1 to 3 digits, and at most 255.
fn byte_of(word: &[u8]) -> Option<u8> {
    let number = number(word, BYTE_DIGITS)?;
    if number > u8::MAX as usize {
        return None;
    }
    Some(number as u8)
}

/// Whether the byte stands between words: a space, a tab, or a part of a line's end.
fn is_blank(byte: u8) -> bool {
    matches!(byte, b' ' | b'\t' | b'\n' | b'\r')
}

/// The bytes that the words of the text spell, in their order; nothing where a word spells none.
pub fn bytes_of(alloc: Global, text: &[u8]) -> Result<Option<Vec<u8>>, Error> {
    let mut bytes = Vec::new(alloc);
    for word in text.split(|byte| is_blank(*byte)) {
        if word.is_empty() {
            continue;
        }
        match byte_of(word) {
            Some(byte) => bytes.push(byte)?,
            None => return Ok(None),
        }
    }
    Ok(Some(bytes))
}
