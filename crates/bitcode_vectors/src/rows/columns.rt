//! The rows of the command `column`.
use crate::column::Answer;
use bitcode_test_support::Got;
use std::alloc::Global;

/// The command with these words and this input prints these lines, and ends with this status.
fn answers(
    alloc: Global,
    kind: &str,
    count: &str,
    input: &str,
    (lines, status): (&str, u8),
) -> Result<(), Got> {
    let words = [b"column".as_slice(), kind.as_bytes(), count.as_bytes()];
    let answer = Answer::to(alloc, &words, input.as_bytes());
    let printed = format!(in alloc; "{answer}")?;
    match answer {
        _ if printed.as_str() == lines && answer.status() == status => Ok(()),
        Answer::Refused(error) => Err(Got::Refused(error)),
        _ => Err(Got::AnotherValue),
    }
}

/// What is printed for words and inputs that are not written as they have to be, and the status.
const MISUSE: (&str, u8) = ("usage: bitcode_vectors [column KIND COUNT]", 2);

/// One number is read, another is refused, and a word is missing.
pub fn one_number(alloc: Global) -> Result<(), Got> {
    answers(
        alloc,
        "u32",
        "1",
        "3 1 0 0 0 254 9",
        ("entries: [255]\nrest: [9]", 0),
    )?;
    answers(alloc, "u32", "1", "5 0", ("refused: invalid packing", 1))?;
    match Answer::to(alloc, &[b"column", b"u8"], b"") {
        Answer::Misuse => Ok(()),
        _ => Err(Got::AnotherValue),
    }
}

/// A column of each other kind, one that is too short, and a number that is no byte.
pub fn columns_of_each_kind(alloc: Global) -> Result<(), Got> {
    answers(
        alloc,
        "length",
        "3",
        "0 1 255 2 6 255",
        ("entries: [1, 255, 2]\nrest: []", 0),
    )?;
    let texts = "entries: [[226, 152, 186], [97]]\nrest: [5]";
    answers(alloc, "text", "2", "3 1 226 152 186 97 5", (texts, 0))?;
    answers(
        alloc,
        "text",
        "2",
        "1 2 226 152 186",
        ("refused: invalid utf8", 1),
    )?;
    answers(
        alloc,
        "variant3",
        "5",
        "243 7",
        ("entries: [0, 0, 0, 0, 0]\nrest: [7]", 0),
    )?;
    answers(
        alloc,
        "i8",
        "2",
        "255 128",
        ("entries: [-1, -128]\nrest: []", 0),
    )?;
    answers(alloc, "u8", "0", "", ("entries: []\nrest: []", 0))?;
    answers(
        alloc,
        "bool",
        "18446744073709551615",
        "255",
        ("refused: EOF", 1),
    )?;
    answers(alloc, "u16", "1", "256", MISUSE)
}
