//! The command `column`: it reads one column, whose bytes are given in decimal, and shows its entries and the bytes
//! behind it.
use crate::column::kinds::{Kind, kind_of};
use crate::column::words::{bytes_of, count_of};
use bitcode::Error;
use std::alloc::Global;
use std::fmt;

pub mod entries;
pub mod kinds;
pub mod words;

/// One column that is to be read: its kind, and how many entries it has.
#[derive(Clone, Copy)]
pub struct Request {
    kind: Kind,
    count: usize,
}

impl Request {
    /// What these words ask for, the first of them `column`; nothing where they are no such words.
    pub fn of(words: &[&[u8]]) -> Option<Request> {
        match words {
            [command, kind, count] if *command == b"column".as_slice() => Some(Request {
                kind: kind_of(kind)?,
                count: count_of(count)?,
            }),
            _ => None,
        }
    }

    /// Reads the column from the bytes that the input spells in decimal.
    pub fn answer(self, alloc: Global, input: &[u8]) -> Answer {
        match self.read(alloc, input) {
            Ok(Some((entries, rest))) => Answer::Column { entries, rest },
            Ok(None) => Answer::Misuse,
            Err(error) => Answer::Refused(error),
        }
    }

    /// The entries and what stands behind them; nothing where the input spells no bytes.
    fn read(self, alloc: Global, input: &[u8]) -> Result<Option<(String, String)>, Error> {
        let Some(bytes) = bytes_of(alloc, input)? else {
            return Ok(None);
        };
        let mut rest: &[u8] = &bytes;
        let entries = entries::list(alloc, self.kind, &mut rest, self.count)?;
        Ok(Some((entries, format!(in alloc; "{rest:?}")?)))
    }
}

/// What the command comes to. Its text is the lines that are printed.
#[derive(Drop)]
pub enum Answer {
    /// The entries, and the bytes behind the column, as lists in decimal.
    Column { entries: String, rest: String },
    /// The bytes are no such column, or want of memory came first.
    Refused(Error),
    /// The words or the input are malformed: the program prints its usage line.
    Misuse,
}

impl Answer {
    /// What the command comes to with these words and this input.
    pub fn to(alloc: Global, words: &[&[u8]], input: &[u8]) -> Answer {
        match Request::of(words) {
            Some(request) => request.answer(alloc, input),
            None => Answer::Misuse,
        }
    }

    /// The status that the program ends with.
    pub fn status(&self) -> u8 {
        match self {
            Answer::Column { .. } => 0,
            Answer::Refused(_) => 1,
            Answer::Misuse => 2,
        }
    }
}

impl fmt::Display for Answer {
    fn fmt<W: fmt::Write>(&self, f: &mut fmt::Formatter<W>) -> fmt::Result {
        match self {
            Answer::Column { entries, rest } => write!(f, "entries: {entries}\nrest: {rest}"),
            Answer::Refused(error) => write!(f, "refused: {error}"),
            Answer::Misuse => f.write_str("usage: bitcode_vectors [column KIND COUNT]"),
        }
    }
}
